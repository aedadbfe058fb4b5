//! How many nodes a checked tree has: a count goes from part to part, and stays at its largest
//! value once it is there.

ghost use Rattle.std.specs.Prelude.{◌≡◌, ◌+◌, map, option_map};
ghost use Rattle.ui_core.specs.Cost as spec;
ghost use Rattle.ui_core.specs.Cost.{capped};
ghost use Rattle.ui_core.specs.View as seen;
ghost use Rattle.ui_core.specs.View.{view, stmt_view, clause_view, body_view, field_with};
ghost use Rattle.ui_core.specs.View.{item_with, entry_with};

use crate::tree::{Body, Clause, Entry, Expr, FieldValue, IndexedValue, Places, Stmt};
use sqlite_items::Boxed;

#[cycle(count)]
fn count_exprs(count: u64, parts: &[Expr]) -> u64
    ensures { result ≡ capped (count + spec.exprs_cost (seen.exprs (map view parts.now))) }
{
    let mut total = count;
    for part in parts {
        total = count_expr(total, part);
    }
    total
}

#[cycle(count)]
fn count_fields(count: u64, parts: &[FieldValue<Expr>]) -> u64
    ensures { result ≡ capped (count + spec.fields_cost
        (seen.field_values (map (field_with view) parts.now))) }
{
    let mut total = count;
    for part in parts {
        total = count_expr(total, &part.value);
    }
    total
}

#[cycle(count)]
fn count_items(count: u64, parts: &[IndexedValue<Expr>]) -> u64
    ensures { result ≡ capped (count + spec.items_cost
        (seen.indexed_values (map (item_with view) parts.now))) }
{
    let mut total = count;
    for part in parts {
        total = count_expr(total, &part.value);
    }
    total
}

#[cycle(count)]
fn count_entries(count: u64, parts: &[Entry<Expr>]) -> u64
    ensures { result ≡ capped (count + spec.entries_cost
        (seen.entries (map (entry_with view) parts.now))) }
{
    let mut total = count;
    for part in parts {
        total = count_expr(total, &part.key);
        total = count_expr(total, &part.value);
    }
    total
}

#[cycle(count)]
fn count_places(count: u64, parts: &[Option<Expr>]) -> u64
    ensures { result ≡ capped (count + spec.places_cost
        (seen.assigned_all (map (option_map view) parts.now))) }
{
    let mut total = count;
    for part in parts {
        if let Some(part) = part {
            total = count_expr(total, part);
        }
    }
    total
}

#[cycle(count)]
fn count_stmts(count: u64, parts: &[Stmt]) -> u64
    ensures { result ≡ capped (count + spec.stmts_cost (seen.stmts (map stmt_view parts.now))) }
{
    let mut total = count;
    for part in parts {
        total = count_stmt(total, part);
    }
    total
}

#[cycle(count)]
#[tactic(auto, using(std::proofs::lemmas::Grind::common_steps, crate::specs::Views::clause_opened))]
fn count_clauses(count: u64, parts: &[Clause]) -> u64
    ensures { result ≡ capped (count + spec.clauses_cost
        (seen.clauses (map clause_view parts.now))) }
{
    let mut total = count;
    for part in parts {
        total = count_exprs(total, part.values.as_slice());
        total = count_stmts(total, part.stmts.as_slice());
    }
    total
}

#[cycle(count)]
fn count_maybe(count: u64, part: &Option<Boxed<Expr>>) -> u64
    ensures { result ≡ capped (count + spec.maybe_cost (seen.maybe (option_map view part.now))) }
{
    match part {
        Some(part) => count_expr(count, part.get()),
        None => count,
    }
}

#[cycle(count)]
fn count_place(count: u64, part: &Option<Expr>) -> u64
    ensures { result ≡ capped (count + spec.maybe_cost (seen.maybe (option_map view part.now))) }
{
    match part {
        Some(part) => count_expr(count, part),
        None => count,
    }
}

#[cycle(count)]
#[tactic(auto, using(std::proofs::lemmas::Grind::common_steps, crate::specs::Views::variants))]
fn count_expr(count: u64, of: &Expr) -> u64
    ensures { result ≡ capped (count + spec.expr_cost (view of.now)) }
{
    let count = count.saturating_add(1);
    match of {
        Expr::Const { .. }
        | Expr::Nil(_)
        | Expr::Zero(_)
        | Expr::Local(_)
        | Expr::Global { .. }
        | Expr::Func(_) => count,
        Expr::Unary { of, .. }
        | Expr::Convert { of, .. }
        | Expr::Field { of, .. }
        | Expr::Deref(of)
        | Expr::Addr(of)
        | Expr::Assert { of, .. }
        | Expr::OkAssert { of, .. } => count_expr(count, of.get()),
        Expr::Binary {
            left: first,
            right: second,
            ..
        }
        | Expr::Index {
            of: first,
            at: second,
        }
        | Expr::OkIndex {
            of: first,
            at: second,
        } => {
            let count = count_expr(count, first.get());
            count_expr(count, second.get())
        }
        Expr::Slice { of, low, high, max } => {
            let count = count_expr(count, of.get());
            let count = count_maybe(count, low);
            let count = count_maybe(count, high);
            count_maybe(count, max)
        }
        Expr::StructLit { fields, .. } => count_fields(count, fields.as_slice()),
        Expr::ListLit { items, .. } => count_items(count, items.as_slice()),
        Expr::MapLit { entries, .. } => count_entries(count, entries.as_slice()),
        Expr::Call { args, .. } | Expr::MethodCall { args, .. } | Expr::Builtin { args, .. } => {
            count_exprs(count, args.as_slice())
        }
        Expr::DynCall { of, args, .. }
        | Expr::ParamCall { of, args, .. }
        | Expr::ValueCall { of, args } => {
            let count = count_expr(count, of.get());
            count_exprs(count, args.as_slice())
        }
        Expr::Inline { args, body, .. } => {
            let count = count_exprs(count, args.as_slice());
            count_body(count, body.get())
        }
    }
}

#[cycle(count)]
#[tactic(auto, using(std::proofs::lemmas::Grind::common_steps, crate::specs::Views::stmt_variants))]
fn count_stmt(count: u64, of: &Stmt) -> u64
    ensures { result ≡ capped (count + spec.stmt_cost (stmt_view of.now)) }
{
    let count = count.saturating_add(1);
    match of {
        Stmt::Expr(of) => count_expr(count, of),
        Stmt::Define { values, .. } | Stmt::Return(values) => {
            count_exprs(count, values.as_slice())
        }
        Stmt::Assign { places, values } => {
            let count = count_places(count, places.as_slice());
            count_exprs(count, values.as_slice())
        }
        Stmt::OpAssign { place, value, .. } => {
            let count = count_expr(count, place);
            count_expr(count, value)
        }
        Stmt::Block(stmts) => count_stmts(count, stmts.as_slice()),
        Stmt::If {
            condition,
            then,
            otherwise,
        } => {
            let count = count_expr(count, condition);
            let count = count_stmts(count, then.as_slice());
            count_stmts(count, otherwise.as_slice())
        }
        Stmt::For {
            init,
            condition,
            post,
            body,
        } => {
            let count = count_stmts(count, init.as_slice());
            let count = count_place(count, condition);
            let count = count_stmts(count, post.as_slice());
            count_stmts(count, body.as_slice())
        }
        Stmt::Range { places, over, body } => {
            let count = count_expr(count, over);
            let count = count_stmts(count, body.as_slice());
            match places {
                Places::None | Places::Define { .. } => count,
                Places::Assign { first, second } => {
                    let count = count_place(count, first);
                    count_place(count, second)
                }
            }
        }
        Stmt::Switch {
            on,
            clauses,
            default,
        } => {
            let count = count_expr(count, on);
            let count = count_clauses(count, clauses.as_slice());
            match default {
                Some(stmts) => count_stmts(count, stmts.as_slice()),
                None => count,
            }
        }
        Stmt::Break | Stmt::Continue => count,
    }
}

#[cycle(count)]
#[tactic(auto, using(std::proofs::lemmas::Grind::common_steps, crate::specs::Views::body_opened))]
fn count_body(count: u64, body: &Body) -> u64
    ensures { result ≡ capped (count + spec.body_cost (body_view body.now)) }
{
    count_stmts(count, body.stmts.as_slice())
}

/// How many expressions and statements the body has, up to the largest number of 64 bits. It takes
/// no memory.
pub fn cost(body: &Body) -> u64
    ensures { result ≡ capped (spec.body_cost (body_view body.now)) }
{
    count_body(0, body)
}
