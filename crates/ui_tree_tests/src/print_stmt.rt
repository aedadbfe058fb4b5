//! The printer of trees: statements.

use crate::print_expr::{operator, put, put_tree, put_trees, put_type};
use ui_base::NoMemory;
use ui_tree::{
    Boxed, Clause, CommonTree, ExprTree, Items, Placed, RangePlaces, Specs, StmtTree, ValueSpec,
};

fn put_spaced(out: &mut Vec<u8>, names: &[Placed]) -> Result<(), NoMemory> {
    for name in names {
        put(out, b" ")?;
        put(out, name.text.bytes())?;
    }
    Ok(())
}

fn put_maybe(out: &mut Vec<u8>, tree: &Option<ExprTree>) -> Result<(), NoMemory> {
    match tree {
        Some(tree) => put_one(out, b"", tree),
        None => put(out, b" _"),
    }
}

// A form with places and values.
fn put_two(
    out: &mut Vec<u8>,
    form: &[u8],
    places: &[ExprTree],
    values: &[ExprTree],
) -> Result<(), NoMemory> {
    put(out, form)?;
    put_trees(out, places)?;
    put(out, b" |")?;
    put_trees(out, values)
}

fn put_spec(out: &mut Vec<u8>, spec: &ValueSpec) -> Result<(), NoMemory> {
    put(out, b" {")?;
    put_spaced(out, spec.names.as_slice())?;
    if let Some(of) = &spec.of {
        put(out, b" : ")?;
        put_type(out, of)?;
    }
    if let Some(values) = &spec.values {
        put(out, b" =")?;
        put_trees(out, values.as_slice())?;
    }
    put(out, b" }")
}

fn put_specs(out: &mut Vec<u8>, specs: &Specs<ValueSpec>) -> Result<(), NoMemory> {
    match specs {
        Specs::One(spec) => put_spec(out, spec),
        Specs::Grouped(specs) => {
            put(out, b" (group")?;
            for spec in specs.as_slice() {
                put_spec(out, spec)?;
            }
            put(out, b")")
        }
    }
}

/// Puts constants or variables.
pub fn put_common(out: &mut Vec<u8>, common: &CommonTree) -> Result<(), NoMemory> {
    match common {
        CommonTree::Const { specs, .. } => {
            put(out, b" (const")?;
            put_specs(out, specs)
        }
        CommonTree::Var { specs, .. } => {
            put(out, b" (var")?;
            put_specs(out, specs)
        }
    }
}

fn put_places(out: &mut Vec<u8>, places: &Option<RangePlaces>) -> Result<(), NoMemory> {
    let Some(RangePlaces { places, define }) = places else {
        return Ok(());
    };
    put_trees(out, places.as_slice())?;
    if *define {
        put(out, b" :=")
    } else {
        put(out, b" =")
    }
}

// How a clause begins.
fn put_case(out: &mut Vec<u8>, values: &Option<Items<ExprTree>>) -> Result<(), NoMemory> {
    match values {
        Some(values) => {
            put(out, b" (case")?;
            put_trees(out, values.as_slice())
        }
        None => put(out, b" (default"),
    }
}

// A form with one expression.
fn put_one(out: &mut Vec<u8>, form: &[u8], of: &ExprTree) -> Result<(), NoMemory> {
    put(out, form)?;
    put(out, b" ")?;
    put_tree(out, of)
}

// A statement that holds no others, or a question mark.
fn put_simple(out: &mut Vec<u8>, stmt: &StmtTree) -> Result<(), NoMemory> {
    match stmt {
        StmtTree::Empty => return put(out, b" _"),
        StmtTree::Common(common) => put_common(out, common)?,
        StmtTree::Expr(of) => return put_one(out, b"", of),
        StmtTree::Assign { places, values, .. } => {
            put_two(out, b" (=", places.as_slice(), values.as_slice())?
        }
        StmtTree::OpAssign {
            place,
            op,
            value,
            ..
        } => {
            put(out, b" (")?;
            put_one(out, operator(*op), place)?;
            put_one(out, b" =", value)?;
        }
        StmtTree::Define { names, values, .. } => {
            put(out, b" (:=")?;
            put_spaced(out, names.as_slice())?;
            put_two(out, b"", &[], values.as_slice())?;
        }
        StmtTree::Increment { place, .. } => put_one(out, b" (++", place)?,
        StmtTree::Decrement { place, .. } => put_one(out, b" (--", place)?,
        StmtTree::Return { values, .. } => {
            put(out, b" (return")?;
            if let Some(values) = values {
                put_trees(out, values.as_slice())?;
            }
        }
        StmtTree::Break { .. } => put(out, b" (break")?,
        StmtTree::Continue { .. } => put(out, b" (continue")?,
        _ => put(out, b" (?")?,
    }
    put(out, b")")
}

fn put_simples(out: &mut Vec<u8>, stmts: &[StmtTree]) -> Result<(), NoMemory> {
    for stmt in stmts {
        put_simple(out, stmt)?;
    }
    Ok(())
}

// Clauses, whose statements hold no others.
fn put_clauses(out: &mut Vec<u8>, clauses: &[Clause<StmtTree>]) -> Result<(), NoMemory> {
    for clause in clauses {
        put_case(out, &clause.values)?;
        put(out, b" :")?;
        put_simples(out, clause.stmts.as_slice())?;
        put(out, b")")?;
    }
    Ok(())
}

/// Puts statements between two marks.
#[cycle(stmts)]
pub fn put_stmts(
    out: &mut Vec<u8>,
    open: &[u8],
    stmts: &[StmtTree],
    close: &[u8],
) -> Result<(), NoMemory> {
    put(out, open)?;
    for stmt in stmts {
        put_stmt(out, stmt)?;
    }
    put(out, close)
}

// A statement that may be left out, between two marks.
#[cycle(stmts)]
fn put_if_any(
    out: &mut Vec<u8>,
    open: &[u8],
    stmt: &Option<Boxed<StmtTree>>,
    close: &[u8],
) -> Result<(), NoMemory> {
    match stmt {
        Some(stmt) => {
            put(out, open)?;
            put_stmt(out, stmt.get())?;
            put(out, close)
        }
        None => Ok(()),
    }
}

#[cycle(stmts)]
fn put_stmt(out: &mut Vec<u8>, stmt: &StmtTree) -> Result<(), NoMemory> {
    match stmt {
        StmtTree::Block(block) => return put_stmts(out, b" {", block.stmts.as_slice(), b" }"),
        StmtTree::If {
            init,
            condition,
            body,
            otherwise,
            ..
        } => {
            put(out, b" (if")?;
            put_if_any(out, b"", init, b" ;")?;
            put_one(out, b"", condition)?;
            put_stmts(out, b" {", body.stmts.as_slice(), b" }")?;
            put_if_any(out, b" else", otherwise, b"")?;
        }
        StmtTree::Loop { body, .. } => {
            put(out, b" (loop")?;
            put_stmts(out, b" {", body.stmts.as_slice(), b" }")?;
        }
        StmtTree::While {
            condition,
            body,
            ..
        } => {
            put_one(out, b" (while", condition)?;
            put_stmts(out, b" {", body.stmts.as_slice(), b" }")?;
        }
        StmtTree::For {
            init,
            condition,
            post,
            body,
            ..
        } => {
            put(out, b" (for")?;
            put_stmt(out, init.get())?;
            put_maybe(out, condition)?;
            put_stmt(out, post.get())?;
            put_stmts(out, b" {", body.stmts.as_slice(), b" }")?;
        }
        StmtTree::Range {
            places,
            over,
            body,
            ..
        } => {
            put(out, b" (range")?;
            put_places(out, places)?;
            put_one(out, b"", over)?;
            put_stmts(out, b" {", body.stmts.as_slice(), b" }")?;
        }
        StmtTree::Switch {
            init,
            on,
            clauses,
            ..
        } => {
            put(out, b" (switch")?;
            put_if_any(out, b"", init, b" ;")?;
            put_maybe(out, on)?;
            put_clauses(out, clauses.as_slice())?;
        }
        _ => return put_simple(out, stmt),
    }
    put(out, b")")
}
