//! What untyped constants say of type parameters.
ghost use Rattle.std.specs.Prelude.{◌≡◌, ◌++◌, ◌<◌, ◌||◌, ℕ, IfOk, OnOk, length};
ghost use Rattle.ui_types.specs.Table.{IsId, AreIds, Denotes, Grows, tree, trees};
ghost use Rattle.ui_infer.specs.Bindings as want;
ghost use Rattle.ui_infer.specs.Shown.{is_known, is_set, AreActuals, AreBindings, shown_actual};
ghost use Rattle.ui_infer.specs.Shown.{shown_actuals, shown_bindings};

use crate::actual::Actual;
use crate::binding::Binding;
use crate::known::Known;
use crate::pairs::unknown;
use std::alloc::Global;
use ui_types::{Basic, NoMemory, TypeId, TypeNode, TypeTable, intern_within};

// Whether it is the type of an untyped rune.
fn is_untyped_rune(table: &TypeTable, t: TypeId) -> bool
    requires { IsId table.now t }
    ensures { result ≡ want.is_untyped_rune (tree table.now t) }
{
    matches!(table.node(t), TypeNode::Basic(Basic::UntypedRune))
}

// The type parameter that is alone the formal type of an untyped constant.
fn alone(table: &TypeTable, count: usize, actual: Actual, formal: TypeId) -> Option<u32>
    requires { IsId table.now formal }
    ensures { result ≡ want.alone count (shown_actual table.now actual) (tree table.now formal) }
{
    if actual.constant {
        return unknown(table, count, formal);
    }
    None
}

// Marks the type parameter that is alone the formal type of an argument that is an untyped rune.
fn mark(table: &TypeTable, actual: Actual, formal: TypeId, found: &mut [bool])
    requires actual { IsId table.now actual.ty }
    requires formal { IsId table.now formal }
    ensures { let count = length found.old
        in (k : ℕ) → k < count → is_set found.new k ≡ (is_set found.old k
        || want.is_rune_of count k (shown_actual table.now actual) (tree table.now formal)) }
{
    if let Some(k) = alone(table, found.len(), actual, formal) {
        if is_untyped_rune(table, actual.ty) {
            found[k as usize] = true;
        }
    }
}

// Of each type parameter, whether an untyped rune is among the untyped constants whose formal type
// it is alone.
fn runes(
    alloc: Global,
    table: &TypeTable,
    count: usize,
    formals: &[TypeId],
    actuals: &[Actual],
) -> Result<Vec<bool>, NoMemory>
    requires formals { AreIds table.now formals.now }
    requires actuals { AreActuals table.now actuals.now }
    requires same { length formals.now ≡ length actuals.now }
    ensures many { IfOk result (λ v. length v.items ≡ count) }
    ensures value { IfOk result (λ v. (k : ℕ) → k < count → is_set v.items k
        ≡ want.has_rune count k (shown_actuals table.now actuals.now)
        (trees table.now formals.now)) }
{
    let mut found = vec![in alloc; false; count]?;
    for (j, actual) in actuals.iter().enumerate() {
        mark(table, *actual, formals[j], found.as_mut_slice());
    }
    Ok(found)
}

// The default type of an untyped constant; beside an untyped rune int counts as int32. Go
// specification, "Constants".
fn default_type(
    alloc: Global,
    table: &mut TypeTable,
    t: TypeId,
    rune: bool,
) -> Result<TypeId, NoMemory>
    requires { IsId table.old t }
    ensures made { IfOk result (Denotes table.new (want.default_type rune (tree table.old t))) }
    ensures grows { Grows table.old table.new }
{
    let kind = match table.node(t) {
        TypeNode::Basic(Basic::UntypedInt) => { if rune { Basic::Int32 } else { Basic::Int } }
        TypeNode::Basic(Basic::UntypedRune) => Basic::Int32,
        TypeNode::Basic(Basic::UntypedString) => Basic::String,
        TypeNode::Basic(Basic::UntypedBool) => Basic::Bool,
        _ => return Ok(t),
    };
    intern_within(alloc, table, TypeNode::Basic(kind))
}

// What one untyped constant says of the type parameter that is alone its formal type.
fn constant(
    alloc: Global,
    table: &mut TypeTable,
    k: u32,
    t: TypeId,
    done: bool,
    rune: bool,
    entries: &mut Vec<Binding>,
) -> Result<(), NoMemory>
    requires t { IsId table.old t }
    requires entries { AreBindings table.old entries.old.items }
    ensures value { OnOk result (shown_bindings table.new entries.new.items
        ≡ shown_bindings table.old entries.old.items ++ want.unless_bound done k
        (want.default_type rune (tree table.old t))) }
    ensures valid { OnOk result (AreBindings table.new entries.new.items) }
    ensures grows { Grows table.old table.new }
{
    if done {
        return Ok(());
    }
    let ty = default_type(alloc, table, t, rune)?;
    entries.push(Binding { param: k, ty })?;
    Ok(())
}

// What one argument says as an untyped constant.
fn one_constant(
    alloc: Global,
    table: &mut TypeTable,
    known: &[Known],
    runes: &[bool],
    actual: Actual,
    formal: TypeId,
    entries: &mut Vec<Binding>,
) -> Result<(), NoMemory>
    requires actual { IsId table.old actual.ty }
    requires formal { IsId table.old formal }
    requires same { length known.now ≡ length runes.now }
    requires entries { AreBindings table.old entries.old.items }
    ensures value { OnOk result (shown_bindings table.new entries.new.items
        ≡ shown_bindings table.old entries.old.items ++ want.constant (is_known known.now)
        (is_set runes.now) (tree table.old actual.ty)
        (want.alone (length runes.now) (shown_actual table.old actual)
        (tree table.old formal))) }
    ensures valid { OnOk result (AreBindings table.new entries.new.items) }
    ensures grows { Grows table.old table.new }
{
    if let Some(k) = alone(table, runes.len(), actual, formal) {
        let done = known[k as usize].first.is_some();
        let rune = runes[k as usize];
        return constant(alloc, table, k, actual.ty, done, rune, entries);
    }
    Ok(())
}

// The default types of the untyped constants, where it is known which have an untyped rune beside
// them.
fn constants_beside(
    alloc: Global,
    table: &mut TypeTable,
    known: &[Known],
    runes: &[bool],
    formals: &[TypeId],
    actuals: &[Actual],
) -> Result<Vec<Binding>, NoMemory>
    requires formals { AreIds table.old formals.now }
    requires actuals { AreActuals table.old actuals.now }
    requires same { length formals.now ≡ length actuals.now }
    requires many { length known.now ≡ length runes.now }
    ensures valid { IfOk result (λ v. AreBindings table.new v.items) }
    ensures value { IfOk result (λ v. shown_bindings table.new v.items
        ≡ want.constants (length runes.now) (is_known known.now) (is_set runes.now)
        (shown_actuals table.old actuals.now) (trees table.old formals.now)) }
    ensures grows { Grows table.old table.new }
{
    let mut entries = Vec::new(alloc);
    for (j, actual) in actuals.iter().enumerate() {
        one_constant(
            alloc,
            table,
            known,
            runes,
            *actual,
            formals[j],
            &mut entries,
        )?;
    }
    Ok(entries)
}

/// The default types of the untyped constants, for the type parameters of which nothing is known.
pub fn constants(
    alloc: Global,
    table: &mut TypeTable,
    known: &[Known],
    formals: &[TypeId],
    actuals: &[Actual],
) -> Result<Vec<Binding>, NoMemory>
    requires formals { AreIds table.old formals.now }
    requires actuals { AreActuals table.old actuals.now }
    requires same { length formals.now ≡ length actuals.now }
    ensures valid { IfOk result (λ v. AreBindings table.new v.items) }
    ensures value { let count = length known.now
        in let formals = trees table.old formals.now
        in let actuals = shown_actuals table.old actuals.now
        in IfOk result (λ v. shown_bindings table.new v.items
        ≡ want.constants count (is_known known.now)
        (λ k. want.has_rune count k actuals formals) actuals formals) }
    ensures grows { Grows table.old table.new }
{
    let runes = runes(alloc, table, known.len(), formals, actuals)?;
    constants_beside(alloc, table, known, runes.as_slice(), formals, actuals)
}
