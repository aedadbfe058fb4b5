//! What the arguments of a call say of its type parameters.
ghost use Rattle.std.specs.Prelude.{◌≡◌, ◌≤◌, ◌^◌, Bool, None, Some, IfOk, OnOk, length, nat_le};
ghost use Rattle.std.specs.Prelude.{if◌then◌else◌};
ghost use Rattle.std.specs.List.{list_any};
ghost use Rattle.ui_types.specs.Table.{Table, IsId, AreIds, tree, trees};
ghost use Rattle.ui_types.specs.Kept.{Kept};
ghost use Rattle.ui_infer.specs.Bindings as want;
ghost use Rattle.ui_infer.specs.Pairs.{pairs};
ghost use Rattle.ui_infer.specs.Faults.{Reaches};
ghost use Rattle.ui_infer.specs.Shown.{AreBindings, AreActuals, shown_actual, shown_actuals};
ghost use Rattle.ui_infer.specs.Shown.{shown_bindings, shown_bound};

use crate::actual::Actual;
use crate::binding::{Binding, append};
use crate::fault::InferFault;
use crate::pairs::paired;
use crate::top::topped;
use std::alloc::Global;
use ui_types::{Basic, Env, NoMemory, TypeId, TypeNode, TypeTable};

/// The bindings that are made so far, and the first argument whose shape differs from its formal
/// type's.
#[derive(Drop)]
pub struct Bound {
    pub entries: Vec<Binding>,
    pub mismatch: Option<u32>,
}

// The explicit type arguments, one to each of the first type parameters.
fn explicit_bindings(alloc: Global, explicit: &[TypeId]) -> Result<Vec<Binding>, NoMemory>
    requires { length explicit.now ≤ 2 ^ 32 }
    ensures valid { (table : Table) → AreIds table explicit.now
        → IfOk result (λ v. AreBindings table v.items) }
    ensures value { (table : Table)
        → IfOk result (λ v. shown_bindings table v.items
        ≡ want.numbered 0 (trees table explicit.now)) }
{
    let mut bindings = Vec::new(alloc);
    for (k, ty) in explicit.iter().enumerate() {
        bindings.push(Binding {
            param: k as u32,
            ty: *ty,
        })?;
    }
    Ok(bindings)
}

/// What the explicit type arguments say.
pub fn explicit_bound(alloc: Global, explicit: &[TypeId]) -> Result<Bound, NoMemory>
    requires { length explicit.now ≤ 2 ^ 32 }
    ensures valid { (table : Table) → AreIds table explicit.now
        → IfOk result (λ b. AreBindings table b.entries.items) }
    ensures value { (table : Table)
        → IfOk result (λ b. shown_bound table b ≡ want.explicit_bound (trees table explicit.now)) }
{
    let entries = explicit_bindings(alloc, explicit)?;
    Ok(Bound {
        entries,
        mismatch: None,
    })
}

// Whether one of the bindings is of a type parameter that isn't among the first `given`.
fn any_from(bindings: &[Binding], given: usize) -> bool
    ensures { (table : Table)
        → result ≡ list_any (λ b. nat_le given b.param) (shown_bindings table bindings.now) }
{
    for binding in bindings {
        if given <= binding.param as usize {
            return true;
        }
    }
    false
}

// Whether the type has one of the `count` type parameters that isn't among the first `given`.
fn has_open(
    alloc: Global,
    table: &TypeTable,
    count: usize,
    given: usize,
    t: TypeId,
) -> Result<bool, NoMemory>
    requires { IsId table.now t }
    ensures { IfOk result (λ found. found ≡ want.has_open count given (tree table.now t)) }
{
    let mut own = Vec::new(alloc);
    let _alike = paired(alloc, table, count, t, t, &mut own)?;
    Ok(any_from(own.as_slice(), given))
}

// Whether it is the type of nil.
fn is_untyped_nil(table: &TypeTable, t: TypeId) -> bool
    requires { IsId table.now t }
    ensures { result ≡ want.is_untyped_nil (tree table.now t) }
{
    matches!(table.node(t), TypeNode::Basic(Basic::UntypedNil))
}

// Whether the argument says what type parameters without explicit argument stand for.
fn is_looked_at(
    alloc: Global,
    table: &TypeTable,
    count: usize,
    given: usize,
    actual: Actual,
    formal: TypeId,
) -> Result<bool, NoMemory>
    requires actual { IsId table.now actual.ty }
    requires formal { IsId table.now formal }
    ensures { IfOk result (λ looked. looked
        ≡ want.is_looked_at count given (shown_actual table.now actual) (tree table.now formal)) }
{
    if actual.constant || is_untyped_nil(table, actual.ty) {
        return Ok(false);
    }
    has_open(alloc, table, count, given, formal)
}

// The first argument of another shape, with one more.
fn earlier(mismatch: Option<u32>, alike: bool, index: u32) -> Option<u32>
    ensures { result ≡ want.earlier mismatch (if alike then None else Some index) }
{
    match mismatch {
        Some(first) => Some(first),
        None => { if alike { None } else { Some(index) } }
    }
}

// What an argument says whose type stands beside this formal type.
fn noted(
    alloc: Global,
    table: &TypeTable,
    count: usize,
    index: u32,
    formal: TypeId,
    actual: TypeId,
    bound: &mut Bound,
) -> Result<(), NoMemory>
    requires formal { IsId table.now formal }
    requires actual { IsId table.now actual }
    requires bound { AreBindings table.now bound.old.entries.items }
    ensures value { OnOk result (shown_bound table.now bound.new ≡ want.with_pairs index
        (shown_bound table.now bound.old) (pairs count (tree table.now formal)
        (tree table.now actual))) }
    ensures valid { OnOk result (AreBindings table.now bound.new.entries.items) }
{
    let alike = paired(alloc, table, count, formal, actual, &mut bound.entries)?;
    bound.mismatch = earlier(bound.mismatch, alike, index);
    Ok(())
}

// What the argument says beside its formal type.
fn looked_at<E: Env>(
    alloc: Global,
    env: &mut E,
    table: &mut TypeTable,
    count: usize,
    actual: Actual,
    formal: TypeId,
    bound: &mut Bound,
) -> Result<(), InferFault>
    requires env { E.fits env.old table.old }
    requires actual { IsId table.old actual.ty }
    requires formal { IsId table.old formal }
    requires bound { AreBindings table.old bound.old.entries.items }
    ensures answer { let wanted = want.looked_at (E.decls env.old table.old) count
        (shown_actual table.old actual) (tree table.old formal)
        (shown_bound table.old bound.old)
        in Reaches table.new (shown_bound table.new bound.new) wanted result }
    ensures valid { OnOk result (AreBindings table.new bound.new.entries.items) }
    ensures kept { Kept E.packages E.lent E.decls E.fits env.old table.old env.new table.new }
{
    let (formal, ty) = match topped(alloc, env, table, formal, actual.ty) {
        Ok(both) => both,
        Err(fault) => return Err(fault),
    };
    match noted(alloc, table, count, actual.index, formal, ty, bound) {
        Ok(()) => Ok(()),
        Err(_) => Err(InferFault::NoMemory),
    }
}

// What one argument says.
fn argument<E: Env>(
    alloc: Global,
    env: &mut E,
    table: &mut TypeTable,
    count: usize,
    given: usize,
    actual: Actual,
    formal: TypeId,
    bound: &mut Bound,
) -> Result<(), InferFault>
    requires env { E.fits env.old table.old }
    requires actual { IsId table.old actual.ty }
    requires formal { IsId table.old formal }
    requires bound { AreBindings table.old bound.old.entries.items }
    ensures answer { let wanted = want.argument (E.decls env.old table.old) count given
        (shown_actual table.old actual) (tree table.old formal)
        (shown_bound table.old bound.old)
        in Reaches table.new (shown_bound table.new bound.new) wanted result }
    ensures valid { OnOk result (AreBindings table.new bound.new.entries.items) }
    ensures kept { Kept E.packages E.lent E.decls E.fits env.old table.old env.new table.new }
{
    match is_looked_at(alloc, table, count, given, actual, formal) {
        Ok(true) => looked_at(alloc, env, table, count, actual, formal, bound),
        Ok(false) => Ok(()),
        Err(_) => Err(InferFault::NoMemory),
    }
}

/// What the typed arguments say, from left to right.
pub fn arguments<E: Env>(
    alloc: Global,
    env: &mut E,
    table: &mut TypeTable,
    count: usize,
    given: usize,
    formals: &[TypeId],
    actuals: &[Actual],
    bound: &mut Bound,
) -> Result<(), InferFault>
    requires env { E.fits env.old table.old }
    requires formals { AreIds table.old formals.now }
    requires actuals { AreActuals table.old actuals.now }
    requires same { length formals.now ≡ length actuals.now }
    requires bound { AreBindings table.old bound.old.entries.items }
    ensures answer { let wanted = want.arguments (E.decls env.old table.old) count given
        (shown_actuals table.old actuals.now) (trees table.old formals.now)
        (shown_bound table.old bound.old)
        in Reaches table.new (shown_bound table.new bound.new) wanted result }
    ensures valid { OnOk result (AreBindings table.new bound.new.entries.items) }
    ensures kept { Kept E.packages E.lent E.decls E.fits env.old table.old env.new table.new }
{
    for (k, actual) in actuals.iter().enumerate() {
        match argument(alloc, env, table, count, given, *actual, formals[k], bound) {
            Ok(()) => (),
            Err(fault) => return Err(fault),
        }
    }
    Ok(())
}
