//! The type arguments of a call.
ghost use Rattle.std.specs.Prelude.{◌≡◌, ◌≤◌, ◌^◌, IfOk, IfSome, length, option_map};
ghost use Rattle.ui_types.specs.Table.{Table, IsId, AreIds, Grows, tree, trees};
ghost use Rattle.ui_types.specs.Kept.{Kept};
ghost use Rattle.ui_infer.specs.Bindings as want;
ghost use Rattle.ui_infer.specs.Faults.{Gives};
ghost use Rattle.ui_infer.specs.Shown.{AreActuals, AreBindings, AreCores, AreKnown, IsKnown};
ghost use Rattle.ui_infer.specs.Shown.{all_known, shown_actuals, shown_bindings, shown_bound};
ghost use Rattle.ui_infer.specs.Shown.{shown_cores, shown_known, shown_pair};

use crate::actual::Actual;
use crate::arguments::{Bound, arguments, explicit_bound};
use crate::binding::{Binding, append};
use crate::constants::constants;
use crate::cores::all_rounds;
use crate::fault::InferFault;
use crate::known::{Known, known_of};
use std::alloc::Global;
use ui_types::{Env, Ids, NoMemory, TypeId, TypeTable};

/// A type parameter that is to stand for two types, with these.
#[derive(Clone, Copy)]
pub struct Pair {
    pub parameter: u32,
    pub first: TypeId,
    pub second: TypeId,
}

// The two types that a type parameter is to stand for.
fn pair_at(k: u32, known: Known) -> Option<Pair>
    ensures valid { (table : Table) → IsKnown table known
        → IfSome result (λ p. IsId table p.first × IsId table p.second) }
    ensures value { (table : Table)
        → option_map (shown_pair table) result ≡ want.twice_at k (shown_known table known) }
{
    match (known.first, known.other) {
        (Some(first), Some(second)) => Some(Pair {
            parameter: k,
            first,
            second,
        }),
        _ => None,
    }
}

// The first type parameter that is to stand for two types.
fn first_twice(known: &[Known]) -> Option<Pair>
    requires { length known.now ≤ 2 ^ 32 }
    ensures valid { (table : Table) → AreKnown table known.now
        → IfSome result (λ p. IsId table p.first × IsId table p.second) }
    ensures value { (table : Table)
        → option_map (shown_pair table) result ≡ want.first_twice 0 (all_known table known.now) }
{
    for (k, one) in known.iter().enumerate() {
        if let Some(pair) = pair_at(k as u32, *one) {
            return Some(pair);
        }
    }
    None
}

// The type that each type parameter stands for.
fn solution(alloc: Global, table: &TypeTable, known: &[Known]) -> Result<Ids, InferFault>
    requires count { length known.now ≤ 2 ^ 32 }
    requires known { AreKnown table.now known.now }
    ensures { Gives table.now (AreIds table.now) (trees table.now)
        (want.solution 0 (all_known table.now known.now)) result }
{
    let _ = table;
    let mut ids = Vec::new(alloc);
    for (k, one) in known.iter().enumerate() {
        match one.first {
            Some(t) => {
                if ids.push(t).is_err() {
                    return Err(InferFault::NoMemory);
                }
            }
            None => {
                return Err(InferFault::NotInferred {
                    parameter: k as u32,
                });
            }
        }
    }
    Ok(Ids::new(ids))
}

// What is told of them: two types of one type parameter, else the types.
fn solved(alloc: Global, table: &TypeTable, known: &[Known]) -> Result<Ids, InferFault>
    requires count { length known.now ≤ 2 ^ 32 }
    requires known { AreKnown table.now known.now }
    ensures { Gives table.now (AreIds table.now) (trees table.now)
        (want.solved (all_known table.now known.now)) result }
{
    if let Some(pair) = first_twice(known) {
        return Err(InferFault::Twice {
            parameter: pair.parameter,
            first: pair.first,
            second: pair.second,
        });
    }
    solution(alloc, table, known)
}

// What the bindings say together.
fn verdict(alloc: Global, table: &TypeTable, count: usize, bound: &Bound) -> Result<Ids, InferFault>
    requires count { count ≤ 2 ^ 32 }
    requires bound { AreBindings table.now bound.now.entries.items }
    ensures { Gives table.now (AreIds table.now) (trees table.now)
        (want.verdict count (shown_bound table.now bound.now)) result }
{
    if let Some(argument) = bound.mismatch {
        return Err(InferFault::Mismatch { argument });
    }
    match known_of(alloc, table, count, bound.entries.as_slice()) {
        Ok(known) => solved(alloc, table, known.as_slice()),
        Err(_) => Err(InferFault::NoMemory),
    }
}

// What untyped constants say, for the type parameters that these bindings leave unbound.
fn unbound_constants(
    alloc: Global,
    table: &mut TypeTable,
    count: usize,
    formals: &[TypeId],
    actuals: &[Actual],
    entries: &[Binding],
) -> Result<Vec<Binding>, NoMemory>
    requires formals { AreIds table.old formals.now }
    requires actuals { AreActuals table.old actuals.now }
    requires same { length formals.now ≡ length actuals.now }
    requires entries { AreBindings table.old entries.now }
    ensures valid { IfOk result (λ v. AreBindings table.new v.items) }
    ensures value { IfOk result (λ v. shown_bindings table.new v.items
        ≡ want.unbound_constants count (shown_bindings table.old entries.now)
        (trees table.old formals.now) (shown_actuals table.old actuals.now)) }
    ensures grows { Grows table.old table.new }
{
    let known = known_of(alloc, table, count, entries)?;
    constants(alloc, table, known.as_slice(), formals, actuals)
}

// What these bindings say with those of the untyped constants.
fn concluded(
    alloc: Global,
    table: &mut TypeTable,
    count: usize,
    formals: &[TypeId],
    actuals: &[Actual],
    bound: &mut Bound,
) -> Result<Ids, InferFault>
    requires count { count ≤ 2 ^ 32 }
    requires formals { AreIds table.old formals.now }
    requires actuals { AreActuals table.old actuals.now }
    requires same { length formals.now ≡ length actuals.now }
    requires bound { AreBindings table.old bound.old.entries.items }
    ensures answer { let wanted = want.concluded count (shown_bound table.old bound.old)
        (trees table.old formals.now) (shown_actuals table.old actuals.now)
        in Gives table.new (AreIds table.new) (trees table.new) wanted result }
    ensures grows { Grows table.old table.new }
{
    let entries = bound.entries.as_slice();
    let more = match unbound_constants(alloc, table, count, formals, actuals, entries) {
        Ok(more) => more,
        Err(_) => return Err(InferFault::NoMemory),
    };
    match append(&mut bound.entries, more.as_slice()) {
        Ok(()) => verdict(alloc, table, count, bound),
        Err(_) => Err(InferFault::NoMemory),
    }
}

/// The type arguments of a call: a type parameter stands for its explicit argument, for what typed
/// arguments have where their formal types have it, for what core types have beside what other type
/// parameters stand for, and for the default types of untyped constants. Each type parameter has
/// its core type in `cores`, and each argument its formal type in `params`. Go specification, "Type
/// inference".
///
/// An underlying type that is used and is past a limit is told first, then the first argument of
/// another shape than its formal type, then the least type parameter with two types, then the least
/// without any.
pub fn infer<E: Env>(
    alloc: Global,
    env: &mut E,
    table: &mut TypeTable,
    cores: &[Option<TypeId>],
    params: &Ids,
    actuals: &[Actual],
    explicit: &Ids,
) -> Result<Ids, InferFault>
    requires env { E.fits env.old table.old }
    requires cores { AreCores table.old cores.now }
    requires params { AreIds table.old params.now }
    requires actuals { AreActuals table.old actuals.now }
    requires explicit { AreIds table.old explicit.now }
    requires numbered { length cores.now ≤ 2 ^ 32 }
    requires given { length explicit.now ≤ length cores.now }
    requires formals { length params.now ≡ length actuals.now }
    ensures answer { let wanted = want.inferred (E.decls env.old table.old)
        (shown_cores table.old cores.now) (trees table.old params.now)
        (shown_actuals table.old actuals.now) (trees table.old explicit.now)
        in Gives table.new (AreIds table.new) (trees table.new) wanted result }
    ensures kept { Kept E.packages E.lent E.decls E.fits env.old table.old env.new table.new }
{
    let count = cores.len();
    let given = explicit.items().len();
    let formals = params.items();
    let mut bound = match explicit_bound(alloc, explicit.items()) {
        Ok(bound) => bound,
        Err(_) => return Err(InferFault::NoMemory),
    };
    match arguments(
        alloc, env, table, count, given, formals, actuals, &mut bound,
    ) {
        Ok(()) => (),
        Err(fault) => return Err(fault),
    }
    match all_rounds(alloc, env, table, cores, &mut bound.entries) {
        Ok(()) => (),
        Err(fault) => return Err(fault),
    }
    concluded(alloc, table, count, formals, actuals, &mut bound)
}
