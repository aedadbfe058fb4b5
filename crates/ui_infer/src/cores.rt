//! What core types say of type parameters beside what these are to stand for.
ghost use Rattle.std.specs.Prelude.{◌≡◌, ◌<◌, ◌||◌, [], Bool, false, IfOk, IfSome, OnOk, length};
ghost use Rattle.std.specs.Prelude.{option_map, replicate, if◌then◌else◌};
ghost use Rattle.ui_types.specs.Table.{IsId, tree};
ghost use Rattle.ui_types.specs.Kept.{Kept};
ghost use Rattle.ui_infer.specs.Bindings as want;
ghost use Rattle.ui_infer.specs.Pairs.{pairs, are_alike, bindings_of};
ghost use Rattle.ui_infer.specs.Faults.{Gives, Reaches};
ghost use Rattle.ui_infer.specs.Shown.{AreBindings, AreCores, shown_bindings, shown_cores};
ghost use Rattle.ui_infer.specs.Shown.{shown_round};

use crate::binding::{Binding, append, first_of};
use crate::fault::InferFault;
use crate::pairs::paired;
use crate::top::topped;
use std::alloc::Global;
use ui_types::{Env, NoMemory, TypeId, TypeTable};

// The bindings of a core type beside a type, if they have one shape on each path.
fn alike_bindings(
    alloc: Global,
    table: &TypeTable,
    count: usize,
    core: TypeId,
    first: TypeId,
) -> Result<Vec<Binding>, NoMemory>
    requires core { IsId table.now core }
    requires first { IsId table.now first }
    ensures valid { IfOk result (λ v. AreBindings table.now v.items) }
    ensures value { let ps = pairs count (tree table.now core) (tree table.now first)
        in IfOk result (λ v. shown_bindings table.now v.items
        ≡ (if are_alike ps then bindings_of ps else [])) }
{
    let mut found = Vec::new(alloc);
    if paired(alloc, table, count, core, first, &mut found)? {
        return Ok(found);
    }
    Ok(Vec::new(alloc))
}

// What a core type says beside the first type of its type parameter.
fn core_bindings<E: Env>(
    alloc: Global,
    env: &mut E,
    table: &mut TypeTable,
    count: usize,
    core: Option<TypeId>,
    first: TypeId,
) -> Result<Vec<Binding>, InferFault>
    requires env { E.fits env.old table.old }
    requires core { IfSome core (IsId table.old) }
    requires first { IsId table.old first }
    ensures answer { let wanted = want.core_bindings (E.decls env.old table.old) count
        (option_map (tree table.old) core) (tree table.old first)
        in Gives table.new (λ v. AreBindings table.new v.items)
        (λ v. shown_bindings table.new v.items)
        wanted result }
    ensures kept { Kept E.packages E.lent E.decls E.fits env.old table.old env.new table.new }
{
    let Some(core) = core else {
        return Ok(Vec::new(alloc));
    };
    let (core, first) = match topped(alloc, env, table, core, first) {
        Ok(both) => both,
        Err(fault) => return Err(fault),
    };
    match alike_bindings(alloc, table, count, core, first) {
        Ok(found) => Ok(found),
        Err(_) => Err(InferFault::NoMemory),
    }
}

// Takes a type parameter with its core type, beside its first type.
fn take<E: Env>(
    alloc: Global,
    env: &mut E,
    table: &mut TypeTable,
    count: usize,
    core: Option<TypeId>,
    first: TypeId,
    bindings: &mut Vec<Binding>,
) -> Result<(), InferFault>
    requires env { E.fits env.old table.old }
    requires core { IfSome core (IsId table.old) }
    requires first { IsId table.old first }
    requires bindings { AreBindings table.old bindings.old.items }
    ensures answer { let wanted = want.with_core (E.decls env.old table.old) count
        (option_map (tree table.old) core) (tree table.old first)
        (shown_bindings table.old bindings.old.items)
        in Reaches table.new (shown_bindings table.new bindings.new.items) wanted result }
    ensures valid { OnOk result (AreBindings table.new bindings.new.items) }
    ensures kept { Kept E.packages E.lent E.decls E.fits env.old table.old env.new table.new }
{
    let found = match core_bindings(alloc, env, table, count, core, first) {
        Ok(found) => found,
        Err(fault) => return Err(fault),
    };
    match append(bindings, found.as_slice()) {
        Ok(()) => Ok(()),
        Err(_) => Err(InferFault::NoMemory),
    }
}

// The turn of one type parameter: where it wasn't taken yet and has a type, it is taken with its
// core type. It tells whether it was.
fn turn<E: Env>(
    alloc: Global,
    env: &mut E,
    table: &mut TypeTable,
    count: usize,
    k: usize,
    core: Option<TypeId>,
    bindings: &mut Vec<Binding>,
    taken: &mut [bool],
) -> Result<bool, InferFault>
    requires env { E.fits env.old table.old }
    requires k { k < length taken.old }
    requires core { IfSome core (IsId table.old) }
    requires bindings { AreBindings table.old bindings.old.items }
    ensures answer { let wanted = want.turn (E.decls env.old table.old) count k
        (option_map (tree table.old) core) (shown_round table.old bindings.old.items taken.old)
        in Reaches table.new (shown_round table.new bindings.new.items taken.new) wanted result }
    ensures idle { IfOk result (λ took. took ≡ false
        → shown_round table.new bindings.new.items taken.new
        ≡ shown_round table.old bindings.old.items taken.old) }
    ensures valid { OnOk result (AreBindings table.new bindings.new.items) }
    ensures kept { Kept E.packages E.lent E.decls E.fits env.old table.old env.new table.new }
{
    if taken[k] {
        return Ok(false);
    }
    let Some(first) = first_of(bindings.as_slice(), k) else {
        return Ok(false);
    };
    match take(alloc, env, table, count, core, first, bindings) {
        Ok(()) => {
            taken[k] = true;
            Ok(true)
        }
        Err(fault) => Err(fault),
    }
}

fn either(first: bool, second: bool) -> bool
    ensures { result ≡ (first || second) }
{
    first || second
}

// One round, through the type parameters ascending. It tells whether it took one.
fn turns<E: Env>(
    alloc: Global,
    env: &mut E,
    table: &mut TypeTable,
    cores: &[Option<TypeId>],
    bindings: &mut Vec<Binding>,
    taken: &mut [bool],
) -> Result<bool, InferFault>
    requires env { E.fits env.old table.old }
    requires cores { AreCores table.old cores.now }
    requires many { length taken.old ≡ length cores.now }
    requires bindings { AreBindings table.old bindings.old.items }
    ensures answer { let wanted = want.turns (E.decls env.old table.old) (length cores.now) 0
        (shown_cores table.old cores.now) (shown_round table.old bindings.old.items taken.old)
        in Reaches table.new (shown_round table.new bindings.new.items taken.new) wanted result }
    ensures idle { IfOk result (λ took. took ≡ false
        → shown_round table.new bindings.new.items taken.new
        ≡ shown_round table.old bindings.old.items taken.old) }
    ensures valid { OnOk result (AreBindings table.new bindings.new.items) }
    ensures kept { Kept E.packages E.lent E.decls E.fits env.old table.old env.new table.new }
{
    let mut any = false;
    for (k, core) in cores.iter().enumerate() {
        match turn(alloc, env, table, cores.len(), k, *core, bindings, taken) {
            Ok(took) => any = either(any, took),
            Err(fault) => return Err(fault),
        }
    }
    Ok(any)
}

// Rounds, until one takes none.
fn rounds<E: Env>(
    alloc: Global,
    env: &mut E,
    table: &mut TypeTable,
    cores: &[Option<TypeId>],
    bindings: &mut Vec<Binding>,
    taken: &mut [bool],
) -> Result<(), InferFault>
    requires env { E.fits env.old table.old }
    requires cores { AreCores table.old cores.now }
    requires many { length taken.old ≡ length cores.now }
    requires bindings { AreBindings table.old bindings.old.items }
    ensures answer { let wanted = want.rounds (E.decls env.old table.old)
        (shown_cores table.old cores.now) (length cores.now)
        (shown_round table.old bindings.old.items taken.old)
        in Reaches table.new (shown_round table.new bindings.new.items taken.new) wanted result }
    ensures valid { OnOk result (AreBindings table.new bindings.new.items) }
    ensures kept { Kept E.packages E.lent E.decls E.fits env.old table.old env.new table.new }
{
    for _round in 0..cores.len() {
        match turns(alloc, env, table, cores, bindings, taken) {
            Ok(true) => (),
            Ok(false) => return Ok(()),
            Err(fault) => return Err(fault),
        }
    }
    Ok(())
}

// No type parameter is taken yet.
fn taken_none(alloc: Global, count: usize) -> Result<Vec<bool>, NoMemory>
    ensures { IfOk result (λ v. v.items ≡ replicate count false) }
{
    Ok(vec![in alloc; false; count]?)
}

/// What core types say, in rounds. Go specification, "Type inference", "Core types".
pub fn all_rounds<E: Env>(
    alloc: Global,
    env: &mut E,
    table: &mut TypeTable,
    cores: &[Option<TypeId>],
    bindings: &mut Vec<Binding>,
) -> Result<(), InferFault>
    requires env { E.fits env.old table.old }
    requires cores { AreCores table.old cores.now }
    requires bindings { AreBindings table.old bindings.old.items }
    ensures answer { let wanted = want.all_rounds (E.decls env.old table.old)
        (shown_cores table.old cores.now) (shown_bindings table.old bindings.old.items)
        in Reaches table.new (shown_bindings table.new bindings.new.items) wanted result }
    ensures valid { OnOk result (AreBindings table.new bindings.new.items) }
    ensures kept { Kept E.packages E.lent E.decls E.fits env.old table.old env.new table.new }
{
    let mut taken = match taken_none(alloc, cores.len()) {
        Ok(taken) => taken,
        Err(_) => return Err(InferFault::NoMemory),
    };
    rounds(alloc, env, table, cores, bindings, taken.as_mut_slice())
}
