//! Whether a type satisfies a constraint.
ghost use Rattle.ui_types.specs.Ty.{list_of};
ghost use Rattle.ui_types.specs.Table.{IsId, AreIds, tree, trees};
ghost use Rattle.ui_types.specs.Kept.{Kept};
ghost use Rattle.ui_sets.specs.Needed.{Answers};
ghost use Rattle.ui_terms.specs.Terms.{unions_fit, unions_of};
ghost use Rattle.ui_satisfy.specs.Satisfies as want;
ghost use Rattle.ui_satisfy.specs.Search.{EndsAs};

use crate::search::comparable;
use crate::shape::asks_comparable;
use std::alloc::Global;
use ui_sets::{SetFault, Unfit, listed_fit, needed};
use ui_terms::{unions_fit, unions_of};
use ui_types::{Env, Ids, TypeId, TypeTable};

// Whether the type is comparable, where it has to be.
fn comparable_fits<E: Env>(
    alloc: Global,
    env: &mut E,
    table: &mut TypeTable,
    bounds: &Ids,
    t: TypeId,
    is_asked: bool,
) -> Result<(), SetFault>
    requires env { E.fits env.old table.old }
    requires bounds { AreIds table.old bounds.now }
    requires id { IsId table.old t }
    ensures answer { EndsAs (want.comparable_fits (E.decls env.old table.old)
        (trees table.old bounds.now) (tree table.old t) is_asked) result }
    ensures kept { Kept E.packages E.lent E.decls E.fits env.old table.old env.new table.new }
{
    if !is_asked {
        return Ok(());
    }
    match comparable(alloc, env, table, bounds, t) {
        Ok(true) => Ok(()),
        Ok(false) => Err(SetFault::Unfit(Unfit::NotComparable)),
        Err(fault) => Err(fault),
    }
}

// Whether the type is in each union of a constraint, which is given by its underlying type.
fn unions_of_fit<E: Env>(
    alloc: Global,
    env: &mut E,
    table: &mut TypeTable,
    bounds: &Ids,
    t: TypeId,
    under: TypeId,
) -> Result<(), SetFault>
    requires env { E.fits env.old table.old }
    requires bounds { AreIds table.old bounds.now }
    requires id { IsId table.old t }
    requires under { IsId table.old under }
    ensures answer { Answers (unions_fit (E.decls env.old table.old)
        (trees table.old bounds.now) (tree table.old t)
        (list_of (unions_of (tree table.old under)))) result }
    ensures kept { Kept E.packages E.lent E.decls E.fits env.old table.old env.new table.new }
{
    match unions_of(alloc, table, under) {
        Ok(unions) => unions_fit(alloc, env, table, bounds.items(), t, unions.items()),
        Err(_) => Err(SetFault::NoMemory),
    }
}

// Whether the type is comparable where the constraint asks for it, and in each of its unions.
fn fits_further<E: Env>(
    alloc: Global,
    env: &mut E,
    table: &mut TypeTable,
    bounds: &Ids,
    t: TypeId,
    under: TypeId,
) -> Result<(), SetFault>
    requires env { E.fits env.old table.old }
    requires bounds { AreIds table.old bounds.now }
    requires id { IsId table.old t }
    requires under { IsId table.old under }
    ensures answer { EndsAs (want.fits_further (E.decls env.old table.old)
        (trees table.old bounds.now) (tree table.old t) (tree table.old under)) result }
    ensures kept { Kept E.packages E.lent E.decls E.fits env.old table.old env.new table.new }
{
    let is_asked = asks_comparable(table, under);
    match comparable_fits(alloc, env, table, bounds, t, is_asked) {
        Ok(()) => unions_of_fit(alloc, env, table, bounds, t, under),
        Err(fault) => Err(fault),
    }
}

// Whether the type fits a constraint, which is given by its underlying type.
fn fits_under<E: Env>(
    alloc: Global,
    env: &mut E,
    table: &mut TypeTable,
    bounds: &Ids,
    t: TypeId,
    under: TypeId,
) -> Result<(), SetFault>
    requires env { E.fits env.old table.old }
    requires bounds { AreIds table.old bounds.now }
    requires id { IsId table.old t }
    requires under { IsId table.old under }
    ensures answer { EndsAs (λ n. want.fits_under (E.decls env.old table.old)
        (trees table.old bounds.now) (tree table.old t) n (tree table.old under)) result }
    ensures kept { Kept E.packages E.lent E.decls E.fits env.old table.old env.new table.new }
{
    match listed_fit(alloc, env, table, bounds.items(), t, under) {
        Ok(()) => fits_further(alloc, env, table, bounds, t, under),
        Err(fault) => Err(fault),
    }
}

/// Whether the type satisfies the constraint: its method set has each method, it is comparable
/// where the constraint embeds `comparable`, and it is in each union. The first that it lacks is
/// told, in this order, unless a type needed before is past a limit. What is no interface counts as
/// the empty one. `bounds` are the constraints of the type parameters in scope, by number; one that
/// has none there has the empty interface. Go specification, "Satisfying a type constraint".
pub fn satisfies<E: Env>(
    alloc: Global,
    env: &mut E,
    table: &mut TypeTable,
    bounds: &Ids,
    t: TypeId,
    bound: TypeId,
) -> Result<(), SetFault>
    requires env { E.fits env.old table.old }
    requires bounds { AreIds table.old bounds.now }
    requires id { IsId table.old t }
    requires bound { IsId table.old bound }
    ensures answer { EndsAs (want.satisfies (E.decls env.old table.old)
        (trees table.old bounds.now) (tree table.old t) (tree table.old bound)) result }
    ensures kept { Kept E.packages E.lent E.decls E.fits env.old table.old env.new table.new }
{
    match needed(alloc, env, table, bound) {
        Ok(under) => fits_under(alloc, env, table, bounds, t, under),
        Err(fault) => Err(fault),
    }
}
