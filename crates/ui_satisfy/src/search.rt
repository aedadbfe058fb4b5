//! The search for what isn't comparable.
ghost use Rattle.std.specs.Prelude.{◌≡◌, false, IfOk, Some};
ghost use Rattle.ui_types.specs.Table.{IsId, AreIds, tree, trees};
ghost use Rattle.ui_types.specs.Kept.{Kept};
ghost use Rattle.ui_sets.specs.Sites.{number_of};
ghost use Rattle.ui_satisfy.specs.Comparable as shape;
ghost use Rattle.ui_satisfy.specs.Search as want;
ghost use Rattle.ui_satisfy.specs.Search.{EndsAs, compared};
ghost use Rattle.ui_satisfy.specs.Marks.{AreMarks, Looks, seen};

use crate::marks::{Marks, close, is_in, no_marks, put};
use crate::shape::{asks_comparable, is_incomparable, parts_of, term_types};
use std::alloc::Global;
use ui_sets::{SetFault, needed, needed_bound, number_of};
use ui_terms::unions_of;
use ui_types::{Env, Ids, TypeId, TypeTable};

// Whether the type is comparable, as far as it was looked at.
#[cycle(look)]
fn look<E: Env>(
    alloc: Global,
    env: &mut E,
    table: &mut TypeTable,
    bounds: &[TypeId],
    marks: &mut Marks,
    t: TypeId,
) -> Result<bool, SetFault>
    requires env { E.fits env.old table.old }
    requires bounds { AreIds table.old bounds.now }
    requires marks { AreMarks table.old marks.old }
    requires id { IsId table.old t }
    ensures answer { Looks table.new marks.old marks.new (λ n. want.look
        (E.decls env.old table.old) (trees table.old bounds.now) n
        (seen table.old marks.old) (tree table.old t)) result }
    ensures kept { Kept E.packages E.lent E.decls E.fits env.old table.old env.new table.new }
{
    if is_in(table, &marks.bad, t) {
        return Ok(false);
    }
    if is_in(table, &marks.good, t) {
        return Ok(true);
    }
    match needed(alloc, env, table, t) {
        Ok(under) => look_anew(alloc, env, table, bounds, marks, t, under),
        Err(fault) => Err(fault),
    }
}

// The same of a type that wasn't met.
#[cycle(look)]
fn look_anew<E: Env>(
    alloc: Global,
    env: &mut E,
    table: &mut TypeTable,
    bounds: &[TypeId],
    marks: &mut Marks,
    t: TypeId,
    under: TypeId,
) -> Result<bool, SetFault>
    requires env { E.fits env.old table.old }
    requires bounds { AreIds table.old bounds.now }
    requires marks { AreMarks table.old marks.old }
    requires id { IsId table.old t }
    requires under { IsId table.old under }
    requires fresh { want.is_in (tree table.old t) (seen table.old marks.old).good ≡ false }
    ensures answer { Looks table.new marks.old marks.new (λ n. want.looked_anew
        (E.decls env.old table.old) (trees table.old bounds.now)
        (want.look (E.decls env.old table.old) (trees table.old bounds.now) n)
        (seen table.old marks.old) (tree table.old t) (tree table.old under)) result }
    ensures kept { Kept E.packages E.lent E.decls E.fits env.old table.old env.new table.new }
{
    let count = marks.good.len();
    match put(table, &mut marks.good, t) {
        Ok(()) => {}
        Err(_) => return Err(SetFault::NoMemory),
    }
    let is = match inside(alloc, env, table, bounds, marks, t, under) {
        Ok(is) => is,
        Err(fault) => return Err(fault),
    };
    if is {
        return Ok(true);
    }
    match close(table, marks, count, t) {
        Ok(()) => Ok(false),
        Err(_) => Err(SetFault::NoMemory),
    }
}

// The parts of a type, or the terms of a type parameter.
#[cycle(look)]
fn inside<E: Env>(
    alloc: Global,
    env: &mut E,
    table: &mut TypeTable,
    bounds: &[TypeId],
    marks: &mut Marks,
    t: TypeId,
    under: TypeId,
) -> Result<bool, SetFault>
    requires env { E.fits env.old table.old }
    requires bounds { AreIds table.old bounds.now }
    requires marks { AreMarks table.old marks.old }
    requires id { IsId table.old t }
    requires under { IsId table.old under }
    ensures answer { Looks table.new marks.old marks.new (λ n. want.inside
        (E.decls env.old table.old) (trees table.old bounds.now)
        (want.look (E.decls env.old table.old) (trees table.old bounds.now) n)
        (seen table.old marks.old) (tree table.old under)
        (number_of (tree table.old t))) result }
    ensures kept { Kept E.packages E.lent E.decls E.fits env.old table.old env.new table.new }
{
    match number_of(table, t) {
        Some(k) => inside_param(alloc, env, table, bounds, marks, under, k),
        None => inside_plain(alloc, env, table, bounds, marks, under),
    }
}

// The parts of a type that is no type parameter.
#[cycle(look)]
fn inside_plain<E: Env>(
    alloc: Global,
    env: &mut E,
    table: &mut TypeTable,
    bounds: &[TypeId],
    marks: &mut Marks,
    under: TypeId,
) -> Result<bool, SetFault>
    requires env { E.fits env.old table.old }
    requires bounds { AreIds table.old bounds.now }
    requires marks { AreMarks table.old marks.old }
    requires under { IsId table.old under }
    ensures answer { Looks table.new marks.old marks.new (λ n. want.plain_looked
        (want.look (E.decls env.old table.old) (trees table.old bounds.now) n)
        (seen table.old marks.old) (tree table.old under)) result }
    ensures kept { Kept E.packages E.lent E.decls E.fits env.old table.old env.new table.new }
{
    if is_incomparable(table, under) {
        return Ok(false);
    }
    match parts_of(alloc, table, under) {
        Ok(parts) => all_looked(alloc, env, table, bounds, marks, parts.items()),
        Err(_) => Err(SetFault::NoMemory),
    }
}

// The terms of a type parameter.
#[cycle(look)]
fn inside_param<E: Env>(
    alloc: Global,
    env: &mut E,
    table: &mut TypeTable,
    bounds: &[TypeId],
    marks: &mut Marks,
    under: TypeId,
    k: u32,
) -> Result<bool, SetFault>
    requires env { E.fits env.old table.old }
    requires bounds { AreIds table.old bounds.now }
    requires marks { AreMarks table.old marks.old }
    requires under { IsId table.old under }
    ensures answer { Looks table.new marks.old marks.new (λ n. want.inside
        (E.decls env.old table.old) (trees table.old bounds.now)
        (want.look (E.decls env.old table.old) (trees table.old bounds.now) n)
        (seen table.old marks.old) (tree table.old under) (Some k)) result }
    ensures kept { Kept E.packages E.lent E.decls E.fits env.old table.old env.new table.new }
{
    let _ = under;
    match needed_bound(alloc, env, table, bounds, k) {
        Ok(bound) => inside_bound(alloc, env, table, bounds, marks, bound),
        Err(fault) => Err(fault),
    }
}

// The terms of a constraint, which is given by its underlying type.
#[cycle(look)]
fn inside_bound<E: Env>(
    alloc: Global,
    env: &mut E,
    table: &mut TypeTable,
    bounds: &[TypeId],
    marks: &mut Marks,
    bound: TypeId,
) -> Result<bool, SetFault>
    requires env { E.fits env.old table.old }
    requires bounds { AreIds table.old bounds.now }
    requires marks { AreMarks table.old marks.old }
    requires bound { IsId table.old bound }
    ensures answer { Looks table.new marks.old marks.new (λ n. want.bound_looked
        (want.look (E.decls env.old table.old) (trees table.old bounds.now) n)
        (seen table.old marks.old) (tree table.old bound)) result }
    ensures kept { Kept E.packages E.lent E.decls E.fits env.old table.old env.new table.new }
{
    if asks_comparable(table, bound) {
        return Ok(true);
    }
    match unions_of(alloc, table, bound) {
        Ok(unions) => one_looked(alloc, env, table, bounds, marks, unions.items()),
        Err(_) => Err(SetFault::NoMemory),
    }
}

// One union after another, up to the first whose terms are all comparable.
#[cycle(look)]
fn one_looked<E: Env>(
    alloc: Global,
    env: &mut E,
    table: &mut TypeTable,
    bounds: &[TypeId],
    marks: &mut Marks,
    unions: &[TypeId],
) -> Result<bool, SetFault>
    requires env { E.fits env.old table.old }
    requires bounds { AreIds table.old bounds.now }
    requires marks { AreMarks table.old marks.old }
    requires unions { AreIds table.old unions.now }
    ensures answer { Looks table.new marks.old marks.new (λ n. want.one_looked
        (want.look (E.decls env.old table.old) (trees table.old bounds.now) n)
        (seen table.old marks.old) (trees table.old unions.now)) result }
    ensures kept { Kept E.packages E.lent E.decls E.fits env.old table.old env.new table.new }
{
    for union in unions {
        match union_looked(alloc, env, table, bounds, marks, *union) {
            Ok(true) => return Ok(true),
            Ok(false) => {}
            Err(fault) => return Err(fault),
        }
    }
    Ok(false)
}

// The terms of one union.
#[cycle(look)]
fn union_looked<E: Env>(
    alloc: Global,
    env: &mut E,
    table: &mut TypeTable,
    bounds: &[TypeId],
    marks: &mut Marks,
    union: TypeId,
) -> Result<bool, SetFault>
    requires env { E.fits env.old table.old }
    requires bounds { AreIds table.old bounds.now }
    requires marks { AreMarks table.old marks.old }
    requires union { IsId table.old union }
    ensures answer { Looks table.new marks.old marks.new (λ n. want.all_looked
        (want.look (E.decls env.old table.old) (trees table.old bounds.now) n)
        (seen table.old marks.old) (shape.term_types (tree table.old union))) result }
    ensures kept { Kept E.packages E.lent E.decls E.fits env.old table.old env.new table.new }
{
    match term_types(alloc, table, union) {
        Ok(types) => all_looked(alloc, env, table, bounds, marks, types.items()),
        Err(_) => Err(SetFault::NoMemory),
    }
}

// One type after another, up to the first that isn't comparable.
#[cycle(look)]
fn all_looked<E: Env>(
    alloc: Global,
    env: &mut E,
    table: &mut TypeTable,
    bounds: &[TypeId],
    marks: &mut Marks,
    types: &[TypeId],
) -> Result<bool, SetFault>
    requires env { E.fits env.old table.old }
    requires bounds { AreIds table.old bounds.now }
    requires marks { AreMarks table.old marks.old }
    requires types { AreIds table.old types.now }
    ensures answer { Looks table.new marks.old marks.new (λ n. want.all_looked
        (want.look (E.decls env.old table.old) (trees table.old bounds.now) n)
        (seen table.old marks.old) (trees table.old types.now)) result }
    ensures kept { Kept E.packages E.lent E.decls E.fits env.old table.old env.new table.new }
{
    for t in types {
        match look(alloc, env, table, bounds, marks, *t) {
            Ok(true) => {}
            Ok(false) => return Ok(false),
            Err(fault) => return Err(fault),
        }
    }
    Ok(true)
}

/// Whether the type is comparable: it isn't in the least set that holds slices, maps and functions,
/// structs and arrays with a part in the set, and type parameters whose constraint has neither
/// `comparable` nor a union whose terms are all outside the set. `bounds` are the constraints of
/// the type parameters in scope, by number; one that has none there has the empty interface. It is
/// refused exactly where an underlying type that the search needs is past a limit, at the first
/// such: those of the type, of the parts of structs and arrays, of the constraint and the terms of
/// a type parameter, depth first. Go specification, "Comparison operators", "Satisfying a type
/// constraint".
pub fn comparable<E: Env>(
    alloc: Global,
    env: &mut E,
    table: &mut TypeTable,
    bounds: &Ids,
    t: TypeId,
) -> Result<bool, SetFault>
    requires env { E.fits env.old table.old }
    requires bounds { AreIds table.old bounds.now }
    requires id { IsId table.old t }
    ensures right { IfOk result (shape.Tells
        (E.decls env.old table.old) (trees table.old bounds.now) (tree table.old t)) }
    ensures answer { EndsAs (compared
        (E.decls env.old table.old) (trees table.old bounds.now) (tree table.old t)) result }
    ensures kept { Kept E.packages E.lent E.decls E.fits env.old table.old env.new table.new }
{
    let mut marks = no_marks(alloc);
    look(alloc, env, table, bounds.items(), &mut marks, t)
}
