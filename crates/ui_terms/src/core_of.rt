//! Core types.
ghost use Rattle.std.specs.Prelude.{◌≡◌, All, IfSome, None, Some, option_map};
ghost use Rattle.ui_types.specs.Table.{IsId, AreIds, tree, trees};
ghost use Rattle.ui_types.specs.Kept.{Kept};
ghost use Rattle.ui_sets.specs.Needed.{Gives};
ghost use Rattle.ui_terms.specs.Terms as want;
ghost use Rattle.ui_terms.specs.Reading.{AreOwn, AreOwns, shown_owns, shown_unions};

use crate::own::{OwnTerm, OwnTerms, own_of_param};
use std::alloc::Global;
use ui_sets::{SetFault, needed, number_of};
use ui_types::{Env, Ids, TypeId, TypeTable, is_identical};

// Whether it is the underlying type of each term.
fn all_under(table: &TypeTable, under: TypeId, terms: &[OwnTerm]) -> bool
    requires under { IsId table.now under }
    requires terms { AreOwn table.now terms.now }
    ensures { result ≡ want.all_under (tree table.now under) (shown_owns table.now terms.now) }
{
    for term in terms {
        if !is_identical(table, term.under, under) {
            return false;
        }
    }
    true
}

// The one underlying type of all terms of a union.
fn one_of(table: &TypeTable, terms: &[OwnTerm]) -> Option<TypeId>
    requires { AreOwn table.now terms.now }
    ensures valid { IfSome result (IsId table.now) }
    ensures answer { option_map (tree table.now) result
        ≡ want.one_of (shown_owns table.now terms.now) }
{
    if terms.is_empty() {
        return None;
    }
    let under = terms[0].under;
    if all_under(table, under, terms) {
        return Some(under);
    }
    None
}

// That of the first union that has one.
fn first_one(table: &TypeTable, unions: &[OwnTerms]) -> Option<TypeId>
    requires { AreOwns table.now unions.now }
    ensures valid { IfSome result (IsId table.now) }
    ensures answer { option_map (tree table.now) result
        ≡ want.first_one (shown_unions table.now unions.now) }
{
    for union in unions {
        let one = one_of(table, union.items());
        if one.is_some() {
            return one;
        }
    }
    None
}

// The core type of a type parameter, by its number.
fn core_of_param<E: Env>(
    alloc: Global,
    env: &mut E,
    table: &mut TypeTable,
    bounds: &[TypeId],
    t: TypeId,
    k: u32,
) -> Result<Option<TypeId>, SetFault>
    requires env { E.fits env.old table.old }
    requires bounds { AreIds table.old bounds.now }
    ensures answer { Gives (λ found. IfSome found (IsId table.new)) (option_map (tree table.new))
        (want.numbered_core (E.decls env.old table.old) (trees table.old bounds.now)
        (tree table.old t) (Some k)) result }
    ensures kept { Kept E.packages E.lent E.decls E.fits env.old table.old env.new table.new }
{
    let _ = t;
    match own_of_param(alloc, env, table, bounds, k) {
        Ok(unions) => Ok(first_one(table, unions.items())),
        Err(fault) => Err(fault),
    }
}

// The underlying type, as the core type of what is no type parameter.
fn core_of_plain<E: Env>(
    alloc: Global,
    env: &mut E,
    table: &mut TypeTable,
    bounds: &[TypeId],
    t: TypeId,
) -> Result<Option<TypeId>, SetFault>
    requires env { E.fits env.old table.old }
    requires id { IsId table.old t }
    ensures answer { Gives (λ found. IfSome found (IsId table.new)) (option_map (tree table.new))
        (want.numbered_core (E.decls env.old table.old) (trees table.old bounds.now)
        (tree table.old t) None) result }
    ensures kept { Kept E.packages E.lent E.decls E.fits env.old table.old env.new table.new }
{
    let _ = bounds;
    match needed(alloc, env, table, t) {
        Ok(under) => Ok(Some(under)),
        Err(fault) => Err(fault),
    }
}

/// The core type: the underlying type, and for a type parameter the one underlying type of all
/// terms of the first of its unions that has one. `bounds` are the constraints of the type
/// parameters in scope, by number; one that has none there has the empty interface. It is refused
/// exactly where the underlying type, or that of the constraint or of a term of its unions, is past
/// a limit, at the first such. Go specification, "Core types".
pub fn core_type<E: Env>(
    alloc: Global,
    env: &mut E,
    table: &mut TypeTable,
    bounds: &Ids,
    t: TypeId,
) -> Result<Option<TypeId>, SetFault>
    requires env { E.fits env.old table.old }
    requires bounds { AreIds table.old bounds.now }
    requires id { IsId table.old t }
    ensures answer { Gives (λ found. IfSome found (IsId table.new)) (option_map (tree table.new))
        (want.core_type (E.decls env.old table.old) (trees table.old bounds.now)
        (tree table.old t)) result }
    ensures kept { Kept E.packages E.lent E.decls E.fits env.old table.old env.new table.new }
{
    match number_of(table, t) {
        Some(k) => core_of_param(alloc, env, table, bounds.items(), t, k),
        None => core_of_plain(alloc, env, table, bounds.items(), t),
    }
}
