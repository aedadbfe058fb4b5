//! Whether a type is in unions.
ghost use Rattle.std.specs.Prelude.{◌≡◌, ◌≤◌, ◌^◌, All, length};
ghost use Rattle.ui_types.specs.Table.{IsId, AreIds, max_size, tree, trees};
ghost use Rattle.ui_types.specs.Kept.{Kept};
ghost use Rattle.ui_sets.specs.Needed.{Answers, Gives};
ghost use Rattle.ui_terms.specs.Terms as want;
ghost use Rattle.ui_terms.specs.Terms.{each, asked};
ghost use Rattle.ui_terms.specs.Reading.{AreOwn, AreOwns, IsOwn, IsTerm};
ghost use Rattle.ui_terms.specs.Reading.{shown_own, shown_owns, shown_term, shown_terms};
ghost use Rattle.ui_terms.specs.Reading.{shown_unions};

use crate::list::pushed;
use crate::own::{OwnTerm, OwnTerms, own_of};
use crate::union::terms_of;
use std::alloc::Global;
use ui_sets::{SetFault, Unfit, needed};
use ui_types::{Env, Term, Terms, TypeId, TypeTable, is_identical};

// A term as it is asked for: of `~T` the underlying type of T, which is needed.
fn asked<E: Env>(
    alloc: Global,
    env: &mut E,
    table: &mut TypeTable,
    term: Term,
) -> Result<Term, SetFault>
    requires env { E.fits env.old table.old }
    requires term { IsTerm table.old term }
    ensures answer { Gives (IsTerm table.new) (shown_term table.new)
        (want.asked (E.decls env.old table.old) (shown_term table.old term)) result }
    ensures kept { Kept E.packages E.lent E.decls E.fits env.old table.old env.new table.new }
{
    if !term.tilde {
        return Ok(term);
    }
    match needed(alloc, env, table, term.ty) {
        Ok(under) => Ok(Term {
            tilde: true,
            ty: under,
        }),
        Err(fault) => Err(fault),
    }
}

// The terms as they are asked for.
fn all_asked<E: Env>(
    alloc: Global,
    env: &mut E,
    table: &mut TypeTable,
    terms: &[Term],
) -> Result<Terms, SetFault>
    requires env { E.fits env.old table.old }
    requires terms { All (IsTerm table.old) terms.now }
    ensures answer { Gives (All (IsTerm table.new)) (shown_terms table.new)
        (each (asked (E.decls env.old table.old)) (shown_terms table.old terms.now)) result }
    ensures kept { Kept E.packages E.lent E.decls E.fits env.old table.old env.new table.new }
{
    let mut all = Vec::new(alloc);
    for term in terms {
        let one = match asked(alloc, env, table, *term) {
            Ok(one) => one,
            Err(fault) => return Err(fault),
        };
        pushed(&mut all, one)?;
    }
    Ok(Terms::new(all))
}

// Whether the term takes the type, which may itself be a term.
fn takes(table: &TypeTable, term: Term, own: OwnTerm) -> bool
    requires term { IsTerm table.now term }
    requires own { IsOwn table.now own }
    ensures { result ≡ want.takes (shown_term table.now term) (shown_own table.now own) }
{
    if term.tilde {
        return is_identical(table, own.under, term.ty);
    }
    !own.tilde && is_identical(table, own.ty, term.ty)
}

// Whether one of the terms takes it.
fn is_taken(table: &TypeTable, terms: &[Term], own: OwnTerm) -> bool
    requires terms { All (IsTerm table.now) terms.now }
    requires own { IsOwn table.now own }
    ensures { result
        ≡ want.is_taken (shown_terms table.now terms.now) (shown_own table.now own) }
{
    for term in terms {
        if takes(table, *term, own) {
            return true;
        }
    }
    false
}

// Whether each is taken.
fn are_all_taken(table: &TypeTable, terms: &[Term], owns: &[OwnTerm]) -> bool
    requires terms { All (IsTerm table.now) terms.now }
    requires owns { AreOwn table.now owns.now }
    ensures { result ≡ want.are_all_taken (shown_terms table.now terms.now)
        (shown_owns table.now owns.now) }
{
    for own in owns {
        if !is_taken(table, terms, *own) {
            return false;
        }
    }
    true
}

// Whether all terms of one of its own unions are taken.
fn is_one_taken(table: &TypeTable, terms: &[Term], unions: &[OwnTerms]) -> bool
    requires terms { All (IsTerm table.now) terms.now }
    requires unions { AreOwns table.now unions.now }
    ensures { result ≡ want.is_one_taken (shown_terms table.now terms.now)
        (shown_unions table.now unions.now) }
{
    for union in unions {
        if are_all_taken(table, terms, union.items()) {
            return true;
        }
    }
    false
}

// Whether a type is in a union.
fn in_union<E: Env>(
    alloc: Global,
    env: &mut E,
    table: &mut TypeTable,
    own: &[OwnTerms],
    union: TypeId,
) -> Result<bool, SetFault>
    requires env { E.fits env.old table.old }
    requires own { AreOwns table.old own.now }
    requires union { IsId table.old union }
    ensures answer { Answers (want.in_union (E.decls env.old table.old)
        (shown_unions table.old own.now) (tree table.old union)) result }
    ensures kept { Kept E.packages E.lent E.decls E.fits env.old table.old env.new table.new }
{
    let terms = terms_of(alloc, table, union)?;
    let terms = all_asked(alloc, env, table, terms.items())?;
    Ok(is_one_taken(table, terms.items(), own))
}

// The unions, up to the first that the type isn't in.
fn in_unions<E: Env>(
    alloc: Global,
    env: &mut E,
    table: &mut TypeTable,
    own: &[OwnTerms],
    unions: &[TypeId],
) -> Result<(), SetFault>
    requires env { E.fits env.old table.old }
    requires own { AreOwns table.old own.now }
    requires unions { AreIds table.old unions.now }
    requires count { length unions.now ≤ max_size }
    ensures answer { Answers (want.in_unions (E.decls env.old table.old)
        (shown_unions table.old own.now) 0 (trees table.old unions.now)) result }
    ensures kept { Kept E.packages E.lent E.decls E.fits env.old table.old env.new table.new }
{
    for (k, union) in unions.iter().enumerate() {
        let is_in = match in_union(alloc, env, table, own, *union) {
            Ok(is_in) => is_in,
            Err(fault) => return Err(fault),
        };
        if !is_in {
            return Err(SetFault::Unfit(Unfit::NotInUnion { union: k as u32 }));
        }
    }
    Ok(())
}

/// Whether the type is in each of the unions: it is one of the terms, or its underlying type is
/// that of a term `~T`; of a type parameter all terms of one of its own unions are, a term `~` only
/// by a `~`. The number of the first union that it isn't in is told, unless a type needed before is
/// past a limit. Go specification, "Satisfying a type constraint".
pub fn unions_fit<E: Env>(
    alloc: Global,
    env: &mut E,
    table: &mut TypeTable,
    bounds: &[TypeId],
    t: TypeId,
    unions: &[TypeId],
) -> Result<(), SetFault>
    requires env { E.fits env.old table.old }
    requires bounds { AreIds table.old bounds.now }
    requires id { IsId table.old t }
    requires unions { AreIds table.old unions.now }
    requires count { length unions.now ≤ max_size }
    ensures answer { Answers (want.unions_fit (E.decls env.old table.old)
        (trees table.old bounds.now) (tree table.old t) (trees table.old unions.now)) result }
    ensures kept { Kept E.packages E.lent E.decls E.fits env.old table.old env.new table.new }
{
    if unions.is_empty() {
        return Ok(());
    }
    let own = own_of(alloc, env, table, bounds, t)?;
    in_unions(alloc, env, table, own.items(), unions)
}
