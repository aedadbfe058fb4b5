//! What stands for a type where unions are asked.
ghost use Rattle.std.specs.Prelude.{◌≡◌, ◌∷◌, [], All, IfOk, None};
ghost use Rattle.ui_types.specs.Ty.{list_of};
ghost use Rattle.ui_types.specs.Table.{IsId, AreIds, tree, trees};
ghost use Rattle.ui_types.specs.Kept.{Kept};
ghost use Rattle.ui_sets.specs.Needed.{Gives};
ghost use Rattle.ui_terms.specs.Terms as want;
ghost use Rattle.ui_terms.specs.Terms.{each, own_term, own_union};
ghost use Rattle.ui_terms.specs.Reading.{AreOwn, AreOwns, IsOwn, IsTerm};
ghost use Rattle.ui_terms.specs.Reading.{shown_own, shown_owns, shown_term, shown_terms};
ghost use Rattle.ui_terms.specs.Reading.{shown_unions};

use crate::list::pushed;
use crate::union::{terms_of, unions_of};
use std::alloc::Global;
use ui_sets::{SetFault, needed, needed_bound, number_of};
use ui_types::{Env, Items, NoMemory, Term, TypeId, TypeTable};

/// A term with its underlying type.
#[derive(Clone, Copy)]
pub(crate) struct OwnTerm {
    pub tilde: bool,
    pub ty: TypeId,
    pub under: TypeId,
}

/// The terms of a union, each with its underlying type.
pub(crate) type OwnTerms = Items<OwnTerm>;

/// The unions that stand for a type.
pub(crate) type OwnUnions = Items<OwnTerms>;

// A term with its underlying type, which is needed.
fn own_term<E: Env>(
    alloc: Global,
    env: &mut E,
    table: &mut TypeTable,
    term: Term,
) -> Result<OwnTerm, SetFault>
    requires env { E.fits env.old table.old }
    requires term { IsTerm table.old term }
    ensures answer { Gives (IsOwn table.new) (shown_own table.new)
        (want.own_term (E.decls env.old table.old) (shown_term table.old term)) result }
    ensures kept { Kept E.packages E.lent E.decls E.fits env.old table.old env.new table.new }
{
    match needed(alloc, env, table, term.ty) {
        Ok(under) => Ok(OwnTerm {
            tilde: term.tilde,
            ty: term.ty,
            under,
        }),
        Err(fault) => Err(fault),
    }
}

// The terms with their underlying types.
fn own_terms<E: Env>(
    alloc: Global,
    env: &mut E,
    table: &mut TypeTable,
    terms: &[Term],
) -> Result<OwnTerms, SetFault>
    requires env { E.fits env.old table.old }
    requires terms { All (IsTerm table.old) terms.now }
    ensures answer { Gives (AreOwn table.new) (shown_owns table.new)
        (each (own_term (E.decls env.old table.old)) (shown_terms table.old terms.now)) result }
    ensures kept { Kept E.packages E.lent E.decls E.fits env.old table.old env.new table.new }
{
    let mut own = Vec::new(alloc);
    for term in terms {
        let one = match own_term(alloc, env, table, *term) {
            Ok(one) => one,
            Err(fault) => return Err(fault),
        };
        pushed(&mut own, one)?;
    }
    Ok(OwnTerms::new(own))
}

// The terms of a union with their underlying types.
fn own_union<E: Env>(
    alloc: Global,
    env: &mut E,
    table: &mut TypeTable,
    union: TypeId,
) -> Result<OwnTerms, SetFault>
    requires env { E.fits env.old table.old }
    requires union { IsId table.old union }
    ensures answer { Gives (AreOwn table.new) (shown_owns table.new)
        (want.own_union (E.decls env.old table.old) (tree table.old union)) result }
    ensures kept { Kept E.packages E.lent E.decls E.fits env.old table.old env.new table.new }
{
    let terms = terms_of(alloc, table, union)?;
    own_terms(alloc, env, table, terms.items())
}

// The unions with the underlying types of their terms.
fn own_unions<E: Env>(
    alloc: Global,
    env: &mut E,
    table: &mut TypeTable,
    unions: &[TypeId],
) -> Result<OwnUnions, SetFault>
    requires env { E.fits env.old table.old }
    requires unions { AreIds table.old unions.now }
    ensures answer { Gives (AreOwns table.new) (shown_unions table.new)
        (each (own_union (E.decls env.old table.old)) (trees table.old unions.now)) result }
    ensures kept { Kept E.packages E.lent E.decls E.fits env.old table.old env.new table.new }
{
    let mut own = Vec::new(alloc);
    for union in unions {
        let one = match own_union(alloc, env, table, *union) {
            Ok(one) => one,
            Err(fault) => return Err(fault),
        };
        pushed(&mut own, one)?;
    }
    Ok(OwnUnions::new(own))
}

// The unions of a constraint, which is given by its underlying type.
fn own_of_bound<E: Env>(
    alloc: Global,
    env: &mut E,
    table: &mut TypeTable,
    under: TypeId,
) -> Result<OwnUnions, SetFault>
    requires env { E.fits env.old table.old }
    requires under { IsId table.old under }
    ensures answer { Gives (AreOwns table.new) (shown_unions table.new)
        (want.own_of_bound (E.decls env.old table.old) (tree table.old under)) result }
    ensures kept { Kept E.packages E.lent E.decls E.fits env.old table.old env.new table.new }
{
    let unions = unions_of(alloc, table, under)?;
    own_unions(alloc, env, table, unions.items())
}

/// The unions of a type parameter's constraint, by its number.
pub(crate) fn own_of_param<E: Env>(
    alloc: Global,
    env: &mut E,
    table: &mut TypeTable,
    bounds: &[TypeId],
    k: u32,
) -> Result<OwnUnions, SetFault>
    requires env { E.fits env.old table.old }
    requires bounds { AreIds table.old bounds.now }
    ensures answer { Gives (AreOwns table.new) (shown_unions table.new)
        (want.own_of_param (E.decls env.old table.old) (trees table.old bounds.now) k) result }
    ensures kept { Kept E.packages E.lent E.decls E.fits env.old table.old env.new table.new }
{
    let under = needed_bound(alloc, env, table, bounds, k)?;
    own_of_bound(alloc, env, table, under)
}

// One union of one term.
fn one_union(alloc: Global, term: OwnTerm) -> Result<OwnUnions, NoMemory>
    ensures { IfOk result (λ us. us ≡ (term ∷ []) ∷ []) }
{
    let mut terms = Vec::new(alloc);
    terms.push(term)?;
    let mut unions = Vec::new(alloc);
    unions.push(OwnTerms::new(terms))?;
    Ok(OwnUnions::new(unions))
}

// What stands for a type that is no type parameter.
fn own_of_plain<E: Env>(
    alloc: Global,
    env: &mut E,
    table: &mut TypeTable,
    t: TypeId,
) -> Result<OwnUnions, SetFault>
    requires env { E.fits env.old table.old }
    requires id { IsId table.old t }
    ensures answer { Gives (AreOwns table.new) (shown_unions table.new)
        (want.numbered_own (E.decls env.old table.old) [] (tree table.old t) None) result }
    ensures kept { Kept E.packages E.lent E.decls E.fits env.old table.old env.new table.new }
{
    let term = Term {
        tilde: false,
        ty: t,
    };
    let term = own_term(alloc, env, table, term)?;
    match one_union(alloc, term) {
        Ok(own) => Ok(own),
        Err(_) => Err(SetFault::NoMemory),
    }
}

/// What stands for a type where unions are asked: for a type parameter the unions of its
/// constraint, and every other type stands for itself.
pub(crate) fn own_of<E: Env>(
    alloc: Global,
    env: &mut E,
    table: &mut TypeTable,
    bounds: &[TypeId],
    t: TypeId,
) -> Result<OwnUnions, SetFault>
    requires env { E.fits env.old table.old }
    requires bounds { AreIds table.old bounds.now }
    requires id { IsId table.old t }
    ensures answer { Gives (AreOwns table.new) (shown_unions table.new)
        (want.own (E.decls env.old table.old) (trees table.old bounds.now) (tree table.old t))
        result }
    ensures kept { Kept E.packages E.lent E.decls E.fits env.old table.old env.new table.new }
{
    match number_of(table, t) {
        Some(k) => own_of_param(alloc, env, table, bounds, k),
        None => own_of_plain(alloc, env, table, t),
    }
}
