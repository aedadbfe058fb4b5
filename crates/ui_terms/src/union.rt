//! The terms of a union, and the unions of a constraint.
ghost use Rattle.std.specs.Prelude.{◌≡◌, ◌≤◌, ◌∷◌, [], All, IfOk, false, length};
ghost use Rattle.ui_types.specs.Ty.{list_of};
ghost use Rattle.ui_types.specs.Table.{IsId, AreIds, max_size, tree, trees};
ghost use Rattle.ui_terms.specs.Terms as want;
ghost use Rattle.ui_terms.specs.Reading.{IsTerm, shown_terms};

use std::alloc::Global;
use ui_types::{Ids, NoMemory, Term, Terms, TypeId, TypeNode, TypeTable, copy_parts};

// The term that is one type.
fn one_term(alloc: Global, ty: TypeId) -> Result<Terms, NoMemory>
    ensures { IfOk result (λ ts. ts ≡ (record { tilde = false; ty = ty }) ∷ []) }
{
    let mut terms = Vec::new(alloc);
    terms.push(Term { tilde: false, ty })?;
    Ok(Terms::new(terms))
}

/// The terms of a union. What is no union counts as the union of that one type.
pub fn terms_of(alloc: Global, table: &TypeTable, union: TypeId) -> Result<Terms, NoMemory>
    requires { IsId table.now union }
    ensures valid { IfOk result (All (IsTerm table.now)) }
    ensures answer { IfOk result
        (λ ts. shown_terms table.now ts ≡ want.terms_of (tree table.now union)) }
{
    match table.node(union) {
        TypeNode::Union(terms) => copy_parts(alloc, terms.items()),
        _ => one_term(alloc, union),
    }
}

/// The unions of a constraint, which is given by its underlying type. What is no interface has
/// none.
#[tactic(auto, using(crate::specs::Loops::calling, crate::proofs::Count::few_unions))]
pub fn unions_of(alloc: Global, table: &TypeTable, t: TypeId) -> Result<Ids, NoMemory>
    requires { IsId table.now t }
    ensures valid { IfOk result (AreIds table.now) }
    ensures answer { IfOk result
        (λ us. trees table.now us ≡ list_of (want.unions_of (tree table.now t))) }
    ensures count { IfOk result (λ us. length us ≤ max_size) }
{
    match table.node(t) {
        TypeNode::Iface {
            methods: _,
            comparable: _,
            unions,
        } => copy_parts(alloc, unions.items()),
        _ => Ok(Ids::new(Vec::new(alloc))),
    }
}
