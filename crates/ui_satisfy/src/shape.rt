//! What is looked at of a type.
ghost use Rattle.std.specs.Prelude.{◌≡◌, [], ◌∷◌, IfOk};
ghost use Rattle.ui_types.specs.Table.{IsId, AreIds, tree, trees};
ghost use Rattle.ui_satisfy.specs.Comparable as want;

use std::alloc::Global;
use ui_terms::terms_of;
use ui_types::{Ids, NoMemory, TypeId, TypeNode, TypeTable, types_of};

/// Whether it is a slice, a map or a function.
pub(crate) fn is_incomparable(table: &TypeTable, under: TypeId) -> bool
    requires { IsId table.now under }
    ensures { result ≡ want.is_incomparable (tree table.now under) }
{
    matches!(
        table.node(under),
        TypeNode::Slice(_) | TypeNode::Map { .. } | TypeNode::Func { .. }
    )
}

/// Whether a constraint embeds `comparable`.
pub(crate) fn asks_comparable(table: &TypeTable, under: TypeId) -> bool
    requires { IsId table.now under }
    ensures { result ≡ want.asks_comparable (tree table.now under) }
{
    match table.node(under) {
        TypeNode::Iface {
            methods: _,
            comparable,
            unions: _,
        } => *comparable,
        _ => false,
    }
}

// The id alone.
fn one_id(alloc: Global, id: TypeId) -> Result<Ids, NoMemory>
    ensures { IfOk result (λ ids. ids ≡ id ∷ []) }
{
    let mut ids = Vec::new(alloc);
    ids.push(id)?;
    Ok(Ids::new(ids))
}

/// The types of a struct's fields and of an array's elements.
pub(crate) fn parts_of(alloc: Global, table: &TypeTable, under: TypeId) -> Result<Ids, NoMemory>
    requires { IsId table.now under }
    ensures valid { IfOk result (AreIds table.now) }
    ensures answer { IfOk result
        (λ ids. trees table.now ids ≡ want.parts_of (tree table.now under)) }
{
    match table.node(under) {
        TypeNode::Struct(fields) => Ok(Ids::new(types_of(alloc, fields.items())?)),
        TypeNode::Array { len: _, elem } => one_id(alloc, *elem),
        _ => Ok(Ids::new(Vec::new(alloc))),
    }
}

/// The types of a union's terms.
pub(crate) fn term_types(alloc: Global, table: &TypeTable, union: TypeId) -> Result<Ids, NoMemory>
    requires { IsId table.now union }
    ensures valid { IfOk result (AreIds table.now) }
    ensures answer { IfOk result
        (λ ids. trees table.now ids ≡ want.term_types (tree table.now union)) }
{
    let terms = terms_of(alloc, table, union)?;
    Ok(Ids::new(types_of(alloc, terms.items())?))
}
