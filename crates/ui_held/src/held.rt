//! What a type holds by value.
ghost use Rattle.std.specs.Prelude.{◌≡◌, [], ◌∷◌, ◌++◌, All, IfOk, OnOk};
ghost use Rattle.ui_types.specs.Table.{IsId, tree, parts_by};
ghost use Rattle.ui_held.specs.Held.{held, held_fields, places};
ghost use Rattle.ui_held.specs.Walk.{IsWalk, Looks, IsSame};

use indexmap::IndexSet;
use std::alloc::Global;
use ui_types::{Field, Name, NoMemory, TypeId, TypeNode, TypeTable};

// The types that a walk has looked at, and the places of the declared types that they hold.
#[derive(Drop)]
struct Walk {
    looked: IndexSet<TypeId>,
    held: Vec<usize>,
}

// The type of the name is held, where it is declared.
fn put(names: &IndexSet<Name>, walk: &mut Walk, name: &Name) -> Result<(), NoMemory>
    ensures looked { walk.new.looked ≡ walk.old.looked }
    ensures held { OnOk result (walk.new.held.items
        ≡ walk.old.held.items ++ places names.now.keys (name.now ∷ [])) }
{
    if let Some(place) = names.get_index_of(name) {
        walk.held.push(place)?;
    }
    Ok(())
}

// Looks at a type, unless it was looked at before.
#[cycle(look)]
fn look(
    table: &TypeTable,
    names: &IndexSet<Name>,
    walk: &mut Walk,
    t: TypeId,
) -> Result<(), NoMemory>
    requires id { IsId table.now t }
    requires walk { IsWalk table.now names.now.keys walk.old }
    ensures { OnOk result (Looks table.now names.now.keys (held (tree table.now t)) walk.old
        walk.new) }
{
    if walk.looked.contains(&t) {
        return Ok(());
    }
    look_inside(table, names, walk, t)?;
    walk.looked.insert(t)?;
    Ok(())
}

// Looks at the parts of a type.
#[cycle(look)]
fn look_inside(
    table: &TypeTable,
    names: &IndexSet<Name>,
    walk: &mut Walk,
    t: TypeId,
) -> Result<(), NoMemory>
    requires id { IsId table.now t }
    requires walk { IsWalk table.now names.now.keys walk.old }
    ensures { OnOk result (Looks table.now names.now.keys (held (tree table.now t)) walk.old
        walk.new) }
{
    match table.node(t) {
        TypeNode::Named { name, args: _ } => put(names, walk, name),
        TypeNode::Array { len: _, elem } => look(table, names, walk, *elem),
        TypeNode::Struct(fields) => look_fields(table, names, walk, fields.items()),
        _ => Ok(()),
    }
}

// Looks at the types of fields.
#[cycle(look)]
fn look_fields(
    table: &TypeTable,
    names: &IndexSet<Name>,
    walk: &mut Walk,
    fields: &[Field],
) -> Result<(), NoMemory>
    requires ids { All (λ f. IsId table.now f.ty) fields.now }
    requires walk { IsWalk table.now names.now.keys walk.old }
    ensures { OnOk result (Looks table.now names.now.keys
        (held_fields (parts_by (λ f. f.ty) table.now fields.now)) walk.old walk.new) }
{
    for field in fields {
        look(table, names, walk, field.ty)?;
    }
    Ok(())
}

/// The places of the declared types that a type holds by value, in any order.
pub(crate) fn held_places(
    alloc: Global,
    table: &TypeTable,
    names: &IndexSet<Name>,
    t: TypeId,
) -> Result<Vec<usize>, NoMemory>
    requires { IsId table.now t }
    ensures { IfOk result (λ v. IsSame (places names.now.keys (held (tree table.now t))) v.items) }
{
    let mut walk = Walk {
        looked: IndexSet::new(alloc),
        held: Vec::new(alloc),
    };
    look(table, names, &mut walk, t)?;
    Ok(walk.held)
}
