ghost use Rattle.std.specs.Prelude.{◌≡◌, IfOk};
ghost use Rattle.ui_types.specs.Table.{IsId, IsNode, shown, tree};
ghost use Rattle.ui_infer.specs.Shape.{filled, same_shape};

use std::alloc::Global;
use ui_types::{NoMemory, TypeId, TypeNode, TypeTable};

// The node of a type with `z` in the place of each part.
fn hollow(alloc: Global, table: &TypeTable, t: TypeId, z: TypeId) -> Result<TypeNode, NoMemory>
    requires t { IsId table.now t }
    requires z { IsId table.now z }
    ensures valid { IfOk result (IsNode table.now) }
    ensures value { IfOk result (λ node. shown table.now node
        ≡ filled (tree table.now z) (tree table.now t)) }
{
    let node = table.node(t);
    let ids = node.ids(alloc)?;
    let parts = vec![in alloc; z; ids.len()]?;
    node.with_ids(alloc, parts.as_slice())
}

/// Whether two types differ in their parts alone.
pub fn is_same_shape(
    alloc: Global,
    table: &TypeTable,
    t: TypeId,
    u: TypeId,
) -> Result<bool, NoMemory>
    requires first { IsId table.now t }
    requires second { IsId table.now u }
    ensures { IfOk result (λ same. same ≡ same_shape (tree table.now t) (tree table.now u)) }
{
    table.once();
    let first = hollow(alloc, table, t, t)?;
    let second = hollow(alloc, table, u, t)?;
    Ok(first == second)
}
