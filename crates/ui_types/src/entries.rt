ghost use Rattle.std.specs.Prelude.{◌≡◌, ◌<◌, Some, ◌+◌, [], ◌∷◌, ◌++◌, length, slice_get, IfOk};
ghost use Rattle.std.specs.Prelude.{IfSome, IfNone, OnOk, OnErr};
ghost use Rattle.indexmap.specs.IndexMap.{index_map_len};
ghost use Rattle.ui_types.specs.Entries.{IsTable, trees_of, IsExtentOf, IsEntryOf, IsFresh};
ghost use Rattle.ui_types.specs.Entries.{HasNode};
ghost use Rattle.ui_types.specs.Ty.{sizes, depths};
ghost use Rattle.ui_types.specs.Table.{AreIds, IsNode, parts, shown, counted_size, counted_depth};

use crate::extent::Extent;
use crate::id::TypeId;
use crate::node::TypeNode;
use indexmap::IndexMap;
use std::alloc::Global;
use ui_base::NoMemory;

/// The nodes of a table in the order of their ids, each with the extent of its tree.
pub type Entries = IndexMap<TypeNode, Extent>;

/// The node and the extent of an id.
pub fn entry_of(entries: &Entries, t: TypeId) -> (&TypeNode, &Extent)
    requires { t.0 < length entries.now.entries }
    ensures { slice_get entries.now.entries t.0 ≡ Some (result.0.now, result.1.now) }
{
    match entries.get_index(t.0) {
        Some(entry) => entry,
        None => unreachable!(),
    }
}

// The sizes of the types together, and the depth of the deepest.
#[tactic(auto, using(crate::proofs::TableLemmas::entries, crate::specs::Trees::lists))]
fn parts_extent(entries: &Entries, ids: &[TypeId]) -> Extent
    requires table { IsTable entries.now.entries }
    requires valid { AreIds (trees_of entries.now.entries) ids.now }
    ensures size { result.size ≡ counted_size
        (sizes (parts (trees_of entries.now.entries) ids.now)) }
    ensures depth { result.depth ≡ counted_depth
        (depths (parts (trees_of entries.now.entries) ids.now)) }
{
    let mut size: u64 = 0;
    let mut depth: u32 = 0;
    for id in ids {
        let (_, extent) = entry_of(entries, *id);
        size = size.saturating_add(extent.size);
        depth = depth.max(extent.depth);
    }
    Extent { size, depth }
}

/// The extent of the node's tree.
pub fn extent_of(alloc: Global, entries: &Entries, node: &TypeNode) -> Result<Extent, NoMemory>
    requires table { IsTable entries.now.entries }
    requires valid { IsNode (trees_of entries.now.entries) node.now }
    ensures { IfOk result (IsExtentOf (shown (trees_of entries.now.entries) node.now)) }
{
    let ids = node.ids(alloc)?;
    let parts = parts_extent(entries, ids.as_slice());
    Ok(Extent {
        size: parts.size.saturating_add(1),
        depth: parts.depth.saturating_add(1),
    })
}

/// Where the node stands.
pub fn find(entries: &Entries, node: &TypeNode) -> Option<usize>
    ensures found { IfSome result (HasNode entries.now.entries node.now) }
    ensures fresh { IfNone result (IsFresh entries.now.entries node.now) }
{
    entries.get_index_of(node)
}

/// Puts a node at the end.
pub fn add(entries: &mut Entries, node: TypeNode, extent: Extent) -> Result<(), NoMemory>
    requires table { IsTable entries.old.entries }
    requires entry { IsEntryOf (trees_of entries.old.entries) (node, extent) }
    requires fresh { IsFresh entries.old.entries node }
    ensures table { IsTable entries.new.entries }
    ensures ok { OnOk result (trees_of entries.new.entries ≡ trees_of entries.old.entries ++ shown
        (trees_of entries.old.entries) node ∷ []) }
    ensures err { OnErr result (trees_of entries.new.entries ≡ trees_of entries.old.entries) }
{
    entries.insert(node, extent)?;
    Ok(())
}
