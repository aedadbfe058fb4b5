ghost use Rattle.std.specs.Prelude.{◌≡◌, ◌<◌, ◌≤◌, ◌↔◌, [], IsTrue, MatchResult};
ghost use Rattle.ui_types.specs.declared.id.TypeId.{TypeId};
ghost use Rattle.ui_types.specs.Ty.{size, depth, subst};
ghost use Rattle.ui_types.specs.Table.{IsId, AreIds, IsNode, Grows, IsWithinLimits, IsFaultOf};
ghost use Rattle.ui_types.specs.Table.{Makes, shown, tree, trees};
ghost use Rattle.ui_types.specs.Entries.{IsTable, IsEntryOf, trees_of};

use crate::entries::{Entries, add, entry_of, extent_of, find};
use crate::extent::{Extent, MAX_DEPTH, MAX_SIZE};
use crate::fault::TypeFault;
use crate::id::TypeId;
use crate::made::Memo;
use crate::node::TypeNode;
use crate::substitute::substituted;
use indexmap::IndexMap;
use std::alloc::Global;
use std::marker::Model;

/// Types as numbered nodes, each once. Contracts see a table as the list of its trees, in which an
/// id is a place. Each tree has at most 65,536 nodes and a depth of at most 256.
#[derive(Drop)]
pub struct TypeTable {
    entries: Entries,
}

impl Model for TypeTable {
    ghost use Rattle.std.specs.Prelude.{List};
    ghost use Rattle.std.specs.Coded.{coded_list};
    ghost use Rattle.ui_types.specs.Ty.{Ty};
    ghost use Rattle.ui_types.specs.Codes.{ty_code};

    ghost Value = { List Ty };

    ghost coded = { coded_list ty_code };

    ghost use Rattle.ui_types.specs.Entries.{IsTable, trees_of};

    ghost view = { λ a. trees_of a.entries.entries };

    ghost invariant = { λ a. IsTable a.entries.entries };
}

// The extent of the node's tree, which is refused where it is past a limit.
fn extent_within(alloc: Global, entries: &Entries, node: &TypeNode) -> Result<Extent, TypeFault>
    requires table { IsTable entries.now.entries }
    requires valid { IsNode (trees_of entries.now.entries) node.now }
    ensures { MatchResult result (λ e. IsEntryOf (trees_of entries.now.entries) (node.now, e))
        (IsFaultOf (shown (trees_of entries.now.entries) node.now)) }
{
    let extent = match extent_of(alloc, entries, node) {
        Ok(extent) => extent,
        Err(_) => return Err(TypeFault::NoMemory),
    };
    if extent.size > MAX_SIZE {
        return Err(TypeFault::TooBig { size: extent.size });
    }
    if extent.depth > MAX_DEPTH {
        return Err(TypeFault::TooDeep {
            depth: extent.depth,
        });
    }
    Ok(extent)
}

#[tactic(auto, using(crate::proofs::TableLemmas::entries))]
impl TypeTable {
    /// A table without types.
    pub fn new(alloc: Global) -> TypeTable
        ensures { result ≡ [] }
    {
        TypeTable {
            entries: IndexMap::new(alloc),
        }
    }

    /// The node of a type.
    pub fn node(&self, t: TypeId) -> &TypeNode
        requires { IsId self.now t }
        ensures valid { IsNode self.now result.now }
        ensures value { shown self.now result.now ≡ tree self.now t }
        ensures limits { IsWithinLimits (tree self.now t) }
    {
        let (node, _) = entry_of(&self.entries, t);
        node
    }

    /// How many nodes the type's tree has.
    pub fn size(&self, t: TypeId) -> u64
        requires { IsId self.now t }
        ensures { result ≡ size (tree self.now t) }
    {
        let (_, extent) = entry_of(&self.entries, t);
        extent.size
    }

    /// How many nodes the longest path of the type's tree has.
    pub fn depth(&self, t: TypeId) -> u32
        requires { IsId self.now t }
        ensures { result ≡ depth (tree self.now t) }
    {
        let (_, extent) = entry_of(&self.entries, t);
        extent.depth
    }

    /// Whether the types are identical, which they are exactly where they are one id. Go
    /// specification, "Type identity".
    pub fn same(&self, a: TypeId, b: TypeId) -> bool
        requires a_in { IsId self.now a }
        requires b_in { IsId self.now b }
        ensures trees { IsTrue result ↔ (tree self.now a ≡ tree self.now b) }
        ensures ids { IsTrue result ↔ (a ≡ b) }
    {
        let _ = &self.entries;
        a == b
    }

    /// Equal trees have equal ids.
    pub fn once(&self)
        ensures { (a b : TypeId) → IsId self.now a → IsId self.now b
            → tree self.now a ≡ tree self.now b → a ≡ b }
    {
        let _ = &self.entries;
    }

    /// The id of the node's type, which is added where the table lacks it. It is refused exactly
    /// where its tree has more than 65,536 nodes, else where its depth is past 256.
    pub fn intern(&mut self, alloc: Global, node: TypeNode) -> Result<TypeId, TypeFault>
        requires { IsNode self.old node }
        ensures made { Makes self.new (shown self.old node) result }
        ensures grows { Grows self.old self.new }
    {
        if let Some(k) = find(&self.entries, &node) {
            return Ok(TypeId(k));
        }
        let extent = match extent_within(alloc, &self.entries, &node) {
            Ok(extent) => extent,
            Err(fault) => return Err(fault),
        };
        let k = self.entries.len();
        add(&mut self.entries, node, extent)?;
        Ok(TypeId(k))
    }

    /// The type with the arguments in the places of its type parameters; one without an argument
    /// stays. It is refused exactly where the resulting tree has more than 65,536 nodes, else where
    /// its depth is past 256. Each type that `t` is made of is done once, however often it occurs.
    pub fn subst(&mut self, alloc: Global, t: TypeId, args: &[TypeId]) -> Result<TypeId, TypeFault>
        requires id { IsId self.old t }
        requires arguments { AreIds self.old args.now }
        ensures made { Makes self.new (subst (trees self.old args.now) (tree self.old t)) result }
        ensures grows { Grows self.old self.new }
    {
        let mut memo = Memo::new(alloc);
        let made = substituted(alloc, self, &mut memo, t, args)?;
        if made.extent.size > MAX_SIZE {
            return Err(TypeFault::TooBig {
                size: made.extent.size,
            });
        }
        if made.extent.depth > MAX_DEPTH {
            return Err(TypeFault::TooDeep {
                depth: made.extent.depth,
            });
        }
        match made.id {
            Some(id) => Ok(id),
            None => unreachable!(),
        }
    }
}
