ghost use Rattle.std.specs.Prelude.{◌≡◌, IfOk, length};
ghost use Rattle.ui_types.specs.Ty.{param, subst, substs};
ghost use Rattle.ui_types.specs.Table.{IsId, AreIds, IsNode, Grows, Denotes, IsWithinLimits, shown};
ghost use Rattle.ui_types.specs.Table.{tree, trees, parts};
ghost use Rattle.ui_types.specs.Nodes.{ids_of, node_with};
ghost use Rattle.ui_types.specs.Entries.{IsExtentOf};
ghost use Rattle.ui_types.specs.Made.{IsMade, AreMade, IsMemo};

use crate::extent::Extent;
use crate::fault::TypeFault;
use crate::id::TypeId;
use crate::made::{Made, MadeParts, Memo, push_made};
use crate::node::TypeNode;
use crate::table::TypeTable;
use std::alloc::{AllocError, Global};
use ui_base::NoMemory;

// A type that stays as it is.
fn kept(table: &TypeTable, id: TypeId) -> Made
    requires { IsId table.now id }
    ensures { IsMade table.now (tree table.now id) result }
{
    let extent = Extent {
        size: table.size(id),
        depth: table.depth(id),
    };
    Made {
        extent,
        id: Some(id),
    }
}

// What the type parameter `t` of number `k` becomes.
fn replaced(table: &TypeTable, t: TypeId, k: u32, args: &[TypeId]) -> Made
    requires id { IsId table.now t }
    requires arguments { AreIds table.now args.now }
    requires parameter { tree table.now t ≡ param k }
    ensures { IsMade table.now (subst (trees table.now args.now) (tree table.now t)) result }
{
    let k = k as usize;
    if k < args.len() {
        return kept(table, args[k]);
    }
    kept(table, t)
}

/// As `intern`, of a node that is within the limits.
pub fn intern_within(
    alloc: Global,
    table: &mut TypeTable,
    node: TypeNode,
) -> Result<TypeId, NoMemory>
    requires node { IsNode table.old node }
    requires limits { IsWithinLimits (shown table.old node) }
    ensures made { IfOk result (Denotes table.new (shown table.old node)) }
    ensures grows { Grows table.old table.new }
{
    match table.intern(alloc, node) {
        Ok(id) => Ok(id),
        Err(TypeFault::NoMemory) => Err(AllocError),
        Err(_) => unreachable!(),
    }
}

// The node with these ids, which is within the limits and of this extent.
fn rebuilt(
    alloc: Global,
    table: &mut TypeTable,
    node: &TypeNode,
    extent: Extent,
    ids: &[TypeId],
) -> Result<Made, NoMemory>
    requires count { length ids.now ≡ length (ids_of node.now) }
    requires node { IsNode table.old (node_with node.now ids.now) }
    requires limits { IsWithinLimits (shown table.old (node_with node.now ids.now)) }
    requires extent { IsExtentOf (shown table.old (node_with node.now ids.now)) extent }
    ensures made { IfOk result (IsMade table.new (shown table.old (node_with node.now ids.now))) }
    ensures grows { Grows table.old table.new }
{
    let node = node.with_ids(alloc, ids)?;
    let id = intern_within(alloc, table, node)?;
    Ok(Made {
        extent,
        id: Some(id),
    })
}

/// What the type becomes with the arguments in the places of its parameters, looked up where it is
/// done already.
#[cycle(substituted)]
pub fn substituted(
    alloc: Global,
    table: &mut TypeTable,
    memo: &mut Memo,
    t: TypeId,
    args: &[TypeId],
) -> Result<Made, NoMemory>
    requires id { IsId table.old t }
    requires arguments { AreIds table.old args.now }
    requires memo { IsMemo table.old (trees table.old args.now) memo.old }
    ensures made { IfOk result (IsMade table.new
        (subst (trees table.old args.now) (tree table.old t))) }
    ensures memo { IsMemo table.new (trees table.old args.now) memo.new }
    ensures grows { Grows table.old table.new }
{
    if let Some(made) = memo.get(&t) {
        return Ok(*made);
    }
    let made = substituted_anew(alloc, table, memo, t, args)?;
    memo.insert(t, made)?;
    Ok(made)
}

#[cycle(substituted)]
fn substituted_anew(
    alloc: Global,
    table: &mut TypeTable,
    memo: &mut Memo,
    t: TypeId,
    args: &[TypeId],
) -> Result<Made, NoMemory>
    requires id { IsId table.old t }
    requires arguments { AreIds table.old args.now }
    requires memo { IsMemo table.old (trees table.old args.now) memo.old }
    ensures made { IfOk result (IsMade table.new
        (subst (trees table.old args.now) (tree table.old t))) }
    ensures memo { IsMemo table.new (trees table.old args.now) memo.new }
    ensures grows { Grows table.old table.new }
{
    let node = table.node(t).copy(alloc)?;
    if let TypeNode::Param(k) = &node {
        return Ok(replaced(table, t, *k, args));
    }
    let ids = node.ids(alloc)?;
    let parts = all_substituted(alloc, table, memo, ids.as_slice(), args)?;
    let extent = Extent {
        size: parts.extent.size.saturating_add(1),
        depth: parts.extent.depth.saturating_add(1),
    };
    if !extent.is_within() {
        return Ok(Made { extent, id: None });
    }
    rebuilt(alloc, table, &node, extent, parts.ids.as_slice())
}

#[cycle(substituted)]
fn all_substituted(
    alloc: Global,
    table: &mut TypeTable,
    memo: &mut Memo,
    ids: &[TypeId],
    args: &[TypeId],
) -> Result<MadeParts, NoMemory>
    requires ids { AreIds table.old ids.now }
    requires arguments { AreIds table.old args.now }
    requires memo { IsMemo table.old (trees table.old args.now) memo.old }
    ensures made { IfOk result (AreMade table.new
        (substs (trees table.old args.now) (parts table.old ids.now))) }
    ensures memo { IsMemo table.new (trees table.old args.now) memo.new }
    ensures grows { Grows table.old table.new }
{
    let mut size: u64 = 0;
    let mut depth: u32 = 0;
    let mut made = Vec::new(alloc);
    for id in ids {
        let part = substituted(alloc, table, memo, *id, args)?;
        size = size.saturating_add(part.extent.size);
        depth = depth.max(part.extent.depth);
        push_made(&mut made, part.id)?;
    }
    Ok(MadeParts {
        extent: Extent { size, depth },
        ids: made,
    })
}
