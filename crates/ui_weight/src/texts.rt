//! The texts of types.
ghost use Rattle.std.specs.Prelude.{◌≡◌, ◌+◌, IfOk, OnOk};
ghost use Rattle.ui_types.specs.Table.{IsId, AreIds, tree};
ghost use Rattle.ui_weight.specs.Weight.{texts, type_weight, counted};
ghost use Rattle.ui_weight.specs.Parts.{texts_by, IsMemo};

use crate::bytes::own_bytes;
use indexmap::IndexMap;
use std::alloc::Global;
use ui_types::{NoMemory, TypeId, TypeTable};

/// How many bytes the names in each type have that was counted.
pub(crate) type Memo = IndexMap<TypeId, u64>;

// How many bytes the names in a type have.
#[cycle(texts)]
fn texts_in(alloc: Global, table: &TypeTable, memo: &mut Memo, t: TypeId) -> Result<u64, NoMemory>
    requires id { IsId table.now t }
    requires memo { IsMemo table.now memo.old }
    ensures count { IfOk result (λ n. n ≡ counted (texts (tree table.now t))) }
    ensures memo { OnOk result (IsMemo table.now memo.new) }
{
    if let Some(count) = memo.get(&t) {
        return Ok(*count);
    }
    let count = counted_anew(alloc, table, memo, t)?;
    memo.insert(t, count)?;
    Ok(count)
}

// The same of a type that wasn't counted.
#[cycle(texts)]
fn counted_anew(
    alloc: Global,
    table: &TypeTable,
    memo: &mut Memo,
    t: TypeId,
) -> Result<u64, NoMemory>
    requires id { IsId table.now t }
    requires memo { IsMemo table.now memo.old }
    ensures count { IfOk result (λ n. n ≡ counted (texts (tree table.now t))) }
    ensures memo { OnOk result (IsMemo table.now memo.new) }
{
    let node = table.node(t);
    let own = own_bytes(node);
    let ids = node.ids(alloc)?;
    let parts = texts_of_all(alloc, table, memo, ids.as_slice())?;
    Ok(own.saturating_add(parts))
}

// How many bytes the names in these types have.
#[cycle(texts)]
fn texts_of_all(
    alloc: Global,
    table: &TypeTable,
    memo: &mut Memo,
    ids: &[TypeId],
) -> Result<u64, NoMemory>
    requires ids { AreIds table.now ids.now }
    requires memo { IsMemo table.now memo.old }
    ensures count { IfOk result (λ n. n ≡ counted (texts_by table.now ids.now)) }
    ensures memo { OnOk result (IsMemo table.now memo.new) }
{
    let mut count = 0u64;
    for id in ids {
        count = count.saturating_add(texts_in(alloc, table, memo, *id)?);
    }
    Ok(count)
}

/// The nodes of a type, and the bytes of its names.
pub(crate) fn type_weight(
    alloc: Global,
    table: &TypeTable,
    memo: &mut Memo,
    t: TypeId,
) -> Result<u64, NoMemory>
    requires id { IsId table.now t }
    requires memo { IsMemo table.now memo.old }
    ensures count { IfOk result (λ n. n ≡ counted (type_weight (tree table.now t))) }
    ensures memo { OnOk result (IsMemo table.now memo.new) }
{
    let texts = texts_in(alloc, table, memo, t)?;
    Ok(texts.saturating_add(table.size(t) as u64))
}
