ghost use Rattle.std.specs.Prelude.{◌≡◌, ◌++◌, ◌&&◌, IfOk, OnOk, All, length};
ghost use Rattle.ui_types.specs.Table.{IsId, AreIds, parts, tree};
ghost use Rattle.ui_infer.specs.Pairs as definitions;
ghost use Rattle.ui_infer.specs.Pairs.{are_alike, bindings_of, pairs_all};
ghost use Rattle.ui_infer.specs.Shown.{AreBindings, shown_bindings};

use crate::binding::Binding;
use crate::shape::is_same_shape;
use std::alloc::Global;
use ui_types::{NoMemory, TypeId, TypeNode, TypeTable};

/// The number of the type parameter that the type is, where it is one of the `count` to be
/// inferred.
pub fn unknown(table: &TypeTable, count: usize, t: TypeId) -> Option<u32>
    requires { IsId table.now t }
    ensures { result ≡ definitions.unknown count (tree table.now t) }
{
    match table.node(t) {
        TypeNode::Param(k) if (*k as usize) < count => Some(*k),
        _ => None,
    }
}

fn both(first: bool, second: bool) -> bool
    ensures { result ≡ (first && second) }
{
    first && second
}

/// Puts the bindings of the `count` type parameters of a formal type beside an actual type after
/// these, and tells whether the two have the same shape on each path.
#[cycle(paired)]
pub fn paired(
    alloc: Global,
    table: &TypeTable,
    count: usize,
    formal: TypeId,
    actual: TypeId,
    bindings: &mut Vec<Binding>,
) -> Result<bool, NoMemory>
    requires formal { IsId table.now formal }
    requires actual { IsId table.now actual }
    requires bindings { AreBindings table.now bindings.old.items }
    ensures alike { IfOk result (λ alike. alike
        ≡ are_alike (definitions.pairs count (tree table.now formal) (tree table.now actual))) }
    ensures bindings { OnOk result (shown_bindings table.now bindings.new.items
        ≡ shown_bindings table.now bindings.old.items
        ++ bindings_of (definitions.pairs count (tree table.now formal) (tree table.now actual))) }
    ensures valid { AreBindings table.now bindings.new.items }
{
    if let Some(param) = unknown(table, count, formal) {
        bindings.push(Binding { param, ty: actual })?;
        return Ok(true);
    }
    if !is_same_shape(alloc, table, formal, actual)? {
        return Ok(false);
    }
    let formals = table.node(formal).ids(alloc)?;
    let actuals = table.node(actual).ids(alloc)?;
    all_paired(
        alloc,
        table,
        count,
        formals.as_slice(),
        actuals.as_slice(),
        bindings,
    )
}

#[cycle(paired)]
fn all_paired(
    alloc: Global,
    table: &TypeTable,
    count: usize,
    formals: &[TypeId],
    actuals: &[TypeId],
    bindings: &mut Vec<Binding>,
) -> Result<bool, NoMemory>
    requires formals { AreIds table.now formals.now }
    requires actuals { AreIds table.now actuals.now }
    requires same { length formals.now ≡ length actuals.now }
    requires bindings { AreBindings table.now bindings.old.items }
    ensures alike { IfOk result (λ alike. alike
        ≡ are_alike (pairs_all count (parts table.now formals.now) (parts table.now actuals.now))) }
    ensures bindings { OnOk result (shown_bindings table.now bindings.new.items
        ≡ shown_bindings table.now bindings.old.items
        ++ bindings_of (pairs_all count (parts table.now formals.now)
        (parts table.now actuals.now))) }
    ensures valid { AreBindings table.now bindings.new.items }
{
    let mut alike = true;
    for (k, formal) in formals.iter().enumerate() {
        let same = paired(alloc, table, count, *formal, actuals[k], bindings)?;
        alike = both(alike, same);
    }
    Ok(alike)
}
