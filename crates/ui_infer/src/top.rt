ghost use Rattle.std.specs.Prelude.{◌≡◌};
ghost use Rattle.ui_types.specs.Table.{IsId, tree};
ghost use Rattle.ui_types.specs.Kept.{Kept};
ghost use Rattle.ui_infer.specs.Faults.{Gives, need};
ghost use Rattle.ui_infer.specs.Top as tops;

use crate::fault::InferFault;
use std::alloc::Global;
use ui_types::{Env, TypeFault, TypeId, TypeNode, TypeTable, underlying};

// The underlying type, which inference uses.
#[tactic(auto, using(ui_types::specs::Trees::growth), unfolding(crate::specs::Faults::need, crate::specs::Faults::within))]
fn needed<E: Env>(
    alloc: Global,
    env: &mut E,
    table: &mut TypeTable,
    t: TypeId,
) -> Result<TypeId, InferFault>
    requires env { E.fits env.old table.old }
    requires id { IsId table.old t }
    ensures answer { Gives table.new (IsId table.new) (tree table.new)
        (need (E.decls env.old table.old) (tree table.old t)) result }
    ensures kept { Kept E.packages E.lent E.decls E.fits env.old table.old env.new table.new }
{
    match underlying(alloc, env, table, t) {
        Ok(under) => Ok(under),
        Err(TypeFault::TooBig { size: _ }) => Err(InferFault::TooBig),
        Err(TypeFault::TooDeep { depth: _ }) => Err(InferFault::TooDeep),
        Err(TypeFault::NoMemory) => Err(InferFault::NoMemory),
    }
}

// Whether it is a declared type.
fn is_named(table: &TypeTable, t: TypeId) -> bool
    requires { IsId table.now t }
    ensures { result ≡ tops.is_named (tree table.now t) }
{
    matches!(table.node(t), TypeNode::Named { .. })
}

// Whether it is a type literal: composed of other types, and no name.
fn is_literal(table: &TypeTable, t: TypeId) -> bool
    requires { IsId table.now t }
    ensures { result ≡ tops.is_literal (tree table.now t) }
{
    match table.node(t) {
        TypeNode::Basic(_) | TypeNode::Named { .. } | TypeNode::Param(_) => false,
        _ => true,
    }
}

/// The two types as they are held beside each other: a declared type beside a type literal counts
/// as its underlying type.
pub fn topped<E: Env>(
    alloc: Global,
    env: &mut E,
    table: &mut TypeTable,
    formal: TypeId,
    actual: TypeId,
) -> Result<(TypeId, TypeId), InferFault>
    requires env { E.fits env.old table.old }
    requires formal { IsId table.old formal }
    requires actual { IsId table.old actual }
    ensures answer { Gives table.new (λ p. IsId table.new p.0 × IsId table.new p.1)
        (λ p. (tree table.new p.0, tree table.new p.1))
        (tops.topped (E.decls env.old table.old) (tree table.old formal) (tree table.old actual))
        result }
    ensures kept { Kept E.packages E.lent E.decls E.fits env.old table.old env.new table.new }
{
    if is_named(table, formal) && is_literal(table, actual) {
        return match needed(alloc, env, table, formal) {
            Ok(under) => Ok((under, actual)),
            Err(fault) => Err(fault),
        };
    }
    if is_literal(table, formal) && is_named(table, actual) {
        return match needed(alloc, env, table, actual) {
            Ok(under) => Ok((formal, under)),
            Err(fault) => Err(fault),
        };
    }
    Ok((formal, actual))
}
