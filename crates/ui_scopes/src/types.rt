//! The types that a rule needs.
ghost use Rattle.std.specs.Prelude.{◌≡◌};
ghost use Rattle.ui_types.specs.Table.{IsId, IsNode, Grows, shown, tree};
ghost use Rattle.ui_types.specs.Kept.{Kept};
ghost use Rattle.ui_scopes.specs.Scopes.{world};
ghost use Rattle.ui_scopes.specs.Standing.{Stands};
ghost use Rattle.ui_scopes.specs.Steps as steps;
ghost use Rattle.ui_scopes.specs.Steps.{Gives, made_at};

use crate::faults::type_refusal;
use std::alloc::Global;
use ui_types::{CheckFault, Env, Spot, Text, TypeId, TypeNode, TypeTable, underlying};

/// The type of a node, or the fault of a form whose rule needs it and that passes a limit.
#[tactic(auto, unfolding(crate::specs::Steps::made_at))]
pub fn make_type(
    alloc: Global,
    table: &mut TypeTable,
    file: &Text,
    at: Spot,
    node: TypeNode,
) -> Result<TypeId, CheckFault>
    requires { IsNode table.old node }
    ensures answer { Gives (IsId table.new) (tree table.new)
        (made_at file.now at (shown table.old node)) result }
    ensures grows { Grows table.old table.new }
{
    match table.intern(alloc, node) {
        Ok(t) => Ok(t),
        Err(fault) => Err(type_refusal(alloc, file, at, fault)),
    }
}

/// The underlying type, or the fault of a form whose rule needs it and that passes a limit.
#[tactic(auto, unfolding(crate::specs::Steps::under_at, crate::specs::Steps::made_at))]
pub fn under_at<E: Env>(
    alloc: Global,
    env: &mut E,
    table: &mut TypeTable,
    file: &Text,
    at: Spot,
    t: TypeId,
) -> Result<TypeId, CheckFault>
    requires env { Stands E.packages E.decls E.fits env.old table.old }
    requires id { IsId table.old t }
    ensures answer { Gives (IsId table.new) (tree table.new)
        (steps.under_at (world (E.packages env.old) (E.decls env.old table.old)) file.now at
        (tree table.old t)) result }
    ensures kept { Kept E.packages E.lent E.decls E.fits env.old table.old env.new table.new }
{
    match underlying(alloc, env, table, t) {
        Ok(under) => Ok(under),
        Err(fault) => Err(type_refusal(alloc, file, at, fault)),
    }
}
