// Types of values.
ghost use Rattle.std.specs.Prelude.{◌≡◌};
ghost use Rattle.ui_types.specs.Table.{IsId, tree};
ghost use Rattle.ui_types.specs.Kept.{Kept};
ghost use Rattle.ui_scopes.specs.Scopes.{world};
ghost use Rattle.ui_scopes.specs.Standing.{Stands};
ghost use Rattle.ui_face_rules.specs.Types as written;
ghost use Rattle.ui_type_parts.specs.Views.{GivesType};

use std::alloc::Global;
use ui_base::{CheckFault, FaultKind, Spot, Text};
use ui_scopes::{refusal, under_at};
use ui_types::{Env, TypeId, TypeNode, TypeTable};

// Whether it is an interface that constrains types alone.
fn is_constraint(table: &TypeTable, under: TypeId) -> bool
    requires { IsId table.now under }
    ensures { result ≡ written.is_constraint (tree table.now under) }
{
    let TypeNode::Iface {
        comparable,
        unions,
        ..
    } = table.node(under)
    else {
        return false;
    };
    match unions.items() {
        [] => *comparable,
        [_, ..] => true,
    }
}

// The type, by its underlying type.
fn unconstrained(
    alloc: Global,
    table: &TypeTable,
    file: &Text,
    at: Spot,
    ty: TypeId,
    under: TypeId,
) -> Result<TypeId, CheckFault>
    requires ty { IsId table.now ty }
    requires under { IsId table.now under }
    ensures { GivesType table.now (written.unconstrained file.now at (tree table.now ty) (tree
        table.now under)) result }
{
    if is_constraint(table, under) {
        return Err(refusal(alloc, file, at, FaultKind::ConstraintUse, b""));
    }
    Ok(ty)
}

/// The type, where values can have it. Go specification, "General interfaces".
///
/// # Errors
///
/// `ConstraintUse`, or the fault of an underlying type past a limit, both at `at`.
pub fn value_type<E: Env>(
    alloc: Global,
    env: &mut E,
    table: &mut TypeTable,
    file: &Text,
    at: Spot,
    ty: TypeId,
) -> Result<TypeId, CheckFault>
    requires env { Stands E.packages E.decls E.fits env.old table.old }
    requires ty { IsId table.old ty }
    ensures answer { GivesType table.new (written.of_values (world (E.packages env.old) (E.decls
        env.old table.old)) file.now at (tree table.old ty)) result }
    ensures kept { Kept E.packages E.lent E.decls E.fits env.old table.old env.new table.new }
{
    match under_at(alloc, env, table, file, at, ty) {
        Ok(under) => unconstrained(alloc, table, file, at, ty, under),
        Err(fault) => Err(fault),
    }
}
