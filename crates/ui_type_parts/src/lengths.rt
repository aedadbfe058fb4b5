// Lengths of arrays. Go specification, "Array types".
ghost use Rattle.std.specs.Prelude.{◌≡◌, [], Some};
ghost use Rattle.ui_types.specs.Table.{IsId, tree};
ghost use Rattle.ui_types.specs.Kept.{Kept};
ghost use Rattle.ui_scopes.specs.Operands.{IsOperand, shown_operand};
ghost use Rattle.ui_scopes.specs.Scopes.{world};
ghost use Rattle.ui_scopes.specs.Standing.{Stands};
ghost use Rattle.ui_scopes.specs.Steps.{Refuses, fault_at};
ghost use Rattle.ui_rules.specs.Forms as forms;
ghost use Rattle.ui_face_rules.specs.Types as written;
ghost use Rattle.ui_type_parts.specs.Views as views;

use std::alloc::Global;
use ui_base::{CheckFault, FaultKind, Spot, Text, Value};
use ui_operand::not_taken;
use ui_scopes::{Operand, refusal, under_at};
use ui_types::{Env, TypeId, TypeNode, TypeTable};

fn bad_length(alloc: Global, file: &Text, at: Spot) -> CheckFault
    ensures { Refuses (Some (fault_at file.now at FaultKind.BadLength [])) result }
{
    refusal(alloc, file, at, FaultKind::BadLength, b"")
}

// A length that isn't negative and that an `int` can hold.
fn whole_length(alloc: Global, file: &Text, at: Spot, whole: i128) -> Result<u64, CheckFault>
    ensures { views.GivesLength (written.whole_length file.now at whole) result }
{
    if whole < 0 || whole >= 9_223_372_036_854_775_808 {
        return Err(bad_length(alloc, file, at));
    }
    Ok(whole as u64)
}

fn value_length(alloc: Global, file: &Text, at: Spot, value: &Value) -> Result<u64, CheckFault>
    ensures { views.GivesLength (written.value_length file.now at value.now) result }
{
    match value {
        Value::Whole(whole) => whole_length(alloc, file, at, *whole),
        Value::Str(_) | Value::Truth(_) => Err(bad_length(alloc, file, at)),
    }
}

// The length that a constant is, by its underlying type.
fn length_under(
    alloc: Global,
    table: &TypeTable,
    file: &Text,
    at: Spot,
    ty: TypeId,
    value: &Value,
    under: TypeId,
) -> Result<u64, CheckFault>
    requires ty { IsId table.now ty }
    requires under { IsId table.now under }
    ensures { views.GivesLength (views.constant_length file.now at (forms.constant_with file.now at
        (tree table.now ty) value.now (tree table.now under))) result }
{
    let TypeNode::Basic(_) = table.node(under) else {
        return Err(refusal(alloc, file, at, FaultKind::BadOperand, b""));
    };
    value_length(alloc, file, at, value)
}

// The same of a value, by its type.
fn constant_length<E: Env>(
    alloc: Global,
    env: &mut E,
    table: &mut TypeTable,
    file: &Text,
    at: Spot,
    ty: TypeId,
    value: &Option<Value>,
) -> Result<u64, CheckFault>
    requires env { Stands E.packages E.decls E.fits env.old table.old }
    requires ty { IsId table.old ty }
    ensures answer { views.GivesLength (views.constant_length file.now at (forms.constant_value
        (world (E.packages env.old) (E.decls env.old table.old)) file.now at (tree table.old ty)
        value.now)) result }
    ensures kept { Kept E.packages E.lent E.decls E.fits env.old table.old env.new table.new }
{
    let Some(value) = value else {
        return Err(not_taken(alloc, file, at));
    };
    match under_at(alloc, env, table, file, at, ty) {
        Ok(under) => length_under(alloc, table, file, at, ty, value, under),
        Err(fault) => Err(fault),
    }
}

/// The length of an array that an operand gives: a constant from 0 to 2^63 - 1. Go specification,
/// "Array types".
///
/// # Errors
///
/// `BadOperand`, `BadLength`, `Form` where the operand is none of those taken, or the fault of an
/// underlying type past a limit, all at `at`.
pub fn array_length<E: Env>(
    alloc: Global,
    env: &mut E,
    table: &mut TypeTable,
    file: &Text,
    at: Spot,
    x: &Operand,
) -> Result<u64, CheckFault>
    requires env { Stands E.packages E.decls E.fits env.old table.old }
    requires operand { IsOperand table.old x.now }
    ensures answer { views.GivesLength (views.constant_length file.now at (forms.constant_of (world
        (E.packages env.old) (E.decls env.old table.old)) file.now at (shown_operand table.old
        x.now))) result }
    ensures kept { Kept E.packages E.lent E.decls E.fits env.old table.old env.new table.new }
{
    match x {
        Operand::Val { ty, constant, .. } => {
            constant_length(alloc, env, table, file, at, *ty, constant)
        }
        Operand::Package(_) => Err(refusal(alloc, file, at, FaultKind::BadOperand, b"")),
        _ => Err(not_taken(alloc, file, at)),
    }
}
