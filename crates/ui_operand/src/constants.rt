//! Constant operands.
ghost use Rattle.std.specs.Prelude.{◌≡◌, false, Some, IfOk};
ghost use Rattle.ui_types.specs.Table.{IsId, Grows, tree, Denotes, Makes};
ghost use Rattle.ui_types.specs.Ty.{basic};
ghost use Rattle.ui_const.specs.Operators.{operation, unary_operation};
ghost use Rattle.ui_core.specs.Checked as checked;
ghost use Rattle.ui_scopes.specs.Operands as operands;
ghost use Rattle.ui_scopes.specs.Operands.{seen};
ghost use Rattle.ui_scopes.specs.Steps.{Checks, Gives, GivesOperand, Refuses, fault_of};
ghost use Rattle.ui_rules.specs.Constants as constants;
ghost use Rattle.ui_rules.specs.Kinds.{later};
ghost use Rattle.ui_operand.specs.Shown.{shown_constant, GivesConstant, GivesPair, GivesValue};

use crate::kinds::{const_kind, holds, is_comparison, is_equality, is_untyped, later, suits};
use std::alloc::Global;
use ui_const::{ConstFault, binary, can_operate, can_prefix, is_shift, shift, unary};
use ui_core::Expr;
use ui_scopes::{Operand, copy_value, make_type, refusal};
use ui_types::{
    Basic, BinOp, CheckFault, FaultKind, NoMemory, Spot, Text, TypeId, TypeNode, TypeTable, UnOp,
    Value, is_identical,
};

/// A constant of a type, whose underlying type is of the kind.
#[derive(Drop)]
pub struct Constant {
    pub ty: TypeId,
    pub kind: Basic,
    pub value: Value,
}

/// The operand of a constant, which is one node.
pub(crate) fn constant_operand(alloc: Global, ty: TypeId, value: Value) -> Result<Operand, NoMemory>
    ensures { IfOk result (λ o. seen o ≡ operands.value (checked.constant ty value) ty
        (Some value) false) }
{
    let copy = copy_value(alloc, &value)?;
    Ok(Operand::Val {
        expr: Expr::constant(ty, copy),
        ty,
        constant: Some(value),
        addressable: false,
    })
}

// A constant that its kind holds.
fn held(
    alloc: Global,
    table: &TypeTable,
    file: &Text,
    at: Spot,
    x: Constant,
) -> Result<Operand, CheckFault>
    requires { IsId table.now x.ty }
    ensures { GivesOperand table.now (constants.held file.now at (shown_constant table.now x))
        result }
{
    let _ = table;
    if !holds(x.kind, &x.value) {
        return Err(refusal(alloc, file, at, FaultKind::NotRepresentable, b""));
    }
    Ok(constant_operand(alloc, x.ty, x.value)?)
}

// An untyped constant as one of the type of a typed one.
fn converted(
    alloc: Global,
    table: &TypeTable,
    file: &Text,
    at: Spot,
    x: Constant,
    y: &Constant,
) -> Result<Constant, CheckFault>
    requires { IsId table.now y.now.ty }
    ensures { GivesConstant table.now (constants.converted file.now at
        (shown_constant table.now x) (shown_constant table.now y.now)) result }
{
    let _ = table;
    if holds(y.kind, &x.value) {
        return Ok(Constant {
            ty: y.ty,
            kind: y.kind,
            value: x.value,
        });
    }
    if suits(y.kind, &x.value) {
        return Err(refusal(alloc, file, at, FaultKind::NotRepresentable, b""));
    }
    Err(refusal(alloc, file, at, FaultKind::MismatchedTypes, b""))
}

// Two untyped constants in one type.
fn mixed(
    alloc: Global,
    table: &mut TypeTable,
    file: &Text,
    at: Spot,
    x: Constant,
    y: Constant,
) -> Result<(Constant, Constant), CheckFault>
    ensures answer { GivesPair table.new (constants.mixed file.now at x.value y.value
        (later x.kind y.kind)) result }
    ensures grows { Grows table.old table.new }
{
    let Some(kind) = later(x.kind, y.kind) else {
        return Err(refusal(alloc, file, at, FaultKind::MismatchedTypes, b""));
    };
    let ty = make_type(alloc, table, file, at, TypeNode::Basic(kind))?;
    let x = Constant {
        ty,
        kind,
        value: x.value,
    };
    let y = Constant {
        ty,
        kind,
        value: y.value,
    };
    Ok((x, y))
}

// Two operands in one type.
fn paired(
    alloc: Global,
    table: &mut TypeTable,
    file: &Text,
    at: Spot,
    x: Constant,
    y: Constant,
) -> Result<(Constant, Constant), CheckFault>
    requires first { IsId table.old x.ty }
    requires second { IsId table.old y.ty }
    ensures answer { GivesPair table.new (constants.paired file.now at
        (shown_constant table.old x) (shown_constant table.old y)) result }
    ensures grows { Grows table.old table.new }
{
    match (is_untyped(x.kind), is_untyped(y.kind)) {
        (true, true) => mixed(alloc, table, file, at, x, y),
        (true, false) => {
            let x = converted(alloc, table, file, at, x, &y)?;
            Ok((x, y))
        }
        (false, true) => {
            let y = converted(alloc, table, file, at, y, &x)?;
            Ok((x, y))
        }
        (false, false) => {
            if is_identical(table, x.ty, y.ty) {
                return Ok((x, y));
            }
            Err(refusal(alloc, file, at, FaultKind::MismatchedTypes, b""))
        }
    }
}

// Two operands of an operator.
fn matched(
    alloc: Global,
    table: &mut TypeTable,
    file: &Text,
    at: Spot,
    op: BinOp,
    x: Constant,
    y: Constant,
) -> Result<(Constant, Constant), CheckFault>
    requires first { IsId table.old x.ty }
    requires second { IsId table.old y.ty }
    ensures answer { GivesPair table.new (constants.matched file.now at op
        (shown_constant table.old x) (shown_constant table.old y)) result }
    ensures grows { Grows table.old table.new }
{
    let pair = paired(alloc, table, file, at, x, y);
    if is_equality(op) {
        return assignable(alloc, table, file, at, pair);
    }
    pair
}

// The end of a comparison whose operands have no type in common.
#[tactic(auto, using(crate::proofs::PairLemmas::pairing))]
fn incomparable(alloc: Global, file: &Text, at: Spot, fault: CheckFault) -> CheckFault
    ensures { (want : Checks (constants.Constant × constants.Constant)) → Refuses
        (fault_of want) fault → Refuses (fault_of (constants.assignable file.now at want))
        result }
{
    match fault {
        CheckFault::NoMemory => CheckFault::NoMemory,
        CheckFault::Fault(_) => refusal(alloc, file, at, FaultKind::NotComparable, b""),
    }
}

// Two operands of which one is assignable to the type of the other.
#[tactic(auto, using(crate::proofs::PairLemmas::pairing))]
fn assignable(
    alloc: Global,
    table: &TypeTable,
    file: &Text,
    at: Spot,
    pair: Result<(Constant, Constant), CheckFault>,
) -> Result<(Constant, Constant), CheckFault>
    ensures { (want : Checks (constants.Constant × constants.Constant)) →
        GivesPair table.now want pair → GivesPair table.now
        (constants.assignable file.now at want) result }
{
    let _ = table;
    match pair {
        Ok(pair) => Ok(pair),
        Err(fault) => Err(incomparable(alloc, file, at, fault)),
    }
}

// The value of a binary operator on two constants.
fn computed_binary(
    alloc: Global,
    file: &Text,
    at: Spot,
    op: BinOp,
    x: &Value,
    y: &Value,
) -> Result<Value, CheckFault>
    ensures { GivesValue (constants.computed file.now at (operation op x.now y.now)) result }
{
    if !can_operate(op, x, y) {
        return Err(refusal(alloc, file, at, FaultKind::BadOperand, b""));
    }
    match binary(alloc, op, x, y) {
        Ok(value) => Ok(value),
        Err(ConstFault::NoMemory) => Err(CheckFault::NoMemory),
        Err(fault) => Err(refusal(alloc, file, at, const_kind(fault), b"")),
    }
}

// The value of a shift.
fn computed_shift(
    alloc: Global,
    file: &Text,
    at: Spot,
    op: BinOp,
    x: &Value,
    y: &Value,
) -> Result<Value, CheckFault>
    ensures { GivesValue (constants.computed file.now at (constants.shift_answer op x.now y.now))
        result }
{
    if let (Value::Whole(a), Value::Whole(n)) = (x, y) {
        if is_shift(op) {
            return match shift(op, *a, *n) {
                Ok(value) => Ok(Value::Whole(value)),
                Err(fault) => Err(refusal(alloc, file, at, const_kind(fault), b"")),
            };
        }
    }
    Err(refusal(alloc, file, at, FaultKind::BadOperand, b""))
}

// The operand of an operator's result.
fn operated(
    alloc: Global,
    table: &mut TypeTable,
    file: &Text,
    at: Spot,
    op: BinOp,
    x: Constant,
) -> Result<Operand, CheckFault>
    requires { IsId table.old x.ty }
    ensures answer { GivesOperand table.new (constants.operated file.now at op
        (shown_constant table.old x) x.value) result }
    ensures grows { Grows table.old table.new }
{
    if is_comparison(op) {
        let ty = make_type(alloc, table, file, at, TypeNode::Basic(Basic::UntypedBool))?;
        return Ok(constant_operand(alloc, ty, x.value)?);
    }
    held(alloc, table, file, at, x)
}

/// A binary operator on two constants.
pub(crate) fn constant_binary(
    alloc: Global,
    table: &mut TypeTable,
    file: &Text,
    at: Spot,
    op: BinOp,
    x: Constant,
    y: Constant,
) -> Result<Operand, CheckFault>
    requires first { IsId table.old x.ty }
    requires second { IsId table.old y.ty }
    ensures answer { GivesOperand table.new (constants.constant_binary file.now at op
        (shown_constant table.old x) (shown_constant table.old y)) result }
    ensures grows { Grows table.old table.new }
{
    if is_shift(op) {
        let value = computed_shift(alloc, file, at, op, &x.value, &y.value)?;
        return held(alloc, table, file, at, Constant { value, ..x });
    }
    let (x, y) = matched(alloc, table, file, at, op, x, y)?;
    let value = computed_binary(alloc, file, at, op, &x.value, &y.value)?;
    operated(alloc, table, file, at, op, Constant { value, ..x })
}

/// A unary operator on a constant.
pub(crate) fn constant_prefix(
    alloc: Global,
    table: &TypeTable,
    file: &Text,
    at: Spot,
    op: UnOp,
    x: Constant,
) -> Result<Operand, CheckFault>
    requires { IsId table.now x.ty }
    ensures { GivesOperand table.now (constants.constant_prefix file.now at op
        (shown_constant table.now x)) result }
{
    let _ = table;
    if !can_prefix(op, &x.value, x.kind) {
        return Err(refusal(alloc, file, at, FaultKind::BadOperand, b""));
    }
    match unary(op, &x.value, x.kind) {
        Ok(value) => Ok(constant_operand(alloc, x.ty, value)?),
        Err(fault) => Err(refusal(alloc, file, at, const_kind(fault), b"")),
    }
}

/// `+x`, which is x.
pub(crate) fn constant_plus(
    alloc: Global,
    table: &TypeTable,
    file: &Text,
    at: Spot,
    x: Constant,
) -> Result<Operand, CheckFault>
    requires { IsId table.now x.ty }
    ensures { GivesOperand table.now (constants.constant_plus file.now at
        (shown_constant table.now x)) result }
{
    let _ = table;
    match x.value {
        Value::Whole(_) => Ok(constant_operand(alloc, x.ty, x.value)?),
        _ => Err(refusal(alloc, file, at, FaultKind::BadOperand, b"")),
    }
}
