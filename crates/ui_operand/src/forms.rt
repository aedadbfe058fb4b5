//! The rules of forms, by what their parts are checked to be.
ghost use Rattle.std.specs.Prelude.{◌≡◌, [], Some, Ok};
ghost use Rattle.ui_types.specs.Table.{IsId, Grows, tree};
ghost use Rattle.ui_types.specs.Kept.{Kept};
ghost use Rattle.ui_scopes.specs.Operands.{IsOperand, shown_operand};
ghost use Rattle.ui_scopes.specs.Scopes.{world};
ghost use Rattle.ui_scopes.specs.Standing.{Stands};
ghost use Rattle.ui_scopes.specs.Steps.{GivesOperand, Refuses, fault_at};
ghost use Rattle.ui_operand.specs.Shown.{GivesConstant, shown_constant};
ghost use Rattle.ui_operand.specs.Parts as parts;
ghost use Rattle.ui_rules.specs.Forms as forms_of;
ghost use Rattle.ui_rules.specs.Kinds as kinds;

use crate::constants::{
    Constant, constant_binary, constant_operand, constant_plus, constant_prefix,
};
use crate::names::package_member;
use std::alloc::Global;
use ui_scopes::{Operand, copy_value, make_type, refusal, under_at};
use ui_tree::{LiteralKind, PrefixOp};
use ui_types::{
    Basic, BinOp, CheckFault, Env, FaultKind, Spot, Text, TypeId, TypeNode, TypeTable, UnOp, Value,
};

/// The end of a check at a form that isn't taken yet.
pub fn not_taken(alloc: Global, file: &Text, at: Spot) -> CheckFault
    ensures { Refuses (Some (fault_at file.now at kinds.not_taken [])) result }
{
    refusal(alloc, file, at, FaultKind::Form, b"")
}

// An operand that has to be constant.
fn constant_of<E: Env>(
    alloc: Global,
    env: &mut E,
    table: &mut TypeTable,
    file: &Text,
    at: Spot,
    x: &Operand,
) -> Result<Constant, CheckFault>
    requires env { Stands E.packages E.decls E.fits env.old table.old }
    requires operand { IsOperand table.old x.now }
    ensures answer { GivesConstant table.new (forms_of.constant_of (world (E.packages env.old)
        (E.decls env.old table.old)) file.now at (shown_operand table.old x.now)) result }
    ensures kept { Kept E.packages E.lent E.decls E.fits env.old table.old env.new table.new }
{
    match x {
        Operand::Val { ty, constant, .. } => {
            constant_value(alloc, env, table, file, at, *ty, constant)
        }
        Operand::Package(_) => Err(refusal(alloc, file, at, FaultKind::BadOperand, b"")),
        _ => Err(not_taken(alloc, file, at)),
    }
}

// The same of a value, by its type.
fn constant_value<E: Env>(
    alloc: Global,
    env: &mut E,
    table: &mut TypeTable,
    file: &Text,
    at: Spot,
    ty: TypeId,
    value: &Option<Value>,
) -> Result<Constant, CheckFault>
    requires env { Stands E.packages E.decls E.fits env.old table.old }
    requires ty { IsId table.old ty }
    ensures answer { GivesConstant table.new (forms_of.constant_value (world (E.packages env.old)
        (E.decls env.old table.old)) file.now at (tree table.old ty) value.now) result }
    ensures kept { Kept E.packages E.lent E.decls E.fits env.old table.old env.new table.new }
{
    let Some(value) = value else {
        return Err(not_taken(alloc, file, at));
    };
    match under_at(alloc, env, table, file, at, ty) {
        Ok(under) => constant_with(alloc, table, file, at, ty, value, under),
        Err(fault) => Err(fault),
    }
}

// The same by the underlying type.
fn constant_with(
    alloc: Global,
    table: &TypeTable,
    file: &Text,
    at: Spot,
    ty: TypeId,
    value: &Value,
    under: TypeId,
) -> Result<Constant, CheckFault>
    requires ty { IsId table.now ty }
    requires under { IsId table.now under }
    ensures { GivesConstant table.now (forms_of.constant_with file.now at (tree table.now ty)
        value.now (tree table.now under)) result }
{
    let TypeNode::Basic(kind) = table.node(under) else {
        return Err(refusal(alloc, file, at, FaultKind::BadOperand, b""));
    };
    let value = copy_value(alloc, value)?;
    Ok(Constant {
        ty,
        kind: *kind,
        value,
    })
}

/// A literal. Go specification, "Constants".
pub fn literal_operand(
    alloc: Global,
    table: &mut TypeTable,
    file: &Text,
    at: Spot,
    kind: LiteralKind,
    value: &Value,
) -> Result<Operand, CheckFault>
    ensures answer { GivesOperand table.new (Ok (forms_of.literal_operand kind value.now)) result }
    ensures grows { Grows table.old table.new }
{
    let kind = match kind {
        LiteralKind::Whole => Basic::UntypedInt,
        LiteralKind::Rune => Basic::UntypedRune,
        LiteralKind::Text => Basic::UntypedString,
    };
    let ty = make_type(alloc, table, file, at, TypeNode::Basic(kind))?;
    let value = copy_value(alloc, value)?;
    Ok(constant_operand(alloc, ty, value)?)
}

/// A unary operator. Go specification, "Operators".
pub fn unary_operand<E: Env>(
    alloc: Global,
    env: &mut E,
    table: &mut TypeTable,
    file: &Text,
    at: Spot,
    op: PrefixOp,
    x: &Operand,
) -> Result<Operand, CheckFault>
    requires env { Stands E.packages E.decls E.fits env.old table.old }
    requires operand { IsOperand table.old x.now }
    ensures answer { GivesOperand table.new (forms_of.unary_operand (world (E.packages env.old)
        (E.decls env.old table.old)) file.now at op (shown_operand table.old x.now)) result }
    ensures kept { Kept E.packages E.lent E.decls E.fits env.old table.old env.new table.new }
{
    match op {
        PrefixOp::Plus => plus_operand(alloc, env, table, file, at, x),
        PrefixOp::Minus => prefix_operand(alloc, env, table, file, at, UnOp::Neg, x),
        PrefixOp::Not => prefix_operand(alloc, env, table, file, at, UnOp::Not, x),
        PrefixOp::Flip => prefix_operand(alloc, env, table, file, at, UnOp::Flip, x),
        PrefixOp::Deref => deref_operand(alloc, table, file, at, x),
        PrefixOp::Address => address_operand(alloc, table, file, at, x),
    }
}

// `+x`
fn plus_operand<E: Env>(
    alloc: Global,
    env: &mut E,
    table: &mut TypeTable,
    file: &Text,
    at: Spot,
    x: &Operand,
) -> Result<Operand, CheckFault>
    requires env { Stands E.packages E.decls E.fits env.old table.old }
    requires operand { IsOperand table.old x.now }
    ensures answer { GivesOperand table.new (parts.plus_operand (world (E.packages env.old)
        (E.decls env.old table.old)) file.now at (shown_operand table.old x.now)) result }
    ensures kept { Kept E.packages E.lent E.decls E.fits env.old table.old env.new table.new }
{
    match constant_of(alloc, env, table, file, at, x) {
        Ok(x) => constant_plus(alloc, table, file, at, x),
        Err(fault) => Err(fault),
    }
}

// `-x`, `!x`, `^x`
fn prefix_operand<E: Env>(
    alloc: Global,
    env: &mut E,
    table: &mut TypeTable,
    file: &Text,
    at: Spot,
    op: UnOp,
    x: &Operand,
) -> Result<Operand, CheckFault>
    requires env { Stands E.packages E.decls E.fits env.old table.old }
    requires operand { IsOperand table.old x.now }
    ensures answer { GivesOperand table.new (parts.prefix_operand (world (E.packages env.old)
        (E.decls env.old table.old)) file.now at op (shown_operand table.old x.now)) result }
    ensures kept { Kept E.packages E.lent E.decls E.fits env.old table.old env.new table.new }
{
    match constant_of(alloc, env, table, file, at, x) {
        Ok(x) => constant_prefix(alloc, table, file, at, op, x),
        Err(fault) => Err(fault),
    }
}

// `&x`
fn address_operand(
    alloc: Global,
    table: &TypeTable,
    file: &Text,
    at: Spot,
    x: &Operand,
) -> Result<Operand, CheckFault>
    ensures { GivesOperand table.now (forms_of.address_operand file.now at
        (shown_operand table.now x.now)) result }
{
    let _ = table;
    match x {
        Operand::Val { constant, .. } if constant.is_some() => {
            Err(refusal(alloc, file, at, FaultKind::NotAddressable, b""))
        }
        Operand::Package(_) => Err(refusal(alloc, file, at, FaultKind::BadOperand, b"")),
        _ => Err(not_taken(alloc, file, at)),
    }
}

// `*x`
fn deref_operand(
    alloc: Global,
    table: &TypeTable,
    file: &Text,
    at: Spot,
    x: &Operand,
) -> Result<Operand, CheckFault>
    ensures { GivesOperand table.now (forms_of.deref_operand file.now at
        (shown_operand table.now x.now)) result }
{
    let _ = table;
    match x {
        Operand::Val { constant, .. } if constant.is_some() => {
            Err(refusal(alloc, file, at, FaultKind::BadOperand, b""))
        }
        Operand::Package(_) => Err(refusal(alloc, file, at, FaultKind::BadOperand, b"")),
        _ => Err(not_taken(alloc, file, at)),
    }
}

/// `(x)`. A package is no operand. Go specification, "Operands".
pub fn in_parens(
    alloc: Global,
    table: &TypeTable,
    file: &Text,
    at: Spot,
    x: Operand,
) -> Result<Operand, CheckFault>
    requires { IsOperand table.now x }
    ensures { GivesOperand table.now (forms_of.in_parens file.now at (shown_operand table.now x))
        result }
{
    let _ = table;
    match x {
        Operand::Package(_) => Err(refusal(alloc, file, at, FaultKind::BadOperand, b"")),
        x => Ok(x),
    }
}

/// A binary operator: both operands, and then the operator. Go specification, "Operators".
pub fn binary_operand<E: Env>(
    alloc: Global,
    env: &mut E,
    table: &mut TypeTable,
    file: &Text,
    at: Spot,
    op: BinOp,
    x: &Operand,
    y: &Operand,
) -> Result<Operand, CheckFault>
    requires env { Stands E.packages E.decls E.fits env.old table.old }
    requires first { IsOperand table.old x.now }
    requires second { IsOperand table.old y.now }
    ensures answer { GivesOperand table.new (forms_of.binary_operand (world (E.packages env.old)
        (E.decls env.old table.old)) file.now at op (shown_operand table.old x.now)
        (shown_operand table.old y.now)) result }
    ensures kept { Kept E.packages E.lent E.decls E.fits env.old table.old env.new table.new }
{
    match constant_of(alloc, env, table, file, at, x) {
        Ok(x) => second_operand(alloc, env, table, file, at, op, x, y),
        Err(fault) => Err(fault),
    }
}

// The same behind its first operand.
fn second_operand<E: Env>(
    alloc: Global,
    env: &mut E,
    table: &mut TypeTable,
    file: &Text,
    at: Spot,
    op: BinOp,
    x: Constant,
    y: &Operand,
) -> Result<Operand, CheckFault>
    requires env { Stands E.packages E.decls E.fits env.old table.old }
    requires first { IsId table.old x.ty }
    requires second { IsOperand table.old y.now }
    ensures answer { GivesOperand table.new (parts.second_operand (world (E.packages env.old)
        (E.decls env.old table.old)) file.now at op (shown_constant table.old x)
        (shown_operand table.old y.now)) result }
    ensures kept { Kept E.packages E.lent E.decls E.fits env.old table.old env.new table.new }
{
    match constant_of(alloc, env, table, file, at, y) {
        Ok(y) => constant_binary(alloc, table, file, at, op, x, y),
        Err(fault) => Err(fault),
    }
}

/// `x.f`, which is taken where x is a package. `NotExported` and then `Undefined`. Go
/// specification, "Qualified identifiers".
pub fn selected<E: Env>(
    alloc: Global,
    env: &mut E,
    table: &mut TypeTable,
    file: &Text,
    at: Spot,
    name: &Text,
    x: &Operand,
) -> Result<Operand, CheckFault>
    requires env { Stands E.packages E.decls E.fits env.old table.old }
    ensures answer { GivesOperand table.new (forms_of.selected (world (E.packages env.old)
        (E.decls env.old table.old)) file.now at name.now (shown_operand table.old x.now)) result }
    ensures kept { Kept E.packages E.lent E.decls E.fits env.old table.old env.new table.new }
{
    match x {
        Operand::Package(path) => package_member(alloc, env, table, file, at, path, name),
        _ => Err(not_taken(alloc, file, at)),
    }
}
