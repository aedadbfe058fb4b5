// Binary operators.
ghost use Rattle.std.specs.Prelude.{◌≡◌, IsSome, IfSome, is_some};
ghost use Rattle.ui_base.specs.declared.value.Value.TheVariants as value;
ghost use Rattle.ui_const.specs.Results.{Gives};
ghost use Rattle.ui_const.specs.Operators.{operation, truth_operation};

use crate::fault::ConstFault;
use crate::{text, whole};
use std::alloc::Global;
use ui_base::{BinOp, Value};

/// Whether a binary operator, shifts apart, is allowed on two constants. Go specification,
/// "Operators".
pub fn can_operate(op: BinOp, a: &Value, b: &Value) -> bool
    ensures { result ≡ is_some (operation op a.now b.now) }
{
    match (a, b) {
        (Value::Whole(_), Value::Whole(_)) => !matches!(
            op,
            BinOp::Shl | BinOp::Shr | BinOp::LogicalAnd | BinOp::LogicalOr
        ),
        (Value::Str(_), Value::Str(_)) => matches!(
            op,
            BinOp::Add
                | BinOp::Equal
                | BinOp::NotEqual
                | BinOp::Less
                | BinOp::LessEqual
                | BinOp::Greater
                | BinOp::GreaterEqual
        ),
        (Value::Truth(_), Value::Truth(_)) => matches!(
            op,
            BinOp::Equal | BinOp::NotEqual | BinOp::LogicalAnd | BinOp::LogicalOr
        ),
        _ => false,
    }
}

/// The result of a binary operator on two constants. `DivByZero` for a quotient or remainder by
/// zero, and `ConstTooBig` for a result past the limits. Only a new text takes memory. Go
/// specification, "Constant expressions".
pub fn binary(alloc: Global, op: BinOp, a: &Value, b: &Value) -> Result<Value, ConstFault>
    requires { IsSome (operation op a.now b.now) }
    ensures { IfSome (operation op a.now b.now) (λ want. Gives want result) }
{
    match (a, b) {
        (Value::Whole(a), Value::Whole(b)) => whole::operate(op, *a, *b),
        (Value::Str(a), Value::Str(b)) => text::operate(alloc, op, a.bytes(), b.bytes()),
        (Value::Truth(a), Value::Truth(b)) => Ok(Value::Truth(truth(op, *a, *b))),
        _ => unreachable!(),
    }
}

// An operator on two truth values.
fn truth(op: BinOp, a: bool, b: bool) -> bool
    requires { IsSome (truth_operation op a b) }
    ensures { truth_operation op a b ≡ Some (Ok (value.Truth result)) }
{
    match op {
        BinOp::LogicalAnd => a && b,
        BinOp::LogicalOr => a || b,
        BinOp::Equal => a == b,
        BinOp::NotEqual => a != b,
        _ => unreachable!(),
    }
}
