// Arithmetic on whole numbers. Nothing is computed in more than 128 bits: a result outside them is
// refused.
ghost use Rattle.std.specs.Prelude.{◌≡◌, ◌+ℤ◌, ◌-ℤ◌, ◌*ℤ◌, MatchOption, IsSome, IfSome};
ghost use Rattle.ui_const.specs.Results.{limited_whole};
ghost use Rattle.ui_const.specs.Operators.{whole_operation, quotient, remainder};
ghost use Rattle.ui_base.specs.declared.value.Value.TheVariants as value;

use crate::bits;
use crate::fault::ConstFault;
use ui_base::{BinOp, Value};

// A whole number as a value, or that there is none within the limits.
pub(crate) fn limited(exact: Option<i128>) -> Result<Value, ConstFault>
    ensures { MatchOption exact (result ≡ Err ConstFault.ConstTooBig)
        (λ z. result ≡ Ok (value.Whole z)) }
{
    match exact {
        Some(z) => Ok(Value::Whole(z)),
        None => Err(ConstFault::ConstTooBig),
    }
}

fn sum(a: i128, b: i128) -> Result<Value, ConstFault>
    ensures { result ≡ limited_whole (a +ℤ b) }
{
    limited(a.checked_add(b))
}

fn difference(a: i128, b: i128) -> Result<Value, ConstFault>
    ensures { result ≡ limited_whole (a -ℤ b) }
{
    limited(a.checked_sub(b))
}

fn product(a: i128, b: i128) -> Result<Value, ConstFault>
    ensures { result ≡ limited_whole (a *ℤ b) }
{
    limited(a.checked_mul(b))
}

// The quotient, truncated toward zero.
fn quotient(a: i128, b: i128) -> Result<Value, ConstFault>
    ensures { result ≡ quotient a b }
{
    if b == 0 {
        return Err(ConstFault::DivByZero);
    }
    limited(a.checked_div(b))
}

// What is left of `a`, with its sign.
fn remainder(a: i128, b: i128) -> Result<Value, ConstFault>
    ensures { result ≡ remainder a b }
{
    if b == 0 {
        return Err(ConstFault::DivByZero);
    }
    limited(Some(a.wrapping_rem(b)))
}

// A number that lies within the limits, as any of 128 bits does.
fn exact(z: i128) -> Result<Value, ConstFault>
    ensures { result ≡ limited_whole z }
{
    limited(Some(z))
}

// An operator on two whole numbers.
pub(crate) fn operate(op: BinOp, a: i128, b: i128) -> Result<Value, ConstFault>
    requires { IsSome (whole_operation op a b) }
    ensures { IfSome (whole_operation op a b) (λ want. result ≡ want) }
{
    let order = a.cmp(&b);
    match op {
        BinOp::Add => sum(a, b),
        BinOp::Sub => difference(a, b),
        BinOp::Mul => product(a, b),
        BinOp::Div => quotient(a, b),
        BinOp::Rem => remainder(a, b),
        BinOp::And => exact(bits::and(a, b)),
        BinOp::Or => exact(bits::or(a, b)),
        BinOp::Xor => exact(bits::xor(a, b)),
        BinOp::AndNot => exact(bits::and_not(a, b)),
        BinOp::Equal => Ok(Value::Truth(order.is_eq())),
        BinOp::NotEqual => Ok(Value::Truth(order.is_ne())),
        BinOp::Less => Ok(Value::Truth(order.is_lt())),
        BinOp::LessEqual => Ok(Value::Truth(order.is_le())),
        BinOp::Greater => Ok(Value::Truth(order.is_gt())),
        BinOp::GreaterEqual => Ok(Value::Truth(order.is_ge())),
        BinOp::Shl | BinOp::Shr | BinOp::LogicalAnd | BinOp::LogicalOr => unreachable!(),
    }
}
