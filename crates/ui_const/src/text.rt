// Texts: concatenation and comparison.
ghost use Rattle.std.specs.Prelude.{◌≡◌, ◌++◌, IsSome, IfSome};
ghost use Rattle.ui_const.specs.Results.{limited_text, Gives};
ghost use Rattle.ui_const.specs.Operators.{text_operation};

use crate::fault::ConstFault;
use std::alloc::Global;
use ui_base::{BinOp, Text, Value};

/// The most bytes of a constant text.
pub const TEXT_LIMIT: usize = 1_048_576;

// The bytes of a text and then those of another.

pub(crate) fn concatenated(alloc: Global, a: &[u8], b: &[u8]) -> Result<Value, ConstFault>
    ensures { Gives (limited_text (a.now ++ b.now)) result }
{
    if a.len() > TEXT_LIMIT || b.len() > TEXT_LIMIT - a.len() {
        return Err(ConstFault::ConstTooBig);
    }
    let mut bytes = Vec::with_capacity(alloc, a.len() + b.len())?;
    bytes.extend_from_slice(a)?;
    bytes.extend_from_slice(b)?;
    Ok(Value::Str(Text::new(bytes)))
}

// A text of these bytes.
pub(crate) fn copied(alloc: Global, bytes: &[u8]) -> Result<Value, ConstFault>
    ensures { Gives (limited_text bytes.now) result }
{
    if bytes.len() > TEXT_LIMIT {
        return Err(ConstFault::ConstTooBig);
    }
    Ok(Value::Str(Text::from_slice(alloc, bytes)?))
}

// An operator on two texts, which are compared byte by byte.
pub(crate) fn operate(alloc: Global, op: BinOp, a: &[u8], b: &[u8]) -> Result<Value, ConstFault>
    requires { IsSome (text_operation op a.now b.now) }
    ensures { IfSome (text_operation op a.now b.now) (λ want. Gives want result) }
{
    let order = a.cmp(b);
    match op {
        BinOp::Add => concatenated(alloc, a, b),
        BinOp::Equal => Ok(Value::Truth(order.is_eq())),
        BinOp::NotEqual => Ok(Value::Truth(order.is_ne())),
        BinOp::Less => Ok(Value::Truth(order.is_lt())),
        BinOp::LessEqual => Ok(Value::Truth(order.is_le())),
        BinOp::Greater => Ok(Value::Truth(order.is_gt())),
        BinOp::GreaterEqual => Ok(Value::Truth(order.is_ge())),
        _ => unreachable!(),
    }
}
