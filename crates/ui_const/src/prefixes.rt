// Unary operators.
ghost use Rattle.std.specs.Prelude.{◌≡◌, IsSome, IfSome, IsTrue, neg_ℤ, is_some};
ghost use Rattle.ui_const.specs.Kinds.{is_within};
ghost use Rattle.ui_const.specs.Bits.{whole_xor};
ghost use Rattle.ui_const.specs.Operators.{unary_operation, typed, mask};

use crate::bits;
use crate::fault::ConstFault;
use crate::kinds::{bounds, is_within};
use ui_base::{Basic, UnOp, Value};

/// Whether a unary operator is allowed on a constant of a kind: `-` and `^` on a whole number that
/// the kind holds, `!` on a truth value. Go specification, "Operators".
pub fn can_prefix(op: UnOp, a: &Value, kind: Basic) -> bool
    ensures { result ≡ is_some (unary_operation op a.now kind) }
{
    match (op, a) {
        (UnOp::Neg | UnOp::Flip, Value::Whole(z)) => is_within(bounds(kind), *z),
        (UnOp::Not, Value::Truth(_)) => true,
        _ => false,
    }
}

/// The result of a unary operator on a constant of a kind; `^` on an unsigned kind flips the bits
/// of that kind. `ConstTooBig` past the limits, else `NotRepresentable` where the kind can't hold
/// the result. Takes no memory. Go specification, "Arithmetic operators", "Logical operators".
pub fn unary(op: UnOp, a: &Value, kind: Basic) -> Result<Value, ConstFault>
    requires { IsSome (unary_operation op a.now kind) }
    ensures { unary_operation op a.now kind ≡ Some result }
{
    match (op, a) {
        (UnOp::Neg, Value::Whole(z)) => negated(*z, bounds(kind)),
        (UnOp::Flip, Value::Whole(z)) => flipped(*z, bounds(kind)),
        (UnOp::Not, Value::Truth(b)) => Ok(Value::Truth(!*b)),
        _ => unreachable!(),
    }
}

// The number with its sign turned.
fn negated(z: i128, range: Option<(i128, i128)>) -> Result<Value, ConstFault>
    ensures { result ≡ typed range (neg_ℤ z) }
{
    match z.checked_neg() {
        Some(z) => in_range(z, range),
        None => Err(ConstFault::ConstTooBig),
    }
}

// The number with its bits flipped: all bits of an unsigned kind, and all bits without end of
// another.
fn flipped(z: i128, range: Option<(i128, i128)>) -> Result<Value, ConstFault>
    ensures { result ≡ typed range (whole_xor (mask range) z) }
{
    let mask = match range {
        Some((low, high)) if low >= 0 => high,
        _ => -1,
    };
    in_range(bits::xor(mask, z), range)
}

// A number that a kind of these bounds is to hold.
fn in_range(z: i128, range: Option<(i128, i128)>) -> Result<Value, ConstFault>
    ensures { result ≡ typed range z }
{
    if is_within(range, z) {
        Ok(Value::Whole(z))
    } else {
        Err(ConstFault::NotRepresentable)
    }
}
