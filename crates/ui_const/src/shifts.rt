// Shifts.
ghost use Rattle.std.specs.Prelude.{◌≡◌, ◌^◌, ◌*ℤ◌, ◌<◌, pos, IsSome, IfSome, is_some};
ghost use Rattle.std.specs.Int.{int_shr};
ghost use Rattle.ui_const.specs.Results.{limited};
ghost use Rattle.ui_const.specs.Operators.{shift_operation, shifted_left, shifted_right};

use crate::fault::ConstFault;
use ui_base::BinOp;

/// Whether an operator is a shift. Go specification, "Operators".
pub fn is_shift(op: BinOp) -> bool
    ensures { result ≡ is_some (shift_operation op) }
{
    matches!(op, BinOp::Shl | BinOp::Shr)
}

/// The result of a shift of `a` by a count: `a` times 2^count, or `a` divided by 2^count and
/// rounded down. `BadShift` for a negative count, `ConstTooBig` for a result past the limits. Takes
/// no memory. Go specification, "Arithmetic operators".
pub fn shift(op: BinOp, a: i128, count: i128) -> Result<i128, ConstFault>
    requires { IsSome (shift_operation op) }
    ensures { IfSome (shift_operation op) (λ shifted. result ≡ shifted a count) }
{
    match op {
        BinOp::Shl => shift_left(a, count),
        BinOp::Shr => shift_right(a, count),
        _ => unreachable!(),
    }
}

// `a` times 2^count.
fn shift_left(a: i128, count: i128) -> Result<i128, ConstFault>
    ensures { result ≡ shifted_left a count }
{
    if count < 0 {
        return Err(ConstFault::BadShift);
    }
    moved_left(a, count as u128)
}

// `a` divided by 2^count and rounded down.
fn shift_right(a: i128, count: i128) -> Result<i128, ConstFault>
    ensures { result ≡ shifted_right a count }
{
    if count < 0 {
        return Err(ConstFault::BadShift);
    }
    Ok(moved_right(a, count as u128))
}

// How far a shift goes that moves out every bit but the sign, as each longer one does.
const WHOLE_WIDTH: u128 = 127;

// `a` times 2^count, within the limits.
fn moved_left(a: i128, count: u128) -> Result<i128, ConstFault>
    ensures { result ≡ limited (a *ℤ pos (2 ^ count)) }
{
    if a == 0 {
        return Ok(0);
    }
    if count >= WHOLE_WIDTH {
        // Of all others -1 alone can be moved so far, and no farther.
        if a == -1 && count == WHOLE_WIDTH {
            return Ok(i128::MIN);
        }
        return Err(ConstFault::ConstTooBig);
    }
    a.checked_mul(power(count)).ok_or(ConstFault::ConstTooBig)
}

// 2^count.
fn power(count: u128) -> i128
    requires { count < 127 }
    ensures { result ≡ pos (2 ^ count) }
{
    1 << count
}

// `a` divided by 2^count and rounded down.
fn moved_right(a: i128, count: u128) -> i128
    ensures { result ≡ int_shr a count }
{
    a >> count.min(WHOLE_WIDTH)
}
