// What a basic kind can hold.
ghost use Rattle.std.specs.Prelude.{◌≡◌};
ghost use Rattle.ui_const.specs.Kinds as kinds;

use crate::fault::ConstFault;
use ui_base::{Basic, Value};

/// Tests that a kind can hold a value: `NotRepresentable` where it can't. Go specification,
/// "Representability".
pub fn represent(v: &Value, kind: Basic) -> Result<(), ConstFault>
    ensures { result ≡ kinds.represented v.now kind }
{
    if holds(kind, v) {
        Ok(())
    } else {
        Err(ConstFault::NotRepresentable)
    }
}

// Whether a kind can hold a value.
pub(crate) fn holds(kind: Basic, v: &Value) -> bool
    ensures { result ≡ kinds.holds kind v.now }
{
    match v {
        Value::Whole(z) => is_within(bounds(kind), *z),
        Value::Str(_) => is_text(kind),
        Value::Truth(_) => is_truth(kind),
    }
}

// Whether a whole number lies within bounds.
pub(crate) fn is_within(range: Option<(i128, i128)>, z: i128) -> bool
    ensures { result ≡ kinds.is_within range z }
{
    match range {
        Some((low, high)) => low <= z && z <= high,
        None => false,
    }
}

// The least and the greatest whole number of a whole kind.
pub(crate) fn bounds(kind: Basic) -> Option<(i128, i128)>
    ensures { result ≡ kinds.bounds kind }
{
    match kind {
        Basic::Int8 => Some((i128::from(i8::MIN), i128::from(i8::MAX))),
        Basic::Int16 => Some((i128::from(i16::MIN), i128::from(i16::MAX))),
        Basic::Int32 => Some((i128::from(i32::MIN), i128::from(i32::MAX))),
        Basic::Int | Basic::Int64 => Some((i128::from(i64::MIN), i128::from(i64::MAX))),
        Basic::Uint8 => Some((0, i128::from(u8::MAX))),
        Basic::Uint16 => Some((0, i128::from(u16::MAX))),
        Basic::Uint32 => Some((0, i128::from(u32::MAX))),
        Basic::Uint | Basic::Uint64 => Some((0, i128::from(u64::MAX))),
        Basic::UntypedInt | Basic::UntypedRune => Some((i128::MIN, i128::MAX)),
        Basic::Bool
        | Basic::String
        | Basic::UntypedBool
        | Basic::UntypedString
        | Basic::UntypedNil => None,
    }
}

// Whether a kind holds texts.
pub(crate) fn is_text(kind: Basic) -> bool
    ensures { result ≡ kinds.is_text kind }
{
    matches!(kind, Basic::String | Basic::UntypedString)
}

// Whether a kind holds truth values.
pub(crate) fn is_truth(kind: Basic) -> bool
    ensures { result ≡ kinds.is_truth kind }
{
    matches!(kind, Basic::Bool | Basic::UntypedBool)
}
