// Conversions.
ghost use Rattle.std.specs.Prelude.{◌≡◌, IsSome, IfSome, Ok, is_some, encode_utf8};
ghost use Rattle.ui_base.specs.declared.value.Value.TheVariants as value;
ghost use Rattle.ui_const.specs.Results.{Gives};
ghost use Rattle.ui_const.specs.Conversions.{conversion, character};

use crate::fault::ConstFault;
use crate::kinds::{bounds, is_text, is_truth, is_within};
use crate::text;
use std::alloc::Global;
use ui_base::{Basic, Text, Value};

/// Whether a constant may be converted to a kind: a whole number to a whole kind or to text, a text
/// to text, a truth value to a boolean kind. Go specification, "Conversions".
pub fn can_convert(v: &Value, kind: Basic) -> bool
    ensures { result ≡ is_some (conversion v.now kind) }
{
    match v {
        Value::Whole(_) => is_text(kind) || bounds(kind).is_some(),
        Value::Str(_) => is_text(kind),
        Value::Truth(_) => is_truth(kind),
    }
}

/// The constant as one of the kind. A whole number gives the text of its character, or of U+FFFD
/// where it is none. `NotRepresentable` for a whole number that a whole kind can't hold,
/// `ConstTooBig` for a text past its limit. Go specification, "Conversions".
pub fn convert(alloc: Global, v: &Value, kind: Basic) -> Result<Value, ConstFault>
    requires { IsSome (conversion v.now kind) }
    ensures { IfSome (conversion v.now kind) (λ want. Gives want result) }
{
    match v {
        Value::Whole(z) if is_text(kind) => encoded(alloc, character(*z)),
        Value::Whole(z) if is_within(bounds(kind), *z) => Ok(Value::Whole(*z)),
        Value::Whole(_) => Err(ConstFault::NotRepresentable),
        Value::Str(text) => text::copied(alloc, text.bytes()),
        Value::Truth(b) => Ok(Value::Truth(*b)),
    }
}

// The character of a whole number: U+FFFD where it is none.
fn character(z: i128) -> char
    ensures { result ≡ character z }
{
    match u32::try_from(z) {
        Ok(code) => char::from_u32(code).unwrap_or(char::REPLACEMENT_CHARACTER),
        Err(_) => char::REPLACEMENT_CHARACTER,
    }
}

// The UTF-8 of a character.
fn encoded(alloc: Global, c: char) -> Result<Value, ConstFault>
    ensures { Gives (Ok (value.Str (encode_utf8 c))) result }
{
    let mut text = String::new(alloc);
    text.push(c)?;
    Ok(Value::Str(Text::new(text.into_bytes())))
}
