//! The pieces of printed texts.
ghost use Rattle.std.specs.Prelude.{◌≡◌, ◌++◌, [], ◌∷◌, OnOk, if◌then◌else◌, decimal, codes};
ghost use Rattle.hex.specs.Hex.{encode_lower};
ghost use Rattle.std.specs.List.{flat_map};
ghost use Rattle.ui_show.specs.Pieces as spec;

use itoa::Buffer;
use ui_types::{Basic, Name, NoMemory, Value};

/// Appends a text.
pub(crate) fn put(out: &mut Vec<u8>, text: &[u8]) -> Result<(), NoMemory>
    ensures { OnOk result (out.new.items ≡ out.old.items ++ text.now) }
{
    out.extend_from_slice(text)?;
    Ok(())
}

/// Appends a text where it is asked for.
pub(crate) fn put_if(out: &mut Vec<u8>, is_asked: bool, text: &[u8]) -> Result<(), NoMemory>
    ensures { OnOk result (out.new.items
        ≡ out.old.items ++ (if is_asked then text.now else [])) }
{
    if is_asked { put(out, text) } else { Ok(()) }
}

/// Appends a number in decimal.
pub(crate) fn put_number(out: &mut Vec<u8>, n: u64) -> Result<(), NoMemory>
    ensures { OnOk result (out.new.items ≡ out.old.items ++ decimal n) }
{
    let mut digits = Buffer::new();
    put(out, digits.format(n).as_bytes())
}

/// How a basic type is written.
pub(crate) fn basic_name(kind: Basic) -> &'static [u8]
    ensures { result.now ≡ spec.basic_name kind }
{
    match kind {
        Basic::Bool => b"bool".as_slice(),
        Basic::Int => b"int".as_slice(),
        Basic::Int8 => b"int8".as_slice(),
        Basic::Int16 => b"int16".as_slice(),
        Basic::Int32 => b"int32".as_slice(),
        Basic::Int64 => b"int64".as_slice(),
        Basic::Uint => b"uint".as_slice(),
        Basic::Uint8 => b"uint8".as_slice(),
        Basic::Uint16 => b"uint16".as_slice(),
        Basic::Uint32 => b"uint32".as_slice(),
        Basic::Uint64 => b"uint64".as_slice(),
        Basic::String => b"string".as_slice(),
        Basic::UntypedBool => b"untyped bool".as_slice(),
        Basic::UntypedInt => b"untyped int".as_slice(),
        Basic::UntypedRune => b"untyped rune".as_slice(),
        Basic::UntypedString => b"untyped string".as_slice(),
        Basic::UntypedNil => b"untyped nil".as_slice(),
    }
}

/// Appends a declared name, behind its package's path.
pub(crate) fn put_qualified(out: &mut Vec<u8>, name: &Name) -> Result<(), NoMemory>
    ensures { OnOk result (out.new.items ≡ out.old.items ++ spec.qualified name.now) }
{
    put(out, name.path.bytes())?;
    put(out, b".")?;
    put(out, name.name.bytes())
}

/// Appends the name of a field or a method.
pub(crate) fn put_selected(out: &mut Vec<u8>, name: &Name) -> Result<(), NoMemory>
    ensures { OnOk result (out.new.items ≡ out.old.items ++ spec.selected name.now) }
{
    if name.path.bytes().is_empty() {
        put(out, name.name.bytes())
    } else {
        put_qualified(out, name)
    }
}

// Appends a byte between quotes.
fn put_quoted_byte(out: &mut Vec<u8>, b: u8) -> Result<(), NoMemory>
    ensures { OnOk result (out.new.items ≡ out.old.items ++ spec.quoted_byte b) }
{
    if b == b'"' {
        put(out, b"\\\"")
    } else if b == b'\\' {
        put(out, b"\\\\")
    } else if 32 <= b && b <= 126 {
        put(out, &[b])
    } else {
        put_hex(out, b)
    }
}

// Appends a byte as the escape of its number.
fn put_hex(out: &mut Vec<u8>, b: u8) -> Result<(), NoMemory>
    ensures { OnOk result (out.new.items ≡ out.old.items ++ codes "\\x" ++ encode_lower (b ∷ [])) }
{
    let mut digits = [0; 2];
    let _ = hex::encode_to_slice([b].as_slice(), &mut digits);
    put(out, b"\\x")?;
    put(out, &digits)
}

// Appends bytes between quotes.
fn put_quoted(out: &mut Vec<u8>, bytes: &[u8]) -> Result<(), NoMemory>
    ensures { OnOk result (out.new.items ≡ out.old.items ++ flat_map spec.quoted_byte bytes.now) }
{
    for b in bytes {
        put_quoted_byte(out, *b)?;
    }
    Ok(())
}

/// Appends the value of a constant.
pub(crate) fn put_value(out: &mut Vec<u8>, value: &Value) -> Result<(), NoMemory>
    ensures { OnOk result (out.new.items ≡ out.old.items ++ spec.value_text value.now) }
{
    match value {
        Value::Whole(n) => {
            let mut digits = Buffer::new();
            put(out, digits.format(*n).as_bytes())
        }
        Value::Str(text) => {
            put(out, b"\"")?;
            put_quoted(out, text.bytes())?;
            put(out, b"\"")
        }
        Value::Truth(true) => put(out, b"true"),
        Value::Truth(false) => put(out, b"false"),
    }
}
