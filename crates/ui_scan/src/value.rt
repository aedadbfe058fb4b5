//! What literals stand for.

ghost use Rattle.std.specs.Prelude.{◌≡◌, ◌≤◌, ◌<◌, ◌++◌, length, IfOk, OnOk, IfSome, IsSome, pos};
ghost use Rattle.std.specs.Prelude.{ℕ, List, All};
ghost use Rattle.ui_scan.specs.Value as spec;
ghost use Rattle.ui_scan.specs.Tokens.{Tokens};
ghost use Rattle.ui_scan.specs.declared.kind.Token.{Token as AToken};
ghost use Rattle.ui_scan.specs.Literal.{rune_code};
ghost use Rattle.ui_scan.specs.Digits.{greatest};
ghost use Rattle.ui_scan.specs.Escape.{bytes_of};

use crate::digits::whole;
use crate::escape::{Escaped, escape_at};
use crate::kind::{Token, TokenKind};
use crate::literal::rune_code;
use crate::number::radix_of;
use std::alloc::{AllocError, Global};
use ui_base::{NoMemory, Text, Value};

// The number of a whole literal.
fn int_value(text: &[u8]) -> i128
    requires { spec.int_value text.now ≤ greatest }
    ensures { result ≡ pos (spec.int_value text.now) }
{
    let radix = radix_of(text);
    let number = whole(radix.base, &text[radix.len..]);
    number.unwrap() as i128
}

// What stands between the quotes.
fn inside(text: &[u8]) -> &[u8]
    requires { 2 ≤ length text.now }
    ensures { result.now ≡ spec.inside text.now }
{
    &text[1..text.len() - 1]
}

// The code of a rune literal's character.
fn rune_value(text: &[u8]) -> u32
    requires long { 2 ≤ length text.now }
    requires rune { IsSome (rune_code (spec.inside text.now)) }
    ensures { rune_code (spec.inside text.now) ≡ Some result }
{
    rune_code(inside(text)).unwrap()
}

// Appends the bytes that an escape stands for.
fn push_escaped(out: &mut Vec<u8>, escaped: Escaped) -> Result<(), AllocError>
    ensures { OnOk result (out.new.items ≡ out.old.items ++ bytes_of escaped) }
{
    match escaped {
        Escaped::Byte(b) => {
            out.push(b)?;
            Ok(())
        }
        Escaped::Char(c) => {
            let mut space = [0; 4];
            let text = c.encode_utf8(&mut space);
            out.extend_from_slice(text.as_bytes())?;
            Ok(())
        }
    }
}

// The bytes that a string's body stands for.
fn unescaped(alloc: Global, bytes: &[u8]) -> Result<Vec<u8>, AllocError>
    ensures { IfOk result (λ v. v.items ≡ spec.unescaped bytes.now) }
{
    let mut out = Vec::new(alloc);
    let mut at = 0;
    while at < bytes.len() {
        if bytes[at] != b'\\' {
            out.push(bytes[at])?;
            at += 1;
            continue;
        }
        let Some(escape) = escape_at(b'"', &bytes[at..]) else {
            return Ok(out);
        };
        push_escaped(&mut out, escape.stands_for)?;
        at += escape.len;
    }
    Ok(out)
}

// A raw string's bytes, without carriage returns.
fn raw_bytes(alloc: Global, bytes: &[u8]) -> Result<Vec<u8>, AllocError>
    ensures { IfOk result (λ v. v.items ≡ spec.raw_bytes bytes.now) }
{
    bytes.iter().copied().filter(|b| *b != b'\r').collect(alloc)
}

// The bytes of a string literal.
fn string_value(alloc: Global, text: &[u8]) -> Result<Vec<u8>, AllocError>
    requires { 2 ≤ length text.now }
    ensures { IfOk result (λ v. v.items ≡ spec.string_value text.now) }
{
    if text[0] == b'`' {
        raw_bytes(alloc, inside(text))
    } else {
        unescaped(alloc, inside(text))
    }
}

/// The value of a literal token of these bytes: a whole number, the code of a character, or the
/// bytes of a string.
pub fn value_of(alloc: Global, bytes: &[u8], token: &Token) -> Result<Value, NoMemory>
    requires { spec.IsLiteralOf bytes.now token.now }
    ensures { IfOk result (λ v. v ≡ spec.value_in token.now.kind
        (spec.text_of bytes.now token.now)) }
{
    let text = &bytes[token.start as usize..token.end as usize];
    match token.kind {
        TokenKind::Int => Ok(Value::Whole(int_value(text))),
        TokenKind::Rune => Ok(Value::Whole(i128::from(rune_value(text)))),
        _ => {
            let bytes = string_value(alloc, text)?;
            Ok(Value::Str(Text::new(bytes)))
        }
    }
}

/// Each literal among the tokens of a file has a value.
pub fn literals_have_values()
    ensures { (bytes : List ℕ) (ts : List AToken) → Tokens bytes ts
        → All (spec.IsIfLiteral bytes) ts }
{}
