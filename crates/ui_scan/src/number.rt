//! Numbers.

ghost use Rattle.std.specs.Prelude.{◌≡◌, ◌≤◌, ◌<◌, length, slice_index};
ghost use Rattle.ui_scan.specs.Number as spec;

use crate::digits::{are_digits, is_digit_of, whole};
use crate::kind::{ScanKind, TokenKind};
use crate::letters::byte_at;
use crate::piece::Piece;

/// A number's base, and the length of the prefix that tells it. A leading 0 tells it and is a
/// digit.
#[derive(Clone, Copy)]
pub struct Radix {
    pub base: u8,
    pub len: usize,
}

/// The base of the number that the bytes begin with.
#[tactic(auto, unfolding(crate::specs::Number::radix))]
pub fn radix_of(bytes: &[u8]) -> Radix
    ensures value { result ≡ spec.radix bytes.now }
    ensures low { 2 ≤ result.base }
    ensures high { result.base ≤ 16 }
    ensures within { result.len ≤ length bytes.now }
{
    match bytes {
        [b'0', b'x' | b'X', ..] => Radix { base: 16, len: 2 },
        [b'0', b'o' | b'O', ..] => Radix { base: 8, len: 2 },
        [b'0', b'b' | b'B', ..] => Radix { base: 2, len: 2 },
        [b'0', ..] => Radix { base: 8, len: 0 },
        _ => Radix { base: 10, len: 0 },
    }
}

// Whether a byte counts to the number, right or wrong.
fn is_counted(base: u8, b: u8) -> bool
    ensures { result ≡ spec.is_counted base b }
{
    b == b'_' || is_digit_of(if base == 16 { 16 } else { 10 }, b)
}

// How many bytes count to the number.
fn counted_len(base: u8, bytes: &[u8]) -> usize
    ensures len { result ≡ spec.counted_len base bytes.now }
    ensures within { result ≤ length bytes.now }
{
    let mut len = 0;
    while len < bytes.len() && is_counted(base, bytes[len]) {
        len += 1;
    }
    len
}

// Whether a byte begins a fraction or an exponent.
fn begins_fraction(b: u8) -> bool
    ensures { result ≡ spec.begins_fraction b }
{
    matches!(b, b'.' | b'e' | b'E' | b'p' | b'P')
}

// Whether these are some digits, each of the base.
#[tactic(auto, unfolding(crate::specs::Number::is_numeral))]
fn is_numeral(base: u8, digits: &[u8]) -> bool
    ensures { result ≡ spec.is_numeral base digits.now }
{
    !digits.is_empty() && are_digits(base, digits)
}

// The number that has these digits.
#[tactic(auto, unfolding(crate::specs::Number::whole_number))]
fn whole_number(base: u8, digits: &[u8], end: usize) -> Piece
    requires low { 2 ≤ base }
    requires high { base ≤ 16 }
    ensures { result ≡ spec.whole_number base digits.now end }
{
    if !is_numeral(base, digits) {
        return Piece::Fault {
            kind: ScanKind::BadNumber,
            at: 0,
        };
    }
    match whole(base, digits) {
        Some(_) => Piece::Token {
            kind: TokenKind::Int,
            len: end,
        },
        None => Piece::Fault {
            kind: ScanKind::ConstTooBig,
            at: 0,
        },
    }
}

/// The number that the bytes begin with.
#[tactic(auto, unfolding(crate::specs::Number::number))]
pub fn number(bytes: &[u8]) -> Piece
    ensures { result ≡ spec.number bytes.now }
{
    let radix = radix_of(bytes);
    let end = radix.len + counted_len(radix.base, &bytes[radix.len..]);
    let next = byte_at(bytes, end);
    if begins_fraction(next) {
        return Piece::Fault {
            kind: ScanKind::FloatLiteral,
            at: 0,
        };
    }
    if next == b'i' {
        return Piece::Fault {
            kind: ScanKind::ImaginaryLiteral,
            at: 0,
        };
    }
    whole_number(radix.base, &bytes[radix.len..end], end)
}
