//! Escapes.

ghost use Rattle.std.specs.Prelude.{◌≡◌, ◌≤◌, ◌<◌, ◌+◌, length, IfSome};
ghost use Rattle.std.specs.List.{list_all};
ghost use Rattle.ui_scan.specs.Digits.{is_digit_of};
ghost use Rattle.ui_scan.specs.Escape as spec;

use crate::digits::{is_digit_of, whole};

/// What an escape stands for.
#[derive(Clone, Copy)]
pub enum Escaped {
    Byte(u8),
    Char(char),
}

/// What an escape stands for, and how many bytes it has.
#[derive(Clone, Copy)]
pub struct Escape {
    pub stands_for: Escaped,
    pub len: usize,
}

// Whether each byte is a digit of the base.
fn are_all_digits(base: u8, digits: &[u8]) -> bool
    ensures { result ≡ list_all (is_digit_of base) digits.now }
{
    digits.iter().all(|b| is_digit_of(base, *b))
}

// The number of exactly so many digits at the front.
#[tactic(auto, unfolding(crate::specs::Escape::digits_at))]
fn digits_at(base: u8, n: usize, bytes: &[u8]) -> Option<u128>
    requires low { 2 ≤ base }
    requires high { base ≤ 16 }
    ensures value { result ≡ spec.digits_at base n bytes.now }
    ensures within { IfSome result (λ _. n ≤ length bytes.now) }
{
    if bytes.len() < n {
        return None;
    }
    let digits = &bytes[..n];
    if !are_all_digits(base, digits) {
        return None;
    }
    whole(base, digits)
}

// A byte, by its number in n digits behind some other bytes.
#[tactic(auto, unfolding(crate::specs::Escape::byte_escape))]
fn byte_escape(base: u8, n: usize, before: usize, bytes: &[u8]) -> Option<Escape>
    requires low { 2 ≤ base }
    requires high { base ≤ 16 }
    requires front { before ≤ length bytes.now }
    ensures value { result ≡ spec.byte_escape base n before bytes.now }
    ensures within { IfSome result (λ e. e.len ≤ length bytes.now) }
{
    let number = digits_at(base, n, &bytes[before..])?;
    if number > 255 {
        return None;
    }
    Some(Escape {
        stands_for: Escaped::Byte(number as u8),
        len: before + n,
    })
}

// A character, by its number in n hexadecimal digits behind the first two bytes.
#[tactic(auto, unfolding(crate::specs::Escape::char_escape))]
fn char_escape(n: usize, bytes: &[u8]) -> Option<Escape>
    requires { 2 ≤ length bytes.now }
    ensures value { result ≡ spec.char_escape n bytes.now }
    ensures within { IfSome result (λ e. e.len ≤ length bytes.now) }
{
    let number = digits_at(16, n, &bytes[2..])?;
    if number > 0x10_FFFF {
        return None;
    }
    let c = char::from_u32(number as u32)?;
    Some(Escape {
        stands_for: Escaped::Char(c),
        len: 2 + n,
    })
}

// What `\` and one character stand for.
#[tactic(auto, unfolding(crate::specs::Escape::simple_escape))]
fn simple_escape(quote: u8, b: u8) -> Option<u8>
    ensures { result ≡ spec.simple_escape quote b }
{
    match b {
        b'a' => Some(0x07),
        b'b' => Some(0x08),
        b'f' => Some(0x0C),
        b'n' => Some(b'\n'),
        b'r' => Some(b'\r'),
        b't' => Some(b'\t'),
        b'v' => Some(0x0B),
        b'\\' => Some(b'\\'),
        _ if b == quote => Some(quote),
        _ => None,
    }
}

/// The escape that the bytes begin with, in a literal with these quotes. The first byte is a
/// backslash.
#[tactic(auto, unfolding(crate::specs::Escape::escape))]
pub fn escape_at(quote: u8, bytes: &[u8]) -> Option<Escape>
    ensures value { result ≡ spec.escape quote bytes.now }
    ensures within { IfSome result (λ e. e.len ≤ length bytes.now) }
{
    let [_, b, ..] = bytes else {
        return None;
    };
    match *b {
        b'0'..=b'7' => byte_escape(8, 3, 1, bytes),
        b'x' => byte_escape(16, 2, 2, bytes),
        b'u' => char_escape(4, bytes),
        b'U' => char_escape(8, bytes),
        _ => {
            let c = simple_escape(quote, *b)?;
            Some(Escape {
                stands_for: Escaped::Char(c as char),
                len: 2,
            })
        }
    }
}
