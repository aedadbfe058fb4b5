//! Identifiers in bytes.

ghost use Rattle.std.specs.Prelude.{◌≡◌, ◌≤◌, ◌+◌, length, slice_index, if◌then◌else◌};
ghost use Rattle.ui_scan.specs.Letters as spec;

use ui_base::{is_digit, is_letter};

/// The byte at a place, or 0 past the end.
pub fn byte_at(bytes: &[u8], at: usize) -> u8
    ensures { result ≡ slice_index bytes.now at }
{
    if at < bytes.len() { bytes[at] } else { 0 }
}

// Whether a byte below 128 is a letter.
fn is_low_letter(b: u8) -> bool
    ensures { result ≡ spec.is_low_letter b }
{
    matches!(b, b'a'..=b'z' | b'A'..=b'Z' | b'_')
}

// Whether a byte below 128 is a letter or a digit.
fn low_continues(b: u8) -> bool
    ensures { result ≡ spec.low_continues b }
{
    is_low_letter(b) || matches!(b, b'0'..=b'9')
}

// The character that the bytes begin with, which may have several bytes.
#[tactic(auto, unfolding(crate::specs::Letters::front_char))]
fn wide_char(bytes: &[u8]) -> Option<char>
    ensures { result ≡ spec.front_char bytes.now }
{
    let front = &bytes[..bytes.len().min(4)];
    let chunk = front.utf8_chunks().next()?;
    chunk.valid().chars().next()
}

/// The character that the bytes begin with.
pub fn front_char(bytes: &[u8]) -> Option<char>
    ensures { result ≡ spec.front_char bytes.now }
{
    match bytes {
        [b, ..] if *b < 0x80 => Some(*b as char),
        _ => wide_char(bytes),
    }
}

// Whether the bytes begin with a letter, which may have several bytes.
fn begins_wide_name(bytes: &[u8]) -> bool
    ensures { result ≡ spec.begins_name bytes.now }
{
    match wide_char(bytes) {
        Some(c) => is_letter(c),
        None => false,
    }
}

/// Whether the bytes begin with a letter.
pub fn begins_name(bytes: &[u8]) -> bool
    ensures { result ≡ spec.begins_name bytes.now }
{
    match bytes {
        [b, ..] if *b < 0x80 => is_low_letter(*b),
        _ => begins_wide_name(bytes),
    }
}

// 1 for a letter or a digit below 128, and else 0.
fn low_len(b: u8) -> usize
    ensures { result ≡ if spec.low_continues b then 1 else 0 }
{
    if low_continues(b) { 1 } else { 0 }
}

// The same for a character that may have several bytes.
fn wide_char_len(bytes: &[u8]) -> usize
    ensures { result ≡ spec.continuing_len bytes.now }
{
    match wide_char(bytes) {
        Some(c) if is_letter(c) || is_digit(c) => c.len_utf8(),
        _ => 0,
    }
}

// How many bytes the letter or digit has that the bytes begin with, and 0 where there is none.
fn continuing_len(bytes: &[u8]) -> usize
    ensures { result ≡ spec.continuing_len bytes.now }
{
    match bytes {
        [b, ..] if *b < 0x80 => low_len(*b),
        _ => wide_char_len(bytes),
    }
}

/// How many bytes of letters and digits the bytes begin with.
pub fn name_len(bytes: &[u8]) -> usize
    ensures len { result ≡ spec.name_len bytes.now }
    ensures within { result ≤ length bytes.now }
{
    let mut len = 0;
    loop {
        let more = continuing_len(&bytes[len..]);
        if more == 0 {
            return len;
        }
        len += more;
    }
}
