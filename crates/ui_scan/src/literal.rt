//! Runes and strings.

ghost use Rattle.std.specs.Prelude.{◌≡◌, ◌≤◌, ◌<◌, ◌+◌, ◌==◌, length, IfSome, slice_index};
ghost use Rattle.std.specs.List.{position_or_len};
ghost use Rattle.ui_scan.specs.Literal as spec;
ghost use Rattle.ui_scan.specs.Escape.{code_of};

use crate::escape::{Escaped, escape_at};
use crate::kind::{ScanKind, TokenKind};
use crate::letters::front_char;
use crate::piece::Piece;

/// What stands behind the first quote of a literal.
#[derive(Clone, Copy)]
pub enum Body {
    /// The closing quote is the last of so many bytes.
    Closed { len: usize },
    /// The line ends first.
    Newline,
    /// A backslash that begins no escape comes first, behind so many bytes.
    BadEscape { at: usize },
    /// The bytes end first.
    Open,
}

// How many bytes the escape or the single byte at the front has.
#[tactic(auto, unfolding(crate::specs::Literal::item_len))]
fn item_len(quote: u8, bytes: &[u8]) -> Option<usize>
    requires { 0 < length bytes.now }
    ensures len { result ≡ spec.item_len quote bytes.now }
    ensures within { IfSome result (λ n. n ≤ length bytes.now) }
{
    if bytes[0] == b'\\' {
        let escape = escape_at(quote, bytes)?;
        Some(escape.len)
    } else {
        Some(1)
    }
}

// Where the closing quote stands, or what comes before it.
fn body_at(quote: u8, bytes: &[u8]) -> Body
    ensures body { result ≡ spec.body quote bytes.now }
    ensures within { spec.IsBodyIn (length bytes.now) result }
{
    let mut at = 0;
    while at < bytes.len() {
        let b = bytes[at];
        if b == quote {
            return Body::Closed { len: at + 1 };
        }
        if b == b'\n' {
            return Body::Newline;
        }
        match item_len(quote, &bytes[at..]) {
            Some(len) => at += len,
            None => return Body::BadEscape { at },
        }
    }
    Body::Open
}

// The code of what an escape stands for.
fn code_of(escaped: Escaped) -> u32
    ensures { result ≡ code_of escaped }
{
    match escaped {
        Escaped::Byte(b) => b as u32,
        Escaped::Char(c) => c as u32,
    }
}

/// The code of the one character or escape that the bytes are.
#[tactic(auto, unfolding(crate::specs::Literal::rune_code))]
pub fn rune_code(bytes: &[u8]) -> Option<u32>
    ensures { result ≡ spec.rune_code bytes.now }
{
    if bytes.first() == Some(&b'\\') {
        let escape = escape_at(b'\'', bytes)?;
        if escape.len != bytes.len() {
            return None;
        }
        return Some(code_of(escape.stands_for));
    }
    let c = front_char(bytes)?;
    if c.len_utf8() != bytes.len() {
        return None;
    }
    Some(c as u32)
}

/// The string in double quotes that the bytes begin with.
#[tactic(auto, unfolding(crate::specs::Literal::string))]
pub fn string(bytes: &[u8]) -> Piece
    requires { 0 < length bytes.now }
    ensures { result ≡ spec.string bytes.now }
{
    match body_at(b'"', &bytes[1..]) {
        Body::Closed { len } => Piece::Token {
            kind: TokenKind::Str,
            len: 1 + len,
        },
        Body::Newline => Piece::Fault {
            kind: ScanKind::NewlineInString,
            at: 0,
        },
        Body::BadEscape { at } => Piece::Fault {
            kind: ScanKind::BadEscape,
            at: 1 + at,
        },
        Body::Open => Piece::Open {
            kind: ScanKind::OpenString,
        },
    }
}

/// The character in single quotes that the bytes begin with.
#[tactic(auto, unfolding(crate::specs::Literal::rune))]
pub fn rune(bytes: &[u8]) -> Piece
    requires { 0 < length bytes.now }
    ensures { result ≡ spec.rune bytes.now }
{
    match body_at(b'\'', &bytes[1..]) {
        Body::Closed { len } if rune_code(&bytes[1..len]).is_some() => Piece::Token {
            kind: TokenKind::Rune,
            len: 1 + len,
        },
        Body::BadEscape { at } => Piece::Fault {
            kind: ScanKind::BadEscape,
            at: 1 + at,
        },
        Body::Open => Piece::Open {
            kind: ScanKind::BadRune,
        },
        _ => Piece::Fault {
            kind: ScanKind::BadRune,
            at: 0,
        },
    }
}

/// The raw string that the bytes begin with.
#[tactic(auto, unfolding(crate::specs::Literal::raw_string))]
pub fn raw_string(bytes: &[u8]) -> Piece
    requires { 0 < length bytes.now }
    ensures { result ≡ spec.raw_string bytes.now }
{
    let end = 1 + len_before(b'`', &bytes[1..]);
    if end < bytes.len() {
        Piece::Token {
            kind: TokenKind::Str,
            len: end + 1,
        }
    } else {
        Piece::Open {
            kind: ScanKind::OpenString,
        }
    }
}

/// How many bytes come before the first of these.
pub fn len_before(b: u8, bytes: &[u8]) -> usize
    ensures len { result ≡ position_or_len (λ x. x == b) bytes.now }
    ensures within { result ≤ length bytes.now }
{
    let mut len = 0;
    while len < bytes.len() && bytes[len] != b {
        len += 1;
    }
    len
}
