//! What the bytes begin with.

ghost use Rattle.std.specs.Prelude.{◌≡◌, ◌<◌, ◌≤◌, ◌+◌, length, slice_index, take, drop, IfSome};
ghost use Rattle.ui_scan.specs.Longest.{ReadsTheLongest};
ghost use Rattle.ui_scan.specs.Piece as spec;

use crate::kind::{ScanKind, TokenKind};
use crate::letters::{begins_name, byte_at, name_len};
use crate::literal::{len_before, raw_string, rune, string};
use crate::number::number;
use crate::table::{operator, word_kind};

/// What the bytes begin with.
#[derive(Clone, Copy)]
pub enum Piece {
    /// White space or a comment, and whether it holds a line feed.
    Blank { len: usize, ends_line: bool },
    /// A token.
    Token { kind: TokenKind, len: usize },
    /// What is no token, and where its fault stands from there.
    Fault { kind: ScanKind, at: usize },
    /// A token or comment in which the bytes end, and its fault.
    Open { kind: ScanKind },
}

// A comment up to the line's end.
#[tactic(auto, unfolding(crate::specs::Piece::line_comment))]
fn line_comment(bytes: &[u8]) -> Piece
    ensures { result ≡ spec.line_comment bytes.now }
{
    Piece::Blank {
        len: len_before(b'\n', bytes),
        ends_line: false,
    }
}

// The bytes up to the first `*/` and with it.
fn comment_len(bytes: &[u8]) -> Option<usize>
    ensures len { result ≡ spec.comment_len bytes.now }
    ensures within { IfSome result (λ n. n ≤ length bytes.now) }
{
    let mut len = 0;
    while len < bytes.len() {
        if bytes[len] == b'*' && byte_at(bytes, len + 1) == b'/' {
            return Some(len + 2);
        }
        len += 1;
    }
    None
}

// A comment up to its end, which may stand lines below.
#[tactic(auto, unfolding(crate::specs::Piece::general_comment))]
fn general_comment(bytes: &[u8]) -> Piece
    requires { 2 ≤ length bytes.now }
    ensures { result ≡ spec.general_comment bytes.now }
{
    match comment_len(&bytes[2..]) {
        Some(len) => Piece::Blank {
            len: 2 + len,
            ends_line: bytes[..2 + len].contains(&b'\n'),
        },
        None => Piece::Open {
            kind: ScanKind::OpenComment,
        },
    }
}

// An identifier or a keyword.
#[tactic(auto, unfolding(crate::specs::Piece::word))]
fn word(bytes: &[u8]) -> Piece
    ensures { result ≡ spec.word bytes.now }
{
    let len = name_len(bytes);
    Piece::Token {
        kind: word_kind(&bytes[..len]),
        len,
    }
}

// A token that is neither a literal in quotes nor a number.
fn word_or_operator(bytes: &[u8]) -> Piece
    ensures { result ≡ spec.word_or_operator bytes.now }
{
    if begins_name(bytes) {
        word(bytes)
    } else {
        operator(bytes)
    }
}

/// The token that bytes begin with which begin with neither white space nor a comment, or why there
/// is none.
#[tactic(auto, unfolding(crate::specs::Piece::lexeme))]
pub fn lexeme(bytes: &[u8]) -> Piece
    requires { 0 < length bytes.now }
    ensures { result ≡ spec.lexeme bytes.now }
{
    match bytes {
        [b'"', ..] => string(bytes),
        [b'\'', ..] => rune(bytes),
        [b'`', ..] => raw_string(bytes),
        [b'0'..=b'9', ..] => number(bytes),
        [b'.', b'0'..=b'9', ..] => Piece::Fault {
            kind: ScanKind::FloatLiteral,
            at: 0,
        },
        _ => word_or_operator(bytes),
    }
}

// What the bytes begin with.
#[tactic(auto, unfolding(crate::specs::Piece::piece))]
fn any_piece(bytes: &[u8]) -> Piece
    requires { 0 < length bytes.now }
    ensures { result ≡ spec.piece bytes.now }
{
    match bytes {
        [b'\n', ..] => Piece::Blank {
            len: 1,
            ends_line: true,
        },
        [b' ' | b'\t' | b'\r', ..] => Piece::Blank {
            len: 1,
            ends_line: false,
        },
        [b'/', b'/', ..] => line_comment(bytes),
        [b'/', b'*', ..] => general_comment(bytes),
        _ => lexeme(bytes),
    }
}

/// What the bytes begin with: white space, a comment, a token, or a fault.
pub fn piece_at(bytes: &[u8]) -> Piece
    requires { 0 < length bytes.now }
    ensures piece { result ≡ spec.piece bytes.now }
    ensures within { spec.IsPieceIn (length bytes.now) result }
{
    any_piece(bytes)
}

/// What is read is the longest token of any kind that the bytes begin with, and is read wherever
/// there is one.
pub fn longest_tokens()
    ensures { ReadsTheLongest }
{}
