//! What of the bytes may hold tokens.

ghost use Rattle.std.specs.Prelude.{◌≡◌, ◌≤◌, ◌+◌, length, drop, take};
ghost use Rattle.std.specs.Str.Lossy.{utf8_valid_len};
ghost use Rattle.ui_scan.specs.Source as spec;

use crate::kind::ScanKind;
use crate::letters::byte_at;

/// The part of a file that may hold tokens.
#[derive(Clone, Copy)]
pub struct CleanText<'a> {
    /// The bytes up to the first that no source may have.
    pub text: &'a [u8],
    /// The fault that stands there, if the bytes go on.
    pub fault: Option<ScanKind>,
    /// The length of a U+FEFF at the start.
    pub mark: usize,
}

const MARK: [u8; 3] = [0xEF, 0xBB, 0xBF];

// How many bytes at the front are UTF-8.
fn valid_len(bytes: &[u8]) -> usize
    ensures len { result ≡ utf8_valid_len bytes.now }
    ensures within { result ≤ length bytes.now }
{
    match str::from_utf8(bytes) {
        Ok(_) => bytes.len(),
        Err(fault) => fault.valid_up_to(),
    }
}

// Whether the bytes begin with U+FEFF.
fn begins_mark(bytes: &[u8]) -> bool
    ensures { result ≡ spec.begins_mark bytes.now }
{
    byte_at(bytes, 0) == MARK[0] && bytes.starts_with(&MARK)
}

// How many bytes come before the first zero byte or U+FEFF.
fn clean_len(bytes: &[u8]) -> usize
    ensures len { result ≡ spec.clean_len bytes.now }
    ensures within { result ≤ length bytes.now }
{
    let mut len = 0;
    while len < bytes.len() && bytes[len] != 0 && !begins_mark(&bytes[len..]) {
        len += 1;
    }
    len
}

// The length of a U+FEFF at the start.
#[tactic(auto, unfolding(crate::specs::Source::mark_len))]
fn mark_len(bytes: &[u8]) -> usize
    ensures len { result ≡ spec.mark_len bytes.now }
    ensures within { result ≤ length bytes.now }
{
    if begins_mark(bytes) { 3 } else { 0 }
}

/// The part of a file that may hold tokens.
#[tactic(auto, unfolding(crate::specs::Source::text_len, crate::specs::Source::text_fault))]
pub fn source_of(bytes: &[u8]) -> CleanText<'_>
    ensures text { result.text.now ≡ take (spec.text_len bytes.now) bytes.now }
    ensures fault { result.fault ≡ spec.text_fault bytes.now }
    ensures mark { result.mark ≡ spec.mark_len bytes.now }
    ensures within { result.mark ≤ length result.text.now }
{
    let mark = mark_len(bytes);
    let valid = valid_len(&bytes[mark..]);
    let clean = clean_len(&bytes[mark..mark + valid]);
    let fault = if clean < valid {
        Some(ScanKind::BadByte)
    } else if valid < bytes.len() - mark {
        Some(ScanKind::BadUtf8)
    } else {
        None
    };
    CleanText {
        text: &bytes[..mark + clean],
        fault,
        mark,
    }
}
