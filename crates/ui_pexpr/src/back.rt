//! Tokens before a place, from the last one back.

ghost use Rattle.std.specs.Prelude.{◌≡◌, ◌≤◌, ◌<◌, ◌+◌, ◌^◌, ℕ, List, length};
ghost use Rattle.ui_parse.specs.Reader.{tail};
ghost use Rattle.ui_pexpr.specs.Back as spec;
ghost use Rattle.ui_pexpr.specs.Back.{back_of};

use ui_parse::same_kind;
use ui_scan::{Token, TokenKind};

fn opens(kind: TokenKind) -> bool
    ensures { result ≡ spec.opens kind }
{
    matches!(
        kind,
        TokenKind::LParen | TokenKind::LBracket | TokenKind::LBrace
    )
}

fn closes(kind: TokenKind) -> bool
    ensures { result ≡ spec.closes kind }
{
    matches!(
        kind,
        TokenKind::RParen | TokenKind::RBracket | TokenKind::RBrace
    )
}

/// Whether the last token is of this kind.
pub fn ends_in(front: &[Token], kind: TokenKind) -> bool
    ensures { (bytes : List ℕ) → result ≡ spec.last_is kind (back_of bytes front.now) }
{
    match front {
        [] => false,
        [.., last] => same_kind(last.kind, kind),
    }
}

/// The tokens before the last.
pub fn before_last(front: &[Token]) -> &[Token]
    ensures words { (bytes : List ℕ) → back_of bytes result.now ≡ tail (back_of bytes front.now) }
    ensures within { length result.now ≤ length front.now }
{
    match front {
        [] => front,
        [before @ .., _] => before,
    }
}

// How many brackets are closed behind a token and still open before it, or none where the way back
// ends at the token.
fn next_level(semicolons: bool, level: usize, kind: TokenKind) -> Option<usize>
    requires { level + 1 < 2 ^ 64 }
    ensures { result ≡ spec.next_level semicolons level kind }
{
    if closes(kind) {
        return Some(level + 1);
    }
    if opens(kind) {
        return level.checked_sub(1);
    }
    if semicolons && level == 0 && same_kind(kind, TokenKind::Semi) {
        return None;
    }
    Some(level)
}

/// The tokens up to the innermost bracket that is open behind them, with it; with semicolons, up to
/// the last semicolon that is beside what follows, if one comes later than the bracket.
pub fn opening(front: &[Token], semicolons: bool) -> &[Token]
    ensures words { (bytes : List ℕ) → back_of bytes result.now
        ≡ spec.opening semicolons 0 (back_of bytes front.now) }
    ensures within { length result.now ≤ length front.now }
{
    let mut level = 0;
    let mut rest = front;
    while let [before @ .., last] = rest {
        match next_level(semicolons, level, last.kind) {
            Some(next) => level = next,
            None => return rest,
        }
        rest = before;
    }
    rest
}
