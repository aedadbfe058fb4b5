//! The tokens of a file, one after another.

ghost use Rattle.std.specs.Prelude.{◌≡◌, ◌<◌, ◌≤◌, ◌+◌, ◌-◌, ◌^◌, ℕ, List, length, take, drop};
ghost use Rattle.std.specs.Prelude.{IfOk};
ghost use Rattle.ui_scan.specs.declared.kind.Token.{Token as AToken};
ghost use Rattle.ui_scan.specs.Tokens.{Tokens};
ghost use Rattle.ui_scan.specs.Piece.{is_end};
ghost use Rattle.ui_scan.specs.Scan as spec;
ghost use Rattle.ui_scan.specs.Steps.{IsAt, Steps, GivesAll};

use crate::kind::{ScanFault, ScanKind, Token, TokenKind};
use crate::piece::{Piece, piece_at};
use crate::place::{ORIGIN, Place};
use crate::source::source_of;
use std::alloc::{AllocFailed, Global};
use std::marker::Model;

/// Gives the tokens of a file one after another. Contracts see what it gives from now on: some
/// tokens, and then each time the end of the file or a fault.
#[derive(Drop)]
pub struct Scanner<'a> {
    text: &'a [u8],
    fault: Option<ScanKind>,
    state: State,
}

// Where the next piece begins, and where a semicolon is due if the line ends before the next token.
#[derive(Clone, Copy)]
struct State {
    place: Place,
    due: Option<Place>,
}

// A token, and the state behind it.
#[derive(Clone, Copy)]
struct Found {
    token: Token,
    state: State,
}

impl<'a> Model for Scanner<'a> {
    ghost use Rattle.ui_scan.specs.Scan.{Outcome, outcome};
    ghost use Rattle.ui_scan.specs.Steps.{IsAt};

    ghost Value = { Outcome };

    ghost view = { λ s. outcome s.text.now s.fault s.state.due s.state.place };

    ghost invariant = { λ s. IsAt s.text.now s.state.place };
}

// Whether a line that ends behind such a token gets a semicolon.
fn ends_statement(kind: TokenKind) -> bool
    ensures { result ≡ spec.ends_statement kind }
{
    matches!(
        kind,
        TokenKind::Ident
            | TokenKind::Int
            | TokenKind::Rune
            | TokenKind::Str
            | TokenKind::Break
            | TokenKind::Continue
            | TokenKind::Fallthrough
            | TokenKind::Return
            | TokenKind::Inc
            | TokenKind::Dec
            | TokenKind::RParen
            | TokenKind::RBracket
            | TokenKind::RBrace
    )
}

// Where a semicolon is due if the line ends behind this token.
fn due_after(kind: TokenKind, end: Place) -> Option<Place>
    ensures { result ≡ spec.due_after kind end }
{
    if ends_statement(kind) {
        Some(end)
    } else {
        None
    }
}

fn token_between(kind: TokenKind, start: Place, end: Place) -> Token
    ensures { result ≡ spec.token_between kind start end }
{
    Token {
        kind,
        start: start.at,
        end: end.at,
        line: start.line,
        col: start.col,
    }
}

// The semicolon that a line's end brings about.
fn semicolon_due(ends_line: bool, due: Option<Place>) -> Option<Token>
    ensures { result ≡ spec.semicolon_due ends_line due }
{
    match due {
        Some(end) if ends_line => Some(token_between(TokenKind::Semi, end, end)),
        _ => None,
    }
}

// What stands at the end of the text.
fn found_at_end(text: &[u8], fault: Option<ScanKind>, state: State) -> Result<Found, ScanFault>
    requires at { IsAt text.now state.place }
    requires end { length text.now ≤ state.place.at }
    ensures step { Steps text.now fault (spec.outcome text.now fault state.due state.place) result }
    ensures within { IfOk result (λ f. IsAt text.now f.state.place) }
{
    let State { place, due } = state;
    match (fault, due) {
        (Some(kind), _) => Err(ScanFault {
            kind,
            at: place.at as usize,
        }),
        (None, Some(end)) => Ok(Found {
            token: token_between(TokenKind::Semi, end, end),
            state: State { place, due: None },
        }),
        (None, None) => Ok(Found {
            token: token_between(TokenKind::End, place, place),
            state,
        }),
    }
}

// The fault of a token or comment in which the text ends.
fn open_fault(fault: Option<ScanKind>, kind: ScanKind, place: Place, bytes: &[u8]) -> ScanFault
    requires { place.at + length bytes.now < 2 ^ 64 }
    ensures { result ≡ spec.open_fault fault kind place bytes.now }
{
    match fault {
        None => ScanFault {
            kind,
            at: place.at as usize,
        },
        Some(other) => ScanFault {
            kind: other,
            at: place.at as usize + bytes.len(),
        },
    }
}

// The next token, or the fault in its place.
fn found_from(text: &[u8], fault: Option<ScanKind>, state: State) -> Result<Found, ScanFault>
    requires { IsAt text.now state.place }
    ensures step { Steps text.now fault (spec.outcome text.now fault state.due state.place) result }
    ensures within { IfOk result (λ f. IsAt text.now f.state.place) }
{
    let mut place = state.place;
    while (place.at as usize) < text.len() {
        let bytes = &text[place.at as usize..];
        match piece_at(bytes) {
            Piece::Blank { len, ends_line } => {
                place = place.after(&bytes[..len]);
                if let Some(token) = semicolon_due(ends_line, state.due) {
                    return Ok(Found {
                        token,
                        state: State { place, due: None },
                    });
                }
            }
            Piece::Token { kind, len } => {
                let end = place.after(&bytes[..len]);
                return Ok(Found {
                    token: token_between(kind, place, end),
                    state: State {
                        place: end,
                        due: due_after(kind, end),
                    },
                });
            }
            Piece::Fault { kind, at } => {
                return Err(ScanFault {
                    kind,
                    at: place.at as usize + at,
                });
            }
            Piece::Open { kind } => return Err(open_fault(fault, kind, place, bytes)),
        }
    }
    found_at_end(
        text,
        fault,
        State {
            place,
            due: state.due,
        },
    )
}

impl<'a> Scanner<'a> {
    /// A scanner of a file, at its start.
    pub fn new(bytes: &'a [u8]) -> Scanner<'a>
        requires { length bytes.now < 2 ^ 32 - 1 }
        ensures { result ≡ spec.scanned bytes.now }
    {
        let source = source_of(bytes);
        Scanner {
            text: source.text,
            fault: source.fault,
            state: State {
                place: ORIGIN.after(&source.text[..source.mark]),
                due: None,
            },
        }
    }

    /// The next token, or the fault in its place. At the end of the file the kind is `End` each
    /// time, and behind a fault the same fault comes each time.
    pub fn next(&mut self) -> Result<Token, ScanFault>
        ensures gives { result ≡ spec.first self.old }
        ensures after { self.new ≡ spec.rest self.old }
    {
        match found_from(self.text, self.fault, self.state) {
            Ok(found) => {
                self.state = found.state;
                Ok(found.token)
            }
            Err(fault) => Err(fault),
        }
    }
}

/// Why a file has no tokens.
#[derive(Clone, Copy, Debug)]
pub enum TokensFault {
    /// A fault stands in the place of a token.
    Scan(ScanFault),
    /// Memory ran out.
    NoMemory,
}

impl From<ScanFault> for TokensFault {
    ghost use Rattle.std.specs.Prelude.{◌≡◌};
    ghost use Rattle.ui_scan.specs.declared.scanner.TokensFault.TheVariants.{Scan};

    ghost from_gives = { λ f e. e ≡ Scan f };

    fn from(fault: ScanFault) -> TokensFault {
        TokensFault::Scan(fault)
    }
}

impl From<AllocFailed<Token>> for TokensFault {
    ghost use Rattle.std.specs.Prelude.{◌≡◌};
    ghost use Rattle.ui_scan.specs.declared.scanner.TokensFault.TheVariants.{NoMemory};

    ghost from_gives = { λ _ e. e ≡ NoMemory };

    fn from(_: AllocFailed<Token>) -> TokensFault {
        TokensFault::NoMemory
    }
}

// Whether a token is the last.
fn is_end(kind: TokenKind) -> bool
    ensures { result ≡ is_end kind }
{
    matches!(kind, TokenKind::End)
}

// The tokens of a file, or its fault.
fn all_tokens(alloc: Global, bytes: &[u8]) -> Result<Vec<Token>, TokensFault>
    requires { length bytes.now < 2 ^ 32 - 1 }
    ensures { GivesAll (spec.tokens_of bytes.now) result }
{
    let mut scanner = Scanner::new(bytes);
    let mut found = Vec::new(alloc);
    loop {
        let token = scanner.next()?;
        found.push(token)?;
        if is_end(token.kind) {
            return Ok(found);
        }
    }
}

/// The tokens of a file, of which the last is its end, or the first fault in its place. Semicolons
/// of empty span stand where line ends bring them about.
pub fn tokens(alloc: Global, bytes: &[u8]) -> Result<Vec<Token>, TokensFault>
    requires { length bytes.now < 2 ^ 32 - 1 }
    // What is found are the tokens of the file.
    ensures found { IfOk result (λ v. Tokens bytes.now v.items) }
    // The tokens of the file are found, unless memory runs out.
    ensures only { (ts : List AToken) → Tokens bytes.now ts → GivesAll (Ok ts) result }
    // Which fault it is.
    ensures exact { GivesAll (spec.tokens_of bytes.now) result }
{
    all_tokens(alloc, bytes)
}

/// What a scanner gives from a file's start up to its end are the tokens of the file, and no others
/// are.
pub fn scan_of_a_file()
    ensures sound { (bytes : List ℕ) (ts : List AToken) → spec.tokens_of bytes ≡ Ok ts
        → Tokens bytes ts }
    ensures complete { (bytes : List ℕ) (ts : List AToken) → Tokens bytes ts
        → spec.tokens_of bytes ≡ Ok ts }
    ensures scanner { (bytes : List ℕ) → spec.tokens_of bytes
        ≡ spec.all_with (spec.scanned bytes).front (spec.scanned bytes).ends }
{}
