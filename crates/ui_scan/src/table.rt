//! How keywords and operators are spelled.

ghost use Rattle.std.specs.Prelude.{◌≡◌, ◌≤◌, ℕ, List, map, unwrap_or, length, nat_eq, slice_index};
ghost use Rattle.std.specs.List.{starts_with};
ghost use Rattle.ui_scan.specs.declared.kind.TokenKind.TheVariants.{Ident};
ghost use Rattle.ui_scan.specs.Table as spec;

use crate::kind::{ScanKind, TokenKind};
use crate::letters::byte_at;
use crate::piece::Piece;

// What is spelled, and its kind.
type Row = (&'static [u8], TokenKind);

// The keywords, by their length.
const OF_TWO: [Row; 2] = [(b"go", TokenKind::Go), (b"if", TokenKind::If)];

const OF_THREE: [Row; 3] = [
    (b"for", TokenKind::For),
    (b"map", TokenKind::Map),
    (b"var", TokenKind::Var),
];

const OF_FOUR: [Row; 6] = [
    (b"case", TokenKind::Case),
    (b"chan", TokenKind::Chan),
    (b"else", TokenKind::Else),
    (b"func", TokenKind::Func),
    (b"goto", TokenKind::Goto),
    (b"type", TokenKind::Type),
];

const OF_FIVE: [Row; 4] = [
    (b"break", TokenKind::Break),
    (b"const", TokenKind::Const),
    (b"defer", TokenKind::Defer),
    (b"range", TokenKind::Range),
];

const OF_SIX: [Row; 5] = [
    (b"import", TokenKind::Import),
    (b"return", TokenKind::Return),
    (b"select", TokenKind::Select),
    (b"struct", TokenKind::Struct),
    (b"switch", TokenKind::Switch),
];

const OF_SEVEN: [Row; 2] = [
    (b"default", TokenKind::Default),
    (b"package", TokenKind::Package),
];

const OF_EIGHT: [Row; 1] = [(b"continue", TokenKind::Continue)];

const OF_NINE: [Row; 1] = [(b"interface", TokenKind::Interface)];

const OF_ELEVEN: [Row; 1] = [(b"fallthrough", TokenKind::Fallthrough)];

// The operators, by their first byte. Each stands before those that it begins with.
const LESS_MARKS: [Row; 5] = [
    (b"<<=", TokenKind::ShlAssign),
    (b"<<", TokenKind::Shl),
    (b"<-", TokenKind::Arrow),
    (b"<=", TokenKind::LessEqual),
    (b"<", TokenKind::Less),
];

const GREATER_MARKS: [Row; 4] = [
    (b">>=", TokenKind::ShrAssign),
    (b">>", TokenKind::Shr),
    (b">=", TokenKind::GreaterEqual),
    (b">", TokenKind::Greater),
];

const AND_MARKS: [Row; 5] = [
    (b"&^=", TokenKind::AndNotAssign),
    (b"&=", TokenKind::AndAssign),
    (b"&^", TokenKind::AndNot),
    (b"&&", TokenKind::LogicalAnd),
    (b"&", TokenKind::And),
];

const PERIOD_MARKS: [Row; 2] = [(b"...", TokenKind::Ellipsis), (b".", TokenKind::Period)];

const ADD_MARKS: [Row; 3] = [
    (b"+=", TokenKind::AddAssign),
    (b"++", TokenKind::Inc),
    (b"+", TokenKind::Add),
];

const SUB_MARKS: [Row; 3] = [
    (b"-=", TokenKind::SubAssign),
    (b"--", TokenKind::Dec),
    (b"-", TokenKind::Sub),
];

const MUL_MARKS: [Row; 2] = [(b"*=", TokenKind::MulAssign), (b"*", TokenKind::Mul)];

const DIV_MARKS: [Row; 2] = [(b"/=", TokenKind::DivAssign), (b"/", TokenKind::Div)];

const REM_MARKS: [Row; 2] = [(b"%=", TokenKind::RemAssign), (b"%", TokenKind::Rem)];

const OR_MARKS: [Row; 3] = [
    (b"|=", TokenKind::OrAssign),
    (b"||", TokenKind::LogicalOr),
    (b"|", TokenKind::Or),
];

const XOR_MARKS: [Row; 2] = [(b"^=", TokenKind::XorAssign), (b"^", TokenKind::Xor)];

const ASSIGN_MARKS: [Row; 2] = [(b"==", TokenKind::Equal), (b"=", TokenKind::Assign)];

const NOT_MARKS: [Row; 2] = [(b"!=", TokenKind::NotEqual), (b"!", TokenKind::Not)];

const COLON_MARKS: [Row; 2] = [(b":=", TokenKind::Define), (b":", TokenKind::Colon)];

const TILDE_MARKS: [Row; 1] = [(b"~", TokenKind::Tilde)];

const LPAREN_MARKS: [Row; 1] = [(b"(", TokenKind::LParen)];

const LBRACKET_MARKS: [Row; 1] = [(b"[", TokenKind::LBracket)];

const LBRACE_MARKS: [Row; 1] = [(b"{", TokenKind::LBrace)];

const COMMA_MARKS: [Row; 1] = [(b",", TokenKind::Comma)];

const RPAREN_MARKS: [Row; 1] = [(b")", TokenKind::RParen)];

const RBRACKET_MARKS: [Row; 1] = [(b"]", TokenKind::RBracket)];

const RBRACE_MARKS: [Row; 1] = [(b"}", TokenKind::RBrace)];

const SEMI_MARKS: [Row; 1] = [(b";", TokenKind::Semi)];

// The kind of the word in a table, or `Ident`.
fn kind_among(mut table: &[Row], word: &[u8]) -> TokenKind
    ensures { result ≡ unwrap_or (spec.spelled (map (λ e. (e.0.now, e.1)) table.entry.now) word.now)
        Ident }
{
    while let [entry, rest @ ..] = table {
        if entry.0 == word {
            return entry.1;
        }
        table = rest;
    }
    TokenKind::Ident
}

// The keywords of a length.
fn keywords_of(len: usize) -> &'static [Row]
    ensures { (word : List ℕ) → length word ≡ len
        → spec.spelled (map (λ e. (e.0.now, e.1)) result.now) word
        ≡ spec.spelled spec.keywords word }
{
    match len {
        2 => &OF_TWO,
        3 => &OF_THREE,
        4 => &OF_FOUR,
        5 => &OF_FIVE,
        6 => &OF_SIX,
        7 => &OF_SEVEN,
        8 => &OF_EIGHT,
        9 => &OF_NINE,
        11 => &OF_ELEVEN,
        _ => &[],
    }
}

/// A keyword's kind, or `Ident`.
#[tactic(auto, unfolding(crate::specs::Table::word_kind))]
pub fn word_kind(word: &[u8]) -> TokenKind
    ensures { result ≡ spec.word_kind word.now }
{
    kind_among(keywords_of(word.len()), word)
}

// Whether the bytes begin with a mark.
fn begins_with(bytes: &[u8], mark: &[u8]) -> bool
    ensures { result ≡ starts_with nat_eq bytes.now mark.now }
{
    mark.len() <= bytes.len() && mark == &bytes[..mark.len()]
}

// The first operator of a table that the bytes begin with.
fn first_operator(mut table: &[Row], bytes: &[u8]) -> Piece
    ensures { result ≡ spec.first_operator (map (λ e. (e.0.now, e.1)) table.entry.now) bytes.now }
{
    while let [entry, rest @ ..] = table {
        if begins_with(bytes, entry.0) {
            return Piece::Token {
                kind: entry.1,
                len: entry.0.len(),
            };
        }
        table = rest;
    }
    Piece::Fault {
        kind: ScanKind::BadByte,
        at: 0,
    }
}

// The operators that begin with a byte.
fn operators_from(first: u8) -> &'static [Row]
    ensures { (bytes : List ℕ) → slice_index bytes 0 ≡ first
        → spec.first_operator (map (λ e. (e.0.now, e.1)) result.now) bytes ≡ spec.operator bytes }
{
    match first {
        b'<' => &LESS_MARKS,
        b'>' => &GREATER_MARKS,
        b'&' => &AND_MARKS,
        b'.' => &PERIOD_MARKS,
        b'+' => &ADD_MARKS,
        b'-' => &SUB_MARKS,
        b'*' => &MUL_MARKS,
        b'/' => &DIV_MARKS,
        b'%' => &REM_MARKS,
        b'|' => &OR_MARKS,
        b'^' => &XOR_MARKS,
        b'=' => &ASSIGN_MARKS,
        b'!' => &NOT_MARKS,
        b':' => &COLON_MARKS,
        b'~' => &TILDE_MARKS,
        b'(' => &LPAREN_MARKS,
        b'[' => &LBRACKET_MARKS,
        b'{' => &LBRACE_MARKS,
        b',' => &COMMA_MARKS,
        b')' => &RPAREN_MARKS,
        b']' => &RBRACKET_MARKS,
        b'}' => &RBRACE_MARKS,
        b';' => &SEMI_MARKS,
        _ => &[],
    }
}

/// The longest operator that the bytes begin with.
pub fn operator(bytes: &[u8]) -> Piece
    ensures { result ≡ spec.operator bytes.now }
{
    first_operator(operators_from(byte_at(bytes, 0)), bytes)
}
