//! A cursor over the tokens of a file.

ghost use Rattle.std.specs.Prelude.{◌≡◌, ◌≤◌, ℕ, List, Some, length, take, drop, IfOk, is_some};
ghost use Rattle.std.specs.List.{AllByRecursion};
ghost use Rattle.ui_grammar.specs.Word as word;
ghost use Rattle.ui_scan.specs.Tokens.{Tokens};
ghost use Rattle.ui_parse.specs.Cursor as spec;
ghost use Rattle.ui_parse.specs.Kind as kinds;
ghost use Rattle.ui_parse.specs.Reader as reader;
ghost use Rattle.ui_parse.specs.View.{Reads};

use crate::fault::ParseError;
use crate::literal::Literal;
use std::alloc::Global;
use std::marker::Model;
use ui_base::{NoMemory, Spot, Text};
use ui_scan::{Token, TokenKind, literals_have_values, value_of};
use ui_tree::{LiteralKind, Placed};

/// The tokens that are left to read. Contracts see them as words.
#[derive(Drop)]
pub struct Cursor<'a> {
    bytes: &'a [u8],
    rest: &'a [Token],
}

impl<'a> Model for Cursor<'a> {
    ghost use Rattle.std.specs.Prelude.{List};
    ghost use Rattle.std.specs.List.{AllByRecursion};
    ghost use Rattle.ui_grammar.specs.Word.{Word, words};
    ghost use Rattle.ui_parse.specs.Cursor.{IsReadable};

    ghost Value = { List Word };

    ghost view = { λ c. words c.bytes.now c.rest.now };

    ghost invariant = { λ c. AllByRecursion (IsReadable c.bytes.now) c.rest.now };
}

/// Whether the kinds are the same.
#[tactic(auto, using(crate::proofs::Tags::same_tags))]
pub fn same_kind(a: TokenKind, b: TokenKind) -> bool
    ensures { result ≡ kinds.is_kind a b }
{
    a as u8 == b as u8
}

fn is_mark(kind: TokenKind) -> bool
    ensures { result ≡ spec.is_mark kind }
{
    !matches!(
        kind,
        TokenKind::Ident | TokenKind::Int | TokenKind::Rune | TokenKind::Str
    )
}

fn is_name(kind: TokenKind) -> bool
    ensures { result ≡ spec.is_name kind }
{
    matches!(kind, TokenKind::Ident)
}

fn literal_kind(kind: TokenKind) -> Option<LiteralKind>
    ensures { result ≡ spec.literal_kind kind }
{
    match kind {
        TokenKind::Int => Some(LiteralKind::Whole),
        TokenKind::Rune => Some(LiteralKind::Rune),
        TokenKind::Str => Some(LiteralKind::Text),
        _ => None,
    }
}

fn spot_of(token: &Token) -> Spot
    ensures { result ≡ word.spot_of token.now }
{
    Spot {
        line: token.line,
        col: token.col,
    }
}

// The spot of the token, if it is this keyword or operator.
fn marked(token: &Token, kind: TokenKind) -> Option<Spot>
    ensures { (bytes : List ℕ) → result ≡ reader.marked kind (word.word_of bytes token.now) }
{
    if is_mark(token.kind) && same_kind(token.kind, kind) {
        Some(spot_of(token))
    } else {
        None
    }
}

fn first_marked(tokens: &[Token], kind: TokenKind) -> Option<Spot>
    ensures { (bytes : List ℕ) → result ≡ reader.first (reader.marked kind)
        (word.words bytes tokens.now) }
{
    match tokens {
        [] => None,
        [first, ..] => marked(first, kind),
    }
}

// The name that the token is.
fn named(alloc: Global, bytes: &[u8], token: &Token) -> Result<Option<Placed>, NoMemory>
    requires { spec.IsReadable bytes.now token.now }
    ensures { IfOk result (λ o. o ≡ reader.named (word.word_of bytes.now token.now)) }
{
    if !is_name(token.kind) {
        return Ok(None);
    }
    let text = Text::from_slice(alloc, &bytes[token.start as usize..token.end as usize])?;
    Ok(Some(Placed {
        spot: spot_of(token),
        text,
    }))
}

fn first_named(alloc: Global, bytes: &[u8], tokens: &[Token]) -> Result<Option<Placed>, NoMemory>
    requires { AllByRecursion (spec.IsReadable bytes.now) tokens.now }
    ensures { IfOk result (λ o. o ≡ reader.first reader.named (word.words bytes.now tokens.now)) }
{
    match tokens {
        [] => Ok(None),
        [first, ..] => named(alloc, bytes, first),
    }
}

// The literal that the token is.
fn literal(alloc: Global, bytes: &[u8], token: &Token) -> Result<Option<Literal>, NoMemory>
    requires { spec.IsReadable bytes.now token.now }
    ensures { IfOk result (λ o. o ≡ spec.a_literal (word.word_of bytes.now token.now)) }
{
    let Some(kind) = literal_kind(token.kind) else {
        return Ok(None);
    };
    let value = value_of(alloc, bytes, token)?;
    Ok(Some(Literal {
        kind,
        spot: spot_of(token),
        value,
    }))
}

fn first_literal(alloc: Global, bytes: &[u8], tokens: &[Token]) -> Result<Option<Literal>, NoMemory>
    requires { AllByRecursion (spec.IsReadable bytes.now) tokens.now }
    ensures { IfOk result (λ o. o ≡ reader.first spec.a_literal (word.words bytes.now tokens.now)) }
{
    match tokens {
        [] => Ok(None),
        [first, ..] => literal(alloc, bytes, first),
    }
}

fn first_kind(tokens: &[Token]) -> Option<TokenKind>
    ensures { (bytes : List ℕ) → result ≡ reader.first spec.kind_of (word.words bytes tokens.now) }
{
    match tokens {
        [] => None,
        [first, ..] => Some(first.kind),
    }
}

fn tail(tokens: &[Token]) -> &[Token]
    ensures words { (bytes : List ℕ) → word.words bytes result.now
        ≡ reader.tail (word.words bytes tokens.now) }
    ensures kept { (bytes : List ℕ) → AllByRecursion (spec.IsReadable bytes) tokens.now
        → AllByRecursion (spec.IsReadable bytes) result.now }
{
    match tokens {
        [] => tokens,
        [_, rest @ ..] => rest,
    }
}

// The tokens from a place on.
fn from_place(tokens: &[Token], from: usize) -> &[Token]
    requires { from ≤ length tokens.now }
    ensures { result.now ≡ drop from tokens.now }
{
    &tokens[from..]
}

// The first tokens, so many, or all where there are fewer.
fn first_tokens(tokens: &[Token], count: usize) -> &[Token]
    ensures { result.now ≡ take count tokens.now }
{
    if count < tokens.len() {
        &tokens[..count]
    } else {
        tokens
    }
}

impl<'a> Cursor<'a> {
    /// A cursor at the first of these tokens, which the file of these bytes has.
    pub fn new(bytes: &'a [u8], tokens: &'a [Token]) -> Cursor<'a>
        requires { Tokens bytes.now tokens.now }
        ensures { result ≡ word.words bytes.now tokens.now }
    {
        literals_have_values();
        Cursor {
            bytes,
            rest: tokens,
        }
    }

    /// A cursor at one of these tokens, by its number, or behind the last.
    #[tactic(auto, using(crate::proofs::Readable::drop_words))]
    pub fn at(bytes: &'a [u8], tokens: &'a [Token], from: usize) -> Cursor<'a>
        requires found { Tokens bytes.now tokens.now }
        requires inside { from ≤ length tokens.now }
        ensures { result ≡ drop from (word.words bytes.now tokens.now) }
    {
        literals_have_values();
        Cursor {
            bytes,
            rest: from_place(tokens, from),
        }
    }

    /// A second cursor at the same place.
    pub fn fork(&self) -> Cursor<'a>
        ensures { result ≡ self.now }
    {
        Cursor {
            bytes: self.bytes,
            rest: self.rest,
        }
    }

    /// A second cursor, over the first words alone that are left: so many, or all where there are
    /// fewer.
    #[tactic(auto, using(crate::proofs::Readable::take_words))]
    pub fn front(&self, count: usize) -> Cursor<'a>
        ensures { result ≡ take count self.now }
    {
        Cursor {
            bytes: self.bytes,
            rest: first_tokens(self.rest, count),
        }
    }

    /// How many words are left.
    pub fn left(&self) -> usize
        ensures { result ≡ length self.now }
    {
        self.rest.len()
    }

    /// The kind of the next token.
    pub fn peek(&self) -> Option<TokenKind>
        ensures { result ≡ reader.first spec.kind_of self.now }
    {
        first_kind(self.rest)
    }

    /// Goes past the next word, if one is left.
    pub fn skip(&mut self)
        ensures { self.new ≡ reader.tail self.old }
    {
        self.rest = tail(self.rest);
    }

    /// Takes this keyword or operator, if it comes next.
    pub fn take(&mut self, kind: TokenKind) -> Option<Spot>
        ensures found { result ≡ reader.first (reader.marked kind) self.old }
        ensures left { self.new ≡ spec.after result self.old }
    {
        let found = first_marked(self.rest, kind);
        if found.is_some() {
            self.skip();
        }
        found
    }

    /// Takes a name, if one comes next.
    pub fn take_name(&mut self, alloc: Global) -> Result<Option<Placed>, NoMemory>
        ensures found { IfOk result (λ o. o ≡ reader.first reader.named self.old) }
        ensures left { IfOk result (λ o. self.new ≡ spec.after o self.old) }
    {
        let found = first_named(alloc, self.bytes, self.rest)?;
        if found.is_some() {
            self.skip();
        }
        Ok(found)
    }

    /// Takes a literal, if one comes next.
    pub fn take_literal(&mut self, alloc: Global) -> Result<Option<Literal>, NoMemory>
        ensures found { IfOk result (λ o. o ≡ reader.first spec.a_literal self.old) }
        ensures left { IfOk result (λ o. self.new ≡ spec.after o self.old) }
    {
        let found = first_literal(alloc, self.bytes, self.rest)?;
        if found.is_some() {
            self.skip();
        }
        Ok(found)
    }

    /// Takes this keyword or operator.
    #[tactic(auto, unfolding(crate::specs::Reader::expect, crate::specs::Reader::take_by))]
    pub fn expect(&mut self, kind: TokenKind) -> Result<Spot, ParseError>
        ensures { Reads (λ s. s) (reader.expect kind self.old) result self.new }
    {
        match self.take(kind) {
            Some(spot) => Ok(spot),
            None => Err(ParseError::Fault),
        }
    }

    /// Takes a name.
    #[tactic(auto, unfolding(crate::specs::Reader::expect_name, crate::specs::Reader::take_by))]
    pub fn expect_name(&mut self, alloc: Global) -> Result<Placed, ParseError>
        ensures { Reads (λ p. p) (reader.expect_name self.old) result self.new }
    {
        match self.take_name(alloc)? {
            Some(name) => Ok(name),
            None => Err(ParseError::Fault),
        }
    }
}
