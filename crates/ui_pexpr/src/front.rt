//! The words of a form up to a fault, and what they tell of it.

ghost use Rattle.std.specs.Prelude.{◌≡◌, ◌≤◌, ◌+◌, ℕ, List, IfOk, length, take, drop, reverse};
ghost use Rattle.ui_grammar.specs.Word.{words};
ghost use Rattle.ui_parse.specs.View.{Reads};
ghost use Rattle.ui_scan.specs.Tokens.{Tokens};
ghost use Rattle.ui_ptype.specs.Seen.{see_type};
ghost use Rattle.ui_pexpr.specs.Answers.{told_behind};
ghost use Rattle.ui_pexpr.specs.Back.{back_of};
ghost use Rattle.ui_pexpr.specs.Faults as faults;
ghost use Rattle.ui_pexpr.specs.Faults.{front_of};
ghost use Rattle.ui_pexpr.specs.Forms as spec;

use crate::back::{before_last, ends_in, opening};
use crate::fault::{Form, ParseFault, first_kind, first_offset, form_if, form_of, told};
use std::alloc::{AllocError, Global};
use ui_base::NoMemory;
use ui_parse::{Cursor, ParseError};
use ui_pread::type_of_budget;
use ui_ptype::{TypeSub, name_list};
use ui_scan::{Token, TokenKind};

fn in_struct(bracket: &[Token]) -> bool
    ensures { (bytes : List ℕ) → result ≡ spec.in_struct (back_of bytes bracket.now) }
{
    ends_in(bracket, TokenKind::LBrace) && ends_in(before_last(bracket), TokenKind::Struct)
}

// Names Type
fn field(alloc: Global, words: &mut Cursor<'_>) -> Result<TypeSub, ParseError>
    ensures { Reads see_type (spec.field words.old) result words.new }
{
    name_list(alloc, words)?;
    type_of_budget(alloc, words, 199)
}

#[tactic(auto, using(crate::specs::FormLaws::whole_ok, crate::specs::FormLaws::whole_fault))]
fn is_field(alloc: Global, words: &mut Cursor<'_>) -> Result<bool, NoMemory>
    ensures { IfOk result (λ b. b ≡ spec.is_whole (spec.field words.old)) }
{
    match field(alloc, words) {
        Ok(_) => Ok(words.left() == 0),
        Err(ParseError::Fault) => Ok(false),
        Err(ParseError::NoMemory) => Err(AllocError),
    }
}

/// Tokens of a text, so many from a place on: those of a form before its fault.
#[derive(Clone, Copy)]
pub struct Front<'a> {
    pub bytes: &'a [u8],
    /// All tokens of the text.
    pub tokens: &'a [Token],
    pub from: usize,
    pub count: usize,
    ghost inside: { from + count ≤ length tokens.now },
}

impl<'a> Front<'a> {
    pub fn tokens(&self) -> &'a [Token]
        ensures { result.now ≡ take self.now.count (drop self.now.from self.now.tokens.now) }
    {
        let behind = &self.tokens[self.from..];
        &behind[..self.count]
    }

    /// The tokens behind it.
    pub fn rest(&self) -> &'a [Token]
        ensures { result.now ≡ drop (self.now.from + self.now.count) self.now.tokens.now }
    {
        &self.tokens[self.from + self.count..]
    }

    /// Its words, from one of them on.
    #[tactic(auto, using(crate::proofs::BackWords::between))]
    pub fn words_from(&self, start: usize) -> Cursor<'a>
        requires scanned { Tokens self.now.bytes.now self.now.tokens.now }
        requires inside { start ≤ self.now.count }
        ensures { result ≡ drop start (front_of self.now.bytes.now self.now.tokens.now self.now.from
            self.now.count) }
    {
        Cursor::at(self.bytes, self.tokens, self.from + start).front(self.count - start)
    }

    // Whether it ends with a whole field of a struct that is open.
    fn ends_in_field(&self, alloc: Global) -> Result<bool, NoMemory>
        requires scanned { Tokens self.now.bytes.now self.now.tokens.now }
        ensures { let front = front_of self.now.bytes.now self.now.tokens.now self.now.from
            self.now.count in IfOk result (λ b. b ≡ spec.behind_field front (reverse front)) }
    {
        let tokens = self.tokens();
        if !in_struct(opening(tokens, false)) {
            return Ok(false);
        }
        let start = opening(tokens, true);
        is_field(alloc, &mut self.words_from(start.len()))
    }

    fn tag_by_kind(&self, alloc: Global, kind: TokenKind) -> Result<Option<Form>, NoMemory>
        requires scanned { Tokens self.now.bytes.now self.now.tokens.now }
        ensures { IfOk result (λ f. f ≡ spec.tag_by_kind
            (front_of self.now.bytes.now self.now.tokens.now self.now.from self.now.count) kind) }
    {
        match kind {
            TokenKind::Str => Ok(form_if(self.ends_in_field(alloc)?, Form::Tag)),
            _ => Ok(None),
        }
    }

    /// The form without trees that a token of this kind begins behind it, where no expression or
    /// type goes on with the token.
    ///
    /// # Errors
    ///
    /// Want of memory.
    pub fn form_by_kind(&self, alloc: Global, kind: TokenKind) -> Result<Option<Form>, NoMemory>
        requires scanned { Tokens self.now.bytes.now self.now.tokens.now }
        ensures { IfOk result (λ f. f ≡ spec.form_by_kind
            (front_of self.now.bytes.now self.now.tokens.now self.now.from self.now.count) kind) }
    {
        match form_of(kind) {
            Some(form) => Ok(Some(form)),
            None => self.tag_by_kind(alloc, kind),
        }
    }

    // The form without trees that the token behind it begins, where none goes on with that.
    #[tactic(auto, using(crate::proofs::FrontForms::kind_behind))]
    fn form_behind(&self, alloc: Global) -> Result<Option<Form>, NoMemory>
        requires scanned { Tokens self.now.bytes.now self.now.tokens.now }
        ensures { IfOk result (λ f. f ≡ faults.form_behind spec.form_at
            (drop self.now.from (words self.now.bytes.now self.now.tokens.now)) self.now.count) }
    {
        match first_kind(self.rest()) {
            None => Ok(None),
            Some(kind) => self.form_by_kind(alloc, kind),
        }
    }

    // The fault behind it, where it is known whether a deeper form goes on there.
    pub(crate) fn fault(&self, alloc: Global, deep: bool) -> Result<ParseFault, NoMemory>
        requires scanned { Tokens self.now.bytes.now self.now.tokens.now }
        ensures { IfOk result (λ f. f ≡ told_behind self.now.bytes.now self.now.tokens.now
            self.now.from self.now.count deep) }
    {
        let at = first_offset(self.bytes, self.rest());
        if deep {
            return Ok(ParseFault::TooDeep { at });
        }
        Ok(told(false, self.form_behind(alloc)?, at))
    }
}
