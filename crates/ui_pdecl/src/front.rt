//! What the words of a file up to a fault tell of it.

ghost use Rattle.std.specs.Prelude.{◌≡◌, ◌≤◌, ◌<◌, ◌^◌, ℕ, List, IfOk, length, drop, reverse};
ghost use Rattle.ui_grammar.specs.Word.{words};
ghost use Rattle.ui_scan.specs.Tokens.{Tokens};
ghost use Rattle.ui_stmts.specs.Decls.{type_params_apart};
ghost use Rattle.ui_pexpr.specs.Back.{back_of};
ghost use Rattle.ui_pexpr.specs.Faults.{front_of};
ghost use Rattle.ui_pexpr.specs.Forms.{is_whole};
ghost use Rattle.ui_pdecl.specs.FileResult as results;
ghost use Rattle.ui_pdecl.specs.Forms as spec;

use crate::files::whole_file;
use crate::type_params::type_params_apart;
use std::alloc::{AllocError, Global};
use ui_base::NoMemory;
use ui_parse::{Cursor, ParseError};
use ui_pexpr::{
    Form, Front, ParseFault, before_last, ends_in, first_kind, first_offset, form_if, opening, told,
};
use ui_scan::{Token, TokenKind};

// Whether a specification begins behind these tokens: right behind this keyword, or in its
// parentheses.
fn begins_spec(front: &[Token], keyword: TokenKind) -> bool
    ensures { (bytes : List ℕ) → result ≡ spec.begins_spec keyword (back_of bytes front.now) }
{
    if ends_in(front, keyword) {
        return true;
    }
    if !ends_in(front, TokenKind::LParen) && !ends_in(front, TokenKind::Semi) {
        return false;
    }
    let bracket = opening(front, false);
    ends_in(bracket, TokenKind::LParen) && ends_in(before_last(bracket), keyword)
}

// A type's name and a bracket.
fn opens_params(bracket: &[Token]) -> bool
    ensures { (bytes : List ℕ) → result ≡ spec.opens_params (back_of bytes bracket.now) }
{
    let name = before_last(bracket);
    ends_in(bracket, TokenKind::LBracket)
        && ends_in(name, TokenKind::Ident)
        && begins_spec(before_last(name), TokenKind::Type)
}

#[tactic(auto, using(ui_pexpr::specs::FormLaws::whole_ok, ui_pexpr::specs::FormLaws::whole_fault))]
fn are_params(alloc: Global, words: &mut Cursor<'_>) -> Result<bool, NoMemory>
    ensures { IfOk result (λ b. b ≡ is_whole (type_params_apart 199 words.old)) }
{
    match type_params_apart(alloc, words, 199) {
        Ok(_) => Ok(words.left() == 0),
        Err(ParseError::Fault) => Ok(false),
        Err(ParseError::NoMemory) => Err(AllocError),
    }
}

// Whether it ends with the parameters of a type specification, and their bracket.
fn ends_in_params(alloc: Global, front: &Front<'_>) -> Result<bool, NoMemory>
    requires scanned { Tokens front.now.bytes.now front.now.tokens.now }
    ensures { let ws = front_of front.now.bytes.now front.now.tokens.now front.now.from
        front.now.count in IfOk result (λ b. b ≡ spec.behind_params ws (reverse ws)) }
{
    let tokens = front.tokens();
    if !ends_in(tokens, TokenKind::RBracket) {
        return Ok(false);
    }
    let bracket = opening(before_last(tokens), false);
    if !opens_params(bracket) {
        return Ok(false);
    }
    are_params(alloc, &mut front.words_from(bracket.len()))
}

fn file_form(alloc: Global, front: &Front<'_>, kind: TokenKind) -> Result<Option<Form>, NoMemory>
    requires scanned { Tokens front.now.bytes.now front.now.tokens.now }
    ensures { let ws = front_of front.now.bytes.now front.now.tokens.now front.now.from
        front.now.count in IfOk result (λ f. f ≡ spec.file_form ws (reverse ws) kind) }
{
    match kind {
        TokenKind::Period => {
            let named = begins_spec(front.tokens(), TokenKind::Import);
            Ok(form_if(named, Form::DotImport))
        }
        TokenKind::Assign => Ok(form_if(ends_in_params(alloc, front)?, Form::GenericAlias)),
        _ => Ok(None),
    }
}

// The form without trees that a token of this kind begins behind it, where no file goes on with the
// token.
fn form_by_kind(alloc: Global, front: &Front<'_>, kind: TokenKind) -> Result<Option<Form>, NoMemory>
    requires scanned { Tokens front.now.bytes.now front.now.tokens.now }
    ensures { IfOk result (λ f. f ≡ spec.form_by_kind
        (front_of front.now.bytes.now front.now.tokens.now front.now.from front.now.count) kind) }
{
    match front.form_by_kind(alloc, kind)? {
        Some(form) => Ok(Some(form)),
        None => file_form(alloc, front, kind),
    }
}

// Whether a file with more levels goes on with the word behind it.
#[tactic(auto, using(crate::proofs::Readings::farther_ok, crate::proofs::Readings::farther_fault))]
fn reads_farther(alloc: Global, front: &Front<'_>) -> Result<bool, NoMemory>
    requires scanned { Tokens front.now.bytes.now front.now.tokens.now }
    requires room { front.now.count < 2 ^ 28 }
    ensures { IfOk result (λ b. b ≡ results.reads_farther
        (drop front.now.from (words front.now.bytes.now front.now.tokens.now)) front.now.count) }
{
    let count = front.count + 1;
    let mut words = Cursor::at(front.bytes, front.tokens, front.from).front(count);
    let room = 199 + 8 * count as u32 + 16;
    match whole_file(alloc, &mut words, room) {
        Ok(_) => Ok(words.left() == 0),
        Err(ParseError::Fault) => Ok(words.left() == 0),
        Err(ParseError::NoMemory) => Err(AllocError),
    }
}

// The fault behind it, where a token of this kind begins at the place, or where none is left.
fn fault_at(
    alloc: Global,
    front: &Front<'_>,
    kind: Option<TokenKind>,
    at: usize,
) -> Result<ParseFault, NoMemory>
    requires scanned { Tokens front.now.bytes.now front.now.tokens.now }
    requires room { front.now.count < 2 ^ 28 }
    ensures { IfOk result (λ f. f ≡ results.told_at
        (drop front.now.from (words front.now.bytes.now front.now.tokens.now)) front.now.count kind
        at) }
{
    let Some(kind) = kind else {
        return Ok(ParseFault::Unexpected { at });
    };
    if reads_farther(alloc, front)? {
        return Ok(ParseFault::TooDeep { at });
    }
    Ok(told(false, form_by_kind(alloc, front, kind)?, at))
}

/// The fault of a file behind its first so many words, where no file goes on.
pub(crate) fn fault_behind(
    alloc: Global,
    bytes: &[u8],
    tokens: &[Token],
    count: usize,
) -> Result<ParseFault, NoMemory>
    requires scanned { Tokens bytes.now tokens.now }
    requires inside { count ≤ length tokens.now }
    requires room { count < 2 ^ 28 }
    ensures { IfOk result (λ f. f ≡ results.fault_behind bytes.now tokens.now count) }
{
    let front = Front {
        bytes,
        tokens,
        from: 0,
        count,
    };
    let rest = front.rest();
    fault_at(alloc, &front, first_kind(rest), first_offset(bytes, rest))
}
