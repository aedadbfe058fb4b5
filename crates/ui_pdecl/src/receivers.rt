//! Receivers. Go specification, "Method declarations".

ghost use Rattle.ui_parse.specs.View.{Reads};
ghost use Rattle.ui_tree.specs.StmtView.{receiver_view};
ghost use Rattle.ui_stmts.specs.Decls as spec;
ghost use Rattle.ui_pdecl.specs.Parts.{receiver_close, receiver_params};

use std::alloc::Global;
use ui_base::Spot;
use ui_parse::{Cursor, ParseError};
use ui_psimple::names;
use ui_scan::TokenKind;
use ui_tree::{Items, Placed, Receiver};

// ")"
fn receiver_close(
    words: &mut Cursor<'_>,
    spot: Spot,
    name: Option<Placed>,
    pointer: bool,
    of: Placed,
    params: Option<Items<Placed>>,
) -> Result<Receiver, ParseError>
    ensures { Reads receiver_view (receiver_close 0 spot name pointer of params words.old) result
        words.new }
{
    match words.expect(TokenKind::RParen) {
        Ok(_) => Ok(Receiver {
            spot,
            name,
            pointer,
            of,
            params,
        }),
        Err(fault) => Err(fault),
    }
}

// "]" ")"
fn receiver_params(
    words: &mut Cursor<'_>,
    spot: Spot,
    name: Option<Placed>,
    pointer: bool,
    of: Placed,
    params: Items<Placed>,
) -> Result<Receiver, ParseError>
    ensures { Reads receiver_view (receiver_params 0 spot name pointer of params words.old) result
        words.new }
{
    match words.expect(TokenKind::RBracket) {
        Ok(_) => receiver_close(words, spot, name, pointer, of, Some(params)),
        Err(fault) => Err(fault),
    }
}

// [ "[" Names "]" ] ")"
#[tactic(auto, unfolding(ui_parse::specs::Reader::take_by))]
fn receiver_end(
    alloc: Global,
    words: &mut Cursor<'_>,
    spot: Spot,
    name: Option<Placed>,
    pointer: bool,
    of: Placed,
) -> Result<Receiver, ParseError>
    ensures { Reads receiver_view (spec.recv_end 0 spot name pointer of words.old) result
        words.new }
{
    match words.take(TokenKind::LBracket) {
        Some(_) => match names(alloc, words) {
            Ok(params) => receiver_params(words, spot, name, pointer, of, params),
            Err(fault) => Err(fault),
        },
        None => receiver_close(words, spot, name, pointer, of, None),
    }
}

// A receiver's type, and what is behind it.
fn receiver_of(
    alloc: Global,
    words: &mut Cursor<'_>,
    spot: Spot,
    name: Option<Placed>,
    pointer: bool,
) -> Result<Receiver, ParseError>
    ensures { Reads receiver_view (spec.recv_of 0 spot name pointer words.old) result words.new }
{
    match words.expect_name(alloc) {
        Ok(of) => receiver_end(alloc, words, spot, name, pointer, of),
        Err(fault) => Err(fault),
    }
}

// Behind a first name: the receiver's, or its type's.
#[tactic(auto, unfolding(ui_parse::specs::Reader::take_by))]
fn receiver_named(
    alloc: Global,
    words: &mut Cursor<'_>,
    spot: Spot,
    first: Placed,
) -> Result<Receiver, ParseError>
    ensures { Reads receiver_view (spec.recv_named 0 spot first words.old) result words.new }
{
    if words.take(TokenKind::Mul).is_some() {
        return receiver_of(alloc, words, spot, Some(first), true);
    }
    match words.take_name(alloc) {
        Ok(Some(of)) => receiver_end(alloc, words, spot, Some(first), false, of),
        Ok(None) => receiver_end(alloc, words, spot, None, false, first),
        Err(_) => Err(ParseError::NoMemory),
    }
}

/// A method's receiver, behind the parenthesis at the spot.
#[tactic(auto, unfolding(ui_stmts::specs::Decls::receiver, ui_parse::specs::Reader::take_by))]
pub(crate) fn receiver(
    alloc: Global,
    words: &mut Cursor<'_>,
    spot: Spot,
) -> Result<Receiver, ParseError>
    ensures { Reads receiver_view (spec.receiver 0 spot words.old) result words.new }
{
    if let Some(first) = words.take_name(alloc)? {
        return receiver_named(alloc, words, spot, first);
    }
    match words.take(TokenKind::Mul) {
        Some(_) => receiver_of(alloc, words, spot, None, true),
        None => Err(ParseError::Fault),
    }
}
