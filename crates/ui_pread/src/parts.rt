//! Types, signatures and their parts, for the crates above. Go specification, "Types".

ghost use Rattle.std.specs.Prelude.{◌≡◌};
ghost use Rattle.ui_parse.specs.View.{Reads};
ghost use Rattle.ui_ptype.specs.Parts.{tilde_type};
ghost use Rattle.ui_ptype.specs.Seen.{see, see_type, see_maybe, see_groups, see_results};
ghost use Rattle.ui_syntax.specs.Read.{readers, expr, type as the_type, sig as the_sig};
ghost use Rattle.ui_syntax.specs.Types as spec;

use crate::knot::{level, maybe_type, part};
use crate::sites::place_of;
use std::alloc::Global;
use ui_base::Spot;
use ui_parse::{Cursor, ParseError};
use ui_ptype::{Grammar, Groups, Sub, TypeSub};
use ui_scan::TokenKind;
use ui_syntax::TypeSite;

/// An expression within the budget.
pub fn expr_of_budget(
    alloc: Global,
    words: &mut Cursor<'_>,
    budget: u32,
    header: bool,
) -> Result<Sub, ParseError>
    ensures { Reads see (expr budget header words.old) result words.new }
{
    level(alloc, words, budget, place_of(header), 1)
}

/// A type within the budget.
pub fn type_of_budget(
    alloc: Global,
    words: &mut Cursor<'_>,
    budget: u32,
) -> Result<TypeSub, ParseError>
    ensures { Reads see_type (the_type budget words.old) result words.new }
{
    match maybe_type(alloc, words, budget, TypeSite::Plain)? {
        Some(of) => Ok(of),
        None => Err(ParseError::Fault),
    }
}

/// A signature within the budget, as the func type that its tree is.
pub fn sig(alloc: Global, words: &mut Cursor<'_>, budget: u32) -> Result<TypeSub, ParseError>
    ensures { Reads see_type (the_sig budget words.old) result words.new }
{
    if budget == 0 {
        return Err(ParseError::Fault);
    }
    let spot = words.expect(TokenKind::LParen)?;
    Grammar {
        alloc,
        room: budget - 1,
        part,
    }
    .sig_type(words, spot)
}

/// The parameters of a signature whose parts have so much room, behind the parenthesis, in groups
/// with one type.
pub fn params(alloc: Global, words: &mut Cursor<'_>, room: u32) -> Result<Groups, ParseError>
    ensures { Reads see_groups (spec.params room (readers room) words.old) result words.new }
{
    Grammar { alloc, room, part }.params(words)
}

/// The results of a signature whose parts have so much room: a type or a list of results, or none.
pub fn results(
    alloc: Global,
    words: &mut Cursor<'_>,
    room: u32,
) -> Result<Option<TypeSub>, ParseError>
    ensures { Reads (see_results room (readers room)) (spec.results room (readers room) words.old)
        result words.new }
{
    Grammar { alloc, room, part }.results(words)
}

/// A slice or an array, behind its bracket.
pub fn bracket_type(
    alloc: Global,
    words: &mut Cursor<'_>,
    room: u32,
    site: TypeSite,
    spot: Spot,
) -> Result<TypeSub, ParseError>
    ensures { Reads see_type (spec.bracket_type room (readers room) site spot words.old) result
        words.new }
{
    Grammar { alloc, room, part }.bracket_type(words, site, spot)
}

/// A type, where one begins, as the parts of bounds are read.
pub fn plain_type(
    alloc: Global,
    words: &mut Cursor<'_>,
    room: u32,
) -> Result<Option<TypeSub>, ParseError>
    ensures { Reads see_maybe (spec.plain_type room (readers room) words.old) result words.new }
{
    Grammar { alloc, room, part }.plain_type(words)
}

/// The terms of a union, behind its first one, as the union of them.
pub fn union_from(
    alloc: Global,
    words: &mut Cursor<'_>,
    room: u32,
    first: TypeSub,
) -> Result<Option<TypeSub>, ParseError>
    ensures { Reads see_maybe (spec.union_from room (readers room) (see_type first) words.old)
        result words.new }
{
    Grammar { alloc, room, part }.union_from(words, first)
}

/// The type of a term, behind "~".
pub fn tilde(
    alloc: Global,
    words: &mut Cursor<'_>,
    room: u32,
    spot: Spot,
) -> Result<TypeSub, ParseError>
    ensures { Reads see_type (tilde_type room (readers room) spot words.old) result words.new }
{
    Grammar { alloc, room, part }.tilde(words, spot)
}
