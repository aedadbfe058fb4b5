//! Terms, unions and elements of interfaces. Go specification, "Interface types".

ghost use Rattle.std.specs.Prelude.{◌≡◌};
ghost use Rattle.ui_parse.specs.Reader as reader;
ghost use Rattle.ui_scan.specs.declared.kind.TokenKind.TheVariants.{Or};
ghost use Rattle.ui_ptype.specs.Parts.{own_plain, tilde_type, named_element};
ghost use Rattle.ui_ptype.specs.Seen.{see_type, see_maybe, see_types};
ghost use Rattle.ui_parse.specs.View.{Reads};
ghost use Rattle.ui_ptype.specs.Nests.{Nests};
ghost use Rattle.ui_syntax.specs.Read.{readers};
ghost use Rattle.ui_syntax.specs.Types as spec;

use crate::grammar::Grammar;
use crate::nested::{Ask, Got};
use crate::sub::{TypeSub, TypeSubs, type_sub};
use std::alloc::Global;
use ui_base::Spot;
use ui_parse::{Cursor, ParseError, chain};
use ui_scan::TokenKind;
use ui_tree::{Placed, TypeExpr};

impl<F> Grammar<F>
where
    F: Fn(Global, &mut Cursor<'_>, u32, Ask) -> Result<Got, ParseError>,
{
    fn own_plain(&self, words: &mut Cursor<'_>) -> Result<TypeSub, ParseError>
        requires { Nests self.now.room (F.pre self.now.part) (F.post self.now.part) }
        ensures { Reads see_type (own_plain self.now.room (readers self.now.room) words.old) result
            words.new }
    {
        match self.plain_type(words) {
            Ok(Some(of)) => Ok(of),
            Ok(None) => Err(ParseError::Fault),
            Err(fault) => Err(fault),
        }
    }

    /// A term's type, behind "~".
    pub fn tilde(&self, words: &mut Cursor<'_>, spot: Spot) -> Result<TypeSub, ParseError>
        requires { Nests self.now.room (F.pre self.now.part) (F.post self.now.part) }
        ensures { Reads see_type (tilde_type self.now.room (readers self.now.room) spot words.old)
            result words.new }
    {
        let of = match self.own_plain(words) {
            Ok(of) => of,
            Err(fault) => return Err(fault),
        };
        let depth = of.depth;
        match type_sub(self.alloc, TypeExpr::tilde(spot, of.tree), spot, depth) {
            Ok(of) => Ok(of),
            Err(_) => Err(ParseError::NoMemory),
        }
    }

    // [ "~" ] Type
    #[tactic(auto, unfolding(ui_syntax::specs::Types::term, ui_parse::specs::Reader::take_by))]
    fn term(&self, words: &mut Cursor<'_>) -> Result<TypeSub, ParseError>
        requires { Nests self.now.room (F.pre self.now.part) (F.post self.now.part) }
        ensures { Reads see_type (spec.term self.now.room (readers self.now.room) words.old) result
            words.new }
    {
        match words.take(TokenKind::Tilde) {
            Some(spot) => self.tilde(words, spot),
            None => self.own_plain(words),
        }
    }

    fn one_more_term(&self, words: &mut Cursor<'_>, terms: TypeSubs) -> Result<TypeSubs, ParseError>
        requires { Nests self.now.room (F.pre self.now.part) (F.post self.now.part) }
        ensures { Reads see_types (spec.one_more (spec.term self.now.room (readers self.now.room))
            (see_types terms) words.old) result words.new }
    {
        let next = match self.term(words) {
            Ok(next) => next,
            Err(fault) => return Err(fault),
        };
        match terms.add(next) {
            Ok(terms) => Ok(terms),
            Err(_) => Err(ParseError::NoMemory),
        }
    }

    fn more_terms(&self, words: &mut Cursor<'_>, first: TypeSub) -> Result<TypeSubs, ParseError>
        requires { Nests self.now.room (F.pre self.now.part) (F.post self.now.part) }
        ensures { Reads see_types (reader.chain Or
            (spec.one_more (spec.term self.now.room (readers self.now.room)))
            (spec.only (see_type first).tree first.depth) words.old) result words.new }
    {
        let terms = match TypeSubs::only(self.alloc, first) {
            Ok(terms) => terms,
            Err(_) => return Err(ParseError::NoMemory),
        };
        chain(
            words,
            TokenKind::Or,
            terms,
            &|words: &mut Cursor<'_>, terms| self.one_more_term(words, terms),
        )
    }

    /// { "|" Term } behind a first term, as the union of them.
    #[tactic(auto, unfolding(ui_syntax::specs::Types::union_from))]
    pub fn union_from(
        &self,
        words: &mut Cursor<'_>,
        first: TypeSub,
    ) -> Result<Option<TypeSub>, ParseError>
        requires { Nests self.now.room (F.pre self.now.part) (F.post self.now.part) }
        ensures { Reads see_maybe (spec.union_from self.now.room (readers self.now.room)
            (see_type first) words.old) result words.new }
    {
        let spot = first.spot;
        let TypeSubs { items, depth } = match self.more_terms(words, first) {
            Ok(terms) => terms,
            Err(fault) => return Err(fault),
        };
        match type_sub(self.alloc, TypeExpr::union(spot, items), spot, depth) {
            Ok(of) => Ok(Some(of)),
            Err(_) => Err(ParseError::NoMemory),
        }
    }

    // Behind a name: Sig, or the rest of a term and more terms.
    #[tactic(auto, unfolding(ui_parse::specs::Reader::take_by))]
    fn named_element(
        &self,
        words: &mut Cursor<'_>,
        name: Placed,
    ) -> Result<Option<TypeSub>, ParseError>
        requires { Nests self.now.room (F.pre self.now.part) (F.post self.now.part) }
        ensures { Reads see_maybe (named_element self.now.room
            (readers self.now.room) name words.old) result words.new }
    {
        if words.take(TokenKind::LParen).is_some() {
            return match self.method(words, name) {
                Ok(of) => Ok(Some(of)),
                Err(fault) => Err(fault),
            };
        }
        let first = match self.named_type(words, name) {
            Ok(first) => first,
            Err(fault) => return Err(fault),
        };
        self.union_from(words, first)
    }

    // name Sig | Term { "|" Term }
    #[tactic(auto, unfolding(ui_syntax::specs::Types::element, ui_parse::specs::Reader::take_by))]
    pub(crate) fn element(&self, words: &mut Cursor<'_>) -> Result<Option<TypeSub>, ParseError>
        requires { Nests self.now.room (F.pre self.now.part) (F.post self.now.part) }
        ensures { Reads see_maybe (spec.element self.now.room (readers self.now.room) words.old)
            result words.new }
    {
        match words.take_name(self.alloc) {
            Ok(Some(name)) => return self.named_element(words, name),
            Ok(None) => {}
            Err(_) => return Err(ParseError::NoMemory),
        }
        if let Some(spot) = words.take(TokenKind::Tilde) {
            let first = match self.tilde(words, spot) {
                Ok(first) => first,
                Err(fault) => return Err(fault),
            };
            return self.union_from(words, first);
        }
        match self.other_type(words) {
            Ok(Some(first)) => self.union_from(words, first),
            Ok(None) => Ok(None),
            Err(fault) => Err(fault),
        }
    }
}
