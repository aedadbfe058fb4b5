//! Types. Go specification, "Types".

ghost use Rattle.std.specs.Prelude.{◌≡◌, None};
ghost use Rattle.ui_parse.specs.Reader.{pure};
ghost use Rattle.ui_ptype.specs.Parts.{type_in};
ghost use Rattle.ui_ptype.specs.Seen.{see_type, see_maybe};
ghost use Rattle.ui_parse.specs.View.{Reads};
ghost use Rattle.ui_ptype.specs.Nests.{Nests};
ghost use Rattle.ui_syntax.specs.Read.{readers};
ghost use Rattle.ui_syntax.specs.Types as spec;

use crate::grammar::Grammar;
use crate::nested::{Ask, Got};
use crate::sub::{TypeSub, type_over};
use std::alloc::Global;
use ui_base::Spot;
use ui_parse::{Cursor, ParseError};
use ui_scan::TokenKind;
use ui_syntax::{Site, TypeSite};
use ui_tree::TypeExpr;

impl<F> Grammar<F>
where
    F: Fn(Global, &mut Cursor<'_>, u32, Ask) -> Result<Got, ParseError>,
{
    fn map_type(&self, words: &mut Cursor<'_>, spot: Spot) -> Result<TypeSub, ParseError>
        requires { Nests self.now.room (F.pre self.now.part) (F.post self.now.part) }
        ensures { Reads see_type (spec.map_type self.now.room
            (readers self.now.room) spot words.old) result words.new }
    {
        if let Err(fault) = words.expect(TokenKind::LBracket) {
            return Err(fault);
        }
        let key = match self.a_type(words) {
            Ok(key) => key,
            Err(fault) => return Err(fault),
        };
        if let Err(fault) = words.expect(TokenKind::RBracket) {
            return Err(fault);
        }
        let of = match self.a_type(words) {
            Ok(of) => of,
            Err(fault) => return Err(fault),
        };
        let depth = key.depth.max(of.depth);
        match type_over(
            self.alloc,
            TypeExpr::map(spot, key.tree, of.tree),
            spot,
            depth,
        ) {
            Ok(of) => Ok(of),
            Err(_) => Err(ParseError::NoMemory),
        }
    }

    fn array_type(&self, words: &mut Cursor<'_>, spot: Spot) -> Result<TypeSub, ParseError>
        requires { Nests self.now.room (F.pre self.now.part) (F.post self.now.part) }
        ensures { Reads see_type (spec.array_type self.now.room
            (readers self.now.room) spot words.old) result words.new }
    {
        let len = match self.level_at(words, Site::Plain, 1) {
            Ok(len) => len,
            Err(fault) => return Err(fault),
        };
        if let Err(fault) = words.expect(TokenKind::RBracket) {
            return Err(fault);
        }
        let of = match self.a_type(words) {
            Ok(of) => of,
            Err(fault) => return Err(fault),
        };
        let depth = len.depth.max(of.depth);
        match type_over(
            self.alloc,
            TypeExpr::array(spot, len.tree, of.tree),
            spot,
            depth,
        ) {
            Ok(of) => Ok(of),
            Err(_) => Err(ParseError::NoMemory),
        }
    }

    fn counted_type(
        &self,
        words: &mut Cursor<'_>,
        lower: bool,
        spot: Spot,
    ) -> Result<TypeSub, ParseError>
        requires { Nests self.now.room (F.pre self.now.part) (F.post self.now.part) }
        ensures { Reads see_type (spec.counted_type self.now.room (readers self.now.room)
            (type_in self.now.room (readers self.now.room) lower) spot words.old) result words.new }
    {
        if let Err(fault) = words.expect(TokenKind::RBracket) {
            return Err(fault);
        }
        let of = match self.type_in(words, lower) {
            Ok(of) => of,
            Err(fault) => return Err(fault),
        };
        let depth = of.depth;
        match type_over(self.alloc, TypeExpr::counted(spot, of.tree), spot, depth) {
            Ok(of) => Ok(of),
            Err(_) => Err(ParseError::NoMemory),
        }
    }

    // [...]T has a literal behind it, for which there has to be room.
    #[tactic(auto, unfolding(ui_parse::specs::Reader::take_by))]
    fn counted_or_array(
        &self,
        words: &mut Cursor<'_>,
        site: TypeSite,
        spot: Spot,
    ) -> Result<TypeSub, ParseError>
        requires { Nests self.now.room (F.pre self.now.part) (F.post self.now.part) }
        ensures { Reads see_type (spec.counted_or_array self.now.room
            (readers self.now.room) site spot words.old) result words.new }
    {
        let lower = match site {
            TypeSite::Plain | TypeSite::Element => return self.array_type(words, spot),
            TypeSite::Operand => false,
            TypeSite::Argument => true,
        };
        if (!lower || self.room >= 2) && words.take(TokenKind::Ellipsis).is_some() {
            return self.counted_type(words, lower, spot);
        }
        self.array_type(words, spot)
    }

    /// A slice or an array, behind its bracket.
    #[tactic(auto, unfolding(ui_syntax::specs::Types::bracket_type, ui_parse::specs::Reader::take_by))]
    pub fn bracket_type(
        &self,
        words: &mut Cursor<'_>,
        site: TypeSite,
        spot: Spot,
    ) -> Result<TypeSub, ParseError>
        requires { Nests self.now.room (F.pre self.now.part) (F.post self.now.part) }
        ensures { Reads see_type (spec.bracket_type self.now.room
            (readers self.now.room) site spot words.old) result words.new }
    {
        if words.take(TokenKind::RBracket).is_none() {
            return self.counted_or_array(words, site, spot);
        }
        let of = match self.a_type(words) {
            Ok(of) => of,
            Err(fault) => return Err(fault),
        };
        let depth = of.depth;
        match type_over(self.alloc, TypeExpr::slice(spot, of.tree), spot, depth) {
            Ok(of) => Ok(of),
            Err(_) => Err(ParseError::NoMemory),
        }
    }

    #[tactic(auto, unfolding(ui_parse::specs::Reader::take_by))]
    fn deep_type(
        &self,
        words: &mut Cursor<'_>,
        site: TypeSite,
    ) -> Result<Option<TypeSub>, ParseError>
        requires { Nests self.now.room (F.pre self.now.part) (F.post self.now.part) }
        ensures { Reads see_maybe (spec.deep_type self.now.room (readers self.now.room) site
            (pure None) words.old) result words.new }
    {
        if self.room == 0 {
            return Ok(None);
        }
        if let Some(spot) = words.take(TokenKind::LBracket) {
            return match self.bracket_type(words, site, spot) {
                Ok(of) => Ok(Some(of)),
                Err(fault) => Err(fault),
            };
        }
        match words.take(TokenKind::Map) {
            Some(spot) => match self.map_type(words, spot) {
                Ok(of) => Ok(Some(of)),
                Err(fault) => Err(fault),
            },
            None => Ok(None),
        }
    }

    // Types that no expression begins with.
    #[tactic(auto, unfolding(ui_syntax::specs::Types::operand_type, ui_parse::specs::Reader::take_by))]
    pub(crate) fn operand_type(
        &self,
        words: &mut Cursor<'_>,
        site: TypeSite,
    ) -> Result<Option<TypeSub>, ParseError>
        requires { Nests self.now.room (F.pre self.now.part) (F.post self.now.part) }
        ensures { Reads see_maybe (spec.operand_type self.now.room (readers self.now.room) site
            (pure None) words.old) result words.new }
    {
        if let Some(spot) = words.take(TokenKind::Func) {
            return match self.func_type(words, spot) {
                Ok(of) => Ok(Some(of)),
                Err(fault) => Err(fault),
            };
        }
        if let Some(spot) = words.take(TokenKind::Struct) {
            return match self.struct_type(words, spot) {
                Ok(of) => Ok(Some(of)),
                Err(fault) => Err(fault),
            };
        }
        match words.take(TokenKind::Interface) {
            Some(spot) => match self.interface_type(words, spot) {
                Ok(of) => Ok(Some(of)),
                Err(fault) => Err(fault),
            },
            None => self.deep_type(words, site),
        }
    }

    fn pointer_type(&self, words: &mut Cursor<'_>, spot: Spot) -> Result<TypeSub, ParseError>
        requires { Nests self.now.room (F.pre self.now.part) (F.post self.now.part) }
        ensures { Reads see_type (spec.pointer_type self.now.room
            (readers self.now.room) spot words.old) result words.new }
    {
        let of = match self.a_type(words) {
            Ok(of) => of,
            Err(fault) => return Err(fault),
        };
        let depth = of.depth;
        match type_over(self.alloc, TypeExpr::pointer(spot, of.tree), spot, depth) {
            Ok(of) => Ok(of),
            Err(_) => Err(ParseError::NoMemory),
        }
    }

    fn parenthesized_type(&self, words: &mut Cursor<'_>, spot: Spot) -> Result<TypeSub, ParseError>
        requires { Nests self.now.room (F.pre self.now.part) (F.post self.now.part) }
        ensures { Reads see_type (spec.parenthesized_type self.now.room
            (readers self.now.room) spot words.old) result words.new }
    {
        let of = match self.a_type(words) {
            Ok(of) => of,
            Err(fault) => return Err(fault),
        };
        if let Err(fault) = words.expect(TokenKind::RParen) {
            return Err(fault);
        }
        let depth = of.depth;
        match type_over(
            self.alloc,
            TypeExpr::parenthesized(spot, of.tree),
            spot,
            depth,
        ) {
            Ok(of) => Ok(of),
            Err(_) => Err(ParseError::NoMemory),
        }
    }

    #[tactic(auto, unfolding(ui_parse::specs::Reader::take_by))]
    fn marked_type(&self, words: &mut Cursor<'_>) -> Result<Option<TypeSub>, ParseError>
        requires { Nests self.now.room (F.pre self.now.part) (F.post self.now.part) }
        ensures { Reads see_maybe (spec.marked_type self.now.room (readers self.now.room) words.old)
            result words.new }
    {
        if self.room == 0 {
            return Ok(None);
        }
        if let Some(spot) = words.take(TokenKind::Mul) {
            return match self.pointer_type(words, spot) {
                Ok(of) => Ok(Some(of)),
                Err(fault) => Err(fault),
            };
        }
        match words.take(TokenKind::LParen) {
            Some(spot) => match self.parenthesized_type(words, spot) {
                Ok(of) => Ok(Some(of)),
                Err(fault) => Err(fault),
            },
            None => Ok(None),
        }
    }

    // A type without a name.
    #[tactic(auto, using(crate::proofs::CodeReaders::reads_other))]
    pub(crate) fn other_type(&self, words: &mut Cursor<'_>) -> Result<Option<TypeSub>, ParseError>
        requires { Nests self.now.room (F.pre self.now.part) (F.post self.now.part) }
        ensures { Reads see_maybe (spec.other_type self.now.room (readers self.now.room) words.old)
            result words.new }
    {
        match self.operand_type(words, TypeSite::Plain) {
            Ok(Some(of)) => Ok(Some(of)),
            Ok(None) => self.marked_type(words),
            Err(fault) => Err(fault),
        }
    }

    /// A type, where one begins.
    #[tactic(auto, unfolding(ui_syntax::specs::Types::plain_type, ui_parse::specs::Reader::take_by))]
    pub fn plain_type(&self, words: &mut Cursor<'_>) -> Result<Option<TypeSub>, ParseError>
        requires { Nests self.now.room (F.pre self.now.part) (F.post self.now.part) }
        ensures { Reads see_maybe (spec.plain_type self.now.room (readers self.now.room) words.old)
            result words.new }
    {
        match words.take_name(self.alloc) {
            Ok(Some(name)) => match self.named_type(words, name) {
                Ok(of) => Ok(Some(of)),
                Err(fault) => Err(fault),
            },
            Ok(None) => self.other_type(words),
            Err(_) => Err(ParseError::NoMemory),
        }
    }

    /// A type as its site takes one, where one begins.
    #[tactic(auto, unfolding(ui_syntax::specs::Types::maybe_type))]
    pub fn own_type(
        &self,
        words: &mut Cursor<'_>,
        site: TypeSite,
    ) -> Result<Option<TypeSub>, ParseError>
        requires { Nests self.now.room (F.pre self.now.part) (F.post self.now.part) }
        ensures { Reads see_maybe (spec.maybe_type self.now.room
            (readers self.now.room) site words.old) result words.new }
    {
        match site {
            TypeSite::Plain => self.plain_type(words),
            TypeSite::Element => self.element(words),
            TypeSite::Operand | TypeSite::Argument => self.operand_type(words, site),
        }
    }
}
