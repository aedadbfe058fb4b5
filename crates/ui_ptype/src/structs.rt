//! Structs and interfaces, behind the keyword. Go specification, "Struct types" and "Interface
//! types".

ghost use Rattle.std.specs.Prelude.{◌≡◌};
ghost use Rattle.ui_parse.specs.Names as the_names;
ghost use Rattle.ui_parse.specs.Reader as reader;
ghost use Rattle.ui_scan.specs.declared.kind.TokenKind.TheVariants.{Semi, RBrace};
ghost use Rattle.ui_ptype.specs.Seen.{see_type, see_types, see_groups};
ghost use Rattle.ui_parse.specs.View.{Reads};
ghost use Rattle.ui_ptype.specs.Nests.{Nests};
ghost use Rattle.ui_syntax.specs.Read.{readers};
ghost use Rattle.ui_syntax.specs.Types as spec;

use crate::grammar::Grammar;
use crate::nested::{Ask, Got};
use crate::sub::{Groups, TypeSub, TypeSubs, type_over};
use std::alloc::Global;
use ui_base::Spot;
use ui_parse::{Cursor, ParseError, more_names, parts};
use ui_scan::TokenKind;
use ui_tree::{Items, Placed, TypeExpr};

/// Names with commas between.
pub fn name_list(alloc: Global, words: &mut Cursor<'_>) -> Result<Items<Placed>, ParseError>
    ensures { Reads (λ ns. ns) (the_names.names words.old) result words.new }
{
    let first = match words.expect_name(alloc) {
        Ok(first) => first,
        Err(fault) => return Err(fault),
    };
    let mut names = Items::new(alloc);
    names.push(first)?;
    more_names(alloc, words, names)
}

impl<F> Grammar<F>
where
    F: Fn(Global, &mut Cursor<'_>, u32, Ask) -> Result<Got, ParseError>,
{
    // Names Type
    #[tactic(auto, unfolding(ui_syntax::specs::Types::field))]
    fn field(&self, words: &mut Cursor<'_>, fields: Groups) -> Result<Groups, ParseError>
        requires { Nests self.now.room (F.pre self.now.part) (F.post self.now.part) }
        ensures { Reads see_groups (spec.field self.now.room (readers self.now.room)
            (see_groups fields) words.old) result words.new }
    {
        if self.room == 0 {
            return Err(ParseError::Fault);
        }
        let names = match name_list(self.alloc, words) {
            Ok(names) => names,
            Err(fault) => return Err(fault),
        };
        let of = match self.a_type(words) {
            Ok(of) => of,
            Err(fault) => return Err(fault),
        };
        match fields.add(names, of) {
            Ok(fields) => Ok(fields),
            Err(_) => Err(ParseError::NoMemory),
        }
    }

    fn field_list(&self, words: &mut Cursor<'_>) -> Result<Groups, ParseError>
        requires { Nests self.now.room (F.pre self.now.part) (F.post self.now.part) }
        ensures { Reads see_groups (reader.parts Semi RBrace spec.any_end
            (spec.field self.now.room (readers self.now.room)) spec.empty words.old) result
            words.new }
    {
        let fields = Groups::new(self.alloc);
        parts(
            words,
            TokenKind::Semi,
            TokenKind::RBrace,
            fields,
            &|words: &mut Cursor<'_>, fields| self.field(words, fields),
        )
    }

    #[tactic(auto, unfolding(ui_syntax::specs::Types::struct_type))]
    pub(crate) fn struct_type(
        &self,
        words: &mut Cursor<'_>,
        spot: Spot,
    ) -> Result<TypeSub, ParseError>
        requires { Nests self.now.room (F.pre self.now.part) (F.post self.now.part) }
        ensures { Reads see_type (spec.struct_type self.now.room
            (readers self.now.room) spot words.old) result words.new }
    {
        words.expect(TokenKind::LBrace)?;
        let Groups { items, depth } = match self.field_list(words) {
            Ok(fields) => fields,
            Err(fault) => return Err(fault),
        };
        match type_over(self.alloc, TypeExpr::structure(spot, items), spot, depth) {
            Ok(of) => Ok(of),
            Err(_) => Err(ParseError::NoMemory),
        }
    }

    fn one_more_element(
        &self,
        words: &mut Cursor<'_>,
        elems: TypeSubs,
    ) -> Result<TypeSubs, ParseError>
        requires { Nests self.now.room (F.pre self.now.part) (F.post self.now.part) }
        ensures { Reads see_types (spec.one_more
            (spec.an_element self.now.room (readers self.now.room)) (see_types elems) words.old)
            result words.new }
    {
        let next = match self.an_element(words) {
            Ok(next) => next,
            Err(fault) => return Err(fault),
        };
        match elems.add(next) {
            Ok(elems) => Ok(elems),
            Err(_) => Err(ParseError::NoMemory),
        }
    }

    fn element_list(&self, words: &mut Cursor<'_>) -> Result<TypeSubs, ParseError>
        requires { Nests self.now.room (F.pre self.now.part) (F.post self.now.part) }
        ensures { Reads see_types (reader.parts Semi RBrace spec.any_end
            (spec.one_more (spec.an_element self.now.room (readers self.now.room))) spec.empty
            words.old) result words.new }
    {
        let elems = TypeSubs::new(self.alloc);
        parts(
            words,
            TokenKind::Semi,
            TokenKind::RBrace,
            elems,
            &|words: &mut Cursor<'_>, elems| self.one_more_element(words, elems),
        )
    }

    #[tactic(auto, unfolding(ui_syntax::specs::Types::interface_type))]
    pub(crate) fn interface_type(
        &self,
        words: &mut Cursor<'_>,
        spot: Spot,
    ) -> Result<TypeSub, ParseError>
        requires { Nests self.now.room (F.pre self.now.part) (F.post self.now.part) }
        ensures { Reads see_type (spec.interface_type self.now.room
            (readers self.now.room) spot words.old) result words.new }
    {
        words.expect(TokenKind::LBrace)?;
        let TypeSubs { items, depth } = match self.element_list(words) {
            Ok(elems) => elems,
            Err(fault) => return Err(fault),
        };
        match type_over(self.alloc, TypeExpr::interface(spot, items), spot, depth) {
            Ok(of) => Ok(of),
            Err(_) => Err(ParseError::NoMemory),
        }
    }
}
