//! The entries of lists of parameters. Go specification, "Function types".

ghost use Rattle.std.specs.Prelude.{◌≡◌};
ghost use Rattle.ui_parse.specs.Reader as reader;
ghost use Rattle.ui_scan.specs.declared.kind.TokenKind.TheVariants.{Comma, RParen};
ghost use Rattle.ui_syntax.specs.Cover.{as_type, only_type};
ghost use Rattle.ui_ptype.specs.Parts.{covered};
ghost use Rattle.ui_ptype.specs.Seen.{see, see_type, see_params, see_groups};
ghost use Rattle.ui_parse.specs.View.{Reads};
ghost use Rattle.ui_ptype.specs.Nests.{Nests};
ghost use Rattle.ui_syntax.specs.Read.{readers};
ghost use Rattle.ui_syntax.specs.Types as spec;

use crate::cover::{into_type, is_type, is_type_alone};
use crate::grammar::Grammar;
use crate::nested::{Ask, Got};
use crate::params::Params;
use crate::sub::{Groups, Sub, TypeSub, TypeSubs, type_over, type_sub};
use crate::type_names::with_args;
use std::alloc::Global;
use ui_base::Spot;
use ui_parse::{Cursor, ParseError, parts};
use ui_scan::TokenKind;
use ui_syntax::{Site, Style, TypeSite};
use ui_tree::{Placed, TypeExpr};

/// The type that an expression's text is too; a fault where it is none.
pub fn cover_type(alloc: Global, words: &Cursor<'_>, cover: Sub) -> Result<TypeSub, ParseError>
    ensures { Reads see_type (covered (see cover) (as_type (see cover).tree) words.now) result
        words.now }
{
    let Sub { tree, spot, depth } = cover;
    match into_type(alloc, tree.into_inner())? {
        Some(of) => Ok(type_sub(alloc, of, spot, depth)?),
        None => Err(ParseError::Fault),
    }
}

impl<F> Grammar<F>
where
    F: Fn(Global, &mut Cursor<'_>, u32, Ask) -> Result<Got, ParseError>,
{
    // n [X], where X is no array's length.
    fn add_argument(
        &self,
        words: &mut Cursor<'_>,
        params: Params,
        name: Placed,
        cover: Sub,
    ) -> Result<Params, ParseError>
        requires { Nests self.now.room (F.pre self.now.part) (F.post self.now.part) }
        ensures { Reads see_params (spec.add_argument self.now.room (readers self.now.room)
            (see_params params) name (as_type (see cover).tree) cover.depth words.old) result
            words.new }
    {
        if !is_type(cover.tree.get()) {
            return Err(ParseError::Fault);
        }
        let first = match cover_type(self.alloc, words, cover) {
            Ok(first) => first,
            Err(fault) => return Err(fault),
        };
        let args = match TypeSubs::only(self.alloc, first) {
            Ok(args) => args,
            Err(_) => return Err(ParseError::NoMemory),
        };
        let of = match with_args(self.alloc, name, None, args) {
            Ok(of) => of,
            Err(_) => return Err(ParseError::NoMemory),
        };
        match params.add_type(self.alloc, of) {
            Ok(params) => Ok(params),
            Err(_) => Err(ParseError::NoMemory),
        }
    }

    // Behind n [X]: a type, of which X is the length, or none.
    fn behind_bracket(
        &self,
        words: &mut Cursor<'_>,
        params: Params,
        name: Placed,
        spot: Spot,
        cover: Sub,
    ) -> Result<Params, ParseError>
        requires { Nests self.now.room (F.pre self.now.part) (F.post self.now.part) }
        ensures { Reads see_params (spec.behind_bracket self.now.room (readers self.now.room)
            (see_params params) name spot (see cover) (only_type (see cover).tree) words.old) result
            words.new }
    {
        if is_type_alone(cover.tree.get()) {
            return self.add_argument(words, params, name, cover);
        }
        let of = match self.maybe_lower_type(words) {
            Ok(Some(of)) => of,
            Ok(None) => return self.add_argument(words, params, name, cover),
            Err(fault) => return Err(fault),
        };
        let depth = cover.depth.max(of.depth);
        let array = match type_over(
            self.alloc,
            TypeExpr::array(spot, cover.tree, of.tree),
            spot,
            depth,
        ) {
            Ok(array) => array,
            Err(_) => return Err(ParseError::NoMemory),
        };
        match params.add_named(self.alloc, name, array) {
            Ok(params) => Ok(params),
            Err(_) => Err(ParseError::NoMemory),
        }
    }

    // n [X, or n [X].
    #[tactic(auto, unfolding(ui_parse::specs::Reader::take_by))]
    fn behind_cover(
        &self,
        words: &mut Cursor<'_>,
        params: Params,
        name: Placed,
        spot: Spot,
        cover: Sub,
    ) -> Result<Params, ParseError>
        requires { Nests self.now.room (F.pre self.now.part) (F.post self.now.part) }
        ensures { Reads see_params (spec.behind_cover self.now.room (readers self.now.room)
            (see_params params) name spot (see cover) (as_type (see cover).tree) words.old) result
            words.new }
    {
        if is_type(cover.tree.get()) && words.take(TokenKind::Comma).is_some() {
            let first = match cover_type(self.alloc, words, cover) {
                Ok(first) => first,
                Err(fault) => return Err(fault),
            };
            let args = match self.args_behind(words, true, first) {
                Ok(args) => args,
                Err(fault) => return Err(fault),
            };
            let of = match with_args(self.alloc, name, None, args) {
                Ok(of) => of,
                Err(_) => return Err(ParseError::NoMemory),
            };
            match params.add_type(self.alloc, of) {
                Ok(params) => return Ok(params),
                Err(_) => return Err(ParseError::NoMemory),
            }
        }
        if let Err(fault) = words.expect(TokenKind::RBracket) {
            return Err(fault);
        }
        self.behind_bracket(words, params, name, spot, cover)
    }

    // n [, whose bracket may be of a type's arguments or of a type.
    #[tactic(auto, unfolding(ui_syntax::specs::Types::bracketed, ui_parse::specs::Reader::take_by))]
    fn bracketed(
        &self,
        words: &mut Cursor<'_>,
        params: Params,
        name: Placed,
        spot: Spot,
    ) -> Result<Params, ParseError>
        requires { Nests self.now.room (F.pre self.now.part) (F.post self.now.part) }
        ensures { Reads see_params (spec.bracketed self.now.room (readers self.now.room)
            (see_params params) name spot words.old) result words.new }
    {
        if words.take(TokenKind::RBracket).is_some() {
            let of = match self.a_lower_type(words) {
                Ok(of) => of,
                Err(fault) => return Err(fault),
            };
            let depth = of.depth;
            let slice = match type_over(self.alloc, TypeExpr::slice(spot, of.tree), spot, depth) {
                Ok(slice) => slice,
                Err(_) => return Err(ParseError::NoMemory),
            };
            return match params.add_named(self.alloc, name, slice) {
                Ok(params) => Ok(params),
                Err(_) => Err(ParseError::NoMemory),
            };
        }
        let cover = match self.lower_level(words, Site::Argument, 1) {
            Ok(cover) => cover,
            Err(fault) => return Err(fault),
        };
        self.behind_cover(words, params, name, spot, cover)
    }

    fn maybe_named(
        &self,
        words: &mut Cursor<'_>,
        params: Params,
        name: Placed,
    ) -> Result<Params, ParseError>
        requires { Nests self.now.room (F.pre self.now.part) (F.post self.now.part) }
        ensures { Reads see_params (spec.maybe_named self.now.room (readers self.now.room)
            (see_params params) name words.old) result words.new }
    {
        match self.type_at(words, TypeSite::Plain) {
            Ok(Some(of)) => match params.add_named(self.alloc, name, of) {
                Ok(params) => Ok(params),
                Err(_) => Err(ParseError::NoMemory),
            },
            Ok(None) => match params.add_name(name) {
                Ok(params) => Ok(params),
                Err(_) => Err(ParseError::NoMemory),
            },
            Err(fault) => Err(fault),
        }
    }

    // n.m [ TArgs ]
    fn qualified(
        &self,
        words: &mut Cursor<'_>,
        params: Params,
        name: Placed,
    ) -> Result<Params, ParseError>
        requires { Nests self.now.room (F.pre self.now.part) (F.post self.now.part) }
        ensures { Reads see_params (spec.qualified self.now.room (readers self.now.room)
            (see_params params) name words.old) result words.new }
    {
        let member = match words.expect_name(self.alloc) {
            Ok(member) => member,
            Err(fault) => return Err(fault),
        };
        let of = match self.maybe_args(words, self.room as u64, true, name, Some(member)) {
            Ok(of) => of,
            Err(fault) => return Err(fault),
        };
        match params.add_type(self.alloc, of) {
            Ok(params) => Ok(params),
            Err(_) => Err(ParseError::NoMemory),
        }
    }

    // A first name, where it isn't said yet whether parameters have names.
    #[tactic(auto, unfolding(ui_syntax::specs::Types::open_name, ui_parse::specs::Reader::take_by))]
    fn open_name(
        &self,
        words: &mut Cursor<'_>,
        params: Params,
        name: Placed,
    ) -> Result<Params, ParseError>
        requires { Nests self.now.room (F.pre self.now.part) (F.post self.now.part) }
        ensures { Reads see_params (spec.open_name self.now.room (readers self.now.room)
            (see_params params) name words.old) result words.new }
    {
        if self.room < 2 {
            return self.maybe_named(words, params, name);
        }
        if words.take(TokenKind::Period).is_some() {
            return self.qualified(words, params, name);
        }
        match words.take(TokenKind::LBracket) {
            Some(spot) => self.bracketed(words, params, name, spot),
            None => self.maybe_named(words, params, name),
        }
    }

    fn bare_param(&self, words: &mut Cursor<'_>, params: Params) -> Result<Params, ParseError>
        requires { Nests self.now.room (F.pre self.now.part) (F.post self.now.part) }
        ensures { Reads see_params (spec.bare_param self.now.room (readers self.now.room)
            (see_params params) words.old) result words.new }
    {
        let of = match self.a_type(words) {
            Ok(of) => of,
            Err(fault) => return Err(fault),
        };
        match params.add_type(self.alloc, of) {
            Ok(params) => Ok(params),
            Err(_) => Err(ParseError::NoMemory),
        }
    }

    // [ name ] Type
    #[tactic(auto, unfolding(ui_syntax::specs::Types::param, ui_parse::specs::Reader::take_by))]
    fn param(&self, words: &mut Cursor<'_>, params: Params) -> Result<Params, ParseError>
        requires { Nests self.now.room (F.pre self.now.part) (F.post self.now.part) }
        ensures { Reads see_params (spec.param self.now.room (readers self.now.room)
            (see_params params) words.old) result words.new }
    {
        if self.room == 0 {
            return Err(ParseError::Fault);
        }
        match params.style {
            Style::Open => match words.take_name(self.alloc) {
                Ok(Some(name)) => self.open_name(words, params, name),
                Ok(None) => self.bare_param(words, params),
                Err(_) => Err(ParseError::NoMemory),
            },
            Style::Bare => self.bare_param(words, params),
            Style::Named => match words.take_name(self.alloc) {
                Ok(Some(name)) => self.maybe_named(words, params, name),
                Ok(None) => Err(ParseError::Fault),
                Err(_) => Err(ParseError::NoMemory),
            },
        }
    }

    fn param_list(&self, words: &mut Cursor<'_>) -> Result<Params, ParseError>
        requires { Nests self.now.room (F.pre self.now.part) (F.post self.now.part) }
        ensures { Reads see_params (reader.parts Comma RParen spec.params_ending
            (spec.param self.now.room (readers self.now.room)) spec.no_params words.old) result
            words.new }
    {
        let params = Params::new(self.alloc);
        parts(
            words,
            TokenKind::Comma,
            TokenKind::RParen,
            params,
            &|words: &mut Cursor<'_>, params| self.param(words, params),
        )
    }

    /// [ Param { "," Param } [ "," ] ] ")", in groups with one type.
    #[tactic(auto, unfolding(ui_syntax::specs::Types::params))]
    pub fn params(&self, words: &mut Cursor<'_>) -> Result<Groups, ParseError>
        requires { Nests self.now.room (F.pre self.now.part) (F.post self.now.part) }
        ensures { Reads see_groups (spec.params self.now.room (readers self.now.room) words.old)
            result words.new }
    {
        let params = match self.param_list(words) {
            Ok(params) => params,
            Err(fault) => return Err(fault),
        };
        match params.into_groups(self.alloc) {
            Ok(params) => Ok(params),
            Err(_) => Err(ParseError::NoMemory),
        }
    }
}
