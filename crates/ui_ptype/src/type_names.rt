//! Types' names and their arguments. Go specification, "Types".

ghost use Rattle.std.specs.Prelude.{◌≡◌, IfOk, suc};
ghost use Rattle.ui_grammar.specs.Fits.{name_depth as name_depth_of};
ghost use Rattle.ui_ptype.specs.Parts.{type_in};
ghost use Rattle.ui_ptype.specs.Seen.{see_type, see_types};
ghost use Rattle.ui_parse.specs.View.{Reads};
ghost use Rattle.ui_ptype.specs.Nests.{Nests};
ghost use Rattle.ui_syntax.specs.Read.{readers};
ghost use Rattle.ui_syntax.specs.Types as spec;

use crate::grammar::Grammar;
use crate::nested::{Ask, Got};
use crate::sub::{TypeSub, TypeSubs, type_over, type_sub};
use std::alloc::Global;
use ui_base::NoMemory;
use ui_parse::{Cursor, ParseError, more_parts, parts};
use ui_scan::TokenKind;
use ui_tree::{Placed, TypeExpr};

fn name_depth(member: &Option<Placed>) -> u32
    ensures { result ≡ name_depth_of member.now }
{
    if member.is_some() { 2 } else { 1 }
}

pub(crate) fn with_args(
    alloc: Global,
    name: Placed,
    member: Option<Placed>,
    args: TypeSubs,
) -> Result<TypeSub, NoMemory>
    ensures { IfOk result (λ t. see_type t ≡ spec.named_with name member (see_types args)) }
{
    let spot = name.spot;
    let depth = name_depth(&member).max(args.depth);
    type_over(
        alloc,
        TypeExpr::named(name, member, Some(args.items)),
        spot,
        depth,
    )
}

impl<F> Grammar<F>
where
    F: Fn(Global, &mut Cursor<'_>, u32, Ask) -> Result<Got, ParseError>,
{
    fn one_more(
        &self,
        words: &mut Cursor<'_>,
        lower: bool,
        all: TypeSubs,
    ) -> Result<TypeSubs, ParseError>
        requires { Nests self.now.room (F.pre self.now.part) (F.post self.now.part) }
        ensures { Reads see_types (spec.one_more
            (type_in self.now.room (readers self.now.room) lower) (see_types all) words.old) result
            words.new }
    {
        let next = match self.type_in(words, lower) {
            Ok(next) => next,
            Err(fault) => return Err(fault),
        };
        match all.add(next) {
            Ok(all) => Ok(all),
            Err(_) => Err(ParseError::NoMemory),
        }
    }

    /// What follows the first type argument, up to the bracket. The types have one level less, or
    /// two.
    pub fn more_args(
        &self,
        words: &mut Cursor<'_>,
        lower: bool,
        first: TypeSub,
    ) -> Result<TypeSubs, ParseError>
        requires { Nests self.now.room (F.pre self.now.part) (F.post self.now.part) }
        ensures { Reads see_types (spec.more_args
            (type_in self.now.room (readers self.now.room) lower)
            (spec.only (see_type first).tree first.depth) words.old) result words.new }
    {
        let all = match TypeSubs::only(self.alloc, first) {
            Ok(all) => all,
            Err(_) => return Err(ParseError::NoMemory),
        };
        more_parts(
            words,
            TokenKind::Comma,
            TokenKind::RBracket,
            all,
            &|words: &mut Cursor<'_>, all| self.one_more(words, lower, all),
        )
    }

    /// Likewise behind a comma.
    pub fn args_behind(
        &self,
        words: &mut Cursor<'_>,
        lower: bool,
        first: TypeSub,
    ) -> Result<TypeSubs, ParseError>
        requires { Nests self.now.room (F.pre self.now.part) (F.post self.now.part) }
        ensures { Reads see_types (spec.args_behind
            (type_in self.now.room (readers self.now.room) lower)
            (spec.only (see_type first).tree first.depth) words.old) result words.new }
    {
        let all = match TypeSubs::only(self.alloc, first) {
            Ok(all) => all,
            Err(_) => return Err(ParseError::NoMemory),
        };
        parts(
            words,
            TokenKind::Comma,
            TokenKind::RBracket,
            all,
            &|words: &mut Cursor<'_>, all| self.one_more(words, lower, all),
        )
    }

    // [ TArgs ], where the levels suffice: the arguments have one less.
    #[tactic(auto, unfolding(ui_parse::specs::Reader::take_by))]
    pub(crate) fn maybe_args(
        &self,
        words: &mut Cursor<'_>,
        levels: u64,
        lower: bool,
        name: Placed,
        member: Option<Placed>,
    ) -> Result<TypeSub, ParseError>
        requires { Nests self.now.room (F.pre self.now.part) (F.post self.now.part) }
        ensures { Reads see_type (spec.maybe_args levels
            (type_in self.now.room (readers self.now.room) lower) name member words.old) result
            words.new }
    {
        let depth = name_depth(&member);
        if (depth as u64) < levels && words.take(TokenKind::LBracket).is_some() {
            let first = match self.type_in(words, lower) {
                Ok(first) => first,
                Err(fault) => return Err(fault),
            };
            let args = match self.more_args(words, lower, first) {
                Ok(args) => args,
                Err(fault) => return Err(fault),
            };
            return match with_args(self.alloc, name, member, args) {
                Ok(of) => Ok(of),
                Err(_) => Err(ParseError::NoMemory),
            };
        }
        let spot = name.spot;
        match type_sub(self.alloc, TypeExpr::named(name, member, None), spot, depth) {
            Ok(of) => Ok(of),
            Err(_) => Err(ParseError::NoMemory),
        }
    }

    // [ "." name ] [ TArgs ], behind a name.
    pub(crate) fn named_type(
        &self,
        words: &mut Cursor<'_>,
        name: Placed,
    ) -> Result<TypeSub, ParseError>
        requires { Nests self.now.room (F.pre self.now.part) (F.post self.now.part) }
        ensures { Reads see_type (spec.named_type (suc self.now.room)
            (spec.a_type self.now.room (readers self.now.room)) name words.old) result words.new }
    {
        let levels = self.room as u64 + 1;
        if self.room == 0 {
            return self.maybe_args(words, levels, false, name, None);
        }
        match words.take(TokenKind::Period) {
            Some(_) => {
                let member = match words.expect_name(self.alloc) {
                    Ok(member) => member,
                    Err(fault) => return Err(fault),
                };
                self.maybe_args(words, levels, false, name, Some(member))
            }
            None => self.maybe_args(words, levels, false, name, None),
        }
    }
}
