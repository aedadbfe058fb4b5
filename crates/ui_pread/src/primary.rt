//! What follows an operand. Go specification, "Primary expressions".

ghost use Rattle.std.specs.Prelude.{◌≡◌, ◌<◌, IfOk, suc};
ghost use Rattle.ui_syntax.specs.Exprs.{of_tree};
ghost use Rattle.ui_tree.specs.Tree.{selector};
ghost use Rattle.ui_pread.specs.Turns.{see_turn, goes_on, suffix_turn, literal_turn, named_literal};
ghost use Rattle.ui_ptype.specs.Seen.{see};
ghost use Rattle.ui_syntax.specs.Cover.{as_type, if_named};
ghost use Rattle.ui_parse.specs.View.{Reads};
ghost use Rattle.ui_ptype.specs.Nests.{Nests};
ghost use Rattle.ui_syntax.specs.Exprs as spec;
ghost use Rattle.ui_syntax.specs.Read.{readers};

use crate::exprs::Exprs;
use crate::sites::is_header;
use std::alloc::Global;
use ui_base::NoMemory;
use ui_parse::{Cursor, ParseError, Turn};
use ui_ptype::{Ask, Got, Sub, cover_type, expr_over, is_named_type, is_type_alone};
use ui_scan::TokenKind;
use ui_syntax::Site;
use ui_tree::{ExprTree, Placed};

fn selector_of(alloc: Global, of: Sub, member: Placed) -> Result<Sub, NoMemory>
    ensures { IfOk result (λ s. see s ≡ of_tree (selector of.spot (see of).tree member) of.spot
        (suc of.depth)) }
{
    let spot = of.spot;
    let depth = of.depth;
    expr_over(
        alloc,
        ExprTree::selector(spot, of.tree, member),
        spot,
        depth,
    )
}

impl<F> Exprs<F>
where
    F: Fn(Global, &mut Cursor<'_>, u32, Ask) -> Result<Got, ParseError>,
{
    fn asserted(&self, words: &mut Cursor<'_>, of: Sub) -> Result<Sub, ParseError>
        requires { Nests self.now.types.room (F.pre self.now.types.part)
            (F.post self.now.types.part) }
        ensures { Reads see (spec.asserted self.now.types.room (readers self.now.types.room)
            (see of) words.old) result words.new }
    {
        if let Err(fault) = words.expect(TokenKind::LParen) {
            return Err(fault);
        }
        let to = match self.types.a_type(words) {
            Ok(to) => to,
            Err(fault) => return Err(fault),
        };
        if let Err(fault) = words.expect(TokenKind::RParen) {
            return Err(fault);
        }
        let depth = of.depth.max(to.depth);
        let spot = of.spot;
        match expr_over(
            self.types.alloc,
            ExprTree::assert(spot, of.tree, to.tree),
            spot,
            depth,
        ) {
            Ok(of) => Ok(of),
            Err(_) => Err(ParseError::NoMemory),
        }
    }

    // Behind ".".
    #[tactic(auto, unfolding(ui_syntax::specs::Exprs::selected, ui_parse::specs::Reader::take_by))]
    fn selected(&self, words: &mut Cursor<'_>, of: Sub) -> Result<Sub, ParseError>
        requires { Nests self.now.types.room (F.pre self.now.types.part)
            (F.post self.now.types.part) }
        ensures { Reads see (spec.selected self.now.types.room (readers self.now.types.room)
            (see of) words.old) result words.new }
    {
        match words.take_name(self.types.alloc) {
            Ok(Some(member)) => match selector_of(self.types.alloc, of, member) {
                Ok(of) => Ok(of),
                Err(_) => Err(ParseError::NoMemory),
            },
            Ok(None) => self.asserted(words, of),
            Err(_) => Err(ParseError::NoMemory),
        }
    }

    // Behind "{", where the expression is a type's name.
    fn named_literal(&self, words: &mut Cursor<'_>, of: Sub) -> Result<Turn<Sub>, ParseError>
        requires { Nests self.now.types.room (F.pre self.now.types.part)
            (F.post self.now.types.part) }
        ensures { Reads (see_turn see) (named_literal self.now.types.room
            (readers self.now.types.room) (see of) words.old) result words.new }
    {
        let of = match cover_type(self.types.alloc, words, of) {
            Ok(of) => of,
            Err(fault) => return Err(fault),
        };
        match self.literal_of(words, of) {
            Ok(of) => Ok(Turn::More(of)),
            Err(fault) => Err(fault),
        }
    }

    // Braces, where the expression is a type's name.
    #[tactic(auto, unfolding(ui_parse::specs::Reader::take_by))]
    fn literal_or(
        &self,
        words: &mut Cursor<'_>,
        site: Site,
        of: Sub,
    ) -> Result<Turn<Sub>, ParseError>
        requires { Nests self.now.types.room (F.pre self.now.types.part)
            (F.post self.now.types.part) }
        ensures { Reads (see_turn see) (literal_turn self.now.types.room
            (readers self.now.types.room) site (see of)
            (if_named (as_type (see of).tree)) words.old) result words.new }
    {
        if is_header(site) {
            return Ok(Turn::Done(of));
        }
        if !is_named_type(of.tree.get()) {
            return Ok(Turn::Done(of));
        }
        match words.take(TokenKind::LBrace) {
            Some(_) => self.named_literal(words, of),
            None => Ok(Turn::Done(of)),
        }
    }

    // What goes on with an expression, if it does.
    #[tactic(auto, unfolding(ui_parse::specs::Reader::take_by))]
    fn one_suffix(
        &self,
        words: &mut Cursor<'_>,
        site: Site,
        of: Sub,
    ) -> Result<Turn<Sub>, ParseError>
        requires { Nests self.now.types.room (F.pre self.now.types.part)
            (F.post self.now.types.part) }
        ensures { Reads (see_turn see) (suffix_turn self.now.types.room
            (readers self.now.types.room) site (see of) words.old) result words.new }
    {
        if words.take(TokenKind::Period).is_some() {
            return match self.selected(words, of) {
                Ok(of) => Ok(Turn::More(of)),
                Err(fault) => Err(fault),
            };
        }
        if words.take(TokenKind::LBracket).is_some() {
            return match self.indexed(words, of) {
                Ok(of) => Ok(Turn::More(of)),
                Err(fault) => Err(fault),
            };
        }
        if words.take(TokenKind::LParen).is_some() {
            return match self.called(words, of) {
                Ok(of) => Ok(Turn::More(of)),
                Err(fault) => Err(fault),
            };
        }
        self.literal_or(words, site, of)
    }

    // Whether something may go on with the tree.
    pub(crate) fn has_room(&self, of: &Sub) -> bool
        ensures { result ≡ goes_on self.now.types.room (see of.now) }
    {
        !is_type_alone(of.tree.get()) && of.depth <= self.types.room
    }

    fn suffixes(&self, words: &mut Cursor<'_>, site: Site, of: Sub) -> Result<Sub, ParseError>
        requires { Nests self.now.types.room (F.pre self.now.types.part)
            (F.post self.now.types.part) }
        ensures { Reads see (spec.suffixes self.now.types.room (readers self.now.types.room) site
            (suc (suc self.now.types.room)) (see of) words.old) result words.new }
    {
        let mut of = of;
        // Each turn makes the tree deeper.
        let mut turns = self.types.room as u64 + 1;
        while self.has_room(&of) {
            match self.one_suffix(words, site, of) {
                Ok(Turn::Done(last)) => return Ok(last),
                Ok(Turn::More(next)) => of = next,
                Err(fault) => return Err(fault),
            }
            if turns == 0 {
                return Ok(of);
            }
            turns -= 1;
        }
        Ok(of)
    }

    #[tactic(auto, unfolding(ui_syntax::specs::Exprs::primary))]
    pub(crate) fn primary(&self, words: &mut Cursor<'_>, site: Site) -> Result<Sub, ParseError>
        requires { Nests self.now.types.room (F.pre self.now.types.part)
            (F.post self.now.types.part) }
        ensures { Reads see (spec.primary self.now.types.room
            (readers self.now.types.room) site words.old) result words.new }
    {
        let of = match self.operand(words, site) {
            Ok(of) => of,
            Err(fault) => return Err(fault),
        };
        self.suffixes(words, site, of)
    }
}
