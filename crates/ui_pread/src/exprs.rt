//! Expressions, by descent and climbing. Go specification, "Operators".

ghost use Rattle.std.specs.Prelude.{◌≡◌, IfOk, suc};
ghost use Rattle.ui_syntax.specs.Exprs.{of_tree};
ghost use Rattle.ui_tree.specs.Tree.{pointer, type_arg};
ghost use Rattle.ui_tree.specs.View.{type_view};
ghost use Rattle.ui_pread.specs.Seen.{see_prefix};
ghost use Rattle.ui_pread.specs.Turns.{see_turn, operation_turn};
ghost use Rattle.ui_ptype.specs.Seen.{see};
ghost use Rattle.ui_parse.specs.View.{Reads};
ghost use Rattle.ui_ptype.specs.Nests.{Nests};
ghost use Rattle.ui_syntax.specs.Exprs as spec;
ghost use Rattle.ui_syntax.specs.Read.{readers};

use crate::marks::{Prefix, take_operator, take_prefix};
use crate::sites::{operand_site, prefix_site};
use std::alloc::Global;
use ui_base::{NoMemory, Spot};
use ui_grammar::level_of;
use ui_parse::{Cursor, ParseError, Turn};
use ui_ptype::{Ask, Got, Grammar, Sub, expr_over, into_type_alone, is_type_alone};
use ui_syntax::Site;
use ui_tree::{Boxed, ExprTree, TypeExpr};

/// The readers of expressions whose parts have so much room, over those of types.
#[derive(Clone, Copy)]
pub(crate) struct Exprs<F>
where
    F: Fn(Global, &mut Cursor<'_>, u32, Ask) -> Result<Got, ParseError>,
{
    pub types: Grammar<F>,
}

// A pointer to the type, which stands alone.
fn pointer_alone(
    alloc: Global,
    spot: Spot,
    of: Boxed<TypeExpr>,
    depth: u32,
) -> Result<Sub, NoMemory>
    ensures { IfOk result (λ s. see s ≡ of_tree (type_arg (pointer spot (type_view of))) spot
        (suc depth)) }
{
    let pointer = Boxed::new(alloc, TypeExpr::pointer(spot, of))?;
    expr_over(alloc, ExprTree::type_arg(pointer), spot, depth)
}

impl<F> Exprs<F>
where
    F: Fn(Global, &mut Cursor<'_>, u32, Ask) -> Result<Got, ParseError>,
{
    #[tactic(auto, unfolding(ui_syntax::specs::Exprs::prefixed))]
    fn prefixed(
        &self,
        words: &mut Cursor<'_>,
        site: Site,
        prefix: Prefix,
    ) -> Result<Sub, ParseError>
        requires { Nests self.now.types.room (F.pre self.now.types.part)
            (F.post self.now.types.part) }
        ensures { Reads see (spec.prefixed self.now.types.room (readers self.now.types.room) site
            (see_prefix prefix) words.old) result words.new }
    {
        let Prefix { op, spot } = prefix;
        let of = match self.types.level_at(words, prefix_site(op, site), 6) {
            Ok(of) => of,
            Err(fault) => return Err(fault),
        };
        let depth = of.depth;
        if !is_type_alone(of.tree.get()) {
            let tree = ExprTree::unary(spot, op, of.tree);
            return match expr_over(self.types.alloc, tree, spot, depth) {
                Ok(of) => Ok(of),
                Err(_) => Err(ParseError::NoMemory),
            };
        }
        let Some(of) = into_type_alone(of.tree) else {
            return Err(ParseError::Fault);
        };
        match pointer_alone(self.types.alloc, spot, of, depth) {
            Ok(of) => Ok(of),
            Err(_) => Err(ParseError::NoMemory),
        }
    }

    #[tactic(auto, using(crate::proofs::Prefixes::unary_low, crate::proofs::Prefixes::unary_prefix, crate::proofs::Prefixes::unary_plain))]
    fn unary_expr(&self, words: &mut Cursor<'_>, site: Site) -> Result<Sub, ParseError>
        requires { Nests self.now.types.room (F.pre self.now.types.part)
            (F.post self.now.types.part) }
        ensures { Reads see (spec.unary_expr self.now.types.room
            (readers self.now.types.room) site words.old) result words.new }
    {
        if self.types.room == 0 {
            return self.primary(words, site);
        }
        match take_prefix(words) {
            Some(prefix) => self.prefixed(words, site, prefix),
            None => self.primary(words, site),
        }
    }

    // An operator that binds so tightly, with its right operand.
    #[tactic(auto, unfolding(ui_parse::specs::Reader::take_by))]
    fn operation(
        &self,
        words: &mut Cursor<'_>,
        site: Site,
        least: u8,
        left: Sub,
    ) -> Result<Turn<Sub>, ParseError>
        requires { Nests self.now.types.room (F.pre self.now.types.part)
            (F.post self.now.types.part) }
        ensures { Reads (see_turn see) (operation_turn self.now.types.room
            (readers self.now.types.room) site least (see left) words.old) result words.new }
    {
        let Some(op) = take_operator(words, least) else {
            return Ok(Turn::Done(left));
        };
        let tighter = level_of(op) + 1;
        let right = match self.types.level_at(words, operand_site(site), tighter) {
            Ok(right) => right,
            Err(fault) => return Err(fault),
        };
        let spot = left.spot;
        let depth = left.depth.max(right.depth);
        let tree = ExprTree::binary(spot, op, left.tree, right.tree);
        match expr_over(self.types.alloc, tree, spot, depth) {
            Ok(of) => Ok(Turn::More(of)),
            Err(_) => Err(ParseError::NoMemory),
        }
    }

    fn operations(
        &self,
        words: &mut Cursor<'_>,
        site: Site,
        least: u8,
        left: Sub,
    ) -> Result<Sub, ParseError>
        requires { Nests self.now.types.room (F.pre self.now.types.part)
            (F.post self.now.types.part) }
        ensures { Reads see (spec.operations self.now.types.room
            (readers self.now.types.room) site least (suc (suc self.now.types.room))
            (see left) words.old) result words.new }
    {
        let mut left = left;
        // Each turn makes the tree deeper.
        let mut turns = self.types.room as u64 + 1;
        while self.has_room(&left) {
            match self.operation(words, site, least, left) {
                Ok(Turn::Done(last)) => return Ok(last),
                Ok(Turn::More(next)) => left = next,
                Err(fault) => return Err(fault),
            }
            if turns == 0 {
                return Ok(left);
            }
            turns -= 1;
        }
        Ok(left)
    }

    #[tactic(auto, unfolding(ui_syntax::specs::Exprs::level))]
    pub(crate) fn own_level(
        &self,
        words: &mut Cursor<'_>,
        site: Site,
        least: u8,
    ) -> Result<Sub, ParseError>
        requires { Nests self.now.types.room (F.pre self.now.types.part)
            (F.post self.now.types.part) }
        ensures { Reads see (spec.level self.now.types.room (readers self.now.types.room) site least
            words.old) result words.new }
    {
        let left = match self.unary_expr(words, site) {
            Ok(left) => left,
            Err(fault) => return Err(fault),
        };
        self.operations(words, site, least, left)
    }
}
