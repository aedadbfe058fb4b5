//! Indices, slices and instances. Go specification, "Index expressions", "Slice expressions",
//! "Instantiations".

ghost use Rattle.std.specs.Prelude.{◌≡◌, None, IfOk};
ghost use Rattle.std.specs.Option.{option_map};
ghost use Rattle.ui_pread.specs.Seen.{see_bound, bound_depth};
ghost use Rattle.ui_ptype.specs.Seen.{see, see_types};
ghost use Rattle.ui_syntax.specs.Cover.{as_type, only_type};
ghost use Rattle.ui_tree.specs.View.{view, maybe};
ghost use Rattle.ui_parse.specs.View.{Reads};
ghost use Rattle.ui_ptype.specs.Nests.{Nests};
ghost use Rattle.ui_syntax.specs.Exprs as spec;
ghost use Rattle.ui_syntax.specs.Read.{readers};

use crate::exprs::Exprs;
use std::alloc::Global;
use ui_base::NoMemory;
use ui_parse::{Cursor, ParseError};
use ui_ptype::{Ask, Got, Sub, TypeSubs, cover_type, expr_over, is_type, is_type_alone};
use ui_scan::TokenKind;
use ui_syntax::Site;
use ui_tree::{Boxed, ExprTree};

// The tree of a bound with its depth.
fn bound(of: Option<Sub>) -> (Option<Boxed<ExprTree>>, u32)
    ensures tree { maybe (option_map view result.0) ≡ see_bound of }
    ensures depth { result.1 ≡ bound_depth of }
{
    match of {
        Some(
            Sub {
                tree,
                spot: _,
                depth,
            },
        ) => (Some(tree), depth),
        None => (None, 0),
    }
}

impl<F> Exprs<F>
where
    F: Fn(Global, &mut Cursor<'_>, u32, Ask) -> Result<Got, ParseError>,
{
    fn slice_of(
        &self,
        of: Sub,
        low: Option<Sub>,
        high: Option<Sub>,
        most: Option<Sub>,
    ) -> Result<Sub, NoMemory>
        ensures { IfOk result (λ s. see s ≡ spec.slice_of self.now.types.room
            (readers self.now.types.room) (see of) (see_bound low) (bound_depth low)
            (see_bound high) (bound_depth high) (see_bound most) (bound_depth most)) }
    {
        let (low, low_depth) = bound(low);
        let (high, high_depth) = bound(high);
        let (most, most_depth) = bound(most);
        let spot = of.spot;
        let depth = of.depth.max(low_depth.max(high_depth.max(most_depth)));
        let tree = ExprTree::sliced(spot, of.tree, low, high, most);
        expr_over(self.types.alloc, tree, spot, depth)
    }

    // Behind the second ":".
    fn third_bound(
        &self,
        words: &mut Cursor<'_>,
        of: Sub,
        low: Option<Sub>,
        high: Sub,
    ) -> Result<Sub, ParseError>
        requires { Nests self.now.types.room (F.pre self.now.types.part)
            (F.post self.now.types.part) }
        ensures { Reads see (spec.third_bound self.now.types.room (readers self.now.types.room)
            (see of) (see_bound low) (bound_depth low) (see high) words.old) result words.new }
    {
        let most = match self.types.an_expr(words) {
            Ok(most) => most,
            Err(fault) => return Err(fault),
        };
        if let Err(fault) = words.expect(TokenKind::RBracket) {
            return Err(fault);
        }
        match self.slice_of(of, low, Some(high), Some(most)) {
            Ok(of) => Ok(of),
            Err(_) => Err(ParseError::NoMemory),
        }
    }

    #[tactic(auto, unfolding(ui_parse::specs::Reader::take_by))]
    fn second_bound(
        &self,
        words: &mut Cursor<'_>,
        of: Sub,
        low: Option<Sub>,
        high: Sub,
    ) -> Result<Sub, ParseError>
        requires { Nests self.now.types.room (F.pre self.now.types.part)
            (F.post self.now.types.part) }
        ensures { Reads see (spec.second_bound self.now.types.room (readers self.now.types.room)
            (see of) (see_bound low) (bound_depth low) (see high) words.old) result words.new }
    {
        if words.take(TokenKind::Colon).is_some() {
            return self.third_bound(words, of, low, high);
        }
        if let Err(fault) = words.expect(TokenKind::RBracket) {
            return Err(fault);
        }
        match self.slice_of(of, low, Some(high), None) {
            Ok(of) => Ok(of),
            Err(_) => Err(ParseError::NoMemory),
        }
    }

    // Behind the first ":".
    #[tactic(auto, unfolding(ui_syntax::specs::Exprs::bounds, ui_parse::specs::Reader::take_by))]
    fn bounds(&self, words: &mut Cursor<'_>, of: Sub, low: Option<Sub>) -> Result<Sub, ParseError>
        requires { Nests self.now.types.room (F.pre self.now.types.part)
            (F.post self.now.types.part) }
        ensures { Reads see (spec.bounds self.now.types.room (readers self.now.types.room) (see of)
            (see_bound low) (bound_depth low) words.old) result words.new }
    {
        if words.take(TokenKind::RBracket).is_some() {
            return match self.slice_of(of, low, None, None) {
                Ok(of) => Ok(of),
                Err(_) => Err(ParseError::NoMemory),
            };
        }
        let high = match self.types.an_expr(words) {
            Ok(high) => high,
            Err(fault) => return Err(fault),
        };
        self.second_bound(words, of, low, high)
    }

    fn instance_of(&self, of: Sub, args: TypeSubs) -> Result<Sub, NoMemory>
        ensures { IfOk result (λ s. see s ≡ spec.instance_of self.now.types.room
            (readers self.now.types.room) (see of) (see_types args)) }
    {
        let spot = of.spot;
        let depth = of.depth.max(args.depth);
        expr_over(
            self.types.alloc,
            ExprTree::instance(spot, of.tree, args.items),
            spot,
            depth,
        )
    }

    // A comma and more arguments, where the first is a type.
    #[tactic(auto, unfolding(ui_parse::specs::Reader::take_by, ui_parse::specs::Reader::expect))]
    fn instance_behind(&self, words: &mut Cursor<'_>, of: Sub, at: Sub) -> Result<Sub, ParseError>
        requires { Nests self.now.types.room (F.pre self.now.types.part)
            (F.post self.now.types.part) }
        ensures { Reads see (spec.instance_behind self.now.types.room (readers self.now.types.room)
            (see of) at.depth (as_type (see at).tree) words.old) result words.new }
    {
        if !is_type(at.tree.get()) {
            return Err(ParseError::Fault);
        }
        words.expect(TokenKind::Comma)?;
        let first = match cover_type(self.types.alloc, words, at) {
            Ok(first) => first,
            Err(fault) => return Err(fault),
        };
        let args = match self.types.args_behind(words, false, first) {
            Ok(args) => args,
            Err(fault) => return Err(fault),
        };
        match self.instance_of(of, args) {
            Ok(of) => Ok(of),
            Err(_) => Err(ParseError::NoMemory),
        }
    }

    // Behind the first part between brackets, which is an expression.
    #[tactic(auto, unfolding(ui_parse::specs::Reader::take_by))]
    fn behind_expr(&self, words: &mut Cursor<'_>, of: Sub, at: Sub) -> Result<Sub, ParseError>
        requires { Nests self.now.types.room (F.pre self.now.types.part)
            (F.post self.now.types.part) }
        ensures { Reads see (spec.behind_index self.now.types.room (readers self.now.types.room)
            (see of) (see at) None words.old) result words.new }
    {
        if words.take(TokenKind::Colon).is_some() {
            return self.bounds(words, of, Some(at));
        }
        if words.take(TokenKind::RBracket).is_none() {
            return self.instance_behind(words, of, at);
        }
        let depth = of.depth.max(at.depth);
        let spot = of.spot;
        match expr_over(
            self.types.alloc,
            ExprTree::index(spot, of.tree, at.tree),
            spot,
            depth,
        ) {
            Ok(of) => Ok(of),
            Err(_) => Err(ParseError::NoMemory),
        }
    }

    // Behind the first part between brackets.
    #[tactic(auto, using(crate::proofs::Alone::alone_is, crate::proofs::Alone::behind_types))]
    fn behind_index(&self, words: &mut Cursor<'_>, of: Sub, at: Sub) -> Result<Sub, ParseError>
        requires { Nests self.now.types.room (F.pre self.now.types.part)
            (F.post self.now.types.part) }
        ensures { Reads see (spec.behind_index self.now.types.room (readers self.now.types.room)
            (see of) (see at) (only_type (see at).tree) words.old) result words.new }
    {
        if !is_type_alone(at.tree.get()) {
            return self.behind_expr(words, of, at);
        }
        let first = match cover_type(self.types.alloc, words, at) {
            Ok(first) => first,
            Err(fault) => return Err(fault),
        };
        let args = match self.types.more_args(words, false, first) {
            Ok(args) => args,
            Err(fault) => return Err(fault),
        };
        match self.instance_of(of, args) {
            Ok(of) => Ok(of),
            Err(_) => Err(ParseError::NoMemory),
        }
    }

    // Behind "[".
    #[tactic(auto, unfolding(ui_syntax::specs::Exprs::indexed, ui_parse::specs::Reader::take_by))]
    pub(crate) fn indexed(&self, words: &mut Cursor<'_>, of: Sub) -> Result<Sub, ParseError>
        requires { Nests self.now.types.room (F.pre self.now.types.part)
            (F.post self.now.types.part) }
        ensures { Reads see (spec.indexed self.now.types.room (readers self.now.types.room)
            (see of) words.old) result words.new }
    {
        if words.take(TokenKind::Colon).is_some() {
            return self.bounds(words, of, None);
        }
        let at = match self.types.level_at(words, Site::Argument, 1) {
            Ok(at) => at,
            Err(fault) => return Err(fault),
        };
        self.behind_index(words, of, at)
    }
}
