//! Results and signatures. Go specification, "Function types".

ghost use Rattle.std.specs.Prelude.{◌≡◌};
ghost use Rattle.std.specs.Option.{option_map};
ghost use Rattle.ui_tree.specs.View.{type_view, maybe_type};
ghost use Rattle.ui_ptype.specs.Seen.{see_type, see_results, results_tree, results_depth};
ghost use Rattle.ui_parse.specs.View.{Reads};
ghost use Rattle.ui_ptype.specs.Nests.{Nests};
ghost use Rattle.ui_syntax.specs.Read.{readers};
ghost use Rattle.ui_syntax.specs.Types as spec;

use crate::grammar::Grammar;
use crate::nested::{Ask, Got};
use crate::sub::{Groups, TypeSub, type_over, type_sub};
use std::alloc::Global;
use ui_base::Spot;
use ui_parse::{Cursor, ParseError};
use ui_scan::TokenKind;
use ui_syntax::TypeSite;
use ui_tree::{Boxed, Placed, Sig, TypeExpr};

// The tree of results with its depth.
fn result_of(results: Option<TypeSub>) -> (Option<Boxed<TypeExpr>>, u32)
    ensures tree { maybe_type (option_map type_view result.0) ≡ results_tree results }
    ensures depth { result.1 ≡ results_depth results }
{
    match results {
        Some(
            TypeSub {
                tree,
                spot: _,
                depth,
            },
        ) => (Some(tree), depth),
        None => (None, 0),
    }
}

impl<F> Grammar<F>
where
    F: Fn(Global, &mut Cursor<'_>, u32, Ask) -> Result<Got, ParseError>,
{
    /// [ Type | Params ]. Parameters are a list of results, which only a signature has.
    #[tactic(auto, unfolding(ui_syntax::specs::Types::results, ui_parse::specs::Reader::take_by))]
    pub fn results(&self, words: &mut Cursor<'_>) -> Result<Option<TypeSub>, ParseError>
        requires { Nests self.now.room (F.pre self.now.part) (F.post self.now.part) }
        ensures { Reads (see_results self.now.room (readers self.now.room))
            (spec.results self.now.room (readers self.now.room) words.old) result words.new }
    {
        if let Some(spot) = words.take(TokenKind::LParen) {
            let Groups { items, depth } = match self.params(words) {
                Ok(params) => params,
                Err(fault) => return Err(fault),
            };
            return match type_sub(self.alloc, TypeExpr::listed(spot, items), spot, depth) {
                Ok(of) => Ok(Some(of)),
                Err(_) => Err(ParseError::NoMemory),
            };
        }
        self.type_at(words, TypeSite::Plain)
    }

    /// The func type of a signature, behind its parenthesis.
    #[tactic(auto, unfolding(ui_syntax::specs::Types::signature))]
    pub fn sig_type(&self, words: &mut Cursor<'_>, spot: Spot) -> Result<TypeSub, ParseError>
        requires { Nests self.now.room (F.pre self.now.part) (F.post self.now.part) }
        ensures { Reads see_type (spec.signature self.now.room (readers self.now.room)
            (spec.func_of self.now.room (readers self.now.room) spot) words.old) result words.new }
    {
        let params = match self.params(words) {
            Ok(params) => params,
            Err(fault) => return Err(fault),
        };
        let results = match self.results(words) {
            Ok(results) => results,
            Err(fault) => return Err(fault),
        };
        let (results, deepest) = result_of(results);
        let depth = params.depth.max(deepest);
        let sig = Sig {
            params: params.items,
            results,
        };
        match type_over(self.alloc, TypeExpr::func(spot, sig), spot, depth) {
            Ok(of) => Ok(of),
            Err(_) => Err(ParseError::NoMemory),
        }
    }

    #[tactic(auto, unfolding(ui_syntax::specs::Types::signature))]
    pub(crate) fn method(&self, words: &mut Cursor<'_>, name: Placed) -> Result<TypeSub, ParseError>
        requires { Nests self.now.room (F.pre self.now.part) (F.post self.now.part) }
        ensures { Reads see_type (spec.signature self.now.room (readers self.now.room)
            (spec.method_of self.now.room (readers self.now.room) name) words.old) result
            words.new }
    {
        let params = match self.params(words) {
            Ok(params) => params,
            Err(fault) => return Err(fault),
        };
        let results = match self.results(words) {
            Ok(results) => results,
            Err(fault) => return Err(fault),
        };
        let (results, deepest) = result_of(results);
        let depth = params.depth.max(deepest);
        let sig = Sig {
            params: params.items,
            results,
        };
        let spot = name.spot;
        match type_over(self.alloc, TypeExpr::method(name, sig), spot, depth) {
            Ok(of) => Ok(of),
            Err(_) => Err(ParseError::NoMemory),
        }
    }

    pub(crate) fn func_type(
        &self,
        words: &mut Cursor<'_>,
        spot: Spot,
    ) -> Result<TypeSub, ParseError>
        requires { Nests self.now.room (F.pre self.now.part) (F.post self.now.part) }
        ensures { Reads see_type (spec.func_type self.now.room
            (readers self.now.room) spot words.old) result words.new }
    {
        words.expect(TokenKind::LParen)?;
        self.sig_type(words, spot)
    }
}
