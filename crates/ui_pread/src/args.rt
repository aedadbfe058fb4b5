//! Arguments of calls. Go specification, "Calls".

ghost use Rattle.std.specs.Prelude.{◌≡◌, IfOk};
ghost use Rattle.ui_parse.specs.Reader as reader;
ghost use Rattle.ui_pread.specs.Seen.{see_arguments};
ghost use Rattle.ui_ptype.specs.Seen.{see};
ghost use Rattle.ui_scan.specs.declared.kind.TokenKind.TheVariants.{Comma, RParen};
ghost use Rattle.ui_parse.specs.View.{Reads};
ghost use Rattle.ui_ptype.specs.Nests.{Nests};
ghost use Rattle.ui_syntax.specs.Exprs as spec;
ghost use Rattle.ui_syntax.specs.Read.{readers};

use crate::exprs::Exprs;
use std::alloc::Global;
use ui_base::{NoMemory, Spot};
use ui_parse::{Cursor, ParseError, parts};
use ui_ptype::{Ask, Got, Sub, expr_over};
use ui_scan::TokenKind;
use ui_syntax::Site;
use ui_tree::{ExprTree, Items};

/// The arguments of a call; `...` stood behind the last where it is spread.
#[derive(Drop)]
pub struct Arguments {
    pub items: Items<ExprTree>,
    pub depth: u32,
    pub spread: bool,
}

impl Arguments {
    pub fn new(alloc: Global) -> Arguments
        ensures { see_arguments result ≡ spec.no_arguments }
    {
        Arguments {
            items: Items::new(alloc),
            depth: 0,
            spread: false,
        }
    }

    pub fn add(self, next: Sub, spread: Option<Spot>) -> Result<Arguments, NoMemory>
        ensures { IfOk result (λ l. see_arguments l ≡ spec.add_argument (see_arguments self)
            (see next) spread) }
    {
        let Arguments {
            mut items,
            depth: deepest,
            spread: _,
        } = self;
        let Sub {
            tree,
            spot: _,
            depth,
        } = next;
        items.push(tree.into_inner())?;
        Ok(Arguments {
            items,
            depth: deepest.max(depth),
            spread: spread.is_some(),
        })
    }
}

impl<F> Exprs<F>
where
    F: Fn(Global, &mut Cursor<'_>, u32, Ask) -> Result<Got, ParseError>,
{
    // Arg [ "..." ]
    #[tactic(auto, unfolding(ui_syntax::specs::Exprs::argument, ui_parse::specs::Reader::eat, ui_parse::specs::Reader::take_by))]
    fn argument(&self, words: &mut Cursor<'_>, args: Arguments) -> Result<Arguments, ParseError>
        requires { Nests self.now.types.room (F.pre self.now.types.part)
            (F.post self.now.types.part) }
        ensures { Reads see_arguments (spec.argument self.now.types.room
            (readers self.now.types.room) (see_arguments args) words.old) result words.new }
    {
        let next = match self.types.level_at(words, Site::Argument, 1) {
            Ok(next) => next,
            Err(fault) => return Err(fault),
        };
        let spread = words.take(TokenKind::Ellipsis);
        match args.add(next, spread) {
            Ok(args) => Ok(args),
            Err(_) => Err(ParseError::NoMemory),
        }
    }

    fn argument_list(&self, words: &mut Cursor<'_>) -> Result<Arguments, ParseError>
        requires { Nests self.now.types.room (F.pre self.now.types.part)
            (F.post self.now.types.part) }
        ensures { Reads see_arguments (reader.parts Comma RParen spec.call_ending
            (spec.argument self.now.types.room (readers self.now.types.room)) spec.no_arguments
            words.old) result words.new }
    {
        let args = Arguments::new(self.types.alloc);
        parts(
            words,
            TokenKind::Comma,
            TokenKind::RParen,
            args,
            &|words: &mut Cursor<'_>, args| self.argument(words, args),
        )
    }

    // Behind "(".
    #[tactic(auto, unfolding(ui_syntax::specs::Exprs::called))]
    pub(crate) fn called(&self, words: &mut Cursor<'_>, of: Sub) -> Result<Sub, ParseError>
        requires { Nests self.now.types.room (F.pre self.now.types.part)
            (F.post self.now.types.part) }
        ensures { Reads see (spec.called self.now.types.room (readers self.now.types.room)
            (see of) words.old) result words.new }
    {
        let args = match self.argument_list(words) {
            Ok(args) => args,
            Err(fault) => return Err(fault),
        };
        let depth = of.depth.max(args.depth);
        let spot = of.spot;
        let tree = ExprTree::call(spot, of.tree, args.items, args.spread);
        match expr_over(self.types.alloc, tree, spot, depth) {
            Ok(of) => Ok(of),
            Err(_) => Err(ParseError::NoMemory),
        }
    }
}
