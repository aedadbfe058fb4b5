//! Elements of literals, behind the brace. Go specification, "Composite literals".

ghost use Rattle.std.specs.Prelude.{◌≡◌, IfOk, max};
ghost use Rattle.ui_syntax.specs.Types.{add};
ghost use Rattle.ui_tree.specs.Tree.{keyed};
ghost use Rattle.ui_ptype.specs.Seen.{see, see_all};
ghost use Rattle.ui_parse.specs.View.{Reads};
ghost use Rattle.ui_ptype.specs.Nests.{Nests};
ghost use Rattle.ui_syntax.specs.Exprs as spec;
ghost use Rattle.ui_syntax.specs.Read.{readers};

use crate::exprs::Exprs;
use std::alloc::Global;
use ui_base::NoMemory;
use ui_parse::{Cursor, ParseError, parts};
use ui_ptype::{Ask, Got, Sub, Subs, expr_over};
use ui_scan::TokenKind;
use ui_tree::{Boxed, ExprTree};

// One more element, with its key.
fn add_keyed(alloc: Global, elems: Subs, key: Sub, value: Sub) -> Result<Subs, NoMemory>
    ensures { IfOk result (λ l. see_all l ≡ add (see_all elems)
        (keyed key.spot (see key).tree (see value).tree) (max key.depth value.depth)) }
{
    let depth = key.depth.max(value.depth);
    let tree = Boxed::new(alloc, ExprTree::keyed(key.spot, key.tree, value.tree))?;
    elems.add(tree, depth)
}

impl<F> Exprs<F>
where
    F: Fn(Global, &mut Cursor<'_>, u32, Ask) -> Result<Got, ParseError>,
{
    // Expr | Lit
    #[tactic(auto, unfolding(ui_parse::specs::Reader::take_by))]
    fn item(&self, words: &mut Cursor<'_>) -> Result<Sub, ParseError>
        requires { Nests self.now.types.room (F.pre self.now.types.part)
            (F.post self.now.types.part) }
        ensures { Reads see (spec.item self.now.types.room (readers self.now.types.room) words.old)
            result words.new }
    {
        if self.types.room == 0 {
            return self.types.an_expr(words);
        }
        match words.take(TokenKind::LBrace) {
            Some(spot) => {
                let Subs { items, depth } = match self.types.nested_braces(words) {
                    Ok(elems) => elems,
                    Err(fault) => return Err(fault),
                };
                match expr_over(self.types.alloc, ExprTree::elided(spot, items), spot, depth) {
                    Ok(of) => Ok(of),
                    Err(_) => Err(ParseError::NoMemory),
                }
            }
            None => self.types.an_expr(words),
        }
    }

    // [ Item ":" ] Item
    #[tactic(auto, unfolding(ui_syntax::specs::Exprs::elem, ui_parse::specs::Reader::take_by))]
    fn elem(&self, words: &mut Cursor<'_>, elems: Subs) -> Result<Subs, ParseError>
        requires { Nests self.now.types.room (F.pre self.now.types.part)
            (F.post self.now.types.part) }
        ensures { Reads see_all (spec.elem self.now.types.room (readers self.now.types.room)
            (see_all elems) words.old) result words.new }
    {
        let first = match self.item(words) {
            Ok(first) => first,
            Err(fault) => return Err(fault),
        };
        if words.take(TokenKind::Colon).is_none() {
            return match elems.add(first.tree, first.depth) {
                Ok(elems) => Ok(elems),
                Err(_) => Err(ParseError::NoMemory),
            };
        }
        let value = match self.item(words) {
            Ok(value) => value,
            Err(fault) => return Err(fault),
        };
        match add_keyed(self.types.alloc, elems, first, value) {
            Ok(elems) => Ok(elems),
            Err(_) => Err(ParseError::NoMemory),
        }
    }

    #[tactic(auto, unfolding(ui_syntax::specs::Exprs::braces))]
    pub(crate) fn own_braces(&self, words: &mut Cursor<'_>) -> Result<Subs, ParseError>
        requires { Nests self.now.types.room (F.pre self.now.types.part)
            (F.post self.now.types.part) }
        ensures { Reads see_all (spec.braces self.now.types.room
            (readers self.now.types.room) words.old) result words.new }
    {
        let elems = Subs::new(self.types.alloc);
        parts(
            words,
            TokenKind::Comma,
            TokenKind::RBrace,
            elems,
            &|words: &mut Cursor<'_>, elems| self.elem(words, elems),
        )
    }
}
