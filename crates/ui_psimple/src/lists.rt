//! Lists of expressions and of names.

ghost use Rattle.std.specs.Prelude.{◌≡◌, IfOk};
ghost use Rattle.ui_parse.specs.View.{Reads};
ghost use Rattle.ui_ptype.specs.Seen.{see, see_all};
ghost use Rattle.ui_syntax.specs.Types.{add, only};
ghost use Rattle.ui_stmts.specs.Common as spec;

use std::alloc::Global;
use ui_base::NoMemory;
use ui_parse::{Cursor, ParseError, chain};
use ui_pread::expr_of_budget;
use ui_ptype::{Sub, Subs, name_list};
use ui_scan::TokenKind;
use ui_tree::{Items, Placed};

/// A list of this expression alone.
pub(crate) fn only(alloc: Global, first: Sub) -> Result<Subs, NoMemory>
    ensures { IfOk result (λ l. see_all l ≡ only (see first).tree first.depth) }
{
    let Sub {
        tree,
        spot: _,
        depth,
    } = first;
    let mut items = Items::new(alloc);
    match items.push(tree.into_inner()) {
        Ok(()) => Ok(Subs { items, depth }),
        Err(fault) => Err(fault),
    }
}

/// A list of these two.
pub(crate) fn both(alloc: Global, first: Sub, second: Sub) -> Result<Subs, NoMemory>
    ensures { IfOk result (λ l. see_all l ≡ add (only (see first).tree first.depth)
        (see second).tree second.depth) }
{
    match only(alloc, first) {
        Ok(all) => all.add(second.tree, second.depth),
        Err(fault) => Err(fault),
    }
}

fn one_expr_more(
    alloc: Global,
    words: &mut Cursor<'_>,
    budget: u32,
    header: bool,
    all: Subs,
) -> Result<Subs, ParseError>
    ensures { Reads see_all (spec.one_expr_more budget header (see_all all) words.old) result
        words.new }
{
    match expr_of_budget(alloc, words, budget, header) {
        Ok(next) => Ok(all.add(next.tree, next.depth)?),
        Err(fault) => Err(fault),
    }
}

/// These expressions, and those behind them with a comma before each.
pub(crate) fn exprs_from(
    alloc: Global,
    words: &mut Cursor<'_>,
    budget: u32,
    header: bool,
    all: Subs,
) -> Result<Subs, ParseError>
    ensures { Reads see_all (spec.exprs_from budget header (see_all all) words.old) result
        words.new }
{
    chain(
        words,
        TokenKind::Comma,
        all,
        &|words: &mut Cursor<'_>, all| one_expr_more(alloc, words, budget, header, all),
    )
}

/// Expressions with commas between.
#[tactic(auto, unfolding(ui_stmts::specs::Common::exprs))]
pub fn exprs(
    alloc: Global,
    words: &mut Cursor<'_>,
    budget: u32,
    header: bool,
) -> Result<Subs, ParseError>
    ensures { Reads see_all (spec.exprs budget header words.old) result words.new }
{
    let first = expr_of_budget(alloc, words, budget, header)?;
    let all = only(alloc, first)?;
    exprs_from(alloc, words, budget, header, all)
}

/// Names with commas between.
#[tactic(auto, unfolding(ui_stmts::specs::Common::names))]
pub fn names(alloc: Global, words: &mut Cursor<'_>) -> Result<Items<Placed>, ParseError>
    ensures { Reads (λ ns. ns) (spec.names words.old) result words.new }
{
    name_list(alloc, words)
}
