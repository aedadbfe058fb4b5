//! The readers of each budget: a function value that reads parts, and calls itself for theirs.

ghost use Rattle.std.specs.Prelude.{◌≡◌, suc, List};
ghost use Rattle.ui_grammar.specs.Word.{Word};
ghost use Rattle.ui_parse.specs.View.{Reads};
ghost use Rattle.ui_ptype.specs.Asked.{asked, see_got};
ghost use Rattle.ui_ptype.specs.Nests.{Nests};
ghost use Rattle.ui_ptype.specs.Seen.{see, see_maybe};
ghost use Rattle.ui_syntax.specs.Read.{readers};

use crate::exprs::Exprs;
use std::alloc::Global;
use ui_parse::{Cursor, ParseError};
use ui_ptype::{Ask, Got, Grammar, Sub, TypeSub};
use ui_syntax::{Site, TypeSite};

// What is asked for, where the budget is none.
#[tactic(auto, unfolding(ui_syntax::specs::Read::readers))]
fn without_budget(ask: Ask) -> Result<Got, ParseError>
    ensures { (ws : List Word) → Reads see_got (asked 0 ask ws) result ws }
{
    match ask {
        Ask::MaybeType(_) => Ok(Got::MaybeType(None)),
        Ask::Level(_, _) | Ask::Braces => Err(ParseError::Fault),
    }
}

impl<F> Exprs<F>
where
    F: Fn(Global, &mut Cursor<'_>, u32, Ask) -> Result<Got, ParseError>,
{
    #[tactic(auto, using(crate::proofs::Budgets::asked_level, crate::proofs::Budgets::asked_level_fault, crate::proofs::Budgets::asked_type, crate::proofs::Budgets::asked_type_fault, crate::proofs::Budgets::asked_braces, crate::proofs::Budgets::asked_braces_fault))]
    fn own_part(&self, words: &mut Cursor<'_>, ask: Ask) -> Result<Got, ParseError>
        requires { Nests self.now.types.room (F.pre self.now.types.part)
            (F.post self.now.types.part) }
        ensures { Reads see_got (asked (suc self.now.types.room) ask words.old) result words.new }
    {
        match ask {
            Ask::Level(site, least) => match self.own_level(words, site, least) {
                Ok(of) => Ok(Got::Level(of)),
                Err(fault) => Err(fault),
            },
            Ask::MaybeType(site) => match self.types.own_type(words, site) {
                Ok(of) => Ok(Got::MaybeType(of)),
                Err(fault) => Err(fault),
            },
            Ask::Braces => match self.own_braces(words) {
                Ok(elems) => Ok(Got::Braces(elems)),
                Err(fault) => Err(fault),
            },
        }
    }
}

/// What is asked for, within the budget.
#[tactic(auto, using(crate::proofs::Budgets::no_budget, crate::proofs::Budgets::asked_above))]
pub(crate) fn part(
    alloc: Global,
    words: &mut Cursor<'_>,
    budget: u32,
    ask: Ask,
) -> Result<Got, ParseError>
    ensures { Reads see_got (asked budget ask words.old) result words.new }
{
    if budget == 0 {
        return without_budget(ask);
    }
    let types = Grammar {
        alloc,
        room: budget - 1,
        part,
    };
    Exprs { types }.own_part(words, ask)
}

/// An expression within the budget of depth, whose operators bind at least so tightly; at some
/// sites a type alone.
#[tactic(auto, using(ui_ptype::proofs::AskedReads::is_level, ui_ptype::proofs::AskedReads::level_read, ui_ptype::proofs::AskedReads::level_fault))]
pub fn level(
    alloc: Global,
    words: &mut Cursor<'_>,
    budget: u32,
    site: Site,
    least: u8,
) -> Result<Sub, ParseError>
    ensures { Reads see ((readers budget).level site least words.old) result words.new }
{
    match part(alloc, words, budget, Ask::Level(site, least)) {
        Ok(got) => Ok(got.into_level()),
        Err(fault) => Err(fault),
    }
}

/// A type within the budget, where one begins.
#[tactic(auto, using(ui_ptype::proofs::AskedReads::is_type, ui_ptype::proofs::AskedReads::type_read, ui_ptype::proofs::AskedReads::type_fault))]
pub fn maybe_type(
    alloc: Global,
    words: &mut Cursor<'_>,
    budget: u32,
    site: TypeSite,
) -> Result<Option<TypeSub>, ParseError>
    ensures { Reads see_maybe ((readers budget).maybe_type site words.old) result words.new }
{
    match part(alloc, words, budget, Ask::MaybeType(site)) {
        Ok(got) => Ok(got.into_maybe_type()),
        Err(fault) => Err(fault),
    }
}
