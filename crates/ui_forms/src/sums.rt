// The terms of sums.
ghost use Rattle.std.specs.Prelude.{◌≡◌};
ghost use Rattle.ui_tree.specs.View.{view};
ghost use Rattle.ui_forms.specs.Numbers.{has};
ghost use Rattle.ui_forms.specs.Choosing.{GivesPart};
ghost use Rattle.ui_forms.specs.Sums as sums;

use crate::fault::PartFault;
use crate::numbers::Numbers;
use crate::part::Term;
use crate::words::is_constant_name;
use std::alloc::Global;
use ui_base::{BinOp, Spot, Text, Value};
use ui_tree::{ExprTree, Items, LiteralKind, Placed, tree_spot};

// A number of a literal.
fn number_of(spot: Spot, value: &Value) -> Result<Term, PartFault>
    ensures { GivesPart (sums.number_of spot value.now) result }
{
    match value {
        Value::Whole(whole) => match u128::try_from(*whole) {
            Ok(value) => Ok(Term::Digits { spot, value }),
            Err(_) => Err(PartFault::NotTaken(spot)),
        },
        _ => Err(PartFault::NotTaken(spot)),
    }
}

// A literal as a term.
fn literal_of(spot: Spot, kind: LiteralKind, value: &Value) -> Result<Term, PartFault>
    ensures { GivesPart (sums.literal_of spot kind value.now) result }
{
    match kind {
        LiteralKind::Whole => number_of(spot, value),
        _ => Err(PartFault::NotTaken(spot)),
    }
}

// A name as a term.
fn own_of(alloc: Global, own: &Numbers, name: &Placed) -> Result<Term, PartFault>
    ensures { GivesPart (sums.own_of (has own.now) name.now) result }
{
    if !own.has(name.text.bytes()) {
        return Err(PartFault::NotTaken(name.spot));
    }
    let text = name.text.copy(alloc)?;
    Ok(Term::Own {
        spot: name.spot,
        name: text,
    })
}

// `Q.NAME`, where Q is a name.
fn constant_of(
    alloc: Global,
    imports: &Numbers,
    spot: Spot,
    segment: &Text,
    name: &Text,
) -> Result<Term, PartFault>
    ensures { GivesPart (sums.of_import (has imports.now) spot segment.now name.now) result }
{
    if !imports.has(segment.bytes()) || !is_constant_name(name.bytes()) {
        return Err(PartFault::NotTaken(spot));
    }
    let segment = segment.copy(alloc)?;
    let name = name.copy(alloc)?;
    Ok(Term::Of {
        spot,
        segment,
        name,
    })
}

// `Q.NAME`
#[tactic(auto, using(ui_tree::specs::Views::variants))]
fn selected(
    alloc: Global,
    imports: &Numbers,
    spot: Spot,
    of: &ExprTree,
    member: &Placed,
) -> Result<Term, PartFault>
    ensures { GivesPart (sums.selected (has imports.now) spot (view of.now) member.now) result }
{
    match of {
        ExprTree::Name(segment) => {
            constant_of(alloc, imports, spot, &segment.text, &member.text)
        }
        _ => Err(PartFault::NotTaken(spot)),
    }
}

// An expression as a term.
#[tactic(auto, using(ui_tree::specs::Views::variants))]
fn term_of(
    alloc: Global,
    imports: &Numbers,
    own: &Numbers,
    of: &ExprTree,
) -> Result<Term, PartFault>
    ensures { GivesPart (sums.term_of (has imports.now) (has own.now) (view of.now)) result }
{
    match of {
        ExprTree::Literal { spot, kind, value } => literal_of(*spot, *kind, value),
        ExprTree::Name(name) => own_of(alloc, own, name),
        ExprTree::Selector { spot, of, member } => {
            selected(alloc, imports, *spot, of.get(), member)
        }
        _ => Err(PartFault::NotTaken(tree_spot(of))),
    }
}

fn is_add(op: BinOp) -> bool
    ensures { result ≡ sums.is_add op }
{
    matches!(op, BinOp::Add)
}

// A term alone.
fn alone(
    alloc: Global,
    imports: &Numbers,
    own: &Numbers,
    of: &ExprTree,
) -> Result<Items<Term>, PartFault>
    ensures { GivesPart (sums.alone (sums.term_of (has imports.now) (has own.now) (view of.now)))
        result }
{
    let term = term_of(alloc, imports, own, of)?;
    let mut terms = Items::new(alloc);
    terms.push(term)?;
    Ok(terms)
}

/// The terms of a sum, from left to right, by the names of imports and of constants that are known.
pub(crate) fn terms_of(
    alloc: Global,
    imports: &Numbers,
    own: &Numbers,
    of: &ExprTree,
) -> Result<Items<Term>, PartFault>
    ensures { GivesPart (sums.terms_of (has imports.now) (has own.now) (view of.now)) result }
{
    match of {
        ExprTree::Binary {
            spot,
            op,
            left,
            right,
        } => {
            if !is_add(*op) {
                return Err(PartFault::NotTaken(*spot));
            }
            let mut terms = terms_of(alloc, imports, own, left.get())?;
            let term = term_of(alloc, imports, own, right.get())?;
            terms.push(term)?;
            Ok(terms)
        }
        _ => alone(alloc, imports, own, of),
    }
}
