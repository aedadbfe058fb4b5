// What declarations depend on, by the numbers of their nodes.
#![tactic(auto, using(std::proofs::lemmas::Grind::common_steps, crate::proofs::NeedLemmas::adding))]

ghost use Rattle.std.specs.Prelude.{◌≡◌, ◌++◌, ◌∷◌, ◌*◌, ℕ, [], IfOk, OnOk, length, map};
ghost use Rattle.ui_collect.specs.Views.{item_view, what_view};
ghost use Rattle.ui_order.specs.Numbers.{AreLinked};
ghost use Rattle.ui_needs.specs.Links as links;
ghost use Rattle.ui_needs.specs.Views.{found_in, lists};

use crate::needs::{
    group_needs, head_needs, maybe_head, maybe_needs, result_needs, type_needs, value_needs,
    values_needs, whole_needs,
};
use crate::numbers::{Numbering, numbers_of};
use std::alloc::Global;
use ui_base::NoMemory;
use ui_collect::{Item, What};

// What the declared name needs.
fn add_meaning(numbers: &Numbering, found: &mut Vec<usize>, what: &What<'_>) -> Result<(), NoMemory>
    ensures { OnOk result (found.new.items ≡ found.old.items ++ links.meaning_needs (found_in
        numbers.now) (what_view what.now)) }
{
    match what {
        What::Alias(of) => type_needs(numbers, found, of),
        What::Defined(_) => Ok(()),
        What::Var(of) => maybe_needs(numbers, found, *of),
        What::Const { of, value, .. } => {
            whole_needs(numbers, found, *of)?;
            value_needs(numbers, found, value)
        }
        What::Miscounted { of, values, .. } => {
            whole_needs(numbers, found, *of)?;
            values_needs(numbers, found, values)
        }
        What::Func(sig) => {
            group_needs(numbers, found, sig.params.as_slice())?;
            result_needs(numbers, found, &sig.results)
        }
    }
}

// What its underlying type needs, where `own` is the node of what it is declared as.
fn add_under(
    numbers: &Numbering,
    found: &mut Vec<usize>,
    own: usize,
    what: &What<'_>,
) -> Result<(), NoMemory>
    ensures { OnOk result ((k : ℕ) → own ≡ 2 * k → found.new.items ≡ found.old.items ++
        links.under_needs (found_in numbers.now) k (what_view what.now)) }
{
    match what {
        What::Alias(of) => {
            found.push(own)?;
            head_needs(numbers, found, of)
        }
        What::Defined(of) => {
            type_needs(numbers, found, of)?;
            head_needs(numbers, found, of)
        }
        What::Var(of) => {
            found.push(own)?;
            maybe_head(numbers, found, *of)
        }
        What::Const { .. } | What::Miscounted { .. } | What::Func(_) => {
            found.push(own)?;
            Ok(())
        }
    }
}

// The links of both nodes of a declaration.
#[tactic(auto, using(std::proofs::lemmas::Grind::common_steps, crate::proofs::LinkLemmas::linking, crate::proofs::NeedLemmas::adding))]
fn add_links(
    alloc: Global,
    numbers: &Numbering,
    found: &mut Vec<Vec<usize>>,
    own: usize,
    what: &What<'_>,
) -> Result<(), NoMemory>
    ensures { OnOk result ((k : ℕ) → own ≡ 2 * k → lists found.new.items ≡ lists found.old.items
        ++ links.meaning_needs (found_in numbers.now) (what_view what.now) ∷ links.under_needs
        (found_in numbers.now) k (what_view what.now) ∷ []) }
{
    let mut meaning = Vec::new(alloc);
    add_meaning(numbers, &mut meaning, what)?;
    found.push(meaning)?;
    let mut under = Vec::new(alloc);
    add_under(numbers, &mut under, own, what)?;
    found.push(under)?;
    Ok(())
}

// The links of all nodes, where the names have these nodes.
#[tactic(auto, using(std::proofs::lemmas::Grind::common_steps, crate::proofs::LinkLemmas::linking))]
fn all_links(
    alloc: Global,
    numbers: &Numbering,
    items: &[Item<'_>],
) -> Result<Vec<Vec<usize>>, NoMemory>
    ensures { IfOk result (λ v. lists v.items ≡ links.links_from (found_in numbers.now) 0 (map
        item_view items.now)) }
{
    let mut found = Vec::new(alloc);
    for i in 0..items.len() {
        add_links(alloc, numbers, &mut found, 2 * i, &items[i].what)?;
    }
    Ok(found)
}

/// What each node depends on, by numbers: 2k is what the name of the k-th declaration is declared
/// as, 2k + 1 the underlying type of that.
#[tactic(auto, using(std::proofs::lemmas::Grind::common_steps, crate::proofs::LinkLemmas::linking, crate::proofs::RangeLemmas::ranging))]
pub fn links_of(alloc: Global, items: &[Item<'_>]) -> Result<Vec<Vec<usize>>, NoMemory>
    ensures links { IfOk result (λ v. lists v.items ≡ links.links_of (map item_view items.now)) }
    ensures linked { IfOk result (λ v. AreLinked v.items) }
    ensures count { IfOk result (λ v. length v.items ≡ 2 * length items.now) }
{
    let numbers = numbers_of(alloc, items)?;
    let links = all_links(alloc, &numbers, items)?;
    Ok(links)
}
