// The order of numbers: repeatedly the least one whose links are all taken. Each number that isn't
// ready waits for one link, so every link is looked at once.
ghost use Rattle.std.specs.Prelude.{◌≡◌, ◌<◌, ◌≤◌, ℕ, List, [], ◌∷◌, length, get_or, true, false};
ghost use Rattle.std.specs.Prelude.{IfOk, OnOk, None, MatchOption, nat_eq, vec_len};
ghost use Rattle.std.specs.Ordering.{nat_cmp};
ghost use Rattle.std.specs.BTreeSet.{contains};
ghost use Rattle.std.specs.List.{range_with_len};
ghost use Rattle.ui_order.specs.Steps.{has};
ghost use Rattle.ui_order.specs.Numbers.{Links, linked, AreLinked, number_order, next_number};
ghost use Rattle.ui_order.specs.Numbers.{IsSized, IsPlan, IsNumberOrder, IsTurn};

use std::alloc::Global;
use std::collections::BTreeSet;
use std::mem;
use ui_base::NoMemory;

#[derive(Drop)]
pub(crate) struct Plan {
    // which numbers are taken
    taken: Vec<bool>,
    // how many of a number's links, from the first on, are known to be taken
    at: Vec<usize>,
    // the numbers that wait for a number
    waiting: Vec<Vec<usize>>,
    ready: BTreeSet<usize>,
}

// The first place from `from` on whose link isn't taken, or else the end.
fn first_untaken(links: &[usize], from: usize, taken: &[bool]) -> usize
    requires from { from ≤ length links.now }
    requires links { (j : ℕ) → has nat_eq links.now j ≡ true → j < length taken.now }
    ensures within { result ≤ length links.now }
    ensures passed { (i : ℕ) → from ≤ i → i < result
        → get_or taken.now (get_or links.now i 0) false ≡ true }
    ensures found { result < length links.now
        → get_or taken.now (get_or links.now result 0) false ≡ false }
{
    for i in from..links.len() {
        if !taken[links[i]] {
            return i;
        }
    }
    links.len()
}

// Looks at a number: it waits for its next link that isn't taken, or is ready.
fn wait(plan: &mut Plan, links: &[Vec<usize>], k: usize) -> Result<(), NoMemory>
    requires number { k < length links.now }
    requires links { AreLinked links.now }
    requires sized { IsSized links.now plan.old }
    ensures sized { OnOk result (IsSized links.now plan.new) }
    ensures looked_at { (order left : List ℕ) → IsPlan links.now order (k ∷ left) plan.old
        → OnOk result (IsPlan links.now order left plan.new) }
{
    let own = links[k].as_slice();
    let i = first_untaken(own, plan.at[k], plan.taken.as_slice());
    plan.at[k] = i;
    if i < own.len() {
        plan.waiting[own[i]].push(k)?;
    } else {
        plan.ready.insert(k)?;
    }
    Ok(())
}

// So many empty lists.
fn empty_lists(alloc: Global, count: usize) -> Result<Vec<Vec<usize>>, NoMemory>
    ensures size { IfOk result (λ lists. vec_len lists ≡ count) }
    ensures empty { IfOk result (λ lists. (j : ℕ) → linked lists.items j ≡ []) }
{
    let mut lists = Vec::new(alloc);
    for _ in 0..count {
        lists.push(Vec::new(alloc))?;
    }
    Ok(lists)
}

// A plan that has looked at no number yet.
fn first_plan(alloc: Global, links: &[Vec<usize>]) -> Result<Plan, NoMemory>
    ensures sized { IfOk result (IsSized links.now) }
    ensures planned { IfOk result (IsPlan links.now [] (range_with_len 0 (length links.now))) }
{
    let count = links.len();
    let taken = vec![in alloc; false; count]?;
    let at = vec![in alloc; 0; count]?;
    let waiting = empty_lists(alloc, count)?;
    Ok(Plan {
        taken,
        at,
        waiting,
        ready: BTreeSet::new(alloc),
    })
}

// Looks at every number.
fn look_at_all(plan: &mut Plan, links: &[Vec<usize>]) -> Result<(), NoMemory>
    requires links { AreLinked links.now }
    requires sized { IsSized links.now plan.old }
    requires planned { IsPlan links.now [] (range_with_len 0 (length links.now)) plan.old }
    ensures sized { OnOk result (IsSized links.now plan.new) }
    ensures planned { OnOk result (IsPlan links.now [] [] plan.new) }
{
    for k in 0..links.len() {
        wait(plan, links, k)?;
    }
    Ok(())
}

// Looks at these numbers.
fn look_at(plan: &mut Plan, links: &[Vec<usize>], numbers: &[usize]) -> Result<(), NoMemory>
    requires numbers { (k : ℕ) → has nat_eq numbers.now k ≡ true → k < length links.now }
    requires links { AreLinked links.now }
    requires sized { IsSized links.now plan.old }
    ensures sized { OnOk result (IsSized links.now plan.new) }
    ensures planned { (order : List ℕ) → IsPlan links.now order numbers.now plan.old
        → OnOk result (IsPlan links.now order [] plan.new) }
{
    for k in numbers {
        wait(plan, links, *k)?;
    }
    Ok(())
}

// Takes the least ready number. It gives the numbers that waited for it.
fn take_least(alloc: Global, plan: &mut Plan) -> Option<(usize, Vec<usize>)>
    requires { (k : ℕ) → contains nat_cmp plan.old.ready k ≡ true → (k < vec_len plan.old.taken)
        × (k < vec_len plan.old.waiting) }
    ensures { (links : Links) (order : List ℕ) → IsSized links plan.old → IsNumberOrder links order
        → IsPlan links order [] plan.old
        → MatchOption result ((next_number links order ≡ None) × (plan.new.taken ≡ plan.old.taken)) (IsTurn links order plan.new) }
{
    let i = match plan.ready.pop_first() {
        Some(i) => i,
        None => return None,
    };
    plan.taken[i] = true;
    let woken = mem::replace(&mut plan.waiting[i], Vec::new(alloc));
    Some((i, woken))
}

/// The order of the numbers from 0 to below the number of lists, where `links[k]` are the numbers
/// that `k` links to: repeatedly the least one whose links are all taken. Numbers on a cycle and
/// those that lead to one are left out. Its time is linear in the links, but for the search tree of
/// the ready numbers.
pub fn in_order(alloc: Global, links: &[Vec<usize>]) -> Result<Vec<usize>, NoMemory>
    requires { AreLinked links.now }
    ensures { IfOk result (λ order. order.items ≡ number_order links.now) }
{
    let mut plan = first_plan(alloc, links)?;
    look_at_all(&mut plan, links)?;
    let mut order = Vec::new(alloc);
    while let Some((i, woken)) = take_least(alloc, &mut plan) {
        order.push(i)?;
        look_at(&mut plan, links, woken.as_slice())?;
    }
    Ok(order)
}
