// Numbers on cycles. One walk along links finds the strongly connected components, so that each
// number and each link is looked at once: a number is on a cycle where its component has another
// number, or it links to itself.
ghost use Rattle.std.specs.Prelude.{◌≡◌, ◌↔◌, ◌<◌, ◌≤◌, ◌-◌, ◌++◌, ℕ, List, [], ◌∷◌, length};
ghost use Rattle.std.specs.Prelude.{get_or, take, true, IfOk, OnOk, IsTrue, IsFalse, nat_eq};
ghost use Rattle.std.specs.Prelude.{vec_len};
ghost use Rattle.ui_order.specs.declared.cycle.Place.TheVariants.{Unseen};
ghost use Rattle.ui_order.specs.Steps.{has};
ghost use Rattle.ui_order.specs.Numbers.{Links, linked, AreLinked, IsFirstOnCycle};
ghost use Rattle.ui_order.specs.Components.{place_in, is_seen, is_done, IsRising, ArePlaced};
ghost use Rattle.ui_order.specs.Components.{AreTold, AreKept, IsWalk, IsWalkAt, IsEntered};
ghost use Rattle.ui_order.specs.Components.{IsClosed, IsFollowed, IsStep, IsAtRest};

use std::alloc::Global;
use ui_base::NoMemory;

// Where a number is.
#[derive(Clone, Copy)]
pub(crate) enum Place {
    Unseen,
    // at this position of the path
    OnPath(usize),
    // its component is known, and so whether it is on a cycle
    Done(bool),
}

#[derive(Drop)]
pub(crate) struct Walk {
    // for each number
    places: Vec<Place>,
    // how many of a number's links, from the first on, are looked at
    looked: Vec<usize>,
    // the numbers that are seen and not done
    path: Vec<usize>,
    // the positions of the path where a component begins
    bounds: Vec<usize>,
    // the positions of the numbers whose links are being looked at
    calls: Vec<usize>,
}

// A walk that has seen no number yet.
fn first_walk(alloc: Global, links: &[Vec<usize>]) -> Result<Walk, NoMemory>
    ensures { IfOk result (IsAtRest links.now) }
{
    let places = vec![in alloc; Place::Unseen; links.len()]?;
    let looked = vec![in alloc; 0; links.len()]?;
    Ok(Walk {
        places,
        looked,
        path: Vec::new(alloc),
        bounds: Vec::new(alloc),
        calls: Vec::new(alloc),
    })
}

// Goes to a number that wasn't seen: it is a component by itself.
fn enter(walk: &mut Walk, k: usize) -> Result<(), NoMemory>
    requires { k < vec_len walk.old.places }
    ensures { OnOk result (IsEntered k walk.old walk.new) }
{
    let position = walk.path.len();
    walk.places[k] = Place::OnPath(position);
    walk.path.push(k)?;
    walk.bounds.push(position)?;
    walk.calls.push(position)?;
    Ok(())
}

// The components from the one at a position on are one.
fn merge(bounds: &mut Vec<usize>, position: usize)
    requires { IsRising bounds.old.items }
    ensures rising { IsRising bounds.new.items }
    ensures kept { (b : ℕ) → (has nat_eq bounds.new.items b ≡ true)
        ↔ ((has nat_eq bounds.old.items b ≡ true) × (b ≤ position)) }
{
    let mut count = bounds.len();
    while count > 0 && bounds[count - 1] > position {
        count -= 1;
    }
    bounds.truncate(count);
}

// The numbers from a position on are done.
fn close(places: &mut Vec<Place>, path: &mut Vec<usize>, from: usize, is_on_cycle: bool)
    requires placed { ArePlaced places.old.items path.old.items }
    requires from { from ≤ vec_len path.old }
    ensures path { path.new.items ≡ take from path.old.items }
    ensures closed { IsClosed from (vec_len path.old) is_on_cycle places.old.items
        places.new.items }
{
    for i in from..path.len() {
        places[path[i]] = Place::Done(is_on_cycle);
    }
    path.truncate(from);
}

// Whether the last component begins at the position.
fn is_last(bounds: &[usize], position: usize) -> bool
    ensures yes { IsTrue result → (0 < length bounds.now)
        × (get_or bounds.now (length bounds.now - 1) 0 ≡ position) }
    ensures no { IsFalse result → 0 < length bounds.now
        → get_or bounds.now (length bounds.now - 1) 0 ≡ position → ⊥ }
{
    !bounds.is_empty() && bounds[bounds.len() - 1] == position
}

// Ends the last call, all of whose links are looked at. Where a component begins there, it is known
// whole.
fn leave(walk: &mut Walk, links: &[Vec<usize>], at: usize)
    requires walked { IsWalkAt links.now walk.old at }
    requires ended { get_or walk.old.looked.items (get_or walk.old.path.items at 0) 0
        ≡ length (linked links.now (get_or walk.old.path.items at 0)) }
    ensures { IsStep links.now walk.old walk.new }
{
    if !is_last(walk.bounds.as_slice(), at) {
        return;
    }
    walk.bounds.pop();
    let k = walk.path[at];
    let is_on_cycle = at + 1 < walk.path.len() || links[k].contains(&k);
    close(&mut walk.places, &mut walk.path, at, is_on_cycle);
}

// Goes along a link from the last call.
fn follow(walk: &mut Walk, link: usize) -> Result<(), NoMemory>
    requires link { link < vec_len walk.old.places }
    requires rising { IsRising walk.old.bounds.items }
    ensures { (links : Links) (calls : List ℕ) (at : ℕ) → IsWalk links walk.old
        → walk.old.calls.items ≡ calls ++ at ∷ []
        → has nat_eq (linked links (get_or walk.old.path.items at 0)) link ≡ true → OnOk result (IsFollowed links at link walk.old walk.new) }
{
    match walk.places[link] {
        Place::Unseen => enter(walk, link)?,
        Place::OnPath(position) => merge(&mut walk.bounds, position),
        Place::Done(_) => (),
    }
    Ok(())
}

// Looks at the next link of the last call, or ends that call.
fn step(walk: &mut Walk, links: &[Vec<usize>], at: usize) -> Result<(), NoMemory>
    requires links { AreLinked links.now }
    requires walked { IsWalkAt links.now walk.old at }
    ensures { OnOk result (IsStep links.now walk.old walk.new) }
{
    let k = walk.path[at];
    let own = links[k].as_slice();
    let i = walk.looked[k];
    if i < own.len() {
        walk.calls.push(at)?;
        follow(walk, own[i])?;
        walk.looked[k] = i + 1;
    } else {
        leave(walk, links, at);
    }
    Ok(())
}

// Walks along the links from a number.
fn walk_from(walk: &mut Walk, links: &[Vec<usize>], start: usize) -> Result<(), NoMemory>
    requires links { AreLinked links.now }
    requires rest { IsAtRest links.now walk.old }
    requires start { place_in walk.old.places.items start ≡ Unseen }
    requires number { start < length links.now }
    ensures rest { OnOk result (IsAtRest links.now walk.new) }
    ensures kept { OnOk result (AreKept walk.old.places.items walk.new.places.items) }
    ensures seen { OnOk result (is_seen (place_in walk.new.places.items start) ≡ true) }
{
    enter(walk, start)?;
    while let Some(at) = walk.calls.pop() {
        step(walk, links, at)?;
    }
    Ok(())
}

// Walks along all links.
fn walk_all(alloc: Global, links: &[Vec<usize>]) -> Result<Vec<Place>, NoMemory>
    requires { AreLinked links.now }
    ensures size { IfOk result (λ places. vec_len places ≡ length links.now) }
    ensures done { IfOk result (λ places. (k : ℕ) → k < length links.now
        → is_done (place_in places.items k) ≡ true) }
    ensures told { IfOk result (λ places. AreTold links.now places.items) }
{
    let mut walk = first_walk(alloc, links)?;
    for k in 0..links.len() {
        if let Place::Unseen = walk.places[k] {
            walk_from(&mut walk, links, k)?;
        }
    }
    let Walk {
        places,
        looked: _,
        path: _,
        bounds: _,
        calls: _,
    } = walk;
    Ok(places)
}

/// The least number on a cycle, where `links[k]` are the numbers that `k` links to, in time linear
/// in the links. A number that links to itself is on one.
pub fn first_on_cycle(alloc: Global, links: &[Vec<usize>]) -> Result<Option<usize>, NoMemory>
    requires { AreLinked links.now }
    ensures { IfOk result (IsFirstOnCycle links.now) }
{
    let places = walk_all(alloc, links)?;
    for k in 0..places.len() {
        if let Place::Done(true) = places[k] {
            return Ok(Some(k));
        }
    }
    Ok(None)
}
