// Declarations that depend on themselves, and the order in which nodes are checked.
#![tactic(auto, using(std::proofs::lemmas::Grind::common_steps, crate::proofs::CycleLemmas::cycling))]

ghost use Rattle.std.specs.Prelude.{◌≡◌, ◌*◌, length, get_or, false, IfOk};
ghost use Rattle.ui_order.specs.Numbers.{AreLinked, number_order};
ghost use Rattle.ui_needs.specs.Cycles as cycles;
ghost use Rattle.ui_needs.specs.Cycles.{IsFirstCycle};
ghost use Rattle.ui_needs.specs.Views.{lists};

use std::alloc::Global;
use ui_base::NoMemory;
use ui_order::{first_on_cycle, in_order};

/// The number of the first declaration that depends on itself, where these are the links of the
/// nodes of so many declarations.
pub fn first_cycle(
    alloc: Global,
    links: &[Vec<usize>],
    count: usize,
) -> Result<Option<usize>, NoMemory>
    requires linked { AreLinked links.now }
    requires count { length links.now ≡ 2 * count }
    ensures { IfOk result (IsFirstCycle (lists links.now) count) }
{
    match first_on_cycle(alloc, links)? {
        None => Ok(None),
        Some(node) => Ok(Some(node / 2)),
    }
}

/// The order in which nodes are checked: repeatedly the least one whose links are all taken. A
/// node on a cycle, or that leads to one, is left out.
pub fn node_order(alloc: Global, links: &[Vec<usize>]) -> Result<Vec<usize>, NoMemory>
    requires { AreLinked links.now }
    ensures { IfOk result (λ order. order.items ≡ number_order links.now) }
{
    in_order(alloc, links)
}

// Whether a node is marked; past the end none is.
fn is_marked(marks: &[bool], node: usize) -> bool
    ensures { result ≡ get_or marks.now node false }
{
    if node < marks.len() {
        marks[node]
    } else {
        false
    }
}

/// Whether one of the links leads to a node that is marked.
pub fn needs_marked(marks: &[bool], links: &[usize]) -> bool
    ensures { result ≡ cycles.needs_marked marks.now links.now }
{
    links.iter().any(|node| is_marked(marks, *node))
}
