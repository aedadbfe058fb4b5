ghost use Rattle.std.specs.Prelude.{◌≡◌, ◌<◌, ℕ, IfOk, length, map, nat_eq, true, string_bytes};
ghost use Rattle.ui_order.specs.Steps.{has};
ghost use Rattle.ui_order.specs.Found.{IsClosed};
ghost use Rattle.ui_order.specs.Tables.{texts, graph_of};
ghost use Rattle.ui_order.specs.Numbered.{names, path_at};
ghost use Rattle.ui_order.specs.Order.{arranged};
ghost use Rattle.ui_order.specs.Shown.{shown};

use crate::cycle::first_on_cycle;
use crate::plan::in_order;
use crate::table::{links_of, numbered};
use indexmap::IndexSet;
use std::alloc::Global;
use std::collections::BTreeMap;
use ui_base::NoMemory;

/// The build order, or a cycle of imports in its place.
#[derive(Drop)]
pub enum Order {
    /// The least path on a cycle.
    Cycle(String),
    /// Each path after all its imports.
    Paths(Vec<String>),
}

// The path of a number.
fn path_of(paths: &IndexSet<String>, number: usize) -> Result<String, NoMemory>
    requires { number < length (names paths.now) }
    ensures { IfOk result (λ path. string_bytes path ≡ path_at (names paths.now) number) }
{
    match paths.get_index(number) {
        Some(path) => path.clone(),
        None => unreachable!(),
    }
}

// The paths of these numbers.
fn paths_of(
    alloc: Global,
    paths: &IndexSet<String>,
    numbers: &[usize],
) -> Result<Vec<String>, NoMemory>
    requires { (k : ℕ) → has nat_eq numbers.now k ≡ true → k < length (names paths.now) }
    ensures { IfOk result (λ v. texts v ≡ map (path_at (names paths.now)) numbers.now) }
{
    let mut found = Vec::new(alloc);
    for number in numbers {
        found.push(path_of(paths, *number)?)?;
    }
    Ok(found)
}

/// The least path on a cycle, or else the build order.
pub(crate) fn arrange(
    alloc: Global,
    read: &BTreeMap<String, Vec<String>>,
) -> Result<Order, NoMemory>
    requires { IsClosed (graph_of read.now.entries) }
    ensures { IfOk result (λ order. shown order ≡ arranged (graph_of read.now.entries)) }
{
    let paths = numbered(alloc, read)?;
    let links = links_of(alloc, &paths, read)?;
    let order = in_order(alloc, links.as_slice())?;
    match first_on_cycle(alloc, links.as_slice())? {
        Some(first) => Ok(Order::Cycle(path_of(&paths, first)?)),
        None => Ok(Order::Paths(paths_of(alloc, &paths, order.as_slice())?)),
    }
}
