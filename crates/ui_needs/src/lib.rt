//! The phase `dependence` of a check: what declarations depend on, which of them depend on
//! themselves, and the order in which they are checked.
#![tactic(auto)]

mod cycles;
mod links;
mod needs;
mod numbers;

pub use cycles::{first_cycle, needs_marked, node_order};
pub use links::links_of;
pub use numbers::{Nodes, Numbering, numbers_of};
