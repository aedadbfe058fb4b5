//! The elements of a file that its roots don't reach.
#![tactic(auto)]

mod find;
mod links;
mod stray_rule;
mod table;

pub use find::first_stray;
