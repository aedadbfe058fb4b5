//! Readers of expressions and types as definitions, with the laws that they read exactly the forms
//! of the grammar.
#![tactic(auto)]

mod laws;
mod site;

pub use laws::reads_exactly;
pub use site::{Site, Style, TypeSite};
