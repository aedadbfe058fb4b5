//! The grammar of Go source files as definitions, and its operators.
#![tactic(auto)]

mod operator;

pub use operator::{assignment_of, level_of, operator_of, prefix_of};
