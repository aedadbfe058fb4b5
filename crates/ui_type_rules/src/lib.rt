//! The rules over the types of a whole file: what they are made of, and their limits.
#![tactic(auto)]

mod limit_rule;
mod under_rule;

pub use limit_rule::TypeLimit;
pub use under_rule::NamedUnder;
