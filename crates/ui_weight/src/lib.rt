//! The weight of declarations.
#![tactic(auto)]

mod bytes;
mod decls;
mod texts;

pub use decls::{MAX_WEIGHT, weight};
