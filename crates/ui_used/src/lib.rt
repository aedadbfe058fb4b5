//! The phase `imports` of a check: each import is used.
#![tactic(auto)]

mod mentions;
mod used;

pub use used::imports_used;
