//! The phase `form` of a check: the first form of a package's trees that isn't taken yet.
#![tactic(auto, using(std::proofs::lemmas::Grind::common_steps, crate::proofs::FirstLemmas::looking))]

mod decls;
mod exprs;
mod taken;
mod types;

pub use taken::{Taken, Untaken, first_untaken};
