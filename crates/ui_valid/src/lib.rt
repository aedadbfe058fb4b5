//! The test of a whole file: its elements in the order of section, number and offset, and then
//! the rules over the whole.
//! The answer is the first test that fails.
#![tactic(auto)]

mod case;
mod checked;
mod laws;
mod list;
mod passed;
mod rules;

pub use checked::valid;
pub use laws::one_verdict;
pub use passed::Valid;
