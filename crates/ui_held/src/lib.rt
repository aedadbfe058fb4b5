//! Types that hold themselves by value.
#![tactic(auto)]

mod first;
mod held;

pub use first::first_infinite;
