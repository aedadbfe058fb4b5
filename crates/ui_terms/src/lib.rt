//! Unions and type parameters: which types are in a union, and core types.
#![tactic(auto, using(crate::specs::Loops::calling))]

mod core_of;
mod list;
mod membership;
mod own;
mod union;

pub use core_of::core_type;
pub use membership::unions_fit;
pub use union::{terms_of, unions_of};
