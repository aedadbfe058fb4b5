//! The declarations of a package so far, before an environment: an environment that grows as faces
//! are found.
#![tactic(auto)]

mod decls;
mod known;

pub use decls::DeclMap;
pub use known::Known;
