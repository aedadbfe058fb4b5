//! The laws that checking is local: what is checked depends on the declarations of the names that
//! are mentioned, and on no others.
#![tactic(auto)]

mod laws;

pub use laws::expressions_are_local;
