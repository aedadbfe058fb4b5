//! The packages below a package, joined from what the linked files of its imports say.
//!
//! `specs/Claims.antt` says what a file claims, and `specs/Join.antt` what all of them come to.
#![tactic(auto)]

mod claims;
mod laws;
mod lists;

pub use laws::list_of_paths;
pub use lists::{JoinFault, join};
