//! What packages of constants export, and what their linked files stand for.
//!
//! `specs/Export.antt` and `specs/Linked.antt` define both; the crates that read sources, check
//! them and write files speak of these values alone.
#![tactic(auto)]

mod linked;
mod package;

pub use linked::{Below, Linked};
pub use package::{Constant, Package};
pub use ui_base::NoMemory;
