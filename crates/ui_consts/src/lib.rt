//! Linked files of packages of constants, with the packages below: written, and read back.
//!
//! `specs/Elements.antt` gives the elements of such a file, `specs/Record.antt` what they stand
//! for, and `specs/Reading.antt` how a file is read. The law `reads_back` joins the last two.
#![tactic(auto)]

mod laws;
mod numbered;
mod read;
mod write;

pub use laws::{lists_are_lists, reads_back};
pub use read::read_linked;
pub use ui_exports::{Below, Constant, Linked, NoMemory, Package};
pub use write::write_linked;
