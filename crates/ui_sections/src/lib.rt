//! The elements of a whole file, read section by section: the file, or the first element that
//! isn't in its grammar.
#![tactic(auto)]

mod fault;
mod params;
mod read;
mod section;
mod shapes;

pub use fault::ValidFault;
pub use read::read_file;
