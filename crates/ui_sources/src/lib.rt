//! The sources of a package: their trees, or the first fault of size, of scanning or of parsing.
#![tactic(auto)]

mod fault;
mod laws;
mod parse;
mod scan;
mod size;
mod source;
mod trees;

pub use laws::import_paths_are_valid;
pub use source::{SOURCE_LIMIT, SourceFile, Trees};
pub use trees::read_trees;
