//! Whole files as typed elements: which bytes spell a file, and which test of a file fails first.
//!
//! `specs/Files.antt` has the elements of a file and how they are read, `Words.antt` what they say,
//! `Rules.antt` the tests over the whole and `Verdict.antt` the first that fails.
#![tactic(auto)]

mod bad;
mod extent;
mod file;
mod kind;
mod laws;
mod words;

pub use bad::BadFile;
pub use extent::Extent;
pub use file::File;
pub use kind::FileKind;
pub use laws::{files_are_exact, sections_are_exact};
pub use words::FileWords;
