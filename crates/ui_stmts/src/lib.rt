//! Readers of statements, declarations and files as definitions, with the laws that they read
//! exactly the forms of the grammar.
#![tactic(auto)]

mod laws;

pub use laws::{no_length_and_parameters, reads_files_exactly, reads_statements};
