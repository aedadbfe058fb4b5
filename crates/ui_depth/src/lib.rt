//! Which faults of expressions, types, signatures and files are faults of depth, as laws on their
//! readers.
#![tactic(auto)]

mod laws;

pub use laws::{faults_of_depth, file_faults_of_depth, no_fixed_number};
