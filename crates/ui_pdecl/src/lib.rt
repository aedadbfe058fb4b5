//! Declarations and files, from tokens.
#![tactic(auto)]

mod api;
mod budgets;
mod decls;
mod each;
mod files;
mod front;
mod functions;
mod imports;
mod laws;
mod lengths;
mod paths;
mod receivers;
mod type_params;
mod type_specs;

pub use api::parse_file;
pub use laws::{file_faults_stay, file_result_decides};
