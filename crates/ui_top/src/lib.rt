//! The commands over a store, a source and two sinks.
#![tactic(auto)]

mod answers;
mod commands;
mod kinds;
mod report;
mod status;

pub use commands::run;
pub use status::Status;
