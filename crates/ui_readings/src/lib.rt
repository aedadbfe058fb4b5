//! What tests of the grammar mean by its productions, as laws.
#![tactic(auto)]

mod laws;

pub use laws::{aliases_stand_behind_params, lengths_are_expressions, tags_stand_behind_fields};
