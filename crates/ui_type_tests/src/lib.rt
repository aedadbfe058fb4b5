//! Tests of types and constants: interned nodes, substitution, underlying types, and arithmetic at
//! its limits. Nothing stands here but tests.
#![tactic(auto)]

#[cfg(test)]
mod constants;
#[cfg(test)]
#[tactic(auto, using(ui_types::specs::Trees::growth))]
mod types;
