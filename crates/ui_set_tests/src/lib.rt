//! Tests of what types have and satisfy: looking names up, interfaces, constraints, being
//! comparable and core types. Nothing stands here but tests.
#![tactic(auto)]

#[cfg(test)]
#[tactic(auto, using(ui_types::specs::Trees::growth))]
mod members;
#[cfg(test)]
#[tactic(auto, using(ui_types::specs::Trees::growth))]
mod samples;
#[cfg(test)]
#[tactic(auto, using(ui_types::specs::Trees::growth))]
mod satisfaction;
#[tactic(auto, using(ui_types::specs::Trees::growth, crate::specs::Desk::desks))]
mod spelling;
