//! Tests of the lines of a container.
#![tactic(auto)]

#[cfg(test)]
mod listed;
