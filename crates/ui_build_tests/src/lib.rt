//! Tests of what builds are made of: stores and streams, the order of packages, the packages below,
//! the counter of steps, and forms with their verdicts. Nothing stands here but tests.
#![tactic(auto)]

#[cfg(test)]
mod forms;
#[cfg(test)]
mod lists;
#[cfg(test)]
mod orders;
#[cfg(test)]
mod steps;
#[cfg(test)]
mod stores;
#[cfg(test)]
mod trees;
