//! The whole program: `run` over stores in memory, with the texts and statuses worked out by hand.
//!
//! Nothing stands here but tests.
#![tactic(auto)]

#[cfg(test)]
mod builds;
#[cfg(test)]
mod dumps;
#[cfg(test)]
mod examples;
#[cfg(test)]
mod forged;
#[cfg(test)]
mod layouts;
#[cfg(test)]
mod limits;
#[cfg(test)]
mod scene;
#[cfg(test)]
mod several;
