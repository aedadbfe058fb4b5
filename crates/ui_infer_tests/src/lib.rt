//! Tests of inference over an environment by hand. Nothing stands here but tests.
#![tactic(auto, using(crate::proofs::Steps::steps))]

#[cfg(test)]
mod inference;
#[cfg(test)]
mod spelling;
#[cfg(test)]
mod world;
