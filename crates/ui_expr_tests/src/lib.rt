//! Tests of checked expressions: what each text is checked to be, or its first fault. Nothing stands
//! here but tests.
#![tactic(auto, using(crate::proofs::SceneLemmas::steps))]

#[cfg(test)]
mod rows;
#[cfg(test)]
mod scene;
#[cfg(test)]
mod told;
