//! Tests of texts: names and paths, the tokens of sources, and the sources of a package. Nothing
//! stands here but tests.
#![tactic(auto)]

#[cfg(test)]
mod names;
#[cfg(test)]
mod sources;
#[cfg(test)]
mod tokens;
