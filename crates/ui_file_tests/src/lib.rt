//! Tests of files: containers, elements, and linked files of packages of constants. Nothing stands
//! here but tests.
#![tactic(auto)]

#[cfg(test)]
mod containers;
#[cfg(test)]
mod elements;
#[cfg(test)]
mod file;
#[cfg(test)]
mod linked;
