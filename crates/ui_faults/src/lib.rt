//! Faulty texts, with the place and the kind of the fault of each, worked out by hand from the
//! grammar: of expressions, types and signatures, and of files; and the sample program, which has
//! none. All is tests.
#![tactic(auto)]

#[cfg(test)]
mod between;
#[cfg(test)]
mod calls;
#[cfg(test)]
mod deep;
#[cfg(test)]
mod files;
#[cfg(test)]
mod fronts;
#[cfg(test)]
mod sample;
#[cfg(test)]
mod told;
