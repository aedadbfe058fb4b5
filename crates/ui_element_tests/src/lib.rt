//! Tests of the elements of types and declarations: bytes beside the values that they spell, and
//! bytes that are refused.
#![tactic(auto)]

#[cfg(test)]
mod decls;
#[cfg(test)]
mod scene;
#[cfg(test)]
mod types;
