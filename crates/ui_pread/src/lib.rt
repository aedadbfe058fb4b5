//! Expressions, types and signatures, read from tokens within a budget of depth.
#![tactic(auto)]

mod args;
mod ends;
mod exprs;
mod indexes;
mod knot;
mod literals;
mod marks;
mod operand;
mod parts;
mod primary;
mod sites;

pub use knot::{level, maybe_type};
pub use parts::{
    bracket_type, expr_of_budget, params, plain_type, results, sig, tilde, type_of_budget,
    union_from,
};
