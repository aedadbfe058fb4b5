//! Reading the expressions of bodies.
#![tactic(auto, using(ui_eexpr::proofs::ExprOuts::layers))]

mod read;

pub use read::get_expression;
