//! Checked expressions: each form by the rules, its parts from left to right. Go specification,
//! "Expressions".
#![tactic(auto)]

mod check;

pub use check::check_expr;
