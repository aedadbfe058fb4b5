//! The trees of expressions, types and signatures, from tokens.
#![tactic(auto)]

mod api;
mod back;
mod fault;
mod front;
mod laws;

pub use api::{parse_expr, parse_sig, parse_type};
pub use back::{before_last, ends_in, opening};
pub use fault::{Form, ParseFault, first_kind, first_offset, form_if, form_of, told};
pub use front::Front;
pub use laws::{
    expr_faults_stay, one_expr_tree, one_sig_tree, one_type_tree, sig_faults_stay, type_faults_stay,
};
