//! Types and declarations as text.
#![tactic(auto)]

mod decls;
mod pieces;
mod types;

pub use decls::show_decl;
pub use types::show_type;
