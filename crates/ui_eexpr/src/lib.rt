//! The expressions of bodies as fields of an element.
//!
//! The layout is this project's own, after `cmd/compile/internal/noder` of the Go tree. The grammar
//! is one format for each depth: `specs/Exprs.antt`.
#![tactic(auto, using(crate::proofs::ExprOuts::layers))]

mod callee;
mod codes;
mod expr;
mod laws;
mod parts;
mod uses;

pub use callee::CalleeEl;
pub use codes::{binary_code, builtin_code, get_binary, get_builtin, get_unary, unary_code};
pub use expr::{ExprEl, SelValue};
pub use laws::expressions_are_lawful;
pub use parts::{get_local, get_maybe_type, get_plain};
pub use uses::{InstanceUse, OuterUse};
