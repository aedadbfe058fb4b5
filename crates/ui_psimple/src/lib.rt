//! Simple statements, constants and variables, from tokens.
#![tactic(auto)]

mod deep;
mod groups;
mod head;
mod lists;
mod maybe;
mod simple;
mod values;

pub use deep::{Deep, StmtSub, empty_stmt, stmt_over};
pub use groups::{SpecReader, one_or_several};
pub use head::{Head, alone};
pub use lists::{exprs, names};
pub use maybe::or_none;
pub use simple::{header_front, maybe_simple, simple_stmt};
pub use values::{constant_decl, variable_decl};
