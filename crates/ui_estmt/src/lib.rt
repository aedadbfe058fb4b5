//! The statements of bodies, and bodies, as fields of an element.
//!
//! The layout is this project's own, after `cmd/compile/internal/noder` of the Go tree. The grammar
//! is one format for each depth: `specs/Stmts.antt` and `specs/Bodies.antt`.
#![tactic(auto)]

mod body;
mod laws;
mod stmt;

pub use body::BodyEl;
pub use laws::{bodies_are_lawful, statements_are_lawful};
pub use stmt::{ClauseEl, RangeEl, StmtEl};
