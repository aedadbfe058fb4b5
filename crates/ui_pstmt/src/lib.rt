//! Statements, from tokens.
#![tactic(auto)]

mod braces;
mod branch;
mod clauses;
mod grammar;
mod init;
mod knot;
mod loops;
mod stmts;
mod switch;

pub use braces::BlockSub;
pub use grammar::Begun;
pub use knot::{block, stmt};
pub use ui_psimple::{
    Deep, SpecReader, StmtSub, constant_decl, names, one_or_several, variable_decl,
};
