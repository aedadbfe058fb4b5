//! Checked trees: what sources become, in memory and as plain data, and how many nodes a body has.
#![tactic(auto)]

mod bodies;
mod callee;
mod count;
mod fault;
mod make;
mod package;
mod tree;

pub use bodies::Bodies;
pub use callee::{BuiltinFn, Callee, FuncKey};
pub use count::cost;
pub use fault::{BodyFault, InstFault};
pub use package::{Checked, KeyedBodies, Packages};
pub use tree::{Body, Clause, Entry, Expr, Exprs, FieldValue, IndexedValue, Places, Stmt, Stmts};
