//! Syntax trees: what the tokens of a Go source file spell.
#![tactic(auto)]

mod decl;
mod expr;
mod make;
mod part;
mod same;
mod spots;
mod stmt;

pub use decl::{DeclTree, FileTree, ImportSpec, ImportTree, Receiver, TypeSpec};
pub use expr::{ExprTree, TypeExpr};
pub use part::{Group, LiteralKind, Placed, PrefixOp, Sig, Specs};
pub use spots::{tree_spot, type_spot};
pub use sqlite_items::{Boxed, Items};
pub use stmt::{Block, Clause, CommonTree, RangePlaces, StmtTree, ValueSpec};
