//! Types as numbered nodes, which contracts see as plain trees, and environments of declarations.
#![tactic(auto)]

mod decl;
mod entries;
mod env;
mod extent;
mod fault;
mod id;
mod list_env;
mod made;
mod node;
mod part;
mod same;
mod substitute;
mod table;

pub use decl::{Decl, Decls, Face, MethodFace, MethodFaces, TParam, TParams};
pub use env::{Env, underlying};
pub use extent::{Extent, MAX_DEPTH, MAX_SIZE};
pub use fault::TypeFault;
pub use id::{Ids, TypeId};
pub use list_env::ListEnv;
pub use node::TypeNode;
pub use part::{
    Field, Fields, Method, Methods, Part, Term, Terms, copy_parts, parts_with, types_of,
};
pub use same::is_identical;
pub use substitute::intern_within;
pub use table::TypeTable;
pub use ui_base::{
    Basic, BinOp, CheckFault, Fault, FaultKind, Items, Name, Names, NoMemory, Pos, Spot, Text,
    Texts, UnOp, Value, is_exported, is_name, is_path,
};
