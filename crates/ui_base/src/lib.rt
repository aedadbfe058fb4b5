//! What the crates above share and that needs no table of types: texts, names, paths, places,
//! faults, values, basic kinds and operators.
#![tactic(auto)]

mod chars;
mod fault;
mod items;
mod kind;
mod name;
mod path;
mod text;
mod value;

pub use chars::{is_digit, is_letter, is_upper};
pub use fault::{CheckFault, Fault, FaultKind};
pub use items::Items;
pub use kind::{Basic, BinOp, UnOp};
pub use name::{Name, Names, is_exported, is_keyword, is_name};
pub use path::is_path;
pub use text::{NoMemory, Text, Texts};
pub use value::{Pos, Spot, Value};
