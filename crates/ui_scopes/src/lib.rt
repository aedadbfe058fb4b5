//! Operands, scopes and the steps of a rule: what the rules of checking share.
#![tactic(auto)]

mod faults;
mod operand;
mod scope;
mod types;

pub use faults::{copy_value, refusal, type_refusal};
pub use operand::{Arg, Operand};
pub use scope::{Bind, Level, Levels, Meaning, Scope};
pub use types::{make_type, under_at};
