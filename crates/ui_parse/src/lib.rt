//! The base of the parsers: readers of lists of words with their laws, and a cursor over tokens.
#![tactic(auto)]

mod cursor;
mod fault;
mod list;
mod literal;
mod names;
mod turn;

pub use cursor::{Cursor, same_kind};
pub use fault::ParseError;
pub use list::{chain, more_parts, parts};
pub use literal::Literal;
pub use names::more_names;
pub use turn::{Ends, Turn};
