//! The scanner: the tokens of a Go source file, exactly.
#![tactic(auto)]

mod digits;
mod escape;
mod kind;
mod letters;
mod literal;
mod number;
mod piece;
mod place;
mod scanner;
mod source;
mod table;
mod value;

pub use kind::{ScanFault, ScanKind, Token, TokenKind};
pub use piece::longest_tokens;
pub use scanner::{Scanner, TokensFault, scan_of_a_file, tokens};
pub use value::{literals_have_values, value_of};
