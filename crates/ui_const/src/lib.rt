//! Arithmetic on constants: each operation is the mathematical one, followed by the test of its
//! limits. Whole numbers lie from -2^127 to 2^127 - 1, and texts have at most 1,048,576 bytes.
#![tactic(auto)]

mod bits;
mod conversion;
mod fault;
mod kinds;
mod operators;
mod prefixes;
mod shifts;
mod text;
mod whole;

pub use conversion::{can_convert, convert};
pub use fault::ConstFault;
pub use kinds::represent;
pub use operators::{binary, can_operate};
pub use prefixes::{can_prefix, unary};
pub use shifts::{is_shift, shift};
pub use text::TEXT_LIMIT;
