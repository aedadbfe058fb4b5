//! Literals, as words.

use ui_base::{Spot, Value};
use ui_tree::LiteralKind;

/// A literal with its place and value.
#[derive(Drop)]
pub struct Literal {
    pub kind: LiteralKind,
    pub spot: Spot,
    pub value: Value,
}
