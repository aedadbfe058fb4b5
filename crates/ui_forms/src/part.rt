// What the sources of a form hold.
use ui_base::{Spot, Text};
use ui_tree::Items;

/// A term of a sum, with the place of its first token.
#[derive(Debug, Drop)]
pub enum Term {
    /// A number.
    Digits {
        spot: Spot,
        value: u128,
    },
    /// A constant that the source declares before.
    Own {
        spot: Spot,
        name: Text,
    },
    /// A constant of the source's import whose path ends in the segment.
    Of {
        spot: Spot,
        segment: Text,
        name: Text,
    },
}

/// An import, with the place of its string.
#[derive(Debug, Drop)]
pub struct ImportPath {
    pub path: Text,
    pub spot: Spot,
}

/// A constant, with the place of its name, and the terms of its sum from left to right.
#[derive(Debug, Drop)]
pub struct ConstantSum {
    pub name: Text,
    pub spot: Spot,
    pub terms: Items<Term>,
}

/// A source: its store name, and its imports and constants in their order.
#[derive(Debug, Drop)]
pub struct Part {
    pub file: Text,
    pub imports: Items<ImportPath>,
    pub constants: Items<ConstantSum>,
}
