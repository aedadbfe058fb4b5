use crate::text::Text;

/// A place in a source file: its store name, and line and column, both from 1. A column counts
/// bytes.
#[derive(Debug, Drop)]
pub struct Pos {
    pub file: Text,
    pub line: u32,
    pub col: u32,
}

/// A place in a file that is known from elsewhere.
#[derive(Clone, Copy, Debug, PartialEq, Eq)]
pub struct Spot {
    pub line: u32,
    pub col: u32,
}

/// The value of a constant. Whole numbers lie in -2^127 to 2^127 - 1.
#[derive(Debug, Drop)]
pub enum Value {
    Whole(i128),
    Str(Text),
    Truth(bool),
}
