//! The parts of forms.

use sqlite_items::Items;
use ui_base::{Spot, Text};

/// A name or the value of a string, with the place that it stands at.
#[derive(Drop)]
pub struct Placed {
    pub spot: Spot,
    pub text: Text,
}

/// A unary operator. Go specification, "Operators".
#[derive(Clone, Copy, PartialEq, Eq)]
pub enum PrefixOp {
    /// `+`
    Plus,
    /// `-`
    Minus,
    /// `!`
    Not,
    /// `^`
    Flip,
    /// `*`
    Deref,
    /// `&`
    Address,
}

/// What a literal is written as.
#[derive(Clone, Copy, Debug, PartialEq, Eq)]
pub enum LiteralKind {
    Whole,
    Rune,
    Text,
}

/// Names with one type: fields, parameters, or type parameters with their bound. A parameter
/// without a name is a group of no names.
#[derive(Drop)]
pub struct Group<T> {
    pub names: Items<Placed>,
    pub of: T,
}

/// The parameters and results of a function. Go specification, "Function types".
#[derive(Drop)]
pub struct Sig<T> {
    pub params: Items<Group<T>>,
    pub results: Option<T>,
}

/// One of a kind, or several in parentheses behind one keyword.
#[derive(Drop)]
pub enum Specs<S> {
    One(S),
    Grouped(Items<S>),
}
