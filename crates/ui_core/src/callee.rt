//! What is called.

use ui_base::Name;
use ui_types::Ids;

/// A predeclared function that a checked tree calls. Go specification, "Built-in functions".
#[derive(Clone, Copy, PartialEq, Eq)]
pub enum BuiltinFn {
    Append,
    /// `append` with `...`: its second argument is a slice or a text.
    AppendSpread,
    Cap,
    Copy,
    Delete,
    Len,
    Make,
    Max,
    Min,
    New,
    Panic,
}

/// The name of a function, or of a type and one of its methods.
#[derive(Drop, PartialEq, Eq, Hash)]
pub struct FuncKey {
    pub name: Name,
    pub method: Option<Name>,
}

/// A function that is called, with its type arguments. `pointer` is the mark of a method that has a
/// pointer receiver.
#[derive(Drop)]
pub struct Callee {
    pub key: FuncKey,
    pub targs: Ids,
    pub pointer: bool,
}
