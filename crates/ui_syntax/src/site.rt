//! Where forms stand, as their readers see it.

/// Where an expression is read.
#[derive(Clone, Copy, Debug, PartialEq, Eq)]
pub enum Site {
    /// In a header: braces don't go on with a type's name.
    Header,
    Plain,
    /// In parentheses that may be those of a type: `([]T)(x)`.
    Wrapped,
    /// Where a type may stand for itself: as an argument or between brackets.
    Argument,
}

/// Where a type is read.
#[derive(Clone, Copy, Debug, PartialEq, Eq)]
pub enum TypeSite {
    Plain,
    /// A method or a union, in an interface.
    Element,
    /// At the front of an operand, where names, `*` and parentheses begin expressions. `[...]T` is
    /// taken.
    Operand,
    /// Such an operand where the type may stand for itself, but `[...]T` not.
    Argument,
}

/// What the parameters that were read say of the others.
#[derive(Clone, Copy, Debug, PartialEq, Eq)]
pub enum Style {
    /// There were names alone, which may be types.
    Open,
    /// They are types without names.
    Bare,
    /// They have names.
    Named,
}
