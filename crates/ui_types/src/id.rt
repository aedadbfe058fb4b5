use ui_base::Items;

/// A type of a `TypeTable`, by its place.
#[derive(Clone, Copy, PartialEq, Eq, Hash)]
pub struct TypeId(pub usize);

/// A list of types.
pub type Ids = Items<TypeId>;
