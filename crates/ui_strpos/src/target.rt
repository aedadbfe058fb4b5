use indexmap::IndexSet;

/// The target of a use: an element, by the number of its section and its own number there.
#[derive(Clone, Copy, Debug, PartialEq, Eq, Hash, Drop)]
pub struct Target {
    pub section: u32,
    pub index: u32,
}

/// The targets that an element uses, each once, in the order of first use.
pub type Table = IndexSet<Target>;
