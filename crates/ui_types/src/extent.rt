ghost use Rattle.std.specs.Prelude.{◌≤◌, ◌↔◌, IsTrue};

/// The largest number of nodes of a type's tree.
pub const MAX_SIZE: u64 = 65536;

/// The largest depth of a type's tree.
pub const MAX_DEPTH: u32 = 256;

/// How large a type's tree is: how many nodes it has, and how many its longest path has.
#[derive(Clone, Copy)]
pub struct Extent {
    pub size: u64,
    pub depth: u32,
}

impl Extent {
    /// Whether it is within the limits.
    pub fn is_within(self) -> bool
        ensures { IsTrue result ↔ ((self.size ≤ MAX_SIZE) × (self.depth ≤ MAX_DEPTH)) }
    {
        self.size <= MAX_SIZE && self.depth <= MAX_DEPTH
    }
}
