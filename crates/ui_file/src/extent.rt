/// How many nodes the tree of a type has, and how many its longest path has.
#[derive(Clone, Copy, Drop)]
pub struct Extent {
    pub size: u64,
    pub depth: u32,
}
