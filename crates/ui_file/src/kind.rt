/// Which of a package's files it is.
#[derive(Clone, Copy, Debug, PartialEq, Eq, Drop)]
pub enum FileKind {
    /// What the package itself declares; names of other packages are stubs.
    Unit,
    /// Also what its declarations mention, of other packages.
    Linked,
}
