//! Whole packages that are checked.

use crate::callee::FuncKey;
use crate::tree::Body;
use ui_types::{Decls, Items, Text, Texts};

/// Bodies by the functions and methods that have them.
pub type KeyedBodies = Items<(FuncKey, Body)>;

/// Names of packages by their paths.
pub type Packages = Items<(Text, Text)>;

/// A checked package: its path and name, its declarations, the bodies of its functions and
/// methods, its direct imports, and the names of the packages that it mentions, its own among
/// them. Each list is ascending and has nothing twice.
#[derive(Drop)]
pub struct Checked {
    pub path: Text,
    pub name: Text,
    pub decls: Decls,
    pub bodies: KeyedBodies,
    pub imports: Texts,
    pub packages: Packages,
}
