// Sets of names.
ghost use Rattle.std.specs.Prelude.{◌≡◌, ◌∷◌, ◌++◌, ℕ, List, [], false, OnOk, bytes_eq};
ghost use Rattle.std.specs.Prelude.{if◌then◌else◌};
ghost use Rattle.std.specs.Map.{lookup};
ghost use Rattle.std.specs.Option.{option_map};
ghost use Rattle.ui_collect.specs.Names.{is_among};

use indexmap::{IndexMap, IndexSet};
use std::alloc::Global;
use std::marker::Model;
use ui_base::{NoMemory, Text};

/// Names in the order in which they came, each found by its hash.
#[derive(Drop)]
pub struct NameSet {
    set: IndexSet<Text>,
}

impl Model for NameSet {
    ghost use Rattle.std.specs.Prelude.{ℕ, List};

    ghost Value = { List (List ℕ) };

    ghost view = { λ s. s.set.keys };
}

impl NameSet {
    /// No names.
    pub fn new(alloc: Global) -> NameSet
        ensures { result ≡ [] }
    {
        NameSet {
            set: IndexSet::new(alloc),
        }
    }

    /// One name more, which isn't there.
    pub fn add(&mut self, name: Text) -> Result<(), NoMemory>
        requires { is_among self.old name ≡ false }
        ensures { OnOk result (self.new ≡ self.old ++ name ∷ []) }
    {
        self.set.insert(name)?;
        Ok(())
    }

    /// The names.
    pub fn as_slice(&self) -> &[Text]
        ensures { result.now ≡ self.now }
    {
        self.set.as_slice()
    }

    /// Whether the name is there.
    pub fn has(&self, name: &Text) -> bool
        ensures { result ≡ is_among self.now name.now }
    {
        self.set.contains(name)
    }
}

/// The names of packages by their paths.
#[derive(Drop)]
pub struct PackageNames {
    map: IndexMap<Text, Text>,
}

impl Model for PackageNames {
    ghost use Rattle.std.specs.Prelude.{ℕ, List};

    ghost Value = { List (List ℕ × List ℕ) };

    ghost view = { λ n. n.map.entries };
}

impl PackageNames {
    /// No packages.
    pub fn new(alloc: Global) -> PackageNames
        ensures { result ≡ [] }
    {
        PackageNames {
            map: IndexMap::new(alloc),
        }
    }

    /// Gives the package of the path its name, in place of one that it has.
    pub fn put(&mut self, path: Text, name: Text) -> Result<(), NoMemory>
        ensures { OnOk result ((p : List ℕ) → lookup (bytes_eq p) self.new ≡ (if bytes_eq p path
            then Some name else lookup (bytes_eq p) self.old)) }
    {
        self.map.insert(path, name)?;
        Ok(())
    }

    /// The name of the package of the path.
    pub fn find(&self, path: &Text) -> Option<&Text>
        ensures { option_map (λ n. n.now) result ≡ lookup (bytes_eq path.now) self.now }
    {
        self.map.get(path)
    }
}

/// The names that came before a place: those that the package's declarations have, those of the
/// imports of all files, and those of the imports of the same file.
#[derive(Drop)]
pub struct Before {
    pub names: NameSet,
    pub imports: NameSet,
    pub own: NameSet,
}
