//! What names mean.

ghost use Rattle.std.specs.Prelude.{◌≡◌, ℕ, List, [], OnOk, OnErr, option_map, bytes_eq};
ghost use Rattle.std.specs.Prelude.{if◌then◌else◌};
ghost use Rattle.ui_scopes.specs.Scopes as scopes;
ghost use Rattle.ui_scopes.specs.Scopes.{find_in, find_meaning};

use indexmap::IndexMap;
use std::alloc::Global;
use std::marker::Model;
use ui_types::{Ids, Items, Name, NoMemory, Text, TypeId, Value};

/// What a name means in a scope. Go specification, "Declarations and scope".
#[derive(Drop)]
pub enum Meaning {
    /// A name of a package.
    Object(Name),
    /// An imported package, by its path.
    Package(Text),
    Predeclared(Text),
    /// A type parameter, by its place.
    Param(u32),
    Local { number: u32, ty: TypeId },
    Const { ty: TypeId, value: Value },
}

/// A name with its meaning.
#[derive(Drop)]
pub struct Bind {
    pub name: Text,
    pub meaning: Meaning,
}

/// The names of one block, each found by its hash.
#[derive(Drop)]
pub struct Level {
    binds: IndexMap<Text, Meaning>,
}

impl Model for Level {
    ghost use Rattle.ui_scopes.specs.declared.scope.Meaning.{Meaning};
    ghost use Rattle.std.specs.Prelude.{ℕ, List};

    ghost Value = { List (List ℕ × Meaning) };

    ghost view = { λ l. l.binds.entries };
}

/// The levels of names, the outermost first.
pub type Levels = Items<Level>;

/// The levels of names, the constraints in force, the package's own path, and the file that is
/// checked.
#[derive(Drop)]
pub struct Scope {
    pub levels: Levels,
    pub bounds: Ids,
    pub path: Text,
    pub file: Text,
}

impl Level {
    /// A level without names.
    pub fn new(alloc: Global) -> Level
        ensures { result ≡ [] }
    {
        Level {
            binds: IndexMap::new(alloc),
        }
    }

    /// Gives the name of the bind its meaning, in place of one that it has in this level.
    pub fn put(&mut self, bind: Bind) -> Result<(), NoMemory>
        ensures put { OnOk result ((n : List ℕ)
            → find_in self.new n ≡ (if bytes_eq n bind.name then Some bind.meaning else find_in
            self.old n)) }
        ensures unchanged { OnErr result (self.new ≡ self.old) }
    {
        let Bind { name, meaning } = bind;
        self.binds.insert(name, meaning)?;
        Ok(())
    }

    /// What the name means in this level.
    pub fn find(&self, name: &Text) -> Option<&Meaning>
        ensures { option_map (λ m. m.now) result ≡ find_in self.now name.now }
    {
        self.binds.get(name)
    }
}

impl Scope {
    /// What the name means, in the innermost level that has it.
    pub fn meaning(&self, name: &Text) -> Option<&Meaning>
        ensures { option_map (λ m. m.now) result ≡ find_meaning self.now.levels name.now }
    {
        let mut found: Option<&Meaning> = None;
        for level in self.levels.items() {
            let inner = level.find(name);
            if inner.is_some() {
                found = inner;
            }
        }
        found
    }
}
