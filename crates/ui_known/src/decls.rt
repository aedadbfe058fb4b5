// Declarations by name.
#![tactic(auto, using(std::proofs::lemmas::Grind::common_steps, crate::proofs::MapLemmas::mapping))]

ghost use Rattle.std.specs.Prelude.{◌≡◌, ◌++◌, ◌∷◌, [], None, IfSome, OnOk, is_some, option_map};
ghost use Rattle.ui_types.specs.Table.{Table};
ghost use Rattle.std.specs.Map.{lookup};
ghost use Rattle.ui_types.specs.Decls.{AreDecls, IsDecl, find_decl, name_eq, shown_decl};
ghost use Rattle.ui_types.specs.Decls.{shown_decls};

use indexmap::IndexMap;
use sqlite_items::Boxed;
use std::alloc::Global;
use std::marker::Model;
use ui_types::{Decl, Name, NoMemory};

/// Declarations in the order in which they came, each found by the hash of its name.
#[derive(Drop)]
pub struct DeclMap {
    map: IndexMap<Name, Boxed<Decl>>,
}

impl Model for DeclMap {
    ghost use Rattle.std.specs.Prelude.{List};
    ghost use Rattle.ui_base.specs.declared.name.Name.{Name};
    ghost use Rattle.ui_types.specs.declared.decl.Decl.{Decl};

    ghost Value = { List (Name × Decl) };

    ghost view = { λ m. m.map.entries };
}

impl DeclMap {
    /// No declarations.
    pub fn new(alloc: Global) -> DeclMap
        ensures { result ≡ [] }
    {
        DeclMap {
            map: IndexMap::new(alloc),
        }
    }

    /// The declaration of the name.
    pub fn find(&self, name: &Name) -> Option<&Decl>
        ensures valid { (table : Table) → AreDecls table self.now → IfSome result (λ d. IsDecl
            table d.now) }
        ensures value { (table : Table) → option_map (λ d. shown_decl table d.now) result ≡
            find_decl (shown_decls table self.now) name.now }
    {
        match self.map.get(name) {
            Some(decl) => Some(decl.get()),
            None => None,
        }
    }

    /// Whether the name has a declaration.
    pub fn has(&self, name: &Name) -> bool
        ensures found { result ≡ is_some (lookup (name_eq name.now) self.now) }
        ensures shown { (table : Table) → result ≡ is_some (find_decl (shown_decls table self.now)
            name.now) }
    {
        self.map.get(name).is_some()
    }

    /// One declaration more, of a name that has none.
    pub fn add(&mut self, alloc: Global, name: Name, decl: Decl) -> Result<(), NoMemory>
        requires { lookup (name_eq name) self.old ≡ None }
        ensures { OnOk result (self.new ≡ self.old ++ (name, decl) ∷ []) }
    {
        let decl = Boxed::new(alloc, decl)?;
        self.map.insert(name, decl)?;
        Ok(())
    }
}
