ghost use Rattle.std.specs.Prelude.{◌≡◌, [], IfOk, IfSome, option_map, List};
ghost use Rattle.ui_types.specs.Table.{Table};
ghost use Rattle.ui_types.specs.Decls.{find_package, find_decl, shown_decls, shown_decl, AreDecls};
ghost use Rattle.ui_types.specs.Decls.{IsDecl, IsAnswer};
ghost use Rattle.ui_types.specs.Stays.{decls_stay};

use crate::decl::{Decl, Decls};
use crate::env::Env;
use crate::table::TypeTable;
use std::alloc::Global;
use ui_base::{Name, NoMemory, Text};

/// Package names and declarations in memory, whose ids are of one table.
#[derive(Drop)]
pub struct ListEnv {
    pub packages: Vec<(Text, Text)>,
    pub decls: Decls,
}

impl ListEnv {
    /// The environment of these paths with their package names and of these declarations; of equal
    /// ones the first counts.
    pub fn new(packages: Vec<(Text, Text)>, decls: Decls) -> ListEnv
        ensures packages { result.packages ≡ packages }
        ensures decls { result.decls ≡ decls }
    {
        ListEnv { packages, decls }
    }
}

// The package name of the path, the first that there is.
fn find_name<'a>(packages: &'a [(Text, Text)], path: &Text) -> Option<&'a Text>
    ensures { option_map (λ x. x.now) result ≡ find_package packages.now path.now }
{
    for (found, name) in packages {
        if *found == *path {
            return Some(name);
        }
    }
    None
}

// The declaration of the name, the first that there is.
fn find<'a>(decls: &'a [(Name, Decl)], name: &Name) -> Option<&'a Decl>
    ensures valid { (table : Table) → AreDecls table decls.now
        → IfSome result (λ d. IsDecl table d.now) }
    ensures value { (table : Table) → option_map (λ d. shown_decl table d.now) result
        ≡ find_decl (shown_decls table decls.now) name.now }
{
    for (found, decl) in decls {
        if *found == *name {
            return Some(decl);
        }
    }
    None
}

impl Env for ListEnv {
    ghost packages = { λ s. s.packages.items };

    ghost lent = { λ s. [] };

    ghost decls = { λ s t. shown_decls t s.decls };

    ghost fits = { λ s t. AreDecls t s.decls };

    fn package(&mut self, alloc: Global, path: &Text) -> Result<Option<Text>, NoMemory> {
        match find_name(self.packages.as_slice(), path) {
            Some(name) => {
                let name = name.copy(alloc)?;
                Ok(Some(name))
            }
            None => Ok(None),
        }
    }

    fn decl(
        &mut self,
        alloc: Global,
        _table: &mut TypeTable,
        name: &Name,
    ) -> Result<Option<Decl>, NoMemory> {
        match find(self.decls.items(), name) {
            Some(decl) => {
                let decl = decl.copy(alloc)?;
                Ok(Some(decl))
            }
            None => Ok(None),
        }
    }

    ghost stays = { λ s t u g f. decls_stay t u s.decls g f };
}
