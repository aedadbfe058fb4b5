// An environment with declarations before its own.
ghost use Rattle.std.specs.Prelude.{◌≡◌, ◌++◌, ◌∷◌, List, ℕ, length};
ghost use Rattle.ui_types.specs.Table.{Table};
ghost use Rattle.ui_types.specs.Decls.{AreDecls, shown_decls};

use crate::decls::DeclMap;
use std::alloc::Global;
use ui_types::{Decl, Env, Name, NoMemory, Text, TypeTable};

/// An environment with declarations before its own: a name that they declare is looked up there.
#[derive(Drop)]
pub struct Known<'e, E> {
    pub decls: DeclMap,
    pub below: &'e mut E,
}

#[tactic(auto, using(std::proofs::lemmas::Grind::common_steps, ui_types::specs::Trees::growth, ui_types::specs::Stays::staying, ui_types::specs::Kept::keeping, crate::proofs::KnownLemmas::joined))]
impl<'e, E: Env> Env for Known<'e, E> {
    ghost packages = { λ s. E.packages s.below.now };

    ghost lent = { λ s. s.below.ghost_name ∷ length s.decls ∷ E.lent s.below.now };

    ghost decls = { λ s t. shown_decls t s.decls ++ E.decls s.below.now t };

    ghost fits = { λ s t. AreDecls t s.decls × E.fits s.below.now t };

    fn package(&mut self, alloc: Global, path: &Text) -> Result<Option<Text>, NoMemory> {
        self.below.package(alloc, path)
    }

    fn decl(
        &mut self,
        alloc: Global,
        table: &mut TypeTable,
        name: &Name,
    ) -> Result<Option<Decl>, NoMemory> {
        match self.decls.find(name) {
            Some(decl) => {
                let decl = decl.copy(alloc)?;
                Ok(Some(decl))
            }
            None => self.below.decl(alloc, table, name),
        }
    }

    ghost use Rattle.std.specs.Prelude.{refl, ◌++◌};
    ghost use Rattle.ui_types.specs.Stays.{decls_stay};

    ghost stays = { λ s t u g f. (((decls_stay t u s.decls g f.0).0, (E.stays s.below.now t u g f.1).0), Prim.rw ((decls_stay t u s.decls g f.0).1, (E.stays s.below.now t u g f.1).1) refl) };
}
