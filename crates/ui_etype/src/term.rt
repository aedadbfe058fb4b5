ghost use Rattle.std.specs.Prelude.{◌≡◌, OnOk};

use crate::uses::TypeUse;
use std::alloc::Global;
use ui_frame::NoMemory;
use ui_strpos::{ElementFault, ElementIn, ElementOut, Fields};

/// A term of a union.
#[derive(Clone, Copy, PartialEq, Eq, Hash, Drop)]
pub struct TermEl {
    pub tilde: bool,
    pub ty: TypeUse,
}

impl Fields for TermEl {
    ghost use Rattle.ui_etype.specs.Types.{term_el};
    ghost use Rattle.ui_etype.specs.TypeLaws.{term_el_lawful};

    ghost form = { term_el };

    fn put(&self, alloc: Global, out: &mut ElementOut) -> Result<(), NoMemory> {
        out.truth(alloc, self.tilde)?;
        self.ty.put(alloc, out)
    }

    fn get(alloc: Global, input: &mut ElementIn<'_>) -> Result<TermEl, ElementFault> {
        let tilde = input.truth()?;
        let ty = TypeUse::get(alloc, input)?;
        Ok(TermEl { tilde, ty })
    }

    ghost lawful = { term_el_lawful };
}
