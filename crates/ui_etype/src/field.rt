ghost use Rattle.std.specs.Prelude.{◌≡◌, OnOk};

use crate::sel::Sel;
use crate::uses::TypeUse;
use std::alloc::Global;
use ui_frame::NoMemory;
use ui_strpos::{ElementFault, ElementIn, ElementOut, Fields};

/// A field of a struct.
#[derive(Clone, Copy, PartialEq, Eq, Hash, Drop)]
pub struct FieldEl {
    pub sel: Sel,
    pub ty: TypeUse,
}

impl Fields for FieldEl {
    ghost use Rattle.ui_etype.specs.Types.{field_el};
    ghost use Rattle.ui_etype.specs.TypeLaws.{field_el_lawful};

    ghost form = { field_el };

    #[tactic(auto, using(ui_strpos::specs::Writing::written_append))]
    fn put(&self, alloc: Global, out: &mut ElementOut) -> Result<(), NoMemory> {
        self.sel.put(alloc, out)?;
        self.ty.put(alloc, out)
    }

    fn get(alloc: Global, input: &mut ElementIn<'_>) -> Result<FieldEl, ElementFault> {
        let sel = Sel::get(alloc, input)?;
        let ty = TypeUse::get(alloc, input)?;
        Ok(FieldEl { sel, ty })
    }

    ghost lawful = { field_el_lawful };
}
