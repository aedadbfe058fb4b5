ghost use Rattle.std.specs.Prelude.{◌≡◌, OnOk};

use std::alloc::Global;
use ui_base::Items;
use ui_etype::{TypeUse, get_outer};
use ui_frame::{NoMemory, Section};
use ui_strpos::{Cause, ElementFault, ElementIn, ElementOut, Fields, get_list, put_list};

/// The use of a type in an element that is no Type.
#[derive(Clone, Copy, PartialEq, Eq, Drop)]
pub struct OuterUse {
    pub ty: TypeUse,
}

impl Fields for OuterUse {
    ghost use Rattle.ui_eexpr.specs.Uses.{outer};
    ghost use Rattle.ui_eexpr.specs.UseLaws.{outer_lawful};

    ghost form = { outer };

    fn put(&self, alloc: Global, out: &mut ElementOut) -> Result<(), NoMemory> {
        self.ty.put(alloc, out)
    }

    fn get(_alloc: Global, input: &mut ElementIn<'_>) -> Result<OuterUse, ElementFault> {
        let ty = get_outer(input)?;
        Ok(OuterUse { ty })
    }

    ghost lawful = { outer_lawful };
}

/// The use of an object with its type arguments.
#[derive(Drop)]
pub struct InstanceUse {
    /// Its Obj.
    pub object: u32,
    pub args: Items<OuterUse>,
}

impl Fields for InstanceUse {
    ghost use Rattle.ui_eexpr.specs.Uses.{instance};
    ghost use Rattle.ui_eexpr.specs.UseLaws.{instance_lawful};

    ghost form = { instance };

    fn put(&self, alloc: Global, out: &mut ElementOut) -> Result<(), NoMemory> {
        out.truth(alloc, false)?;
        out.target(alloc, Section::Obj, self.object)?;
        put_list(alloc, out, self.args.items())
    }

    fn get(alloc: Global, input: &mut ElementIn<'_>) -> Result<InstanceUse, ElementFault> {
        let offset = input.place();
        if input.truth()? {
            return Err(ElementFault::Bad {
                offset,
                cause: Cause::BadCode,
            });
        }
        let object = input.target(Section::Obj)?;
        let args = Items::new(get_list(alloc, input)?);
        Ok(InstanceUse { object, args })
    }

    ghost lawful = { instance_lawful };
}
