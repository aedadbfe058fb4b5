ghost use Rattle.std.specs.Prelude.{◌≡◌, OnOk};
ghost use Rattle.ui_strpos.specs.Reading.{Gives};
ghost use Rattle.ui_etype.specs.Types.{outer_use};

use std::alloc::Global;
use ui_frame::{NoMemory, Section};
use ui_strpos::{Cause, ElementFault, ElementIn, ElementOut, Fields};

/// A use of a type: a Type of smaller number, or an entry of the derived types of the object
/// around.
#[derive(Clone, Copy, PartialEq, Eq, Hash, Drop)]
pub enum TypeUse {
    Type(u32),
    Derived(u64),
}

impl Fields for TypeUse {
    ghost use Rattle.ui_etype.specs.Types.{type_use};
    ghost use Rattle.ui_etype.specs.TypeLaws.{type_use_lawful};

    ghost form = { type_use };

    fn put(&self, alloc: Global, out: &mut ElementOut) -> Result<(), NoMemory> {
        match *self {
            TypeUse::Type(k) => {
                out.truth(alloc, false)?;
                out.target(alloc, Section::Types, k)
            }
            TypeUse::Derived(d) => {
                out.truth(alloc, true)?;
                out.uint(alloc, d)
            }
        }
    }

    fn get(_alloc: Global, input: &mut ElementIn<'_>) -> Result<TypeUse, ElementFault> {
        if input.truth()? {
            return Ok(TypeUse::Derived(input.uint()?));
        }
        let offset = input.place();
        let k = input.target(Section::Types)?;
        if k >= input.own() {
            return Err(ElementFault::Bad {
                offset,
                cause: Cause::TypeOrder,
            });
        }
        Ok(TypeUse::Type(k))
    }

    ghost lawful = { type_use_lawful };
}

/// Reads the use of a type in an element that is no Type.
pub fn get_outer(input: &mut ElementIn<'_>) -> Result<TypeUse, ElementFault>
    ensures read { Gives (λ v. v) result input.new (outer_use.read input.old) }
    ensures context { input.new.context ≡ input.old.context }
{
    if input.truth()? {
        return Ok(TypeUse::Derived(input.uint()?));
    }
    let k = input.target(Section::Types)?;
    Ok(TypeUse::Type(k))
}
