ghost use Rattle.std.specs.Prelude.{◌≡◌, OnOk};

use std::alloc::Global;
use ui_eobj::ObjectUse;
use ui_frame::NoMemory;
use ui_strpos::{ElementFault, ElementIn, ElementOut, Fields};

/// The function that is called, or that stands as a value.
#[derive(Clone, Copy, PartialEq, Eq, Drop)]
pub enum CalleeEl {
    /// A function that isn't generic.
    Plain(ObjectUse),
    /// An entry of the sub-dictionaries of the object around.
    Instance(u64),
}

impl Fields for CalleeEl {
    ghost use Rattle.ui_eexpr.specs.Uses.{callee};
    ghost use Rattle.ui_eexpr.specs.UseLaws.{callee_lawful};

    ghost form = { callee };

    fn put(&self, alloc: Global, out: &mut ElementOut) -> Result<(), NoMemory> {
        match *self {
            CalleeEl::Plain(object) => {
                out.truth(alloc, false)?;
                object.put(alloc, out)
            }
            CalleeEl::Instance(entry) => {
                out.truth(alloc, true)?;
                out.uint(alloc, entry)
            }
        }
    }

    fn get(alloc: Global, input: &mut ElementIn<'_>) -> Result<CalleeEl, ElementFault> {
        if input.truth()? {
            return Ok(CalleeEl::Instance(input.uint()?));
        }
        Ok(CalleeEl::Plain(ObjectUse::get(alloc, input)?))
    }

    ghost lawful = { callee_lawful };
}
