ghost use Rattle.std.specs.Prelude.{◌≡◌, OnOk};
ghost use Rattle.ui_strpos.specs.Reading.{Gives};
ghost use Rattle.ui_edecl.specs.Dictionaries.{zero_field};

use std::alloc::Global;
use ui_frame::NoMemory;
use ui_strpos::{Cause, Element, ElementFault, ElementIn, ElementOut};

/// The dictionary of a declaration that has no type parameters and that nothing is derived for.
#[derive(Clone, Copy, PartialEq, Eq, Drop)]
pub struct DictEl {}

// Reads a number that has to be 0.
fn get_zero(input: &mut ElementIn<'_>) -> Result<u64, ElementFault>
    ensures read { Gives (λ n. n) result input.new (zero_field.read input.old) }
    ensures context { input.new.context ≡ input.old.context }
{
    let offset = input.place();
    let number = input.uint()?;
    if number != 0 {
        return Err(ElementFault::Bad {
            offset,
            cause: Cause::BadCode,
        });
    }
    Ok(number)
}

impl Element for DictEl {
    ghost use Rattle.ui_edecl.specs.Dictionaries.{dictionary};
    ghost use Rattle.ui_edecl.specs.DeclLaws.{dictionary_lawful};

    ghost format = { dictionary };

    fn encode(&self, alloc: Global, out: &mut ElementOut) -> Result<(), NoMemory> {
        out.uint(alloc, 0)?;
        out.uint(alloc, 0)?;
        out.uint(alloc, 0)?;
        out.uint(alloc, 0)?;
        out.uint(alloc, 0)?;
        out.uint(alloc, 0)?;
        out.uint(alloc, 0)
    }

    fn decode(_alloc: Global, input: &mut ElementIn<'_>) -> Result<DictEl, ElementFault> {
        get_zero(input)?;
        get_zero(input)?;
        get_zero(input)?;
        get_zero(input)?;
        get_zero(input)?;
        get_zero(input)?;
        get_zero(input)?;
        input.finish()?;
        Ok(DictEl {})
    }

    ghost lawful = { dictionary_lawful };
}
