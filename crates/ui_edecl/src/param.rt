ghost use Rattle.std.specs.Prelude.{◌≡◌, OnOk};
ghost use Rattle.ui_strpos.specs.Reading.{Gives};
ghost use Rattle.ui_edecl.specs.Objects.{params};

use std::alloc::Global;
use ui_base::Items;
use ui_frame::{NoMemory, Section};
use ui_strpos::{ElementFault, ElementIn, ElementOut, Fields, get_name, get_times};

/// A type parameter of a declaration.
#[derive(Clone, Copy, PartialEq, Eq, Drop)]
pub struct ParamEl {
    /// The String of its name, which may be `_`.
    pub name: u32,
}

impl Fields for ParamEl {
    ghost use Rattle.ui_edecl.specs.Objects.{param_el};
    ghost use Rattle.ui_edecl.specs.DeclLaws.{param_el_lawful};

    ghost form = { param_el };

    fn put(&self, alloc: Global, out: &mut ElementOut) -> Result<(), NoMemory> {
        out.target(alloc, Section::Str, self.name)
    }

    fn get(_alloc: Global, input: &mut ElementIn<'_>) -> Result<ParamEl, ElementFault> {
        let name = get_name(input)?;
        Ok(ParamEl { name })
    }

    ghost lawful = { param_el_lawful };
}

/// Reads as many parameters as the shape says.
pub(crate) fn get_params(
    alloc: Global,
    input: &mut ElementIn<'_>,
) -> Result<Items<ParamEl>, ElementFault>
    ensures read { Gives (λ v. v) result input.new (params.read input.old) }
    ensures context { input.new.context ≡ input.old.context }
{
    let count = u64::from(input.shape().params);
    Ok(Items::new(get_times(alloc, input, count)?))
}
