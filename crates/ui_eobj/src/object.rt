ghost use Rattle.std.specs.Prelude.{◌≡◌, OnOk};
ghost use Rattle.ui_strpos.specs.Reading.{Gives};
ghost use Rattle.ui_strpos.specs.Format.{uint_field};
ghost use Rattle.ui_eobj.specs.Objects.{place_number, plain_type};

use crate::value::ValueEl;
use std::alloc::Global;
use ui_frame::{NoMemory, Section};
use ui_strpos::{Cause, Element, ElementFault, ElementIn, ElementOut, Fields};

/// A place in a source file. Lines and columns count from 1, columns in bytes.
#[derive(Clone, Copy, Debug, PartialEq, Eq, Drop)]
pub struct PosEl {
    /// The PosBase of the file.
    pub base: u32,
    pub line: u32,
    pub column: u32,
}

// Reads a line or a column.
fn get_number(input: &mut ElementIn<'_>) -> Result<u32, ElementFault>
    ensures read { Gives (λ n. n) result input.new ((uint_field place_number).read input.old) }
    ensures context { input.new.context ≡ input.old.context }
{
    let offset = input.place();
    let number = input.uint()?;
    if number == 0 || number > u64::from(u32::MAX) {
        return Err(ElementFault::Bad {
            offset,
            cause: Cause::BadCode,
        });
    }
    Ok(number as u32)
}

impl Fields for PosEl {
    ghost use Rattle.ui_eobj.specs.Objects.{pos};
    ghost use Rattle.ui_eobj.specs.ObjectLaws.{pos_lawful};

    ghost form = { pos };

    fn put(&self, alloc: Global, out: &mut ElementOut) -> Result<(), NoMemory> {
        out.truth(alloc, true)?;
        out.target(alloc, Section::PosBase, self.base)?;
        out.uint(alloc, u64::from(self.line))?;
        out.uint(alloc, u64::from(self.column))
    }

    fn get(_alloc: Global, input: &mut ElementIn<'_>) -> Result<PosEl, ElementFault> {
        let offset = input.place();
        if !input.truth()? {
            return Err(ElementFault::Bad {
                offset,
                cause: Cause::BadCode,
            });
        }
        let base = input.target(Section::PosBase)?;
        let line = get_number(input)?;
        let column = get_number(input)?;
        Ok(PosEl { base, line, column })
    }

    ghost lawful = { pos_lawful };
}

// Reads the use of a Type that isn't derived.
fn get_type(input: &mut ElementIn<'_>) -> Result<u32, ElementFault>
    ensures read { Gives (λ k. k) result input.new (plain_type.read input.old) }
    ensures context { input.new.context ≡ input.old.context }
{
    let offset = input.place();
    if input.truth()? {
        return Err(ElementFault::Bad {
            offset,
            cause: Cause::BadCode,
        });
    }
    let k = input.target(Section::Types)?;
    Ok(k)
}

/// The Obj of a constant.
#[derive(Clone, Copy, Debug, PartialEq, Eq, Drop)]
pub struct ConstEl {
    pub pos: PosEl,
    /// Its Type.
    pub ty: u32,
    pub value: ValueEl,
}

impl Element for ConstEl {
    ghost use Rattle.ui_eobj.specs.Objects.{constant};
    ghost use Rattle.ui_eobj.specs.ObjectLaws.{constant_lawful};

    ghost format = { constant };

    #[tactic(auto, using(ui_strpos::specs::Writing::written_append))]
    fn encode(&self, alloc: Global, out: &mut ElementOut) -> Result<(), NoMemory> {
        self.pos.put(alloc, out)?;
        out.truth(alloc, false)?;
        out.target(alloc, Section::Types, self.ty)?;
        self.value.put(alloc, out)
    }

    fn decode(alloc: Global, input: &mut ElementIn<'_>) -> Result<ConstEl, ElementFault> {
        let pos = PosEl::get(alloc, input)?;
        let ty = get_type(input)?;
        let value = ValueEl::get(alloc, input)?;
        input.finish()?;
        Ok(ConstEl { pos, ty, value })
    }

    ghost lawful = { constant_lawful };
}
