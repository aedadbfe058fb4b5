ghost use Rattle.std.specs.Prelude.{◌≡◌, OnOk};
ghost use Rattle.ui_strpos.specs.Reading.{Gives};
ghost use Rattle.ui_edecl.specs.Values.{big, coded};

use std::alloc::Global;
use ui_eobj::{is_big, is_magnitude};
use ui_frame::{NoMemory, Section};
use ui_strpos::{Cause, ElementFault, ElementIn, ElementOut, Fields};

/// The value of a constant. Go specification, "Constants".
#[derive(Clone, Copy, PartialEq, Eq, Drop)]
pub enum ValueEl {
    Bool(bool),
    /// The String of its bytes.
    Text(u32),
    Int64(i64),
    /// A value that 64 signed bits don't hold: the String of its magnitude's bytes, the most
    /// significant first.
    Big { magnitude: u32, negative: bool },
}

fn bad(offset: usize, cause: Cause) -> ElementFault
    ensures { result ≡ ElementFault.Bad offset cause }
{
    ElementFault::Bad { offset, cause }
}

fn get_big(input: &mut ElementIn<'_>) -> Result<ValueEl, ElementFault>
    ensures read { Gives (λ v. v) result input.new (big.read input.old) }
    ensures context { input.new.context ≡ input.old.context }
{
    let offset = input.place();
    let magnitude = input.target(Section::Str)?;
    if !is_magnitude(input.text(magnitude)) {
        return Err(bad(offset, Cause::BadText));
    }
    let offset = input.place();
    let negative = input.truth()?;
    if !is_big(negative, input.text(magnitude)) {
        return Err(bad(offset, Cause::BadText));
    }
    Ok(ValueEl::Big {
        magnitude,
        negative,
    })
}

// Reads a code, and the fields of its case.
fn get_coded(input: &mut ElementIn<'_>) -> Result<ValueEl, ElementFault>
    ensures read { Gives (λ v. v) result input.new (coded.read input.old) }
    ensures context { input.new.context ≡ input.old.context }
{
    let offset = input.place();
    match input.uint()? {
        0 => Ok(ValueEl::Bool(input.truth()?)),
        1 => Ok(ValueEl::Text(input.target(Section::Str)?)),
        2 => Ok(ValueEl::Int64(input.int()?)),
        3 => get_big(input),
        _ => Err(bad(offset, Cause::BadCode)),
    }
}

impl Fields for ValueEl {
    ghost use Rattle.ui_edecl.specs.Values.{constant_value};
    ghost use Rattle.ui_edecl.specs.DeclLaws.{constant_value_lawful};

    ghost form = { constant_value };

    fn put(&self, alloc: Global, out: &mut ElementOut) -> Result<(), NoMemory> {
        out.truth(alloc, false)?;
        match *self {
            ValueEl::Bool(value) => {
                out.uint(alloc, 0)?;
                out.truth(alloc, value)
            }
            ValueEl::Text(text) => {
                out.uint(alloc, 1)?;
                out.target(alloc, Section::Str, text)
            }
            ValueEl::Int64(value) => {
                out.uint(alloc, 2)?;
                out.int(alloc, value)
            }
            ValueEl::Big {
                magnitude,
                negative,
            } => {
                out.uint(alloc, 3)?;
                out.target(alloc, Section::Str, magnitude)?;
                out.truth(alloc, negative)
            }
        }
    }

    fn get(_alloc: Global, input: &mut ElementIn<'_>) -> Result<ValueEl, ElementFault> {
        let offset = input.place();
        if input.truth()? {
            return Err(bad(offset, Cause::BadCode));
        }
        get_coded(input)
    }

    ghost lawful = { constant_value_lawful };
}
