ghost use Rattle.std.specs.Prelude.{◌≡◌, true, OnOk};
ghost use Rattle.ui_strpos.specs.Reading.{Gives};
ghost use Rattle.ui_eobj.specs.Values.{is_code, big, cases, coded};

use crate::magnitude::{is_big, is_magnitude};
use std::alloc::Global;
use ui_frame::{NoMemory, Section};
use ui_strpos::{Cause, ElementFault, ElementIn, ElementOut, Fields};

/// The value of a whole constant.
#[derive(Clone, Copy, Debug, PartialEq, Eq, Drop)]
pub enum ValueEl {
    Int64(i64),
    /// A value that 64 signed bits don't hold: the String of its magnitude's bytes, the most
    /// significant first.
    Big { magnitude: u32, negative: bool },
}

fn bad(offset: usize, cause: Cause) -> ElementFault
    ensures { result ≡ ElementFault.Bad offset cause }
{
    ElementFault::Bad { offset, cause }
}

fn is_known(code: u64) -> bool
    ensures { result ≡ is_code code }
{
    matches!(code, 2 | 3)
}

fn get_big(input: &mut ElementIn<'_>) -> Result<ValueEl, ElementFault>
    ensures read { Gives (λ v. v) result input.new (big.read input.old) }
    ensures context { input.new.context ≡ input.old.context }
{
    let offset = input.place();
    let magnitude = input.target(Section::Str)?;
    if !is_magnitude(input.text(magnitude)) {
        return Err(bad(offset, Cause::BadText));
    }
    let offset = input.place();
    let negative = input.truth()?;
    if !is_big(negative, input.text(magnitude)) {
        return Err(bad(offset, Cause::BadText));
    }
    Ok(ValueEl::Big {
        magnitude,
        negative,
    })
}

fn get_case(input: &mut ElementIn<'_>, code: u64) -> Result<ValueEl, ElementFault>
    requires { is_code code ≡ true }
    ensures read { Gives (λ v. v) result input.new ((cases code).read input.old) }
    ensures context { input.new.context ≡ input.old.context }
{
    match code {
        2 => Ok(ValueEl::Int64(input.int()?)),
        3 => get_big(input),
        _ => unreachable!(),
    }
}

fn get_coded(input: &mut ElementIn<'_>) -> Result<ValueEl, ElementFault>
    ensures read { Gives (λ v. v) result input.new (coded.read input.old) }
    ensures context { input.new.context ≡ input.old.context }
{
    let offset = input.place();
    let code = input.uint()?;
    if !is_known(code) {
        return Err(bad(offset, Cause::BadCode));
    }
    get_case(input, code)
}

impl Fields for ValueEl {
    ghost use Rattle.ui_eobj.specs.Values.{whole_value};
    ghost use Rattle.ui_eobj.specs.ObjectLaws.{whole_value_lawful};

    ghost form = { whole_value };

    fn put(&self, alloc: Global, out: &mut ElementOut) -> Result<(), NoMemory> {
        match *self {
            ValueEl::Int64(value) => {
                out.truth(alloc, false)?;
                out.uint(alloc, 2)?;
                out.int(alloc, value)
            }
            ValueEl::Big {
                magnitude,
                negative,
            } => {
                out.truth(alloc, false)?;
                out.uint(alloc, 3)?;
                out.target(alloc, Section::Str, magnitude)?;
                out.truth(alloc, negative)
            }
        }
    }

    fn get(_alloc: Global, input: &mut ElementIn<'_>) -> Result<ValueEl, ElementFault> {
        let offset = input.place();
        if input.truth()? {
            return Err(bad(offset, Cause::BadCode));
        }
        get_coded(input)
    }

    ghost lawful = { whole_value_lawful };
}
