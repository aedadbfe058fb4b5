ghost use Rattle.std.specs.Prelude.{◌≡◌, ◌<◌, nat_lt, if◌then◌else◌, Some, None, OnOk, IfOk, IfErr};
ghost use Rattle.std.specs.Prelude.{length};
ghost use Rattle.ui_strpos.specs.Elements.{code_of, kind_of, kind, name_use};
ghost use Rattle.ui_strpos.specs.Reading.{Gives, IsMemory};

use crate::element::Element;
use crate::fault::{Cause, ElementFault};
use crate::input::ElementIn;
use crate::out::ElementOut;
use std::alloc::Global;
use ui_base::is_name;
use ui_frame::{NoMemory, Section};

/// What a name is declared as, in the order of the codes.
#[derive(Clone, Copy, Debug, PartialEq, Eq, Drop)]
pub enum NameKind {
    Alias,
    Const,
    /// A defined type.
    Defined,
    Func,
    Var,
    /// Declared in another file.
    Stub,
}

impl NameKind {
    /// The kind's code, from 0 to 5.
    pub fn code(self) -> u32
        ensures { result ≡ code_of self }
    {
        match self {
            NameKind::Alias => 0,
            NameKind::Const => 1,
            NameKind::Defined => 2,
            NameKind::Func => 3,
            NameKind::Var => 4,
            NameKind::Stub => 5,
        }
    }

    fn from_code(code: u64) -> Option<NameKind>
        ensures { result ≡ (if nat_lt code 6 then Some (kind_of code) else None) }
    {
        match code {
            0 => Some(NameKind::Alias),
            1 => Some(NameKind::Const),
            2 => Some(NameKind::Defined),
            3 => Some(NameKind::Func),
            4 => Some(NameKind::Var),
            5 => Some(NameKind::Stub),
            _ => None,
        }
    }

    fn decode(input: &mut ElementIn<'_>) -> Result<NameKind, ElementFault>
        ensures read { Gives (λ k. k) result input.new (kind.read input.old) }
        ensures context { input.new.context ≡ input.old.context }
    {
        let offset = input.place();
        match NameKind::from_code(input.uint()?) {
            Some(kind) => Ok(kind),
            None => Err(ElementFault::Bad {
                offset,
                cause: Cause::BadCode,
            }),
        }
    }
}

/// Reads the use of a String that is a name, and gives the String's number. Takes no memory.
pub fn get_name(input: &mut ElementIn<'_>) -> Result<u32, ElementFault>
    ensures read { Gives (λ k. k) result input.new (name_use.read input.old) }
    ensures no_memory { IfErr result (λ e. ¬ IsMemory e) }
    ensures context { input.new.context ≡ input.old.context }
    ensures text { IfOk result (λ k. k < length input.new.context.texts) }
{
    let offset = input.place();
    let name = input.target(Section::Str)?;
    if !is_name(input.text(name)) {
        return Err(ElementFault::Bad {
            offset,
            cause: Cause::BadText,
        });
    }
    Ok(name)
}

/// A name of a package.
#[derive(Clone, Copy, Debug, PartialEq, Eq, Drop)]
pub struct NameEl {
    /// Its package.
    pub pkg: u32,
    /// The String of the name.
    pub name: u32,
    pub kind: NameKind,
}

impl Element for NameEl {
    ghost use Rattle.ui_strpos.specs.Elements.{name};
    ghost use Rattle.ui_strpos.specs.ElementLaws.{name_lawful};

    ghost format = { name };

    fn encode(&self, alloc: Global, out: &mut ElementOut) -> Result<(), NoMemory> {
        out.target(alloc, Section::Pkg, self.pkg)?;
        out.target(alloc, Section::Str, self.name)?;
        out.uint(alloc, self.kind.code() as u64)
    }

    fn decode(_alloc: Global, input: &mut ElementIn<'_>) -> Result<NameEl, ElementFault> {
        let pkg = input.target(Section::Pkg)?;
        let name = get_name(input)?;
        let kind = NameKind::decode(input)?;
        input.finish()?;
        Ok(NameEl { pkg, name, kind })
    }

    ghost lawful = { name_lawful };
}
