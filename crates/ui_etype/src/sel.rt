ghost use Rattle.std.specs.Prelude.{◌≡◌, OnOk};

use std::alloc::Global;
use ui_base::is_exported;
use ui_frame::{NoMemory, Section};
use ui_strpos::{ElementFault, ElementIn, ElementOut, Fields, get_name};

/// A selector: the String of its name, and its Pkg where the name isn't exported.
#[derive(Clone, Copy, PartialEq, Eq, Hash, Drop)]
pub struct Sel {
    pub name: u32,
    pub pkg: Option<u32>,
}

impl Fields for Sel {
    ghost use Rattle.ui_etype.specs.Types.{sel};
    ghost use Rattle.ui_etype.specs.TypeLaws.{sel_lawful};

    ghost form = { sel };

    fn put(&self, alloc: Global, out: &mut ElementOut) -> Result<(), NoMemory> {
        out.target(alloc, Section::Str, self.name)?;
        match self.pkg {
            Some(pkg) => out.target(alloc, Section::Pkg, pkg),
            None => Ok(()),
        }
    }

    fn get(_alloc: Global, input: &mut ElementIn<'_>) -> Result<Sel, ElementFault> {
        let name = get_name(input)?;
        if is_exported(input.text(name)) {
            return Ok(Sel { name, pkg: None });
        }
        let pkg = input.target(Section::Pkg)?;
        Ok(Sel {
            name,
            pkg: Some(pkg),
        })
    }

    ghost lawful = { sel_lawful };
}
