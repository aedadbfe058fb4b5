ghost use Rattle.std.specs.Prelude.{◌≡◌, OnOk};

use crate::element::Element;
use crate::fault::{Cause, ElementFault};
use crate::input::ElementIn;
use crate::out::ElementOut;
use std::alloc::Global;
use ui_frame::{NoMemory, Section};

/// A source file, which positions refer to.
#[derive(Clone, Copy, Debug, PartialEq, Eq, Drop)]
pub struct PosBaseEl {
    /// The String of the file's store name, which isn't empty.
    pub file: u32,
}

impl Element for PosBaseEl {
    ghost use Rattle.ui_strpos.specs.Elements.{posbase};
    ghost use Rattle.ui_strpos.specs.ElementLaws.{posbase_lawful};

    ghost format = { posbase };

    fn encode(&self, alloc: Global, out: &mut ElementOut) -> Result<(), NoMemory> {
        out.target(alloc, Section::Str, self.file)?;
        out.truth(alloc, true)
    }

    fn decode(_alloc: Global, input: &mut ElementIn<'_>) -> Result<PosBaseEl, ElementFault> {
        let offset = input.place();
        let file = input.target(Section::Str)?;
        if input.text(file).is_empty() {
            return Err(ElementFault::Bad {
                offset,
                cause: Cause::BadText,
            });
        }
        let offset = input.place();
        if !input.truth()? {
            return Err(ElementFault::Bad {
                offset,
                cause: Cause::BadCode,
            });
        }
        input.finish()?;
        Ok(PosBaseEl { file })
    }

    ghost lawful = { posbase_lawful };
}
