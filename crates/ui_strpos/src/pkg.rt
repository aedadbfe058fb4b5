ghost use Rattle.std.specs.Prelude.{◌≡◌, OnOk};
ghost use Rattle.ui_strpos.specs.Elements as texts;

use crate::element::Element;
use crate::fault::{Cause, ElementFault};
use crate::input::ElementIn;
use crate::out::ElementOut;
use std::alloc::Global;
use ui_base::{is_name, is_path};
use ui_frame::{NoMemory, Section};

/// A package.
#[derive(Clone, Copy, Debug, PartialEq, Eq, Drop)]
pub struct PkgEl {
    /// The String of its path: a valid path, or `builtin`.
    pub path: u32,
    /// The String of its name: a name, for the path `builtin` that very text.
    pub name: u32,
}

// Whether a text is the path, and the name, of the package of the predeclared names.
fn is_builtin(text: &[u8]) -> bool
    ensures { result ≡ texts.is_builtin text.now }
{
    text == b"builtin".as_slice()
}

fn is_package_path(path: &[u8]) -> bool
    ensures { result ≡ texts.is_package_path path.now }
{
    is_builtin(path) || is_path(path)
}

// Whether a text can be the name of the package with a path.
fn is_package_name(path: &[u8], name: &[u8]) -> bool
    ensures { result ≡ texts.is_package_name path.now name.now }
{
    if is_builtin(path) {
        is_builtin(name)
    } else {
        is_name(name)
    }
}

impl Element for PkgEl {
    ghost use Rattle.ui_strpos.specs.Elements.{pkg};
    ghost use Rattle.ui_strpos.specs.ElementLaws.{pkg_lawful};

    ghost format = { pkg };

    fn encode(&self, alloc: Global, out: &mut ElementOut) -> Result<(), NoMemory> {
        out.target(alloc, Section::Str, self.path)?;
        out.target(alloc, Section::Str, self.name)
    }

    fn decode(_alloc: Global, input: &mut ElementIn<'_>) -> Result<PkgEl, ElementFault> {
        let offset = input.place();
        let path = input.target(Section::Str)?;
        if !is_package_path(input.text(path)) {
            return Err(ElementFault::Bad {
                offset,
                cause: Cause::BadText,
            });
        }
        let offset = input.place();
        let name = input.target(Section::Str)?;
        if !is_package_name(input.text(path), input.text(name)) {
            return Err(ElementFault::Bad {
                offset,
                cause: Cause::BadText,
            });
        }
        input.finish()?;
        Ok(PkgEl { path, name })
    }

    ghost lawful = { pkg_lawful };
}
