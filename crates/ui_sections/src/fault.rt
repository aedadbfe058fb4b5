ghost use Rattle.std.specs.Prelude.{◌≡◌};
ghost use Rattle.ui_frame.specs.Sections.{number_of};
ghost use Rattle.ui_sections.specs.Told.{at_place};
ghost use Rattle.ui_sections.specs.declared.fault.ValidFault.TheVariants.{NoMemory};

use std::alloc::{AllocError, AllocFailed};
use ui_file::BadFile;
use ui_frame::Section;
use ui_strpos::ElementFault;

/// Why a file isn't taken: the first test that fails; or memory ran out.
#[derive(Debug, PartialEq, Eq, Drop)]
pub enum ValidFault {
    Bad(BadFile),
    NoMemory,
}

impl From<AllocError> for ValidFault {
    ghost from_gives = { λ _ e. e ≡ NoMemory };

    fn from(_e: AllocError) -> ValidFault {
        ValidFault::NoMemory
    }
}

impl<T: Drop> From<AllocFailed<T>> for ValidFault {
    ghost from_gives = { λ _ e. e ≡ NoMemory };

    fn from(_e: AllocFailed<T>) -> ValidFault {
        ValidFault::NoMemory
    }
}

/// An element's fault, at its place in the file.
pub(crate) fn at_element(s: Section, element: u32, fault: ElementFault) -> ValidFault
    ensures { result ≡ at_place (number_of s) element fault }
{
    match fault {
        ElementFault::Bad { offset, cause } => ValidFault::Bad(BadFile {
            section: s.number(),
            element,
            offset: offset as u64,
            cause,
        }),
        ElementFault::NoMemory => ValidFault::NoMemory,
    }
}
