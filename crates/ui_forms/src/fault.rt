// Why sources have no form.
ghost use Rattle.std.specs.Prelude.{◌≡◌};
ghost use Rattle.ui_forms.specs.declared.fault.FormFault.TheVariants as form;
ghost use Rattle.ui_forms.specs.declared.fault.PartFault.TheVariants as part;

use std::alloc::AllocError;
use ui_base::{Pos, Spot};

/// Why a package has no form.
#[derive(Debug, Drop)]
pub enum FormFault {
    /// What stands there isn't taken.
    NotTaken(Pos),
    NoMemory,
}

impl From<AllocError> for FormFault {
    ghost from_gives = { λ _ e. e ≡ form.NoMemory };

    fn from(_e: AllocError) -> FormFault {
        FormFault::NoMemory
    }
}

/// Why a source has no form.
#[derive(Debug, Drop)]
pub enum PartFault {
    /// What stands there isn't taken.
    NotTaken(Spot),
    NoMemory,
}

impl From<AllocError> for PartFault {
    ghost from_gives = { λ _ e. e ≡ part.NoMemory };

    fn from(_e: AllocError) -> PartFault {
        PartFault::NoMemory
    }
}
