//! Why a body at type arguments is refused.
ghost use Rattle.std.specs.Prelude.{◌≡◌};
ghost use Rattle.ui_core.specs.declared.fault.InstFault.TheVariants as inst;
ghost use Rattle.ui_core.specs.declared.fault.BodyFault.TheVariants as body;

use std::alloc::AllocError;

/// Why there is no instance of a declaration at these type arguments. This project's own.
#[derive(Drop)]
pub enum InstFault {
    /// Nothing of that name is declared.
    NoSuch,
    /// The declaration has another number of type parameters.
    WrongCount { wanted: u32, given: u32 },
    /// The argument for this parameter, by its place, doesn't satisfy the constraint.
    Unsatisfied { parameter: u32 },
    /// A type of the instance has too many nodes.
    TooBig,
    /// A type of the instance is too deep, and none is too big.
    TooDeep,
    /// The argument has no method for this entry of the dictionary, by its place.
    Unmet { entry: u32 },
    NoMemory,
}

/// Why there is no body at these type arguments.
#[derive(Drop)]
pub enum BodyFault {
    /// Its instance is refused; never for want of memory.
    Inst(InstFault),
    NoMemory,
}

impl From<AllocError> for InstFault {
    ghost from_gives = { λ _ e. e ≡ inst.NoMemory };

    fn from(_e: AllocError) -> InstFault {
        InstFault::NoMemory
    }
}

impl From<AllocError> for BodyFault {
    ghost from_gives = { λ _ e. e ≡ body.NoMemory };

    fn from(_e: AllocError) -> BodyFault {
        BodyFault::NoMemory
    }
}
