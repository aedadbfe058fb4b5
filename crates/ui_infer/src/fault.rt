ghost use Rattle.std.specs.Prelude.{◌≡◌};
ghost use Rattle.ui_infer.specs.declared.fault.InferFault.TheVariants.{NoMemory};

use std::alloc::AllocError;
use ui_types::TypeId;

/// Why type arguments aren't inferred. Go specification, "Type inference".
#[derive(Drop)]
pub enum InferFault {
    /// The argument of this number and its formal type have different shapes.
    Mismatch {
        argument: u32,
    },
    /// The type parameter is to stand for two types.
    Twice {
        parameter: u32,
        first: TypeId,
        second: TypeId,
    },
    /// Nothing says what the type parameter stands for.
    NotInferred {
        parameter: u32,
    },
    /// An underlying type that is used has more than 65,536 nodes.
    TooBig,
    /// An underlying type that is used is deeper than 256, and isn't too big.
    TooDeep,
    NoMemory,
}

impl From<AllocError> for InferFault {
    ghost from_gives = { λ _ e. e ≡ NoMemory };

    fn from(_e: AllocError) -> InferFault {
        InferFault::NoMemory
    }
}
