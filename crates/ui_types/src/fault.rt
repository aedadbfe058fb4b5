ghost use Rattle.std.specs.Prelude.{◌≡◌};
ghost use Rattle.ui_types.specs.declared.fault.TypeFault.TheVariants.{NoMemory};

use std::alloc::AllocError;

/// Why a type is refused.
#[derive(Debug, Drop)]
pub enum TypeFault {
    /// Its tree has more than 65,536 nodes; the number stops at 2^64 - 1.
    TooBig { size: u64 },
    /// Its tree is deeper than 256, and isn't too big.
    TooDeep { depth: u32 },
    NoMemory,
}

impl From<AllocError> for TypeFault {
    ghost from_gives = { λ _ e. e ≡ NoMemory };

    fn from(_e: AllocError) -> TypeFault {
        TypeFault::NoMemory
    }
}
