// Why an operation on constants has no result.
ghost use Rattle.std.specs.Prelude.{◌≡◌};

use std::alloc::AllocError;

/// Why an operation on constants has no result.
#[derive(Clone, Copy, Debug, PartialEq, Eq)]
pub enum ConstFault {
    /// A division by zero.
    DivByZero,
    /// A whole number outside -2^127 to 2^127 - 1, or a text past 1,048,576 bytes.
    ConstTooBig,
    /// A value that its kind can't hold.
    NotRepresentable,
    /// A negative shift count.
    BadShift,
    /// Memory ran out.
    NoMemory,
}

impl From<AllocError> for ConstFault {
    ghost use Rattle.ui_const.specs.declared.fault.ConstFault.TheVariants.{NoMemory};

    ghost from_gives = { λ _ e. e ≡ NoMemory };

    fn from(_: AllocError) -> Self {
        ConstFault::NoMemory
    }
}
