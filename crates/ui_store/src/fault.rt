// Why a call on the outside gave nothing.
ghost use Rattle.std.specs.Prelude.{◌≡◌};

use std::alloc::{AllocError, AllocFailed};
use thiserror::Error;

/// Why a call on a store gave nothing.
#[derive(Clone, Copy, Debug, PartialEq, Eq, Error)]
pub enum StoreFault {
    /// The store has no such file, or no file in such a folder.
    #[error("no such file")]
    Missing,
    /// The file has more bytes than were asked for.
    #[error("the file is too long")]
    TooLong,
    /// The device failed.
    #[error("the device failed")]
    Failed,
    /// Memory ran out.
    #[error("out of memory")]
    NoMemory,
}

impl From<AllocError> for StoreFault {
    ghost use Rattle.ui_store.specs.declared.fault.StoreFault.TheVariants.{NoMemory};

    ghost from_gives = { λ _ e. e ≡ NoMemory };

    fn from(_: AllocError) -> Self {
        StoreFault::NoMemory
    }
}

impl<T: Drop> From<AllocFailed<T>> for StoreFault {
    ghost use Rattle.ui_store.specs.declared.fault.StoreFault.TheVariants.{NoMemory};

    ghost from_gives = { λ _ e. e ≡ NoMemory };

    fn from(_: AllocFailed<T>) -> Self {
        StoreFault::NoMemory
    }
}

/// The device of a source or a sink failed.
#[derive(Clone, Copy, Debug, PartialEq, Eq, Error)]
#[error("the device failed")]
pub struct IoFault;
