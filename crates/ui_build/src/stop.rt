// What stops a build before its answer.
ghost use Rattle.std.specs.Prelude.{◌≡◌};

use std::alloc::{AllocError, AllocFailed};
use ui_base::{Fault, Pos, Text};
use ui_frame::FrameFault;

/// Why the sources or the files give no answers. Each `String` is a name in the store, but for the
/// path of `Cycle`.
#[derive(Drop)]
pub enum Refusal {
    /// There is no such file, or no such folder of sources.
    NoFile(String),
    /// The first fault of a package.
    Faulty(Fault),
    /// The place of what isn't taken in sources that have trees: the fault `Form`.
    Form(Pos),
    /// A linked file that is longer than the limit.
    TooLong(String),
    /// A linked file that is no container: the first test that fails.
    BadFrame {
        name: String,
        fault: FrameFault,
    },
    /// A container whose elements aren't those of its package.
    BadElement(String),
    /// More packages than a build may find.
    TooMany,
    /// A path on a cycle of imports.
    Cycle(String),
    /// A path for which the files name two fingerprints: the first two.
    Stale {
        path: Text,
        first: [u8; 8],
        second: [u8; 8],
    },
}

/// What stops a step: a refusal, a fault of the store with the name that was asked, or want of
/// memory.
#[derive(Drop)]
pub enum Stop {
    Refused(Refusal),
    ReadFault(String),
    WriteFault(String),
    NoMemory,
}

impl From<AllocError> for Stop {
    ghost use Rattle.ui_build.specs.declared.stop.Stop.TheVariants.{NoMemory};

    ghost from_gives = { λ _ e. e ≡ NoMemory };

    fn from(_: AllocError) -> Self {
        Stop::NoMemory
    }
}

impl<T: Drop> From<AllocFailed<T>> for Stop {
    ghost use Rattle.ui_build.specs.declared.stop.Stop.TheVariants.{NoMemory};

    ghost from_gives = { λ _ e. e ≡ NoMemory };

    fn from(_: AllocFailed<T>) -> Self {
        Stop::NoMemory
    }
}
