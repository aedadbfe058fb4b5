//! The byte layer of unit and linked files: numbers in their shortest spelling, and the container,
//! which holds ten sections of elements and ends in a fingerprint of all that stands before it.
//!
//! The layout is this project's own, after `internal/pkgbits` of the Go tree. `specs/Number.antt`
//! and `specs/Container.antt` define it; the readers and writers here give exactly that.
#![tactic(auto)]

mod frame;
mod number;
mod out;
mod section;
mod section_out;

pub use frame::{Frame, FrameFault, cut_short, one_container};
pub use number::{
    NumFault, get_bool, get_int, get_uint, one_signed_spelling, one_spelling, put_bool, put_int,
    put_uint,
};
pub use out::{FrameOut, OutFault};
pub use section::Section;

/// Want of memory.
pub type NoMemory = std::alloc::AllocError;
