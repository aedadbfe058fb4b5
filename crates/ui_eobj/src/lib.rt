//! Elements of a container, on top of those of `ui_strpos`: the Obj of a constant, its value, and
//! the two roots.
//!
//! The layout is this project's own, after `cmd/compile/internal/noder` of the Go tree. Each
//! element's grammar is its format: `specs/Values.antt`, `specs/Objects.antt` and
//! `specs/Roots.antt`.
#![tactic(auto)]

mod magnitude;
mod object;
mod root;
mod value;

pub use magnitude::{is_big, is_magnitude, magnitude_bytes, magnitude_number};
pub use object::{ConstEl, PosEl};
pub use root::{BelowEl, ObjectUse, PrivateRootEl, PublicRootEl};
pub use value::ValueEl;
