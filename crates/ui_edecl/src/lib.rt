//! The elements of declarations, on top of those of types: the value of a constant, Obj and ObjExt
//! of each kind, and the empty ObjDict.
//!
//! The layout is this project's own, after `cmd/compile/internal/noder` of the Go tree. Each
//! element's grammar is its format: `specs/Values.antt`, `Objects.antt`, `Extensions.antt` and
//! `Dictionaries.antt`.
#![tactic(auto)]

mod dictionary;
mod extension;
mod method;
mod object;
mod param;
mod value;

pub use dictionary::DictEl;
pub use extension::{KeptEl, ObjExtEl};
pub use method::DeclaredMethodEl;
pub use object::ObjEl;
pub use param::ParamEl;
pub use value::ValueEl;
