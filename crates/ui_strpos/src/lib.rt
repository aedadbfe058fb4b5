//! Elements of a container: the relocation table of an element, the calls that write and read its
//! single fields, the trait of all elements, and the elements PosBase, Pkg and Name.
//!
//! The layout is this project's own, after `cmd/compile/internal/noder` of the Go tree. The grammar
//! of an element is one value, its format (`specs/Format.antt`); encoding, decoding and the laws
//! are stated over it.
#![tactic(auto)]

mod element;
mod entries;
mod fault;
mod fields;
mod input;
mod name;
mod out;
mod pkg;
mod posbase;
mod shape;
mod target;

pub use element::{Element, one_form, own_table, read_element, write_element};
pub use entries::{ListEntry, get_entries, put_entries};
pub use fault::{Cause, ElementFault};
pub use fields::{Fields, get_list, get_times, put_list, put_times};
pub use input::ElementIn;
pub use name::{NameEl, NameKind, get_name};
pub use out::ElementOut;
pub use pkg::PkgEl;
pub use posbase::PosBaseEl;
pub use shape::Shape;
