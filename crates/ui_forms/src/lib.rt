//! Packages of constants that are sums: the form of their sources by their trees, and the verdict
//! on them.
//!
//! `specs/Form.antt` defines the form, and `specs/Verdict.antt` what a package of it exports over
//! the packages that it imports, or its first fault.
#![tactic(auto)]

mod constant;
mod discovery;
mod fault;
mod form;
mod import;
mod laws;
mod names;
mod numbers;
mod package;
mod part;
mod scope;
mod spots;
mod sums;
mod used;
mod values;
mod verdict;
mod words;

pub use discovery::imports_of;
pub use fault::FormFault;
pub use form::{Form, form_of};
pub use laws::{accepted_forms, verdict_is_local};
pub use part::{ConstantSum, ImportPath, Part, Term};
pub use ui_base::NoMemory;
pub use verdict::check;
pub use words::is_ascii_name;
