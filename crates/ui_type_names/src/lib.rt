//! What names stand for as types, in an environment. Go specification, "Types", "Predeclared
//! identifiers", "Qualified identifiers".
#![tactic(auto, using(ui_types::specs::Trees::growth, ui_scopes::specs::Growing::growing, ui_scopes::specs::Standing::standing, ui_types::specs::Kept::keeping, ui_scopes::specs::Steps::stepping, ui_scopes::specs::Scopes::scope_parts))]

mod faults;
mod found;
mod names;
mod predeclared;

pub use faults::{not_taken, not_type};
pub use names::named_type;
pub use predeclared::empty_interface;
