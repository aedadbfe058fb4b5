//! What types as they are written need of their parts: types that values can have, and array
//! lengths. Go specification, "Array types", "General interfaces".
#![tactic(auto, using(ui_types::specs::Trees::growth, ui_scopes::specs::Growing::growing, ui_scopes::specs::Standing::standing, ui_types::specs::Kept::keeping, ui_scopes::specs::Steps::stepping, ui_scopes::specs::Scopes::scope_parts))]

mod lengths;
mod values;

pub use lengths::array_length;
pub use values::value_type;
