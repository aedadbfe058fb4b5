//! The rules of forms over operands, as code. Go specification, "Expressions".
#![tactic(auto, using(ui_types::specs::Trees::growth, ui_scopes::specs::Growing::growing, ui_scopes::specs::Standing::standing, ui_types::specs::Kept::keeping, ui_scopes::specs::Steps::stepping, ui_scopes::specs::Scopes::scope_parts))]

mod constants;
mod forms;
mod kinds;
mod names;

pub use constants::Constant;
pub use forms::{binary_operand, in_parens, literal_operand, not_taken, selected, unary_operand};
pub use kinds::{default_kind, is_untyped};
pub use names::name_operand;
