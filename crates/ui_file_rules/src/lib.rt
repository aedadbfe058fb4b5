//! What a rule over a whole file is, and the first element that breaks it, by section and then by
//! number. Here are the
//! rules that need neither names nor the trees of types.
#![tactic(auto)]

mod again;
mod by_index;
mod derived_rule;
mod rule;
mod twice_rule;

pub use by_index::{Test, first_not, first_or_none};
pub use derived_rule::{BadIndex, DerivedOrder};
pub use rule::{FileRule, Place, first_place, section_at};
pub use twice_rule::Twice;
