//! Which types are comparable, and which satisfy a constraint.
#![tactic(auto, using(ui_terms::specs::Loops::calling))]

mod laws;
mod marks;
mod satisfy;
mod search;
mod shape;

pub use laws::search_is_right;
pub use satisfy::satisfies;
pub use search::comparable;
