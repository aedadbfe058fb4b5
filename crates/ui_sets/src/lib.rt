//! What a type has: fields and methods, and the interfaces that it implements.
#![tactic(auto, using(ui_types::specs::Trees::growth, ui_types::specs::Kept::keeping, crate::specs::Needed::stepping))]

mod fault;
mod implement;
mod members;
mod needs;
mod site;

pub use fault::{SetFault, Unfit};
pub use implement::{implements, listed_fit};
pub use members::lookup;
pub use needs::{needed, needed_bound};
pub use site::{Found, number_of};
