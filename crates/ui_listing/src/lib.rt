//! What a container has, as lines of text: the elements of each section with their lengths, and the
//! fingerprint.
#![tactic(auto)]

mod listing;

pub use listing::list_container;
