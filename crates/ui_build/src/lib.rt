//! Building packages over a store: they are found, put in order, compiled each from its own sources
//! and the linked files of its imports, and the root's linked file is read. Such a file is also
//! read alone.
#![tactic(auto)]

mod building;
mod compiling;
mod discovering;
mod dumping;
mod files;
mod judging;
mod laws;
mod loading;
mod names;
mod sources;
mod stop;

pub use building::build;
pub use compiling::compile;
pub use dumping::dump;
pub use laws::{refuses_by_sources, sources_decide, turns_suffice};
pub use loading::{Loaded, load};
pub use stop::{Refusal, Stop};
