//! The phase `collect` of a check: what a package declares, what its names mean, and the faults of
//! names.
#![tactic(auto, using(std::proofs::lemmas::Grind::common_steps, ui_scopes::specs::Steps::stepping, crate::proofs::StepLemmas::walking))]

mod before;
mod items;
mod levels;
mod lists;
mod package;

pub use before::{Before, NameSet, PackageNames};
pub use items::{Item, What, items_of};
pub use levels::{file_levels, package_level};
pub use package::{known_as, names_of};
