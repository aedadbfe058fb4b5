// The trees of a package's sources.
ghost use Rattle.std.specs.Prelude.{map};
ghost use Rattle.ui_sources.specs.Sources.{GivesTrees, source_of, trees_of};

use crate::parse::parse_all;
use crate::scan::scan_all;
use crate::size::package_size;
use crate::source::{SourceFile, Trees};
use std::alloc::Global;
use ui_base::{CheckFault, Text};

/// The trees of the sources of the package of the path `own`, in the order of the sources, which
/// stand in ascending order of name.
///
/// # Errors
///
/// The first fault, at its place. All sources go through a phase before any goes through the next:
/// size (`SourceTooLong` at the front of the first source that is too long; else `PackageTooLarge`
/// at the front of the first source, where there are more than 256 sources or more than 16,777,216
/// bytes together), then scanning, then parsing.
pub fn read_trees(alloc: Global, own: &str, sources: &[SourceFile]) -> Result<Trees, CheckFault>
    ensures { GivesTrees (trees_of own.now (map source_of sources.now)) result }
{
    let size = package_size(alloc, sources)?;
    let own = Text::from_slice(alloc, own.as_bytes())?;
    let tokens = scan_all(alloc, sources)?;
    let files = parse_all(alloc, &own, sources, tokens.as_slice())?;
    Ok(Trees { size, files })
}
