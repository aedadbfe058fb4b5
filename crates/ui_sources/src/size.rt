// The phase of size.
ghost use Rattle.std.specs.Prelude.{◌≡◌, OnOk, map};
ghost use Rattle.ui_sources.specs.Choosing.{AreMeasured, Gives, size_within};
ghost use Rattle.ui_sources.specs.Sources as spec;
ghost use Rattle.ui_sources.specs.Sources.{source_of};
ghost use Rattle.ui_base.specs.Steps.{each};

use crate::fault::{FRONT, fault_in};
use crate::source::SourceFile;
use std::alloc::Global;
use ui_base::{CheckFault, FaultKind};

/// The most sources of a package.
const COUNT_LIMIT: usize = 256;

/// The most bytes of a package's sources together.
const BYTES_LIMIT: usize = 16777216;

// Finds that no source is too long.
fn measure(alloc: Global, sources: &[SourceFile]) -> Result<(), CheckFault>
    ensures { Gives (λ _. map source_of sources.now)
        (each spec.measured (map source_of sources.now)) result }
{
    for source in sources {
        if source.is_long() {
            let name = source.name.as_str();
            return Err(fault_in(alloc, FaultKind::SourceTooLong, name, FRONT));
        }
    }
    Ok(())
}

// The bytes of sources together, or nothing where there are more bytes or more sources than a
// package may have.
fn size_within(sources: &[SourceFile]) -> Option<usize>
    ensures { result ≡ size_within (map source_of sources.now) }
{
    if sources.len() > COUNT_LIMIT {
        return None;
    }
    let mut room = BYTES_LIMIT;
    for source in sources {
        let count = source.bytes().len();
        if count > room {
            return None;
        }
        room -= count;
    }
    Some(BYTES_LIMIT - room)
}

// The name of the first source.
fn first_name(sources: &[SourceFile]) -> &str
    ensures { result.now ≡ spec.first_name (map source_of sources.now) }
{
    match sources {
        [] => "",
        [first, ..] => first.name.as_str(),
    }
}

/// The bytes of a package's sources together.
pub(crate) fn package_size(alloc: Global, sources: &[SourceFile]) -> Result<usize, CheckFault>
    ensures gives { Gives (λ size. size) (spec.size_of (map source_of sources.now)) result }
    ensures measured { OnOk result (AreMeasured (map source_of sources.now)) }
{
    measure(alloc, sources)?;
    match size_within(sources) {
        Some(size) => Ok(size),
        None => {
            let name = first_name(sources);
            Err(fault_in(alloc, FaultKind::PackageTooLarge, name, FRONT))
        }
    }
}
