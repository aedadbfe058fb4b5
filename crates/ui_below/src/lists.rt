// The list of the packages below.
ghost use Rattle.std.specs.Prelude.{◌≡◌, length, map, filter_map, IfOk};
ghost use Rattle.std.specs.FinMap.{entries};
ghost use Rattle.ui_exports.specs.Linked.{belows};
ghost use Rattle.ui_below.specs.Claims.{claims};
ghost use Rattle.ui_below.specs.Holding.{holding};
ghost use Rattle.ui_below.specs.Join.{Joins, joined, below_in, stale_in, first_of, apart_of};

use crate::claims::{Held, hold};
use std::alloc::{AllocError, AllocFailed, Global};
use std::collections::BTreeMap;
use ui_base::{NoMemory, Text};
use ui_exports::{Below, Linked};

/// Why the lists of files don't join.
#[derive(Debug, Drop)]
pub enum JoinFault {
    /// Two different fingerprints are named for a path.
    Stale {
        path: Text,
        first: [u8; 8],
        second: [u8; 8],
    },
    /// The package is below itself.
    Cycle,
    NoMemory,
}

impl From<AllocError> for JoinFault {
    ghost use Rattle.ui_below.specs.declared.lists.JoinFault.TheVariants.{NoMemory};

    ghost from_gives = { λ _ e. e ≡ NoMemory };

    fn from(_: AllocError) -> Self {
        JoinFault::NoMemory
    }
}

impl<T: Drop> From<AllocFailed<T>> for JoinFault {
    ghost use Rattle.ui_below.specs.declared.lists.JoinFault.TheVariants.{NoMemory};

    ghost from_gives = { λ _ e. e ≡ NoMemory };

    fn from(_: AllocFailed<T>) -> Self {
        JoinFault::NoMemory
    }
}

// The least path for which two fingerprints are named.
fn stale_in(alloc: Global, by_path: &BTreeMap<Vec<u8>, Held>) -> Result<Option<JoinFault>, NoMemory>
    ensures { IfOk result (λ o. apart_of o ≡ first_of
        (filter_map stale_in (entries (holding by_path.now.entries)))) }
{
    for (path, held) in by_path {
        if let Some(second) = held.other {
            let path = Text::from_slice(alloc, path)?;
            let first = held.print;
            return Ok(Some(JoinFault::Stale {
                path,
                first,
                second,
            }));
        }
    }
    Ok(None)
}

// The list of the paths.
fn list_of(alloc: Global, by_path: &BTreeMap<Vec<u8>, Held>) -> Result<Vec<Below>, NoMemory>
    ensures { IfOk result (λ v. belows v ≡ map below_in (entries (holding by_path.now.entries))) }
{
    let mut list = Vec::new(alloc);
    for (path, held) in by_path {
        list.push(Below {
            path: Text::from_slice(alloc, path)?,
            print: held.print,
            direct: held.direct,
        })?;
    }
    Ok(list)
}

/// The packages below the package `own`, by the linked files of its direct imports, each with its
/// own fingerprint: ascending by path, each once, with its fingerprint and whether it is one of the
/// imports.
///
/// Two fingerprints of one path are `Stale`: the least such path, with the first fingerprint named
/// and the first that differs, file by file, each file's own before its list. Then, where `own` is
/// among the paths, `Cycle`.
pub fn join(
    alloc: Global,
    own: &[u8],
    files: &[Linked],
    prints: &[[u8; 8]],
) -> Result<Vec<Below>, JoinFault>
    requires { length files.now ≡ length prints.now }
    ensures { Joins (joined own.now (claims files.now prints.now)) result }
{
    let by_path = hold(alloc, files, prints)?;
    if let Some(stale) = stale_in(alloc, &by_path)? {
        return Err(stale);
    }
    if by_path.contains_key(own) {
        return Err(JoinFault::Cycle);
    }
    Ok(list_of(alloc, &by_path)?)
}
