// What is claimed about paths.
ghost use Rattle.std.specs.Prelude.{◌≡◌, IfOk, OnOk, length, map, option_map};
ghost use Rattle.std.specs.FinMap.{empty, get};
ghost use Rattle.ui_exports.specs.Linked.{below};
ghost use Rattle.ui_below.specs.Claims.{claim, claims, claims_of, held, indirect};
ghost use Rattle.ui_below.specs.Holding.{held_as, holding, merged, with_claim, with_claims};

use std::alloc::Global;
use std::collections::BTreeMap;
use ui_base::NoMemory;
use ui_exports::{Below, Linked};

// What is claimed about a path: the first fingerprint, the first other one, and whether it is
// imported directly.
#[derive(Clone, Copy, Debug, PartialEq, Eq, Drop)]
pub struct Held {
    pub print: [u8; 8],
    pub other: Option<[u8; 8]>,
    pub direct: bool,
}

// What is held with one claim more.
fn merge(held: Option<Held>, print: [u8; 8], direct: bool) -> Held
    ensures { held_as result ≡ merged (option_map held_as held) print direct }
{
    let Some(held) = held else {
        let other = None;
        return Held {
            print,
            other,
            direct,
        };
    };
    let other = match held.other {
        Some(other) => Some(other),
        None if held.print == print => None,
        None => Some(print),
    };
    Held {
        print: held.print,
        other,
        direct: held.direct || direct,
    }
}

// What is held of a path.
fn held_of(by_path: &BTreeMap<Vec<u8>, Held>, path: &[u8]) -> Option<Held>
    ensures { option_map held_as result ≡ get (holding by_path.now.entries) path.now }
{
    match by_path.get(path) {
        Some(held) => Some(*held),
        None => None,
    }
}

// One claim more.
fn add_claim(
    alloc: Global,
    by_path: &mut BTreeMap<Vec<u8>, Held>,
    path: &[u8],
    print: [u8; 8],
    direct: bool,
) -> Result<(), NoMemory>
    ensures { OnOk result (holding by_path.new.entries ≡ with_claim (holding by_path.old.entries)
        (claim path.now print direct)) }
{
    let held = merge(held_of(by_path, path), print, direct);
    by_path.insert(Vec::from_slice(alloc, path)?, held)?;
    Ok(())
}

// The claims of a file's list.
fn add_list(
    alloc: Global,
    by_path: &mut BTreeMap<Vec<u8>, Held>,
    list: &[Below],
) -> Result<(), NoMemory>
    ensures { OnOk result (holding by_path.new.entries ≡ with_claims (holding by_path.old.entries)
        (map indirect (map below list.now))) }
{
    for below in list {
        add_claim(alloc, by_path, below.path.bytes(), below.print, false)?;
    }
    Ok(())
}

// The claims of a file.
fn add_file(
    alloc: Global,
    by_path: &mut BTreeMap<Vec<u8>, Held>,
    file: &Linked,
    print: [u8; 8],
) -> Result<(), NoMemory>
    ensures { OnOk result (holding by_path.new.entries ≡ with_claims (holding by_path.old.entries)
        (claims_of file.now print)) }
{
    add_claim(alloc, by_path, file.package.path(), print, true)?;
    add_list(alloc, by_path, &file.below)?;
    Ok(())
}

// What is held of the claims of all files.
pub fn hold(
    alloc: Global,
    files: &[Linked],
    prints: &[[u8; 8]],
) -> Result<BTreeMap<Vec<u8>, Held>, NoMemory>
    requires { length files.now ≡ length prints.now }
    ensures { IfOk result (λ m. holding m.entries ≡ held (claims files.now prints.now)) }
{
    let mut by_path = BTreeMap::new(alloc);
    for i in 0..files.len() {
        add_file(alloc, &mut by_path, &files[i], prints[i])?;
    }
    Ok(by_path)
}
