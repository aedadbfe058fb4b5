// The trusted edge: the files under the current folder.
ghost use Rattle.std.specs.Prelude.{◌≡◌, ◌≤◌, None, map, IsTrue, IfOk, string_bytes};
ghost use Rattle.std.specs.Ordering.{nat_cmp};
ghost use Rattle.std.specs.Cmp.Lexicographic.{slice_cmp};
ghost use Rattle.std.specs.List.Sorted.{IsStrictlySortedBy};
ghost use Rattle.ui_store.specs.Causes.{Rose};
ghost use Rattle.std.specs.List.{list_all};
ghost use Rattle.ui_store.specs.Listings.{IsListing, is_last_part};

use crate::fault::StoreFault;
use crate::store::{Store, has_slash};
use std::alloc::Global;
use std::cmp::Ordering;
use std::fs::{DirEntry, File};
use std::io::{ErrorKind, Read};
use std::rt::Files;
use std::{fs, io};

/// The files under the current folder. It tells nothing, and counts each fault of the system.
#[derive(Drop)]
pub struct DirStore<R> {
    rt: R,
    faults: u64,
}

// The name of an entry of a folder; none where the entry is a folder itself.
fn file_name<R: Files>(alloc: Global, entry: &DirEntry<R>) -> io::Result<Option<String>> {
    if entry.metadata()?.is_dir() {
        return Ok(None);
    }
    Ok(Some(String::from_str(alloc, entry.file_name())?))
}

// The names of the files in a folder, sorted. Folders are left out.
fn names_in<R: Files + AllocGlobal + Clone + Drop>(
    rt: &R,
    alloc: Global,
    dir: &str,
) -> io::Result<Vec<String>> {
    let mut names = Vec::new(alloc);
    for entry in fs::read_dir(rt, dir)? {
        if let Some(name) = file_name(alloc, &entry?)? {
            names.push(name)?;
        }
    }
    names.sort()?;
    Ok(names)
}

// The bytes of a file, one more than the limit where there are more.
fn bytes_of<R: Files>(rt: &R, alloc: Global, name: &str, limit: usize) -> io::Result<Vec<u8>> {
    let mut bytes = Vec::new(alloc);
    let most = (limit as u64).saturating_add(1);
    File::open(rt, name)?.take(most).read_to_end(&mut bytes)?;
    Ok(bytes)
}

// Puts the bytes of a file, and makes its folders.
fn put_bytes<R: Files>(rt: &R, name: &str, bytes: &[u8]) -> io::Result<()> {
    if let Some((folder, _)) = name.rsplit_once('/') {
        fs::create_dir_all(rt, folder)?;
    }
    fs::write(rt, name, bytes)
}

// Whether each name is below the next.
fn ascends(names: &[String]) -> bool
    ensures { IsTrue result → IsStrictlySortedBy (slice_cmp nat_cmp) (map string_bytes names.now) }
{
    for k in 1..names.len() {
        match names[k - 1].cmp(&names[k]) {
            Ordering::Less => {}
            Ordering::Equal | Ordering::Greater => return false,
        }
    }
    true
}

// Whether no name holds `/`.
fn are_parts(names: &[String]) -> bool
    ensures { result ≡ list_all (λ name. is_last_part (string_bytes name)) names.now }
{
    names.iter().all(|name| !has_slash(name.as_bytes()))
}

// Whether the names ascend, each once, and none holds `/`.
#[tactic(auto, using(crate::specs::Listings::strings_listed))]
fn is_listing(names: &[String]) -> bool
    ensures { IsTrue result → IsListing (map string_bytes names.now) }
{
    ascends(names) && are_parts(names)
}

impl<R> DirStore<R> {
    /// The files under the current folder, by this runtime.
    pub fn new(rt: R) -> DirStore<R>
        ensures { result.faults ≡ 0 }
    {
        DirStore { rt, faults: 0 }
    }

    // Counts a fault of the system.
    fn fail(&mut self) -> StoreFault
        ensures fault { result ≡ StoreFault.Failed }
        ensures count { Rose self.old.faults self.new.faults }
        ensures later { self.old.faults ≤ self.new.faults }
    {
        self.faults = self.faults.saturating_add(1);
        StoreFault::Failed
    }

    // What an error of the system is to a store. All but a missing file and want of memory counts
    // as a fault.
    fn fault(&mut self, error: io::Error) -> StoreFault
        ensures faults { result ≡ StoreFault.Failed → Rose self.old.faults self.new.faults }
        ensures later { self.old.faults ≤ self.new.faults }
        ensures never { result ≡ StoreFault.TooLong → ⊥ }
    {
        match error.kind() {
            ErrorKind::NotFound => StoreFault::Missing,
            ErrorKind::OutOfMemory => StoreFault::NoMemory,
            _ => self.fail(),
        }
    }
}

impl<R: Files + AllocGlobal + Clone + Drop> Store for DirStore<R> {
    ghost told = { λ s. record { files = None; asked = None; heard = None; faults = s.faults } };

    #[tactic(auto, unfolding(crate::specs::Told::more))]
    fn list(&mut self, alloc: Global, dir: &str) -> Result<Vec<String>, StoreFault> {
        match names_in(&self.rt, alloc, dir) {
            Ok(names) if names.is_empty() => Err(StoreFault::Missing),
            Ok(names) if is_listing(&names) => Ok(names),
            Ok(_) => Err(self.fail()),
            Err(error) => Err(self.fault(error)),
        }
    }

    #[tactic(auto, unfolding(crate::specs::Told::more))]
    fn read(&mut self, alloc: Global, name: &str, limit: usize) -> Result<Vec<u8>, StoreFault> {
        match bytes_of(&self.rt, alloc, name, limit) {
            Ok(bytes) => {
                if bytes.len() > limit {
                    return Err(StoreFault::TooLong);
                }
                Ok(bytes)
            }
            Err(error) => Err(self.fault(error)),
        }
    }

    #[tactic(auto, unfolding(crate::specs::Told::more, crate::specs::Files::put))]
    fn write(&mut self, _alloc: Global, name: &str, bytes: &[u8]) -> Result<(), StoreFault> {
        match put_bytes(&self.rt, name, bytes) {
            Ok(()) => Ok(()),
            Err(error) => match self.fault(error) {
                StoreFault::NoMemory => Err(StoreFault::NoMemory),
                StoreFault::Failed => Err(StoreFault::Failed),
                _ => Err(self.fail()),
            },
        }
    }

    ghost tells_asked = { λ s told. told };
}
