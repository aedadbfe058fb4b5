// A store in memory, which tells its files and calls.
ghost use Rattle.std.specs.Prelude.{◌≡◌, ◌≤◌, [], ◌∷◌, ◌++◌, Some, None, map, option_map, true};
ghost use Rattle.std.specs.Prelude.{false, IfSome, IfOk, OnOk, OnErr, IsErrOf, string_bytes};
ghost use Rattle.std.specs.Prelude.{vec_len, nat_eq};
ghost use Rattle.std.specs.List.{list_any};
ghost use Rattle.std.specs.FinMap.{get, insert, empty};
ghost use Rattle.ui_store.specs.Causes.{StoreCause};
ghost use Rattle.ui_store.specs.Numbers.{next, is_due};
ghost use Rattle.ui_store.specs.Files.{is_part, part_in, names_in, texts, listing, reading};
ghost use Rattle.ui_store.specs.Listings.{IsListing};
ghost use Rattle.ui_store.specs.Calls.{Gives, Asks, Hears, Writes};
ghost use Rattle.ui_store.specs.Memory.{files_of, ask_of, memory_of, memory_told, IsCall, Keeps};
ghost use Rattle.ui_store.specs.declared.store.Given.TheVariants as given;

use crate::fault::StoreFault;
use crate::store::{AskKind, Asked, Store, has_slash};
use std::alloc::Global;
use std::collections::BTreeMap;
use ui_base::{NoMemory, Text};

/// A store in memory, for tests and for callers that want no disk. It tells its files and calls,
/// fails at the calls of a list, and a write that fails keeps a front of the bytes.
#[derive(Drop)]
pub struct MemStore {
    files: BTreeMap<String, Vec<u8>>,
    asked: Vec<Asked>,
    fails: Vec<u64>,
    keep: usize,
    calls: u64,
    faults: u64,
}

impl MemStore {
    #[tactic(auto, unfolding(crate::specs::Memory::files_of))]
    /// An empty store that fails at the calls of these numbers, from 0. A write that fails leaves
    /// the first `keep` bytes.
    pub fn new(alloc: Global, fails: Vec<u64>, keep: usize) -> MemStore
        ensures { memory_of result ≡ record
            { files = empty; asked = []; fails = fails.items; keep = keep; calls = 0; faults = 0 } }
    {
        MemStore {
            files: BTreeMap::new(alloc),
            asked: Vec::new(alloc),
            fails,
            keep,
            calls: 0,
            faults: 0,
        }
    }

    /// Puts a file. This is no call of the store.
    pub fn put(&mut self, alloc: Global, name: &str, bytes: &[u8]) -> Result<(), NoMemory>
        ensures ok { OnOk result
            (memory_of self.new ≡ record (memory_of self.old)
            { files = insert (memory_of self.old).files name.now bytes.now }) }
        ensures err { OnErr result (memory_of self.new ≡ memory_of self.old) }
    {
        put_file(alloc, &mut self.files, name, bytes)
    }

    /// The bytes of a file.
    pub fn file(&self, name: &str) -> Option<&[u8]>
        ensures { option_map (λ v. v.now) result ≡ get (memory_of self.now).files name.now }
    {
        match find_file(&self.files, name) {
            Some(bytes) => Some(bytes.as_slice()),
            None => None,
        }
    }

    /// The calls so far, the first of them first.
    pub fn asked(&self) -> &[Asked]
        ensures { map ask_of result.now ≡ (memory_of self.now).asked }
    {
        &self.asked
    }

    /// How many calls have failed.
    pub fn faults(&self) -> u64
        ensures { result ≡ (memory_of self.now).faults }
    {
        self.faults
    }

    // Numbers a call and notes it. Gives whether it is to fail.
    fn begin(&mut self, alloc: Global, what: AskKind, name: &str) -> Result<bool, NoMemory>
        ensures due { IfOk result (λ due. due ≡ is_due self.old.fails.items self.old.calls) }
        ensures others { self.new ≡ record self.old
            { asked = self.new.asked; calls = next self.old.calls } }
        ensures noted { OnOk result
            (map ask_of self.new.asked.items ≡ map ask_of self.old.asked.items ++ (what, name.now)
            ∷ []) }
        ensures not_noted { OnErr result
            (map ask_of self.new.asked.items ≡ map ask_of self.old.asked.items) }
    {
        let number = self.calls;
        self.calls = number.saturating_add(1);
        note(alloc, &mut self.asked, what, name)?;
        Ok(self.fails.contains(&number))
    }

    // Counts a fault.
    fn fail(&mut self) -> StoreFault
        ensures fault { result ≡ StoreFault.Failed }
        ensures count { self.new ≡ record self.old { faults = next self.old.faults } }
        ensures later { self.old.faults ≤ self.new.faults }
    {
        self.faults = self.faults.saturating_add(1);
        StoreFault::Failed
    }
}

// Notes a call.
fn note(alloc: Global, asked: &mut Vec<Asked>, what: AskKind, name: &str) -> Result<(), NoMemory>
    ensures ok { OnOk result
        (map ask_of asked.new.items ≡ map ask_of asked.old.items ++ (what, name.now) ∷ []) }
    ensures err { OnErr result (asked.new.items ≡ asked.old.items) }
{
    let name = Text::from_slice(alloc, name.as_bytes())?;
    asked.push(Asked { what, name })?;
    Ok(())
}

// Puts a file.
#[tactic(auto, using(crate::specs::Memory::puts))]
fn put_file(
    alloc: Global,
    files: &mut BTreeMap<String, Vec<u8>>,
    name: &str,
    bytes: &[u8],
) -> Result<(), NoMemory>
    ensures ok { OnOk result
        (files_of files.new.entries ≡ insert (files_of files.old.entries) name.now bytes.now) }
    ensures err { OnErr result (files_of files.new.entries ≡ files_of files.old.entries) }
{
    let name = String::from_str(alloc, name)?;
    let bytes = bytes.to_vec(alloc)?;
    files.insert(name, bytes)?;
    Ok(())
}

// The bytes of a file.
fn find_file<'a>(files: &'a BTreeMap<String, Vec<u8>>, name: &str) -> Option<&'a Vec<u8>>
    ensures { option_map (λ v. v.now.items) result ≡ get (files_of files.now.entries) name.now }
{
    files.get(name)
}

// Whether a name is in a folder itself.
fn is_part(dir: &[u8], name: &[u8]) -> bool
    ensures { result ≡ is_part dir.now name.now }
{
    if dir.len() >= name.len() {
        return false;
    }
    name.starts_with(dir) && name[dir.len()] == b'/' && !has_slash(&name[dir.len() + 1..])
}

// The last part of a name in a folder.
fn part_of(alloc: Global, dir: &str, name: &str) -> Result<Option<String>, NoMemory>
    ensures { IfOk result (λ o. option_map string_bytes o ≡ part_in dir.now name.now) }
{
    if !is_part(dir.as_bytes(), name.as_bytes()) {
        return Ok(None);
    }
    let part = String::from_str(alloc, &name[dir.len() + 1..])?;
    Ok(Some(part))
}

// The last parts of the names in a folder, ascending.
fn parts_in(
    alloc: Global,
    files: &BTreeMap<String, Vec<u8>>,
    dir: &str,
) -> Result<Vec<String>, NoMemory>
    ensures gives { IfOk result (λ v. texts v ≡ names_in (files_of files.now.entries) dir.now) }
    ensures listed { IfOk result (λ v. IsListing (texts v)) }
{
    let mut names = Vec::new(alloc);
    for name in files.keys() {
        if let Some(part) = part_of(alloc, dir, name.as_str())? {
            names.push(part)?;
        }
    }
    Ok(names)
}

#[tactic(auto, unfolding(crate::specs::Told::more))]
impl Store for MemStore {
    ghost told = { λ m. memory_told (memory_of m) };

    #[tactic(auto, unfolding(crate::specs::Told::more, crate::specs::Files::listing))]
    fn list(&mut self, alloc: Global, dir: &str) -> Result<Vec<String>, StoreFault>
        ensures gives { Gives texts result (listing (memory_of self.old).files dir.now) }
        ensures listed { IfOk result (λ v. IsListing (texts v)) }
        ensures never { IsErrOf result StoreFault.TooLong → ⊥ }

        ensures files { (memory_of self.new).files ≡ (memory_of self.old).files }
        ensures asked { Asks result (Some (memory_of self.old).asked)
            (Some (memory_of self.new).asked) (AskKind.List, dir.now) }
        ensures heard { Hears (λ v. given.Names (texts v)) result None None
            (AskKind.List, dir.now) }
        ensures cause { StoreCause (memory_of self.old).faults (memory_of self.new).faults result }

        ensures call { IsCall (memory_of self.old) (memory_of self.new) result }
    {
        if self.begin(alloc, AskKind::List, dir)? {
            return Err(self.fail());
        }
        let names = parts_in(alloc, &self.files, dir)?;
        if names.is_empty() {
            return Err(StoreFault::Missing);
        }
        Ok(names)
    }

    #[tactic(auto, unfolding(crate::specs::Told::more, crate::specs::Files::reading))]
    fn read(&mut self, alloc: Global, name: &str, limit: usize) -> Result<Vec<u8>, StoreFault>
        ensures gives { Gives (λ v. v.items) result
            (reading (memory_of self.old).files name.now limit) }
        ensures bounded { IfOk result (λ v. vec_len v ≤ limit) }

        ensures files { (memory_of self.new).files ≡ (memory_of self.old).files }
        ensures asked { Asks result (Some (memory_of self.old).asked)
            (Some (memory_of self.new).asked) (AskKind.Read, name.now) }
        ensures heard { Hears (λ v. given.Bytes v.items) result None None (AskKind.Read, name.now) }
        ensures cause { StoreCause (memory_of self.old).faults (memory_of self.new).faults result }

        ensures call { IsCall (memory_of self.old) (memory_of self.new) result }
    {
        if self.begin(alloc, AskKind::Read, name)? {
            return Err(self.fail());
        }
        let Some(bytes) = find_file(&self.files, name) else {
            return Err(StoreFault::Missing);
        };
        if bytes.len() > limit {
            return Err(StoreFault::TooLong);
        }
        Ok(bytes.to_vec(alloc)?)
    }

    #[tactic(auto, unfolding(crate::specs::Told::more, crate::specs::Files::put))]
    fn write(&mut self, alloc: Global, name: &str, bytes: &[u8]) -> Result<(), StoreFault>
        ensures files { Writes result (Some (memory_of self.old).files)
            (Some (memory_of self.new).files) name.now bytes.now }
        ensures asked { Asks result (Some (memory_of self.old).asked)
            (Some (memory_of self.new).asked) (AskKind.Write, name.now) }
        ensures cause { StoreCause (memory_of self.old).faults (memory_of self.new).faults result }

        ensures call { IsCall (memory_of self.old) (memory_of self.new) result }
        ensures keeps { Keeps result (memory_of self.old) (memory_of self.new) name.now bytes.now }
    {
        if self.begin(alloc, AskKind::Write, name)? {
            let kept = self.keep.min(bytes.len());
            put_file(alloc, &mut self.files, name, &bytes[..kept])?;
            return Err(self.fail());
        }
        put_file(alloc, &mut self.files, name, bytes)?;
        Ok(())
    }

    ghost tells_asked = { λ s told. told };
}
