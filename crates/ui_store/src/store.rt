// A store of files under names.
ghost use Rattle.std.specs.Prelude.{◌≡◌, ◌≤◌, ℕ, List, Option, IfSome, IfOk, IsErrOf, IsSome};
ghost use Rattle.std.specs.Prelude.{vec_len};
ghost use Rattle.ui_store.specs.Causes.{StoreCause};
ghost use Rattle.ui_store.specs.Files.{has_slash, texts, listing, reading};
ghost use Rattle.ui_store.specs.Listings.{IsListing};
ghost use Rattle.ui_store.specs.Calls.{Gives, Asks, Hears, Writes};
ghost use Rattle.ui_store.specs.Views.{StoreView};
ghost use Rattle.ui_store.specs.declared.store.Given.TheVariants as given;

use crate::fault::StoreFault;
use std::alloc::Global;
use ui_base::{Text, Texts};

/// What a call on a store was.
#[derive(Clone, Copy, Debug, PartialEq, Eq)]
pub enum AskKind {
    List,
    Read,
    Write,
}

/// A call on a store: what it was, and of which folder or file.
#[derive(Drop)]
pub struct Asked {
    pub what: AskKind,
    pub name: Text,
}

/// What a call on a store gave.
#[derive(Drop)]
pub enum Given {
    /// The last parts of the names in a folder.
    Names(Texts),
    /// The bytes of a file.
    Bytes(Text),
    Missing,
    TooLong,
}

/// A call on a store that gave something, with what it gave.
#[derive(Drop)]
pub struct Heard {
    pub what: AskKind,
    pub name: Text,
    pub given: Given,
}

/// Files under names, as `src/a/a.go`. A folder is what stands before a `/`.
pub trait Store {
    /// What the store tells: its files, its calls and what they gave, each where it tells it, and
    /// its count of faults.
    ghost told: { Self → StoreView };

    /// The last parts of all names that are the folder, `/` and a rest without `/`, ascending.
    /// `Missing` where there is none.
    fn list(&mut self, alloc: Global, dir: &str) -> Result<Vec<String>, StoreFault>
        ensures gives { IfSome (told self.old).files
            (λ files. Gives texts result (listing files dir.now)) }
        ensures listed { IfOk result (λ v. IsListing (texts v)) }
        ensures never { IsErrOf result StoreFault.TooLong → ⊥ }

        ensures files { (told self.new).files ≡ (told self.old).files }
        ensures asked { Asks result (told self.old).asked (told self.new).asked
            (AskKind.List, dir.now) }
        ensures heard { Hears (λ v. given.Names (texts v)) result
            (told self.old).heard (told self.new).heard (AskKind.List, dir.now) }
        ensures cause { StoreCause (told self.old).faults (told self.new).faults result };

    /// The bytes under a name. `TooLong` where there are more than `limit`.
    fn read(&mut self, alloc: Global, name: &str, limit: usize) -> Result<Vec<u8>, StoreFault>
        ensures gives { IfSome (told self.old).files
            (λ files. Gives (λ v. v.items) result (reading files name.now limit)) }
        ensures bounded { IfOk result (λ v. vec_len v ≤ limit) }

        ensures files { (told self.new).files ≡ (told self.old).files }
        ensures asked { Asks result (told self.old).asked (told self.new).asked
            (AskKind.Read, name.now) }
        ensures heard { Hears (λ v. given.Bytes v.items) result
            (told self.old).heard (told self.new).heard (AskKind.Read, name.now) }
        ensures cause { StoreCause (told self.old).faults (told self.new).faults result };

    /// Puts bytes under a name. After `Failed` or `NoMemory` a front of them stands there, or the
    /// old contents.
    fn write(&mut self, alloc: Global, name: &str, bytes: &[u8]) -> Result<(), StoreFault>
        ensures files { Writes result (told self.old).files (told self.new).files
            name.now bytes.now }
        ensures asked { Asks result (told self.old).asked (told self.new).asked
            (AskKind.Write, name.now) }
        ensures heard { (told self.new).heard ≡ (told self.old).heard }
        ensures cause { StoreCause (told self.old).faults (told self.new).faults result };

    /// A store that tells its files tells its calls.
    ghost tells_asked: { (s : Self) → IsSome (told s).files → IsSome (told s).asked };
}

// Whether a name holds `/`.
pub(crate) fn has_slash(name: &[u8]) -> bool
    ensures { result ≡ has_slash name.now }
{
    name.contains(&b'/')
}
