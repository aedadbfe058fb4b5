// The three calls on the store, whose faults stop the command.
ghost use Rattle.std.specs.Prelude.{◌≡◌, ◌≤◌, IfErr, IfOk, IfSome, string_bytes, vec_len};
ghost use Rattle.std.specs.Option.{option_map};
ghost use Rattle.ui_store.specs.Files.{texts};
ghost use Rattle.ui_build.specs.Package.{list_folder, read_file};
ghost use Rattle.ui_build.specs.Dump.{IsReadStop};
ghost use Rattle.ui_build.specs.Heard.{HasListed, HasRead, Hears, HearsNothing};
ghost use Rattle.ui_build.specs.Refused.{LacksFile, LacksFolder};
ghost use Rattle.ui_build.specs.Stops.{AsksWrite, DoesTold, HasCause, WritesFile};

use crate::stop::{Refusal, Stop};
use std::alloc::Global;
use ui_store::{Store, StoreFault};

/// The most bytes of a unit or linked file.
pub const FILE_LIMIT: usize = 1 << 30;

/// The names in a folder, ascending.
pub fn list_folder<S: Store>(
    alloc: Global,
    store: &mut S,
    folder: String,
) -> Result<Vec<String>, Stop>
    ensures does { DoesTold texts (λ told. list_folder told (string_bytes folder))
        (S.told store.old) (S.told store.new) result }
    ensures files { (S.told store.new).files ≡ (S.told store.old).files }
    ensures heard { Hears (λ v. HasListed (string_bytes folder) (texts v))
        (LacksFolder (string_bytes folder)) (S.told store.old) (S.told store.new) result }
    ensures cause { HasCause (S.told store.old) (S.told store.new) result }
{
    match store.list(alloc, folder.as_str()) {
        Ok(names) => Ok(names),
        Err(StoreFault::Missing | StoreFault::TooLong) => {
            Err(Stop::Refused(Refusal::NoFile(folder)))
        }
        Err(StoreFault::Failed) => Err(Stop::ReadFault(folder)),
        Err(StoreFault::NoMemory) => Err(Stop::NoMemory),
    }
}

/// The bytes of a file, or nothing where there are more than the limit.
pub fn read_file<S: Store>(
    alloc: Global,
    store: &mut S,
    name: String,
    limit: usize,
) -> Result<Option<Vec<u8>>, Stop>
    ensures does { DoesTold (option_map (λ v. v.items))
        (λ told. read_file told (string_bytes name) limit)
        (S.told store.old) (S.told store.new) result }
    ensures files { (S.told store.new).files ≡ (S.told store.old).files }
    ensures heard { Hears (λ o. HasRead (string_bytes name, option_map (λ v. v.items) o))
        (LacksFile (string_bytes name)) (S.told store.old) (S.told store.new) result }
    ensures cause { HasCause (S.told store.old) (S.told store.new) result }
    ensures stop { IfErr result IsReadStop }
{
    match store.read(alloc, name.as_str(), limit) {
        Ok(bytes) => Ok(Some(bytes)),
        Err(StoreFault::Missing) => Err(Stop::Refused(Refusal::NoFile(name))),
        Err(StoreFault::TooLong) => Ok(None),
        Err(StoreFault::Failed) => Err(Stop::ReadFault(name)),
        Err(StoreFault::NoMemory) => Err(Stop::NoMemory),
    }
}

/// Puts the bytes of a file, whatever they stand for.
pub fn write_file<S: Store>(
    alloc: Global,
    store: &mut S,
    name: String,
    bytes: &[u8],
) -> Result<(), Stop>
    ensures asked { AsksWrite (string_bytes name)
        (S.told store.old).asked (S.told store.new).asked result }
    ensures files { WritesFile (string_bytes name) bytes.now
        (S.told store.old).files (S.told store.new).files result }
    ensures heard { HearsNothing (S.told store.old) (S.told store.new) result }
    ensures cause { HasCause (S.told store.old) (S.told store.new) result }
{
    match store.write(alloc, name.as_str(), bytes) {
        Ok(()) => Ok(()),
        Err(StoreFault::NoMemory) => Err(Stop::NoMemory),
        Err(_) => Err(Stop::WriteFault(name)),
    }
}
