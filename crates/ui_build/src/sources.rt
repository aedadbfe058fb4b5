// The sources of a package: found in its folder, and read.
ghost use Rattle.std.specs.Prelude.{◌≡◌, ◌≤◌, [], IfOk, filter, map, string_bytes};
ghost use Rattle.ui_sources.specs.Sources.{source_of};
ghost use Rattle.ui_build.specs.Package.{find, read_source, read_sources};
ghost use Rattle.ui_build.specs.Package.{file_in, folder, is_source};
ghost use Rattle.ui_build.specs.Heard.{FindsSources, HasRead, Hears, ReadsSources};
ghost use Rattle.ui_build.specs.Refused.{LacksFile, LacksSource, LacksSources};
ghost use Rattle.ui_build.specs.Stops.{DoesTold, HasCause};
ghost use Rattle.ui_build.specs.Sources.{sources_of};

use crate::files::{list_folder, read_file};
use crate::names::{self, copy, file_in};
use crate::stop::{Refusal, Stop};
use std::alloc::Global;
use ui_sources::{SOURCE_LIMIT, SourceFile};
use ui_store::Store;

// Whether a name in a folder is that of a source: it ends in `.go`, and not in `_test.go`.
fn is_source(name: &str) -> bool
    ensures { result ≡ is_source name.now }
{
    let name = name.as_bytes();
    name.ends_with(b".go") && !name.ends_with(b"_test.go")
}

// Reads one source.
fn read_source<S: Store>(
    alloc: Global,
    store: &mut S,
    folder: &str,
    part: &str,
) -> Result<SourceFile, Stop>
    ensures does { DoesTold source_of (λ told. read_source told (file_in folder.now part.now))
        (S.told store.old) (S.told store.new) result }
    ensures files { (S.told store.new).files ≡ (S.told store.old).files }
    ensures heard { Hears (λ s. HasRead (source_of s)) (LacksFile (file_in folder.now part.now))
        (S.told store.old) (S.told store.new) result }
    ensures name { IfOk result (λ s. string_bytes s.name ≡ file_in folder.now part.now) }
    ensures cause { HasCause (S.told store.old) (S.told store.new) result }
{
    let name = file_in(alloc, folder, part)?;
    let asked = copy(alloc, &name)?;
    let bytes = read_file(alloc, store, asked, SOURCE_LIMIT)?;
    Ok(SourceFile { name, bytes })
}

// Reads the sources among the names of a folder, in their order.
fn read_sources<S: Store>(
    alloc: Global,
    store: &mut S,
    folder: &str,
    names: &[String],
) -> Result<Vec<SourceFile>, Stop>
    ensures does { DoesTold sources_of
        (λ told. read_sources told folder.now [] (filter is_source (map string_bytes names.now)))
        (S.told store.old) (S.told store.new) result }
    ensures files { (S.told store.new).files ≡ (S.told store.old).files }
    ensures heard { Hears (λ v. ReadsSources folder.now
        (filter is_source (map string_bytes names.now)) (sources_of v))
        (LacksSource folder.now (filter is_source (map string_bytes names.now)))
        (S.told store.old) (S.told store.new) result }
    ensures cause { HasCause (S.told store.old) (S.told store.new) result }
{
    let mut sources = Vec::new(alloc);
    for name in names {
        if !is_source(name.as_str()) {
            continue;
        }
        let source = read_source(alloc, store, folder, name.as_str())?;
        sources.push(source)?;
    }
    Ok(sources)
}

/// Finds and reads the sources of a package, in the order in which the store lists them: ascending
/// by name.
pub fn find<S: Store>(alloc: Global, store: &mut S, path: &str) -> Result<Vec<SourceFile>, Stop>
    ensures does { DoesTold sources_of (λ told. find told (folder path.now))
        (S.told store.old) (S.told store.new) result }
    ensures files { (S.told store.new).files ≡ (S.told store.old).files }
    ensures heard { Hears (λ v. FindsSources (folder path.now) (sources_of v))
        (LacksSources (folder path.now)) (S.told store.old) (S.told store.new) result }
    ensures cause { HasCause (S.told store.old) (S.told store.new) result }
{
    let folder = names::folder(alloc, path)?;
    let asked = copy(alloc, &folder)?;
    let names = list_folder(alloc, store, asked)?;
    let sources = read_sources(alloc, store, folder.as_str(), &names)?;
    if sources.is_empty() {
        return Err(Stop::Refused(Refusal::NoFile(folder)));
    }
    Ok(sources)
}
