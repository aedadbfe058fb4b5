// A package is compiled into its two files.
ghost use Rattle.std.specs.Prelude.{◌≡◌, ◌≤◌, true, [], Some, IfOk, length, map, string_bytes};
ghost use Rattle.std.specs.FinMap.{empty, insert};
ghost use Rattle.ui_store.specs.Files.{Files};
ghost use Rattle.ui_consts.specs.Size.{IsSmall};
ghost use Rattle.ui_build.specs.Plan.{Entry};
ghost use Rattle.ui_build.specs.Package.{read_form};
ghost use Rattle.ui_build.specs.Build.{Packages, compile, compile_all, package_limit, write_files};
ghost use Rattle.ui_build.specs.Loading.{entry_of, linked_as, prepared};
ghost use Rattle.ui_build.specs.Heard.{Compiles, CompilesAll, Hears, HearsNothing, ReadsForm};
ghost use Rattle.ui_build.specs.Refused.{BadPackage, BadPackages, LacksForm};
ghost use Rattle.ui_build.specs.Built.{Compiled, IsInOrder, IsReady, Stands};
ghost use Rattle.ui_build.specs.Stops.{seen, Carries, Does, DoesTold, HasCause};

use crate::files::write_file;
use crate::judging::{form_in, judge};
use crate::loading::{are_bytes, load_all};
use crate::names::{linked_file, unit_file};
use crate::sources::find;
use crate::stop::Stop;
use std::alloc::Global;
use ui_below::list_of_paths;
use ui_consts::{reads_back, write_linked};
use ui_exports::Linked;
use ui_forms::{Form, accepted_forms, verdict_is_local};
use ui_frame::one_container;
use ui_store::Store;

// Reads the form of a package's sources.
fn read_form<S: Store>(alloc: Global, store: &mut S, path: &str) -> Result<Form, Stop>
    ensures does { DoesTold (λ f. f) (λ told. read_form told path.now)
        (S.told store.old) (S.told store.new) result }
    ensures files { (S.told store.new).files ≡ (S.told store.old).files }
    ensures heard { Hears (λ f. ReadsForm path.now f) (LacksForm path.now)
        (S.told store.old) (S.told store.new) result }
    ensures cause { HasCause (S.told store.old) (S.told store.new) result }
    ensures own { IfOk result (λ f. f.path ≡ path.now) }
{
    let sources = find(alloc, store, path)?;
    let form = form_in(alloc, path, &sources)?;
    Ok(form)
}

// What a package is to stand for, by its sources and the linked files of its imports.
fn prepare<S: Store>(alloc: Global, store: &mut S, path: &str) -> Result<Linked, Stop>
    ensures does { DoesTold (λ l. l) (λ told. prepared told path.now)
        (S.told store.old) (S.told store.new) result }
    ensures files { (S.told store.new).files ≡ (S.told store.old).files }
    ensures heard { Hears (λ l. Compiles path.now l) (BadPackage path.now)
        (S.told store.old) (S.told store.new) result }
    ensures cause { HasCause (S.told store.old) (S.told store.new) result }
    ensures own { IfOk result (λ l. l.export.path ≡ path.now) }
    ensures small { IfOk result IsSmall }
{
    let form = read_form(alloc, store, path)?;
    let imports = load_all(alloc, store, form.imports())?;
    let linked = judge(alloc, path, &form, &imports)?;
    Ok(linked)
}

// Writes the unit file and the linked file of a package.
fn write_files<S: Store>(alloc: Global, store: &mut S, path: &str, of: &Linked) -> Result<(), Stop>
    requires { IsSmall of.now }
    ensures does { (told : Files) (entry : Entry) → (S.told store.old).files ≡ Some told
        → of.now ≡ linked_as told entry → Does (λ _. tt) (write_files path.now entry)
        (seen (S.told store.old)) (seen (S.told store.new)) result }
    ensures heard { HearsNothing (S.told store.old) (S.told store.new) result }
    ensures cause { HasCause (S.told store.old) (S.told store.new) result }
{
    let bytes = write_linked(alloc, of)?;
    are_bytes(&bytes);
    let unit = unit_file(alloc, path)?;
    let linked = linked_file(alloc, path)?;
    write_file(alloc, store, unit, &bytes)?;
    write_file(alloc, store, linked, &bytes)?;
    Ok(())
}

/// Compiles a package, whose imports are compiled, from its own sources and their linked files.
///
/// Over a store that tells its files: where the linked files of the packages before stand for what
/// the sources declare, the outcome is that by the sources alone, and then the linked file of this
/// package does, too.
pub fn compile<S: Store>(alloc: Global, store: &mut S, path: &str) -> Result<Linked, Stop>
    ensures does { (files told : Files) (packages : Packages) → (S.told store.old).files ≡ Some told
        → IsReady files told packages path.now → Does entry_of (compile files packages path.now)
        (seen (S.told store.old)) (seen (S.told store.new)) result }
    ensures stands { IfOk result (λ l. (files told : Files) (packages : Packages)
        → (S.told store.old).files ≡ Some told → IsReady files told packages path.now
        → Stands files (S.told store.new).files (insert packages path.now (entry_of l))) }
    ensures heard { Hears (λ l. Compiles path.now l) (BadPackage path.now)
        (S.told store.old) (S.told store.new) result }
    ensures cause { HasCause (S.told store.old) (S.told store.new) result }
{
    one_container();
    reads_back();
    list_of_paths();
    accepted_forms();
    verdict_is_local();
    let linked = prepare(alloc, store, path)?;
    write_files(alloc, store, path, &linked)?;
    Ok(linked)
}

/// Compiles packages in an order in which each stands behind its imports.
pub fn compile_all<S: Store>(alloc: Global, store: &mut S, order: &[String]) -> Result<(), Stop>
    ensures does { (files : Files) → (S.told store.old).files ≡ Some files
        → IsInOrder files [] (map string_bytes order.now) → length order.now ≤ package_limit
        → Carries (Compiled files (map string_bytes order.now) (S.told store.new).files)
        (compile_all files empty (map string_bytes order.now))
        (seen (S.told store.old)) (seen (S.told store.new)) result }
    ensures heard { Hears (λ _. CompilesAll (map string_bytes order.now))
        (BadPackages (map string_bytes order.now)) (S.told store.old) (S.told store.new) result }
    ensures cause { HasCause (S.told store.old) (S.told store.new) result }
{
    for path in order {
        compile(alloc, store, path.as_str())?;
    }
    Ok(())
}
