// Linked files, read.
ghost use Rattle.std.specs.Prelude.{◌≡◌, ◌≤◌, true, [], IfErr, IfOk, option_map, string_bytes, map};
ghost use Rattle.std.specs.Prelude.{length};
ghost use Rattle.std.specs.List.{AllByRecursion, list_all};
ghost use Rattle.ui_base.specs.Paths.{is_path};
ghost use Rattle.ui_frame.specs.Laws.{IsBytes};
ghost use Rattle.ui_frame.specs.Container.{fingerprint};
ghost use Rattle.ui_consts.specs.Reading.{record_in};
ghost use Rattle.ui_consts.specs.Size.{IsListed};
ghost use Rattle.ui_below.specs.Claims.{claims};
ghost use Rattle.ui_build.specs.Loading.{load, load_all, or_element, recorded};
ghost use Rattle.ui_build.specs.Dump.{IsReadStop};
ghost use Rattle.ui_build.specs.Heard.{Hears, Loads, LoadsImports};
ghost use Rattle.ui_build.specs.Refused.{BadImports, BadLinked};
ghost use Rattle.ui_build.specs.Views.{loaded_of, imports_of, is_sound};
ghost use Rattle.ui_build.specs.Stops.{DoesTold, HasCause, Settles};

use crate::files::{FILE_LIMIT, read_file};
use crate::names::{copy, linked_file};
use crate::stop::{Refusal, Stop};
use std::alloc::Global;
use ui_consts::{lists_are_lists, read_linked};
use ui_exports::{Linked, Package};
use ui_frame::{Frame, one_container};
use ui_store::Store;

/// What a linked file stands for, with its fingerprint.
#[derive(Drop)]
pub struct Loaded {
    pub linked: Linked,
    pub print: [u8; 8],
}

/// What the package of a linked file that was read exports.
pub fn package_of(loaded: Loaded) -> Package
    ensures { result ≡ loaded.linked.export }
{
    loaded.linked.package
}

/// What the linked files of imports stand for, and their fingerprints.
#[derive(Drop)]
pub struct Imports {
    pub files: Vec<Linked>,
    pub prints: Vec<[u8; 8]>,
}

// What the type says of the items of a slice, for the contracts here.
pub fn are_bytes(bytes: &[u8])
    ensures { IsBytes bytes.now }
{
    let _ = bytes;
}

// What the elements of a container stand for, where it is that of the package.
fn record_of(alloc: Global, path: &str, name: String, frame: &Frame) -> Result<Loaded, Stop>
    ensures settled { Settles loaded_of
        (or_element (string_bytes name) path.now (fingerprint frame.now) (record_in frame.now))
        result }
    ensures listed { IfOk result (λ l. IsListed l.linked.below) }
    ensures own { IfOk result (λ l. l.linked.export.path ≡ path.now) }
{
    lists_are_lists();
    match read_linked(alloc, frame)? {
        Some(linked) if linked.package.path() == path.as_bytes() => {
            let print = frame.fingerprint();
            Ok(Loaded { linked, print })
        }
        _ => Err(Stop::Refused(Refusal::BadElement(name))),
    }
}

// What a linked file stands for.
#[tactic(auto, unfolding(crate::specs::Loading::recorded))]
fn record(alloc: Global, path: &str, name: String, bytes: Option<Vec<u8>>) -> Result<Loaded, Stop>
    ensures settled { Settles loaded_of
        (recorded (string_bytes name) path.now (option_map (λ v. v.items) bytes)) result }
    ensures listed { IfOk result (λ l. IsListed l.linked.below) }
    ensures own { IfOk result (λ l. l.linked.export.path ≡ path.now) }
{
    let Some(bytes) = bytes else {
        return Err(Stop::Refused(Refusal::TooLong(name)));
    };
    are_bytes(&bytes);
    one_container();
    match Frame::open(&bytes) {
        Ok(frame) => record_of(alloc, path, name, &frame),
        Err(fault) => Err(Stop::Refused(Refusal::BadFrame { name, fault })),
    }
}

/// Reads what the linked file of a package stands for.
pub fn load<S: Store>(alloc: Global, store: &mut S, path: &str) -> Result<Loaded, Stop>
    ensures does { DoesTold loaded_of (λ told. load told path.now)
        (S.told store.old) (S.told store.new) result }
    ensures files { (S.told store.new).files ≡ (S.told store.old).files }
    ensures heard { Hears (λ l. Loads path.now (loaded_of l)) (BadLinked path.now)
        (S.told store.old) (S.told store.new) result }
    ensures cause { HasCause (S.told store.old) (S.told store.new) result }
    ensures stop { IfErr result IsReadStop }
    ensures listed { IfOk result (λ l. IsListed l.linked.below) }
    ensures own { IfOk result (λ l. l.linked.export.path ≡ path.now) }
{
    let linked = linked_file(alloc, path)?;
    let asked = copy(alloc, &linked)?;
    let bytes = read_file(alloc, store, asked, FILE_LIMIT)?;
    let loaded = record(alloc, path, linked, bytes)?;
    Ok(loaded)
}

// What the type says of a fingerprint's length, for the contracts here.
fn has_eight(print: &[u8; 8])
    ensures { length print.now ≡ 8 }
{
    let _ = print;
}

/// Reads what the linked files of packages stand for, in their order.
pub fn load_all<S: Store>(alloc: Global, store: &mut S, paths: &[String]) -> Result<Imports, Stop>
    requires { AllByRecursion (λ path. is_path path ≡ true) (map string_bytes paths.now) }
    ensures does { DoesTold imports_of (λ told. load_all told ([], []) (map string_bytes paths.now))
        (S.told store.old) (S.told store.new) result }
    ensures files { (S.told store.new).files ≡ (S.told store.old).files }
    ensures heard { Hears (λ i. LoadsImports (map string_bytes paths.now) (imports_of i))
        (BadImports (map string_bytes paths.now)) (S.told store.old) (S.told store.new) result }
    ensures cause { HasCause (S.told store.old) (S.told store.new) result }
    ensures paths { IfOk result
        (λ i. map (λ l. l.export.path) i.files.items ≡ map string_bytes paths.now) }
    ensures paired { IfOk result (λ i. length i.files.items ≡ length i.prints.items) }
    ensures sound { IfOk result
        (λ i. list_all (λ c. is_sound c.path c.print) (claims i.files.items i.prints.items)
        ≡ true) }
{
    let mut files = Vec::new(alloc);
    let mut prints = Vec::new(alloc);
    for path in paths {
        let loaded = load(alloc, store, path.as_str())?;
        has_eight(&loaded.print);
        files.push(loaded.linked)?;
        prints.push(loaded.print)?;
    }
    Ok(Imports { files, prints })
}
