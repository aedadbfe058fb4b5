// The packages that a build needs, and their order.
ghost use Rattle.std.specs.Prelude.{◌≡◌, ◌≤◌, suc, IfOk, map, option_map, string_bytes};
ghost use Rattle.ui_order.specs.Found.{IsClosed, IsFound, begun, least_unread, with_imports};
ghost use Rattle.ui_order.specs.Tables.{texts};
ghost use Rattle.ui_sources.specs.Sources.{source_of};
ghost use Rattle.ui_build.specs.Plan.{Text};
ghost use Rattle.ui_build.specs.Package.{imports_in};
ghost use Rattle.ui_build.specs.Build.{build_order, discover, discover_one, ordered};
ghost use Rattle.ui_build.specs.Build.{package_limit, within_limit};
ghost use Rattle.ui_build.specs.Heard.{FindsAll, FindsOne, FindsOrder, Hears};
ghost use Rattle.ui_build.specs.Refused.{LacksOne, LacksOrder, LacksPackages};
ghost use Rattle.ui_build.specs.Stops.{DoesTold, HasCause, Settles};

use crate::judging::imports_in;
use crate::sources::find;
use crate::stop::{Refusal, Stop};
use std::alloc::{AllocError, Global};
use ui_order::{Discovery, Order, PACKAGE_LIMIT, discovery_keeps};
use ui_sources::SourceFile;
use ui_store::Store;

// A package was found: its imports are found, too, where these aren't too many.
fn add_package(
    alloc: Global,
    discovery: Discovery,
    path: String,
    sources: &[SourceFile],
) -> Result<Discovery, Stop>
    ensures settled { Settles (λ d. d)
        (within_limit (with_imports discovery (string_bytes path)
        (imports_in (string_bytes path) (map source_of sources.now)))) result }
    ensures now { IfOk result
        (λ d. d ≡ with_imports discovery (string_bytes path)
        (imports_in (string_bytes path) (map source_of sources.now))) }
{
    let mut more = discovery;
    let imports = imports_in(alloc, path.as_str(), sources)?;
    more.add(alloc, path, imports)?;
    if more.is_too_large() {
        return Err(Stop::Refused(Refusal::TooMany));
    }
    Ok(more)
}

// Finds one package, and its imports.
fn discover_one<S: Store>(
    alloc: Global,
    store: &mut S,
    discovery: Discovery,
    path: String,
) -> Result<Discovery, Stop>
    ensures does { DoesTold (λ d. d) (λ told. discover_one told discovery (string_bytes path))
        (S.told store.old) (S.told store.new) result }
    ensures files { (S.told store.new).files ≡ (S.told store.old).files }
    ensures heard { Hears (λ d. FindsOne discovery (string_bytes path) d)
        (LacksOne discovery (string_bytes path)) (S.told store.old) (S.told store.new) result }
    ensures cause { HasCause (S.told store.old) (S.told store.new) result }
    ensures found { IfOk result (λ d. (root : Text) → IsFound root discovery → IsFound root d) }
{
    discovery_keeps();
    let sources = find(alloc, store, path.as_str())?;
    let more = add_package(alloc, discovery, path, &sources)?;
    Ok(more)
}

// The least found path that isn't read yet.
fn next_path(alloc: Global, discovery: &Discovery) -> Result<Option<String>, AllocError>
    ensures { IfOk result (λ o. option_map string_bytes o ≡ least_unread discovery.now) }
{
    match discovery.next() {
        Some(path) => Ok(Some(String::from_str(alloc, path)?)),
        None => Ok(None),
    }
}

/// Finds a package and the packages below it.
pub fn discover<S: Store>(alloc: Global, store: &mut S, root: &str) -> Result<Discovery, Stop>
    ensures does { DoesTold (λ d. d) (λ told. discover (suc package_limit) told (begun root.now))
        (S.told store.old) (S.told store.new) result }
    ensures files { (S.told store.new).files ≡ (S.told store.old).files }
    ensures heard { Hears (λ d. FindsAll root.now d) (LacksPackages root.now)
        (S.told store.old) (S.told store.new) result }
    ensures cause { HasCause (S.told store.old) (S.told store.new) result }
    ensures found { IfOk result (λ d. IsFound root.now d) }
    ensures all { IfOk result (λ d. least_unread d ≡ None) }
{
    discovery_keeps();
    let mut discovery = Discovery::new(alloc, root)?;
    for _turn in 0..PACKAGE_LIMIT + 1 {
        match next_path(alloc, &discovery)? {
            None => return Ok(discovery),
            Some(path) => {
                let more = discover_one(alloc, store, discovery, path)?;
                discovery = more;
            }
        }
    }
    Err(Stop::Refused(Refusal::TooMany))
}

// The order of the packages that were found, or the least path on a cycle.
fn ordered(alloc: Global, discovery: &Discovery) -> Result<Vec<String>, Stop>
    requires { IsClosed discovery.now.read }
    ensures { Settles texts (ordered discovery.now.read) result }
{
    match discovery.order(alloc)? {
        Order::Paths(order) => Ok(order),
        Order::Cycle(path) => Err(Stop::Refused(Refusal::Cycle(path))),
    }
}

/// Finds a package and the packages below it, and puts them in order: each behind its imports.
pub fn build_order<S: Store>(alloc: Global, store: &mut S, root: &str) -> Result<Vec<String>, Stop>
    ensures does { DoesTold texts (λ told. build_order told root.now)
        (S.told store.old) (S.told store.new) result }
    ensures files { (S.told store.new).files ≡ (S.told store.old).files }
    ensures heard { Hears (λ v. FindsOrder root.now (texts v)) (LacksOrder root.now)
        (S.told store.old) (S.told store.new) result }
    ensures cause { HasCause (S.told store.old) (S.told store.new) result }
{
    discovery_keeps();
    let discovery = discover(alloc, store, root)?;
    let order = ordered(alloc, &discovery)?;
    Ok(order)
}
