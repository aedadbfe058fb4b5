// A package and the packages below it are built.
ghost use Rattle.ui_build.specs.Build.{build};
ghost use Rattle.ui_build.specs.Heard.{Builds, Hears};
ghost use Rattle.ui_build.specs.Refused.{BuildRefused};
ghost use Rattle.ui_build.specs.Stops.{DoesTold, HasCause};

use crate::compiling::compile_all;
use crate::discovering::build_order;
use crate::loading::{load, package_of};
use crate::stop::Stop;
use std::alloc::Global;
use ui_consts::reads_back;
use ui_exports::Package;
use ui_frame::one_container;
use ui_order::{discovery_keeps, order_is_whole};
use ui_store::Store;

/// Builds a package: finds it and the packages below it, compiles each behind its imports, and
/// reads the package back from its linked file.
///
/// Over a store that tells its files, the outcome is that by the sources alone. Over each store
/// that tells what it gave, the packages, their order and each refusal are those by what was heard.
pub fn build<S: Store>(alloc: Global, store: &mut S, path: &str) -> Result<Package, Stop>
    ensures does { DoesTold (λ p. p) (λ told. build told path.now)
        (S.told store.old) (S.told store.new) result }
    ensures heard { Hears (λ p. Builds path.now p) (BuildRefused path.now)
        (S.told store.old) (S.told store.new) result }
    ensures cause { HasCause (S.told store.old) (S.told store.new) result }
{
    one_container();
    reads_back();
    discovery_keeps();
    order_is_whole();
    let order = build_order(alloc, store, path)?;
    compile_all(alloc, store, &order)?;
    let loaded = load(alloc, store, path)?;
    let package = package_of(loaded);
    Ok(package)
}
