// What a package exports, from its linked file alone.
ghost use Rattle.std.specs.Prelude.{◌≡◌, IfErr};
ghost use Rattle.ui_build.specs.Dump.{Dumps, IsReadStop, dump};
ghost use Rattle.ui_build.specs.Heard.{Hears};
ghost use Rattle.ui_build.specs.Refused.{BadLinked};
ghost use Rattle.ui_build.specs.Stops.{DoesTold, HasCause};

use crate::loading::{load, package_of};
use crate::stop::Stop;
use std::alloc::Global;
use ui_exports::Package;
use ui_store::Store;

/// Reads what a package exports from its linked file; nothing else is asked, and nothing is
/// written.
///
/// It is stopped only where the file is missing, too long, no container or not of the package, by a
/// fault of the read, or for want of memory.
pub fn dump<S: Store>(alloc: Global, store: &mut S, path: &str) -> Result<Package, Stop>
    ensures does { DoesTold (λ p. p) (λ told. dump told path.now)
        (S.told store.old) (S.told store.new) result }
    ensures files { (S.told store.new).files ≡ (S.told store.old).files }
    ensures heard { Hears (λ p. Dumps path.now p) (BadLinked path.now)
        (S.told store.old) (S.told store.new) result }
    ensures cause { HasCause (S.told store.old) (S.told store.new) result }
    ensures stop { IfErr result IsReadStop }
{
    let loaded = load(alloc, store, path)?;
    let package = package_of(loaded);
    Ok(package)
}
