// The imports of a source.
ghost use Rattle.std.specs.Prelude.{◌≡◌, map};
ghost use Rattle.ui_tree.specs.StmtView.{import_view};
ghost use Rattle.ui_forms.specs.Choosing.{GivesPart};
ghost use Rattle.ui_forms.specs.Form as form;
ghost use Rattle.ui_base.specs.Steps.{each};

use crate::fault::PartFault;
use crate::part::ImportPath;
use std::alloc::Global;
use ui_base::{Spot, is_path};
use ui_tree::{ImportSpec, ImportTree, Items, Placed, Specs};

// Whether a package of its own path may import the path.
fn is_import_path(own: &[u8], path: &[u8]) -> bool
    ensures { result ≡ form.is_import_path own.now path.now }
{
    is_path(path) && path != own
}

// An import of a path.
fn import_of_path(alloc: Global, own: &[u8], path: &Placed) -> Result<ImportPath, PartFault>
    ensures { GivesPart (form.import_of_path own.now path.now) result }
{
    if !is_import_path(own, path.text.bytes()) {
        return Err(PartFault::NotTaken(path.spot));
    }
    let text = path.text.copy(alloc)?;
    Ok(ImportPath {
        path: text,
        spot: path.spot,
    })
}

// An import without a name of its own.
fn import_of_spec(
    alloc: Global,
    own: &[u8],
    spot: Spot,
    spec: &ImportSpec,
) -> Result<ImportPath, PartFault>
    ensures { GivesPart (form.import_of_spec own.now spot spec.now.name spec.now.path) result }
{
    match &spec.name {
        Some(_) => Err(PartFault::NotTaken(spot)),
        None => import_of_path(alloc, own, &spec.path),
    }
}

// `import "PATH"`
fn import_of(alloc: Global, own: &[u8], import: &ImportTree) -> Result<ImportPath, PartFault>
    ensures { GivesPart (form.import_of own.now (import_view import.now)) result }
{
    match &import.specs {
        Specs::One(spec) => import_of_spec(alloc, own, import.spot, spec),
        Specs::Grouped(_) => Err(PartFault::NotTaken(import.spot)),
    }
}

/// The imports of a source of a package of this path.
pub(crate) fn imports_in(
    alloc: Global,
    own: &[u8],
    imports: &[ImportTree],
) -> Result<Items<ImportPath>, PartFault>
    ensures { GivesPart (each (form.import_of own.now) (map import_view imports.now)) result }
{
    let mut taken = Items::new(alloc);
    for import in imports {
        let path = import_of(alloc, own, import)?;
        taken.push(path)?;
    }
    Ok(taken)
}
