// Imports that aren't used.
#![tactic(auto, using(std::proofs::lemmas::Grind::common_steps, ui_scopes::specs::Steps::stepping, crate::proofs::UsedLemmas::walking))]

ghost use Rattle.std.specs.Prelude.{◌≡◌, map};
ghost use Rattle.ui_tree.specs.StmtView.{import_view, specs_with};
ghost use Rattle.ui_collect.specs.Names.{is_blank, steps};
ghost use Rattle.ui_collect.specs.Package.{source_of};
ghost use Rattle.ui_collect.specs.Views.{Holds, imported_view};
ghost use Rattle.ui_used.specs.Used as rules;
ghost use Rattle.ui_used.specs.Views.{uses_of};

use crate::mentions::in_file;
use std::alloc::Global;
use ui_base::{CheckFault, FaultKind, Text};
use ui_collect::{NameSet, PackageNames, known_as};
use ui_scopes::refusal;
use ui_tree::{FileTree, ImportSpec, ImportTree, Specs};

// A file's name, the names of packages, and the names that the file mentions.
#[derive(Clone, Copy)]
struct At<'a> {
    file: &'a Text,
    names: &'a PackageNames,
    mentioned: &'a NameSet,
}

// Whether a name is blank.
fn is_blank(name: &Text) -> bool
    ensures { result ≡ is_blank name.now }
{
    name.bytes() == b"_".as_slice()
}

fn spec_rule(alloc: Global, at: &At<'_>, spec: &ImportSpec) -> Result<(), CheckFault>
    ensures { Holds (rules.spec_rule (uses_of at.now) tt (imported_view spec.now)) result }
{
    let known = known_as(alloc, at.names, spec)?;
    if is_blank(&known.text) || at.mentioned.has(&known.text) {
        return Ok(());
    }
    Err(refusal(
        alloc,
        at.file,
        spec.path.spot,
        FaultKind::UnusedImport,
        spec.path.text.bytes(),
    ))
}

fn specs_rule(alloc: Global, at: &At<'_>, list: &[ImportSpec]) -> Result<(), CheckFault>
    ensures { Holds (steps (rules.spec_rule (uses_of at.now)) tt (map imported_view list.now))
        result }
{
    for spec in list {
        spec_rule(alloc, at, spec)?;
    }
    Ok(())
}

fn import_rule(alloc: Global, at: &At<'_>, import: &ImportTree) -> Result<(), CheckFault>
    ensures { Holds (rules.import_rule (uses_of at.now) tt (import_view import.now)) result }
{
    match &import.specs {
        Specs::One(spec) => spec_rule(alloc, at, spec),
        Specs::Grouped(list) => specs_rule(alloc, at, list.as_slice()),
    }
}

fn imports_rule(alloc: Global, at: &At<'_>, list: &[ImportTree]) -> Result<(), CheckFault>
    ensures { Holds (steps (rules.import_rule (uses_of at.now)) tt (map import_view list.now))
        result }
{
    for import in list {
        import_rule(alloc, at, import)?;
    }
    Ok(())
}

fn file_rule(alloc: Global, names: &PackageNames, file: &FileTree) -> Result<(), CheckFault>
    ensures { Holds (rules.file_rule names.now tt (source_of file.now)) result }
{
    let mentioned = in_file(alloc, file)?;
    let at = At {
        file: &file.file,
        names,
        mentioned: &mentioned,
    };
    imports_rule(alloc, &at, file.imports.as_slice())
}

/// Each import of the files is used: the name that it has in its file stands there in an
/// expression, or before the dot of a type's name. Go specification, "Import declarations".
///
/// # Errors
///
/// `UnusedImport` with the path, at the path of the first import that isn't used, by files, and
/// from left to right in each. One that is named `_` counts as used.
#[tactic(auto, using(std::proofs::lemmas::Grind::common_steps, ui_scopes::specs::Steps::stepping, crate::proofs::UsedLemmas::walking), unfolding(crate::specs::Used::imports_used))]
pub fn imports_used(
    alloc: Global,
    names: &PackageNames,
    files: &[FileTree],
) -> Result<(), CheckFault>
    ensures { Holds (rules.imports_used names.now (map source_of files.now)) result }
{
    for file in files {
        file_rule(alloc, names, file)?;
    }
    Ok(())
}
