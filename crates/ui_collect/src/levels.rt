// What names mean.
#![tactic(auto, using(std::proofs::lemmas::Grind::common_steps, crate::proofs::StepLemmas::walking, crate::proofs::StepLemmas::mapping))]

ghost use Rattle.std.specs.Prelude.{◌≡◌, List, ℕ, map, IfOk, OnOk};
ghost use Rattle.std.specs.List.{fold};
ghost use Rattle.ui_tree.specs.StmtView.{file_view, import_view, specs_with};
ghost use Rattle.ui_scopes.specs.Scopes.{find_in};
ghost use Rattle.ui_collect.specs.Levels as levels;
ghost use Rattle.ui_collect.specs.Levels.{with_import, with_specs};
ghost use Rattle.ui_collect.specs.Views.{imported_view};

use crate::before::{NameSet, PackageNames};
use crate::lists::is_blank;
use crate::package::known_as;
use std::alloc::Global;
use ui_base::{Name, NoMemory, Text};
use ui_scopes::{Bind, Level, Meaning};
use ui_tree::{FileTree, ImportSpec, ImportTree, Specs};

// The name is that of the package of this path.
fn add_object(alloc: Global, level: &mut Level, path: &Text, name: &Text) -> Result<(), NoMemory>
    ensures { OnOk result (find_in level.new ≡ levels.with_object path.now (find_in level.old)
        name.now) }
{
    let object = Name {
        path: path.copy(alloc)?,
        name: name.copy(alloc)?,
    };
    let name = name.copy(alloc)?;
    level.put(Bind {
        name,
        meaning: Meaning::Object(object),
    })
}

/// The names of a package of this path.
#[tactic(auto, using(std::proofs::lemmas::Grind::common_steps, crate::proofs::StepLemmas::walking, crate::proofs::StepLemmas::mapping), unfolding(crate::specs::Levels::package_names))]
pub fn package_level(alloc: Global, path: &Text, names: &NameSet) -> Result<Level, NoMemory>
    ensures { IfOk result (λ l. find_in l ≡ levels.package_names path.now names.now) }
{
    let mut level = Level::new(alloc);
    for name in names.as_slice() {
        add_object(alloc, &mut level, path, name)?;
    }
    Ok(level)
}

// The name, if it isn't blank, is that of the package of this path.
fn add_known(alloc: Global, level: &mut Level, name: Text, path: &Text) -> Result<(), NoMemory>
    ensures { OnOk result (find_in level.new ≡ levels.with_known (find_in level.old) name
        path.now) }
{
    if is_blank(&name) {
        return Ok(());
    }
    let path = path.copy(alloc)?;
    level.put(Bind {
        name,
        meaning: Meaning::Package(path),
    })
}

fn add_import(
    alloc: Global,
    names: &PackageNames,
    level: &mut Level,
    spec: &ImportSpec,
) -> Result<(), NoMemory>
    ensures { OnOk result (find_in level.new ≡ with_import names.now (find_in level.old)
        (imported_view spec.now)) }
{
    let known = known_as(alloc, names, spec)?;
    add_known(alloc, level, known.text, &spec.path.text)
}

fn add_group(
    alloc: Global,
    names: &PackageNames,
    level: &mut Level,
    list: &[ImportSpec],
) -> Result<(), NoMemory>
    ensures { OnOk result (find_in level.new ≡ fold (with_import names.now) (find_in level.old)
        (map imported_view list.now)) }
{
    for spec in list {
        add_import(alloc, names, level, spec)?;
    }
    Ok(())
}

fn add_specs(
    alloc: Global,
    names: &PackageNames,
    level: &mut Level,
    import: &ImportTree,
) -> Result<(), NoMemory>
    ensures { OnOk result (find_in level.new ≡ with_specs names.now (find_in level.old)
        (import_view import.now).specs) }
{
    match &import.specs {
        Specs::One(spec) => add_import(alloc, names, level, spec),
        Specs::Grouped(list) => add_group(alloc, names, level, list.as_slice()),
    }
}

// The names of a file's imports.
#[tactic(auto, using(std::proofs::lemmas::Grind::common_steps, crate::proofs::StepLemmas::walking, crate::proofs::StepLemmas::mapping), unfolding(crate::specs::Levels::file_names))]
fn file_level(alloc: Global, names: &PackageNames, file: &FileTree) -> Result<Level, NoMemory>
    ensures { IfOk result (λ l. find_in l ≡ levels.file_names names.now (file_view file.now)) }
{
    let mut level = Level::new(alloc);
    for import in file.imports.as_slice() {
        add_specs(alloc, names, &mut level, import)?;
    }
    Ok(level)
}

/// The names of each file's imports.
pub fn file_levels(
    alloc: Global,
    names: &PackageNames,
    files: &[FileTree],
) -> Result<Vec<Level>, NoMemory>
    ensures { IfOk result (λ v. map find_in v.items ≡ map (λ f. levels.file_names names.now
        (file_view f)) files.now) }
{
    let mut found = Vec::new(alloc);
    for file in files {
        let level = file_level(alloc, names, file)?;
        found.push(level)?;
    }
    Ok(found)
}
