// The paths that files import.
ghost use Rattle.std.specs.Prelude.{◌≡◌, true, map, IfOk, OnOk, string_bytes};
ghost use Rattle.std.specs.List.{AllByRecursion};
ghost use Rattle.std.specs.FinMap.{empty, keys};
ghost use Rattle.ui_base.specs.Paths.{is_path};
ghost use Rattle.ui_tree.specs.StmtView.{file_view, import_view};
ghost use Rattle.ui_forms.specs.Form as form;
ghost use Rattle.ui_forms.specs.Form.{file_paths, import_paths, set_with, spec_paths};
ghost use Rattle.ui_forms.specs.Numbers.{numbers_of};

use crate::numbers::Numbers;
use std::alloc::Global;
use std::collections::BTreeMap;
use ui_base::NoMemory;
use ui_tree::{FileTree, ImportSpec, ImportTree, Specs};

// Adds the paths of a group.
fn add_group(paths: &mut Numbers, group: &[ImportSpec]) -> Result<(), NoMemory>
    ensures { OnOk result (paths.new ≡ set_with paths.old (map (λ i. i.path.text) group.now)) }
{
    for import in group {
        paths.add(import.path.text.bytes(), 0)?;
    }
    Ok(())
}

// Adds the paths of an import declaration.
fn add_import(paths: &mut Numbers, import: &ImportTree) -> Result<(), NoMemory>
    ensures { OnOk result (paths.new ≡ set_with paths.old
        (spec_paths (import_view import.now).specs)) }
{
    match &import.specs {
        Specs::One(spec) => {
            paths.add(spec.path.text.bytes(), 0)?;
            Ok(())
        }
        Specs::Grouped(group) => add_group(paths, group.as_slice()),
    }
}

// Adds the paths of import declarations.
fn add_imports(paths: &mut Numbers, imports: &[ImportTree]) -> Result<(), NoMemory>
    ensures { OnOk result (paths.new ≡ set_with paths.old
        (import_paths (map import_view imports.now))) }
{
    for import in imports {
        add_import(paths, import)?;
    }
    Ok(())
}

/// The paths that files import.
pub(crate) fn paths_in(alloc: Global, files: &[FileTree]) -> Result<Numbers, NoMemory>
    ensures { IfOk result (λ paths. paths ≡ set_with empty (file_paths (map file_view files.now))) }
{
    let mut paths = Numbers::new(alloc);
    for file in files {
        add_imports(&mut paths, file.imports.as_slice())?;
    }
    Ok(paths)
}

// A path as a text.
fn text_of(alloc: Global, path: &[u8]) -> Result<String, NoMemory>
    requires { is_path path.now ≡ true }
    ensures { IfOk result (λ text. string_bytes text ≡ path.now) }
{
    match str::from_utf8(path) {
        Ok(text) => String::from_str(alloc, text),
        Err(_) => unreachable!(),
    }
}

// The paths of a map, ascending.
fn paths_of(alloc: Global, numbers: &BTreeMap<Vec<u8>, usize>) -> Result<Vec<String>, NoMemory>
    requires { AllByRecursion (λ p. is_path p ≡ true) (keys (numbers_of numbers.now.entries)) }
    ensures { IfOk result (λ v. map (λ s. string_bytes s) v.items
        ≡ keys (numbers_of numbers.now.entries)) }
{
    let mut paths = Vec::new(alloc);
    for (path, _number) in numbers {
        paths.push(text_of(alloc, path)?)?;
    }
    Ok(paths)
}

/// The paths that files import, by whatever import declarations, ascending by bytes, each once.
pub fn imports_of(alloc: Global, files: &[FileTree]) -> Result<Vec<String>, NoMemory>
    requires { AllByRecursion (λ path. is_path path ≡ true) (file_paths (map file_view files.now)) }
    ensures { IfOk result (λ paths. map (λ s. string_bytes s) paths.items
        ≡ form.imports_of (map file_view files.now)) }
{
    let numbers = paths_in(alloc, files)?;
    let paths = paths_of(alloc, &numbers.map)?;
    Ok(paths)
}
