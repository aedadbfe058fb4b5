// The form of sources.
ghost use Rattle.std.specs.Prelude.{◌≡◌, true, Ok, map, IfOk, string_bytes};
ghost use Rattle.ui_forms.specs.Choosing.{GivesForm, GivesPart, IsNotTaken};
ghost use Rattle.ui_forms.specs.Form as form;
ghost use Rattle.ui_forms.specs.Form.{at_file, imported, source_of};
ghost use Rattle.ui_forms.specs.Size.{HasPaths};
ghost use Rattle.ui_forms.specs.Words as words;

use crate::constant::constants_in;
use crate::discovery::imports_of;
use crate::fault::{FormFault, PartFault};
use crate::import::imports_in;
use crate::names::{are_distinct, segments_of};
use crate::package::is_package;
use crate::part::Part;
use crate::words::last_segment;
use std::alloc::Global;
use std::marker::Model;
use ui_base::{NoMemory, Pos, Spot, Text};
use ui_tree::{FileTree, Items};

/// The form of a package that is taken: its path and name, and what its sources hold.
#[derive(Debug, Drop)]
pub struct Form {
    pub(crate) path: Text,
    pub(crate) name: Text,
    pub(crate) parts: Items<Part>,
    paths: Vec<String>,
}

impl Model for Form {
    ghost use Rattle.ui_forms.specs.Form.{Form};

    ghost Value = { Form };

    ghost use Rattle.std.specs.Prelude.{map, string_bytes};
    ghost use Rattle.ui_forms.specs.Kept.{form_with, IsKept};

    ghost view = { λ f. form_with f.path f.name f.parts };

    ghost invariant = { λ f. IsKept (form_with f.path f.name f.parts)
        (map (λ s. string_bytes s) f.paths.items) };
}

impl Form {
    /// The paths of the imports, ascending by bytes. Each is valid.
    pub fn imports(&self) -> &[String]
        ensures paths { map (λ s. string_bytes s) result.now ≡ imported self.now }
        ensures valid { HasPaths self.now }
    {
        self.paths.as_slice()
    }
}

// What a source holds.
fn part_of(alloc: Global, own: &[u8], file: &FileTree) -> Result<Part, PartFault>
    ensures { GivesPart (form.part_of own.now (source_of file.now)) result }
{
    let imports = imports_in(alloc, own, file.imports.as_slice())?;
    let segments = segments_of(alloc, imports.as_slice())?;
    let constants = constants_in(alloc, &segments, file.decls.as_slice())?;
    let name = file.file.copy(alloc)?;
    Ok(Part {
        file: name,
        imports,
        constants,
    })
}

// A place in a file.
fn place(alloc: Global, file: &[u8], spot: Spot) -> Result<Pos, NoMemory>
    ensures { IfOk result (λ pos. pos ≡ record {
      file = file.now;
      line = spot.line;
      col = spot.col;
    }) }
{
    Ok(Pos {
        file: Text::from_slice(alloc, file)?,
        line: spot.line,
        col: spot.col,
    })
}

// The end of a reading at a place in a file.
fn not_taken(alloc: Global, file: &[u8], spot: Spot) -> FormFault
    ensures { IsNotTaken (record { file = file.now; line = spot.line; col = spot.col }) result }
{
    match place(alloc, file, spot) {
        Ok(pos) => FormFault::NotTaken(pos),
        Err(_) => FormFault::NoMemory,
    }
}

// What a source holds, or the place of its first fault.
fn part_at(alloc: Global, own: &[u8], file: &FileTree) -> Result<Part, FormFault>
    ensures { GivesForm (at_file file.now.file (form.part_of own.now (source_of file.now))) result }
{
    match part_of(alloc, own, file) {
        Ok(part) => Ok(part),
        Err(PartFault::NotTaken(spot)) => Err(not_taken(alloc, file.file.bytes(), spot)),
        Err(PartFault::NoMemory) => Err(FormFault::NoMemory),
    }
}

// What the sources hold, or the place of the first fault.
fn parts_of(alloc: Global, own: &[u8], files: &[FileTree]) -> Result<Items<Part>, FormFault>
    ensures { GivesForm (form.parts_of own.now (map source_of files.now)) result }
{
    let mut parts = Items::new(alloc);
    for file in files {
        let part = part_at(alloc, own, file)?;
        parts.push(part)?;
    }
    Ok(parts)
}

// The form of a package whose sources hold these parts.
fn form_of_parts(
    alloc: Global,
    path: &[u8],
    size: usize,
    files: &[FileTree],
    parts: Items<Part>,
) -> Result<Form, NoMemory>
    requires some { form.has_sources (map source_of files.now) ≡ true }
    requires package { form.is_package path.now size (map source_of files.now) ≡ true }
    requires parts { form.parts_of path.now (map source_of files.now) ≡ Ok parts }
    ensures { IfOk result (λ f. f ≡ record {
      path = path.now;
      name = words.last_segment path.now;
      parts = parts;
    }) }
{
    let paths = imports_of(alloc, files)?;
    Ok(Form {
        path: Text::from_slice(alloc, path)?,
        name: Text::from_slice(alloc, last_segment(path))?,
        parts,
        paths,
    })
}

/// The form of a package by its path, the size of its sources together and the trees of these, in
/// ascending order of their store names.
///
/// # Errors
///
/// `NotTaken` with the place of the first fault: at the front of the first source where the sources
/// aren't those of such a package, or where names are repeated; else in the first declaration that
/// isn't taken.
pub fn form_of(
    alloc: Global,
    path: &str,
    size: usize,
    files: &[FileTree],
) -> Result<Form, FormFault>
    ensures { GivesForm (form.form_of path.now size (map source_of files.now)) result }
{
    let front = Spot { line: 1, col: 1 };
    let Some(first) = files.first() else {
        return Err(not_taken(alloc, &[], front));
    };
    let path = path.as_bytes();
    if !is_package(path, size, files) {
        return Err(not_taken(alloc, first.file.bytes(), front));
    }
    let parts = parts_of(alloc, path, files)?;
    if !are_distinct(alloc, parts.as_slice())? {
        return Err(not_taken(alloc, first.file.bytes(), front));
    }
    let form = form_of_parts(alloc, path, size, files, parts)?;
    Ok(form)
}
