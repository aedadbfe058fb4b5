// The form of a package's sources, and what it stands for by the linked files of its imports.
ghost use Rattle.std.specs.Prelude.{◌≡◌, ◌≤◌, true, Ok, IfOk, map, length};
ghost use Rattle.std.specs.List.{list_all};
ghost use Rattle.ui_exports.specs.Linked.{belows};
ghost use Rattle.ui_order.specs.Tables.{texts};
ghost use Rattle.ui_sources.specs.Sources.{source_of, trees_of};
ghost use Rattle.ui_forms.specs.Verdict.{environment_of, verdict};
ghost use Rattle.ui_consts.specs.Size.{HasNames, IsListed, IsSmall, IsSmallExport};
ghost use Rattle.ui_below.specs.Claims.{claims};
ghost use Rattle.ui_below.specs.Join.{joined};
ghost use Rattle.ui_build.specs.Plan.{or_fault};
ghost use Rattle.ui_build.specs.Package.{form_in, form_or, imports_in};
ghost use Rattle.ui_build.specs.Build.{package_limit};
ghost use Rattle.ui_build.specs.Loading.{judgement, or_apart};
ghost use Rattle.ui_build.specs.Views.{imports_of, is_sound};
ghost use Rattle.ui_build.specs.Sources.{trees_seen};
ghost use Rattle.ui_build.specs.Stops.{Settles};

use crate::loading::Imports;
use crate::names::folder;
use crate::stop::{Refusal, Stop};
use std::alloc::Global;
use ui_base::CheckFault;
use ui_below::{JoinFault, join, list_of_paths};
use ui_exports::{Below, Linked, Package};
use ui_forms::{Form, FormFault, accepted_forms, check, form_of, imports_of};
use ui_order::PACKAGE_LIMIT;
use ui_sources::{SourceFile, Trees, import_paths_are_valid, read_trees};

// The trees of a package's sources, or their first fault.
fn trees_in(alloc: Global, path: &str, sources: &[SourceFile]) -> Result<Trees, Stop>
    ensures { Settles trees_seen (or_fault (trees_of path.now (map source_of sources.now))) result }
{
    match read_trees(alloc, path, sources) {
        Ok(trees) => Ok(trees),
        Err(CheckFault::Fault(fault)) => Err(Stop::Refused(Refusal::Faulty(fault))),
        Err(CheckFault::NoMemory) => Err(Stop::NoMemory),
    }
}

// The form of trees, or the place of what isn't taken.
fn form_of_trees(alloc: Global, path: &str, trees: &Trees) -> Result<Form, Stop>
    ensures settled { Settles (λ f. f) (form_in path.now (trees_seen trees.now)) result }
    ensures own { IfOk result (λ f. f.path ≡ path.now) }
{
    accepted_forms();
    match form_of(alloc, path, trees.size, &trees.files) {
        Ok(form) => Ok(form),
        Err(FormFault::NotTaken(pos)) => Err(Stop::Refused(Refusal::Form(pos))),
        Err(FormFault::NoMemory) => Err(Stop::NoMemory),
    }
}

/// The form of a package's sources, or their first fault, or the place of what isn't taken.
#[tactic(auto, unfolding(crate::specs::Package::form_or))]
pub fn form_in(alloc: Global, path: &str, sources: &[SourceFile]) -> Result<Form, Stop>
    ensures settled { Settles (λ f. f) (form_or path.now (map source_of sources.now)) result }
    ensures own { IfOk result (λ f. f.path ≡ path.now) }
{
    if sources.is_empty() {
        return Err(Stop::Refused(Refusal::NoFile(folder(alloc, path)?)));
    }
    let trees = trees_in(alloc, path, sources)?;
    let form = form_of_trees(alloc, path, &trees)?;
    Ok(form)
}

/// The paths that the sources of a package import, whether they have a form or not; none where one
/// of them has a fault.
pub fn imports_in(alloc: Global, path: &str, sources: &[SourceFile]) -> Result<Vec<String>, Stop>
    ensures { Settles texts (Ok (imports_in path.now (map source_of sources.now))) result }
{
    import_paths_are_valid();
    match read_trees(alloc, path, sources) {
        Ok(trees) => Ok(imports_of(alloc, &trees.files)?),
        Err(CheckFault::Fault(_)) => Ok(Vec::new(alloc)),
        Err(CheckFault::NoMemory) => Err(Stop::NoMemory),
    }
}

// The packages below, by the linked files of the imports.
fn below_in(alloc: Global, path: &str, imports: &Imports) -> Result<Vec<Below>, Stop>
    requires { length imports.now.files.items ≡ length imports.now.prints.items }
    ensures settled { Settles belows
        (or_apart path.now
        (joined path.now (claims imports.now.files.items imports.now.prints.items))) result }
    ensures few { IfOk result (λ v. length v.items ≤ package_limit) }
    ensures joined { IfOk result
        (λ v. joined path.now (claims imports.now.files.items imports.now.prints.items)
        ≡ Ok (belows v)) }
{
    match join(alloc, path.as_bytes(), &imports.files, &imports.prints) {
        Ok(below) if below.len() > PACKAGE_LIMIT => Err(Stop::Refused(Refusal::TooMany)),
        Ok(below) => Ok(below),
        Err(
            JoinFault::Stale {
                path,
                first,
                second,
            },
        ) => Err(Stop::Refused(Refusal::Stale {
            path,
            first,
            second,
        })),
        Err(JoinFault::Cycle) => Err(Stop::Refused(Refusal::Cycle(String::from_str(alloc, path)?))),
        Err(JoinFault::NoMemory) => Err(Stop::NoMemory),
    }
}

// What a package exports, or its first fault.
fn export_of(alloc: Global, form: &Form, files: &[Linked]) -> Result<Package, Stop>
    ensures settled { Settles (λ p. p)
        (or_fault (verdict (environment_of files.now) form.now)) result }
    ensures own { IfOk result (λ p. p.path ≡ form.now.path) }
    ensures named { IfOk result HasNames }
    ensures small { IfOk result IsSmallExport }
{
    match check(alloc, form, files) {
        Ok(package) => Ok(package),
        Err(CheckFault::Fault(fault)) => Err(Stop::Refused(Refusal::Faulty(fault))),
        Err(CheckFault::NoMemory) => Err(Stop::NoMemory),
    }
}

/// What a package of this form stands for, by the linked files of its imports.
pub fn judge(alloc: Global, path: &str, form: &Form, imports: &Imports) -> Result<Linked, Stop>
    requires own { form.now.path ≡ path.now }
    requires paired { length imports.now.files.items ≡ length imports.now.prints.items }
    requires sound { list_all (λ c. is_sound c.path c.print)
        (claims imports.now.files.items imports.now.prints.items) ≡ true }
    ensures settled { Settles (λ l. l)
        (judgement path.now form.now (imports_of imports.now)) result }
    ensures own { IfOk result (λ l. l.export.path ≡ path.now) }
    ensures small { IfOk result IsSmall }
{
    list_of_paths();
    let below = below_in(alloc, path, imports)?;
    let package = export_of(alloc, form, &imports.files)?;
    Ok(Linked { package, below })
}
