ghost use Rattle.std.specs.Prelude.{◌≡◌, ◌<◌, length, IfOk, IfSome};
ghost use Rattle.ui_frame.specs.Container.{section};
ghost use Rattle.ui_frame.specs.Sections.{number_of};
ghost use Rattle.ui_file.specs.Files.{bad};
ghost use Rattle.ui_sections.specs.Spelled.{IsSpelled};
ghost use Rattle.ui_valid.specs.Tests.{Tested, IsPlace, placed};

use crate::case::Case;
use std::alloc::Global;
use ui_file::BadFile;
use ui_file_rules::{BadIndex, DerivedOrder, Place, Twice, first_place};
use ui_frame::{Frame, NoMemory};
use ui_name_rules::{StubLeft, WrongCount, WrongPath};
use ui_stray::first_stray;
use ui_strpos::Cause;
use ui_type_rules::{NamedUnder, TypeLimit};

// What is told of an element that breaks a rule: its place is its first byte.
fn at(frame: &Frame<'_>, place: Place, cause: Cause) -> BadFile
    requires { IsPlace frame.now place }
    ensures { result ≡ bad (number_of place.section) place.element 0 cause }
{
    prove!(place.element < frame.count(place.section) as usize);
    BadFile {
        section: place.section.number(),
        element: place.element as u32,
        offset: 0,
        cause,
    }
}

fn told(frame: &Frame<'_>, place: Option<Place>, cause: Cause) -> Option<BadFile>
    requires { IfSome place (IsPlace frame.now) }
    ensures { result ≡ placed cause place }
{
    match place {
        Some(place) => Some(at(frame, place, cause)),
        None => None,
    }
}

fn twice(alloc: Global, case: &Case<'_>) -> Result<Option<BadFile>, NoMemory>
    requires { IsSpelled case.now.frame.now case.now.file.now }
    ensures { IfOk result (Tested case.now.kind case.now.path.now case.now.file.now 0 1) }
{
    let rule = Twice {
        file: &*case.file,
        known: &*case.known,
    };
    let place = first_place(alloc, &rule)?;
    Ok(told(case.frame, place, Cause::Twice))
}

fn derived_order(alloc: Global, case: &Case<'_>) -> Result<Option<BadFile>, NoMemory>
    requires { IsSpelled case.now.frame.now case.now.file.now }
    ensures { IfOk result (Tested case.now.kind case.now.path.now case.now.file.now 1 2) }
{
    let rule = DerivedOrder { file: &*case.file };
    let place = first_place(alloc, &rule)?;
    Ok(told(case.frame, place, Cause::DerivedOrder))
}

fn bad_index(alloc: Global, case: &Case<'_>) -> Result<Option<BadFile>, NoMemory>
    requires { IsSpelled case.now.frame.now case.now.file.now }
    ensures { IfOk result (Tested case.now.kind case.now.path.now case.now.file.now 2 3) }
{
    let rule = BadIndex { file: &*case.file };
    let place = first_place(alloc, &rule)?;
    Ok(told(case.frame, place, Cause::BadIndex))
}

fn wrong_count(alloc: Global, case: &Case<'_>) -> Result<Option<BadFile>, NoMemory>
    requires { IsSpelled case.now.frame.now case.now.file.now }
    ensures { IfOk result (Tested case.now.kind case.now.path.now case.now.file.now 3 4) }
{
    let rule = WrongCount {
        file: &*case.file,
        known: &*case.known,
    };
    let place = first_place(alloc, &rule)?;
    Ok(told(case.frame, place, Cause::WrongCount))
}

fn named_under(alloc: Global, case: &Case<'_>) -> Result<Option<BadFile>, NoMemory>
    requires { IsSpelled case.now.frame.now case.now.file.now }
    ensures { IfOk result (Tested case.now.kind case.now.path.now case.now.file.now 4 5) }
{
    let rule = NamedUnder { file: &*case.file };
    let place = first_place(alloc, &rule)?;
    Ok(told(case.frame, place, Cause::NamedUnder))
}

fn type_limit(alloc: Global, case: &Case<'_>) -> Result<Option<BadFile>, NoMemory>
    requires { IsSpelled case.now.frame.now case.now.file.now }
    ensures { IfOk result (Tested case.now.kind case.now.path.now case.now.file.now 5 6) }
{
    let rule = TypeLimit { file: &*case.file };
    let place = first_place(alloc, &rule)?;
    Ok(told(case.frame, place, Cause::TypeLimit))
}

fn stub_left(alloc: Global, case: &Case<'_>) -> Result<Option<BadFile>, NoMemory>
    requires { IsSpelled case.now.frame.now case.now.file.now }
    ensures { IfOk result (Tested case.now.kind case.now.path.now case.now.file.now 6 7) }
{
    let rule = StubLeft {
        kind: case.kind,
        file: &*case.file,
        known: &*case.known,
    };
    let place = first_place(alloc, &rule)?;
    Ok(told(case.frame, place, Cause::StubLeft))
}

fn stray(alloc: Global, case: &Case<'_>) -> Result<Option<BadFile>, NoMemory>
    requires { IsSpelled case.now.frame.now case.now.file.now }
    ensures { IfOk result (Tested case.now.kind case.now.path.now case.now.file.now 7 8) }
{
    let place = first_stray(alloc, case.frame)?;
    Ok(told(case.frame, place, Cause::Stray))
}

fn wrong_path(alloc: Global, case: &Case<'_>) -> Result<Option<BadFile>, NoMemory>
    requires { IsSpelled case.now.frame.now case.now.file.now }
    ensures { IfOk result (Tested case.now.kind case.now.path.now case.now.file.now 8 9) }
{
    let rule = WrongPath {
        path: &*case.path,
        file: &*case.file,
        known: &*case.known,
    };
    let place = first_place(alloc, &rule)?;
    Ok(told(case.frame, place, Cause::WrongPath))
}

// The first three rules.
#[tactic(auto, using(crate::proofs::Sequence::first_broken, crate::proofs::Sequence::other_broken, crate::proofs::Sequence::both_kept, crate::proofs::Sequence::then_tested))]
fn first_rules(alloc: Global, case: &Case<'_>) -> Result<Option<BadFile>, NoMemory>
    requires { IsSpelled case.now.frame.now case.now.file.now }
    ensures { IfOk result (Tested case.now.kind case.now.path.now case.now.file.now 0 3) }
{
    match twice(alloc, case)? {
        Some(bad) => return Ok(Some(bad)),
        None => (),
    }
    match derived_order(alloc, case)? {
        Some(bad) => return Ok(Some(bad)),
        None => (),
    }
    bad_index(alloc, case)
}

// The next three.
#[tactic(auto, using(crate::proofs::Sequence::first_broken, crate::proofs::Sequence::other_broken, crate::proofs::Sequence::both_kept, crate::proofs::Sequence::then_tested))]
fn middle_rules(alloc: Global, case: &Case<'_>) -> Result<Option<BadFile>, NoMemory>
    requires { IsSpelled case.now.frame.now case.now.file.now }
    ensures { IfOk result (Tested case.now.kind case.now.path.now case.now.file.now 3 6) }
{
    match wrong_count(alloc, case)? {
        Some(bad) => return Ok(Some(bad)),
        None => (),
    }
    match named_under(alloc, case)? {
        Some(bad) => return Ok(Some(bad)),
        None => (),
    }
    type_limit(alloc, case)
}

// The last three.
#[tactic(auto, using(crate::proofs::Sequence::first_broken, crate::proofs::Sequence::other_broken, crate::proofs::Sequence::both_kept, crate::proofs::Sequence::then_tested))]
fn last_rules(alloc: Global, case: &Case<'_>) -> Result<Option<BadFile>, NoMemory>
    requires { IsSpelled case.now.frame.now case.now.file.now }
    ensures { IfOk result (Tested case.now.kind case.now.path.now case.now.file.now 6 9) }
{
    match stub_left(alloc, case)? {
        Some(bad) => return Ok(Some(bad)),
        None => (),
    }
    match stray(alloc, case)? {
        Some(bad) => return Ok(Some(bad)),
        None => (),
    }
    wrong_path(alloc, case)
}

/// The first test of a rule that fails.
#[tactic(auto, using(crate::proofs::Sequence::first_broken, crate::proofs::Sequence::other_broken, crate::proofs::Sequence::both_kept, crate::proofs::Sequence::then_tested))]
pub(crate) fn all_rules(alloc: Global, case: &Case<'_>) -> Result<Option<BadFile>, NoMemory>
    requires { IsSpelled case.now.frame.now case.now.file.now }
    ensures { IfOk result (Tested case.now.kind case.now.path.now case.now.file.now 0 9) }
{
    match first_rules(alloc, case)? {
        Some(bad) => return Ok(Some(bad)),
        None => (),
    }
    match middle_rules(alloc, case)? {
        Some(bad) => return Ok(Some(bad)),
        None => (),
    }
    last_rules(alloc, case)
}
