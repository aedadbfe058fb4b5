ghost use Rattle.std.specs.Prelude.{◌≡◌, IfOk, IfErr};
ghost use Rattle.ui_file.specs.Verdict.{IsValid};
ghost use Rattle.ui_sections.specs.Spelled.{IsSpelled};
ghost use Rattle.ui_valid.specs.Tests.{Tested};
ghost use Rattle.ui_valid.specs.Verdict.{IsFirst};

use crate::case::Case;
use crate::passed::Valid;
use crate::rules::all_rules;
use std::alloc::Global;
use ui_base::Text;
use ui_file::{BadFile, File, FileKind};
use ui_frame::{Frame, NoMemory};
use ui_sections::{ValidFault, read_file};
use ui_words::file_words;

// The first test of a rule that fails.
fn test_rules<'a>(
    alloc: Global,
    frame: &'a Frame<'a>,
    file: &'a File,
    kind: FileKind,
    path: &'a Text,
) -> Result<Option<BadFile>, NoMemory>
    requires { IsSpelled frame.now file.now }
    ensures { IfOk result (Tested kind path.now file.now 0 9) }
{
    let known = file_words(alloc, file)?;
    let case = Case {
        frame: &*frame,
        file: &*file,
        known: &known,
        kind,
        path: &*path,
    };
    all_rules(alloc, &case)
}

// The file that a container spells, where it passes all tests.
#[tactic(auto, using(crate::proofs::Sequence::element_first, crate::proofs::Sequence::rule_first, crate::proofs::Sequence::all_kept))]
fn tested_file<'a>(
    alloc: Global,
    frame: &'a Frame<'a>,
    kind: FileKind,
    path: &Text,
) -> Result<File, ValidFault>
    ensures valid { IfOk result (IsValid kind path.now frame.now) }
    ensures spelled { IfOk result (IsSpelled frame.now) }
    ensures fault { IfErr result (IsFirst kind path.now frame.now) }
{
    let file = read_file(alloc, frame)?;
    match test_rules(alloc, &*frame, &file, kind, &*path) {
        Ok(None) => Ok(file),
        Ok(Some(bad)) => Err(ValidFault::Bad(bad)),
        Err(_) => Err(ValidFault::NoMemory),
    }
}

/// Tests a container as a file of a kind, for a package with a path. The fault is the first test
/// that fails.
pub fn valid<'a>(
    alloc: Global,
    frame: Frame<'a>,
    kind: FileKind,
    path: &Text,
) -> Result<Valid<'a>, ValidFault>
    // What passes is in the grammar of the kind, and is what was asked;
    ensures kind { IfOk result (λ v. v.kind ≡ kind) }
    ensures path { IfOk result (λ v. v.path ≡ path.now) }
    ensures parts { IfOk result (λ v. v.parts ≡ frame.entry) }
    ensures valid { IfOk result (λ v. IsValid kind path.now frame.entry v.file) }
    // and what doesn't is told by the first test that fails.
    ensures fault { IfErr result (IsFirst kind path.now frame.entry) }
{
    let path_kept = path.copy(alloc)?;
    let file = tested_file(alloc, &frame, kind, path)?;
    Ok(Valid {
        kind,
        path: path_kept,
        frame,
        file,
    })
}
