// The imports that are used.
ghost use Rattle.std.specs.Prelude.{◌≡◌, ◌||◌, ℕ, List, Ok, not, IfOk, IfErr, OnOk};
ghost use Rattle.std.specs.List.{find, list_any};
ghost use Rattle.std.specs.Option.{option_copied};
ghost use Rattle.ui_forms.specs.Numbers.{has};
ghost use Rattle.ui_forms.specs.Words as words;
ghost use Rattle.ui_forms.specs.Verdict as verdicts;
ghost use Rattle.ui_forms.specs.Verdict.{IsRefusal, all_used, has_segment, has_term, used_or};

use crate::numbers::Numbers;
use crate::part::{ConstantSum, ImportPath, Part, Term};
use crate::values::refusal;
use crate::words::last_segment;
use std::alloc::Global;
use ui_base::{CheckFault, FaultKind, NoMemory};

// Adds the segment that a term is of.
fn add_term(used: &mut Numbers, term: &Term) -> Result<(), NoMemory>
    ensures { OnOk result ((q : List ℕ) → has used.new q
        ≡ (has_segment q term.now || has used.old q)) }
{
    match term {
        Term::Digits { .. } => Ok(()),
        Term::Own { .. } => Ok(()),
        Term::Of { segment, .. } => {
            used.add(segment.bytes(), 0)?;
            Ok(())
        }
    }
}

// Adds the segments that terms are of.
fn add_used(used: &mut Numbers, terms: &[Term]) -> Result<(), NoMemory>
    ensures { OnOk result ((q : List ℕ) → has used.new q
        ≡ (list_any (has_segment q) terms.now || has used.old q)) }
{
    for term in terms {
        add_term(used, term)?;
    }
    Ok(())
}

// The segments that the terms of constants are of.
fn used_of(alloc: Global, constants: &[ConstantSum]) -> Result<Numbers, NoMemory>
    ensures { IfOk result (λ used. (q : List ℕ) → has used q ≡ has_term constants.now q) }
{
    let mut used = Numbers::new(alloc);
    for constant in constants {
        add_used(&mut used, constant.terms.as_slice())?;
    }
    Ok(used)
}

// The first import that isn't used.
fn unused<'a>(used: &Numbers, imports: &'a [ImportPath]) -> Option<&'a ImportPath>
    ensures { option_copied result ≡ find (λ i. not (has used.now (words.last_segment i.path)))
        imports.now }
{
    imports
        .iter()
        .find(|import| !used.has(last_segment(import.path.bytes())))
}

// Whether all imports of a source are used; else the fault of the first that isn't.
fn check_part(alloc: Global, part: &Part) -> Result<(), CheckFault>
    ensures used { IfOk result (λ done. used_or part.now.file (verdicts.unused part.now)
        ≡ Ok done) }
    ensures refused { IfErr result (λ e. IsRefusal
        (used_or part.now.file (verdicts.unused part.now)) e) }
{
    let used = used_of(alloc, part.constants.as_slice())?;
    match unused(&used, part.imports.as_slice()) {
        Some(import) => Err(refusal(
            alloc,
            part.file.bytes(),
            FaultKind::UnusedImport,
            import.spot,
            import.path.bytes(),
        )),
        None => Ok(()),
    }
}

/// Whether all imports of all sources are used; else the fault of the first that isn't.
pub(crate) fn check_imports(alloc: Global, parts: &[Part]) -> Result<(), CheckFault>
    ensures used { IfOk result (λ done. all_used parts.now ≡ Ok done) }
    ensures refused { IfErr result (λ e. IsRefusal (all_used parts.now) e) }
{
    for part in parts {
        match check_part(alloc, part) {
            Ok(()) => {}
            Err(e) => return Err(e),
        }
    }
    Ok(())
}
