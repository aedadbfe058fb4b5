// The values of terms and sums.
ghost use Rattle.std.specs.Prelude.{◌≡◌, ◌+◌, ◌^◌, ◌<◌, [], Ok, Some, None, nat_lt, if◌then◌else◌};
ghost use Rattle.std.specs.Prelude.{IfOk, IfErr};
ghost use Rattle.ui_forms.specs.Choosing.{IsFault};
ghost use Rattle.ui_forms.specs.Scope.{selection_of};
ghost use Rattle.ui_base.specs.Steps.{and_then};
ghost use Rattle.ui_forms.specs.Verdict as verdicts;
ghost use Rattle.ui_forms.specs.Verdict.{IsRefusal, term_value, fault_at};
ghost use Rattle.ui_base.specs.declared.fault.FaultKind.TheVariants.{ConstTooBig};

use crate::part::{ConstantSum, Term};
use crate::scope::Scope;
use std::alloc::Global;
use ui_base::{CheckFault, Fault, FaultKind, NoMemory, Pos, Spot, Text};
use ui_exports::Package;

/// The greatest value of a constant, 2^127 - 1.
const LIMIT: u128 = 0x7fff_ffff_ffff_ffff_ffff_ffff_ffff_ffff;

// The value of a term, by the constants before it.
fn value_of(term: &Term, before: &Package, scope: &Scope) -> Option<u128>
    ensures { result ≡ verdicts.value_of (selection_of scope.now) before.now.decls term.now }
{
    match term {
        Term::Digits { value, .. } => Some(*value),
        Term::Own { name, .. } => before.value(name.bytes()),
        Term::Of { segment, name, .. } => scope.value(segment.bytes(), name.bytes()),
    }
}

// The place of a term.
fn spot_of(term: &Term) -> Spot
    ensures { result ≡ verdicts.spot_of term.now }
{
    match term {
        Term::Digits { spot, .. } => *spot,
        Term::Own { spot, .. } => *spot,
        Term::Of { spot, .. } => *spot,
    }
}

// The constant that a term names.
fn name_of(term: &Term) -> &[u8]
    ensures { result.now ≡ verdicts.name_of term.now }
{
    match term {
        Term::Digits { .. } => &[],
        Term::Own { name, .. } => name.bytes(),
        Term::Of { name, .. } => name.bytes(),
    }
}

// The place of the first of some terms.
fn first_spot(terms: &[Term]) -> Spot
    ensures { result ≡ verdicts.first_spot terms.now }
{
    match terms.first() {
        Some(term) => spot_of(term),
        None => Spot { line: 0, col: 0 },
    }
}

// A fault at a place.
fn fault(
    alloc: Global,
    file: &[u8],
    kind: FaultKind,
    spot: Spot,
    name: &[u8],
) -> Result<Fault, NoMemory>
    ensures { IfOk result (λ fault. fault ≡ fault_at file.now kind spot name.now) }
{
    let file = Text::from_slice(alloc, file)?;
    let name = Text::from_slice(alloc, name)?;
    let pos = Pos {
        file,
        line: spot.line,
        col: spot.col,
    };
    Ok(Fault { kind, pos, name })
}

// The end of a check with a fault.
pub(crate) fn refusal(
    alloc: Global,
    file: &[u8],
    kind: FaultKind,
    spot: Spot,
    name: &[u8],
) -> CheckFault
    ensures { IsFault (fault_at file.now kind spot name.now) result }
{
    match fault(alloc, file, kind, spot, name) {
        Ok(fault) => CheckFault::Fault(fault),
        Err(_) => CheckFault::NoMemory,
    }
}

// A partial sum and one value more, or nothing where they pass the limit.
fn added(sum: u128, value: u128) -> Option<u128>
    requires { sum < 2 ^ 127 }
    ensures { result ≡ (if nat_lt (sum + value) (2 ^ 127) then Some (sum + value) else None) }
{
    if value <= LIMIT - sum {
        Some(sum + value)
    } else {
        None
    }
}

// A partial sum and one term more. `first` is the place of the sum.
fn add_term(
    alloc: Global,
    file: &[u8],
    first: Spot,
    sum: u128,
    term: &Term,
    before: &Package,
    scope: &Scope,
) -> Result<u128, CheckFault>
    requires { sum < 2 ^ 127 }
    ensures value { IfOk result (λ next. and_then
        (verdicts.added (fault_at file.now ConstTooBig first []) sum)
        (term_value (selection_of scope.now) file.now before.now.decls term.now) ≡ Ok next) }
    ensures small { IfOk result (λ next. next < 2 ^ 127) }
    ensures refused { IfErr result (λ e. IsRefusal
        (and_then (verdicts.added (fault_at file.now ConstTooBig first []) sum)
        (term_value (selection_of scope.now) file.now before.now.decls term.now)) e) }
{
    match value_of(term, before, scope) {
        Some(value) => match added(sum, value) {
            Some(next) => Ok(next),
            None => Err(refusal(alloc, file, FaultKind::ConstTooBig, first, &[])),
        },
        None => Err(refusal(
            alloc,
            file,
            FaultKind::Undefined,
            spot_of(term),
            name_of(term),
        )),
    }
}

// The value of a constant, by the constants before it.
pub(crate) fn constant_value(
    alloc: Global,
    file: &[u8],
    constant: &ConstantSum,
    before: &Package,
    scope: &Scope,
) -> Result<u128, CheckFault>
    ensures value { IfOk result (λ value. verdicts.constant_value
        (selection_of scope.now) file.now before.now.decls constant.now ≡ Ok value) }
    ensures refused { IfErr result (λ e. IsRefusal
        (verdicts.constant_value (selection_of scope.now) file.now before.now.decls constant.now)
        e) }
{
    let first = first_spot(constant.terms.as_slice());
    let mut sum = 0;
    for term in constant.terms.as_slice() {
        match add_term(alloc, file, first, sum, term, before, scope) {
            Ok(next) => sum = next,
            Err(e) => return Err(e),
        }
    }
    Ok(sum)
}
