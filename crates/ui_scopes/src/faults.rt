//! Faults at the first token of a form.
ghost use Rattle.std.specs.Prelude.{◌≡◌, Some, IfOk};
ghost use Rattle.ui_types.specs.Table.{IsFaultOf};
ghost use Rattle.ui_types.specs.Ty.{Ty};
ghost use Rattle.ui_scopes.specs.Steps.{Refuses, fault_at, fault_of, made_at};

use std::alloc::Global;
use ui_types::{CheckFault, Fault, FaultKind, NoMemory, Pos, Spot, Text, TypeFault, Value};

// A fault at a place.
fn fault(
    alloc: Global,
    file: &Text,
    at: Spot,
    kind: FaultKind,
    name: &[u8],
) -> Result<Fault, NoMemory>
    ensures { IfOk result (λ fault. fault ≡ fault_at file.now at kind name.now) }
{
    let file = file.copy(alloc)?;
    let name = Text::from_slice(alloc, name)?;
    let pos = Pos {
        file,
        line: at.line,
        col: at.col,
    };
    Ok(Fault { kind, pos, name })
}

/// The end of a check with a fault at a place, which speaks of a name.
pub fn refusal(alloc: Global, file: &Text, at: Spot, kind: FaultKind, name: &[u8]) -> CheckFault
    ensures { Refuses (Some (fault_at file.now at kind name.now)) result }
{
    match fault(alloc, file, at, kind, name) {
        Ok(fault) => CheckFault::Fault(fault),
        Err(_) => CheckFault::NoMemory,
    }
}

/// The end of a check at a form whose rule needs a type past its limit.
#[tactic(auto, unfolding(crate::specs::Steps::made_at))]
pub fn type_refusal(alloc: Global, file: &Text, at: Spot, fault: TypeFault) -> CheckFault
    ensures { (t : Ty) → IsFaultOf t fault → Refuses (fault_of (made_at file.now at t)) result }
{
    match fault {
        TypeFault::TooBig { .. } => refusal(alloc, file, at, FaultKind::TypeTooBig, b""),
        TypeFault::TooDeep { .. } => refusal(alloc, file, at, FaultKind::TypeTooDeep, b""),
        TypeFault::NoMemory => CheckFault::NoMemory,
    }
}

/// A value of its own.
pub fn copy_value(alloc: Global, value: &Value) -> Result<Value, NoMemory>
    ensures { IfOk result (λ v. v ≡ value.now) }
{
    match value {
        Value::Whole(n) => Ok(Value::Whole(*n)),
        Value::Str(text) => Ok(Value::Str(text.copy(alloc)?)),
        Value::Truth(b) => Ok(Value::Truth(*b)),
    }
}
