// Faults of forms that are no types.
ghost use Rattle.std.specs.Prelude.{◌≡◌, [], Some};
ghost use Rattle.ui_scopes.specs.Steps.{Refuses, fault_at};
ghost use Rattle.ui_rules.specs.Kinds as kinds;

use std::alloc::Global;
use ui_base::{CheckFault, FaultKind, Spot, Text};
use ui_scopes::refusal;

/// The fault of a form that isn't a type.
pub fn not_type(alloc: Global, file: &Text, at: Spot) -> CheckFault
    ensures { Refuses (Some (fault_at file.now at FaultKind.NotType [])) result }
{
    refusal(alloc, file, at, FaultKind::NotType, b"")
}

/// The fault of a form that isn't taken yet.
pub fn not_taken(alloc: Global, file: &Text, at: Spot) -> CheckFault
    ensures { Refuses (Some (fault_at file.now at kinds.not_taken [])) result }
{
    refusal(alloc, file, at, FaultKind::Form, b"")
}

/// The fault of a name that has no meaning.
pub(crate) fn undefined(alloc: Global, file: &Text, at: Spot, name: &Text) -> CheckFault
    ensures { Refuses (Some (fault_at file.now at FaultKind.Undefined name.now)) result }
{
    refusal(alloc, file, at, FaultKind::Undefined, name.bytes())
}
