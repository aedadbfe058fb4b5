//! Laws, each a function whose contract is the statement. In all of them take a set of names that
//! holds what the types and the constraints of the type parameters mention, and what the
//! declarations of its own names mention, and two environments that declare the names of the set
//! alike.
ghost use Rattle.ui_set_local.specs.Laws.{ComparingAgrees, CoreTypesAgree, CoreTypesStayWithin};
ghost use Rattle.ui_set_local.specs.Laws.{ImplementingAgrees, LookupsAgree, LookupsStayWithin};
ghost use Rattle.ui_set_local.specs.Laws.{SatisfyingAgrees};

/// A name is the same field or method of a type in both, or is refused for one fault; and what is
/// found mentions only names of the set.
pub fn lookups_are_local()
    ensures same { LookupsAgree }
    ensures within { LookupsStayWithin }
{}

/// A type implements an interface in both, or lacks one method in both, or one fault is told.
pub fn implementing_is_local()
    ensures { ImplementingAgrees }
{}

/// A type has one core type in both, or none, or one fault is told; and the core type mentions only
/// names of the set.
pub fn core_types_are_local()
    ensures same { CoreTypesAgree }
    ensures within { CoreTypesStayWithin }
{}

/// A type is comparable in both or in neither, or one fault is told.
pub fn comparing_is_local()
    ensures { ComparingAgrees }
{}

/// A type satisfies a constraint in both, or lacks one thing in both, or one fault is told.
pub fn satisfying_is_local()
    ensures { SatisfyingAgrees }
{}
