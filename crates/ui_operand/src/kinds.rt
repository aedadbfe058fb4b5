//! Kinds of constants.
ghost use Rattle.std.specs.Prelude.{◌≡◌};
ghost use Rattle.ui_const.specs.Kinds as const_kinds;
ghost use Rattle.ui_rules.specs.Kinds as kinds;

use ui_const::{ConstFault, represent};
use ui_types::{Basic, BinOp, FaultKind, Value};

/// Whether it is a kind of constants that have no type yet. Go specification, "Constants".
pub fn is_untyped(kind: Basic) -> bool
    ensures { result ≡ kinds.is_untyped kind }
{
    matches!(
        kind,
        Basic::UntypedBool
            | Basic::UntypedInt
            | Basic::UntypedRune
            | Basic::UntypedString
            | Basic::UntypedNil
    )
}

/// The kind of an untyped mix: the later of int and rune.
pub(crate) fn later(a: Basic, b: Basic) -> Option<Basic>
    ensures { result ≡ kinds.later a b }
{
    match (a, b) {
        (Basic::UntypedBool, Basic::UntypedBool) => Some(Basic::UntypedBool),
        (Basic::UntypedString, Basic::UntypedString) => Some(Basic::UntypedString),
        (Basic::UntypedInt, Basic::UntypedInt) => Some(Basic::UntypedInt),
        (Basic::UntypedRune, Basic::UntypedInt | Basic::UntypedRune)
        | (Basic::UntypedInt, Basic::UntypedRune) => Some(Basic::UntypedRune),
        _ => None,
    }
}

/// The kind that an untyped constant takes where no other is asked. Go specification, "Constants".
pub fn default_kind(kind: Basic) -> Basic
    ensures { result ≡ kinds.default_kind kind }
{
    match kind {
        Basic::UntypedBool => Basic::Bool,
        Basic::UntypedInt => Basic::Int,
        Basic::UntypedRune => Basic::Int32,
        Basic::UntypedString => Basic::String,
        kind => kind,
    }
}

/// Whether a kind can hold a value.
pub(crate) fn holds(kind: Basic, v: &Value) -> bool
    ensures { result ≡ const_kinds.holds kind v.now }
{
    represent(v, kind).is_ok()
}

/// Whether values of the kind are such as this one.
pub(crate) fn suits(kind: Basic, v: &Value) -> bool
    ensures { result ≡ kinds.suits kind v.now }
{
    match v {
        Value::Whole(_) => !matches!(
            kind,
            Basic::Bool
                | Basic::String
                | Basic::UntypedBool
                | Basic::UntypedString
                | Basic::UntypedNil
        ),
        Value::Str(_) => matches!(kind, Basic::String | Basic::UntypedString),
        Value::Truth(_) => matches!(kind, Basic::Bool | Basic::UntypedBool),
    }
}

/// Whether it is `==` or `!=`.
pub(crate) fn is_equality(op: BinOp) -> bool
    ensures { result ≡ kinds.is_equality op }
{
    matches!(op, BinOp::Equal | BinOp::NotEqual)
}

/// Whether it compares.
pub(crate) fn is_comparison(op: BinOp) -> bool
    ensures { result ≡ kinds.is_comparison op }
{
    matches!(
        op,
        BinOp::Equal
            | BinOp::NotEqual
            | BinOp::Less
            | BinOp::LessEqual
            | BinOp::Greater
            | BinOp::GreaterEqual
    )
}

/// The kind of fault of an operation on constants.
pub(crate) fn const_kind(fault: ConstFault) -> FaultKind
    ensures { result ≡ kinds.const_kind fault }
{
    match fault {
        ConstFault::DivByZero => FaultKind::DivByZero,
        ConstFault::ConstTooBig => FaultKind::ConstTooBig,
        ConstFault::NotRepresentable => FaultKind::NotRepresentable,
        ConstFault::BadShift => FaultKind::BadShift,
        ConstFault::NoMemory => FaultKind::BadOperand,
    }
}
