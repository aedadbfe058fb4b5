ghost use Rattle.std.specs.Prelude.{◌≡◌};
ghost use Rattle.ui_base.specs.declared.fault.CheckFault.TheVariants.{NoMemory};

use crate::text::Text;
use crate::value::Pos;
use std::alloc::AllocError;

/// Why a package is refused, by phase. This project's own.
#[derive(Clone, Copy, Debug, PartialEq, Eq)]
pub enum FaultKind {
    // size
    SourceTooLong,
    PackageTooLarge,
    // scan
    BadUtf8,
    BadByte,
    OpenComment,
    FloatLiteral,
    ImaginaryLiteral,
    BadNumber,
    ConstTooBig,
    BadEscape,
    BadRune,
    NewlineInString,
    OpenString,
    // parse
    Unexpected,
    TooDeep,
    Outside,
    BadImportPath,
    // form: what isn't built yet
    Form,
    // collect
    PackageName,
    Redeclared,
    MainShape,
    BadReceiver,
    // dependence
    Cycle,
    // faces
    NotExported,
    Undefined,
    NotType,
    OutsideName,
    NotConst,
    BadLength,
    NeedsArgs,
    WrongCount,
    BadTerm,
    ConstraintUse,
    TypeTooBig,
    TypeTooDeep,
    AssignCount,
    DivByZero,
    NotRepresentable,
    BadShift,
    // containment
    InfiniteType,
    // validity
    Unsatisfied,
    BadMapKey,
    // bodies
    MissingMethod,
    NotAssignable,
    MismatchedTypes,
    BadOperand,
    NotComparable,
    NotIndexable,
    BadIndex,
    NoField,
    NotAddressable,
    WrongArgs,
    NotCallable,
    BadConversion,
    Mismatch,
    Twice,
    NotInferred,
    UnknownField,
    DuplicateKey,
    ImpossibleAssert,
    NotStatement,
    NotAssigned,
    NoNewVars,
    NilUse,
    NotRangeable,
    DuplicateCase,
    BadBranch,
    WrongReturn,
    MissingReturn,
    UnusedVar,
    // imports
    UnusedImport,
    // weight
    TooLarge,
}

/// The first fault of a package: its kind, its place, and the name that it speaks of, which is
/// empty where it has none.
#[derive(Drop)]
pub struct Fault {
    pub kind: FaultKind,
    pub pos: Pos,
    pub name: Text,
}

/// Why a check ends without an answer.
#[derive(Drop)]
pub enum CheckFault {
    Fault(Fault),
    NoMemory,
}

impl From<AllocError> for CheckFault {
    ghost from_gives = { λ _ e. e ≡ NoMemory };

    fn from(_e: AllocError) -> CheckFault {
        CheckFault::NoMemory
    }
}
