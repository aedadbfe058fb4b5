ghost use Rattle.std.specs.Prelude.{◌≡◌};
ghost use Rattle.ui_strpos.specs.declared.fault.ElementFault.TheVariants.{NoMemory};
ghost use Rattle.ui_strpos.specs.Causes.{number_of};

use std::alloc::{AllocError, AllocFailed};

/// Why a file is refused. The first thirteen are found in single elements; the others, and some of
/// these again, in the file as a whole.
#[derive(Clone, Copy, Debug, PartialEq, Eq, Drop)]
pub enum Cause {
    /// Sections or lists don't have the lengths that they must have, or a list doesn't ascend.
    WrongCount,
    /// The element ends inside.
    Cut,
    /// A number isn't in its shortest spelling, or passes 64 bits.
    LongNumber,
    /// A truth value is neither 0 nor 1.
    BadBool,
    /// No such code, kind or position; or a zero that has to stand there doesn't; or a body nests
    /// too deep.
    BadCode,
    /// A String doesn't have the form that its use asks for.
    BadText,
    /// A section past the last, or a use of an element of another section.
    BadSection,
    /// A number that isn't below its count.
    BadIndex,
    /// An entry that stands in the table already, or a first use out of order.
    TableOrder,
    /// An entry of the table that isn't used.
    TableUse,
    /// Bytes are left over.
    Tail,
    /// A Type uses a Type that isn't of smaller number.
    TypeOrder,
    /// No such local of the body.
    BadLocal,
    /// Two elements of one meaning.
    Twice,
    /// A rule on derived types is broken.
    DerivedOrder,
    /// An underlying type, signature or union isn't one.
    NamedUnder,
    /// A type is past its limits.
    TypeLimit,
    /// A stub where none may stand, or none where one must.
    StubLeft,
    /// An element that nothing reaches.
    Stray,
    /// The file's package has another path than asked.
    WrongPath,
}

impl Cause {
    /// The cause's number, from 1 to 20.
    pub fn number(self) -> u32
        ensures { result ≡ number_of self }
    {
        match self {
            Cause::WrongCount => 1,
            Cause::Cut => 2,
            Cause::LongNumber => 3,
            Cause::BadBool => 4,
            Cause::BadCode => 5,
            Cause::BadText => 6,
            Cause::BadSection => 7,
            Cause::BadIndex => 8,
            Cause::TableOrder => 9,
            Cause::TableUse => 10,
            Cause::Tail => 11,
            Cause::TypeOrder => 12,
            Cause::BadLocal => 13,
            Cause::Twice => 14,
            Cause::DerivedOrder => 15,
            Cause::NamedUnder => 16,
            Cause::TypeLimit => 17,
            Cause::StubLeft => 18,
            Cause::Stray => 19,
            Cause::WrongPath => 20,
        }
    }
}

/// Why bytes are no element: the place of the first fault in them and its cause; or memory ran out.
#[derive(Debug, PartialEq, Eq, Drop)]
pub enum ElementFault {
    Bad { offset: usize, cause: Cause },
    NoMemory,
}

impl From<AllocError> for ElementFault {
    ghost from_gives = { λ _ e. e ≡ NoMemory };

    fn from(_e: AllocError) -> ElementFault {
        ElementFault::NoMemory
    }
}

impl<T: Drop> From<AllocFailed<T>> for ElementFault {
    ghost from_gives = { λ _ e. e ≡ NoMemory };

    fn from(_e: AllocFailed<T>) -> ElementFault {
        ElementFault::NoMemory
    }
}
