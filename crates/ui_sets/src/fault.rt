ghost use Rattle.std.specs.Prelude.{◌≡◌};
ghost use Rattle.ui_types.specs.Ty.{Ty};
ghost use Rattle.ui_types.specs.Table.{IsFaultOf};
ghost use Rattle.ui_sets.specs.Needed.{Refuses, fault_of, within};
ghost use Rattle.ui_sets.specs.declared.fault.SetFault.TheVariants.{NoMemory};

use std::alloc::AllocError;
use ui_types::{Name, TypeFault};

/// Why a type doesn't satisfy a constraint or implement an interface: the first thing that it
/// lacks. Go specification, "Implementing an interface", "Satisfying a type constraint".
#[derive(Debug, Drop)]
pub enum Unfit {
    /// It has no method of this name and signature.
    NoMethod { name: Name },
    /// It isn't in the union of this number.
    NotInUnion { union: u32 },
    /// It isn't comparable.
    NotComparable,
}

/// Why a question about types has no answer.
#[derive(Debug, Drop)]
pub enum SetFault {
    /// The type doesn't fit.
    Unfit(Unfit),
    /// A needed type has more than 65,536 nodes.
    TooBig,
    /// A needed type is deeper than 256, and isn't too big.
    TooDeep,
    NoMemory,
}

impl From<AllocError> for SetFault {
    ghost from_gives = { λ _ e. e ≡ NoMemory };

    fn from(_e: AllocError) -> SetFault {
        SetFault::NoMemory
    }
}

/// The fault where a needed type is refused.
#[tactic(auto, unfolding(crate::specs::Needed::within))]
pub(crate) fn limit(fault: TypeFault) -> SetFault
    ensures { (t : Ty) → IsFaultOf t fault → Refuses (fault_of (within t)) result }
{
    match fault {
        TypeFault::TooBig { .. } => SetFault::TooBig,
        TypeFault::TooDeep { .. } => SetFault::TooDeep,
        TypeFault::NoMemory => SetFault::NoMemory,
    }
}
