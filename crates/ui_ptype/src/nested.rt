//! What is read within some budget of depth, as a function value is asked for it.

ghost use Rattle.std.specs.Prelude.{◌≡◌};
ghost use Rattle.ui_ptype.specs.Asked.{IsLevel, IsMaybeType, AreBraces};
ghost use Rattle.ui_ptype.specs.declared.nested.Got.TheVariants as got;

use crate::sub::{Sub, Subs, TypeSub};
use ui_syntax::{Site, TypeSite};

/// What is to be read.
#[derive(Clone, Copy)]
pub enum Ask {
    /// An expression whose operators bind at least so tightly; at some sites a type alone.
    Level(Site, u8),
    /// A type, where one begins.
    MaybeType(TypeSite),
    /// The elements of a literal, behind its brace.
    Braces,
}

/// What was read, by what was asked for.
#[derive(Drop)]
pub enum Got {
    Level(Sub),
    MaybeType(Option<TypeSub>),
    Braces(Subs),
}

impl Got {
    /// The expression that was asked for.
    pub fn into_level(self) -> Sub
        requires { IsLevel self }
        ensures { self ≡ got.Level result }
    {
        match self {
            Got::Level(sub) => sub,
            _ => unreachable!(),
        }
    }

    /// The type that was asked for, if one begins there.
    pub fn into_maybe_type(self) -> Option<TypeSub>
        requires { IsMaybeType self }
        ensures { self ≡ got.MaybeType result }
    {
        match self {
            Got::MaybeType(of) => of,
            _ => unreachable!(),
        }
    }

    /// The elements that were asked for.
    pub fn into_braces(self) -> Subs
        requires { AreBraces self }
        ensures { self ≡ got.Braces result }
    {
        match self {
            Got::Braces(elems) => elems,
            _ => unreachable!(),
        }
    }
}
