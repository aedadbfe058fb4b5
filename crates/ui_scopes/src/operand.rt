//! What a form is checked to be.

ghost use Rattle.std.specs.Prelude.{◌≡◌};
ghost use Rattle.ui_core.specs.View.{view};
ghost use Rattle.ui_scopes.specs.Operands as operands;
ghost use Rattle.ui_scopes.specs.Operands.{seen};

use ui_core::Expr;
use ui_types::{Ids, Name, Spot, Text, TypeId, Value};

/// What an expression is checked to be.
#[derive(Drop)]
pub enum Operand {
    /// A value: its checked tree, its type, its value where it is constant, and whether it has an
    /// address.
    Val {
        expr: Expr,
        ty: TypeId,
        constant: Option<Value>,
        addressable: bool,
    },
    /// A call that has no or several results.
    Many {
        expr: Expr,
        types: Ids,
    },
    Ty(TypeId),
    /// A generic type without its arguments.
    GenericTy(Name),
    /// A generic function with the type arguments written.
    Func {
        name: Name,
        explicit: Ids,
    },
    /// A method of a value: the call with its receiver alone, and the signature.
    Method {
        call: Expr,
        sig: TypeId,
    },
    /// A predeclared function.
    Builtin(Text),
    /// An imported package, by its path.
    Package(Text),
}

/// An argument of a call, with the place of its first token.
#[derive(Drop)]
pub struct Arg {
    pub operand: Operand,
    pub at: Spot,
}

impl Operand {
    /// A value that isn't constant.
    pub fn value(expr: Expr, ty: TypeId, addressable: bool) -> Operand
        ensures { seen result ≡ operands.value (view expr) ty None addressable }
    {
        Operand::Val {
            expr,
            ty,
            constant: None,
            addressable,
        }
    }
}
