//! Expressions of bodies, with uses of elements in the places of types, names and objects.

use crate::callee::CalleeEl;
use crate::uses::InstanceUse;
use sqlite_items::{Boxed, Items};
use ui_base::{BinOp, UnOp};
use ui_core::{BuiltinFn, Entry, IndexedValue};
use ui_edecl::ValueEl;
use ui_etype::{Sel, TypeUse};

/// A field of a struct and its value.
#[derive(Drop)]
pub struct SelValue<E> {
    pub sel: Sel,
    pub value: E,
}

/// An expression of a body. Go specification, "Expressions".
#[derive(Drop)]
pub enum ExprEl {
    /// A constant expression, as one value.
    Const {
        ty: TypeUse,
        value: ValueEl,
    },
    Nil(TypeUse),
    /// The zero value of the type.
    Zero(TypeUse),
    Local(u64),
    /// A variable of a package.
    Global(InstanceUse),
    /// A function as a value.
    Func(CalleeEl),
    Unary {
        op: UnOp,
        ty: TypeUse,
        of: Boxed<ExprEl>,
    },
    /// The type is that of the result.
    Binary {
        op: BinOp,
        ty: TypeUse,
        left: Boxed<ExprEl>,
        right: Boxed<ExprEl>,
    },
    Convert {
        ty: TypeUse,
        of: Boxed<ExprEl>,
    },
    Field {
        sel: Sel,
        of: Boxed<ExprEl>,
    },
    Index {
        of: Boxed<ExprEl>,
        at: Boxed<ExprEl>,
    },
    Slice {
        of: Boxed<ExprEl>,
        low: Option<Boxed<ExprEl>>,
        high: Option<Boxed<ExprEl>>,
        max: Option<Boxed<ExprEl>>,
    },
    Deref(Boxed<ExprEl>),
    Addr(Boxed<ExprEl>),
    StructLit {
        ty: TypeUse,
        fields: Items<SelValue<ExprEl>>,
    },
    ListLit {
        ty: TypeUse,
        items: Items<IndexedValue<ExprEl>>,
    },
    MapLit {
        ty: TypeUse,
        entries: Items<Entry<ExprEl>>,
    },
    Call {
        callee: CalleeEl,
        args: Items<ExprEl>,
    },
    /// A method of a defined type; the receiver is the first argument.
    MethodCall {
        ty: TypeUse,
        pointer: bool,
        sel: Sel,
        args: Items<ExprEl>,
    },
    /// A method of an interface.
    DynCall {
        sel: Sel,
        of: Boxed<ExprEl>,
        args: Items<ExprEl>,
    },
    /// A method of a type parameter, by its entry in the dictionary of the object around.
    ParamCall {
        entry: u64,
        of: Boxed<ExprEl>,
        args: Items<ExprEl>,
    },
    /// A call of a function value.
    ValueCall {
        of: Boxed<ExprEl>,
        args: Items<ExprEl>,
    },
    /// A call of a predeclared function, with the type that it is given.
    Builtin {
        function: BuiltinFn,
        ty: Option<TypeUse>,
        args: Items<ExprEl>,
    },
    Assert {
        ty: TypeUse,
        of: Boxed<ExprEl>,
    },
    /// An index of a map, with the truth value that says whether the key is there.
    OkIndex {
        of: Boxed<ExprEl>,
        at: Boxed<ExprEl>,
    },
    /// An assertion, with the truth value that says whether it holds.
    OkAssert {
        ty: TypeUse,
        of: Boxed<ExprEl>,
    },
}
