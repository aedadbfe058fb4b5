//! Checked expressions, statements and bodies: each conversion, followed pointer and taken address
//! is explicit.

use crate::callee::{BuiltinFn, Callee};
use sqlite_items::{Boxed, Items};
use ui_base::{BinOp, Name, UnOp, Value};
use ui_types::{Ids, TypeId};

/// A list of checked expressions.
pub type Exprs = Items<Expr>;

/// A list of checked statements.
pub type Stmts = Items<Stmt>;

/// A field of a struct and its value.
#[derive(Drop)]
pub struct FieldValue<E> {
    pub name: Name,
    pub value: E,
}

/// An index of an array or a slice and its value.
#[derive(Drop)]
pub struct IndexedValue<E> {
    pub index: u64,
    pub value: E,
}

/// A key of a map and its value.
#[derive(Drop)]
pub struct Entry<E> {
    pub key: E,
    pub value: E,
}

/// What a range defines or assigns at each turn; `None` stands for a blank. Go specification, "For
/// statements".
#[derive(Drop)]
pub enum Places<E> {
    None,
    Define {
        first: Option<u32>,
        second: Option<u32>,
    },
    Assign {
        first: Option<E>,
        second: Option<E>,
    },
}

/// A clause of a switch: its values and its statements. Go specification, "Expression switches".
#[cycle(checked)]
#[derive(Drop)]
pub struct Clause {
    pub values: Items<Expr>,
    pub stmts: Items<Stmt>,
}

/// A checked expression. Go specification, "Expressions".
#[cycle(checked)]
#[derive(Drop)]
pub enum Expr {
    /// A constant expression, as one value.
    Const {
        ty: TypeId,
        value: Value,
    },
    Nil(TypeId),
    /// The zero value of the type.
    Zero(TypeId),
    Local(u32),
    /// A variable of a package.
    Global {
        name: Name,
        args: Ids,
    },
    /// A function as a value.
    Func(Callee),
    Unary {
        op: UnOp,
        ty: TypeId,
        of: Boxed<Expr>,
    },
    /// The type is that of the result.
    Binary {
        op: BinOp,
        ty: TypeId,
        left: Boxed<Expr>,
        right: Boxed<Expr>,
    },
    Convert {
        ty: TypeId,
        of: Boxed<Expr>,
    },
    Field {
        name: Name,
        of: Boxed<Expr>,
    },
    Index {
        of: Boxed<Expr>,
        at: Boxed<Expr>,
    },
    Slice {
        of: Boxed<Expr>,
        low: Option<Boxed<Expr>>,
        high: Option<Boxed<Expr>>,
        max: Option<Boxed<Expr>>,
    },
    Deref(Boxed<Expr>),
    Addr(Boxed<Expr>),
    StructLit {
        ty: TypeId,
        fields: Items<FieldValue<Expr>>,
    },
    ListLit {
        ty: TypeId,
        items: Items<IndexedValue<Expr>>,
    },
    MapLit {
        ty: TypeId,
        entries: Items<Entry<Expr>>,
    },
    Call {
        callee: Callee,
        args: Exprs,
    },
    /// A method of a defined type; the receiver is the first argument.
    MethodCall {
        ty: TypeId,
        pointer: bool,
        name: Name,
        args: Exprs,
    },
    /// A method of an interface.
    DynCall {
        name: Name,
        of: Boxed<Expr>,
        args: Exprs,
    },
    /// A method of a type parameter.
    ParamCall {
        param: u32,
        method: Name,
        of: Boxed<Expr>,
        args: Exprs,
    },
    /// A call of a function value.
    ValueCall {
        of: Boxed<Expr>,
        args: Exprs,
    },
    /// A call of a predeclared function, with the type that it is given.
    Builtin {
        function: BuiltinFn,
        ty: Option<TypeId>,
        args: Exprs,
    },
    Assert {
        ty: TypeId,
        of: Boxed<Expr>,
    },
    /// An index of a map, with the truth value that says whether the key is there.
    OkIndex {
        of: Boxed<Expr>,
        at: Boxed<Expr>,
    },
    /// An assertion, with the truth value that says whether it holds.
    OkAssert {
        ty: TypeId,
        of: Boxed<Expr>,
    },
    /// A call in whose place the body of what it calls stands, which only expanded trees have.
    Inline {
        callee: Callee,
        args: Exprs,
        body: Boxed<Body>,
    },
}

/// A checked statement. Go specification, "Statements".
#[cycle(checked)]
#[derive(Drop)]
pub enum Stmt {
    Expr(Expr),
    /// Each place is a local, or blank.
    Define {
        places: Items<Option<u32>>,
        values: Exprs,
    },
    /// Each place is an expression, or blank.
    Assign {
        places: Items<Option<Expr>>,
        values: Exprs,
    },
    OpAssign {
        op: BinOp,
        place: Expr,
        value: Expr,
    },
    Block(Items<Stmt>),
    If {
        condition: Expr,
        then: Items<Stmt>,
        otherwise: Items<Stmt>,
    },
    For {
        init: Items<Stmt>,
        condition: Option<Expr>,
        post: Items<Stmt>,
        body: Items<Stmt>,
    },
    Range {
        places: Places<Expr>,
        over: Expr,
        body: Items<Stmt>,
    },
    Switch {
        on: Expr,
        clauses: Items<Clause>,
        default: Option<Items<Stmt>>,
    },
    Return(Exprs),
    Break,
    Continue,
}

/// A checked body. The first locals are the parameters, a receiver before the others.
#[cycle(checked)]
#[derive(Drop)]
pub struct Body {
    pub params: u32,
    pub locals: Ids,
    pub results: Ids,
    pub stmts: Items<Stmt>,
}
