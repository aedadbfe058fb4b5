//! Types and expressions.

use crate::part::{Group, LiteralKind, Placed, PrefixOp, Sig};
use sqlite_items::{Boxed, Items};
use ui_base::{BinOp, Spot, Value};

/// A type as it is written. Go specification, "Types".
#[cycle(tree)]
#[derive(Drop)]
pub enum TypeExpr {
    /// `N`, `p.N`, `N[A, B]`
    Named {
        name: Placed,
        member: Option<Placed>,
        args: Option<Items<TypeExpr>>,
    },
    /// `(T)`
    Parenthesized {
        spot: Spot,
        of: Boxed<TypeExpr>,
    },
    /// `*T`
    Pointer {
        spot: Spot,
        of: Boxed<TypeExpr>,
    },
    /// `[]T`
    Slice {
        spot: Spot,
        of: Boxed<TypeExpr>,
    },
    /// `[n]T`
    Array {
        spot: Spot,
        len: Boxed<ExprTree>,
        of: Boxed<TypeExpr>,
    },
    /// `[...]T`, which a literal alone has
    Counted {
        spot: Spot,
        of: Boxed<TypeExpr>,
    },
    /// `map[K]V`
    Map {
        spot: Spot,
        key: Boxed<TypeExpr>,
        of: Boxed<TypeExpr>,
    },
    /// `func(A) B`
    Func {
        spot: Spot,
        sig: Sig<Boxed<TypeExpr>>,
    },
    /// `(A, B)`, the results of a function
    Listed {
        spot: Spot,
        groups: Items<Group<Boxed<TypeExpr>>>,
    },
    /// `struct { f, g T }`
    Struct {
        spot: Spot,
        fields: Items<Group<Boxed<TypeExpr>>>,
    },
    /// `interface { M(A); ~int | string }`: methods and unions
    Interface {
        spot: Spot,
        elems: Items<TypeExpr>,
    },
    /// `M(A) B`, an element of an interface
    Method {
        name: Placed,
        sig: Sig<Boxed<TypeExpr>>,
    },
    /// `~int | string`, an element of an interface or a bound; it may have one term
    Union {
        spot: Spot,
        terms: Items<TypeExpr>,
    },
    /// `~T`, a term of a union
    Tilde {
        spot: Spot,
        of: Boxed<TypeExpr>,
    },
}

/// An expression as it is written. Go specification, "Expressions".
#[cycle(tree)]
#[derive(Drop)]
pub enum ExprTree {
    /// A number, a rune or a string.
    Literal {
        spot: Spot,
        kind: LiteralKind,
        value: Value,
    },
    Name(Placed),
    /// `(x)`
    Paren {
        spot: Spot,
        of: Boxed<ExprTree>,
    },
    /// `T(x)` where `T` is no expression
    Convert {
        spot: Spot,
        to: Boxed<TypeExpr>,
        of: Boxed<ExprTree>,
    },
    /// `T{x, k: y}`
    Composite {
        spot: Spot,
        of: Boxed<TypeExpr>,
        elems: Items<ExprTree>,
    },
    /// `{x, k: y}`, an element of a literal
    Elided {
        spot: Spot,
        elems: Items<ExprTree>,
    },
    /// `k: y`, an element of a literal
    Keyed {
        spot: Spot,
        key: Boxed<ExprTree>,
        value: Boxed<ExprTree>,
    },
    /// `f[A, B]`
    Instance {
        spot: Spot,
        of: Boxed<ExprTree>,
        args: Items<TypeExpr>,
    },
    /// `x.f`
    Selector {
        spot: Spot,
        of: Boxed<ExprTree>,
        member: Placed,
    },
    /// `x.(T)`
    Assert {
        spot: Spot,
        of: Boxed<ExprTree>,
        to: Boxed<TypeExpr>,
    },
    /// `x[i]`
    Index {
        spot: Spot,
        of: Boxed<ExprTree>,
        at: Boxed<ExprTree>,
    },
    /// `x[i:j:k]`
    Sliced {
        spot: Spot,
        of: Boxed<ExprTree>,
        low: Option<Boxed<ExprTree>>,
        high: Option<Boxed<ExprTree>>,
        max: Option<Boxed<ExprTree>>,
    },
    /// `f(x, y...)`
    Call {
        spot: Spot,
        of: Boxed<ExprTree>,
        args: Items<ExprTree>,
        spread: bool,
    },
    /// An argument that is a type and no expression.
    Type(Boxed<TypeExpr>),
    /// `-x`
    Unary {
        spot: Spot,
        op: PrefixOp,
        of: Boxed<ExprTree>,
    },
    /// `x + y`
    Binary {
        spot: Spot,
        op: BinOp,
        left: Boxed<ExprTree>,
        right: Boxed<ExprTree>,
    },
}
