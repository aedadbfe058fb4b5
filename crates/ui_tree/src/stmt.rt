//! Statements.

use crate::expr::{ExprTree, TypeExpr};
use crate::part::{Placed, Specs};
use sqlite_items::{Boxed, Items};
use ui_base::{BinOp, Spot};

/// Constants or variables with their type and their values, of which either may be left out. Go
/// specification, "Constant declarations" and "Variable declarations".
#[derive(Drop)]
pub struct ValueSpec {
    pub names: Items<Placed>,
    pub of: Option<TypeExpr>,
    pub values: Option<Items<ExprTree>>,
}

/// A declaration that a file and a block may have.
#[derive(Drop)]
pub enum CommonTree {
    Const { spot: Spot, specs: Specs<ValueSpec> },
    Var { spot: Spot, specs: Specs<ValueSpec> },
}

/// Statements in braces, and where the closing brace stands. Go specification, "Blocks".
#[derive(Drop)]
pub struct Block<S> {
    pub spot: Spot,
    pub stmts: Items<S>,
    pub close: Spot,
}

/// A clause of a switch: its values, or none for `default`. Go specification, "Expression
/// switches".
#[derive(Drop)]
pub struct Clause<S> {
    pub spot: Spot,
    pub values: Option<Items<ExprTree>>,
    pub stmts: Items<S>,
}

/// What stands before `range`: the places, and whether they are defined there. Go specification,
/// "For statements".
#[derive(Drop)]
pub struct RangePlaces {
    pub places: Items<ExprTree>,
    pub define: bool,
}

/// A statement as it is written. Go specification, "Statements".
#[derive(Drop)]
pub enum StmtTree {
    Empty,
    Common(CommonTree),
    Block(Block<StmtTree>),
    /// `f(x)`
    Expr(ExprTree),
    /// `x, y = 1, 2`
    Assign {
        spot: Spot,
        places: Items<ExprTree>,
        values: Items<ExprTree>,
    },
    /// `x += 1`
    OpAssign {
        spot: Spot,
        place: ExprTree,
        op: BinOp,
        value: ExprTree,
    },
    /// `x, y := 1, 2`
    Define {
        spot: Spot,
        names: Items<Placed>,
        values: Items<ExprTree>,
    },
    /// `x++`
    Increment {
        spot: Spot,
        place: ExprTree,
    },
    /// `x--`
    Decrement {
        spot: Spot,
        place: ExprTree,
    },
    Return {
        spot: Spot,
        values: Option<Items<ExprTree>>,
    },
    Break {
        spot: Spot,
    },
    Continue {
        spot: Spot,
    },
    /// What follows `else` is a block or a further `if`.
    If {
        spot: Spot,
        init: Option<Boxed<StmtTree>>,
        condition: ExprTree,
        body: Block<StmtTree>,
        otherwise: Option<Boxed<StmtTree>>,
    },
    /// `for { }`
    Loop {
        spot: Spot,
        body: Block<StmtTree>,
    },
    /// `for x < y { }`
    While {
        spot: Spot,
        condition: ExprTree,
        body: Block<StmtTree>,
    },
    /// `for i := 0; i < n; i++ { }`
    For {
        spot: Spot,
        init: Boxed<StmtTree>,
        condition: Option<ExprTree>,
        post: Boxed<StmtTree>,
        body: Block<StmtTree>,
    },
    /// `for i, x := range xs { }`
    Range {
        spot: Spot,
        places: Option<RangePlaces>,
        over: ExprTree,
        body: Block<StmtTree>,
    },
    Switch {
        spot: Spot,
        init: Option<Boxed<StmtTree>>,
        on: Option<ExprTree>,
        clauses: Items<Clause<StmtTree>>,
    },
}
