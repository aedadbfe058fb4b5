//! Statements of bodies, with uses of elements in the places of types, names and objects.

use sqlite_items::{Boxed, Items};
use ui_base::BinOp;
use ui_eexpr::ExprEl;

/// What a range defines or assigns at each turn; `None` stands for a blank. Go specification, "For
/// statements".
#[derive(Drop)]
pub enum RangeEl {
    Nothing,
    /// Two locals.
    Define {
        first: Option<u64>,
        second: Option<u64>,
    },
    Assign {
        first: Option<ExprEl>,
        second: Option<ExprEl>,
    },
}

/// A clause of a switch: its values and its statements. Go specification, "Expression switches".
#[derive(Drop)]
pub struct ClauseEl<S> {
    pub values: Items<ExprEl>,
    pub stmts: Items<S>,
}

/// A statement of a body. Go specification, "Statements".
#[derive(Drop)]
pub enum StmtEl {
    Expr(Boxed<ExprEl>),
    /// Each place is a local, or blank.
    Define {
        places: Items<Option<u64>>,
        values: Items<ExprEl>,
    },
    /// Each place is an expression, or blank.
    Assign {
        places: Items<Option<ExprEl>>,
        values: Items<ExprEl>,
    },
    OpAssign {
        op: BinOp,
        place: Boxed<ExprEl>,
        value: Boxed<ExprEl>,
    },
    Block(Items<StmtEl>),
    If {
        condition: Boxed<ExprEl>,
        then: Items<StmtEl>,
        otherwise: Items<StmtEl>,
    },
    For {
        init: Items<StmtEl>,
        condition: Option<Boxed<ExprEl>>,
        post: Items<StmtEl>,
        body: Items<StmtEl>,
    },
    Range {
        places: Boxed<RangeEl>,
        over: Boxed<ExprEl>,
        body: Items<StmtEl>,
    },
    Switch {
        on: Boxed<ExprEl>,
        clauses: Items<ClauseEl<StmtEl>>,
        default: Option<Items<StmtEl>>,
    },
    Return(Items<ExprEl>),
    Break,
    Continue,
}
