//! The readers of each budget.

ghost use Rattle.ui_parse.specs.View.{Reads};
ghost use Rattle.ui_stmts.specs.Stmts as spec;
ghost use Rattle.ui_stmts.specs.Stmts.{stmt_readers};
ghost use Rattle.ui_pstmt.specs.Nests.{stmt_in};
ghost use Rattle.ui_psimple.specs.Seen.{see_stmt};
ghost use Rattle.ui_pstmt.specs.Seen.{see_block};

use crate::braces::BlockSub;
use crate::grammar::{Begun, Statements};
use std::alloc::Global;
use ui_parse::{Cursor, ParseError};
use ui_psimple::StmtSub;

/// A statement within the budget, of which so much has been taken.
#[tactic(auto, using(crate::proofs::Budgets::no_stmt, crate::proofs::Budgets::reads_stmt))]
pub fn stmt(
    alloc: Global,
    words: &mut Cursor<'_>,
    budget: u32,
    begun: Begun,
) -> Result<StmtSub, ParseError>
    ensures { Reads see_stmt (stmt_in (stmt_readers budget) begun words.old) result words.new }
{
    if budget == 0 {
        return Err(ParseError::Fault);
    }
    Statements {
        alloc,
        room: budget - 1,
        nested: stmt,
    }
    .begun(words, begun)
}

/// Statements in braces, each within the budget.
pub fn block(alloc: Global, words: &mut Cursor<'_>, budget: u32) -> Result<BlockSub, ParseError>
    ensures { Reads see_block (spec.a_body budget (stmt_readers budget) words.old) result
        words.new }
{
    Statements {
        alloc,
        room: budget,
        nested: stmt,
    }
    .a_body(words)
}
