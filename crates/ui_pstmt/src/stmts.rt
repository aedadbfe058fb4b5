//! Statements, by their first word. Go specification, "Statements".

ghost use Rattle.std.specs.Prelude.{◌≡◌, IfOk, suc};
ghost use Rattle.std.specs.Option.{option_map};
ghost use Rattle.ui_parse.specs.View.{Reads};
ghost use Rattle.ui_ptype.specs.Seen.{see_all};
ghost use Rattle.ui_tree.specs.StmtView.{common_view};
ghost use Rattle.ui_tree.specs.Stmt as plain;
ghost use Rattle.ui_tree.specs.View.{trees};
ghost use Rattle.ui_stmts.specs.Common.{sized};
ghost use Rattle.ui_stmts.specs.Stmts as spec;
ghost use Rattle.ui_stmts.specs.Stmts.{stmt_readers, next_stmt};
ghost use Rattle.ui_pstmt.specs.Nests.{Nests, stmt_in};
ghost use Rattle.ui_pstmt.specs.Parts as parts;
ghost use Rattle.ui_psimple.specs.Seen.{see_deep, see_stmt};

use crate::grammar::{Begun, Statements};
use std::alloc::Global;
use ui_base::{NoMemory, Spot};
use ui_parse::{Cursor, ParseError};
use ui_psimple::{
    Deep, StmtSub, constant_decl, exprs, or_none, simple_stmt, stmt_over, variable_decl,
};
use ui_ptype::Subs;
use ui_scan::TokenKind;
use ui_tree::{CommonTree, StmtTree};

#[tactic(auto, using(ui_psimple::specs::StmtViews::view_Return))]
fn return_over(alloc: Global, spot: Spot, values: Subs) -> Result<StmtSub, NoMemory>
    ensures { IfOk result (λ s. see_stmt s ≡ sized
        (plain.returning spot (plain.given_trees (trees (see_all values).items)))
        (suc values.depth)) }
{
    let depth = values.depth;
    let tree = StmtTree::Return {
        spot,
        values: Some(values.items),
    };
    stmt_over(alloc, tree, depth)
}

#[tactic(auto, using(ui_psimple::specs::StmtViews::view_Return))]
fn return_alone(alloc: Global, spot: Spot) -> Result<StmtSub, NoMemory>
    ensures { IfOk result (λ s. see_stmt s ≡ sized (plain.returning spot plain.no_trees) 1) }
{
    stmt_over(alloc, StmtTree::Return { spot, values: None }, 0)
}

fn maybe_exprs(alloc: Global, words: &mut Cursor<'_>, room: u32) -> Result<Option<Subs>, ParseError>
    ensures { Reads (option_map see_all) (parts.maybe_exprs room words.old) result words.new }
{
    let start = words.fork();
    let read = exprs(alloc, words, room, false);
    or_none(words, start, read)
}

// Behind `return`.
fn return_stmt(
    alloc: Global,
    words: &mut Cursor<'_>,
    room: u32,
    spot: Spot,
) -> Result<StmtSub, ParseError>
    ensures { Reads see_stmt (parts.return_stmt room (stmt_readers room) spot words.old) result
        words.new }
{
    match maybe_exprs(alloc, words, room) {
        Ok(Some(values)) => Ok(return_over(alloc, spot, values)?),
        Ok(None) => Ok(return_alone(alloc, spot)?),
        Err(fault) => Err(fault),
    }
}

#[tactic(auto, using(ui_psimple::specs::StmtViews::view_Common))]
fn common_over(alloc: Global, of: Deep<CommonTree>) -> Result<StmtSub, NoMemory>
    ensures { IfOk result (λ s. see_stmt s ≡ sized (plain.common (see_deep common_view of).of)
        (suc of.depth)) }
{
    stmt_over(alloc, StmtTree::Common(of.of), of.depth)
}

// Constants, or a simple statement.
#[tactic(auto, unfolding(ui_parse::specs::Reader::take_by))]
fn constant_or_simple(
    alloc: Global,
    words: &mut Cursor<'_>,
    room: u32,
) -> Result<StmtSub, ParseError>
    ensures { Reads see_stmt (parts.constant_or_simple room (stmt_readers room) words.old) result
        words.new }
{
    match words.take(TokenKind::Const) {
        Some(spot) => match constant_decl(alloc, words, room, spot) {
            Ok(specs) => Ok(common_over(alloc, specs)?),
            Err(fault) => Err(fault),
        },
        None => simple_stmt(alloc, words, room, false),
    }
}

// Variables, behind the keyword at the spot.
fn variables(
    alloc: Global,
    words: &mut Cursor<'_>,
    room: u32,
    spot: Spot,
) -> Result<StmtSub, ParseError>
    ensures { Reads see_stmt (parts.variables room (stmt_readers room) spot words.old) result
        words.new }
{
    match variable_decl(alloc, words, room, spot) {
        Ok(specs) => Ok(common_over(alloc, specs)?),
        Err(fault) => Err(fault),
    }
}

impl<F> Statements<F>
where
    F: Fn(Global, &mut Cursor<'_>, u32, Begun) -> Result<StmtSub, ParseError>,
{
    // A statement whose first word is none of those that need room.
    #[tactic(auto, using(ui_psimple::specs::StmtViews::view_Break, ui_psimple::specs::StmtViews::view_Continue), unfolding(ui_parse::specs::Reader::take_by))]
    fn plain_stmt(&self, words: &mut Cursor<'_>) -> Result<StmtSub, ParseError>
        requires { Nests self.now.room (F.pre self.now.nested) (F.post self.now.nested) }
        ensures { Reads see_stmt (spec.plain_stmt self.now.room
            (stmt_readers self.now.room) words.old) result words.new }
    {
        if let Some(spot) = words.take(TokenKind::Return) {
            return return_stmt(self.alloc, words, self.room, spot);
        }
        if let Some(spot) = words.take(TokenKind::Break) {
            return Ok(stmt_over(self.alloc, StmtTree::Break { spot }, 0)?);
        }
        if let Some(spot) = words.take(TokenKind::Continue) {
            return Ok(stmt_over(self.alloc, StmtTree::Continue { spot }, 0)?);
        }
        if let Some(spot) = words.take(TokenKind::For) {
            return self.for_stmt(words, spot);
        }
        match words.take(TokenKind::Switch) {
            Some(spot) => self.switch_stmt(words, spot),
            None => constant_or_simple(self.alloc, words, self.room),
        }
    }

    // An if statement, where there is room for its condition, or another.
    #[tactic(auto, unfolding(ui_parse::specs::Reader::take_by))]
    fn branch_or_plain(&self, words: &mut Cursor<'_>) -> Result<StmtSub, ParseError>
        requires { Nests self.now.room (F.pre self.now.nested) (F.post self.now.nested) }
        ensures { Reads see_stmt (parts.branch_or_plain self.now.room
            (stmt_readers self.now.room) words.old) result words.new }
    {
        if self.room == 0 {
            return self.plain_stmt(words);
        }
        match words.take(TokenKind::If) {
            Some(spot) => self.branch_stmt(words, spot),
            None => self.plain_stmt(words),
        }
    }

    #[tactic(auto, unfolding(ui_stmts::specs::Stmts::stmt, ui_parse::specs::Reader::take_by))]
    fn own_stmt(&self, words: &mut Cursor<'_>) -> Result<StmtSub, ParseError>
        requires { Nests self.now.room (F.pre self.now.nested) (F.post self.now.nested) }
        ensures { Reads see_stmt (spec.stmt self.now.room (stmt_readers self.now.room) words.old)
            result words.new }
    {
        if let Some(spot) = words.take(TokenKind::LBrace) {
            return self.block_stmt(words, spot);
        }
        match words.take(TokenKind::Var) {
            Some(spot) => variables(self.alloc, words, self.room, spot),
            None => self.branch_or_plain(words),
        }
    }

    /// A statement of which so much has been taken.
    pub(crate) fn begun(&self, words: &mut Cursor<'_>, begun: Begun) -> Result<StmtSub, ParseError>
        requires { Nests self.now.room (F.pre self.now.nested) (F.post self.now.nested) }
        ensures { Reads see_stmt (stmt_in (next_stmt self.now.room (stmt_readers self.now.room))
            begun words.old) result words.new }
    {
        match begun {
            Begun::Nothing => self.own_stmt(words),
            Begun::If(spot) => self.branch_stmt(words, spot),
            Begun::Brace(spot) => self.block_stmt(words, spot),
        }
    }
}
