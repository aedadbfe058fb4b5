//! If statements. Go specification, "If statements".

ghost use Rattle.std.specs.Prelude.{◌≡◌, IfOk, suc, max};
ghost use Rattle.std.specs.Option.{option_map};
ghost use Rattle.ui_parse.specs.View.{Reads};
ghost use Rattle.ui_ptype.specs.Seen.{see};
ghost use Rattle.ui_tree.specs.StmtView.{stmt_view, maybe_stmt};
ghost use Rattle.ui_tree.specs.Stmt as plain;
ghost use Rattle.ui_stmts.specs.Common.{sized};
ghost use Rattle.ui_stmts.specs.Stmts as spec;
ghost use Rattle.ui_stmts.specs.Stmts.{stmt_readers};
ghost use Rattle.ui_pstmt.specs.Nests.{Nests};
ghost use Rattle.ui_pstmt.specs.Parts as parts;
ghost use Rattle.ui_psimple.specs.Seen.{see_stmt, see_head};
ghost use Rattle.ui_pstmt.specs.Seen.{see_block, see_init};

use crate::braces::BlockSub;
use crate::grammar::{Begun, Statements};
use crate::init::Init;
use std::alloc::Global;
use ui_base::{NoMemory, Spot};
use ui_parse::{Cursor, ParseError};
use ui_pread::expr_of_budget;
use ui_psimple::{Head, StmtSub, header_front, stmt_over};
use ui_ptype::Sub;
use ui_scan::TokenKind;
use ui_tree::{Boxed, StmtTree};

/// An if statement as far as its block.
#[derive(Drop)]
struct Branch {
    spot: Spot,
    init: Init,
    condition: Sub,
    body: BlockSub,
}

// The statement with what follows `else`, so deep, or with nothing.
#[tactic(auto, using(ui_psimple::specs::StmtViews::view_If))]
fn branch_over(
    alloc: Global,
    branch: Branch,
    otherwise: Option<Boxed<StmtTree>>,
    depth: u32,
) -> Result<StmtSub, NoMemory>
    ensures { IfOk result (λ s. see_stmt s ≡ sized
        (plain.branch branch.spot (maybe_stmt (option_map stmt_view branch.init.of))
        (see branch.condition).tree (see_block branch.body).of
        (maybe_stmt (option_map stmt_view otherwise)))
        (suc (max (max branch.init.depth branch.condition.depth) (max branch.body.depth depth)))) }
{
    let Branch {
        spot,
        init,
        condition,
        body,
    } = branch;
    let header = init.depth.max(condition.depth);
    let depth = header.max(body.depth.max(depth));
    let tree = StmtTree::If {
        spot,
        init: init.of,
        condition: condition.tree.into_inner(),
        body: body.of,
        otherwise,
    };
    stmt_over(alloc, tree, depth)
}

impl<F> Statements<F>
where
    F: Fn(Global, &mut Cursor<'_>, u32, Begun) -> Result<StmtSub, ParseError>,
{
    // The statement behind `else` of which so much has been taken.
    fn other_of(
        &self,
        words: &mut Cursor<'_>,
        branch: Branch,
        begun: Begun,
    ) -> Result<StmtSub, ParseError>
        requires { Nests self.now.room (F.pre self.now.nested) (F.post self.now.nested) }
        ensures { Reads see_stmt (parts.other_of self.now.room
            (stmt_readers self.now.room) begun branch.spot
            (see_init self.now.room (stmt_readers self.now.room) branch.init) (see branch.condition)
            (see_block branch.body) words.old) result words.new }
    {
        match self.inner(words, begun) {
            Ok(other) => Ok(branch_over(self.alloc, branch, Some(other.of), other.depth)?),
            Err(fault) => Err(fault),
        }
    }

    // A block behind `else`.
    fn other_block(&self, words: &mut Cursor<'_>, branch: Branch) -> Result<StmtSub, ParseError>
        requires { Nests self.now.room (F.pre self.now.nested) (F.post self.now.nested) }
        ensures { Reads see_stmt (parts.other_block self.now.room
            (stmt_readers self.now.room) branch.spot
            (see_init self.now.room (stmt_readers self.now.room) branch.init) (see branch.condition)
            (see_block branch.body) words.old) result words.new }
    {
        match words.expect(TokenKind::LBrace) {
            Ok(spot) => self.other_of(words, branch, Begun::Brace(spot)),
            Err(fault) => Err(fault),
        }
    }

    // What is behind `else`.
    #[tactic(auto, unfolding(ui_parse::specs::Reader::take_by))]
    fn other_branch(&self, words: &mut Cursor<'_>, branch: Branch) -> Result<StmtSub, ParseError>
        requires { Nests self.now.room (F.pre self.now.nested) (F.post self.now.nested) }
        ensures { Reads see_stmt (parts.other_branch self.now.room
            (stmt_readers self.now.room) branch.spot
            (see_init self.now.room (stmt_readers self.now.room) branch.init) (see branch.condition)
            (see_block branch.body) words.old) result words.new }
    {
        if self.room < 2 {
            return self.other_block(words, branch);
        }
        match words.take(TokenKind::If) {
            Some(spot) => self.other_of(words, branch, Begun::If(spot)),
            None => self.other_block(words, branch),
        }
    }

    // Behind the block.
    #[tactic(auto, unfolding(ui_parse::specs::Reader::take_by))]
    fn behind_body(&self, words: &mut Cursor<'_>, branch: Branch) -> Result<StmtSub, ParseError>
        requires { Nests self.now.room (F.pre self.now.nested) (F.post self.now.nested) }
        ensures { Reads see_stmt (parts.behind_body self.now.room
            (stmt_readers self.now.room) branch.spot
            (see_init self.now.room (stmt_readers self.now.room) branch.init) (see branch.condition)
            (see_block branch.body) words.old) result words.new }
    {
        match words.take(TokenKind::Else) {
            Some(_) => self.other_branch(words, branch),
            None => Ok(branch_over(self.alloc, branch, None, 0)?),
        }
    }

    // The block, and what is behind `else`.
    fn branches(
        &self,
        words: &mut Cursor<'_>,
        spot: Spot,
        init: Init,
        condition: Sub,
    ) -> Result<StmtSub, ParseError>
        requires { Nests self.now.room (F.pre self.now.nested) (F.post self.now.nested) }
        ensures { Reads see_stmt (spec.branches self.now.room (stmt_readers self.now.room) spot
            (see_init self.now.room (stmt_readers self.now.room) init) (see condition) words.old)
            result words.new }
    {
        match self.a_body(words) {
            Ok(body) => {
                let branch = Branch {
                    spot,
                    init,
                    condition,
                    body,
                };
                self.behind_body(words, branch)
            }
            Err(fault) => Err(fault),
        }
    }

    fn condition(
        &self,
        words: &mut Cursor<'_>,
        spot: Spot,
        init: Init,
    ) -> Result<StmtSub, ParseError>
        requires { Nests self.now.room (F.pre self.now.nested) (F.post self.now.nested) }
        ensures { Reads see_stmt (spec.condition self.now.room (stmt_readers self.now.room) spot
            (see_init self.now.room (stmt_readers self.now.room) init) words.old) result words.new }
    {
        match expr_of_budget(self.alloc, words, self.room, true) {
            Ok(condition) => self.branches(words, spot, init, condition),
            Err(fault) => Err(fault),
        }
    }

    // Behind an expression: a semicolon where it leaves room for a statement, or the block.
    #[tactic(auto, unfolding(ui_parse::specs::Reader::take_by))]
    fn branch_on(&self, words: &mut Cursor<'_>, spot: Spot, of: Sub) -> Result<StmtSub, ParseError>
        requires { Nests self.now.room (F.pre self.now.nested) (F.post self.now.nested) }
        ensures { Reads see_stmt (parts.branch_on self.now.room (stmt_readers self.now.room) spot
            (see of) words.old) result words.new }
    {
        if of.depth < self.room && words.take(TokenKind::Semi).is_some() {
            return match self.alone_init(of) {
                Ok(init) => self.condition(words, spot, init),
                Err(_) => Err(ParseError::NoMemory),
            };
        }
        let init = self.no_init();
        self.branches(words, spot, init, of)
    }

    fn branch_behind(
        &self,
        words: &mut Cursor<'_>,
        spot: Spot,
        head: Head,
    ) -> Result<StmtSub, ParseError>
        requires { Nests self.now.room (F.pre self.now.nested) (F.post self.now.nested) }
        ensures { Reads see_stmt (spec.branch_behind self.now.room (stmt_readers self.now.room) spot
            (see_head head) words.old) result words.new }
    {
        match head {
            Head::Expression(of) => self.branch_on(words, spot, of),
            Head::Statement(stmt) => match words.expect(TokenKind::Semi) {
                Ok(_) => self.condition(words, spot, self.init_of(stmt)),
                Err(fault) => Err(fault),
            },
            Head::Range(_) => Err(ParseError::Fault),
        }
    }

    /// An if statement behind its keyword.
    #[tactic(auto, unfolding(ui_stmts::specs::Stmts::branch_stmt, ui_parse::specs::Reader::take_by))]
    pub(crate) fn branch_stmt(
        &self,
        words: &mut Cursor<'_>,
        spot: Spot,
    ) -> Result<StmtSub, ParseError>
        requires { Nests self.now.room (F.pre self.now.nested) (F.post self.now.nested) }
        ensures { Reads see_stmt (spec.branch_stmt self.now.room
            (stmt_readers self.now.room) spot words.old) result words.new }
    {
        if words.take(TokenKind::Semi).is_some() {
            return match self.empty_init() {
                Ok(init) => self.condition(words, spot, init),
                Err(_) => Err(ParseError::NoMemory),
            };
        }
        match header_front(self.alloc, words, self.room, false) {
            Ok(front) => self.branch_behind(words, spot, front),
            Err(fault) => Err(fault),
        }
    }
}
