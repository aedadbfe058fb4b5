//! Switch statements. Go specification, "Expression switches".

ghost use Rattle.std.specs.Prelude.{◌≡◌, IfOk, suc, max};
ghost use Rattle.std.specs.Option.{option_map};
ghost use Rattle.ui_parse.specs.View.{Reads};
ghost use Rattle.ui_ptype.specs.Seen.{see};
ghost use Rattle.ui_tree.specs.Stmt as plain;
ghost use Rattle.ui_tree.specs.StmtView.{stmt_view, maybe_stmt, maybe_view};
ghost use Rattle.ui_stmts.specs.Common.{sized};
ghost use Rattle.ui_stmts.specs.Stmts as spec;
ghost use Rattle.ui_stmts.specs.Stmts.{stmt_readers};
ghost use Rattle.ui_pstmt.specs.Nests.{Nests};
ghost use Rattle.ui_pstmt.specs.Parts as parts;
ghost use Rattle.ui_psimple.specs.Seen.{see_stmt, see_head};
ghost use Rattle.ui_pstmt.specs.Seen.{see_init, see_clause_list};

use crate::clauses::ClauseList;
use crate::grammar::{Begun, Statements};
use crate::init::Init;
use crate::loops::maybe_expr;
use std::alloc::Global;
use ui_base::{NoMemory, Spot};
use ui_parse::{Cursor, ParseError};
use ui_psimple::{Deep, Head, StmtSub, header_front, or_none, stmt_over};
use ui_ptype::Sub;
use ui_scan::TokenKind;
use ui_tree::{ExprTree, StmtTree};

#[tactic(auto, using(ui_psimple::specs::StmtViews::view_Switch))]
fn switch_over(
    alloc: Global,
    spot: Spot,
    init: Init,
    on: Deep<Option<ExprTree>>,
    clauses: ClauseList,
) -> Result<StmtSub, NoMemory>
    ensures { IfOk result (λ s. see_stmt s ≡ sized
        (plain.switch spot (maybe_stmt (option_map stmt_view init.of)) (maybe_view on.of)
        (see_clause_list clauses).of) (suc (max (max init.depth on.depth) clauses.depth))) }
{
    let header = init.depth.max(on.depth);
    let depth = header.max(clauses.depth);
    let tree = StmtTree::Switch {
        spot,
        init: init.of,
        on: on.of,
        clauses: clauses.of,
    };
    stmt_over(alloc, tree, depth)
}

// The front of a header, which has so much room, or none.
fn maybe_head(alloc: Global, words: &mut Cursor<'_>, room: u32) -> Result<Option<Head>, ParseError>
    ensures { Reads (option_map see_head) (parts.maybe_head room words.old) result words.new }
{
    let start = words.fork();
    let read = header_front(alloc, words, room, false);
    or_none(words, start, read)
}

impl<F> Statements<F>
where
    F: Fn(Global, &mut Cursor<'_>, u32, Begun) -> Result<StmtSub, ParseError>,
{
    fn switch_with(
        &self,
        spot: Spot,
        init: Init,
        on: Option<Sub>,
        clauses: ClauseList,
    ) -> Result<StmtSub, NoMemory>
        ensures { IfOk result (λ s. see_stmt s
            ≡ parts.switch_with self.now.room (stmt_readers self.now.room) spot
            (see_init self.now.room (stmt_readers self.now.room) init) (option_map see on)
            (see_clause_list clauses)) }
    {
        let on = self.tree_of(on);
        switch_over(self.alloc, spot, init, on, clauses)
    }

    // The clauses in braces.
    fn switch_of(
        &self,
        words: &mut Cursor<'_>,
        spot: Spot,
        init: Init,
        on: Option<Sub>,
    ) -> Result<StmtSub, ParseError>
        requires { Nests self.now.room (F.pre self.now.nested) (F.post self.now.nested) }
        ensures { Reads see_stmt (spec.switch_of self.now.room (stmt_readers self.now.room) spot
            (see_init self.now.room (stmt_readers self.now.room) init)
            (option_map see on) words.old) result words.new }
    {
        match words.expect(TokenKind::LBrace) {
            Ok(_) => match self.clauses(words) {
                Ok(clauses) => Ok(self.switch_with(spot, init, on, clauses)?),
                Err(fault) => Err(fault),
            },
            Err(fault) => Err(fault),
        }
    }

    // Behind what stands before the value.
    fn tagged(&self, words: &mut Cursor<'_>, spot: Spot, init: Init) -> Result<StmtSub, ParseError>
        requires { Nests self.now.room (F.pre self.now.nested) (F.post self.now.nested) }
        ensures { Reads see_stmt (spec.tagged self.now.room (stmt_readers self.now.room) spot
            (see_init self.now.room (stmt_readers self.now.room) init) words.old) result words.new }
    {
        match maybe_expr(self.alloc, words, self.room) {
            Ok(on) => self.switch_of(words, spot, init, on),
            Err(fault) => Err(fault),
        }
    }

    // Behind an expression: a semicolon where it leaves room for a statement, or the clauses.
    #[tactic(auto, unfolding(ui_parse::specs::Reader::take_by))]
    fn switch_on(&self, words: &mut Cursor<'_>, spot: Spot, of: Sub) -> Result<StmtSub, ParseError>
        requires { Nests self.now.room (F.pre self.now.nested) (F.post self.now.nested) }
        ensures { Reads see_stmt (parts.switch_on self.now.room (stmt_readers self.now.room) spot
            (see of) words.old) result words.new }
    {
        if of.depth < self.room && words.take(TokenKind::Semi).is_some() {
            return match self.alone_init(of) {
                Ok(init) => self.tagged(words, spot, init),
                Err(_) => Err(ParseError::NoMemory),
            };
        }
        let init = self.no_init();
        self.switch_of(words, spot, init, Some(of))
    }

    fn switch_behind(
        &self,
        words: &mut Cursor<'_>,
        spot: Spot,
        head: Option<Head>,
    ) -> Result<StmtSub, ParseError>
        requires { Nests self.now.room (F.pre self.now.nested) (F.post self.now.nested) }
        ensures { Reads see_stmt (spec.maybe_head self.now.room (stmt_readers self.now.room)
            (option_map see_head head) spot words.old) result words.new }
    {
        let Some(head) = head else {
            let init = self.no_init();
            return self.switch_of(words, spot, init, None);
        };
        match head {
            Head::Expression(of) => self.switch_on(words, spot, of),
            Head::Statement(stmt) => match words.expect(TokenKind::Semi) {
                Ok(_) => self.tagged(words, spot, self.init_of(stmt)),
                Err(fault) => Err(fault),
            },
            Head::Range(_) => Err(ParseError::Fault),
        }
    }

    /// A switch statement behind its keyword.
    #[tactic(auto, unfolding(ui_stmts::specs::Stmts::switch_stmt, ui_parse::specs::Reader::take_by))]
    pub(crate) fn switch_stmt(
        &self,
        words: &mut Cursor<'_>,
        spot: Spot,
    ) -> Result<StmtSub, ParseError>
        requires { Nests self.now.room (F.pre self.now.nested) (F.post self.now.nested) }
        ensures { Reads see_stmt (spec.switch_stmt self.now.room
            (stmt_readers self.now.room) spot words.old) result words.new }
    {
        if self.room == 0 {
            let init = self.no_init();
            return self.switch_of(words, spot, init, None);
        }
        if words.take(TokenKind::Semi).is_some() {
            return match self.empty_init() {
                Ok(init) => self.tagged(words, spot, init),
                Err(_) => Err(ParseError::NoMemory),
            };
        }
        match maybe_head(self.alloc, words, self.room) {
            Ok(front) => self.switch_behind(words, spot, front),
            Err(fault) => Err(fault),
        }
    }
}
