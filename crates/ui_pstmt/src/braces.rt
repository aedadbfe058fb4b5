//! Statements in braces. Go specification, "Blocks".

ghost use Rattle.std.specs.Prelude.{◌≡◌, IfOk, suc};
ghost use Rattle.std.specs.Option.{option_map};
ghost use Rattle.ui_parse.specs.View.{Reads};
ghost use Rattle.ui_stmts.specs.Stmts as spec;
ghost use Rattle.ui_stmts.specs.Stmts.{stmt_readers};
ghost use Rattle.ui_tree.specs.StmtView.{block_view};
ghost use Rattle.ui_pstmt.specs.Nests.{Nests};
ghost use Rattle.ui_psimple.specs.Seen.{see_stmt};
ghost use Rattle.ui_pstmt.specs.Seen.{see_stmts, see_block, see_body_turn};
ghost use Rattle.ui_pstmt.specs.Turns as turns;
ghost use Rattle.ui_psimple.specs.Parts.{no_statement};
ghost use Rattle.ui_stmts.specs.Common.{sized};
ghost use Rattle.ui_tree.specs.Stmt.{block};

use crate::grammar::{Begun, Statements};
use std::alloc::Global;
use ui_base::{NoMemory, Spot};
use ui_parse::{Cursor, ParseError};
use ui_psimple::{Deep, StmtSub, empty_stmt, stmt_over};
use ui_scan::TokenKind;
use ui_tree::{Block, Items, StmtTree};

/// Statements one after the other, with the greatest depth.
pub(crate) type StmtSubs = Deep<Items<StmtTree>>;

/// Statements in braces, with their depth.
pub type BlockSub = Deep<Block<StmtTree>>;

/// How a turn ends: at the closing brace, or before one more statement.
#[derive(Drop)]
enum BodyTurn {
    Closed { all: StmtSubs, close: Spot },
    More(StmtSubs),
}

fn add_stmt(all: StmtSubs, stmt: StmtSub) -> Result<StmtSubs, NoMemory>
    ensures { IfOk result (λ l. see_stmts l ≡ turns.added (see_stmts all) (see_stmt stmt)) }
{
    all.add(stmt.of.into_inner(), stmt.depth)
}

// One more statement without words.
fn add_empty(alloc: Global, all: StmtSubs) -> Result<StmtSubs, NoMemory>
    ensures { IfOk result (λ l. see_stmts l ≡ turns.added (see_stmts all) no_statement) }
{
    match empty_stmt(alloc) {
        Ok(empty) => add_stmt(all, empty),
        Err(fault) => Err(fault),
    }
}

// The statement of a block.
#[tactic(auto, using(ui_psimple::specs::StmtViews::view_Block))]
fn block_over(alloc: Global, body: BlockSub) -> Result<StmtSub, NoMemory>
    ensures { IfOk result (λ s. see_stmt s ≡ sized (block (see_block body).of) (suc body.depth)) }
{
    stmt_over(alloc, StmtTree::Block(body.of), body.depth)
}

impl<F> Statements<F>
where
    F: Fn(Global, &mut Cursor<'_>, u32, Begun) -> Result<StmtSub, ParseError>,
{
    // Behind a statement with words: a semicolon, which may be left out before the brace.
    #[tactic(auto, unfolding(ui_parse::specs::Reader::take_by))]
    fn behind_words(&self, words: &mut Cursor<'_>, all: StmtSubs) -> Result<BodyTurn, ParseError>
        ensures { Reads (see_body_turn self.now.room (stmt_readers self.now.room))
            (turns.behind_words self.now.room (stmt_readers self.now.room)
            (see_stmts all) words.old) result words.new }
    {
        if words.take(TokenKind::Semi).is_some() {
            return Ok(BodyTurn::More(all));
        }
        match words.expect(TokenKind::RBrace) {
            Ok(close) => Ok(BodyTurn::Closed { all, close }),
            Err(fault) => Err(fault),
        }
    }

    // Behind a statement, or none, where a semicolon has to come.
    #[tactic(auto, unfolding(ui_parse::specs::Reader::take_by))]
    fn behind_stmt(
        &self,
        words: &mut Cursor<'_>,
        all: StmtSubs,
        stmt: Option<StmtSub>,
    ) -> Result<BodyTurn, ParseError>
        ensures { Reads (see_body_turn self.now.room (stmt_readers self.now.room))
            (turns.behind_stmt self.now.room (stmt_readers self.now.room) (see_stmts all)
            (option_map see_stmt stmt) words.old) result words.new }
    {
        if let Some(stmt) = stmt {
            return match add_stmt(all, stmt) {
                Ok(all) => self.behind_words(words, all),
                Err(_) => Err(ParseError::NoMemory),
            };
        }
        if words.take(TokenKind::Semi).is_none() {
            return Err(ParseError::Fault);
        }
        match add_empty(self.alloc, all) {
            Ok(all) => Ok(BodyTurn::More(all)),
            Err(_) => Err(ParseError::NoMemory),
        }
    }

    // The brace, or a statement and what is behind it.
    #[tactic(auto, unfolding(ui_parse::specs::Reader::take_by))]
    fn body_turn(&self, words: &mut Cursor<'_>, all: StmtSubs) -> Result<BodyTurn, ParseError>
        requires { Nests self.now.room (F.pre self.now.nested) (F.post self.now.nested) }
        ensures { Reads (see_body_turn self.now.room (stmt_readers self.now.room))
            (turns.body_turn self.now.room (stmt_readers self.now.room) (see_stmts all) words.old)
            result words.new }
    {
        if let Some(close) = words.take(TokenKind::RBrace) {
            return Ok(BodyTurn::Closed { all, close });
        }
        if self.room == 0 {
            return Err(ParseError::Fault);
        }
        match self.maybe_inner(words) {
            Ok(stmt) => self.behind_stmt(words, all, stmt),
            Err(fault) => Err(fault),
        }
    }

    /// Statements behind the brace at the spot, up to the closing one.
    pub(crate) fn body(&self, words: &mut Cursor<'_>, spot: Spot) -> Result<BlockSub, ParseError>
        requires { Nests self.now.room (F.pre self.now.nested) (F.post self.now.nested) }
        ensures { Reads see_block (spec.body self.now.room
            (stmt_readers self.now.room) spot words.old) result words.new }
    {
        let mut all: StmtSubs = Deep::empty(self.alloc);
        // Each turn takes a word.
        let mut turns = words.left();
        loop {
            match self.body_turn(words, all) {
                Ok(BodyTurn::Closed { all: last, close }) => return Ok(block_of(spot, last, close)),
                Ok(BodyTurn::More(next)) => all = next,
                Err(fault) => return Err(fault),
            }
            if turns == 0 {
                return Err(ParseError::Fault);
            }
            turns -= 1;
        }
    }

    /// Statements in braces.
    #[tactic(auto, unfolding(ui_stmts::specs::Stmts::a_body))]
    pub(crate) fn a_body(&self, words: &mut Cursor<'_>) -> Result<BlockSub, ParseError>
        requires { Nests self.now.room (F.pre self.now.nested) (F.post self.now.nested) }
        ensures { Reads see_block (spec.a_body self.now.room (stmt_readers self.now.room) words.old)
            result words.new }
    {
        let spot = words.expect(TokenKind::LBrace)?;
        self.body(words, spot)
    }

    /// A block behind its brace, as a statement.
    #[tactic(auto, unfolding(ui_stmts::specs::Stmts::block_stmt))]
    pub(crate) fn block_stmt(
        &self,
        words: &mut Cursor<'_>,
        spot: Spot,
    ) -> Result<StmtSub, ParseError>
        requires { Nests self.now.room (F.pre self.now.nested) (F.post self.now.nested) }
        ensures { Reads see_stmt (spec.block_stmt self.now.room
            (stmt_readers self.now.room) spot words.old) result words.new }
    {
        match self.body(words, spot) {
            Ok(body) => Ok(block_over(self.alloc, body)?),
            Err(fault) => Err(fault),
        }
    }
}

fn block_of(spot: Spot, all: StmtSubs, close: Spot) -> BlockSub
    ensures { see_block result ≡ turns.block_of spot (see_stmts all) close }
{
    Deep {
        of: Block {
            spot,
            stmts: all.of,
            close,
        },
        depth: all.depth,
    }
}
