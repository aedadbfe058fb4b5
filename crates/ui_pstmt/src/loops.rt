//! For statements. Go specification, "For statements".

ghost use Rattle.std.specs.Prelude.{◌≡◌, IfOk, suc, max};
ghost use Rattle.std.specs.Option.{option_map};
ghost use Rattle.ui_parse.specs.View.{Reads};
ghost use Rattle.ui_ptype.specs.Seen.{see};
ghost use Rattle.ui_tree.specs.StmtView.{places_view, maybe_view};
ghost use Rattle.ui_tree.specs.Stmt as plain;
ghost use Rattle.ui_stmts.specs.Common.{sized};
ghost use Rattle.ui_stmts.specs.Stmts as spec;
ghost use Rattle.ui_stmts.specs.Stmts.{stmt_readers};
ghost use Rattle.ui_pstmt.specs.Nests.{Nests};
ghost use Rattle.ui_pstmt.specs.Parts as parts;
ghost use Rattle.ui_psimple.specs.Seen.{see_deep, see_stmt, see_head};
ghost use Rattle.ui_pstmt.specs.Seen.{see_block};

use crate::braces::BlockSub;
use crate::grammar::{Begun, Statements};
use std::alloc::Global;
use ui_base::{NoMemory, Spot};
use ui_parse::{Cursor, ParseError};
use ui_pread::expr_of_budget;
use ui_psimple::{
    Deep, Head, StmtSub, alone, empty_stmt, header_front, maybe_simple, or_none, stmt_over,
};
use ui_ptype::Sub;
use ui_scan::TokenKind;
use ui_tree::{ExprTree, RangePlaces, StmtTree};

/// An expression in a header, which has so much room, or none.
pub(crate) fn maybe_expr(
    alloc: Global,
    words: &mut Cursor<'_>,
    room: u32,
) -> Result<Option<Sub>, ParseError>
    ensures { Reads (option_map see) (parts.maybe_expr room words.old) result words.new }
{
    let start = words.fork();
    let read = expr_of_budget(alloc, words, room, true);
    or_none(words, start, read)
}

#[tactic(auto, using(ui_psimple::specs::StmtViews::view_For))]
fn counting_over(
    alloc: Global,
    spot: Spot,
    init: StmtSub,
    condition: Deep<Option<ExprTree>>,
    post: StmtSub,
    body: BlockSub,
) -> Result<StmtSub, NoMemory>
    ensures { IfOk result (λ s. see_stmt s ≡ sized
        (plain.counting spot (see_stmt init).of (maybe_view condition.of) (see_stmt post).of
        (see_block body).of) (suc (max (max init.depth condition.depth)
        (max post.depth body.depth)))) }
{
    let header = init.depth.max(condition.depth);
    let depth = header.max(post.depth.max(body.depth));
    let tree = StmtTree::For {
        spot,
        init: init.of,
        condition: condition.of,
        post: post.of,
        body: body.of,
    };
    stmt_over(alloc, tree, depth)
}

#[tactic(auto, using(ui_psimple::specs::StmtViews::view_Range))]
fn range_over(
    alloc: Global,
    spot: Spot,
    places: Deep<Option<RangePlaces>>,
    over: Sub,
    body: BlockSub,
) -> Result<StmtSub, NoMemory>
    ensures { IfOk result (λ s. see_stmt s ≡ sized
        (plain.ranging spot (see_deep places_view places).of (see over).tree (see_block body).of)
        (suc (max (max places.depth over.depth) body.depth))) }
{
    let header = places.depth.max(over.depth);
    let depth = header.max(body.depth);
    let tree = StmtTree::Range {
        spot,
        places: places.of,
        over: over.tree.into_inner(),
        body: body.of,
    };
    stmt_over(alloc, tree, depth)
}

#[tactic(auto, using(ui_psimple::specs::StmtViews::view_While))]
fn while_over(
    alloc: Global,
    spot: Spot,
    condition: Sub,
    body: BlockSub,
) -> Result<StmtSub, NoMemory>
    ensures { IfOk result (λ s. see_stmt s ≡ sized
        (plain.while_true spot (see condition).tree (see_block body).of)
        (suc (max condition.depth body.depth))) }
{
    let depth = condition.depth.max(body.depth);
    let tree = StmtTree::While {
        spot,
        condition: condition.tree.into_inner(),
        body: body.of,
    };
    stmt_over(alloc, tree, depth)
}

#[tactic(auto, using(ui_psimple::specs::StmtViews::view_Loop))]
fn loop_over(alloc: Global, spot: Spot, body: BlockSub) -> Result<StmtSub, NoMemory>
    ensures { IfOk result (λ s. see_stmt s ≡ sized (plain.loop spot (see_block body).of)
        (suc body.depth)) }
{
    let depth = body.depth;
    let tree = StmtTree::Loop {
        spot,
        body: body.of,
    };
    stmt_over(alloc, tree, depth)
}

impl<F> Statements<F>
where
    F: Fn(Global, &mut Cursor<'_>, u32, Begun) -> Result<StmtSub, ParseError>,
{
    /// The tree of an expression, with its depth, or none.
    pub(crate) fn tree_of(&self, of: Option<Sub>) -> Deep<Option<ExprTree>>
        ensures tree { maybe_view result.of ≡ spec.maybe_tree self.now.room
            (stmt_readers self.now.room) (option_map see of) }
        ensures depth { result.depth ≡ spec.tree_depth self.now.room (stmt_readers self.now.room)
            (option_map see of) }
    {
        match of {
            Some(of) => Deep {
                of: Some(of.tree.into_inner()),
                depth: of.depth,
            },
            None => Deep { of: None, depth: 0 },
        }
    }

    fn or_empty(&self, stmt: Option<StmtSub>) -> Result<StmtSub, NoMemory>
        ensures { IfOk result (λ s. see_stmt s
            ≡ spec.or_empty self.now.room (stmt_readers self.now.room) (option_map see_stmt stmt)) }
    {
        match stmt {
            Some(stmt) => Ok(stmt),
            None => empty_stmt(self.alloc),
        }
    }

    fn counting_of(
        &self,
        spot: Spot,
        init: StmtSub,
        condition: Option<Sub>,
        post: Option<StmtSub>,
        body: BlockSub,
    ) -> Result<StmtSub, NoMemory>
        ensures { IfOk result (λ s. see_stmt s
            ≡ spec.counting_of self.now.room (stmt_readers self.now.room) spot (see_stmt init)
            (option_map see condition) (spec.or_empty self.now.room (stmt_readers self.now.room)
            (option_map see_stmt post)) (see_block body)) }
    {
        match self.or_empty(post) {
            Ok(post) => {
                let condition = self.tree_of(condition);
                counting_over(self.alloc, spot, init, condition, post, body)
            }
            Err(fault) => Err(fault),
        }
    }

    // Behind a header.
    fn counted_body(
        &self,
        words: &mut Cursor<'_>,
        spot: Spot,
        init: StmtSub,
        condition: Option<Sub>,
        post: Option<StmtSub>,
    ) -> Result<StmtSub, ParseError>
        requires { Nests self.now.room (F.pre self.now.nested) (F.post self.now.nested) }
        ensures { Reads see_stmt (parts.counted_body self.now.room (stmt_readers self.now.room) spot
            (see_stmt init) (option_map see condition) (option_map see_stmt post) words.old) result
            words.new }
    {
        match self.a_body(words) {
            Ok(body) => Ok(self.counting_of(spot, init, condition, post, body)?),
            Err(fault) => Err(fault),
        }
    }

    // The second semicolon of a header, and what is behind it.
    fn counted_on(
        &self,
        words: &mut Cursor<'_>,
        spot: Spot,
        init: StmtSub,
        condition: Option<Sub>,
    ) -> Result<StmtSub, ParseError>
        requires { Nests self.now.room (F.pre self.now.nested) (F.post self.now.nested) }
        ensures { Reads see_stmt (parts.counted_on self.now.room (stmt_readers self.now.room) spot
            (see_stmt init) (option_map see condition) words.old) result words.new }
    {
        match words.expect(TokenKind::Semi) {
            Ok(_) => match maybe_simple(self.alloc, words, self.room) {
                Ok(post) => self.counted_body(words, spot, init, condition, post),
                Err(fault) => Err(fault),
            },
            Err(fault) => Err(fault),
        }
    }

    // Behind the first semicolon of a header.
    #[tactic(auto, unfolding(ui_stmts::specs::Stmts::counted))]
    fn counted(
        &self,
        words: &mut Cursor<'_>,
        spot: Spot,
        init: StmtSub,
    ) -> Result<StmtSub, ParseError>
        requires { Nests self.now.room (F.pre self.now.nested) (F.post self.now.nested) }
        ensures { Reads see_stmt (spec.counted self.now.room (stmt_readers self.now.room) spot
            (see_stmt init) words.old) result words.new }
    {
        match maybe_expr(self.alloc, words, self.room) {
            Ok(condition) => self.counted_on(words, spot, init, condition),
            Err(fault) => Err(fault),
        }
    }

    // Behind `range`.
    #[tactic(auto, unfolding(ui_stmts::specs::Stmts::ranged))]
    fn ranged(
        &self,
        words: &mut Cursor<'_>,
        spot: Spot,
        places: Deep<Option<RangePlaces>>,
    ) -> Result<StmtSub, ParseError>
        requires { Nests self.now.room (F.pre self.now.nested) (F.post self.now.nested) }
        ensures { Reads see_stmt (spec.ranged self.now.room (stmt_readers self.now.room) spot
            (see_deep places_view places) words.old) result words.new }
    {
        match expr_of_budget(self.alloc, words, self.room, true) {
            Ok(over) => match self.a_body(words) {
                Ok(body) => Ok(range_over(self.alloc, spot, places, over, body)?),
                Err(fault) => Err(fault),
            },
            Err(fault) => Err(fault),
        }
    }

    fn while_of(
        &self,
        words: &mut Cursor<'_>,
        spot: Spot,
        condition: Sub,
    ) -> Result<StmtSub, ParseError>
        requires { Nests self.now.room (F.pre self.now.nested) (F.post self.now.nested) }
        ensures { Reads see_stmt (spec.while_of self.now.room (stmt_readers self.now.room) spot
            (see condition) words.old) result words.new }
    {
        match self.a_body(words) {
            Ok(body) => Ok(while_over(self.alloc, spot, condition, body)?),
            Err(fault) => Err(fault),
        }
    }

    // Behind an expression: a semicolon where it leaves room for a statement, or the block.
    #[tactic(auto, unfolding(ui_parse::specs::Reader::take_by))]
    fn loop_on(&self, words: &mut Cursor<'_>, spot: Spot, of: Sub) -> Result<StmtSub, ParseError>
        requires { Nests self.now.room (F.pre self.now.nested) (F.post self.now.nested) }
        ensures { Reads see_stmt (parts.loop_on self.now.room (stmt_readers self.now.room) spot
            (see of) words.old) result words.new }
    {
        if of.depth < self.room && words.take(TokenKind::Semi).is_some() {
            return match alone(self.alloc, of) {
                Ok(init) => self.counted(words, spot, init),
                Err(_) => Err(ParseError::NoMemory),
            };
        }
        self.while_of(words, spot, of)
    }

    fn for_behind(
        &self,
        words: &mut Cursor<'_>,
        spot: Spot,
        head: Head,
    ) -> Result<StmtSub, ParseError>
        requires { Nests self.now.room (F.pre self.now.nested) (F.post self.now.nested) }
        ensures { Reads see_stmt (spec.for_behind self.now.room (stmt_readers self.now.room) spot
            (see_head head) words.old) result words.new }
    {
        match head {
            Head::Expression(of) => self.loop_on(words, spot, of),
            Head::Statement(init) => match words.expect(TokenKind::Semi) {
                Ok(_) => self.counted(words, spot, init),
                Err(fault) => Err(fault),
            },
            Head::Range(places) => self.ranged(words, spot, places),
        }
    }

    #[tactic(auto, unfolding(ui_parse::specs::Reader::take_by))]
    fn for_header(&self, words: &mut Cursor<'_>, spot: Spot) -> Result<StmtSub, ParseError>
        requires { Nests self.now.room (F.pre self.now.nested) (F.post self.now.nested) }
        ensures { Reads see_stmt (spec.for_header self.now.room
            (stmt_readers self.now.room) spot words.old) result words.new }
    {
        if words.take(TokenKind::Range).is_some() {
            return self.ranged(words, spot, Deep { of: None, depth: 0 });
        }
        if words.take(TokenKind::Semi).is_some() {
            return match empty_stmt(self.alloc) {
                Ok(init) => self.counted(words, spot, init),
                Err(_) => Err(ParseError::NoMemory),
            };
        }
        match header_front(self.alloc, words, self.room, true) {
            Ok(front) => self.for_behind(words, spot, front),
            Err(fault) => Err(fault),
        }
    }

    /// A for statement behind its keyword.
    #[tactic(auto, unfolding(ui_stmts::specs::Stmts::for_stmt, ui_parse::specs::Reader::take_by))]
    pub(crate) fn for_stmt(&self, words: &mut Cursor<'_>, spot: Spot) -> Result<StmtSub, ParseError>
        requires { Nests self.now.room (F.pre self.now.nested) (F.post self.now.nested) }
        ensures { Reads see_stmt (spec.for_stmt self.now.room
            (stmt_readers self.now.room) spot words.old) result words.new }
    {
        if let Some(open) = words.take(TokenKind::LBrace) {
            return match self.body(words, open) {
                Ok(body) => Ok(loop_over(self.alloc, spot, body)?),
                Err(fault) => Err(fault),
            };
        }
        if self.room == 0 {
            return Err(ParseError::Fault);
        }
        self.for_header(words, spot)
    }
}
