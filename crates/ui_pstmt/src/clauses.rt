//! The clauses of a switch. Go specification, "Expression switches".

ghost use Rattle.std.specs.Prelude.{◌≡◌, IfOk, map};
ghost use Rattle.std.specs.Option.{option_map};
ghost use Rattle.ui_parse.specs.View.{Reads};
ghost use Rattle.ui_tree.specs.StmtView.{stmt_view, maybe_trees};
ghost use Rattle.ui_stmts.specs.Stmts as spec;
ghost use Rattle.ui_stmts.specs.Stmts.{stmt_readers};
ghost use Rattle.ui_pstmt.specs.Nests.{Nests};
ghost use Rattle.ui_psimple.specs.Seen.{see_stmt};
ghost use Rattle.ui_psimple.specs.Parts.{no_statement};
ghost use Rattle.ui_ptype.specs.Seen.{see_all};
ghost use Rattle.ui_pstmt.specs.Seen.{see_open, see_clauses, see_clause_list, see_clause_turn};
ghost use Rattle.ui_pstmt.specs.Turns as turns;

use crate::grammar::{Begun, Statements};
use std::alloc::Global;
use ui_base::{NoMemory, Spot};
use ui_parse::{Cursor, ParseError, Turn};
use ui_psimple::{Deep, StmtSub, empty_stmt, exprs};
use ui_ptype::Subs;
use ui_scan::TokenKind;
use ui_tree::{Clause, ExprTree, Items, StmtTree};

/// The clauses that were read, with their greatest depth; statements go to the last.
#[derive(Drop)]
struct Clauses {
    closed: Items<Clause<StmtTree>>,
    last: Option<Clause<StmtTree>>,
    depth: u32,
}

/// The clauses of a switch, with their depth.
pub(crate) type ClauseList = Deep<Items<Clause<StmtTree>>>;

// All clauses, with the last.
fn with_last(
    closed: Items<Clause<StmtTree>>,
    last: Option<Clause<StmtTree>>,
) -> Result<Items<Clause<StmtTree>>, NoMemory>
    ensures { IfOk result (λ all. map see_open all
        ≡ spec.with_open (map see_open closed) (option_map see_open last)) }
{
    let mut closed = closed;
    match last {
        Some(last) => match closed.push(last) {
            Ok(()) => Ok(closed),
            Err(fault) => Err(fault),
        },
        None => Ok(closed),
    }
}

// The clause with one more statement, where there is one.
fn into_last(
    last: Option<Clause<StmtTree>>,
    stmt: StmtTree,
) -> Result<Option<Clause<StmtTree>>, NoMemory>
    ensures { IfOk result (λ c. option_map see_open c ≡ spec.into_open (option_map see_open last)
        (stmt_view stmt)) }
{
    match last {
        Some(
            Clause {
                spot,
                values,
                mut stmts,
            },
        ) => match stmts.push(stmt) {
            Ok(()) => Ok(Some(Clause {
                spot,
                values,
                stmts,
            })),
            Err(fault) => Err(fault),
        },
        None => Ok(None),
    }
}

impl Clauses {
    fn new(alloc: Global) -> Clauses
        ensures { see_clauses result ≡ spec.no_clauses }
    {
        Clauses {
            closed: Items::new(alloc),
            last: None,
            depth: 0,
        }
    }

    fn is_open(&self) -> bool
        ensures { result ≡ spec.is_open (see_clauses self.now).open_one }
    {
        self.last.is_some()
    }

    // One more clause, of these values or for all others.
    fn open_clause(
        self,
        alloc: Global,
        spot: Spot,
        values: Option<Items<ExprTree>>,
        depth: u32,
    ) -> Result<Clauses, NoMemory>
        ensures { IfOk result (λ b. see_clauses b ≡ spec.open_clause (see_clauses self) spot
            (maybe_trees values) depth) }
    {
        let Clauses {
            closed,
            last,
            depth: deepest,
        } = self;
        match with_last(closed, last) {
            Ok(closed) => Ok(Clauses {
                closed,
                last: Some(Clause {
                    spot,
                    values,
                    stmts: Items::new(alloc),
                }),
                depth: deepest.max(depth),
            }),
            Err(fault) => Err(fault),
        }
    }

    fn add_stmt(self, stmt: StmtSub) -> Result<Clauses, NoMemory>
        ensures { IfOk result (λ b. see_clauses b
            ≡ turns.added_in (see_clauses self) (see_stmt stmt)) }
    {
        let Clauses {
            closed,
            last,
            depth: deepest,
        } = self;
        let depth = deepest.max(stmt.depth);
        match into_last(last, stmt.of.into_inner()) {
            Ok(last) => Ok(Clauses {
                closed,
                last,
                depth,
            }),
            Err(fault) => Err(fault),
        }
    }

    // One more statement without words.
    fn add_empty(self, alloc: Global) -> Result<Clauses, NoMemory>
        ensures { IfOk result (λ b. see_clauses b
            ≡ turns.added_in (see_clauses self) no_statement) }
    {
        match empty_stmt(alloc) {
            Ok(empty) => self.add_stmt(empty),
            Err(fault) => Err(fault),
        }
    }

    // All of them, at the closing brace.
    #[tactic(auto, using(crate::proofs::ClauseViews::clauses_are))]
    fn into_list(self) -> Result<ClauseList, NoMemory>
        ensures { IfOk result (λ l. see_clause_list l ≡ turns.list_of (see_clauses self)) }
    {
        let Clauses {
            closed,
            last,
            depth,
        } = self;
        match with_last(closed, last) {
            Ok(of) => Ok(Deep { of, depth }),
            Err(fault) => Err(fault),
        }
    }
}

// Behind a statement with words: a semicolon, which may be left out before the brace.
#[tactic(auto, unfolding(ui_parse::specs::Reader::take_by))]
fn behind_words(words: &mut Cursor<'_>, clauses: Clauses) -> Result<Turn<Clauses>, ParseError>
    ensures { Reads see_clause_turn (turns.behind_clause_words (see_clauses clauses) words.old)
        result words.new }
{
    if words.take(TokenKind::Semi).is_some() {
        return Ok(Turn::More(clauses));
    }
    match words.expect(TokenKind::RBrace) {
        Ok(_) => Ok(Turn::Done(clauses)),
        Err(fault) => Err(fault),
    }
}

// Behind `default` at the spot.
fn opened_default(
    alloc: Global,
    words: &mut Cursor<'_>,
    clauses: Clauses,
    spot: Spot,
) -> Result<Turn<Clauses>, ParseError>
    ensures { Reads see_clause_turn (turns.default_opened (see_clauses clauses) spot words.old)
        result words.new }
{
    match words.expect(TokenKind::Colon) {
        Ok(_) => match clauses.open_clause(alloc, spot, None, 0) {
            Ok(clauses) => Ok(Turn::More(clauses)),
            Err(_) => Err(ParseError::NoMemory),
        },
        Err(fault) => Err(fault),
    }
}

// The colon behind the values of a case.
fn opened_values(
    alloc: Global,
    words: &mut Cursor<'_>,
    clauses: Clauses,
    spot: Spot,
    values: Subs,
) -> Result<Turn<Clauses>, ParseError>
    ensures { Reads see_clause_turn (turns.values_opened (see_clauses clauses) spot
        (see_all values) words.old) result words.new }
{
    match words.expect(TokenKind::Colon) {
        Ok(_) => match clauses.open_clause(alloc, spot, Some(values.items), values.depth) {
            Ok(clauses) => Ok(Turn::More(clauses)),
            Err(_) => Err(ParseError::NoMemory),
        },
        Err(fault) => Err(fault),
    }
}

// Behind `case` at the spot.
fn opened_case(
    alloc: Global,
    words: &mut Cursor<'_>,
    room: u32,
    clauses: Clauses,
    spot: Spot,
) -> Result<Turn<Clauses>, ParseError>
    ensures { Reads see_clause_turn (turns.case_opened room (see_clauses clauses) spot words.old)
        result words.new }
{
    match exprs(alloc, words, room, false) {
        Ok(values) => opened_values(alloc, words, clauses, spot, values),
        Err(fault) => Err(fault),
    }
}

impl<F> Statements<F>
where
    F: Fn(Global, &mut Cursor<'_>, u32, Begun) -> Result<StmtSub, ParseError>,
{
    // Behind a statement, or none, where a semicolon has to come.
    #[tactic(auto, unfolding(ui_parse::specs::Reader::take_by))]
    fn behind_clause_stmt(
        &self,
        words: &mut Cursor<'_>,
        clauses: Clauses,
        stmt: Option<StmtSub>,
    ) -> Result<Turn<Clauses>, ParseError>
        ensures { Reads see_clause_turn (turns.behind_clause_stmt self.now.room
            (stmt_readers self.now.room) (see_clauses clauses) (option_map see_stmt stmt) words.old)
            result words.new }
    {
        if let Some(stmt) = stmt {
            return match clauses.add_stmt(stmt) {
                Ok(clauses) => behind_words(words, clauses),
                Err(_) => Err(ParseError::NoMemory),
            };
        }
        if words.take(TokenKind::Semi).is_none() {
            return Err(ParseError::Fault);
        }
        match clauses.add_empty(self.alloc) {
            Ok(clauses) => Ok(Turn::More(clauses)),
            Err(_) => Err(ParseError::NoMemory),
        }
    }

    // A statement of the last clause, and what is behind it.
    #[tactic(auto, unfolding(crate::specs::Turns::stmt_part))]
    fn clause_stmt(
        &self,
        words: &mut Cursor<'_>,
        clauses: Clauses,
    ) -> Result<Turn<Clauses>, ParseError>
        requires { Nests self.now.room (F.pre self.now.nested) (F.post self.now.nested) }
        ensures { Reads see_clause_turn (turns.stmt_part self.now.room (stmt_readers self.now.room)
            (see_clauses clauses) words.old) result words.new }
    {
        if !clauses.is_open() || self.room == 0 {
            return Err(ParseError::Fault);
        }
        match self.maybe_inner(words) {
            Ok(stmt) => self.behind_clause_stmt(words, clauses, stmt),
            Err(fault) => Err(fault),
        }
    }

    // `default`, or a statement.
    #[tactic(auto, unfolding(crate::specs::Turns::default_part, ui_parse::specs::Reader::take_by))]
    fn default_clause(
        &self,
        words: &mut Cursor<'_>,
        clauses: Clauses,
    ) -> Result<Turn<Clauses>, ParseError>
        requires { Nests self.now.room (F.pre self.now.nested) (F.post self.now.nested) }
        ensures { Reads see_clause_turn (turns.default_part self.now.room
            (stmt_readers self.now.room) (see_clauses clauses) words.old) result words.new }
    {
        match words.take(TokenKind::Default) {
            Some(spot) => opened_default(self.alloc, words, clauses, spot),
            None => self.clause_stmt(words, clauses),
        }
    }

    // `case`, or `default` or a statement.
    #[tactic(auto, unfolding(crate::specs::Turns::case_part, ui_parse::specs::Reader::take_by))]
    fn case_clause(
        &self,
        words: &mut Cursor<'_>,
        clauses: Clauses,
    ) -> Result<Turn<Clauses>, ParseError>
        requires { Nests self.now.room (F.pre self.now.nested) (F.post self.now.nested) }
        ensures { Reads see_clause_turn (turns.case_part self.now.room (stmt_readers self.now.room)
            (see_clauses clauses) words.old) result words.new }
    {
        if self.room == 0 {
            return self.default_clause(words, clauses);
        }
        match words.take(TokenKind::Case) {
            Some(spot) => opened_case(self.alloc, words, self.room, clauses, spot),
            None => self.default_clause(words, clauses),
        }
    }

    // The brace, or a part of the clauses.
    #[tactic(auto, unfolding(ui_parse::specs::Reader::take_by))]
    fn clause_turn(
        &self,
        words: &mut Cursor<'_>,
        clauses: Clauses,
    ) -> Result<Turn<Clauses>, ParseError>
        requires { Nests self.now.room (F.pre self.now.nested) (F.post self.now.nested) }
        ensures { Reads see_clause_turn (turns.clause_turn self.now.room
            (stmt_readers self.now.room) (see_clauses clauses) words.old) result words.new }
    {
        match words.take(TokenKind::RBrace) {
            Some(_) => Ok(Turn::Done(clauses)),
            None => self.case_clause(words, clauses),
        }
    }

    // Clauses, up to the closing brace.
    fn all_clauses(&self, words: &mut Cursor<'_>) -> Result<Clauses, ParseError>
        requires { Nests self.now.room (F.pre self.now.nested) (F.post self.now.nested) }
        ensures { Reads see_clauses (turns.all_clauses self.now.room
            (stmt_readers self.now.room) words.old) result words.new }
    {
        let mut clauses = Clauses::new(self.alloc);
        // Each turn takes a word.
        let mut turns = words.left();
        loop {
            match self.clause_turn(words, clauses) {
                Ok(Turn::Done(last)) => return Ok(last),
                Ok(Turn::More(next)) => clauses = next,
                Err(fault) => return Err(fault),
            }
            if turns == 0 {
                return Err(ParseError::Fault);
            }
            turns -= 1;
        }
    }

    /// The clauses of a switch, behind its brace, up to the closing one.
    #[tactic(auto, unfolding(ui_stmts::specs::Stmts::clauses))]
    pub(crate) fn clauses(&self, words: &mut Cursor<'_>) -> Result<ClauseList, ParseError>
        requires { Nests self.now.room (F.pre self.now.nested) (F.post self.now.nested) }
        ensures { Reads see_clause_list (spec.clauses self.now.room
            (stmt_readers self.now.room) words.old) result words.new }
    {
        match self.all_clauses(words) {
            Ok(clauses) => Ok(clauses.into_list()?),
            Err(fault) => Err(fault),
        }
    }
}
