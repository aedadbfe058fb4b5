//! Simple statements. Go specification, "Expression statements", "Assignment statements", "IncDec
//! statements", "Short variable declarations", "For statements with range clause".

ghost use Rattle.std.specs.Prelude.{◌≡◌, ◌∷◌, [], IfOk, map};
ghost use Rattle.ui_syntax.specs.Types.{only};
ghost use Rattle.std.specs.Option.{option_map};
ghost use Rattle.ui_tree.specs.View.{view, trees};
ghost use Rattle.ui_tree.specs.Stmt.{places};
ghost use Rattle.ui_parse.specs.Cursor.{after};
ghost use Rattle.ui_parse.specs.Reader.{first};
ghost use Rattle.ui_parse.specs.View.{Reads};
ghost use Rattle.ui_ptype.specs.Seen.{see, see_all};
ghost use Rattle.ui_stmts.specs.Simple as spec;
ghost use Rattle.ui_psimple.specs.Seen.{see_head, see_stmt};
ghost use Rattle.ui_psimple.specs.Parts as parts;

use crate::deep::StmtSub;
use crate::head::{
    Head, alone, assign_over, decrement_over, define_over, increment_over, op_assign_over,
    range_over,
};
use crate::lists::{both, exprs, exprs_from, only};
use crate::maybe::or_none;
use std::alloc::Global;
use ui_base::{BinOp, NoMemory, Spot};
use ui_grammar::assignment_of;
use ui_parse::{Cursor, ParseError};
use ui_pread::expr_of_budget;
use ui_ptype::{Sub, Subs};
use ui_scan::TokenKind;
use ui_tree::{ExprTree, Items, Placed};

// The operator of the assignment that comes next.
fn assignment_at(words: &Cursor<'_>) -> Option<BinOp>
    ensures { result ≡ first spec.an_assignment words.now }
{
    assignment_of(words.peek()?)
}

// Takes an assignment's token with an operator, if one comes next.
fn take_assignment(words: &mut Cursor<'_>) -> Option<BinOp>
    ensures found { result ≡ first spec.an_assignment words.old }
    ensures left { words.new ≡ after result words.old }
{
    let op = assignment_at(words);
    if op.is_some() {
        words.skip();
    }
    op
}

fn copy_of(alloc: Global, name: &Placed) -> Result<Placed, NoMemory>
    ensures { IfOk result (λ n. n ≡ name.now) }
{
    match name.text.copy(alloc) {
        Ok(text) => Ok(Placed {
            spot: name.spot,
            text,
        }),
        Err(fault) => Err(fault),
    }
}

// The name that the expression is.
#[tactic(auto, using(crate::proofs::NamesIn::name_is, crate::proofs::NamesIn::no_name))]
fn name_in(alloc: Global, of: &ExprTree) -> Result<Option<Placed>, NoMemory>
    ensures { IfOk result (λ n. n ≡ spec.name_in (view of.now)) }
{
    match of {
        ExprTree::Name(name) => match copy_of(alloc, name) {
            Ok(name) => Ok(Some(name)),
            Err(fault) => Err(fault),
        },
        _ => Ok(None),
    }
}

// The names that the expressions are, where all are names.
fn names_in(alloc: Global, all: &[ExprTree]) -> Result<Option<Items<Placed>>, NoMemory>
    ensures { IfOk result (λ ns. ns ≡ spec.names_in (map view all.now)) }
{
    let mut names = Items::new(alloc);
    for of in all {
        match name_in(alloc, of) {
            Ok(Some(name)) => names.push(name)?,
            Ok(None) => return Ok(None),
            Err(fault) => return Err(fault),
        }
    }
    Ok(Some(names))
}

// A list of this name alone.
fn only_name(alloc: Global, name: Placed) -> Result<Items<Placed>, NoMemory>
    ensures { IfOk result (λ ns. ns ≡ name ∷ []) }
{
    let mut names = Items::new(alloc);
    match names.push(name) {
        Ok(()) => Ok(names),
        Err(fault) => Err(fault),
    }
}

/// Reads a simple statement whose expressions have so much room, in a header or elsewhere; in that
/// of a `for` it may be the front of a range.
#[derive(Clone, Copy)]
struct SimpleReader {
    alloc: Global,
    room: u32,
    header: bool,
    ranged: bool,
}

impl SimpleReader {
    fn assigned(&self, words: &mut Cursor<'_>, spot: Spot, left: Subs) -> Result<Head, ParseError>
        ensures { Reads see_head (spec.assigned self.now.room self.now.header self.now.ranged spot
            (see_all left) words.old) result words.new }
    {
        match exprs(self.alloc, words, self.room, self.header) {
            Ok(right) => Ok(assign_over(self.alloc, spot, left, right)?),
            Err(fault) => Err(fault),
        }
    }

    // Behind "=".
    #[tactic(auto, unfolding(ui_parse::specs::Reader::take_by))]
    fn behind_assign(
        &self,
        words: &mut Cursor<'_>,
        spot: Spot,
        left: Subs,
    ) -> Result<Head, ParseError>
        ensures { Reads see_head (parts.behind_assign self.now.room self.now.header self.now.ranged
            spot (see_all left) words.old) result words.new }
    {
        if self.ranged && words.take(TokenKind::Range).is_some() {
            return Ok(range_over(left, false)?);
        }
        self.assigned(words, spot, left)
    }

    fn defined(
        &self,
        words: &mut Cursor<'_>,
        spot: Spot,
        names: Items<Placed>,
    ) -> Result<Head, ParseError>
        ensures { Reads see_head (spec.defined self.now.room self.now.header self.now.ranged spot
            names words.old) result words.new }
    {
        match exprs(self.alloc, words, self.room, self.header) {
            Ok(values) => Ok(define_over(self.alloc, spot, names, values)?),
            Err(fault) => Err(fault),
        }
    }

    // Behind ":=", where all places are names.
    #[tactic(auto, unfolding(ui_parse::specs::Reader::take_by))]
    fn behind_define(
        &self,
        words: &mut Cursor<'_>,
        spot: Spot,
        left: Subs,
        names: Items<Placed>,
    ) -> Result<Head, ParseError>
        ensures { Reads see_head (parts.behind_define self.now.room self.now.header self.now.ranged
            spot (see_all left) names words.old) result words.new }
    {
        if self.ranged && words.take(TokenKind::Range).is_some() {
            return Ok(range_over(left, true)?);
        }
        self.defined(words, spot, names)
    }

    // Behind ":=", where the places are no names.
    fn range_defined(&self, words: &mut Cursor<'_>, left: Subs) -> Result<Head, ParseError>
        ensures { Reads see_head (parts.range_defined (see_all left) words.old) result words.new }
    {
        match words.expect(TokenKind::Range) {
            Ok(_) => Ok(range_over(left, true)?),
            Err(fault) => Err(fault),
        }
    }

    // ":=", behind several places that are names.
    #[tactic(auto, unfolding(ui_parse::specs::Reader::take_by))]
    fn names_defined(
        &self,
        words: &mut Cursor<'_>,
        spot: Spot,
        left: Subs,
        names: Items<Placed>,
    ) -> Result<Head, ParseError>
        ensures { Reads see_head (spec.defined_by self.now.room self.now.header self.now.ranged spot
            (see_all left) (Some names) words.old) result words.new }
    {
        match words.take(TokenKind::Define) {
            Some(_) => self.behind_define(words, spot, left, names),
            None => Err(ParseError::Fault),
        }
    }

    // ":=" and `range`, behind several places that are no names.
    #[tactic(auto, unfolding(ui_parse::specs::Reader::take_by))]
    fn places_ranged(
        &self,
        words: &mut Cursor<'_>,
        spot: Spot,
        left: Subs,
    ) -> Result<Head, ParseError>
        ensures { Reads see_head (spec.defined_by self.now.room self.now.header self.now.ranged spot
            (see_all left) None words.old) result words.new }
    {
        if self.ranged && words.take(TokenKind::Define).is_some() {
            return self.range_defined(words, left);
        }
        Err(ParseError::Fault)
    }

    // ":=", behind several places.
    fn defined_by(&self, words: &mut Cursor<'_>, spot: Spot, left: Subs) -> Result<Head, ParseError>
        ensures { Reads see_head (spec.defined_by self.now.room self.now.header self.now.ranged spot
            (see_all left) (spec.names_in (see_all left).items) words.old) result words.new }
    {
        match names_in(self.alloc, left.items.as_slice()) {
            Ok(Some(names)) => self.names_defined(words, spot, left, names),
            Ok(None) => self.places_ranged(words, spot, left),
            Err(_) => Err(ParseError::NoMemory),
        }
    }

    // "=" or ":=", and what is behind.
    #[tactic(auto, unfolding(ui_parse::specs::Reader::take_by))]
    fn assignment(&self, words: &mut Cursor<'_>, spot: Spot, left: Subs) -> Result<Head, ParseError>
        ensures { Reads see_head (spec.assignment self.now.room self.now.header self.now.ranged spot
            (see_all left) words.old) result words.new }
    {
        match words.take(TokenKind::Assign) {
            Some(_) => self.behind_assign(words, spot, left),
            None => self.defined_by(words, spot, left),
        }
    }

    fn op_assigned(&self, words: &mut Cursor<'_>, place: Sub, op: BinOp) -> Result<Head, ParseError>
        ensures { Reads see_head (spec.op_assigned self.now.room self.now.header self.now.ranged
            (see place) op words.old) result words.new }
    {
        match expr_of_budget(self.alloc, words, self.room, self.header) {
            Ok(value) => Ok(op_assign_over(self.alloc, place, op, value)?),
            Err(fault) => Err(fault),
        }
    }

    // Behind a first expression and a comma.
    fn behind_comma(&self, words: &mut Cursor<'_>, first: Sub) -> Result<Head, ParseError>
        ensures { Reads see_head (parts.behind_comma self.now.room self.now.header self.now.ranged
            (see first) words.old) result words.new }
    {
        let spot = first.spot;
        match expr_of_budget(self.alloc, words, self.room, self.header) {
            Ok(second) => {
                let all = both(self.alloc, first, second)?;
                let all = exprs_from(self.alloc, words, self.room, self.header, all)?;
                self.assignment(words, spot, all)
            }
            Err(fault) => Err(fault),
        }
    }

    // Behind ":=" after one place that is a name.
    fn name_defined(
        &self,
        words: &mut Cursor<'_>,
        place: Sub,
        name: Placed,
    ) -> Result<Head, ParseError>
        ensures { Reads see_head (parts.behind_define self.now.room self.now.header self.now.ranged
            place.spot (only (see place).tree place.depth) (name ∷ []) words.old) result words.new }
    {
        let spot = place.spot;
        match only_name(self.alloc, name) {
            Ok(names) => match only(self.alloc, place) {
                Ok(left) => self.behind_define(words, spot, left, names),
                Err(_) => Err(ParseError::NoMemory),
            },
            Err(_) => Err(ParseError::NoMemory),
        }
    }

    // ":=" behind one place that is a name, or the expression alone.
    #[tactic(auto, unfolding(ui_parse::specs::Reader::take_by))]
    fn name_or(&self, words: &mut Cursor<'_>, place: Sub, name: Placed) -> Result<Head, ParseError>
        ensures { Reads see_head (spec.define_or self.now.room self.now.header self.now.ranged
            (see place) (Some (name ∷ [])) words.old) result words.new }
    {
        match words.take(TokenKind::Define) {
            Some(_) => self.name_defined(words, place, name),
            None => Ok(Head::Expression(place)),
        }
    }

    // ":=" behind one place, or the expression alone.
    fn define_or(&self, words: &mut Cursor<'_>, place: Sub) -> Result<Head, ParseError>
        ensures { Reads see_head (spec.define_or self.now.room self.now.header self.now.ranged
            (see place) (spec.names_in ((see place).tree ∷ [])) words.old) result words.new }
    {
        match name_in(self.alloc, place.tree.get()) {
            Ok(Some(name)) => self.name_or(words, place, name),
            Ok(None) => self.range_or(words, place),
            Err(_) => Err(ParseError::NoMemory),
        }
    }

    // ":=" and `range` behind one place that is no name, or the expression alone.
    #[tactic(auto, unfolding(ui_parse::specs::Reader::take_by))]
    fn range_or(&self, words: &mut Cursor<'_>, place: Sub) -> Result<Head, ParseError>
        ensures { Reads see_head (parts.range_or self.now.room self.now.header self.now.ranged
            (see place) words.old) result words.new }
    {
        if self.ranged && words.take(TokenKind::Define).is_some() {
            let left = only(self.alloc, place)?;
            return self.range_defined(words, left);
        }
        Ok(Head::Expression(place))
    }

    // "++", "--" or ":=", or the expression alone.
    #[tactic(auto, unfolding(ui_parse::specs::Reader::take_by))]
    fn stepped_or(&self, words: &mut Cursor<'_>, place: Sub) -> Result<Head, ParseError>
        ensures { Reads see_head (parts.stepped_or self.now.room self.now.header self.now.ranged
            (see place) words.old) result words.new }
    {
        if words.take(TokenKind::Inc).is_some() {
            return Ok(increment_over(self.alloc, place)?);
        }
        if words.take(TokenKind::Dec).is_some() {
            return Ok(decrement_over(self.alloc, place)?);
        }
        self.define_or(words, place)
    }

    // What follows a first expression that leaves room for a statement around it.
    #[tactic(auto, unfolding(ui_parse::specs::Reader::take_by))]
    fn behind_first(&self, words: &mut Cursor<'_>, first: Sub) -> Result<Head, ParseError>
        ensures { Reads see_head (spec.behind_first self.now.room self.now.header self.now.ranged
            (see first) words.old) result words.new }
    {
        if words.take(TokenKind::Comma).is_some() {
            return self.behind_comma(words, first);
        }
        if words.take(TokenKind::Assign).is_some() {
            let spot = first.spot;
            let left = only(self.alloc, first)?;
            return self.behind_assign(words, spot, left);
        }
        match take_assignment(words) {
            Some(op) => self.op_assigned(words, first, op),
            None => self.stepped_or(words, first),
        }
    }

    #[tactic(auto, unfolding(ui_stmts::specs::Simple::head_behind))]
    fn head_behind(&self, words: &mut Cursor<'_>, first: Sub) -> Result<Head, ParseError>
        ensures { Reads see_head (spec.head_behind self.now.room self.now.header self.now.ranged
            (see first) words.old) result words.new }
    {
        if first.depth > self.room {
            return Ok(Head::Expression(first));
        }
        self.behind_first(words, first)
    }
}

fn simple_of(alloc: Global, words: &Cursor<'_>, head: Head) -> Result<StmtSub, ParseError>
    ensures { Reads see_stmt (spec.simple_of (see_head head) words.now) result words.now }
{
    match head {
        Head::Expression(of) => Ok(alone(alloc, of)?),
        Head::Statement(of) => Ok(of),
        Head::Range(_) => Err(ParseError::Fault),
    }
}

/// A simple statement with words, whose expressions have so much room, in a header or elsewhere.
#[tactic(auto, unfolding(ui_stmts::specs::Simple::simple))]
pub fn simple_stmt(
    alloc: Global,
    words: &mut Cursor<'_>,
    room: u32,
    header: bool,
) -> Result<StmtSub, ParseError>
    ensures { Reads see_stmt (spec.simple room header words.old) result words.new }
{
    let first = expr_of_budget(alloc, words, room, header)?;
    let reader = SimpleReader {
        alloc,
        room,
        header,
        ranged: false,
    };
    let head = reader.head_behind(words, first)?;
    simple_of(alloc, words, head)
}

/// The front of a header within a budget, that of a `for` or another's.
#[tactic(auto, using(crate::proofs::Budgets::no_head, crate::proofs::Budgets::reads_head))]
pub fn header_front(
    alloc: Global,
    words: &mut Cursor<'_>,
    budget: u32,
    ranged: bool,
) -> Result<Head, ParseError>
    ensures { Reads see_head (spec.head budget ranged words.old) result words.new }
{
    if budget == 0 {
        return Err(ParseError::Fault);
    }
    let first = expr_of_budget(alloc, words, budget, true)?;
    let reader = SimpleReader {
        alloc,
        room: budget - 1,
        header: true,
        ranged,
    };
    reader.head_behind(words, first)
}

/// A simple statement in a header within a budget, or none.
pub fn maybe_simple(
    alloc: Global,
    words: &mut Cursor<'_>,
    budget: u32,
) -> Result<Option<StmtSub>, ParseError>
    ensures { Reads (option_map see_stmt) (spec.maybe_simple budget words.old) result words.new }
{
    if budget == 0 {
        return Ok(None);
    }
    let start = words.fork();
    let read = simple_stmt(alloc, words, budget - 1, true);
    or_none(words, start, read)
}
