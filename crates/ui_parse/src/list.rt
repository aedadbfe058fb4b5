//! Lists of parts: the loops of readers.

ghost use Rattle.std.specs.Prelude.{◌≡◌, length, suc};
ghost use Rattle.ui_parse.specs.List as spec;
ghost use Rattle.ui_parse.specs.View.{Reads};

use crate::cursor::Cursor;
use crate::fault::ParseError;
use crate::turn::{Ends, Turn};
use ui_scan::TokenKind;

// The close.
#[tactic(auto, unfolding(crate::specs::List::close_turn))]
fn close_turn<S: Ends + Drop>(
    cursor: &mut Cursor<'_>,
    close: TokenKind,
    state: S,
) -> Result<Turn<S>, ParseError>
    ensures { Reads (λ t. t) (spec.close_turn S.ending close state cursor.old) result cursor.new }
{
    if !state.may_end() {
        return Err(ParseError::Fault);
    }
    match cursor.expect(close) {
        Ok(_) => Ok(Turn::Done(state)),
        Err(error) => Err(error),
    }
}

// What is behind a part: a separator, or the close.
#[tactic(auto, unfolding(crate::specs::List::behind_turn, crate::specs::Reader::take_by, crate::specs::Reader::eat))]
fn behind_turn<S: Ends + Drop>(
    cursor: &mut Cursor<'_>,
    separator: TokenKind,
    close: TokenKind,
    state: S,
) -> Result<Turn<S>, ParseError>
    ensures { Reads (λ t. t) (spec.behind_turn S.ending separator close state cursor.old) result
        cursor.new }
{
    if state.must_end() {
        cursor.take(separator);
        return close_turn(cursor, close, state);
    }
    match cursor.take(separator) {
        Some(_) => Ok(Turn::More(state)),
        None => close_turn(cursor, close, state),
    }
}

// A part, and what is behind it.
fn part<S: Ends + Drop, F: Fn(&mut Cursor<'_>, S) -> Result<S, ParseError>>(
    cursor: &mut Cursor<'_>,
    separator: TokenKind,
    close: TokenKind,
    state: S,
    step: &F,
) -> Result<Turn<S>, ParseError>
    requires { F.IsAlwaysCallable step.now }
    ensures { spec.PartRan separator close S.ending (spec.Called (F.post step.now)) state cursor.old
        result cursor.new }
{
    match step(cursor, state) {
        Ok(state) => behind_turn(cursor, separator, close, state),
        Err(error) => Err(error),
    }
}

// The close, or a part.
#[tactic(auto, unfolding(crate::specs::List::TurnRan))]
fn turn<S: Ends + Drop, F: Fn(&mut Cursor<'_>, S) -> Result<S, ParseError>>(
    cursor: &mut Cursor<'_>,
    separator: TokenKind,
    close: TokenKind,
    state: S,
    step: &F,
) -> Result<Turn<S>, ParseError>
    requires { F.IsAlwaysCallable step.now }
    ensures { spec.TurnRan separator close S.ending (spec.Called (F.post step.now)) state cursor.old
        result cursor.new }
{
    if !state.may_end() {
        return part(cursor, separator, close, state, step);
    }
    match cursor.take(close) {
        Some(_) => Ok(Turn::Done(state)),
        None => part(cursor, separator, close, state, step),
    }
}

/// Reads parts with separators between, up to the close. A step reads one part.
pub fn parts<S: Ends + Drop, F: Fn(&mut Cursor<'_>, S) -> Result<S, ParseError>>(
    cursor: &mut Cursor<'_>,
    separator: TokenKind,
    close: TokenKind,
    state: S,
    step: &F,
) -> Result<S, ParseError>
    requires { F.IsAlwaysCallable step.now }
    ensures { spec.PartsRan separator close S.ending (spec.Called (F.post step.now))
        (suc (length cursor.old)) state cursor.old result cursor.new }
{
    let mut state = state;
    // Each turn but the first takes a word.
    let mut turns = cursor.left();
    loop {
        match turn(cursor, separator, close, state, step) {
            Ok(Turn::Done(last)) => return Ok(last),
            Ok(Turn::More(more)) => state = more,
            Err(error) => return Err(error),
        }
        if turns == 0 {
            return Err(ParseError::Fault);
        }
        turns -= 1;
    }
}

/// Reads what follows a first part.
pub fn more_parts<S: Ends + Drop, F: Fn(&mut Cursor<'_>, S) -> Result<S, ParseError>>(
    cursor: &mut Cursor<'_>,
    separator: TokenKind,
    close: TokenKind,
    state: S,
    step: &F,
) -> Result<S, ParseError>
    requires { F.IsAlwaysCallable step.now }
    ensures { spec.MoreRan separator close S.ending (spec.Called (F.post step.now)) state cursor.old
        result cursor.new }
{
    match behind_turn(cursor, separator, close, state) {
        Ok(Turn::Done(last)) => Ok(last),
        Ok(Turn::More(more)) => parts(cursor, separator, close, more, step),
        Err(error) => Err(error),
    }
}

/// Reads a step behind each separator, as long as one comes.
pub fn chain<S: Drop, F: Fn(&mut Cursor<'_>, S) -> Result<S, ParseError>>(
    cursor: &mut Cursor<'_>,
    separator: TokenKind,
    state: S,
    step: &F,
) -> Result<S, ParseError>
    requires { F.IsAlwaysCallable step.now }
    ensures { spec.ChainRan separator (spec.Called (F.post step.now))
        (suc (length cursor.old)) state cursor.old result cursor.new }
{
    let mut state = state;
    // Each turn takes a word.
    let mut turns = cursor.left();
    while cursor.take(separator).is_some() {
        match step(cursor, state) {
            Ok(next) => state = next,
            Err(error) => return Err(error),
        }
        if turns == 0 {
            return Err(ParseError::Fault);
        }
        turns -= 1;
    }
    Ok(state)
}
