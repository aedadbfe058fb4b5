//! Parts that may be left out.

ghost use Rattle.ui_psimple.specs.Maybe.{OrNone};

use ui_parse::{Cursor, ParseError};

/// What was read from the start on, or none where the fault stands at the first word: nothing was
/// taken then.
pub fn or_none<'a, T: Drop>(
    words: &mut Cursor<'a>,
    start: Cursor<'a>,
    read: Result<T, ParseError>,
) -> Result<Option<T>, ParseError>
    ensures { OrNone start.entry words.old read result words.new }
{
    match read {
        Ok(of) => Ok(Some(of)),
        Err(ParseError::NoMemory) => Err(ParseError::NoMemory),
        Err(ParseError::Fault) => {
            if words.left() != start.left() {
                return Err(ParseError::Fault);
            }
            *words = start;
            Ok(None)
        }
    }
}
