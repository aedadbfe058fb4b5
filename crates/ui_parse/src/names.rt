//! Lists of names.

ghost use Rattle.std.specs.Prelude.{◌≡◌};
ghost use Rattle.ui_parse.specs.Names as spec;
ghost use Rattle.ui_parse.specs.View.{Reads};

use crate::cursor::Cursor;
use crate::fault::ParseError;
use crate::list::chain;
use sqlite_items::Items;
use std::alloc::Global;
use ui_scan::TokenKind;
use ui_tree::Placed;

fn one_name_more(
    alloc: Global,
    cursor: &mut Cursor<'_>,
    names: Items<Placed>,
) -> Result<Items<Placed>, ParseError>
    ensures { Reads (λ ns. ns) (spec.one_name_more names cursor.old) result cursor.new }
{
    let mut names = names;
    match cursor.expect_name(alloc) {
        Ok(name) => {
            names.push(name)?;
            Ok(names)
        }
        Err(error) => Err(error),
    }
}

/// The names that follow these, behind a comma each.
pub fn more_names(
    alloc: Global,
    cursor: &mut Cursor<'_>,
    names: Items<Placed>,
) -> Result<Items<Placed>, ParseError>
    ensures { Reads (λ ns. ns) (spec.more_names names cursor.old) result cursor.new }
{
    chain(
        cursor,
        TokenKind::Comma,
        names,
        &|cursor: &mut Cursor<'_>, names| one_name_more(alloc, cursor, names),
    )
}
