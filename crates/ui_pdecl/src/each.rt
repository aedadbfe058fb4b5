//! Parts of a file, each with a semicolon behind it.

ghost use Rattle.std.specs.Prelude.{ℕ, map};
ghost use Rattle.ui_parse.specs.View.{Reads};
ghost use Rattle.ui_stmts.specs.Decls as spec;

use std::alloc::Global;
use ui_parse::{Cursor, ParseError};
use ui_scan::TokenKind;
use ui_tree::Items;

/// What reads a part of a file.
pub(crate) trait PartReader<T> {
    ghost use Rattle.std.specs.Prelude.{Option};
    ghost use Rattle.std.specs.Option.{option_map};
    ghost use Rattle.ui_parse.specs.Reader.{Reader};
    ghost use Rattle.ui_parse.specs.View.{Reads};

    // What a part stands for.
    ghost Seen: { Type 0 };

    ghost see: { T → Seen };

    ghost reader: { Self → Reader (Option Seen) };

    /// Reads one, where one begins.
    fn read(&self, words: &mut Cursor<'_>) -> Result<Option<T>, ParseError>
        ensures { Reads (option_map see) (reader self.now words.old) result words.new };
}

/// Reads parts as long as one begins, each with a semicolon behind it.
pub(crate) fn each<T: Drop, R: PartReader<T>>(
    alloc: Global,
    words: &mut Cursor<'_>,
    reader: &R,
) -> Result<Items<T>, ParseError>
    ensures { (room : ℕ) → Reads (map R.see) (spec.each room (R.reader reader.now) words.old) result
        words.new }
{
    let mut all = Items::new(alloc);
    // Each turn takes a word.
    let mut turns = words.left();
    while let Some(part) = reader.read(words)? {
        words.expect(TokenKind::Semi)?;
        all.push(part)?;
        if turns == 0 {
            return Err(ParseError::Fault);
        }
        turns -= 1;
    }
    Ok(all)
}
