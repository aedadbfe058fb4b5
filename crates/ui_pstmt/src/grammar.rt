//! The readers of statements of a budget, over a function value that reads with one level less.

ghost use Rattle.ui_parse.specs.View.{Reads};
ghost use Rattle.std.specs.Option.{option_map};
ghost use Rattle.ui_stmts.specs.Common.{maybe};
ghost use Rattle.ui_stmts.specs.Stmts.{stmt_readers};
ghost use Rattle.ui_pstmt.specs.Nests.{Nests, stmt_in};
ghost use Rattle.ui_psimple.specs.Seen.{see_stmt};

use std::alloc::Global;
use ui_base::Spot;
use ui_parse::{Cursor, ParseError};
use ui_psimple::{StmtSub, or_none};

/// What has been taken of a statement before it is read.
#[derive(Clone, Copy)]
pub enum Begun {
    Nothing,
    /// The keyword `if`.
    If(Spot),
    /// The brace of a block.
    Brace(Spot),
}

/// Reads statements that have so much room for their parts, with what reads the statements in them.
#[derive(Clone, Copy)]
pub(crate) struct Statements<F>
where
    F: Fn(Global, &mut Cursor<'_>, u32, Begun) -> Result<StmtSub, ParseError>,
{
    pub alloc: Global,
    pub room: u32,
    pub nested: F,
}

impl<F> Statements<F>
where
    F: Fn(Global, &mut Cursor<'_>, u32, Begun) -> Result<StmtSub, ParseError>,
{
    /// A statement with one level less.
    pub(crate) fn inner(&self, words: &mut Cursor<'_>, begun: Begun) -> Result<StmtSub, ParseError>
        requires { Nests self.now.room (F.pre self.now.nested) (F.post self.now.nested) }
        ensures { Reads see_stmt (stmt_in (stmt_readers self.now.room) begun words.old) result
            words.new }
    {
        (self.nested)(self.alloc, words, self.room, begun)
    }

    /// A statement with words and with one level less, or none.
    pub(crate) fn maybe_inner(&self, words: &mut Cursor<'_>) -> Result<Option<StmtSub>, ParseError>
        requires { Nests self.now.room (F.pre self.now.nested) (F.post self.now.nested) }
        ensures { Reads (option_map see_stmt) (maybe (stmt_readers self.now.room).stmt words.old)
            result words.new }
    {
        let start = words.fork();
        let read = self.inner(words, Begun::Nothing);
        or_none(words, start, read)
    }
}
