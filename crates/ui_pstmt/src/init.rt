//! What stands before the condition or the value of a header. Go specification, "If statements",
//! "Switch statements".

ghost use Rattle.std.specs.Prelude.{◌≡◌, IfOk};
ghost use Rattle.ui_ptype.specs.Seen.{see};
ghost use Rattle.ui_stmts.specs.Stmts as spec;
ghost use Rattle.ui_stmts.specs.Stmts.{stmt_readers};
ghost use Rattle.ui_psimple.specs.Seen.{see_stmt};
ghost use Rattle.ui_pstmt.specs.Seen.{see_init};

use crate::grammar::{Begun, Statements};
use std::alloc::Global;
use ui_base::NoMemory;
use ui_parse::{Cursor, ParseError};
use ui_psimple::{Deep, StmtSub, alone, empty_stmt};
use ui_ptype::Sub;
use ui_tree::{Boxed, StmtTree};

/// What stands before the condition or the value of a header, with its depth.
pub(crate) type Init = Deep<Option<Boxed<StmtTree>>>;

impl<F> Statements<F>
where
    F: Fn(Global, &mut Cursor<'_>, u32, Begun) -> Result<StmtSub, ParseError>,
{
    /// Nothing.
    pub(crate) fn no_init(&self) -> Init
        ensures { see_init self.now.room (stmt_readers self.now.room) result
            ≡ spec.no_init self.now.room (stmt_readers self.now.room) }
    {
        Deep { of: None, depth: 0 }
    }

    /// A semicolon alone.
    pub(crate) fn empty_init(&self) -> Result<Init, NoMemory>
        ensures { IfOk result (λ i. see_init self.now.room (stmt_readers self.now.room) i
            ≡ spec.empty_init self.now.room (stmt_readers self.now.room)) }
    {
        match empty_stmt(self.alloc) {
            Ok(stmt) => Ok(self.init_of(stmt)),
            Err(fault) => Err(fault),
        }
    }

    /// A statement.
    pub(crate) fn init_of(&self, stmt: StmtSub) -> Init
        ensures { see_init self.now.room (stmt_readers self.now.room) result
            ≡ spec.init_of self.now.room (stmt_readers self.now.room) (see_stmt stmt) }
    {
        Deep {
            of: Some(stmt.of),
            depth: stmt.depth,
        }
    }

    /// An expression.
    pub(crate) fn alone_init(&self, of: Sub) -> Result<Init, NoMemory>
        ensures { IfOk result (λ i. see_init self.now.room (stmt_readers self.now.room) i
            ≡ spec.alone_init self.now.room (stmt_readers self.now.room) (see of)) }
    {
        match alone(self.alloc, of) {
            Ok(stmt) => Ok(self.init_of(stmt)),
            Err(fault) => Err(fault),
        }
    }
}
