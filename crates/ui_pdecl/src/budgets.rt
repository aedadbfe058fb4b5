//! Parts that have as many levels as a declaration: one more than the room of its parts.

ghost use Rattle.std.specs.Prelude.{◌<◌, suc};
ghost use Rattle.ui_parse.specs.View.{Reads};
ghost use Rattle.ui_ptype.specs.Seen.{see_type};
ghost use Rattle.ui_psimple.specs.Seen.{see_deep};
ghost use Rattle.ui_pstmt.specs.Seen.{see_block};
ghost use Rattle.ui_tree.specs.StmtView.{common_view};
ghost use Rattle.ui_syntax.specs.Read.{type as the_type};
ghost use Rattle.ui_stmts.specs.Common as common;
ghost use Rattle.ui_stmts.specs.Decls as spec;

use std::alloc::Global;
use ui_base::Spot;
use ui_parse::{Cursor, ParseError};
use ui_pread::type_of_budget;
use ui_psimple::{Deep, constant_decl, variable_decl};
use ui_pstmt::block;
use ui_ptype::TypeSub;
use ui_tree::{Block, CommonTree, StmtTree};

/// A type.
#[tactic(auto, using(crate::proofs::WholeBudget::reads_type))]
pub(crate) fn own_type(
    alloc: Global,
    words: &mut Cursor<'_>,
    room: u32,
) -> Result<TypeSub, ParseError>
    requires { room < 4294967295 }
    ensures { Reads see_type (the_type (suc room) words.old) result words.new }
{
    type_of_budget(alloc, words, room + 1)
}

/// Constants, behind the keyword at the spot.
#[tactic(auto, using(crate::proofs::WholeBudget::reads_constants))]
pub(crate) fn constants(
    alloc: Global,
    words: &mut Cursor<'_>,
    room: u32,
    spot: Spot,
) -> Result<Deep<CommonTree>, ParseError>
    requires { room < 4294967295 }
    ensures { Reads (see_deep common_view) (common.constant_decl (suc room) spot words.old) result
        words.new }
{
    constant_decl(alloc, words, room + 1, spot)
}

/// Variables, behind the keyword at the spot.
#[tactic(auto, using(crate::proofs::WholeBudget::reads_variables))]
pub(crate) fn variables(
    alloc: Global,
    words: &mut Cursor<'_>,
    room: u32,
    spot: Spot,
) -> Result<Deep<CommonTree>, ParseError>
    requires { room < 4294967295 }
    ensures { Reads (see_deep common_view) (common.variable_decl (suc room) spot words.old) result
        words.new }
{
    variable_decl(alloc, words, room + 1, spot)
}

/// A function's block.
#[tactic(auto, using(crate::proofs::WholeBudget::reads_block))]
pub(crate) fn body(
    alloc: Global,
    words: &mut Cursor<'_>,
    room: u32,
) -> Result<Deep<Block<StmtTree>>, ParseError>
    requires { room < 4294967295 }
    ensures { Reads see_block (spec.block room words.old) result words.new }
{
    block(alloc, words, room + 1)
}
