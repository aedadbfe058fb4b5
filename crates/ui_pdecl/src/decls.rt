//! Declarations. Go specification, "Declarations and scope".

ghost use Rattle.std.specs.Prelude.{◌≡◌, ◌<◌};
ghost use Rattle.std.specs.Option.{option_map};
ghost use Rattle.ui_parse.specs.View.{Reads};
ghost use Rattle.ui_tree.specs.StmtView.{common_view, decl_view};
ghost use Rattle.ui_stmts.specs.Decls as spec;
ghost use Rattle.ui_psimple.specs.Seen.{see_deep};
ghost use Rattle.ui_pdecl.specs.Parts as parts;

use crate::budgets::{constants, variables};
use crate::each::PartReader;
use crate::functions::function;
use crate::type_specs::TypeSpecs;
use std::alloc::Global;
use ui_base::Spot;
use ui_parse::{Cursor, ParseError};
use ui_psimple::{Deep, one_or_several};
use ui_scan::TokenKind;
use ui_tree::{CommonTree, DeclTree};

fn common_of(common: Deep<CommonTree>) -> Deep<DeclTree>
    ensures { see_deep decl_view result ≡ spec.common_of 0 (see_deep common_view common) }
{
    Deep {
        of: DeclTree::Common(common.of),
        depth: common.depth,
    }
}

fn types(
    alloc: Global,
    words: &mut Cursor<'_>,
    room: u32,
    spot: Spot,
) -> Result<Deep<DeclTree>, ParseError>
    requires { room < 4294967295 }
    ensures { Reads (see_deep decl_view) (parts.types_behind room spot words.old) result words.new }
{
    let specs = one_or_several(alloc, words, &TypeSpecs { alloc, room })?;
    Ok(Deep {
        of: DeclTree::Type {
            spot,
            specs: specs.of,
        },
        depth: specs.depth,
    })
}

// Types, functions and methods, or none.
#[tactic(auto, unfolding(ui_parse::specs::Reader::take_by))]
fn maybe_type_or_func(
    alloc: Global,
    words: &mut Cursor<'_>,
    room: u32,
) -> Result<Option<Deep<DeclTree>>, ParseError>
    requires { room < 4294967295 }
    ensures { Reads (option_map (see_deep decl_view)) (parts.type_or_func room words.old) result
        words.new }
{
    if let Some(spot) = words.take(TokenKind::Type) {
        return Ok(Some(types(alloc, words, room, spot)?));
    }
    match words.take(TokenKind::Func) {
        Some(spot) => Ok(Some(function(alloc, words, room, spot)?)),
        None => Ok(None),
    }
}

#[tactic(auto, unfolding(ui_stmts::specs::Decls::maybe_decl, ui_parse::specs::Reader::take_by))]
fn maybe_decl(
    alloc: Global,
    words: &mut Cursor<'_>,
    room: u32,
) -> Result<Option<Deep<DeclTree>>, ParseError>
    requires { room < 4294967295 }
    ensures { Reads (option_map (see_deep decl_view)) (spec.maybe_decl room words.old) result
        words.new }
{
    if let Some(spot) = words.take(TokenKind::Const) {
        return Ok(Some(common_of(constants(alloc, words, room, spot)?)));
    }
    match words.take(TokenKind::Var) {
        Some(spot) => Ok(Some(common_of(variables(alloc, words, room, spot)?))),
        None => maybe_type_or_func(alloc, words, room),
    }
}

/// Reads declarations whose parts have so much room.
#[derive(Clone, Copy)]
pub(crate) struct Decls {
    pub alloc: Global,
    pub room: u32,
    ghost below: { room < 4294967295 },
}

impl PartReader<DeclTree> for Decls {
    ghost use Rattle.std.specs.Prelude.{◌-◌};
    ghost use Rattle.ui_tree.specs.Stmt.{Decl};
    ghost use Rattle.ui_tree.specs.StmtView.{decl_view};
    ghost use Rattle.ui_stmts.specs.Decls.{decl_part};

    ghost Seen = { Decl };

    ghost see = { decl_view };

    ghost reader = { λ d. decl_part d.room };

    fn read(&self, words: &mut Cursor<'_>) -> Result<Option<DeclTree>, ParseError> {
        match maybe_decl(self.alloc, words, self.room)? {
            Some(decl) => Ok(Some(decl.of)),
            None => Ok(None),
        }
    }
}
