//! Imports. Go specification, "Import declarations".

ghost use Rattle.std.specs.Prelude.{◌≡◌, IfOk};
ghost use Rattle.std.specs.Option.{option_map};
ghost use Rattle.ui_parse.specs.Reader.{first};
ghost use Rattle.ui_parse.specs.View.{Reads};
ghost use Rattle.ui_tree.specs.StmtView.{import_view};
ghost use Rattle.ui_stmts.specs.Decls as spec;
ghost use Rattle.ui_psimple.specs.Seen.{see_deep};
ghost use Rattle.ui_pdecl.specs.Seen.{import_spec_view};

use crate::each::PartReader;
use std::alloc::Global;
use ui_base::{NoMemory, Value};
use ui_parse::{Cursor, Literal, ParseError};
use ui_psimple::{Deep, SpecReader, one_or_several};
use ui_scan::TokenKind;
use ui_tree::{ImportSpec, ImportTree, LiteralKind, Placed};

// The value of a literal that is a string.
fn text_of(literal: Literal) -> Option<Placed>
    ensures { result ≡ spec.text_if literal.kind literal.spot literal.value }
{
    let Literal { kind, spot, value } = literal;
    match kind {
        LiteralKind::Text => match value {
            Value::Str(text) => Some(Placed { spot, text }),
            Value::Whole(_) | Value::Truth(_) => None,
        },
        LiteralKind::Whole | LiteralKind::Rune => None,
    }
}

// The string that comes next, which stays.
fn next_string(alloc: Global, words: &Cursor<'_>) -> Result<Option<Placed>, NoMemory>
    ensures { IfOk result (λ o. o ≡ first spec.a_string words.now) }
{
    let mut ahead = words.fork();
    match ahead.take_literal(alloc)? {
        Some(literal) => Ok(text_of(literal)),
        None => Ok(None),
    }
}

#[tactic(auto, unfolding(ui_parse::specs::Reader::take_by))]
fn expect_string(alloc: Global, words: &mut Cursor<'_>) -> Result<Placed, ParseError>
    ensures { Reads (λ p. p) (spec.expect_string words.old) result words.new }
{
    match next_string(alloc, words) {
        Ok(Some(text)) => {
            words.skip();
            Ok(text)
        }
        Ok(None) => Err(ParseError::Fault),
        Err(_) => Err(ParseError::NoMemory),
    }
}

fn imported(name: Option<Placed>, path: Placed) -> Deep<ImportSpec>
    ensures { see_deep import_spec_view result ≡ spec.imported name path }
{
    Deep {
        of: ImportSpec { name, path },
        depth: 0,
    }
}

// [ name ] string
#[tactic(auto, unfolding(ui_stmts::specs::Decls::import_spec, ui_parse::specs::Reader::take_by))]
fn import_spec(alloc: Global, words: &mut Cursor<'_>) -> Result<Deep<ImportSpec>, ParseError>
    ensures { Reads (see_deep import_spec_view) (spec.import_spec words.old) result words.new }
{
    match words.take_name(alloc)? {
        Some(name) => match expect_string(alloc, words) {
            Ok(path) => Ok(imported(Some(name), path)),
            Err(fault) => Err(fault),
        },
        None => {
            let path = expect_string(alloc, words)?;
            Ok(imported(None, path))
        }
    }
}

#[derive(Clone, Copy)]
struct ImportSpecs {
    alloc: Global,
}

impl SpecReader for ImportSpecs {
    ghost use Rattle.ui_tree.specs.Stmt.{Imported};
    ghost use Rattle.ui_stmts.specs.Decls.{import_spec};
    ghost use Rattle.ui_pdecl.specs.Seen.{import_spec_view};

    type Spec = ImportSpec;

    ghost Seen = { Imported };

    ghost see = { import_spec_view };

    ghost reader = { λ _. import_spec };

    fn read(&self, words: &mut Cursor<'_>) -> Result<Deep<ImportSpec>, ParseError> {
        import_spec(self.alloc, words)
    }
}

#[tactic(auto, unfolding(ui_parse::specs::Reader::take_by))]
fn maybe_import(alloc: Global, words: &mut Cursor<'_>) -> Result<Option<ImportTree>, ParseError>
    ensures { Reads (option_map import_view) (spec.maybe_import 0 words.old) result words.new }
{
    let Some(spot) = words.take(TokenKind::Import) else {
        return Ok(None);
    };
    let specs = one_or_several(alloc, words, &ImportSpecs { alloc })?;
    Ok(Some(ImportTree {
        spot,
        specs: specs.of,
    }))
}

/// Reads imports.
#[derive(Clone, Copy)]
pub(crate) struct Imports {
    pub alloc: Global,
}

impl PartReader<ImportTree> for Imports {
    ghost use Rattle.ui_tree.specs.Stmt.{Import};
    ghost use Rattle.ui_tree.specs.StmtView.{import_view};
    ghost use Rattle.ui_stmts.specs.Decls.{maybe_import};

    ghost Seen = { Import };

    ghost see = { import_view };

    ghost reader = { λ _. maybe_import 0 };

    fn read(&self, words: &mut Cursor<'_>) -> Result<Option<ImportTree>, ParseError> {
        maybe_import(self.alloc, words)
    }
}
