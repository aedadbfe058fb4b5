//! The paths of imports.

ghost use Rattle.std.specs.Prelude.{◌≡◌, map};
ghost use Rattle.ui_tree.specs.StmtView.{import_view};
ghost use Rattle.ui_pdecl.specs.FileResult as spec;
ghost use Rattle.ui_pdecl.specs.Seen.{import_spec_view};

use ui_base::{Spot, Text, is_path};
use ui_parse::same_kind;
use ui_scan::{Token, TokenKind};
use ui_tree::{ImportSpec, ImportTree, Specs};

// Whether the path is no package's, or the own package's.
fn is_bad(own: &Text, path: &Text) -> bool
    ensures { result ≡ spec.is_bad own.now path.now }
{
    !is_path(path.bytes()) || path.bytes() == own.bytes()
}

fn bad_spec(own: &Text, specs: &[ImportSpec]) -> Option<Spot>
    ensures { result ≡ spec.bad_spec own.now (map import_spec_view specs.now) }
{
    for import in specs {
        if is_bad(own, &import.path.text) {
            return Some(import.path.spot);
        }
    }
    None
}

fn bad_in(own: &Text, import: &ImportTree) -> Option<Spot>
    ensures { result ≡ spec.bad_spec own.now (spec.all_specs (import_view import.now).specs) }
{
    match &import.specs {
        Specs::One(only) => {
            if is_bad(own, &only.path.text) {
                Some(only.path.spot)
            } else {
                None
            }
        }
        Specs::Grouped(all) => bad_spec(own, all.as_slice()),
    }
}

/// The spot of the first path that is no package's, or the own package's.
pub(crate) fn bad_import(own: &Text, imports: &[ImportTree]) -> Option<Spot>
    ensures { result ≡ spec.bad_import own.now (map import_view imports.now) }
{
    for import in imports {
        if let Some(spot) = bad_in(own, import) {
            return Some(spot);
        }
    }
    None
}

fn is_string_at(spot: Spot, token: &Token) -> bool
    ensures { result ≡ spec.is_string_at spot token.now }
{
    same_kind(token.kind, TokenKind::Str) && token.line == spot.line && token.col == spot.col
}

/// The first byte of the string at the spot.
pub(crate) fn string_at(spot: Spot, tokens: &[Token]) -> usize
    ensures { result ≡ spec.string_at spot tokens.now }
{
    for token in tokens {
        if is_string_at(spot, token) {
            return token.start as usize;
        }
    }
    0
}
