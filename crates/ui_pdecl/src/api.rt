//! The call of other crates: a file's tree, or where and why the tokens have none.

ghost use Rattle.std.specs.Prelude.{◌≡◌, ◌≤◌, ◌<◌, ◌^◌, IfOk, length, map};
ghost use Rattle.ui_scan.specs.Tokens.{Tokens};
ghost use Rattle.ui_tree.specs.StmtView.{import_view};
ghost use Rattle.ui_pexpr.specs.declared.fault.ParseFault.TheVariants.{NoMemory as no_memory};
ghost use Rattle.ui_pdecl.specs.FileResult as spec;
ghost use Rattle.ui_pdecl.specs.FileResult.{IsResult, file_result};
ghost use Rattle.ui_pdecl.specs.Seen.{see_file};

use crate::files::{FileBody, whole_file};
use crate::front::fault_behind;
use crate::paths::{bad_import, string_at};
use std::alloc::Global;
use ui_base::Text;
use ui_parse::{Cursor, ParseError};
use ui_pexpr::ParseFault;
use ui_scan::Token;
use ui_tree::FileTree;

/// The greatest depth of what stands in a declaration, so that no file is deeper than 200.
const ROOM: u32 = 199;

// The fault behind the first so many words.
fn file_fault(alloc: Global, bytes: &[u8], tokens: &[Token], count: usize) -> ParseFault
    requires scanned { Tokens bytes.now tokens.now }
    requires inside { count ≤ length tokens.now }
    requires room { length tokens.now < 2 ^ 28 }
    ensures { (result ≡ no_memory → ⊥) → result ≡ spec.fault_behind bytes.now tokens.now count }
{
    match fault_behind(alloc, bytes, tokens, count) {
        Ok(fault) => fault,
        Err(_) => ParseFault::NoMemory,
    }
}

// The tree of a file that was read, where the paths of its imports are good.
fn with_paths(
    alloc: Global,
    tokens: &[Token],
    file: &Text,
    own: &Text,
    body: FileBody,
) -> Result<FileTree, ParseFault>
    ensures parsed { IsResult (spec.with_paths tokens.now (see_file body)
        (spec.bad_import own.now (map import_view body.imports))) result }
    ensures name { IfOk result (λ t. t.file ≡ file.now) }
{
    if let Some(spot) = bad_import(own, body.imports.as_slice()) {
        let at = string_at(spot, tokens);
        return Err(ParseFault::BadImportPath { at });
    }
    let Ok(file) = file.copy(alloc) else {
        return Err(ParseFault::NoMemory);
    };
    Ok(FileTree {
        file,
        spot: body.spot,
        package: body.package,
        imports: body.imports,
        decls: body.decls,
    })
}

/// The tree of a file of this name in the store, whose tokens these are, in the package of the path
/// `own`.
///
/// # Errors
///
/// Where the tokens are no file, the fault stands at the word behind the longest list of words with
/// which a file begins: `TooDeep` where a file that is deeper than 200 begins with that word too,
/// else `Outside` where the word begins a form of Go without trees, else `Unexpected`. In a file,
/// `BadImportPath` at the string of the first import whose path is no package's, or is `own`.
pub fn parse_file(
    alloc: Global,
    bytes: &[u8],
    tokens: &[Token],
    file: &Text,
    own: &Text,
) -> Result<FileTree, ParseFault>
    requires scanned { Tokens bytes.now tokens.now }
    requires room { length tokens.now < 2 ^ 28 }
    ensures parsed { IsResult (file_result own.now bytes.now tokens.now) result }
    ensures name { IfOk result (λ t. t.file ≡ file.now) }
{
    let mut words = Cursor::new(bytes, tokens);
    match whole_file(alloc, &mut words, ROOM) {
        Ok(body) => with_paths(alloc, tokens, file, own, body),
        Err(ParseError::NoMemory) => Err(ParseFault::NoMemory),
        Err(ParseError::Fault) => {
            let count = tokens.len().saturating_sub(words.left());
            Err(file_fault(alloc, bytes, tokens, count))
        }
    }
}
