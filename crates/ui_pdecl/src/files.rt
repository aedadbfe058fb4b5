//! Files. Go specification, "Source file organization".

ghost use Rattle.std.specs.Prelude.{◌<◌};
ghost use Rattle.ui_parse.specs.View.{Reads};
ghost use Rattle.ui_stmts.specs.Decls as spec;
ghost use Rattle.ui_pdecl.specs.Seen.{see_file};

use crate::decls::Decls;
use crate::each::each;
use crate::imports::Imports;
use std::alloc::Global;
use ui_base::Spot;
use ui_parse::{Cursor, ParseError};
use ui_scan::TokenKind;
use ui_tree::{DeclTree, ImportTree, Items, Placed};

/// A file's tree without the file's name.
#[derive(Drop)]
pub struct FileBody {
    pub spot: Spot,
    pub package: Placed,
    pub imports: Items<ImportTree>,
    pub decls: Items<DeclTree>,
}

// "package" name ";" { Import ";" } { Decl ";" }
#[tactic(auto, unfolding(ui_stmts::specs::Decls::file))]
fn file(alloc: Global, words: &mut Cursor<'_>, room: u32) -> Result<FileBody, ParseError>
    requires { room < 4294967295 }
    ensures { Reads see_file (spec.file room words.old) result words.new }
{
    let spot = words.expect(TokenKind::Package)?;
    let package = words.expect_name(alloc)?;
    words.expect(TokenKind::Semi)?;
    let imports = each(alloc, words, &Imports { alloc })?;
    let decls = each(alloc, words, &Decls { alloc, room })?;
    Ok(FileBody {
        spot,
        package,
        imports,
        decls,
    })
}

/// A file, and the end of the text.
pub(crate) fn whole_file(
    alloc: Global,
    words: &mut Cursor<'_>,
    room: u32,
) -> Result<FileBody, ParseError>
    requires { room < 4294967295 }
    ensures { Reads see_file (spec.whole_file room words.old) result words.new }
{
    let file = file(alloc, words, room)?;
    words.expect(TokenKind::End)?;
    Ok(file)
}
