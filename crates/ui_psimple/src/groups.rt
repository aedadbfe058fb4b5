//! One specification, or several in parentheses. Go specification, "Constant declarations".

ghost use Rattle.ui_parse.specs.Reader.{parts};
ghost use Rattle.ui_parse.specs.View.{Reads};
ghost use Rattle.ui_scan.specs.declared.kind.TokenKind.TheVariants.{Semi, RParen};
ghost use Rattle.ui_syntax.specs.Types.{any_end, empty};
ghost use Rattle.ui_tree.specs.StmtView.{specs_with};
ghost use Rattle.ui_stmts.specs.Common as spec;
ghost use Rattle.ui_psimple.specs.Seen.{see_deep, see_list};

use crate::deep::Deep;
use std::alloc::Global;
use ui_parse::{Cursor, ParseError, parts};
use ui_scan::TokenKind;
use ui_tree::{Items, Specs};

/// What reads a specification.
pub trait SpecReader {
    ghost use Rattle.ui_parse.specs.Reader.{Reader};
    ghost use Rattle.ui_parse.specs.View.{Reads};
    ghost use Rattle.ui_stmts.specs.Common.{Sized};
    ghost use Rattle.ui_psimple.specs.Seen.{see_deep};

    type Spec: Drop;

    // What a specification stands for.
    ghost Seen: { Type 0 };

    ghost see: { Self.Spec → Seen };

    ghost reader: { Self → Reader (Sized Seen) };

    /// Reads one.
    fn read(&self, words: &mut Cursor<'_>) -> Result<Deep<Self::Spec>, ParseError>
        ensures { Reads (see_deep see) (reader self.now words.old) result words.new };
}

fn one_more<R: SpecReader>(
    reader: &R,
    words: &mut Cursor<'_>,
    all: Deep<Items<R::Spec>>,
) -> Result<Deep<Items<R::Spec>>, ParseError>
    ensures { Reads (see_list R.see) (spec.one_spec_more (R.reader reader.now)
        (see_list R.see all) words.old) result words.new }
{
    match reader.read(words) {
        Ok(next) => match all.add(next.of, next.depth) {
            Ok(all) => Ok(all),
            Err(_) => Err(ParseError::NoMemory),
        },
        Err(fault) => Err(fault),
    }
}

// Behind the parenthesis.
fn several<R: SpecReader>(
    alloc: Global,
    words: &mut Cursor<'_>,
    reader: &R,
) -> Result<Deep<Items<R::Spec>>, ParseError>
    ensures { Reads (see_list R.see) (parts Semi RParen any_end
        (spec.one_spec_more (R.reader reader.now)) empty words.old) result words.new }
{
    parts(
        words,
        TokenKind::Semi,
        TokenKind::RParen,
        Deep::empty(alloc),
        &|words: &mut Cursor<'_>, all| one_more(reader, words, all),
    )
}

/// Reads one specification, or several in parentheses.
#[tactic(auto, unfolding(ui_stmts::specs::Common::specs, ui_parse::specs::Reader::take_by))]
pub fn one_or_several<R: SpecReader>(
    alloc: Global,
    words: &mut Cursor<'_>,
    reader: &R,
) -> Result<Deep<Specs<R::Spec>>, ParseError>
    ensures { Reads (see_deep (specs_with R.see)) (spec.specs (R.reader reader.now) words.old)
        result words.new }
{
    match words.take(TokenKind::LParen) {
        Some(_) => match several(alloc, words, reader) {
            Ok(all) => Ok(Deep {
                of: Specs::Grouped(all.of),
                depth: all.depth,
            }),
            Err(fault) => Err(fault),
        },
        None => match reader.read(words) {
            Ok(one) => Ok(Deep {
                of: Specs::One(one.of),
                depth: one.depth,
            }),
            Err(fault) => Err(fault),
        },
    }
}
