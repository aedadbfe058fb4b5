//! Operators, as words.

ghost use Rattle.std.specs.Prelude.{◌≡◌};
ghost use Rattle.std.specs.Option.{option_map};
ghost use Rattle.ui_parse.specs.Cursor.{after};
ghost use Rattle.ui_parse.specs.Reader.{first};
ghost use Rattle.ui_pread.specs.Seen.{see_prefix};
ghost use Rattle.ui_syntax.specs.Exprs as spec;

use ui_base::{BinOp, Spot};
use ui_grammar::{level_of, operator_of, prefix_of};
use ui_parse::Cursor;
use ui_tree::PrefixOp;

/// A unary operator, where it stands.
#[derive(Clone, Copy)]
pub struct Prefix {
    pub op: PrefixOp,
    pub spot: Spot,
}

// The binary operator that comes next, if it binds so tightly.
fn operator_at(words: &Cursor<'_>, least: u8) -> Option<BinOp>
    ensures { result ≡ first (spec.an_operator least) words.now }
{
    let op = operator_of(words.peek()?)?;
    if level_of(op) < least { None } else { Some(op) }
}

// Takes a binary operator that binds so tightly, if one comes next.
pub(crate) fn take_operator(words: &mut Cursor<'_>, least: u8) -> Option<BinOp>
    ensures found { result ≡ first (spec.an_operator least) words.old }
    ensures left { words.new ≡ after result words.old }
{
    let op = operator_at(words, least);
    if op.is_some() {
        words.skip();
    }
    op
}

// Takes a unary operator, if one comes next.
pub(crate) fn take_prefix(words: &mut Cursor<'_>) -> Option<Prefix>
    ensures found { option_map see_prefix result ≡ first spec.a_prefix words.old }
    ensures left { words.new ≡ after result words.old }
{
    let kind = words.peek()?;
    let op = prefix_of(kind)?;
    let spot = words.take(kind)?;
    Some(Prefix { op, spot })
}
