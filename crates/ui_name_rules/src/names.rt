ghost use Rattle.std.specs.Prelude.{◌≡◌, get_or};
ghost use Rattle.ui_eobj.specs.Roots as roots;
ghost use Rattle.ui_file.specs.Words as words;
ghost use Rattle.ui_file.specs.Rules as rules;
ghost use Rattle.ui_name_rules.specs.Shown.{shown};

use std::cmp::Ordering;
use ui_base::Name;
use ui_etype::Sel;
use ui_file::FileWords;
use ui_words::text_at;

/// A name whose texts are lent.
#[derive(Clone, Copy)]
pub(crate) struct Lent<'a> {
    pub(crate) path: &'a [u8],
    pub(crate) name: &'a [u8],
}

fn is_before(one: &[u8], other: &[u8]) -> bool
    ensures { result ≡ roots.is_before one.now other.now }
{
    one.cmp(other) == Ordering::Less
}

/// Whether one name comes before another by path, and then by name.
pub(crate) fn name_before(one: Lent<'_>, other: Lent<'_>) -> bool
    ensures { result ≡ rules.name_before (shown one.entry) (shown other.entry) }
{
    is_before(one.path, other.path) || (one.path == other.path && is_before(one.name, other.name))
}

/// Whether one name comes before another by name, and then by path.
pub(crate) fn sel_before(one: Lent<'_>, other: Lent<'_>) -> bool
    ensures { result ≡ rules.sel_before (shown one.entry) (shown other.entry) }
{
    is_before(one.name, other.name) || (one.name == other.name && is_before(one.path, other.path))
}

/// A name of a list, or the empty one.
pub(crate) fn name_at<'a>(names: &'a [Name], k: usize) -> Lent<'a>
    ensures { shown result ≡ get_or names.now k words.nameless }
{
    match names.get(k) {
        Some(name) => Lent {
            path: name.path.bytes(),
            name: name.name.bytes(),
        },
        None => Lent {
            path: b"".as_slice(),
            name: b"".as_slice(),
        },
    }
}

fn path_of<'a>(known: &'a FileWords, pkg: Option<u32>) -> &'a [u8]
    ensures { result.now ≡ words.path_of (words.said known.now) pkg }
{
    match pkg {
        Some(k) => text_at(known.paths.items(), k),
        None => b"".as_slice(),
    }
}

/// What a selector selects.
pub(crate) fn selected<'a>(known: &'a FileWords, sel: &Sel) -> Lent<'a>
    ensures { shown result ≡ words.selected (words.said known.now) sel.now }
{
    Lent {
        path: path_of(known, sel.pkg),
        name: text_at(known.texts.items(), sel.name),
    }
}
