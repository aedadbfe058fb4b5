ghost use Rattle.std.specs.Prelude.{◌≡◌};
ghost use Rattle.ui_file.specs.Words.{said, words};

use ui_base::Text;
use ui_file::{File, FileKind, FileWords};
use ui_frame::Frame;

/// A file that is tested: its container, its elements and what they say, and what it is tested as.
#[derive(Drop)]
pub(crate) struct Case<'a> {
    pub(crate) frame: &'a Frame<'a>,
    pub(crate) file: &'a File,
    pub(crate) known: &'a FileWords,
    pub(crate) kind: FileKind,
    pub(crate) path: &'a Text,
    pub(crate) ghost agree: { said known.now ≡ words file.now },
}
