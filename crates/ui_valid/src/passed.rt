ghost use Rattle.std.specs.Prelude.{◌≡◌, map, IfOk};
ghost use Rattle.ui_exports.specs.Linked.{below};
ghost use Rattle.ui_valid.specs.Record.{below_list};
ghost use Rattle.ui_valid.specs.Verdict.{HasPassed};

use crate::list::list_of;
use std::alloc::Global;
use std::marker::Model;
use ui_base::Text;
use ui_exports::Below;
use ui_file::{File, FileKind};
use ui_frame::{Frame, NoMemory};

/// A container that passed the test of a whole file.
///
/// A contract sees it as what it was tested as, its parts, and the file that these spell.
#[derive(Drop)]
pub struct Valid<'a> {
    pub(crate) kind: FileKind,
    pub(crate) path: Text,
    pub(crate) frame: Frame<'a>,
    pub(crate) file: File,
}

impl<'a> Model for Valid<'a> {
    ghost use Rattle.ui_valid.specs.Verdict.{Tested, HasPassed};

    ghost Value = { Tested };

    ghost view = { λ v. record { kind = v.kind; path = v.path; parts = v.frame; file = v.file } };

    ghost invariant = { λ v. HasPassed
        (record { kind = v.kind; path = v.path; parts = v.frame; file = v.file }) };
}

impl<'a> Valid<'a> {
    /// The container. Takes no memory.
    pub fn frame(&self) -> &Frame<'a>
        ensures { result.now ≡ self.now.parts }
    {
        &self.frame
    }

    /// The file that it spells. Takes no memory.
    pub fn file(&self) -> &File
        ensures { result.now ≡ self.now.file }
    {
        &self.file
    }

    /// The packages below that the file lists, ascending by path.
    #[tactic(auto, using(crate::proofs::Eight::have_eight))]
    pub fn list(&self, alloc: Global) -> Result<Vec<Below>, NoMemory>
        ensures { IfOk result (λ v. map below v.items ≡ below_list self.now.file) }
    {
        list_of(
            alloc,
            self.file.texts.items(),
            self.file.private.below.items(),
        )
    }

    /// It is in the grammar of its kind. Takes no memory.
    pub fn passed(&self)
        ensures { HasPassed self.now }
    {
        let _ = &self.file;
    }
}
