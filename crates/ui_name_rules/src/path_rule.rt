ghost use Rattle.std.specs.Prelude.{◌≡◌};
ghost use Rattle.ui_file.specs.Words.{said, words};

use std::alloc::Global;
use ui_base::Text;
use ui_file::{File, FileWords};
use ui_file_rules::{FileRule, first_or_none};
use ui_frame::{NoMemory, Section};
use ui_words::text_at;

/// That the package of the public root has the path that was asked for.
#[derive(Drop)]
pub struct WrongPath<'a> {
    pub path: &'a Text,
    pub file: &'a File,
    pub known: &'a FileWords,
    pub ghost agree: { said known.now ≡ words file.now },
}

impl FileRule for WrongPath<'_> {
    ghost use Rattle.ui_file.specs.Rules.{KeepsPath, count_in};

    ghost keeps = { λ r s k. KeepsPath r.path.now r.file.now s k };

    ghost count = { λ r s. count_in r.file.now s };

    fn first_in(&self, _alloc: Global, s: Section) -> Result<Option<usize>, NoMemory> {
        match s {
            Section::Meta => {
                let own = text_at(self.known.paths.items(), self.file.public.pkg);
                let asked = self.path.bytes();
                Ok(first_or_none(own == asked))
            }
            _ => Ok(None),
        }
    }
}
