ghost use Rattle.std.specs.Prelude.{◌≡◌};
ghost use Rattle.ui_file.specs.Words.{said, words};

use crate::again::first_again;
use crate::rule::FileRule;
use std::alloc::Global;
use ui_file::{File, FileWords};
use ui_frame::{NoMemory, Section};

/// That no element is like one before it.
#[derive(Drop)]
pub struct Twice<'a> {
    pub file: &'a File,
    pub known: &'a FileWords,
    pub ghost agree: { said known.now ≡ words file.now },
}

impl FileRule for Twice<'_> {
    ghost use Rattle.ui_file.specs.Rules.{KeepsTwice, count_in};

    ghost keeps = { λ r s k. KeepsTwice r.file.now s k };

    ghost count = { λ r s. count_in r.file.now s };

    fn first_in(&self, alloc: Global, s: Section) -> Result<Option<usize>, NoMemory> {
        match s {
            Section::Str => first_again(alloc, self.file.texts.items()),
            Section::PosBase => first_again(alloc, self.known.files.items()),
            Section::Pkg => first_again(alloc, self.known.paths.items()),
            Section::Name => first_again(alloc, self.known.names.items()),
            Section::Types => first_again(alloc, self.file.types.items()),
            Section::Meta | Section::Obj | Section::ObjExt | Section::ObjDict | Section::Body => {
                Ok(None)
            }
        }
    }
}
