ghost use Rattle.std.specs.Prelude.{◌≡◌};
ghost use Rattle.ui_file.specs.Words.{said, words};
ghost use Rattle.ui_file.specs.Rules as rules;
ghost use Rattle.ui_name_rules.specs.Shown.{shown};

use crate::count_rule::is_stub_at;
use crate::names::{Lent, name_at};
use std::alloc::Global;
use ui_base::Name;
use ui_file::{File, FileKind, FileWords};
use ui_file_rules::{FileRule, Test, first_not};
use ui_frame::{NoMemory, Section};
use ui_strpos::NameEl;
use ui_words::text_at;

// Whether a name may be a stub, or none, in a file of this kind.
fn kind_fits(kind: FileKind, own: bool, builtin: bool, stub: bool) -> bool
    ensures { result ≡ rules.kind_fits kind own builtin stub }
{
    match kind {
        FileKind::Linked => !stub || builtin,
        FileKind::Unit => { if stub { !own } else { own } }
    }
}

// Whether a name of builtin is the stub `error`.
fn builtin_fits(name: &[u8], builtin: bool, stub: bool) -> bool
    ensures { result ≡ rules.builtin_fits name.now builtin stub }
{
    !builtin || (stub && name == b"error".as_slice())
}

fn stub_fits(kind: FileKind, own: &[u8], name: Lent<'_>, stub: bool) -> bool
    ensures { result ≡ rules.stub_fits kind own.now (shown name.entry) stub }
{
    let builtin = name.path == b"builtin".as_slice();
    kind_fits(kind, name.path == own, builtin, stub) && builtin_fits(name.name, builtin, stub)
}

// That a name is a stub where it has to be.
#[derive(Drop)]
struct Names<'a> {
    kind: FileKind,
    own: &'a [u8],
    names: &'a [Name],
    els: &'a [NameEl],
}

impl Test for Names<'_> {
    ghost use Rattle.std.specs.Prelude.{get_or};
    ghost use Rattle.ui_file.specs.Files.{no_name};
    ghost use Rattle.ui_file.specs.Words.{nameless};
    ghost use Rattle.ui_file.specs.Rules.{stub_fits, is_stub};

    ghost passes = { λ t k. stub_fits t.kind t.own.now (get_or t.names.now k nameless)
        (is_stub (get_or t.els.now k no_name).kind) };

    fn holds(&self, k: usize) -> bool {
        let name = name_at(self.names, k);
        stub_fits(self.kind, self.own, name, is_stub_at(self.els, k))
    }
}

/// That names are stubs where they have to be, by the kind of the file.
#[derive(Drop)]
pub struct StubLeft<'a> {
    pub kind: FileKind,
    pub file: &'a File,
    pub known: &'a FileWords,
    pub ghost agree: { said known.now ≡ words file.now },
}

impl FileRule for StubLeft<'_> {
    ghost use Rattle.ui_file.specs.Rules.{KeepsStub, count_in};

    ghost keeps = { λ r s k. KeepsStub r.kind r.file.now s k };

    ghost count = { λ r s. count_in r.file.now s };

    fn first_in(&self, _alloc: Global, s: Section) -> Result<Option<usize>, NoMemory> {
        match s {
            Section::Name => {
                let own = text_at(self.known.paths.items(), self.file.public.pkg);
                let names = self.known.names.items();
                let els = self.file.names.items();
                let test = Names {
                    kind: self.kind,
                    own,
                    names,
                    els,
                };
                let count = els.len();
                Ok(first_not(&test, count))
            }
            _ => Ok(None),
        }
    }
}
