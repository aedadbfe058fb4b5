ghost use Rattle.std.specs.Prelude.{◌≡◌, map, get_or};
ghost use Rattle.ui_file.specs.Words as words;
ghost use Rattle.ui_file.specs.Words.{said};
ghost use Rattle.ui_file.specs.Files.{no_name};
ghost use Rattle.ui_file.specs.Rules as rules;

use crate::in_order::{Order, are_in_order};
use crate::names::{name_at, name_before, sel_before, selected};
use std::alloc::Global;
use ui_base::Name;
use ui_edecl::{DeclaredMethodEl, ObjEl};
use ui_eobj::ObjectUse;
use ui_etype::{MethodEl, TypeEl};
use ui_file::{File, FileWords};
use ui_file_rules::{FileRule, Test, first_not, first_or_none};
use ui_frame::{NoMemory, Section};
use ui_strpos::{NameEl, NameKind};

// The objects of the public root ascend by name.
#[derive(Drop)]
struct Listed<'a> {
    names: &'a [Name],
}

impl Order<ObjectUse> for Listed<'_> {
    ghost use Rattle.std.specs.Prelude.{get_or};
    ghost use Rattle.ui_file.specs.Words.{nameless};
    ghost use Rattle.ui_file.specs.Rules.{name_before};

    ghost before = { λ l a b. name_before (get_or l.names.now a.object nameless)
        (get_or l.names.now b.object nameless) };

    fn is_before(&self, one: &ObjectUse, other: &ObjectUse) -> bool {
        name_before(
            name_at(self.names, one.object as usize),
            name_at(self.names, other.object as usize),
        )
    }
}

// The methods of an interface ascend by path and then by name.
#[derive(Drop)]
struct Methods<'a> {
    known: &'a FileWords,
}

impl Order<MethodEl> for Methods<'_> {
    ghost use Rattle.ui_file.specs.Words.{said};
    ghost use Rattle.ui_file.specs.Rules.{methods_in_order};

    ghost before = { λ l a b. methods_in_order (said l.known.now) a b };

    fn is_before(&self, one: &MethodEl, other: &MethodEl) -> bool {
        name_before(
            selected(self.known, &one.sel),
            selected(self.known, &other.sel),
        )
    }
}

// The methods of a defined type ascend by name and then by path.
#[derive(Drop)]
struct Declared<'a> {
    known: &'a FileWords,
}

impl Order<DeclaredMethodEl> for Declared<'_> {
    ghost use Rattle.ui_file.specs.Words.{said};
    ghost use Rattle.ui_file.specs.Rules.{declared_in_order};

    ghost before = { λ l a b. declared_in_order (said l.known.now) a b };

    fn is_before(&self, one: &DeclaredMethodEl, other: &DeclaredMethodEl) -> bool {
        sel_before(
            selected(self.known, &one.sel),
            selected(self.known, &other.sel),
        )
    }
}

// Whether the listed objects ascend by name.
fn listed_in_order(names: &[Name], objects: &[ObjectUse]) -> bool
    ensures { result ≡ rules.all_pairs rules.name_before
        (map (λ u. get_or names.now u.object words.nameless) objects.now) }
{
    are_in_order(&Listed { names }, objects)
}

fn is_stub(name: &NameEl) -> bool
    ensures { result ≡ rules.is_stub name.now.kind }
{
    match name.kind {
        NameKind::Stub => true,
        NameKind::Alias => false,
        NameKind::Const => false,
        NameKind::Defined => false,
        NameKind::Func => false,
        NameKind::Var => false,
    }
}

/// Whether an Obj is a stub, by its name.
pub(crate) fn is_stub_at(names: &[NameEl], k: usize) -> bool
    ensures { result ≡ rules.is_stub (get_or names.now k no_name).kind }
{
    match names.get(k) {
        Some(name) => is_stub(name),
        None => true,
    }
}

// Whether the numbers and orders of a Type are right.
fn type_counts(file: &File, known: &FileWords, el: &TypeEl) -> bool
    requires { said known.now ≡ words.words file.now }
    ensures { result ≡ rules.type_counts file.now el.now }
{
    match el {
        TypeEl::Named { object, args } => {
            is_stub_at(file.names.items(), *object as usize) || args.items().is_empty()
        }
        TypeEl::Interface { methods, .. } => are_in_order(&Methods { known }, methods.items()),
        TypeEl::Basic(_) => true,
        TypeEl::Pointer(_) => true,
        TypeEl::Slice(_) => true,
        TypeEl::Array { .. } => true,
        TypeEl::Map { .. } => true,
        TypeEl::Signature { .. } => true,
        TypeEl::Struct(_) => true,
        TypeEl::Union(_) => true,
        TypeEl::TypeParam(_) => true,
    }
}

fn object_counts(file: &File, known: &FileWords, object: &ObjEl) -> bool
    requires { said known.now ≡ words.words file.now }
    ensures { result ≡ rules.object_counts file.now object.now }
{
    match object {
        ObjEl::Defined { methods, .. } => are_in_order(&Declared { known }, methods.items()),
        ObjEl::Alias { .. } => true,
        ObjEl::Const { .. } => true,
        ObjEl::Func { .. } => true,
        ObjEl::Var { .. } => true,
        ObjEl::Stub => true,
    }
}

// That numbers and orders of Types are right.
#[derive(Drop)]
struct TypeCounts<'a> {
    file: &'a File,
    known: &'a FileWords,
    ghost agree: { said known.now ≡ words.words file.now },
}

impl Test for TypeCounts<'_> {
    ghost use Rattle.std.specs.Prelude.{get_or};
    ghost use Rattle.ui_file.specs.Rules.{type_counts, no_type};

    ghost passes = { λ t k. type_counts t.file.now (get_or t.file.now.types k no_type) };

    fn holds(&self, k: usize) -> bool {
        match self.file.types.items().get(k) {
            Some(el) => type_counts(self.file, self.known, el),
            None => true,
        }
    }
}

// That orders of Objs are right.
#[derive(Drop)]
struct ObjectCounts<'a> {
    file: &'a File,
    known: &'a FileWords,
    ghost agree: { said known.now ≡ words.words file.now },
}

impl Test for ObjectCounts<'_> {
    ghost use Rattle.std.specs.Prelude.{get_or};
    ghost use Rattle.ui_edecl.specs.declared.object.ObjEl.TheVariants.{Stub};
    ghost use Rattle.ui_file.specs.Rules.{object_counts};

    ghost passes = { λ t k. object_counts t.file.now (get_or t.file.now.objects k Stub) };

    fn holds(&self, k: usize) -> bool {
        match self.file.objects.items().get(k) {
            Some(object) => object_counts(self.file, self.known, object),
            None => true,
        }
    }
}

/// That type arguments are as many as there have to be, and that lists ascend by names and
/// packages.
#[derive(Drop)]
pub struct WrongCount<'a> {
    pub file: &'a File,
    pub known: &'a FileWords,
    pub ghost agree: { said known.now ≡ words.words file.now },
}

impl FileRule for WrongCount<'_> {
    ghost use Rattle.ui_file.specs.Rules.{KeepsCount, count_in};

    ghost keeps = { λ r s k. KeepsCount r.file.now s k };

    ghost count = { λ r s. count_in r.file.now s };

    fn first_in(&self, _alloc: Global, s: Section) -> Result<Option<usize>, NoMemory> {
        let file = self.file;
        let known = self.known;
        match s {
            Section::Meta => {
                let ascends = listed_in_order(known.names.items(), file.public.objects.items());
                Ok(first_or_none(ascends))
            }
            Section::Types => {
                let count = file.types.items().len();
                Ok(first_not(&TypeCounts { file, known }, count))
            }
            Section::Obj => {
                let count = file.objects.items().len();
                Ok(first_not(&ObjectCounts { file, known }, count))
            }
            _ => Ok(None),
        }
    }
}
