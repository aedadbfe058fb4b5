ghost use Rattle.std.specs.Prelude.{◌≡◌, ◌<◌, [], nat_eq, IfOk, length, get_or};
ghost use Rattle.ui_frame.specs.Container.{section};
ghost use Rattle.ui_frame.specs.Sections.{number_of};
ghost use Rattle.ui_file.specs.Files.{bad, counts_in, bodies_in, file_in};
ghost use Rattle.ui_sections.specs.Told.{Tells};
ghost use Rattle.ui_sections.specs.Spelled.{same_counts, IsCounted, AreRoots, IsFront};
ghost use Rattle.ui_sections.specs.Spelled.{AreDeclared, IsSpelled};
ghost use Rattle.ui_sections.specs.Stages.{roots_in, front_in, declared_in, file_of};

use crate::fault::ValidFault;
use crate::section::{read_at, read_section};
use crate::shapes::{ExtensionShapes, ObjectShapes, Plain};
use std::alloc::Global;
use ui_base::{Items, Text};
use ui_edecl::{DictEl, ObjEl, ObjExtEl};
use ui_eobj::{PrivateRootEl, PublicRootEl};
use ui_etype::TypeEl;
use ui_file::{BadFile, File};
use ui_frame::{Frame, NoMemory, Section};
use ui_strpos::{Cause, NameEl, PkgEl, PosBaseEl};

/// The Strings, and the roots.
#[derive(Drop)]
pub(crate) struct Roots {
    pub(crate) texts: Items<Text>,
    pub(crate) public: PublicRootEl,
    pub(crate) private: PrivateRootEl,
}

/// The elements by which those of declarations are read.
#[derive(Drop)]
pub(crate) struct Front {
    pub(crate) bases: Items<PosBaseEl>,
    pub(crate) packages: Items<PkgEl>,
    pub(crate) names: Items<NameEl>,
    pub(crate) types: Items<TypeEl>,
}

/// The elements of declarations.
#[derive(Drop)]
pub(crate) struct Declared {
    pub(crate) objects: Items<ObjEl>,
    pub(crate) extensions: Items<ObjExtEl>,
    pub(crate) dictionaries: Items<DictEl>,
}

fn at_first(s: Section, cause: Cause) -> ValidFault
    ensures { result ≡ ValidFault.Bad (bad (number_of s) 0 0 cause) }
{
    ValidFault::Bad(BadFile {
        section: s.number(),
        element: 0,
        offset: 0,
        cause,
    })
}

// Whether two sections have as many elements.
fn same_count(frame: &Frame<'_>, s: Section, t: Section) -> bool
    ensures { result ≡ nat_eq (length (section s frame.now)) (length (section t frame.now)) }
{
    frame.count(s) == frame.count(t)
}

// Whether the four sections of declarations have one length.
fn same_counts(frame: &Frame<'_>) -> bool
    ensures { result ≡ same_counts frame.now }
{
    same_count(frame, Section::Obj, Section::Name)
        && (same_count(frame, Section::ObjExt, Section::Name)
            && same_count(frame, Section::ObjDict, Section::Name))
}

// Tests the numbers of elements.
#[tactic(auto, using(crate::proofs::Numbers::no_roots, crate::proofs::Numbers::other_counts, crate::proofs::Numbers::counts_pass, crate::proofs::Numbers::are_counted))]
fn test_counts(frame: &Frame<'_>) -> Result<(), ValidFault>
    ensures counts { Tells (λ u. u) result (counts_in frame.now) }
    ensures counted { IfOk result (λ _. IsCounted frame.now) }
{
    if frame.count(Section::Meta) != 2 {
        return Err(at_first(Section::Meta, Cause::WrongCount));
    }
    if !same_counts(frame) {
        return Err(at_first(Section::Obj, Cause::WrongCount));
    }
    Ok(())
}

// Tests that there is no Body.
#[tactic(auto, using(crate::proofs::Numbers::no_bodies, crate::proofs::Numbers::some_bodies))]
fn test_bodies(frame: &Frame<'_>) -> Result<(), ValidFault>
    ensures read { Tells (λ u. u) result (bodies_in frame.now) }
    ensures none { IfOk result (λ _. length (section Section.Body frame.now) ≡ 0) }
{
    if frame.count(Section::Body) != 0 {
        return Err(at_first(Section::Body, Cause::BadCode));
    }
    Ok(())
}

// A String that there is.
fn text_at(alloc: Global, frame: &Frame<'_>, k: u32) -> Result<Text, NoMemory>
    requires { k < length (section Section.Str frame.now) }
    ensures { IfOk result (λ t. t ≡ get_or (section Section.Str frame.now) k []) }
{
    match frame.element(Section::Str, k) {
        Some(bytes) => Text::from_slice(alloc, bytes),
        None => unreachable!(),
    }
}

// The String elements.
fn texts(alloc: Global, frame: &Frame<'_>) -> Result<Items<Text>, NoMemory>
    ensures { IfOk result (λ v. v ≡ section Section.Str frame.now) }
{
    let mut texts = Vec::new(alloc);
    'texts: for k in 0..frame.count(Section::Str) {
        let text = text_at(alloc, frame, k)?;
        texts.push(text)?;
    }
    Ok(Items::new(texts))
}

// The numbers of elements, the Strings, and the roots.
#[tactic(auto, using(crate::proofs::Stages::counts_fail, crate::proofs::Stages::public_fails, crate::proofs::Stages::private_fails, crate::proofs::Stages::roots_read, crate::proofs::Counted::roots_found))]
fn read_roots<'a>(alloc: Global, frame: &'a Frame<'a>) -> Result<Roots, ValidFault>
    ensures read { Tells (λ r. r) result (roots_in frame.now) }
    ensures found { IfOk result (AreRoots frame.now) }
{
    test_counts(frame)?;
    let public = read_at(alloc, frame, Section::Meta, 0, &Plain {})?;
    let private = read_at(alloc, frame, Section::Meta, 1, &Plain {})?;
    let texts = texts(alloc, frame)?;
    Ok(Roots {
        texts,
        public,
        private,
    })
}

// From the files to the types.
#[tactic(auto, using(crate::proofs::Stages::bases_fail, crate::proofs::Stages::packages_fail, crate::proofs::Stages::names_fail, crate::proofs::Stages::types_fail, crate::proofs::Stages::front_read, crate::proofs::Counted::front_found))]
fn read_front<'a>(alloc: Global, frame: &'a Frame<'a>) -> Result<Front, ValidFault>
    ensures read { Tells (λ f. f) result (front_in frame.now) }
    ensures found { IfOk result (IsFront frame.now) }
{
    let bases = read_section(alloc, frame, Section::PosBase, &Plain {})?;
    let packages = read_section(alloc, frame, Section::Pkg, &Plain {})?;
    let names = read_section(alloc, frame, Section::Name, &Plain {})?;
    let types = read_section(alloc, frame, Section::Types, &Plain {})?;
    Ok(Front {
        bases: Items::new(bases),
        packages: Items::new(packages),
        names: Items::new(names),
        types: Items::new(types),
    })
}

// The declarations, and that no body is there.
#[tactic(auto, using(crate::proofs::Stages::objects_fail, crate::proofs::Stages::extensions_fail, crate::proofs::Stages::dictionaries_fail, crate::proofs::Stages::bodies_fail, crate::proofs::Stages::declared_read, crate::proofs::Counted::declared_found))]
fn read_declared<'a>(
    alloc: Global,
    frame: &'a Frame<'a>,
    names: &'a [NameEl],
) -> Result<Declared, ValidFault>
    ensures read { Tells (λ d. d) result (declared_in names.now frame.now) }
    ensures found { IfOk result (AreDeclared frame.now names.now) }
{
    let shapes = ObjectShapes {
        names: &*names,
        frame: &*frame,
    };
    let objects = read_section(alloc, frame, Section::Obj, &shapes)?;
    let shapes = ExtensionShapes {
        names: &*names,
        objects: &objects,
        frame: &*frame,
    };
    let extensions = read_section(alloc, frame, Section::ObjExt, &shapes)?;
    let dictionaries = read_section(alloc, frame, Section::ObjDict, &Plain {})?;
    test_bodies(frame)?;
    Ok(Declared {
        objects: Items::new(objects),
        extensions: Items::new(extensions),
        dictionaries: Items::new(dictionaries),
    })
}

fn joined(roots: Roots, front: Front, declared: Declared) -> File
    ensures { result ≡ file_of roots front declared }
{
    File {
        texts: roots.texts,
        public: roots.public,
        private: roots.private,
        bases: front.bases,
        packages: front.packages,
        names: front.names,
        types: front.types,
        objects: declared.objects,
        extensions: declared.extensions,
        dictionaries: declared.dictionaries,
    }
}

/// The file that a container's elements spell; or the first element that isn't in its grammar.
#[tactic(auto, using(crate::proofs::Stages::roots_fail, crate::proofs::Stages::front_fails, crate::proofs::Stages::declared_fail, crate::proofs::Stages::file_read, crate::proofs::Counted::all_spelled))]
pub fn read_file<'a>(alloc: Global, frame: &'a Frame<'a>) -> Result<File, ValidFault>
    // The file, or the first test that fails.
    ensures read { Tells (λ x. x) result (file_in frame.now) }
    // The parts are its spelling, and each element is in its grammar.
    ensures found { IfOk result (IsSpelled frame.now) }
{
    let roots = read_roots(alloc, frame)?;
    let front = read_front(alloc, frame)?;
    let declared = read_declared(alloc, frame, front.names.items())?;
    Ok(joined(roots, front, declared))
}
