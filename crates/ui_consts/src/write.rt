// A linked file, written.
ghost use Rattle.std.specs.Prelude.{◌≡◌, ◌+◌, ◌*◌, ◌^◌, ◌≤◌, [], ◌∷◌, map, length, replicate, IfOk};
ghost use Rattle.std.specs.Prelude.{OnOk, vec_len};
ghost use Rattle.std.specs.List.{AllByRecursion, range_with_len};
ghost use Rattle.ui_exports.specs.Linked as linked_of;
ghost use Rattle.ui_strpos.specs.Elements as one;
ghost use Rattle.ui_strpos.specs.Format.{InGrammar};
ghost use Rattle.ui_strpos.specs.Reading.{Context};
ghost use Rattle.ui_frame.specs.Container.{no_elements};
ghost use Rattle.ui_eobj.specs.Objects as object;
ghost use Rattle.ui_eobj.specs.Roots as root;
ghost use Rattle.ui_consts.specs.Elements.{base_of, name_of, object_of, public_of, spelled};
ghost use Rattle.ui_consts.specs.Elements.{spelled_as, use_of};
ghost use Rattle.ui_consts.specs.Numbering.{Numbers, elements_of, entry};
ghost use Rattle.ui_consts.specs.Record.{Holds};
ghost use Rattle.ui_consts.specs.Size.{IsSmall};
ghost use Rattle.ui_consts.specs.Writing.{Adds, AddsAll, HasPlace, HasRoom, IsFront, IsMiddle};

use crate::numbered::{Entry, Numbered, number};
use crate::read::TYPE;
use std::alloc::{AllocError, Global};
use ui_base::{Items, Text};
use ui_eobj::{ConstEl, ObjectUse, PosEl, PublicRootEl};
use ui_exports::{Linked, NoMemory};
use ui_frame::{FrameOut, OutFault, Section};
use ui_strpos::{Element, NameEl, NameKind, PkgEl, PosBaseEl, write_element};

/// The elements that are the same in each file: that of no function, and a dictionary without
/// entries.
const EXTENSION: [u8; 1] = [0];

const DICTIONARY: [u8; 8] = [0; 8];

// Adds an element.
fn add(alloc: Global, out: &mut FrameOut, s: Section, bytes: &[u8]) -> Result<(), NoMemory>
    requires { HasPlace 1 (length bytes.now) out.old }
    ensures { OnOk result (Adds s (bytes.now ∷ []) (length bytes.now) out.old out.new) }
{
    match out.add(alloc, s, bytes) {
        Ok(_) => Ok(()),
        Err(OutFault::NoMemory) => Err(AllocError),
        Err(OutFault::Full) => unreachable!(),
    }
}

// Adds an element of fields.
fn add_element<E: Element>(
    alloc: Global,
    out: &mut FrameOut,
    s: Section,
    element: &E,
) -> Result<(), NoMemory>
    requires fits { (c : Context) × InGrammar E.format c element.now }
    requires place { HasPlace 1 (10 + 30 * length (E.format.items element.now)) out.old }
    ensures { OnOk result (Adds s (spelled_as E.format element.now ∷ [])
        (10 + 30 * length (E.format.items element.now)) out.old out.new) }
{
    let bytes = write_element(alloc, element)?;
    add(alloc, out, s, &bytes)?;
    Ok(())
}

// Adds an element of fields as a section's part.
fn add_one<E: Element>(
    alloc: Global,
    out: &mut FrameOut,
    s: Section,
    element: &E,
) -> Result<(), NoMemory>
    requires fits { (c : Context) × InGrammar E.format c element.now }
    requires few { length (E.format.items element.now) ≤ 2 ^ 16 }
    requires room { HasRoom 1 out.old }
    ensures { OnOk result (AddsAll s (spelled_as E.format element.now ∷ []) out.old out.new) }
{
    add_element(alloc, out, s, element)?;
    Ok(())
}

// Adds the Strings.
fn add_strings(alloc: Global, out: &mut FrameOut, strings: &[Text]) -> Result<(), NoMemory>
    requires few { length strings.now ≤ 2 ^ 14 }
    requires short { AllByRecursion (λ text. length text ≤ 4096) strings.now }
    requires room { HasRoom 1 out.old }
    ensures { OnOk result (AddsAll Section.Str strings.now out.old out.new) }
{
    for text in strings {
        add(alloc, out, Section::Str, text.bytes())?;
    }
    Ok(())
}

// Adds the PosBases.
fn add_bases(alloc: Global, out: &mut FrameOut, bases: &[u32]) -> Result<(), NoMemory>
    requires few { length bases.now ≤ 4096 }
    requires fits { (c : Context) × AllByRecursion (λ file. InGrammar one.posbase c (base_of file))
        bases.now }
    requires room { HasRoom 1 out.old }
    ensures { OnOk result (AddsAll Section.PosBase
        (map (λ file. spelled_as one.posbase (base_of file)) bases.now) out.old out.new) }
{
    for file in bases {
        add_element(alloc, out, Section::PosBase, &PosBaseEl { file: *file })?;
    }
    Ok(())
}

// The Name of a constant.
fn name_element(of: &Entry) -> NameEl
    ensures { result ≡ name_of (entry of.now) }
{
    NameEl {
        pkg: 0,
        name: of.name,
        kind: NameKind::Const,
    }
}

// Adds the Names.
fn add_names(alloc: Global, out: &mut FrameOut, entries: &[Entry]) -> Result<(), NoMemory>
    requires few { length entries.now ≤ 4096 }
    requires fits { (c : Context) × AllByRecursion (λ e. InGrammar one.name c (name_of e))
        (map entry entries.now) }
    requires room { HasRoom 1 out.old }
    ensures { OnOk result (AddsAll Section.Name
        (map (λ e. spelled_as one.name (name_of e)) (map entry entries.now)) out.old out.new) }
{
    for entry in entries {
        add_element(alloc, out, Section::Name, &name_element(entry))?;
    }
    Ok(())
}

// The Obj of a constant.
fn object_element(of: &Entry) -> ConstEl
    ensures { result ≡ object_of (entry of.now) }
{
    ConstEl {
        pos: PosEl {
            base: of.base,
            line: of.line,
            column: of.column,
        },
        ty: 0,
        value: of.value,
    }
}

// Adds the Objs.
fn add_objects(alloc: Global, out: &mut FrameOut, entries: &[Entry]) -> Result<(), NoMemory>
    requires few { length entries.now ≤ 4096 }
    requires fits { (c : Context) × AllByRecursion (λ e. InGrammar object.constant c (object_of e))
        (map entry entries.now) }
    requires room { HasRoom 1 out.old }
    ensures { OnOk result (AddsAll Section.Obj
        (map (λ e. spelled_as object.constant (object_of e)) (map entry entries.now)) out.old
        out.new) }
{
    for entry in entries {
        add_element(alloc, out, Section::Obj, &object_element(entry))?;
    }
    Ok(())
}

// Adds an element so many times.
fn add_same(
    alloc: Global,
    out: &mut FrameOut,
    s: Section,
    bytes: &[u8],
    count: usize,
) -> Result<(), NoMemory>
    requires few { count ≤ 4096 }
    requires short { length bytes.now ≤ 4096 }
    requires room { HasRoom 1 out.old }
    ensures { OnOk result (AddsAll s (replicate count bytes.now) out.old out.new) }
{
    for _i in 0..count {
        add(alloc, out, s, bytes)?;
    }
    Ok(())
}

// The uses of so many objects, in their order.
fn object_uses(alloc: Global, count: u32) -> Result<Vec<ObjectUse>, NoMemory>
    ensures { IfOk result (λ v. v.items ≡ map use_of (range_with_len 0 count)) }
{
    let mut uses = Vec::new(alloc);
    for object in 0..count {
        uses.push(ObjectUse { object })?;
    }
    Ok(uses)
}

// Adds the elements before the roots.
fn add_front(alloc: Global, out: &mut FrameOut, x: &Numbered) -> Result<(), NoMemory>
    requires numbers { (l : linked_of.Linked) × Numbers x.now l }
    requires empty { out.old ≡ no_elements }
    ensures { OnOk result (IsFront (elements_of x.now) out.new) }
{
    let package = PkgEl {
        path: x.path,
        name: x.name,
    };
    add_strings(alloc, out, &x.strings)?;
    add_bases(alloc, out, &x.bases)?;
    add_one(alloc, out, Section::Pkg, &package)?;
    add_names(alloc, out, &x.entries)?;
    Ok(())
}

// Adds the elements of constants.
fn add_constants(alloc: Global, out: &mut FrameOut, x: &Numbered) -> Result<(), NoMemory>
    requires numbers { (l : linked_of.Linked) × Numbers x.now l }
    requires front { IsFront (elements_of x.now) out.old }
    ensures { OnOk result (IsMiddle (elements_of x.now) out.new) }
{
    let count = x.entries.len();
    add_same(alloc, out, Section::Types, &TYPE, count.min(1))?;
    add_objects(alloc, out, &x.entries)?;
    add_same(alloc, out, Section::ObjExt, &EXTENSION, count)?;
    add_same(alloc, out, Section::ObjDict, &DICTIONARY, count)?;
    Ok(())
}

// Adds the public root.
fn add_public_root(alloc: Global, out: &mut FrameOut, x: &Numbered) -> Result<(), NoMemory>
    requires numbers { (l : linked_of.Linked) × Numbers x.now l }
    requires room { HasRoom 1 out.old }
    ensures { OnOk result (AddsAll Section.Meta
        (spelled_as root.public_root (public_of (elements_of x.now)) ∷ []) out.old out.new) }
{
    let objects = Items::new(object_uses(alloc, x.entries.len() as u32)?);
    add_one(alloc, out, Section::Meta, &PublicRootEl { pkg: 0, objects })?;
    Ok(())
}

// The elements of a numbered package.
fn write_elements(alloc: Global, x: &Numbered) -> Result<FrameOut, NoMemory>
    requires { (l : linked_of.Linked) × Numbers x.now l }
    ensures spelled { IfOk result (λ out. out ≡ spelled (elements_of x.now)) }
    ensures room { IfOk result (HasRoom 0) }
{
    let mut out = FrameOut::new(alloc);
    add_front(alloc, &mut out, x)?;
    add_constants(alloc, &mut out, x)?;
    add_public_root(alloc, &mut out, x)?;
    add_one(alloc, &mut out, Section::Meta, &x.below)?;
    Ok(out)
}

/// The linked file of a package and the packages below it: a container whose parts stand for them,
/// of at most 2^30 bytes.
pub fn write_linked(alloc: Global, linked: &Linked) -> Result<Vec<u8>, NoMemory>
    requires { IsSmall linked.now }
    ensures holds { IfOk result (λ v. Holds v.items linked.now) }
    ensures bound { IfOk result (λ v. vec_len v ≤ 2 ^ 30) }
{
    let x = number(alloc, linked)?;
    let out = write_elements(alloc, &x)?;
    let file = out.finish(alloc)?;
    Ok(file)
}
