// A linked file, read.
ghost use Rattle.std.specs.Prelude.{◌≡◌, ◌<◌, ◌^◌, [], length, map, option_map, IfOk, IfSome};
ghost use Rattle.std.specs.Prelude.{bytes_eq};
ghost use Rattle.std.specs.Option.{option_copied};
ghost use Rattle.std.specs.FinMap.{from_entries};
ghost use Rattle.ui_frame.specs.Container.{section};
ghost use Rattle.ui_exports.specs.Adding.{with_decls};
ghost use Rattle.ui_exports.specs.Constants.{declaration};
ghost use Rattle.ui_exports.specs.Linked.{belows};
ghost use Rattle.ui_consts.specs.Known.{HavePrints, IsSmallValue};
ghost use Rattle.ui_consts.specs.Record.{below_by, over, value_of};
ghost use Rattle.ui_consts.specs.Reading as reading;
ghost use Rattle.ui_consts.specs.Reading.{record_in};

use std::alloc::{AllocError, Global};
use ui_base::{Pos, Text};
use ui_eobj::{BelowEl, ConstEl, PrivateRootEl, ValueEl, magnitude_number};
use ui_exports::{Below, Constant, Linked, NoMemory, Package};
use ui_frame::{Frame, Section};
use ui_strpos::{Element, ElementFault, NameEl, NameKind, PkgEl, PosBaseEl, Shape, read_element};

/// The elements of these files don't look at a shape.
const PLAIN: Shape = Shape {
    code: 0,
    params: 0,
    methods: 0,
};

/// The Type of an untyped whole number.
pub(crate) const TYPE: [u8; 3] = [0, 0, 20];

// An element by its place, or nothing where no bytes, or others, stand there.
#[tactic(auto, unfolding(crate::specs::Reading::element))]
fn element_at<'a, E: Element + Drop>(
    alloc: Global,
    frame: &'a Frame<'a>,
    s: Section,
    k: u32,
) -> Result<Option<E>, NoMemory>
    ensures read { IfOk result (λ o. o ≡ reading.element E.format frame.now s k) }
    ensures fits { IfOk result (λ o. IfSome o (E.format.fits (over frame.now))) }
{
    let Some(bytes) = frame.element(s, k) else {
        return Ok(None);
    };
    match read_element::<E>(alloc, bytes, 0, frame, &PLAIN) {
        Ok(element) => Ok(Some(element)),
        Err(ElementFault::Bad { .. }) => Ok(None),
        Err(ElementFault::NoMemory) => Err(AllocError),
    }
}

// A String by its place. An element that was read uses only those that there are.
fn text_at<'a>(frame: &Frame<'a>, k: u32) -> &'a [u8]
    ensures { result.now ≡ reading.text_in frame.now k }
{
    match frame.element(Section::Str, k) {
        Some(text) => text,
        None => &[],
    }
}

// The path and the name of the first Pkg, as a package that declares nothing yet.
#[tactic(auto, unfolding(ui_exports::specs::Constants::declarations_of))]
fn package_in<'a>(alloc: Global, frame: &'a Frame<'a>) -> Result<Option<Package>, NoMemory>
    ensures { IfOk result (λ o. o ≡ option_map
        (λ p. record { path = p.0; name = p.1; decls = from_entries [] })
        (reading.package_in frame.now)) }
{
    let Some(package) = element_at::<PkgEl>(alloc, frame, Section::Pkg, 0)? else {
        return Ok(None);
    };
    let path = text_at(frame, package.path);
    let name = text_at(frame, package.name);
    Ok(Some(Package::new(alloc, path, name)?))
}

// The name of a constant of the first Pkg.
fn const_name<'a>(frame: &Frame<'a>, name: &NameEl) -> Option<&'a [u8]>
    ensures { option_copied result ≡ reading.const_name frame.now name.now }
{
    if name.pkg == 0 && matches!(name.kind, NameKind::Const) {
        Some(text_at(frame, name.name))
    } else {
        None
    }
}

// The name of a constant by its place.
fn name_in<'a>(alloc: Global, frame: &'a Frame<'a>, k: u32) -> Result<Option<&'a [u8]>, NoMemory>
    ensures { IfOk result (λ o. option_copied o ≡ reading.name_in frame.now k) }
{
    match element_at::<NameEl>(alloc, frame, Section::Name, k)? {
        Some(name) => Ok(const_name(frame, &name)),
        None => Ok(None),
    }
}

// The file's name of a PosBase by its place.
fn file_in<'a>(alloc: Global, frame: &'a Frame<'a>, k: u32) -> Result<Option<&'a [u8]>, NoMemory>
    ensures { IfOk result (λ o. option_copied o ≡ reading.file_in frame.now k) }
{
    match element_at::<PosBaseEl>(alloc, frame, Section::PosBase, k)? {
        Some(base) => Ok(Some(text_at(frame, base.file))),
        None => Ok(None),
    }
}

// Whether a Type is that of an untyped whole number.
fn is_whole_type(frame: &Frame, k: u32) -> bool
    ensures { result ≡ reading.is_whole_type frame.now k }
{
    match frame.element(Section::Types, k) {
        Some(bytes) => bytes == TYPE.as_slice(),
        None => false,
    }
}

// A value that isn't negative.
fn value_in(frame: &Frame, value: ValueEl) -> Option<u128>
    requires { IsSmallValue (section Section.Str frame.now) value }
    ensures { result ≡ value_of (section Section.Str frame.now) value }
{
    match value {
        ValueEl::Int64(number) => u128::try_from(number).ok(),
        ValueEl::Big {
            magnitude,
            negative: false,
        } => magnitude_number(text_at(frame, magnitude)),
        ValueEl::Big { negative: true, .. } => None,
    }
}

// What a constant declares, by its Obj.
fn constant_of<'a>(
    alloc: Global,
    frame: &'a Frame<'a>,
    object: &ConstEl,
) -> Result<Option<Constant>, NoMemory>
    requires { IsSmallValue (section Section.Str frame.now) object.now.value }
    ensures { IfOk result (λ o. option_map declaration o ≡ reading.declared frame.now object.now) }
{
    if !is_whole_type(frame, object.ty) {
        return Ok(None);
    }
    let Some(file) = file_in(alloc, frame, object.pos.base)? else {
        return Ok(None);
    };
    let Some(value) = value_in(frame, object.value) else {
        return Ok(None);
    };
    let file = Text::from_slice(alloc, file)?;
    let pos = Pos {
        file,
        line: object.pos.line,
        col: object.pos.column,
    };
    Ok(Some(Constant { pos, value }))
}

// What a constant declares, by its place.
fn object_in<'a>(alloc: Global, frame: &'a Frame<'a>, k: u32) -> Result<Option<Constant>, NoMemory>
    ensures { IfOk result (λ o. option_map declaration o ≡ reading.object_in frame.now k) }
{
    let Some(object) = element_at::<ConstEl>(alloc, frame, Section::Obj, k)? else {
        return Ok(None);
    };
    let constant = constant_of(alloc, frame, &object)?;
    Ok(constant)
}

// A constant and its name, by its place.
#[tactic(auto, unfolding(crate::specs::Reading::entry_in))]
fn entry_in<'a>(
    alloc: Global,
    frame: &'a Frame<'a>,
    k: u32,
) -> Result<Option<(&'a [u8], Constant)>, NoMemory>
    ensures { IfOk result (λ o. option_map (λ e. (e.0.now, declaration e.1)) o
        ≡ reading.entry_in frame.now k) }
{
    let Some(name) = name_in(alloc, frame, k)? else {
        return Ok(None);
    };
    let Some(constant) = object_in(alloc, frame, k)? else {
        return Ok(None);
    };
    Ok(Some((name, constant)))
}

// A package with the constants, the first of two of one name.
fn with_constants<'a>(
    alloc: Global,
    frame: &'a Frame<'a>,
    empty: Package,
) -> Result<Option<Package>, NoMemory>
    requires { empty.decls ≡ from_entries [] }
    ensures { IfOk result (λ o. o ≡ option_map (λ es. with_decls empty (from_entries es))
        (reading.entries_in frame.now)) }
{
    let mut package = empty;
    let count = frame.count(Section::Name);
    if frame.count(Section::Obj) != count {
        return Ok(None);
    }
    for k in (0..count).rev() {
        let Some((name, constant)) = entry_in(alloc, frame, k)? else {
            return Ok(None);
        };
        let name = Vec::from_slice(alloc, name)?;
        package.declare(name, constant)?;
    }
    Ok(Some(package))
}

// What the package exports.
#[tactic(auto, unfolding(crate::specs::Reading::export_in))]
fn export_in<'a>(alloc: Global, frame: &'a Frame<'a>) -> Result<Option<Package>, NoMemory>
    ensures { IfOk result (λ o. o ≡ reading.export_in frame.now) }
{
    let Some(package) = package_in(alloc, frame)? else {
        return Ok(None);
    };
    let package = with_constants(alloc, frame, package)?;
    Ok(package)
}

// A package below by its entry.
fn below_of(alloc: Global, frame: &Frame, entry: &BelowEl) -> Result<Below, NoMemory>
    requires { length (reading.text_in frame.now entry.now.print) ≡ 8 }
    ensures { IfOk result (λ b. record { path = b.path; print = b.print; direct = b.direct }
        ≡ below_by (section Section.Str frame.now) entry.now) }
{
    let path = Text::from_slice(alloc, text_at(frame, entry.path))?;
    let mut print = [0; 8];
    print.copy_from_slice(text_at(frame, entry.print));
    Ok(Below {
        path,
        print,
        direct: entry.direct,
    })
}

// The packages below by their entries.
fn belows_of(alloc: Global, frame: &Frame, entries: &[BelowEl]) -> Result<Vec<Below>, NoMemory>
    requires { HavePrints (section Section.Str frame.now) entries.now }
    ensures { IfOk result (λ v. belows v ≡ map (below_by (section Section.Str frame.now))
        entries.now) }
{
    let mut belows = Vec::new(alloc);
    for entry in entries {
        belows.push(below_of(alloc, frame, entry)?)?;
    }
    Ok(belows)
}

// The packages below.
#[tactic(auto, unfolding(crate::specs::Reading::below_in))]
fn below_in<'a>(alloc: Global, frame: &'a Frame<'a>) -> Result<Option<Vec<Below>>, NoMemory>
    ensures { IfOk result (λ o. option_map belows o ≡ reading.below_in frame.now) }
{
    let Some(root) = element_at::<PrivateRootEl>(alloc, frame, Section::Meta, 1)? else {
        return Ok(None);
    };
    let belows = belows_of(alloc, frame, root.below.items())?;
    Ok(Some(belows))
}

/// What an opened container stands for, or nothing where it stands for nothing. Looks at the
/// package, the constants and what these use, and the private root; not at the public root, and at
/// no element that nothing uses.
#[tactic(auto, unfolding(crate::specs::Reading::record_in))]
pub fn read_linked(alloc: Global, frame: &Frame) -> Result<Option<Linked>, NoMemory>
    ensures { IfOk result (λ o. o ≡ record_in frame.now) }
{
    let Some(package) = export_in(alloc, frame)? else {
        return Ok(None);
    };
    let Some(below) = below_in(alloc, frame)? else {
        return Ok(None);
    };
    Ok(Some(Linked { package, below }))
}
