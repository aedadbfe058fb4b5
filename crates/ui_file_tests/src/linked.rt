//! Linked files of packages of constants.

ghost use Rattle.std.specs.Prelude.{◌≡◌, [], ◌∷◌, replicate, true, IfOk, OnOk};
ghost use Rattle.std.specs.FinMap.{insert};
ghost use Rattle.ui_base.specs.Names.{is_name};
ghost use Rattle.ui_exports.specs.Adding.{with_decls};
ghost use Rattle.ui_exports.specs.Linked.{below};
ghost use Rattle.ui_consts.specs.Size.{IsSmall};

use std::alloc::Global;
use std::process::Abort;
use std::test::*;
use ui_base::{Pos, Text, is_name};
use ui_consts::{Below, Constant, Linked, NoMemory, Package, read_linked, write_linked};
use ui_frame::{Frame, FrameFault, FrameOut, Section};

// What a file stands for, if it is a container that stands for a package.
fn read_file(alloc: Global, file: &[u8]) -> Result<Option<Linked>, NoMemory> {
    match Frame::open(file) {
        Ok(frame) => read_linked(alloc, &frame),
        Err(_) => Ok(None),
    }
}

// Stops the test where the bytes are no name.
fn assert_name(rt: &impl Abort, name: &[u8])
    ensures { is_name name.now ≡ true }
{
    assert!(rt; is_name(name));
}

// Declares a constant in the file `f`, and gives whether its name is new.
fn declare(
    alloc: Global,
    package: &mut Package,
    name: &[u8],
    line: u32,
    value: u128,
) -> Result<bool, NoMemory>
    ensures { OnOk result («package».new ≡ with_decls «package».old
        (insert «package».old.decls name.now (record {
          file = 102 ∷ [];
          line = line;
          column = 7;
          value = value;
        }))) }
{
    let file = Text::from_slice(alloc, b"f")?;
    let pos = Pos { file, line, col: 7 };
    let name = Vec::from_slice(alloc, name)?;
    package.declare(name, Constant { pos, value })
}

// A package below, always of one fingerprint.
fn below_of(alloc: Global, path: &[u8], direct: bool) -> Result<Below, NoMemory>
    ensures { IfOk result (λ b. below b ≡ record {
      path = path.now;
      print = replicate 8 9;
      direct = direct;
    }) }
{
    let path = Text::from_slice(alloc, path)?;
    let print = [9; 8];
    Ok(Below {
        path,
        print,
        direct,
    })
}

// The package `x/a` with two constants, over a direct import and one that isn't direct, of one
// fingerprint.
fn sample(rt: &(impl Abort + AllocGlobal)) -> Result<Linked, NoMemory>
    ensures { IfOk result IsSmall }
{
    let alloc = rt.alloc();
    assert_name(rt, b"a");
    assert_name(rt, b"N");
    assert_name(rt, b"M");
    let mut package = Package::new(alloc, b"x/a", b"a")?;
    declare(alloc, &mut package, b"N", 3, 7)?;
    declare(alloc, &mut package, b"M", 4, (1 << 127) - 1)?;
    let mut below = Vec::new(alloc);
    below.push(below_of(alloc, b"b", true)?)?;
    below.push(below_of(alloc, b"c", false)?)?;
    Ok(Linked { package, below })
}

// What was read is the sample.
fn compare(rt: &impl Abort, read: &Linked) {
    assert_eq!(rt;
        (read.package.path(), read.package.name()),
        (b"x/a".as_slice(), b"a".as_slice())
    );
    assert_eq!(rt; read.package.value(b"N"), Some(7));
    assert_eq!(rt; read.package.value(b"M"), Some((1 << 127) - 1));
    assert_eq!(rt; read.below.len(), 2);
    assert!(rt; read.below[0].direct && !read.below[1].direct);
    assert_eq!(rt;
        (read.below[0].print, read.below[1].print),
        ([9; 8], [9; 8])
    );
}

// The text of what a file stands for, which is the sample.
fn read_text(rt: &(impl Abort + AllocGlobal), file: &[u8]) -> Result<String, Fail> {
    let read = read_file(rt.alloc(), file)?.ok_or("no package")?;
    compare(rt, &read);
    Ok(format!(in rt.alloc(); "{read:?}")?)
}

// The text of the sample, and its file.
fn written(rt: &(impl Abort + AllocGlobal)) -> Result<(String, Vec<u8>), NoMemory> {
    let linked = sample(rt)?;
    let text = format!(in rt.alloc(); "{linked:?}")?;
    let file = write_linked(rt.alloc(), &linked)?;
    Ok((text, file))
}

#[test]
fn read_again(rt: HostRuntime) -> Result<(), Fail> {
    let (text, file) = written(&rt)?;
    // The public root: the Pkg, and the constants by their names.
    assert_eq!(rt;
        Frame::open(&file)?.element(Section::Meta, 0),
        Some(b"\x03\x03\0\x06\0\x06\x01\0\0\x02\0\x01\0\0\x02\0".as_slice())
    );
    for _turn in 0..2 {
        assert_eq!(rt; read_text(&rt, &file)?, text);
    }
    Ok(())
}

#[test]
fn declared_again(rt: HostRuntime) -> Result<(), Fail> {
    let mut package = Package::new(rt.alloc(), b"x/a", b"a")?;
    for (value, is_new) in [(7, true), (8, false)] {
        assert_eq!(rt; declare(rt.alloc(), &mut package, b"N", 3, value)?, is_new);
        assert_eq!(rt; package.value(b"N"), Some(value));
    }
    Ok(())
}

type Part = (Section, &'static [u8]);

// The package `a` and the roots of a file without constants.
const PATH: Part = (Section::Str, b"a");

const PACKAGE: Part = (Section::Pkg, b"\x01\0\0\0\0");

const PUBLIC: Part = (Section::Meta, b"\x01\x03\0\0\0\0");

const PRIVATE: Part = (Section::Meta, b"\0\0");

// The Strings of a constant `N` in the file `f`, and the elements that use them.
const FILE: Part = (Section::Str, b"f");

const NAME: Part = (Section::Str, b"N");

const BASE: Part = (Section::PosBase, b"\x01\0\x01\0\x01");

const CONSTANT: Part = (Section::Name, b"\x02\x03\0\0\x02\0\x01\x01");

const WHOLE: Part = (Section::Types, b"\0\0\x14");

const SEVEN: Part = (
    Section::Obj,
    b"\x02\x02\0\x05\0\x01\0\x03\x07\0\x01\0\x02\x0e",
);

// An element that nothing uses.
const UNUSED: Part = (Section::Body, b"x");

// The container of these elements.
fn file_of(alloc: Global, parts: &[Part]) -> Result<Vec<u8>, Fail> {
    let mut out = FrameOut::new(alloc);
    for (section, bytes) in parts {
        out.add(alloc, *section, bytes)?;
    }
    Ok(out.finish(alloc)?)
}

// Whether the container of these elements stands for a package.
fn is_read(alloc: Global, parts: &[Part]) -> Result<bool, Fail> {
    let file = file_of(alloc, parts)?;
    Ok(read_file(alloc, &file)?.is_some())
}

#[test]
fn private_roots(rt: HostRuntime) -> Result<(), Fail> {
    let alloc = rt.alloc();
    for (root, want) in [
        (b"\0\0".as_slice(), true),
        (b"\x03\0\x01\0\x03\0\x02\x02\0\x01\x01\x02\x01\0", true),
        (b"\x03\0\x02\0\x03\0\x01\x02\0\x01\x01\x02\x01\0", false),
        (b"\x02\0\x01\0\x03\x02\0\x01\x01\0\x01\0", false),
        (b"\x02\0\x01\0\x04\x01\0\x01\x01", false),
    ] {
        let parts = [
            PATH,
            (Section::Str, b"b"),
            (Section::Str, b"c"),
            (Section::Str, b"12345678"),
            (Section::Str, b"1234567"),
            PACKAGE,
            PUBLIC,
            (Section::Meta, root),
        ];
        assert_eq!(rt; is_read(alloc, &parts)?, want);
    }
    Ok(())
}

// The value of `N` in the container of the package `a` with these elements more, if it stands for a
// package; that has it.
fn value_in(
    alloc: Global,
    magnitude: &'static [u8],
    parts: [Part; 3],
) -> Result<Option<u128>, Fail> {
    let [name, ty, object] = parts;
    let magnitude = (Section::Str, magnitude);
    let parts = [
        PATH, FILE, NAME, magnitude, PACKAGE, PUBLIC, PRIVATE, BASE, name, ty, object,
    ];
    let file = file_of(alloc, &parts)?;
    match read_file(alloc, &file)? {
        Some(linked) => Ok(Some(linked.package.value(b"N").ok_or("no constant N")?)),
        None => Ok(None),
    }
}

#[test]
fn values(rt: HostRuntime) -> Result<(), Fail> {
    let alloc = rt.alloc();
    let less: Part = (
        Section::Obj,
        b"\x02\x02\0\x05\0\x01\0\x03\x07\0\x01\0\x02\x0d",
    );
    let line_zero: Part = (
        Section::Obj,
        b"\x02\x02\0\x05\0\x01\0\0\x07\0\x01\0\x02\x0e",
    );
    let column_zero: Part = (
        Section::Obj,
        b"\x02\x02\0\x05\0\x01\0\x03\0\0\x01\0\x02\x0e",
    );
    let big: Part = (
        Section::Obj,
        b"\x03\x02\0\x05\0\0\x03\x01\0\x03\x07\0\x01\0\x03\x02\0",
    );
    let big_less: Part = (
        Section::Obj,
        b"\x03\x02\0\x05\0\0\x03\x01\0\x03\x07\0\x01\0\x03\x02\x01",
    );
    for (object, magnitude, want) in [
        (SEVEN, b"".as_slice(), Some(7)),
        (less, b"", None),
        (line_zero, b"", None),
        (column_zero, b"", None),
        (big, b"\x80\0\0\0\0\0\0\0", Some(1 << 63)),
        (big, b"\x7f\xff\xff\xff\xff\xff\xff\xff", None),
        (big, b"\x07", None),
        (big, b"", None),
        (big, b"\0\x80\0\0\0\0\0\0\0", None),
        (
            big,
            b"\x7f\xff\xff\xff\xff\xff\xff\xff\xff\xff\xff\xff\xff\xff\xff\xff",
            Some((1 << 127) - 1),
        ),
        (big, b"\x80\0\0\0\0\0\0\0\0\0\0\0\0\0\0\0", None),
        (big_less, b"\x80\0\0\0\0\0\0\x01", None),
    ] {
        let value = value_in(alloc, magnitude, [CONSTANT, WHOLE, object])?;
        assert_eq!(rt; value, want);
    }
    Ok(())
}

#[test]
fn other_constants(rt: HostRuntime) -> Result<(), Fail> {
    let alloc = rt.alloc();
    let variable: Part = (Section::Name, b"\x02\x03\0\0\x02\0\x01\x04");
    let other_type: Part = (Section::Types, b"\0\0\x02");
    for (parts, want) in [
        ([CONSTANT, WHOLE, SEVEN], Some(7)),
        ([variable, WHOLE, SEVEN], None),
        ([CONSTANT, other_type, SEVEN], None),
        ([CONSTANT, WHOLE, UNUSED], None),
        ([UNUSED, WHOLE, SEVEN], None),
    ] {
        assert_eq!(rt; value_in(alloc, b"x", parts)?, want);
    }
    Ok(())
}

#[test]
fn other_parts(rt: HostRuntime) -> Result<(), Fail> {
    let alloc = rt.alloc();
    for (parts, want) in [
        ([].as_slice(), false),
        (&[PATH, PACKAGE, PUBLIC, PRIVATE], true),
        (&[PATH, PACKAGE, PUBLIC, PRIVATE, UNUSED], true),
        (&[PATH, PACKAGE, PUBLIC], false),
        (&[PATH, PUBLIC, PRIVATE], false),
        (&[(Section::Str, b"a b"), PACKAGE, PUBLIC, PRIVATE], false),
    ] {
        assert_eq!(rt; is_read(alloc, parts)?, want);
    }
    Ok(())
}

#[test]
fn other_containers(rt: HostRuntime) -> Result<(), Fail> {
    let alloc = rt.alloc();
    for (place, fault) in [
        (0, FrameFault::Version),
        (4, FrameFault::Flags),
        (8, FrameFault::Counts),
        (48, FrameFault::Ends),
    ] {
        let mut file = file_of(alloc, &[PATH, PACKAGE, PUBLIC, PRIVATE])?;
        if let Some(byte) = file.get_mut(place) {
            *byte = 200;
        }
        assert_eq!(rt; Frame::open(&file).err(), Some(fault));
    }
    Ok(())
}
