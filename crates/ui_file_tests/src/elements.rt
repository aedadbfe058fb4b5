//! PosBases, Pkgs and Names, as they stand and as they are refused.

use crate::file::FILE;
use std::alloc::Global;
use std::fmt::Debug;
use std::test::*;
use ui_frame::{Frame, Section};
use ui_strpos::{
    Cause, Element, ElementFault, NameEl, NameKind, PkgEl, PosBaseEl, Shape, read_element,
    write_element,
};

// The Strings `a`, `src/a/a.go`, `N`, the empty one, `func`, `../a`, `builtin` and `_`, and one
// Pkg.
const TEXTS: [u8; 121] = [
    0x01, 0x00, 0x00, 0x00, 0x00, 0x00, 0x00, 0x00, 0x08, 0x00, 0x00, 0x00, 0x08, 0x00, 0x00, 0x00,
    0x08, 0x00, 0x00, 0x00, 0x09, 0x00, 0x00, 0x00, 0x09, 0x00, 0x00, 0x00, 0x09, 0x00, 0x00, 0x00,
    0x09, 0x00, 0x00, 0x00, 0x09, 0x00, 0x00, 0x00, 0x09, 0x00, 0x00, 0x00, 0x09, 0x00, 0x00, 0x00,
    0x01, 0x00, 0x00, 0x00, 0x0b, 0x00, 0x00, 0x00, 0x0c, 0x00, 0x00, 0x00, 0x0c, 0x00, 0x00, 0x00,
    0x10, 0x00, 0x00, 0x00, 0x14, 0x00, 0x00, 0x00, 0x1b, 0x00, 0x00, 0x00, 0x1c, 0x00, 0x00, 0x00,
    0x1d, 0x00, 0x00, 0x00, 0x61, 0x73, 0x72, 0x63, 0x2f, 0x61, 0x2f, 0x61, 0x2e, 0x67, 0x6f, 0x4e,
    0x66, 0x75, 0x6e, 0x63, 0x2e, 0x2e, 0x2f, 0x61, 0x62, 0x75, 0x69, 0x6c, 0x74, 0x69, 0x6e, 0x5f,
    0x3f, 0x62, 0xd4, 0xf9, 0x34, 0xfb, 0x6f, 0xcd, 0x01,
];

const SHAPE: Shape = Shape {
    code: 0,
    params: 0,
    methods: 0,
};

// The bytes are the value's, and the value is written as they are.
fn stands<E: Element + PartialEq + Debug + Drop>(
    alloc: Global,
    frame: &Frame<'_>,
    bytes: &[u8],
    value: &E,
) -> Result<(), Fail> {
    match read_element::<E>(alloc, bytes, 0, frame, &SHAPE) {
        Ok(read) => {
            let written = write_element(alloc, &read)?;
            if written.as_slice() != bytes {
                return Err(Fail::from(written));
            }
            if read != *value {
                return Err(Fail::from(read));
            }
            Ok(())
        }
        Err(fault) => Err(Fail::from(fault)),
    }
}

#[test]
fn elements_of_a_linked_file(rt: HostRuntime) -> Result<(), Fail> {
    let frame = Frame::open(&FILE)?;
    let bytes = b"\x01\x00\x01\x00\x01".as_slice();
    assert_eq!(rt; frame.element(Section::PosBase, 0), Some(bytes));
    stands(rt.alloc(), &frame, bytes, &PosBaseEl { file: 1 })?;
    let bytes = b"\x01\x00\x00\x00\x00".as_slice();
    assert_eq!(rt; frame.element(Section::Pkg, 0), Some(bytes));
    stands(rt.alloc(), &frame, bytes, &PkgEl { path: 0, name: 0 })?;
    let bytes = b"\x02\x03\x00\x00\x02\x00\x01\x01".as_slice();
    assert_eq!(rt; frame.element(Section::Name, 0), Some(bytes));
    let kind = NameKind::Const;
    let name = NameEl {
        pkg: 0,
        name: 2,
        kind,
    };
    stands(rt.alloc(), &frame, bytes, &name)
}

// What is read over the texts.
#[test]
fn rarer_elements(rt: HostRuntime) -> Result<(), Fail> {
    let frame = Frame::open(&TEXTS)?;
    let builtin = PkgEl { path: 6, name: 6 };
    stands(rt.alloc(), &frame, b"\x01\x00\x06\x00\x00", &builtin)?;
    let blank = PkgEl { path: 0, name: 7 };
    stands(rt.alloc(), &frame, b"\x02\x00\x00\x00\x07\x00\x01", &blank)?;
    let kind = NameKind::Stub;
    let name = NameEl {
        pkg: 0,
        name: 6,
        kind,
    };
    stands(
        rt.alloc(),
        &frame,
        b"\x02\x03\x00\x00\x06\x00\x01\x05",
        &name,
    )
}

// Bytes that are refused, the offset and the cause, and what is wrong.
type Row = (&'static [u8], usize, Cause, &'static str);

// Each of the bytes is refused at the offset, for the cause.
fn are_refused<E: Element + Drop>(alloc: Global, cases: &[Row]) -> Result<(), Fail> {
    let frame = Frame::open(&TEXTS)?;
    for (bytes, offset, cause, what) in cases {
        let wanted = ElementFault::Bad {
            offset: *offset,
            cause: *cause,
        };
        let found = read_element::<E>(alloc, bytes, 0, &frame, &SHAPE).err();
        if found != Some(wanted) {
            return Err(Fail::from((*what, found)));
        }
    }
    Ok(())
}

const AS_POSBASE: &[Row] = &[
    (b"", 0, Cause::Cut, "ends before the count"),
    (b"\x01", 1, Cause::Cut, "in the table"),
    (b"\x01\x00\x01", 3, Cause::Cut, "before the use"),
    (b"\x01\x00\x01\x00", 4, Cause::Cut, "before the flag"),
    (
        b"\x81\x00\x00\x01\x00\x01",
        0,
        Cause::LongNumber,
        "a padded count",
    ),
    (
        b"\x01\x80\x00\x01\x00\x01",
        1,
        Cause::LongNumber,
        "a padded section",
    ),
    (
        b"\x01\x00\x81\x00\x00\x01",
        2,
        Cause::LongNumber,
        "a padded index",
    ),
    (
        b"\x01\x00\x01\x80\x00\x01",
        3,
        Cause::LongNumber,
        "a padded use",
    ),
    (
        b"\x01\x0a\x01\x00\x01",
        1,
        Cause::BadSection,
        "past section 9",
    ),
    (
        b"\x01\x00\x08\x00\x01",
        2,
        Cause::BadIndex,
        "past the Strings",
    ),
    (
        b"\x02\x00\x01\x00\x01\x00\x01",
        3,
        Cause::TableOrder,
        "an entry twice",
    ),
    (
        b"\x01\x00\x01\x01\x01",
        3,
        Cause::BadIndex,
        "past the table",
    ),
    (
        b"\x01\x03\x00\x00\x01",
        3,
        Cause::BadSection,
        "a Pkg for a String",
    ),
    (
        b"\x02\x00\x01\x00\x02\x01\x01",
        5,
        Cause::TableOrder,
        "the second entry first",
    ),
    (
        b"\x01\x00\x03\x00\x01",
        3,
        Cause::BadText,
        "an empty file name",
    ),
    (b"\x01\x00\x01\x00\x02", 4, Cause::BadBool, "no truth value"),
    (
        b"\x01\x00\x01\x00\x00",
        4,
        Cause::BadCode,
        "the flag isn't set",
    ),
    (
        b"\x02\x00\x01\x00\x02\x00\x01",
        0,
        Cause::TableUse,
        "an entry unused",
    ),
    (
        b"\x02\x00\x01\x00\x02\x00\x01\x00",
        0,
        Cause::TableUse,
        "before what is left over",
    ),
    (
        b"\x02\x00\x01\x00\x02\x00\x00",
        6,
        Cause::BadCode,
        "before an unused entry",
    ),
    (
        b"\x01\x00\x01\x00\x01\x00",
        5,
        Cause::Tail,
        "a byte left over",
    ),
];

#[test]
fn refused_as_posbase(rt: HostRuntime) -> Result<(), Fail> {
    are_refused::<PosBaseEl>(rt.alloc(), AS_POSBASE)
}

const AS_PKG: &[Row] = &[
    (b"\x01\x00\x00\x00", 4, Cause::Cut, "before the name"),
    (
        b"\x01\x00\x00\x80\x00\x00",
        3,
        Cause::LongNumber,
        "a padded path",
    ),
    (
        b"\x01\x00\x00\x00\x80\x00",
        4,
        Cause::LongNumber,
        "a padded name",
    ),
    (
        b"\x02\x00\x00\x0a\x00\x00\x01",
        3,
        Cause::BadSection,
        "past section 9",
    ),
    (
        b"\x02\x00\x00\x03\x01\x00\x01",
        4,
        Cause::BadIndex,
        "past the Pkgs",
    ),
    (
        b"\x02\x00\x00\x00\x00\x00\x01",
        3,
        Cause::TableOrder,
        "an entry twice",
    ),
    (
        b"\x02\x00\x00\x00\x02\x00\x02",
        6,
        Cause::BadIndex,
        "past the table",
    ),
    (
        b"\x02\x00\x00\x03\x00\x00\x01",
        6,
        Cause::BadSection,
        "a Pkg for a name",
    ),
    (
        b"\x02\x00\x00\x00\x02\x01\x00",
        5,
        Cause::TableOrder,
        "the second entry first",
    ),
    (
        b"\x02\x00\x05\x00\x02\x00\x01",
        5,
        Cause::BadText,
        ".. in the path",
    ),
    (
        b"\x02\x00\x03\x00\x02\x00\x01",
        5,
        Cause::BadText,
        "an empty path",
    ),
    (
        b"\x02\x00\x00\x00\x04\x00\x01",
        6,
        Cause::BadText,
        "a keyword as the name",
    ),
    (
        b"\x02\x00\x00\x00\x03\x00\x01",
        6,
        Cause::BadText,
        "an empty name",
    ),
    (
        b"\x02\x00\x06\x00\x00\x00\x01",
        6,
        Cause::BadText,
        "builtin with another name",
    ),
    (
        b"\x02\x00\x00\x00\x02\x00\x00",
        0,
        Cause::TableUse,
        "an entry unused",
    ),
    (
        b"\x02\x00\x00\x00\x02\x00\x00\x00",
        0,
        Cause::TableUse,
        "before what is left over",
    ),
    (
        b"\x01\x00\x00\x00\x00\x01",
        5,
        Cause::Tail,
        "a byte left over",
    ),
];

#[test]
fn refused_as_pkg(rt: HostRuntime) -> Result<(), Fail> {
    are_refused::<PkgEl>(rt.alloc(), AS_PKG)
}

const AS_NAME: &[Row] = &[
    (
        b"\x02\x03\x00\x00\x02\x00\x01",
        7,
        Cause::Cut,
        "before the code",
    ),
    (
        b"\x02\x03\x00\x00\x02\x80\x00\x01\x01",
        5,
        Cause::LongNumber,
        "a padded package",
    ),
    (
        b"\x02\x03\x00\x00\x02\x00\x01\x81\x00",
        7,
        Cause::LongNumber,
        "a padded code",
    ),
    (
        b"\x02\x0a\x00\x00\x02\x00\x01\x01",
        1,
        Cause::BadSection,
        "past section 9",
    ),
    (
        b"\x02\x03\x01\x00\x02\x00\x01\x01",
        2,
        Cause::BadIndex,
        "past the Pkgs",
    ),
    (
        b"\x02\x03\x00\x00\x08\x00\x01\x01",
        4,
        Cause::BadIndex,
        "past the Strings",
    ),
    (
        b"\x02\x03\x00\x03\x00\x00\x01\x01",
        3,
        Cause::TableOrder,
        "an entry twice",
    ),
    (
        b"\x02\x03\x00\x00\x02\x00\x02\x01",
        6,
        Cause::BadIndex,
        "past the table",
    ),
    (
        b"\x02\x00\x02\x03\x00\x00\x01\x01",
        5,
        Cause::BadSection,
        "a String for a Pkg",
    ),
    (
        b"\x02\x03\x00\x00\x02\x01\x00\x01",
        5,
        Cause::BadSection,
        "a String for a Pkg, before its order",
    ),
    (
        b"\x03\x03\x00\x00\x02\x00\x07\x00\x02\x01",
        8,
        Cause::TableOrder,
        "the third entry second",
    ),
    (
        b"\x02\x03\x00\x00\x04\x00\x01\x01",
        6,
        Cause::BadText,
        "a keyword",
    ),
    (
        b"\x02\x03\x00\x00\x05\x00\x01\x01",
        6,
        Cause::BadText,
        "no name",
    ),
    (
        b"\x02\x03\x00\x00\x02\x00\x01\x06",
        7,
        Cause::BadCode,
        "past the codes",
    ),
    (
        b"\x03\x03\x00\x00\x02\x00\x07\x00\x01\x01",
        0,
        Cause::TableUse,
        "an entry unused",
    ),
    (
        b"\x03\x03\x00\x00\x02\x00\x07\x00\x01\x01\x05",
        0,
        Cause::TableUse,
        "before what is left over",
    ),
    (
        b"\x03\x03\x00\x00\x02\x00\x07\x00\x01\x06",
        9,
        Cause::BadCode,
        "before an unused entry",
    ),
    (
        b"\x02\x03\x00\x00\x02\x00\x01\x01\x00",
        8,
        Cause::Tail,
        "a byte left over",
    ),
];

#[test]
fn refused_as_name(rt: HostRuntime) -> Result<(), Fail> {
    are_refused::<NameEl>(rt.alloc(), AS_NAME)
}
