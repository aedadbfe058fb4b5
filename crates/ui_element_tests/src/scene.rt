use std::alloc::Global;
use std::test::*;
use ui_frame::{Frame, FrameOut, Section};
use ui_strpos::{Cause, Element, ElementFault, Shape, read_element, write_element};

/// A container to read elements over. Its Strings are
/// 0 `a`, 1 `N`, 2 `m`, 3 `M`, 4 `_`, 5 the magnitude of 2^63, 6 that of 2^63 + 1, 7 the empty one,
/// 8 `func`, 9 that of 1. It has one PosBase, two Pkgs, one Name, three Types, two Objs and one
/// Body.
pub fn scene(alloc: Global) -> Result<Vec<u8>, Fail> {
    let texts = [
        b"a".as_slice(),
        b"N",
        b"m",
        b"M",
        b"_",
        b"\x80\x00\x00\x00\x00\x00\x00\x00",
        b"\x80\x00\x00\x00\x00\x00\x00\x01",
        b"",
        b"func",
        b"\x01",
    ];
    let mut out = FrameOut::new(alloc);
    for text in texts {
        out.add(alloc, Section::Str, text)?;
    }
    for s in [
        Section::PosBase,
        Section::Pkg,
        Section::Pkg,
        Section::Name,
        Section::Types,
        Section::Types,
        Section::Types,
        Section::Obj,
        Section::Obj,
        Section::Body,
    ] {
        out.add(alloc, s, b"\x00")?;
    }
    Ok(out.finish(alloc)?)
}

/// The bytes are the value's, and the value is written as they are.
pub fn stands<E: Element + PartialEq + Drop>(
    alloc: Global,
    shape: &Shape,
    own: u32,
    bytes: &[u8],
    value: &E,
) -> Result<(), Fail> {
    let container = scene(alloc)?;
    let frame = Frame::open(&container)?;
    match read_element::<E>(alloc, bytes, own, &frame, shape) {
        Ok(read) => {
            let written = write_element(alloc, &read)?;
            if written.as_slice() != bytes {
                return Err(Fail::from(written));
            }
            if read != *value {
                return Err(Fail::from("another value"));
            }
            Ok(())
        }
        Err(fault) => Err(Fail::from(fault)),
    }
}

/// Each of the bytes is refused at the offset, for the cause.
pub fn are_refused<E: Element + Drop>(
    alloc: Global,
    shape: &Shape,
    own: u32,
    rows: &[(&[u8], usize, Cause, &str)],
) -> Result<(), Fail> {
    let container = scene(alloc)?;
    let frame = Frame::open(&container)?;
    for (bytes, offset, cause, what) in rows {
        let wanted = ElementFault::Bad {
            offset: *offset,
            cause: *cause,
        };
        match read_element::<E>(alloc, bytes, own, &frame, shape) {
            Ok(_) => return Err(Fail::from(*what)),
            Err(fault) => {
                if fault != wanted {
                    return Err(Fail::from((*what, fault)));
                }
            }
        }
    }
    Ok(())
}
