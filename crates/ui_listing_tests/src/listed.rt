use std::test::*;
use ui_frame::{Frame, FrameOut, Section};
use ui_listing::list_container;

const LINES: [&str; 16] = [
    "version 1 flags 0",
    "String 1 1",
    "  0 1",
    "Meta 2 8",
    "  0 6",
    "  1 2",
    "PosBase 0 0",
    "Pkg 1 5",
    "  0 5",
    "Name 0 0",
    "Type 0 0",
    "Obj 0 0",
    "ObjExt 0 0",
    "ObjDict 0 0",
    "Body 0 0",
    "fingerprint 6d08481e9b30807c",
];

// The linked file of `package e`, which has 86 bytes. Another program computed the fingerprint.
#[test]
fn the_empty_package(rt: HostRuntime) -> Result<(), Fail> {
    let alloc = rt.alloc();
    let mut out = FrameOut::new(alloc);
    out.add(alloc, Section::Str, b"e")?;
    out.add(alloc, Section::Meta, b"\x01\x03\x00\x00\x00\x00")?;
    out.add(alloc, Section::Meta, b"\x00\x00")?;
    out.add(alloc, Section::Pkg, b"\x01\x00\x00\x00\x00")?;
    let bytes = out.finish(alloc)?;
    assert_eq!(rt; bytes.len(), 86);
    let frame = Frame::open(&bytes)?;
    let lines = list_container(alloc, &frame)?;
    let mut wanted = Vec::new(alloc);
    for line in LINES {
        wanted.extend_from_slice(line.as_bytes())?;
        wanted.push(b'\n')?;
    }
    assert_eq!(rt; lines.as_slice(), wanted.as_slice());
    Ok(())
}
