//! Numbers and containers. Expected values: written out by hand from the layout, and a file whose
//! fingerprint another program computed.

use crate::file::FILE;
use std::alloc::Global;
use std::test::Fail;
use ui_frame::{
    Frame, FrameFault, FrameOut, NumFault, OutFault, Section, get_bool, get_int, get_uint,
    put_bool, put_int, put_uint,
};

const SECTIONS: [Section; 10] = [
    Section::Str,
    Section::Meta,
    Section::PosBase,
    Section::Pkg,
    Section::Name,
    Section::Types,
    Section::Obj,
    Section::ObjExt,
    Section::ObjDict,
    Section::Body,
];

// Its elements.
fn elements() -> [(Section, &'static [u8]); 12] {
    [
        (Section::Str, b"a".as_slice()),
        (Section::Str, b"src/a/a.go".as_slice()),
        (Section::Str, b"N".as_slice()),
        (
            Section::Meta,
            b"\x02\x03\x00\x06\x00\x00\x00\x01\x00\x01\x00".as_slice(),
        ),
        (Section::Meta, b"\x00\x00".as_slice()),
        (Section::PosBase, b"\x01\x00\x01\x00\x01".as_slice()),
        (Section::Pkg, b"\x01\x00\x00\x00\x00".as_slice()),
        (
            Section::Name,
            b"\x02\x03\x00\x00\x02\x00\x01\x01".as_slice(),
        ),
        (Section::Types, b"\x00\x00\x14".as_slice()),
        (
            Section::Obj,
            b"\x02\x02\x00\x05\x00\x01\x00\x03\x07\x00\x01\x00\x02\x0e".as_slice(),
        ),
        (Section::ObjExt, b"\x00".as_slice()),
        (
            Section::ObjDict,
            b"\x00\x00\x00\x00\x00\x00\x00\x00".as_slice(),
        ),
    ]
}

const UNSIGNED: &[(u64, &[u8])] = &[
    (0, b"\x00"),
    (127, b"\x7f"),
    (128, b"\x80\x01"),
    (16383, b"\xff\x7f"),
    (16384, b"\x80\x80\x01"),
    (1 << 63, b"\x80\x80\x80\x80\x80\x80\x80\x80\x80\x01"),
    (
        18446744073709551615,
        b"\xff\xff\xff\xff\xff\xff\xff\xff\xff\x01",
    ),
];

const NO_NUMBERS: &[(&[u8], NumFault)] = &[
    (b"", NumFault::Cut),
    (b"\x80", NumFault::Cut),
    (b"\x80\x80", NumFault::Cut),
    (b"\x80\x80\x80\x80\x80\x80\x80\x80\x80", NumFault::Cut),
    (b"\x80\x00", NumFault::LongNumber),
    (b"\xff\x00", NumFault::LongNumber),
    (b"\x80\x81\x00", NumFault::LongNumber),
    (b"\xff\xff\x80\x00", NumFault::LongNumber),
    (b"\x80\x80\x81\x00", NumFault::LongNumber),
    (
        b"\x80\x80\x80\x80\x80\x80\x80\x80\x80\x00",
        NumFault::LongNumber,
    ),
    (
        b"\x80\x80\x80\x80\x80\x80\x80\x80\x80\x02",
        NumFault::LongNumber,
    ),
    (
        b"\xff\xff\xff\xff\xff\xff\xff\xff\xff\x81\x00",
        NumFault::LongNumber,
    ),
];

// The bytes of a number, and a zero byte behind them.
fn unsigned_bytes(alloc: Global, n: u64) -> Result<Vec<u8>, OutFault> {
    let mut out = Vec::new(alloc);
    put_uint(alloc, &mut out, n)?;
    put_uint(alloc, &mut out, 0)?;
    Ok(out)
}

#[test]
fn unsigned_numbers(rt: HostRuntime) -> Result<(), Fail> {
    for (n, spelling) in UNSIGNED {
        let out = unsigned_bytes(rt.alloc(), *n)?;
        assert_eq!(rt; get_uint(&out, 0), Ok((*n, spelling.len())));
        assert!(rt; out.starts_with(spelling));
    }
    Ok(())
}

#[test]
fn faults_of_numbers(rt: HostRuntime) {
    for (bytes, fault) in NO_NUMBERS {
        assert_eq!(rt; get_uint(bytes, 0), Err(*fault));
    }
}

const SIGNED: &[(i64, &[u8])] = &[
    (0, b"\x00"),
    (-1, b"\x01"),
    (1, b"\x02"),
    (63, b"\x7e"),
    (-64, b"\x7f"),
    (64, b"\x80\x01"),
    (
        9223372036854775807,
        b"\xfe\xff\xff\xff\xff\xff\xff\xff\xff\x01",
    ),
    (
        -9223372036854775808,
        b"\xff\xff\xff\xff\xff\xff\xff\xff\xff\x01",
    ),
];

// The bytes of a number with a sign.
fn signed_bytes(alloc: Global, n: i64) -> Result<Vec<u8>, OutFault> {
    let mut out = Vec::new(alloc);
    put_int(alloc, &mut out, n)?;
    Ok(out)
}

#[test]
fn signed_numbers(rt: HostRuntime) -> Result<(), Fail> {
    for (n, spelling) in SIGNED {
        let out = signed_bytes(rt.alloc(), *n)?;
        assert_eq!(rt; out.as_slice(), *spelling);
        assert_eq!(rt; get_int(spelling, 0), Ok((*n, spelling.len())));
    }
    assert_eq!(rt; get_int(b"\x80\x00", 0), Err(NumFault::LongNumber));
    assert_eq!(rt; get_int(b"\x00\x80", 1), Err(NumFault::Cut));
    Ok(())
}

// Both truth values.
fn truth_bytes(alloc: Global) -> Result<Vec<u8>, OutFault> {
    let mut out = Vec::new(alloc);
    put_bool(alloc, &mut out, false)?;
    put_bool(alloc, &mut out, true)?;
    Ok(out)
}

#[test]
fn truth_values(rt: HostRuntime) -> Result<(), Fail> {
    assert_eq!(rt; truth_bytes(rt.alloc())?.as_slice(), b"\x00\x01".as_slice());
    for (at, want) in [
        (0, Ok((false, 1))),
        (1, Ok((true, 2))),
        (2, Err(NumFault::BadBool)),
        (3, Err(NumFault::Cut)),
    ] {
        assert_eq!(rt; get_bool(b"\x00\x01\x02", at), want);
    }
    Ok(())
}

#[test]
fn the_file_opens(rt: HostRuntime) -> Result<(), Fail> {
    let frame = Frame::open(&FILE)?;
    assert_eq!(rt;
        frame.fingerprint(),
        [0x0b, 0x20, 0x00, 0xa1, 0xfa, 0x75, 0xd6, 0xb3]
    );
    let mut counts = [0u32; 10];
    for (s, bytes) in elements() {
        let k = s.number() as usize;
        assert_eq!(rt; frame.element(s, counts[k]), Some(bytes));
        counts[k] = counts[k].wrapping_add(1);
    }
    for s in SECTIONS {
        let count = counts[s.number() as usize];
        assert_eq!(rt; (frame.count(s), frame.element(s, count)), (count, None));
    }
    Ok(())
}

#[test]
fn a_cut_file_is_refused(rt: HostRuntime) {
    for n in 0..FILE.len() {
        let fault = match n {
            0..=55 => FrameFault::Short,
            56..=103 => FrameFault::Counts,
            _ => FrameFault::Length,
        };
        assert_eq!(rt; Frame::open(&FILE[..n]).err(), Some(fault), "at {n}");
    }
}

// Places of the file, what is written there, and the fault. Some changes break several tests.
const CHANGES: &[(&[(usize, u8)], FrameFault)] = &[
    (&[(0, 2)], FrameFault::Version),
    (&[(3, 1)], FrameFault::Version),
    (&[(4, 1)], FrameFault::Flags),
    (&[(12, 2)], FrameFault::Counts),
    (&[(44, 11)], FrameFault::Counts),
    (&[(45, 1)], FrameFault::Counts),
    (&[(47, 0x80)], FrameFault::Counts),
    (&[(52, 13)], FrameFault::Ends),
    (&[(92, 0x3c)], FrameFault::Ends),
    (&[(92, 0x44)], FrameFault::Length),
    (&[(92, 0x46)], FrameFault::Length),
    (&[(0, 2), (4, 1), (12, 2), (52, 13)], FrameFault::Version),
    (&[(4, 1), (12, 2), (52, 13)], FrameFault::Flags),
    (&[(12, 2), (52, 13)], FrameFault::Counts),
    (&[(52, 13)], FrameFault::Ends),
    // The string N is changed to M, and the fingerprint is changed. What is computed is that of
    // Python's hashlib.
    (
        &[(107, b'M')],
        FrameFault::Fingerprint {
            kept: [0x0b, 0x20, 0x00, 0xa1, 0xfa, 0x75, 0xd6, 0xb3],
            computed: [0x69, 0x1a, 0x13, 0xc1, 0x1d, 0xde, 0x5f, 0xa0],
        },
    ),
    (
        &[(172, 0)],
        FrameFault::Fingerprint {
            kept: [0x0b, 0x20, 0x00, 0xa1, 0xfa, 0x75, 0xd6, 0x00],
            computed: [0x0b, 0x20, 0x00, 0xa1, 0xfa, 0x75, 0xd6, 0xb3],
        },
    ),
];

#[test]
fn the_first_test_decides(rt: HostRuntime) {
    for (changes, fault) in CHANGES {
        let mut file = FILE;
        for (place, byte) in *changes {
            file[*place % FILE.len()] = *byte;
        }
        assert_eq!(rt; Frame::open(&file).err(), Some(*fault), "{changes:?}");
    }
}

// The file of the elements, and the numbers that they were given.
fn written(alloc: Global) -> Result<(Vec<u8>, [u32; 12]), OutFault> {
    let mut out = FrameOut::new(alloc);
    let mut numbers = [0; 12];
    for (number, (s, bytes)) in numbers.iter_mut().zip(elements()) {
        *number = out.add(alloc, s, bytes)?;
    }
    Ok((out.finish(alloc)?, numbers))
}

// The same, filled from the last section to the first.
fn written_backwards(alloc: Global) -> Result<Vec<u8>, OutFault> {
    let mut out = FrameOut::new(alloc);
    for wanted in SECTIONS.iter().rev() {
        for (s, bytes) in elements() {
            if s == *wanted {
                out.add(alloc, s, bytes)?;
            }
        }
    }
    Ok(out.finish(alloc)?)
}

#[test]
fn the_file_is_written(rt: HostRuntime) -> Result<(), Fail> {
    let (file, numbers) = written(rt.alloc())?;
    assert_eq!(rt; file.as_slice(), FILE.as_slice());
    assert_eq!(rt; numbers, [0, 1, 2, 0, 1, 0, 0, 0, 0, 0, 0, 0]);
    assert_eq!(rt; written_backwards(rt.alloc())?.as_slice(), FILE.as_slice());
    Ok(())
}

// A container with two elements in one section, and the numbers that they were given.
fn two_in(alloc: Global, s: Section) -> Result<(Vec<u8>, u32, u32), OutFault> {
    let mut out = FrameOut::new(alloc);
    let first = out.add(alloc, s, b"")?;
    let second = out.add(alloc, s, b"xyz")?;
    Ok((out.finish(alloc)?, first, second))
}

// What a container has in a section: how many elements, and the first three.
fn section_of<'a>(frame: &Frame<'a>, s: Section) -> (u32, [Option<&'a [u8]>; 3]) {
    (
        frame.count(s),
        [
            frame.element(s, 0),
            frame.element(s, 1),
            frame.element(s, 2),
        ],
    )
}

#[test]
fn a_container_of_each_section(rt: HostRuntime) -> Result<(), Fail> {
    for s in SECTIONS {
        let (file, first, second) = two_in(rt.alloc(), s)?;
        assert_eq!(rt; (file.len(), first, second), (67, 0, 1));
        let frame = Frame::open(&file)?;
        for t in SECTIONS {
            let want = if t == s {
                (2, [Some(b"".as_slice()), Some(b"xyz"), None])
            } else {
                (0, [None, None, None])
            };
            assert_eq!(rt; section_of(&frame, t), want);
        }
    }
    Ok(())
}

#[test]
fn a_container_of_nothing(rt: HostRuntime) -> Result<(), Fail> {
    let empty = FrameOut::new(rt.alloc()).finish(rt.alloc())?;
    assert_eq!(rt; empty.len(), 56);
    let frame = Frame::open(&empty)?;
    for s in SECTIONS {
        assert_eq!(rt; frame.count(s), 0);
    }
    Ok(())
}
