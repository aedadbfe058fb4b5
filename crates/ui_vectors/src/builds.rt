//! Builds of one package: each end, what is asked and written, and devices that fail.

use crate::scene::{Row, SEVEN, USAGE, compare, expect, run_with, run_words, store_of};
use std::alloc::{AllocError, Global};
use std::test::Fail;
use ui_store::{AskKind, DirStore, MemStore, Store};
use ui_top::Status;

// A store with the package of one constant, which fails at these calls.
fn failing(alloc: Global, fails: &[u64], keep: usize) -> Result<MemStore, AllocError> {
    let mut store = MemStore::new(alloc, fails.to_vec(alloc)?, keep);
    store.put(alloc, SEVEN.0, SEVEN.1.as_bytes())?;
    Ok(store)
}

const ANSWER: &str = "const a.N untyped int = 7\n";

#[test]
fn a_constant_is_built_and_answered(rt: HostRuntime) -> Result<(), Fail> {
    let alloc = rt.alloc();
    let mut store = store_of(alloc, &[SEVEN])?;
    let ended = run_words(alloc, &["build", "a", "decl N"], &mut store)?;
    compare(&rt, &ended, Status::Ok, ANSWER, "");
    let wanted = [
        (AskKind::List, "src/a"),
        (AskKind::Read, "src/a/a.go"),
        (AskKind::List, "src/a"),
        (AskKind::Read, "src/a/a.go"),
        (AskKind::Write, "unit/a.u"),
        (AskKind::Write, "lib/a.u"),
        (AskKind::Read, "lib/a.u"),
    ];
    assert_eq!(rt; store.asked().len(), wanted.len());
    for (asked, (what, name)) in store.asked().iter().zip(wanted) {
        assert_eq!(rt; asked.what, what);
        assert_eq!(rt; asked.name.bytes(), name.as_bytes());
    }
    let linked = store.file("lib/a.u").ok_or("no linked file")?;
    assert_eq!(rt; linked.len(), 173);
    assert_eq!(rt; store.file("unit/a.u").ok_or("no unit file")?, linked);
    assert_eq!(rt; store.file(SEVEN.0).ok_or("no source")?, SEVEN.1.as_bytes());
    Ok(())
}

const ENDS: &[Row] = &[
    (
        &[SEVEN],
        &["build", "a", "decl M", "decl N"],
        Status::QueryRefused,
        "refused: NoSuch a.M\nconst a.N untyped int = 7\n",
        "",
    ),
    (
        &[(
            "src/a/a.go",
            "package a\nconst N = 7\nconst M = 0\nconst Big = 999999999999999999\n",
        )],
        &["build", "a", "decl Big", "decl N"],
        Status::Ok,
        "const a.Big untyped int = 999999999999999999\nconst a.N untyped int = 7\n",
        "",
    ),
    (
        &[("src/a/a.go", "package a\n")],
        &["build", "a"],
        Status::Ok,
        "",
        "",
    ),
    (
        &[SEVEN],
        &["build", "a", "decl  N"],
        Status::QueryRefused,
        "refused: Form\n",
        "",
    ),
    (
        &[SEVEN],
        &["build", "a", "body N"],
        Status::QueryRefused,
        "refused: Form\n",
        "",
    ),
    (
        &[("src/a/a.go", "package a\n\nconst N = 7 - 1\n")],
        &["build", "a"],
        Status::Refused,
        "",
        "src/a/a.go:3:11: Form\n",
    ),
    (
        &[("src/a/a.go", "package b\n")],
        &["build", "a"],
        Status::Refused,
        "",
        "src/a/a.go:1:1: Form\n",
    ),
    (&[SEVEN], &[], Status::Usage, "", USAGE),
    (&[SEVEN], &["gen", "0"], Status::Usage, "", USAGE),
    (&[SEVEN], &["build", "a//b"], Status::Usage, "", USAGE),
    (&[SEVEN], &["build"], Status::Usage, "", USAGE),
    (
        &[SEVEN],
        &["build", "z"],
        Status::NoFile,
        "",
        "no file: src/z\n",
    ),
];

#[test]
fn each_end_of_a_build(rt: HostRuntime) -> Result<(), Fail> {
    expect(&rt, ENDS)?;
    Ok(())
}

#[test]
fn a_refused_package_writes_nothing(rt: HostRuntime) -> Result<(), Fail> {
    let alloc = rt.alloc();
    let mut store = store_of(alloc, &[(SEVEN.0, "package a\n\nconst N = 7 - 1\n")])?;
    run_words(alloc, &["build", "a"], &mut store)?;
    assert!(rt; store.file("unit/a.u").is_none() && store.file("lib/a.u").is_none());
    let mut several = store_of(alloc, &[SEVEN, ("src/a/b.go", SEVEN.1)])?;
    let ended = run_words(alloc, &["build", "a"], &mut several)?;
    assert_eq!(rt; ended.err.written(), b"src/a/a.go:1:1: Form\n".as_slice());
    assert!(rt; several.file("unit/a.u").is_none() && several.file("lib/a.u").is_none());
    let others = [("src/a/a_test.go", SEVEN.1), ("src/a/notes.txt", SEVEN.1)];
    let mut tests_alone = store_of(alloc, &others)?;
    let ended = run_words(alloc, &["build", "a"], &mut tests_alone)?;
    assert_eq!(rt; ended.err.written(), b"no file: src/a\n".as_slice());
    Ok(())
}

#[test]
fn a_store_that_fails_at_one_call(rt: HostRuntime) -> Result<(), Fail> {
    let alloc = rt.alloc();
    let lines = [
        "read fault: src/a\n",
        "read fault: src/a/a.go\n",
        "read fault: src/a\n",
        "read fault: src/a/a.go\n",
        "write fault: unit/a.u\n",
        "write fault: lib/a.u\n",
        "read fault: lib/a.u\n",
    ];
    for (call, line) in lines.iter().enumerate() {
        let mut store = failing(alloc, &[call as u64], 150)?;
        let ended = run_words(alloc, &["build", "a", "decl N"], &mut store)?;
        let status = if call == 4 || call == 5 {
            Status::WriteFault
        } else {
            Status::ReadFault
        };
        assert_eq!(rt; ended.status, status);
        assert_eq!(rt; ended.err.written(), line.as_bytes());
        assert!(rt; ended.out.written().is_empty());
        assert_eq!(rt; store.asked().len(), call + 1);
        let unit = store.file("unit/a.u").map_or(0, |bytes| bytes.len());
        let linked = store.file("lib/a.u").map_or(0, |bytes| bytes.len());
        let lengths = match call {
            4 => (150, 0),
            5 => (173, 150),
            6 => (173, 173),
            _ => (0, 0),
        };
        assert!(rt; unit == lengths.0 && linked == lengths.1);
    }
    let mut store = failing(alloc, &[4], 0)?;
    run_words(alloc, &["build", "a"], &mut store)?;
    assert_eq!(rt; store.file("unit/a.u").ok_or("no unit file")?.len(), 0);
    Ok(())
}

#[test]
fn a_sink_without_room(rt: HostRuntime) -> Result<(), Fail> {
    let alloc = rt.alloc();
    let words = ["build", "a", "decl N"];
    for room in [0, 10] {
        let mut store = store_of(alloc, &[SEVEN])?;
        let ended = run_with(alloc, &words, &mut store, room, &[])?;
        assert_eq!(rt; ended.status, Status::OutFault);
        assert_eq!(rt; ended.err.written(), b"output fault\n".as_slice());
        assert_eq!(rt; ended.out.written(), b"const a.N untyped".split_at(room).0);
        assert!(rt; store.file("unit/a.u").is_some() && store.file("lib/a.u").is_some());
    }
    Ok(())
}

#[test]
fn a_store_that_tells_nothing(rt: HostRuntime) -> Result<(), Fail> {
    let alloc = rt.alloc();
    let mut store = DirStore::new(rt.clone()?);
    let written = store.write(alloc, SEVEN.0, SEVEN.1.as_bytes());
    assert!(rt; written.is_ok());
    let ended = run_words(alloc, &["build", "a", "decl N"], &mut store)?;
    assert_eq!(rt; ended.status, Status::Ok);
    assert_eq!(rt; ended.out.written(), ANSWER.as_bytes());
    Ok(())
}
