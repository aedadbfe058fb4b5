//! Answers from linked files alone.

use crate::scene::{SEVEN_FILE, USAGE, compare, run_with, run_words};
use std::alloc::Global;
use std::test::Fail;
use ui_store::{AskKind, MemStore};
use ui_top::Status;

// A store that holds nothing but so many bytes of the worked file, if any, as the linked file of a
// package.
fn store_of(alloc: Global, name: &str, length: Option<usize>) -> Result<MemStore, Fail> {
    let mut store = MemStore::new(alloc, Vec::new(alloc), 0);
    if let Some(length) = length {
        let front = SEVEN_FILE.get(..length).ok_or("a shorter file")?;
        store.put(alloc, name, front)?;
    }
    Ok(store)
}

// How many bytes stand under which name, the words, and how these end.
type Row = (
    &'static str,
    Option<usize>,
    &'static [&'static str],
    Status,
    &'static str,
    &'static str,
);

const WHOLE: Option<usize> = Some(173);

const ENDS: &[Row] = &[
    (
        "lib/a.u",
        WHOLE,
        &["dump", "a", "decl N"],
        Status::Ok,
        "const a.N untyped int = 7\n",
        "",
    ),
    ("lib/a.u", WHOLE, &["dump", "a"], Status::Ok, "", ""),
    (
        "lib/a.u",
        None,
        &["dump", "a", "decl N"],
        Status::NoFile,
        "",
        "no file: lib/a.u\n",
    ),
    (
        "unit/a.u",
        WHOLE,
        &["dump", "a", "decl N"],
        Status::NoFile,
        "",
        "no file: lib/a.u\n",
    ),
    (
        "lib/a.u",
        Some(172),
        &["dump", "a", "decl N"],
        Status::BadFile,
        "",
        "bad file: lib/a.u: Length\n",
    ),
    (
        "lib/a.u",
        Some(0),
        &["dump", "a", "decl N"],
        Status::BadFile,
        "",
        "bad file: lib/a.u: Short\n",
    ),
    (
        "lib/b.u",
        WHOLE,
        &["dump", "b"],
        Status::BadFile,
        "",
        "bad file: lib/b.u: Element\n",
    ),
    (
        "lib/a.u",
        WHOLE,
        &["dump", "a", "decl M", "decl N"],
        Status::QueryRefused,
        "refused: NoSuch a.M\nconst a.N untyped int = 7\n",
        "",
    ),
    (
        "lib/a.u",
        WHOLE,
        &["dump", "a", "N"],
        Status::QueryRefused,
        "refused: Form\n",
        "",
    ),
    ("lib/a.u", WHOLE, &["dump"], Status::Usage, "", USAGE),
    (
        "lib/a.u",
        WHOLE,
        &["dump", "a//b"],
        Status::Usage,
        "",
        USAGE,
    ),
];

#[test]
fn each_end_of_a_dump(rt: HostRuntime) -> Result<(), Fail> {
    for (name, length, words, status, out, err) in ENDS {
        let mut store = store_of(rt.alloc(), name, *length)?;
        let ended = run_words(rt.alloc(), words, &mut store)?;
        compare(&rt, &ended, *status, out, err);
        let asked = if *status == Status::Usage { 0 } else { 1 };
        assert_eq!(rt; store.asked().len(), asked);
    }
    Ok(())
}

#[test]
fn a_dump_reads_one_file(rt: HostRuntime) -> Result<(), Fail> {
    let alloc = rt.alloc();
    let mut store = store_of(alloc, "lib/a.u", WHOLE)?;
    store.put(alloc, "src/a/a.go", b"package a\n\nconst N = 8\n")?;
    let ended = run_words(alloc, &["dump", "a", "decl N"], &mut store)?;
    compare(&rt, &ended, Status::Ok, "const a.N untyped int = 7\n", "");
    assert_eq!(rt; store.asked().len(), 1);
    for asked in store.asked() {
        assert!(rt; asked.what == AskKind::Read && asked.name.bytes() == "lib/a.u".as_bytes());
    }
    assert!(rt; store.file("unit/a.u").is_none());
    Ok(())
}

#[test]
fn a_dump_where_a_device_fails(rt: HostRuntime) -> Result<(), Fail> {
    let alloc = rt.alloc();
    let mut store = MemStore::new(alloc, vec![in alloc; 0]?, 0);
    let ended = run_words(alloc, &["dump", "a"], &mut store)?;
    compare(&rt, &ended, Status::ReadFault, "", "read fault: lib/a.u\n");
    assert_eq!(rt; store.asked().len(), 1);
    let mut store = store_of(alloc, "lib/a.u", WHOLE)?;
    let ended = run_with(alloc, &["dump", "a", "decl N"], &mut store, 10, &[])?;
    compare(
        &rt,
        &ended,
        Status::OutFault,
        "const a.N ",
        "output fault\n",
    );
    Ok(())
}
