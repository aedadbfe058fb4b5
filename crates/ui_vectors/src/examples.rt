//! The worked examples.

use crate::scene::{Row, SEVEN, SEVEN_FILE, USAGE, expect, run_with, run_words, store_of};
use std::test::Fail;
use ui_store::{AskKind, MemStore};
use ui_top::Status;

const ONE_FILE: &[Row] = &[
    (
        &[SEVEN],
        &["build", "a", "decl N"],
        Status::Ok,
        "const a.N untyped int = 7\n",
        "",
    ),
    // a package that declares nothing
    (
        &[("src/e/e.go", "package e\n")],
        &["build", "e"],
        Status::Ok,
        "",
        "",
    ),
    (
        &[("src/a/a.go", "package a\n\nconst N = 7 + 1\n")],
        &["build", "a", "decl N"],
        Status::Ok,
        "const a.N untyped int = 8\n",
        "",
    ),
    // a name that isn't declared, and one that is
    (
        &[SEVEN],
        &["build", "a", "decl M", "decl N"],
        Status::QueryRefused,
        "refused: NoSuch a.M\nconst a.N untyped int = 7\n",
        "",
    ),
    // base sixteen, with an underscore
    (
        &[("src/a/a.go", "package a\n\nconst N = 0x_ff\n")],
        &["build", "a", "decl N"],
        Status::Ok,
        "const a.N untyped int = 255\n",
        "",
    ),
];

// The second has a struct's literal before a block.
const FAULTY: &[Row] = &[
    (
        &[("src/a/a.go", "package a\n\nconst N = 1.5\n")],
        &["build", "a"],
        Status::Refused,
        "",
        "src/a/a.go:3:11: FloatLiteral\n",
    ),
    (
        &[(
            "src/a/a.go",
            "package a\n\ntype T struct{ X int }\n\nfunc F(x T) int {\n\tif x == T{1} {\n\t\treturn 1\n\t}\n\treturn 0\n}\n",
        )],
        &["build", "a"],
        Status::Refused,
        "",
        "src/a/a.go:6:15: Unexpected\n",
    ),
];

const MISSING_OR_CYCLIC: &[Row] = &[
    (
        &[
            SEVEN,
            ("src/b/b.go", "package b\n\nimport \"a\"\n\nconst M = 1\n"),
        ],
        &["build", "b"],
        Status::Refused,
        "",
        "src/b/b.go:3:8: UnusedImport a\n",
    ),
    (&[], &["build", "z"], Status::NoFile, "", "no file: src/z\n"),
    (
        &[
            ("src/a/a.go", "package a\n\nimport \"b\"\n\nconst N = b.M\n"),
            ("src/b/b.go", "package b\n\nimport \"a\"\n\nconst M = a.N\n"),
        ],
        &["build", "a"],
        Status::Refused,
        "",
        "import cycle: a\n",
    ),
];

const NO_COMMANDS: &[Row] = &[
    (&[], &[], Status::Usage, "", USAGE),
    (&[], &["gen", "0"], Status::Usage, "", USAGE),
    (&[], &["build", "a//b"], Status::Usage, "", USAGE),
];

#[test]
fn worked_examples(rt: HostRuntime) -> Result<(), Fail> {
    for rows in [ONE_FILE, FAULTY, MISSING_OR_CYCLIC, NO_COMMANDS] {
        expect(&rt, rows)?;
    }
    Ok(())
}

#[test]
fn an_import_and_the_names_asked(rt: HostRuntime) -> Result<(), Fail> {
    let alloc = rt.alloc();
    let text = "package b\n\nimport \"a\"\n\nconst M = a.N + a.N + 1\n";
    let mut store = store_of(alloc, &[SEVEN, ("src/b/b.go", text)])?;
    let ended = run_words(alloc, &["build", "b", "decl M"], &mut store)?;
    assert_eq!(rt; ended.status, Status::Ok);
    assert_eq!(rt;
        ended.out.written(),
        b"const b.M untyped int = 15\n".as_slice()
    );
    let wanted = [
        (AskKind::List, "src/b"),
        (AskKind::Read, "src/b/b.go"),
        (AskKind::List, "src/a"),
        (AskKind::Read, "src/a/a.go"),
        (AskKind::List, "src/a"),
        (AskKind::Read, "src/a/a.go"),
        (AskKind::Write, "unit/a.u"),
        (AskKind::Write, "lib/a.u"),
        (AskKind::List, "src/b"),
        (AskKind::Read, "src/b/b.go"),
        (AskKind::Read, "lib/a.u"),
        (AskKind::Write, "unit/b.u"),
        (AskKind::Write, "lib/b.u"),
        (AskKind::Read, "lib/b.u"),
    ];
    assert_eq!(rt; store.asked().len(), wanted.len());
    for (asked, (what, name)) in store.asked().iter().zip(wanted) {
        assert_eq!(rt; asked.what, what);
        assert_eq!(rt; asked.name.bytes(), name.as_bytes());
    }
    Ok(())
}

#[test]
fn what_stands_behind_a_refusal(rt: HostRuntime) -> Result<(), Fail> {
    let alloc = rt.alloc();
    let unused = "package b\n\nimport \"a\"\n\nconst M = 1\n";
    let mut store = store_of(alloc, &[SEVEN, ("src/b/b.go", unused)])?;
    run_words(alloc, &["build", "b"], &mut store)?;
    assert!(rt; store.file("unit/a.u").is_some() && store.file("lib/a.u").is_some());
    assert!(rt; store.file("unit/b.u").is_none() && store.file("lib/b.u").is_none());
    Ok(())
}

#[test]
fn the_bytes_of_linked_files(rt: HostRuntime) -> Result<(), Fail> {
    let alloc = rt.alloc();
    let mut store = store_of(alloc, &[SEVEN, ("src/e/e.go", "package e\n")])?;
    run_words(alloc, &["build", "a"], &mut store)?;
    let linked = store.file("lib/a.u").ok_or("no linked file")?;
    assert_eq!(rt; linked, SEVEN_FILE);
    run_words(alloc, &["build", "e"], &mut store)?;
    let linked = store.file("lib/e.u").ok_or("no linked file")?;
    assert_eq!(rt; linked.len(), 86);
    Ok(())
}

#[test]
fn the_worked_file_is_dumped(rt: HostRuntime) -> Result<(), Fail> {
    let alloc = rt.alloc();
    let mut store = MemStore::new(alloc, Vec::new(alloc), 0);
    store.put(alloc, "lib/a.u", SEVEN_FILE)?;
    let ended = run_words(alloc, &["dump", "a", "decl N"], &mut store)?;
    assert_eq!(rt; ended.status, Status::Ok);
    assert_eq!(rt;
        ended.out.written(),
        b"const a.N untyped int = 7\n".as_slice()
    );
    Ok(())
}

#[test]
fn a_first_call_that_fails(rt: HostRuntime) -> Result<(), Fail> {
    let alloc = rt.alloc();
    let mut store = store_of(alloc, &[SEVEN])?;
    let ended = run_with(alloc, &["build", "a", "decl N"], &mut store, 1000, &[0])?;
    assert_eq!(rt; ended.status, Status::OutFault);
    assert!(rt; store.file("unit/a.u").is_some() && store.file("lib/a.u").is_some());
    let mut failing = MemStore::new(alloc, [0u64].to_vec(alloc)?, 0);
    failing.put(alloc, SEVEN.0, SEVEN.1.as_bytes())?;
    let ended = run_words(alloc, &["build", "a", "decl N"], &mut failing)?;
    assert_eq!(rt; ended.status, Status::ReadFault);
    Ok(())
}
