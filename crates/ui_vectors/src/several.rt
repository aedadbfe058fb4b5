//! Builds of several packages.

use crate::scene::{File, Row, SEVEN, compare, expect, run_words, store_of};
use std::alloc::{AllocError, Global};
use std::process::Abort;
use std::test::Fail;
use ui_store::{AskKind, MemStore};
use ui_top::Status;

const UNUSED: File = ("src/b/b.go", "package b\n\nimport \"a\"\n\nconst M = 1\n");

const FAULTS: &[Row] = &[
    (
        &[SEVEN, UNUSED],
        &["build", "b", "decl M"],
        Status::Refused,
        "",
        "src/b/b.go:3:8: UnusedImport a\n",
    ),
    (
        &[
            SEVEN,
            (
                "src/b/b.go",
                "package b\n\nimport \"a\"\n\nconst M = 1 + a.Z\n",
            ),
        ],
        &["build", "b", "decl M"],
        Status::Refused,
        "",
        "src/b/b.go:5:15: Undefined Z\n",
    ),
    (
        &[("src/b/b.go", "package b\n\nimport \"b\"\n\nconst M = b.M\n")],
        &["build", "b", "decl M"],
        Status::Refused,
        "",
        "src/b/b.go:3:8: BadImportPath\n",
    ),
];

#[test]
fn faults_of_a_package(rt: HostRuntime) -> Result<(), Fail> {
    expect(&rt, FAULTS)?;
    let mut store = store_of(rt.alloc(), &[SEVEN, UNUSED])?;
    run_words(rt.alloc(), &["build", "b"], &mut store)?;
    assert!(rt; store.file("unit/a.u").is_some() && store.file("lib/a.u").is_some());
    assert!(rt; store.file("unit/b.u").is_none() && store.file("lib/b.u").is_none());
    Ok(())
}

const B: File = (
    "src/b/b.go",
    "package b\n\nimport \"a\"\n\nconst M = a.N + 1\n",
);

const C: File = (
    "src/c/c.go",
    "package c\n\nimport \"a\"\n\nconst M = a.N + 2\n",
);

const D: File = (
    "src/d/d.go",
    "package d\n\nimport \"b\"\nimport \"c\"\n\nconst L = b.M + c.M\n",
);

const DIAMOND: &[Row] = &[
    (
        &[SEVEN, B, C, D],
        &["build", "d", "decl L"],
        Status::Ok,
        "const d.L untyped int = 17\n",
        "",
    ),
    (
        &[B, C, D],
        &["build", "d", "decl L"],
        Status::NoFile,
        "",
        "no file: src/a\n",
    ),
    (
        &[SEVEN, C, D],
        &["build", "d", "decl L"],
        Status::NoFile,
        "",
        "no file: src/b\n",
    ),
    (
        &[("src/y/y.go", "package y\n\nimport \"x\"\n\nconst M = x.N\n")],
        &["build", "y", "decl M"],
        Status::NoFile,
        "",
        "no file: src/x\n",
    ),
];

#[test]
fn a_diamond_and_what_is_missing(rt: HostRuntime) -> Result<(), Fail> {
    expect(&rt, DIAMOND)?;
    Ok(())
}

// Puts the one source of a package.
fn put_source(
    alloc: Global,
    store: &mut MemStore,
    path: &str,
    text: &str,
) -> Result<(), AllocError> {
    let name = format!(in alloc; "src/{path}/{path}.go")?;
    store.put(alloc, name.as_str(), text.as_bytes())
}

// A package that imports another and takes its constant.
fn over(alloc: Global, path: &str, import: &str) -> Result<String, AllocError> {
    format!(in alloc; "package {path}\n\nimport \"{import}\"\n\nconst N = {import}.N\n")
}

// Builds the last of packages of which each imports another, and compares; nothing is written.
fn cycle(
    rt: &(impl Abort + AllocGlobal),
    imports: &[(&str, &str)],
    err: &str,
) -> Result<(), AllocError> {
    let alloc = rt.alloc();
    let mut store = MemStore::new(alloc, Vec::new(alloc), 0);
    for (path, import) in imports {
        let text = over(alloc, path, import)?;
        put_source(alloc, &mut store, path, text.as_str())?;
    }
    let root = imports.last().map_or("", |pair| pair.0);
    let ended = run_words(alloc, &["build", root, "decl N"], &mut store)?;
    compare(rt, &ended, Status::Refused, "", err);
    assert!(rt;
        store
            .asked()
            .iter()
            .all(|asked| asked.what != AskKind::Write)
    );
    Ok(())
}

#[test]
fn cycles_of_imports(rt: HostRuntime) -> Result<(), Fail> {
    for (imports, err) in [
        ([("b", "a"), ("a", "b")].as_slice(), "import cycle: a\n"),
        (&[("b", "c"), ("c", "d"), ("d", "b")], "import cycle: b\n"),
        (&[("x", "y"), ("y", "x"), ("a", "y")], "import cycle: x\n"),
    ] {
        cycle(&rt, imports, err)?;
    }
    Ok(())
}

// Packages `d0`, `d1`, .. in which `X` is doubled and `S` is the sum of all before and this.
fn doublings(alloc: Global, count: u32) -> Result<MemStore, AllocError> {
    let first = "package d0\n\nconst X = 1\nconst S = 1\n";
    let mut store = store_of(alloc, &[("src/d0/d0.go", first)])?;
    for i in 1..count {
        let below = i - 1;
        let path = format!(in alloc; "d{i}")?;
        let text = format!(in alloc;
            "package d{i}\n\nimport \"d{below}\"\n\nconst X = d{below}.X + d{below}.X\nconst S = d{below}.S + X\n"
        )?;
        put_source(alloc, &mut store, path.as_str(), text.as_str())?;
    }
    Ok(store)
}

#[test]
fn chains_and_great_sums(rt: HostRuntime) -> Result<(), Fail> {
    for (count, root, status, out, err) in [
        (
            30,
            "d29",
            Status::Ok,
            "const d29.S untyped int = 1073741823\n",
            "",
        ),
        (
            127,
            "d126",
            Status::Ok,
            "const d126.S untyped int = 170141183460469231731687303715884105727\n",
            "",
        ),
        (
            128,
            "d127",
            Status::Refused,
            "",
            "src/d127/d127.go:5:11: ConstTooBig\n",
        ),
    ] {
        let mut store = doublings(rt.alloc(), count)?;
        let ended = run_words(rt.alloc(), &["build", root, "decl S"], &mut store)?;
        compare(&rt, &ended, status, out, err);
    }
    Ok(())
}

// A package that imports each fourth of the packages `p0`, `p1`, ..
fn put_hub(alloc: Global, store: &mut MemStore, hub: u32, leaves: u32) -> Result<(), AllocError> {
    let mut imports = String::new(alloc);
    for leaf in 0..leaves {
        if leaf % 4 == hub {
            let import = format!(in alloc; "import \"p{leaf}\"\n")?;
            imports.push_str(import.as_str())?;
        }
    }
    let path = format!(in alloc; "h{hub}")?;
    let text = format!(in alloc; "package h{hub}\n{imports}")?;
    put_source(alloc, store, path.as_str(), text.as_str())?;
    Ok(())
}

// A package that imports four packages, which import so many, of which the first compiled is no
// file.
fn wide(alloc: Global, leaves: u32) -> Result<MemStore, AllocError> {
    let root = "package r\nimport \"h0\"\nimport \"h1\"\nimport \"h2\"\nimport \"h3\"\n";
    let mut store = store_of(alloc, &[("src/r/r.go", root)])?;
    for hub in 0..4 {
        put_hub(alloc, &mut store, hub, leaves)?;
    }
    for leaf in 0..leaves {
        let path = format!(in alloc; "p{leaf}")?;
        put_source(alloc, &mut store, path.as_str(), "no package\n")?;
    }
    Ok(store)
}

#[test]
fn as_many_packages_as_may_be_found(rt: HostRuntime) -> Result<(), Fail> {
    for (leaves, err) in [
        (1019, "src/p0/p0.go:1:1: Unexpected\n"),
        (1020, "too many packages\n"),
    ] {
        let mut store = wide(rt.alloc(), leaves)?;
        let ended = run_words(rt.alloc(), &["build", "r"], &mut store)?;
        compare(&rt, &ended, Status::Refused, "", err);
    }
    Ok(())
}
