//! Builds of packages in any layout and of several files, and their faults of scan, parse and form.

use crate::scene::{File, Row, compare, expect, run_words, store_of};
use std::alloc::AllocError;
use std::process::Abort;
use std::test::Fail;
use ui_top::Status;

// Texts of the one file of the package `a`, and the value of `N`.
const VALUES: &[(&str, &str)] = &[
    ("package a\n\nconst N = 0x_ff\n", "255"),
    ("package a;const N=0b101+0o17+010\n", "28"),
    ("package a // a\r\n\r\nconst N = 1_0 +\r\n\t2\r\n", "12"),
    (
        "package /* a */ a\nconst /* 1 */ M = 1; const N = M + M",
        "2",
    ),
    (
        "package a\nconst N = 170141183460469231731687303715884105727",
        "170141183460469231731687303715884105727",
    ),
];

// Texts that are refused, and the line behind the file's name.
const FAULTS: &[(&str, &str)] = &[
    ("package a\n\nconst N = 1.5\n", "3:11: FloatLiteral"),
    (
        "package a\n\nconst N = 170141183460469231731687303715884105728\n",
        "3:11: ConstTooBig",
    ),
    ("package a\n\nconst N = \"\\q\"\n", "3:12: BadEscape"),
    (
        "package a\n\ntype T struct{ X int }\n\nfunc F(x T) int {\n\tif x == T{1} {\n\t\treturn 1\n\t}\n\treturn 0\n}\n",
        "6:15: Unexpected",
    ),
    ("package a\n\nconst N = 1 +\n", "4:1: Unexpected"),
    (
        "package a\n\nimport \"a\"\n\nconst N = a.N\n",
        "3:8: BadImportPath",
    ),
    ("package a\n\nvar N = 1.5; )\n", "3:9: FloatLiteral"),
    ("package a\n\nconst N = 7 - 1\n", "3:11: Form"),
    ("package a\n\nvar N = 7\n", "3:1: Form"),
    ("package a\n\nconst N int = 7\n", "3:9: Form"),
    ("package a\n\nconst (N = 7)\n", "3:1: Form"),
    ("package a\n\nconst n = 7\n", "3:1: Form"),
    ("package a\n\nconst N = 1\nconst N = 2\n", "1:1: Form"),
    ("package b\n\nconst N = 1\n", "1:1: Form"),
];

// Builds the package `a` of one file, asks for `N`, and compares the status and both texts.
fn one(
    rt: &(impl Abort + AllocGlobal),
    text: &str,
    status: Status,
    out: &str,
    err: &str,
) -> Result<(), AllocError> {
    let mut store = store_of(rt.alloc(), &[("src/a/a.go", text)])?;
    let ended = run_words(rt.alloc(), &["build", "a", "decl N"], &mut store)?;
    compare(rt, &ended, status, out, err);
    Ok(())
}

#[test]
fn any_layout_and_base(rt: HostRuntime) -> Result<(), Fail> {
    for (text, value) in VALUES {
        let out = format!(in rt.alloc(); "const a.N untyped int = {value}\n")?;
        one(&rt, text, Status::Ok, out.as_str(), "")?;
    }
    Ok(())
}

#[test]
fn faults_by_phase(rt: HostRuntime) -> Result<(), Fail> {
    for (text, fault) in FAULTS {
        let err = format!(in rt.alloc(); "src/a/a.go:{fault}\n")?;
        one(&rt, text, Status::Refused, "", err.as_str())?;
    }
    Ok(())
}

const N_OF_B: File = ("src/b/b.go", "package b\n\nconst N = 7\n");

const OVER_B: File = (
    "src/a/a.go",
    "package a\n\nimport \"b\"\n\nconst N = b.N + 1\n",
);

const SEVERAL_FILES: &[Row] = &[
    (
        &[N_OF_B, OVER_B, ("src/a/c.go", "package a\n\nconst M = 2\n")],
        &["build", "a", "decl M", "decl N"],
        Status::Ok,
        "const a.M untyped int = 2\nconst a.N untyped int = 8\n",
        "",
    ),
    (
        &[N_OF_B, OVER_B, ("src/a/c.go", "package a\n\nconst M = N\n")],
        &["build", "a", "decl M", "decl N"],
        Status::Refused,
        "",
        "src/a/c.go:3:11: Form\n",
    ),
    (
        &[N_OF_B, OVER_B, ("src/a/c.go", "package a\n\nconst N = 2\n")],
        &["build", "a", "decl M", "decl N"],
        Status::Refused,
        "",
        "src/a/a.go:1:1: Form\n",
    ),
    (
        &[
            N_OF_B,
            OVER_B,
            ("src/a/c.go", "package a\n\nimport \"b\"\n\nconst M = 2\n"),
        ],
        &["build", "a", "decl M", "decl N"],
        Status::Refused,
        "",
        "src/a/c.go:3:8: UnusedImport b\n",
    ),
];

const NO_FORM: File = ("src/a/a.go", "package a\n\nvar N = 7\n");

const NO_FILE: File = ("src/a/b.go", "package a\n\nconst N 7\n");

const PHASES: &[Row] = &[
    (
        &[
            NO_FORM,
            NO_FILE,
            ("src/a/c.go", "package a\n\nconst M = '\n"),
        ],
        &["build", "a"],
        Status::Refused,
        "",
        "src/a/c.go:3:11: BadRune\n",
    ),
    (
        &[NO_FORM, NO_FILE],
        &["build", "a"],
        Status::Refused,
        "",
        "src/a/b.go:3:9: Unexpected\n",
    ),
    (
        &[NO_FORM],
        &["build", "a"],
        Status::Refused,
        "",
        "src/a/a.go:3:1: Form\n",
    ),
];

// A group and a name, in a package of no form.
const IMPORTING: File = (
    "src/a/a.go",
    "package a\n\nimport (\n\tq \"b\"\n\t\"x\"\n)\n\nvar N = 7\n",
);

// The same over two files, whose packages differ.
const FIRST_OF_TWO: File = (
    "src/a/a.go",
    "package a\n\nimport \"z\"\nimport (\"q/r\")\n\nfunc F() {}\n",
);

const SECOND_OF_TWO: File = ("src/a/b.go", "package y\n\nimport n \"b\"\nimport \"z\"\n");

const OF_Q_R: File = ("src/q/r/r.go", "package r\n");

const OF_Z: File = ("src/z/z.go", "package z\n");

// What is found is what the imports name by path, whatever stands before or behind them; nothing
// where a file has a fault.
const FOUND: &[Row] = &[
    (
        &[IMPORTING],
        &["build", "a"],
        Status::NoFile,
        "",
        "no file: src/b\n",
    ),
    (
        &[IMPORTING, N_OF_B],
        &["build", "a"],
        Status::NoFile,
        "",
        "no file: src/x\n",
    ),
    (
        &[("src/a/a.go", "package a\n\nimport \"x\"\n\nconst N 7\n")],
        &["build", "a"],
        Status::Refused,
        "",
        "src/a/a.go:5:9: Unexpected\n",
    ),
    (
        &[("src/a/a.go", "package a\n\nimport \"x\"\n"), NO_FILE],
        &["build", "a"],
        Status::Refused,
        "",
        "src/a/b.go:3:9: Unexpected\n",
    ),
    (
        &[FIRST_OF_TWO, SECOND_OF_TWO],
        &["build", "a"],
        Status::NoFile,
        "",
        "no file: src/b\n",
    ),
    (
        &[FIRST_OF_TWO, SECOND_OF_TWO, N_OF_B],
        &["build", "a"],
        Status::NoFile,
        "",
        "no file: src/q/r\n",
    ),
    (
        &[FIRST_OF_TWO, SECOND_OF_TWO, N_OF_B, OF_Q_R],
        &["build", "a"],
        Status::NoFile,
        "",
        "no file: src/z\n",
    ),
    (
        &[FIRST_OF_TWO, SECOND_OF_TWO, N_OF_B, OF_Q_R, OF_Z],
        &["build", "a"],
        Status::Refused,
        "",
        "src/a/a.go:1:1: Form\n",
    ),
];

#[test]
fn several_files(rt: HostRuntime) -> Result<(), Fail> {
    for rows in [SEVERAL_FILES, PHASES, FOUND] {
        expect(&rt, rows)?;
    }
    Ok(())
}

#[test]
fn the_order_of_files(rt: HostRuntime) -> Result<(), Fail> {
    let alloc = rt.alloc();
    let files = [
        ("src/a/z.go", "package a\n\nconst Z = 1\n"),
        ("src/a/A.go", "package a\n\nconst A = 1\n"),
        ("src/a/b_test.go", "no package\n"),
    ];
    let mut store = store_of(alloc, &files)?;
    run_words(alloc, &["build", "a"], &mut store)?;
    let names = ["src/a", "src/a/A.go", "src/a/z.go", "src/a", "src/a/A.go"];
    for (asked, name) in store.asked().iter().zip(names) {
        assert_eq!(rt; asked.name.bytes(), name.as_bytes());
    }
    assert_eq!(rt; store.asked().len(), 9);
    Ok(())
}
