//! Files as they are read, and their faults.

use crate::print_file::shape;
use std::alloc::Global;
use std::process::Abort;
use std::test::Fail;
use ui_base::{NoMemory, Text};
use ui_pdecl::parse_file;
use ui_pexpr::{Form, ParseFault};
use ui_scan::tokens;
use ui_tree::FileTree;

// What is read of a text in the package `own/p`, or no answer where it has no tokens.
fn read(alloc: Global, text: &[u8]) -> Result<Option<Result<FileTree, ParseFault>>, NoMemory> {
    if text.len() >= 10_000 {
        return Ok(None);
    }
    let Ok(found) = tokens(alloc, text) else {
        return Ok(None);
    };
    if found.len() >= 1000 {
        return Ok(None);
    }
    let file = Text::from_slice(alloc, b"p.go")?;
    let own = Text::from_slice(alloc, b"own/p")?;
    Ok(Some(parse_file(alloc, text, found.as_slice(), &file, &own)))
}

const SHAPES: [(&[u8], &[u8]); 22] = [
    (b"package p", b"p "),
    (
        b"package p\nimport \"a\"\nimport x \"b/c\"",
        b"p import a;import x b/c;",
    ),
    (
        b"package p\nimport (\n\"a\"\nx \"b\"; _ `c`)",
        b"p import (a;x b;_ c;)",
    ),
    (
        b"package p\nconst a, b int = 1, 2\nconst ( c = 1; d )",
        b"p  (const { a b : int = 1 2 }); (const (group { c = 1 } { d }));",
    ),
    (
        b"package p\nvar a int\nvar ( b = 1; c int = 2 )",
        b"p  (var { a : int }); (var (group { b = 1 } { c : int = 2 }));",
    ),
    (b"package p\ntype T int", b"p type T[]int;"),
    (b"package p\ntype T = int", b"p type T[]=int;"),
    (
        b"package p\ntype (\nA []int\nB = *A)",
        b"p type (A[](slice int);B[]=(pointer A);)",
    ),
    (b"package p\ntype T [3]int", b"p type T[](array 3 int);"),
    (b"package p\ntype T []int", b"p type T[](slice int);"),
    (b"package p\ntype T [N]int", b"p type T[](array N int);"),
    (
        b"package p\ntype T [N * P]int",
        b"p type T[](array (* N P) int);",
    ),
    (
        b"package p\ntype T [N * P,]int",
        b"p type T[ {N (union (pointer P))}]int;",
    ),
    (
        b"package p\ntype T[P any] P",
        b"p type T[ {P (union any)}]P;",
    ),
    (
        b"package p\ntype T[P, Q ~int | string, R A] P",
        b"p type T[ {P Q (union (tilde int) string)} {R (union A)}]P;",
    ),
    (b"package p\nfunc f() {}", b"p func f() { };"),
    (
        b"package p\nfunc f(a, b int, c string) bool { return a < b }",
        b"p func f( {a b int} {c string})bool { (return (< a b)) };",
    ),
    (
        b"package p\nfunc f(int, string) (int, error) {}",
        b"p func f( {int} {string})(results {int} {error}) { };",
    ),
    (
        b"package p\nfunc f[P any, Q ~int](x P) Q {}",
        b"p func f[ {P (union any)} {Q (union (tilde int))}]( {x P})Q { };",
    ),
    (
        b"package p\nfunc (T) m() {}\nfunc (t T) m(x int) {}",
        b"p func (T) m() { };func (t T) m( {x int}) { };",
    ),
    (
        b"package p\nfunc (*T) m() {}\nfunc (t *T) m() {}",
        b"p func (*T) m() { };func (t *T) m() { };",
    ),
    (
        b"package p\nfunc (t *T[A, B]) m() A {}\nfunc (T[A]) m() {}",
        b"p func (t *T[A B ]) m()A { };func (T[A ]) m() { };",
    ),
];

#[test]
fn shapes(rt: HostRuntime) -> Result<(), Fail> {
    for (text, wanted) in SHAPES {
        let Some(Ok(file)) = read(rt.alloc(), text)? else {
            panic!(rt; "not read");
        };
        assert_eq!(rt; shape(rt.alloc(), &file)?.as_slice(), wanted);
        assert_eq!(rt; file.file.bytes(), b"p.go".as_slice());
    }
    Ok(())
}

// ---- faults; `package p` and a line feed have ten bytes

const OUTSIDE: [(&[u8], usize, Form); 17] = [
    (b"package p\nvar x chan int", 6, Form::Chan),
    (b"package p\nfunc f() { defer g() }", 11, Form::Defer),
    (
        b"package p\nfunc f() { fallthrough }",
        11,
        Form::Fallthrough,
    ),
    (b"package p\nconst func = 1", 6, Form::Func),
    (b"package p\nfunc f() { go g() }", 11, Form::Go),
    (b"package p\nfunc f() { goto g }", 11, Form::Goto),
    (b"package p\nfunc f() { select {} }", 11, Form::Select),
    (b"package p\nfunc f() { type T int }", 11, Form::Type),
    (b"package p\nvar x = <-y", 8, Form::Arrow),
    (b"package p\nfunc f(x ...int) {}", 9, Form::Ellipsis),
    (b"package p\nimport . \"a\"", 7, Form::DotImport),
    (b"package p\nimport ( . \"a\" )", 9, Form::DotImport),
    (
        b"package p\nimport ( \"a\"; x \"b\"; . \"c\" )",
        21,
        Form::DotImport,
    ),
    (
        b"package p\ntype T struct { a, b int \"t\" }",
        25,
        Form::Tag,
    ),
    (
        b"package p\nvar x map[string]struct { a int; b []T[int] `t` }",
        44,
        Form::Tag,
    ),
    (b"package p\ntype T[P any] = int", 14, Form::GenericAlias),
    (
        b"package p\ntype ( A int; T[P, Q any] = int )",
        26,
        Form::GenericAlias,
    ),
];

const UNEXPECTED: [(&[u8], usize); 17] = [
    (b"package p\nimport \"a\" . \"b\"", 11),
    (b"package p\nimport x . \"a\"", 9),
    (b"package p\nimport \"a\"\n. \"b\"", 11),
    (b"package p\ntype T struct { a \"t\" }", 18),
    (b"package p\ntype T struct { \"t\" }", 16),
    (b"package p\ntype T interface { int \"t\" }", 23),
    (b"package p\ntype T [N]= int", 10),
    (b"package p\nvar x [3]= y", 9),
    (b"package p\nx", 0),
    (b"package p\nvar x int\nimport \"a\"", 10),
    (b"package p\ntype T [N any", 13),
    (b"package p\ntype T [N *P, Q", 15),
    (b"package p\nfunc (a, b T) m() {}", 7),
    (b"package p\nfunc f() { if x == T{1} { } }", 24),
    (b"package p\nimport \"/a\"\nvar x \"y\"", 18),
    (b"package p\nimport 1", 7),
    (b"package p\nimport 'a'", 7),
];

const BAD_PATHS: [(&[u8], usize); 4] = [
    (b"package p\nimport \"a//b\"", 7),
    (b"package p\nimport \"own/p\"", 7),
    (
        b"package p\nimport \"a\"\nimport ( x \"b\"; y \"../c\"; z \"/d\" )",
        29,
    ),
    (b"package p\nimport ( \"unsafe\" )\nimport \"\"", 9),
];

fn expect_fault(
    rt: &impl Abort,
    alloc: Global,
    text: &[u8],
    wanted: ParseFault,
) -> Result<(), Fail> {
    match read(alloc, text)? {
        Some(Err(fault)) => assert_eq!(rt; fault, wanted),
        _ => panic!(rt; "no fault"),
    }
    Ok(())
}

#[test]
fn forms_outside(rt: HostRuntime) -> Result<(), Fail> {
    for (text, at, form) in OUTSIDE {
        expect_fault(
            &rt,
            rt.alloc(),
            text,
            ParseFault::Outside { at: 10 + at, form },
        )?;
    }
    Ok(())
}

#[test]
fn faults(rt: HostRuntime) -> Result<(), Fail> {
    for (text, at) in UNEXPECTED {
        expect_fault(
            &rt,
            rt.alloc(),
            text,
            ParseFault::Unexpected { at: 10 + at },
        )?;
    }
    for (text, at) in BAD_PATHS {
        expect_fault(
            &rt,
            rt.alloc(),
            text,
            ParseFault::BadImportPath { at: 10 + at },
        )?;
    }
    Ok(())
}

#[test]
fn a_literal_in_parentheses(rt: HostRuntime) -> Result<(), Fail> {
    let text = b"package p\nfunc f() { if x == (T{1}) { } }";
    match read(rt.alloc(), text)? {
        Some(Ok(file)) => assert_eq!(rt;
            shape(rt.alloc(), &file)?.as_slice(),
            b"p func f() { (if (== x (paren (lit (of T) 1))) { }) };".as_slice()
        ),
        _ => panic!(rt; "not read"),
    }
    Ok(())
}

// A function with so many blocks, one in the other.
fn nested(alloc: Global, count: usize) -> Result<Vec<u8>, NoMemory> {
    let mut out = Vec::from_slice(alloc, b"package p\nfunc f() {")?;
    for _ in 0..count {
        out.push(b'{')?;
    }
    for _ in 0..count {
        out.push(b'}')?;
    }
    out.push(b'}')?;
    Ok(out)
}

#[test]
fn depth(rt: HostRuntime) -> Result<(), Fail> {
    match read(rt.alloc(), nested(rt.alloc(), 200)?.as_slice())? {
        Some(Ok(file)) => assert!(rt; shape(rt.alloc(), &file)?.starts_with(b"p func f() { { {")),
        _ => panic!(rt; "not read"),
    }
    let deep = nested(rt.alloc(), 201)?;
    expect_fault(
        &rt,
        rt.alloc(),
        deep.as_slice(),
        ParseFault::TooDeep { at: 220 },
    )
}
