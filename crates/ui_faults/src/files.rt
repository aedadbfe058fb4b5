//! One faulty text for each place at which a production can break, in two parts: the fault stands
//! where the second begins.

use crate::told::Told::{self, TooDeep, Unexpected};
use crate::told::{CHAN, DEFER, fault, joined, put_each};
use std::alloc::Global;
use std::process::Abort;
use std::test::Fail;
use ui_base::{NoMemory, Text};
use ui_pdecl::parse_file;
use ui_pexpr::{Form, ParseFault};
use ui_scan::tokens;
use ui_tree::FileTree;

const FILE: &str = "package p\n";

const VALUE: &str = "package p\nvar x = ";

const BODY: &str = "package p\nfunc f() { ";

type Parts = (&'static str, &'static str);

const PACKAGES: &[Parts] = &[
    ("", ""),
    ("", "x"),
    ("package ", ""),
    ("package ", "1"),
    ("package p ", "q"),
    ("package p", ".q"),
    ("// c\npackage p\n", "}"),
];

const IMPORTS: &[Parts] = &[
    ("import ", ""),
    ("import ", "1"),
    ("import x ", "y"),
    ("import x", "\n\"a\""),
    ("import \"a\" ", "\"b\""),
    ("import \"a\"", ", \"b\""),
    ("import (", ""),
    ("import ( ", "; \"a\" )"),
    ("import ( x ", ")"),
    ("import ( \"a\" ", "\"b\" )"),
    ("import ( \"a\"; ", "; )"),
    ("import ( \"a\" )", "( \"b\" )"),
    ("var x int\n", "import \"a\""),
];

const COMMONS: &[Parts] = &[
    ("const ", ""),
    ("const ", "1"),
    ("const a ", "+ 1"),
    ("const a, ", "= 1"),
    ("const a int", ""),
    ("const a int", "\nvar x int"),
    ("const a = ", ""),
    ("const a = 1,", ""),
    ("const a = 1 ", "2"),
    ("const ( ", "= 1 )"),
    ("const ( a = 1 ", "b )"),
    ("const ( a = 1; ", "; )"),
    ("const ( a", ""),
    ("var ", "= 1"),
    ("var x", ""),
    ("var x", "\n"),
    ("var x, y", "; z int"),
    ("var x int ", "int"),
    ("var x int", ", y int"),
    ("var x int = ", ";"),
    ("var x = \n", ""),
    ("var ( x int ", "y int )"),
];

const TYPES: &[Parts] = &[
    ("type ", "= int"),
    ("type T", ""),
    ("type T = ", ""),
    ("type T ", "1"),
    ("type ( T int ", "U int )"),
    ("type T *", ""),
    ("type T (int", ""),
    ("type T (", ")"),
    ("type T p.", "(int)"),
    ("type T U[", "]"),
    ("type T U[int ", "int]"),
    ("type T U[int, ", ", int]"),
    ("type T [", ""),
    ("type T [3 ", "4]int"),
    ("type T [3]", ""),
    ("type T []", ""),
    ("type T [3]int ", "int"),
    ("type T map ", "int"),
    ("type T map[", "]int"),
    ("type T map[int", ""),
    ("type T map[int]", ""),
    ("type T func ", "int"),
    ("type T func(", ", a int)"),
    ("type T func(a int, int", ")"),
    ("type T func([]int, a ", "int)"),
    ("type T func(int int ", "int)"),
    ("type T func() (int ", ";"),
    ("type T struct ", "int"),
    ("type T struct { ", "*U }"),
    ("type T struct { a ", "}"),
    ("type T struct { a, ", "}"),
    ("type T struct { a int ", "b int }"),
    ("type T interface ", "m()"),
    ("type T interface { ", "1 }"),
    ("type T interface { m() n", "() }"),
    ("type T interface { int | ", "}"),
    ("type T interface { ~", "}"),
    ("type T[P, ", "]int"),
    ("type T[P any ", "Q any]int"),
    ("type T[P ~", "]int"),
    ("type T[P int|", "]int"),
    ("type T[P any", ""),
    ("type T[P any]", ""),
    ("type T[N * P", "}"),
];

const FUNCTIONS: &[Parts] = &[
    ("func ", "1"),
    ("func f", ""),
    ("func f[", "]() {}"),
    ("func f[P", "]() {}"),
    ("func f[P any", ""),
    ("func f(", ""),
    ("func f(a", ""),
    ("func f(a int ", "b int) {}"),
    ("func f()", ""),
    ("func f() int", ""),
    ("func f() ", "1 {}"),
    ("func f() (int ", "{}"),
    ("func f() (a int, b", ") {}"),
    ("func f() {", ""),
    ("func f() { // c\n", ""),
    ("func f() {} ", "var x int"),
    ("func f() {", ")"),
    ("func (", ") m() {}"),
    ("func (", "1) m() {}"),
    ("func (t", ""),
    ("func (t [", "]T) m() {}"),
    ("func (t *", ") m() {}"),
    ("func (t *T", ", u T) m() {}"),
    ("func (t T[A", ".B]) m() {}"),
    ("func (t T[A, ", "]) m() {}"),
    ("func (t p", ".T) m() {}"),
    ("func (t T) ", "() {}"),
    ("func (t T) m ", "{}"),
    ("func (t T) m", "[P any]() {}"),
    ("func (t T ", "u) m() {}"),
];

const VALUES: &[Parts] = &[
    ("", ")"),
    ("(", ")"),
    ("(a", ""),
    ("(a ", "b)"),
    ("-", ""),
    ("a + ", ""),
    ("a + ", "/ b"),
    ("a ", "b"),
    ("a ", "= b"),
    ("a ", ":= b"),
    ("a", "++"),
    ("a.", ""),
    ("a.", ")"),
    ("a.(", ")"),
    ("a.(T", ""),
    ("f(", ""),
    ("f(", ", a)"),
    ("f(a", ""),
    ("f(a ", "b)"),
    ("f(a, ", ", b)"),
    ("f(a..., ", "b)"),
    ("f([]int ", "int)"),
    ("a[", "]"),
    ("a[1", ""),
    ("a[b ", "c]"),
    ("a[b, c", ": d]"),
    ("a[:", ": 3]"),
    ("a[1:2:", "]"),
    ("a[1:2:3", ": 4]"),
    ("T{", ""),
    ("T{", ", a}"),
    ("T{a ", "b}"),
    ("T{a: ", "}"),
    ("T{a: b", ": c}"),
    ("T{a, ", ", b}"),
    ("[]int", ""),
    ("[]int ", "x"),
    ("[]int{1}", "{2}"),
    ("[...]", ""),
    ("[3 ", "4]int{}"),
    ("map[string]int ", "+ 1"),
    ("struct { a int } ", "+ 1"),
    ("interface {} ", "{}"),
    ("func() ", "{}"),
    ("[]int(a, ", "b)"),
    ("!a <= ", "<= b"),
    ("a, ", ", b"),
];

const STATEMENTS: &[Parts] = &[
    ("", ")"),
    ("", "else { } }"),
    ("", "case a: }"),
    ("", "package q }"),
    ("", "import \"a\" }"),
    ("", ": a }"),
    ("} ", "}"),
    ("{ ", ""),
    ("{ a } ", "b }"),
    ("; ; ", ") }"),
    ("var x int ", "y }"),
    ("const ", "}"),
    ("a ", "b }"),
    ("a", ": b }"),
    ("a = ", "}"),
    ("a, b ", "}"),
    ("a, ", "= 1 }"),
    ("a, b ", "+= 1 }"),
    ("a += ", "}"),
    ("a += b", ", c }"),
    ("a++ ", "b }"),
    ("a, b", "-- }"),
    ("1 ", ":= a }"),
    ("a.b ", ":= 1 }"),
    ("a, b.c ", ":= 1 }"),
    ("a := ", "}"),
    ("return ", ", a }"),
    ("return a, ", "}"),
    ("return a ", "b }"),
    ("break ", "a }"),
    ("continue ", "a }"),
    ("if ", "{ } }"),
    ("if ", "var x int; x { } }"),
    ("if a ", "}"),
    ("if a\n", "{ } }"),
    ("if a; ", "{ } }"),
    ("if a = b ", "{ } }"),
    ("if a := b; c", "; d { } }"),
    ("if x == T{1} ", "{ } }"),
    ("if a { } ", "b }"),
    ("if a { } else ", "b }"),
    ("if a { } else", ""),
    ("if a { } else if ", "{ } }"),
    ("if a { }\n", "else { } }"),
    ("for ", "}"),
    ("for a ", "}"),
    ("for a; ", "{ } }"),
    ("for a; b ", "{ } }"),
    ("for a; b; c", ""),
    ("for a; b; ", "var c int { } }"),
    ("for a := 1 ", "{ } }"),
    ("for a, 1 := ", "b; ; { } }"),
    ("for a = range ", "{ } }"),
    ("for range ", "{ } }"),
    ("for a := b, ", "range c { } }"),
    ("for a; ; b := ", "range c { } }"),
    ("for a += ", "range c { } }"),
    ("switch ", "}"),
    ("switch a ", "}"),
    ("switch a ", "b { } }"),
    ("switch a = b ", "{ } }"),
    ("switch a; b", "; c { } }"),
    ("switch a {", ""),
    ("switch a { ", "b }"),
    ("switch a { case ", ": }"),
    ("switch a { case b ", "c }"),
    ("switch a { default ", "}"),
    ("switch a { case b: c ", "d }"),
];

// A `.`, a string and a `=` elsewhere than where they begin a form outside.
const PLACED: &[Parts] = &[
    ("type ( ", ". )"),
    ("const ( a; ", ". )"),
    ("import \"a\"; ", ". \"b\""),
    ("import ( \"a\" ", ". \"b\" )"),
    ("func f(a int ", "\"t\") {}"),
    ("var x int ", "\"t\""),
    ("type T struct { a func(b int ", "\"t\") }"),
    ("type T interface { m() int ", "\"t\" }"),
    ("func f[P any] ", "= 1"),
    ("type T[P any] int ", "= int"),
    ("type T U[int] ", "= int"),
    ("type T [3] ", "= int"),
    ("type T [N * P] ", "= int"),
];

// Of the ten words that are outside wherever they are at fault: behind another fault, or where they
// are taken.
const BEHIND_A_FAULT: &[Parts] = &[
    ("var x", ": chan int"),
    ("func f() { a ", "b; defer g() }"),
    ("func f() { switch a { ", "b: fallthrough } }"),
    ("var x func() int ", "int; func f() { }"),
    ("func f() { x := ", "; go g() }"),
    ("func f() { for a ", "b { goto c } }"),
    ("func f() { for ", "} select { }"),
    ("type ", "; type T int"),
    ("func f() { g(", ", <-c) }"),
    ("func f(a int", "; b ...int) { }"),
    ("func f() { x := func() ", "{ } }"),
    ("type T int; type U ", "; var x int"),
    ("var x = f(a... ", "b)"),
];

const OUTSIDE: &[(Form, &str, &str)] = &[
    (Form::Chan, "", "chan int"),
    (Form::Chan, "type T struct { a ", "chan int }"),
    (Form::Defer, "", "defer f()"),
    (
        Form::Fallthrough,
        "func f() { switch a { case b: ",
        "fallthrough } }",
    ),
    (Form::Func, "import ", "func"),
    (Form::Func, "func f() { } ", "func g() { }"),
    (Form::Go, "func f() { if a { } else ", "go g() }"),
    (Form::Goto, "", "goto a"),
    (Form::Select, "func f() { for ", "select { } }"),
    (Form::Type, "type T int ", "type U int"),
    (Form::Type, "func f() { if a { ", "type T int } }"),
    (Form::Arrow, "func f() { c ", "<- 1 }"),
    (Form::Arrow, "func f() { x := f(a, ", "<-c) }"),
    (Form::Ellipsis, "type T [", "...]int"),
    (Form::Ellipsis, "var x = f(", "...)"),
    (Form::DotImport, "import ( \"a\"\n", ". \"b\" )"),
    (Form::DotImport, "import ( \"a\" )\nimport ", ". \"b\""),
    (Form::Tag, "type T struct { a int ", "\"t\" }"),
    (
        Form::Tag,
        "type T struct { a int\nb, c p.U[int] ",
        "\"t\" }",
    ),
    (Form::Tag, "type T struct { a struct { b int } ", "`t` }"),
    (Form::Tag, "func f(a struct { b func() int ", "\"t\" }) { }"),
    (
        Form::Tag,
        "func f() { x := struct { a [3]int ",
        "\"t\" }{} }",
    ),
    (Form::GenericAlias, "type T[P any] ", "= int"),
    (Form::GenericAlias, "type T[N * P,] ", "= int"),
    (
        Form::GenericAlias,
        "type ( T[P ~int | string, Q any,] ",
        "= int )",
    ),
    (Form::GenericAlias, "type ( A int; T[P []int] ", "= int )"),
];

// What is read of a text in the package `own/p`.
pub fn read(
    rt: &impl Abort,
    alloc: Global,
    text: &[u8],
) -> Result<Result<FileTree, ParseFault>, Fail> {
    assert!(rt; text.len() < 10000);
    let found = tokens(alloc, text)?;
    assert!(rt; found.len() < 10000);
    let file = Text::from_slice(alloc, b"p.go")?;
    let own = Text::from_slice(alloc, b"own/p")?;
    Ok(parse_file(alloc, text, found.as_slice(), &file, &own))
}

// The fault of a text, or none where it is a file.
fn fault_of(rt: &impl Abort, alloc: Global, text: &[u8]) -> Result<Option<ParseFault>, Fail> {
    match read(rt, alloc, text)? {
        Ok(_) => Ok(None),
        Err(fault) => Ok(Some(fault)),
    }
}

// The fault stands where the last part of the text begins.
fn expect_between(
    rt: &impl Abort,
    alloc: Global,
    mut text: Vec<u8>,
    behind: &[u8],
    told: Told,
) -> Result<(), Fail> {
    let at = text.len();
    text.extend_from_slice(behind)?;
    assert_eq!(rt;
        fault_of(rt, alloc, text.as_slice())?,
        Some(fault(told, at))
    );
    Ok(())
}

fn expect_unexpected(
    rt: &impl Abort,
    alloc: Global,
    front: &str,
    texts: &[Parts],
) -> Result<(), Fail> {
    for (before, behind) in texts {
        let mut text = joined(alloc, &[front])?;
        put_each(&mut text, before, 1)?;
        expect_between(rt, alloc, text, behind.as_bytes(), Unexpected)?;
    }
    Ok(())
}

#[test]
fn each_place(rt: HostRuntime) -> Result<(), Fail> {
    expect_unexpected(&rt, rt.alloc(), "", PACKAGES)?;
    expect_unexpected(&rt, rt.alloc(), FILE, IMPORTS)?;
    expect_unexpected(&rt, rt.alloc(), FILE, COMMONS)?;
    expect_unexpected(&rt, rt.alloc(), FILE, TYPES)?;
    expect_unexpected(&rt, rt.alloc(), FILE, FUNCTIONS)?;
    expect_unexpected(&rt, rt.alloc(), VALUE, VALUES)?;
    expect_unexpected(&rt, rt.alloc(), BODY, STATEMENTS)?;
    expect_unexpected(&rt, rt.alloc(), FILE, PLACED)?;
    expect_unexpected(&rt, rt.alloc(), FILE, BEHIND_A_FAULT)
}

#[test]
fn each_form(rt: HostRuntime) -> Result<(), Fail> {
    for (form, before, behind) in OUTSIDE {
        let text = joined(rt.alloc(), &[FILE, before])?;
        let told = Told::Outside(*form);
        expect_between(&rt, rt.alloc(), text, behind.as_bytes(), told)?;
    }
    Ok(())
}

// ---- depth

// What begins a text; what follows so many times, in two parts; what is enclosed, and what closes
// each.
type Nest = (&'static str, Parts, usize, &'static str, &'static str);

// One time more is too deep where the second part begins.
const AT_THE_LIMIT: &[Nest] = &[
    ("var x = ", ("", "("), 199, "a", ")"),
    ("type T ", ("", "*"), 199, "int", ""),
    ("type T ", ("", "[]"), 199, "int", ""),
    ("var x ", ("", "func("), 200, "", ")"),
    ("var x = T", ("", "{"), 199, "", "}"),
    ("func f() {", ("", "{"), 200, "}", "}"),
    ("func f() {", ("", "if a {"), 199, "}", "}"),
    ("func f() { ", ("", "if a { } else "), 199, "{ } }", ""),
    ("var x = ", ("a ", "+ "), 199, "a", ""),
    ("var x = ", ("f", "["), 199, "a", "]"),
    ("var x = ", ("([]T{f", "("), 49, "!!!a", ")})"),
];

// What begins a text, what follows so many times, and what stands before and behind the fault. The
// same again follows.
const DEEP: &[(Told, &str, &str, usize, Parts)] = &[
    (TooDeep, "var x = ", "(", 199, ("", "func(")),
    (TooDeep, "var x = ", "([]T{f(", 49, ("!!!", "!a")),
    (CHAN, "var x = ", "(", 199, ("", "chan ")),
    (DEFER, "func f() {", "{", 200, ("", "defer f()")),
    (Unexpected, "var x = ", "(", 199, ("", ")")),
    (Unexpected, "var x = ", "(", 150, ("", ")")),
    (Unexpected, "var x = ", "(", 150, ("a", "}")),
    (Unexpected, "type T ", "*", 199, ("", ")")),
    (Unexpected, "func f() {", "{", 200, ("", "]")),
    (Unexpected, "func f() {", "{", 150, ("", "else ")),
    (Unexpected, "var x = ", "a + ", 199, ("a ", "a ")),
    (Unexpected, "var x = T", "{", 150, ("", ": ")),
];

fn nested(alloc: Global, front: &str, part: Parts, count: usize) -> Result<Vec<u8>, NoMemory> {
    let mut text = joined(alloc, &[FILE, front])?;
    for _ in 0..count {
        text.extend_from_slice(part.0.as_bytes())?;
        text.extend_from_slice(part.1.as_bytes())?;
    }
    Ok(text)
}

#[test]
fn as_deep_as_may_be(rt: HostRuntime) -> Result<(), Fail> {
    for (front, part, count, middle, close) in AT_THE_LIMIT {
        let mut text = nested(rt.alloc(), front, *part, *count)?;
        put_each(&mut text, middle, 1)?;
        put_each(&mut text, close, *count)?;
        assert_eq!(rt; fault_of(&rt, rt.alloc(), text.as_slice())?, None);
    }
    Ok(())
}

#[test]
fn one_level_more(rt: HostRuntime) -> Result<(), Fail> {
    for (front, part, count, middle, close) in AT_THE_LIMIT {
        let mut text = nested(rt.alloc(), front, *part, *count)?;
        put_each(&mut text, part.0, 1)?;
        let mut behind = joined(rt.alloc(), &[part.1, middle, close])?;
        put_each(&mut behind, close, *count)?;
        expect_between(&rt, rt.alloc(), text, behind.as_slice(), TooDeep)?;
    }
    Ok(())
}

#[test]
fn in_the_depth(rt: HostRuntime) -> Result<(), Fail> {
    for (told, front, part, count, around) in DEEP {
        let mut text = nested(rt.alloc(), front, ("", part), *count)?;
        put_each(&mut text, around.0, 1)?;
        let mut behind = joined(rt.alloc(), &[around.1])?;
        put_each(&mut behind, part, *count)?;
        expect_between(&rt, rt.alloc(), text, behind.as_slice(), *told)?;
    }
    Ok(())
}
