//! Expressions, types and signatures nested as deep as they may be, and the faults there.

use crate::calls::Sort::{self, Expr, Header, Sig, Type};
use crate::calls::{answer, expect_between, within};
use crate::told::Told::{self, TooDeep, Unexpected};
use crate::told::{ARROW, CHAN, ELLIPSIS, FUNC, TAG, TYPE_WORD, joined, put_each};
use std::alloc::Global;
use std::process::Abort;
use std::test::Fail;
use ui_base::NoMemory;

// How deep what encloses the text is, what the text begins with, and what follows so many times.
type Nest = (u32, &'static str, &'static str, usize);

type Deep = (Sort, Nest, &'static str, &'static str, Told);

// Each token of the last part is a fault behind the rest, or the end is.
const DEEP_OPERANDS: &[Deep] = &[
    (
        Expr,
        (0, "", "(", 199),
        "",
        "( [ - func struct interface map + *",
        TooDeep,
    ),
    (Expr, (0, "", "(", 199), "", ") { , if /", Unexpected),
    (Expr, (0, "", "(", 199), "", "chan", CHAN),
    (Expr, (0, "", "(", 199), "", "...", ELLIPSIS),
    (Expr, (0, "", "(", 199), "", "", Unexpected),
    (Expr, (0, "", "(", 199), "a", "+ . [ ( { &&", TooDeep),
    (Expr, (0, "", "(", 199), "a", "b } , \"s\"", Unexpected),
    (Expr, (0, "", "(", 199), "a", "", Unexpected),
    (Expr, (0, "", "(", 199), "a", "func", FUNC),
    (Expr, (0, "", "(", 198), "a.b", ". + [ ( {", TooDeep),
    (Expr, (0, "", "(", 198), "a.(", "* [", TooDeep),
    (Expr, (0, "", "(", 198), "a.(p", ".", TooDeep),
    (Expr, (0, "", "(", 198), "a.(", "type", TYPE_WORD),
    (Expr, (0, "", "(", 198), "a{", "b {", TooDeep),
    (Expr, (0, "", "(", 198), "a{", ")", Unexpected),
    (Expr, (0, "", "(", 198), "f(a", ". +", TooDeep),
    (Expr, (0, "", "(", 198), "f(", "[", TooDeep),
    (Expr, (0, "", "(", 198), "f(struct{}", "{ (", TooDeep),
    (Expr, (0, "", "(", 198), "f(struct {", "a", TooDeep),
    (Expr, (0, "", "(", 198), "f(func(", "a", TooDeep),
    (Expr, (0, "", "(", 198), "f(func()", "T [ func", TooDeep),
    (Expr, (0, "", "(", 198), "f(func()()", "(", TooDeep),
    (Expr, (0, "", "(", 198), "f(func()", "{", Unexpected),
    (Expr, (0, "", "(", 198), "", "[ map", TooDeep),
    (Expr, (0, "", "(", 198), "interface{", "m", TooDeep),
    (Expr, (0, "", "(", 198), "interface{}(a", ".", TooDeep),
    (Expr, (0, "", "(", 197), "[]", "[ * map", TooDeep),
    (Expr, (0, "", "(", 197), "[]T", ". [", TooDeep),
    (Expr, (0, "", "(", 197), "[]T{a", ".", TooDeep),
    (Expr, (0, "", "(", 197), "[]T(a + b", "+", TooDeep),
    (Expr, (0, "", "(", 197), "[]T", "] +", Unexpected),
    (Header, (0, "", "(", 199), "a", "{", TooDeep),
    (Header, (0, "", "(", 198), "a{", "b", TooDeep),
    (Header, (0, "", "(", 199), "", "chan", CHAN),
    (Expr, (0, "", "! ", 199), "", "! ( * [ -", TooDeep),
    (Expr, (0, "", "- ", 199), "", "-", TooDeep),
    (Expr, (0, "", "*", 199), "", "*", TooDeep),
    (Expr, (0, "", "! ", 199), "", "= )", Unexpected),
    (Expr, (0, "", "! ", 199), "", "<-", ARROW),
    (Expr, (0, "(a", " + a", 198), "", "+ - == ||", TooDeep),
    (Expr, (0, "(a", " + a", 198), "", "a = }", Unexpected),
    (Expr, (0, "(a", ".b", 198), "", ". [ ( +", TooDeep),
    (Expr, (0, "(a", ".b", 198), "", "{", Unexpected),
    (Expr, (0, "(a", "[b]", 198), "", "[", TooDeep),
    (Expr, (0, "(a", "()", 198), "", "(", TooDeep),
    (Expr, (0, "(a", ".(T)", 198), "", ".", TooDeep),
];

// Likewise, of calls, indices and literals.
const DEEP_PRIMARIES: &[Deep] = &[
    (Expr, (0, "", "f(", 199), "f", "(", TooDeep),
    (Expr, (0, "", "f(", 199), "", "[", TooDeep),
    (Expr, (0, "", "f(", 199), "", "...", ELLIPSIS),
    (Expr, (0, "", "f(", 198), "[", "...", TooDeep),
    (Expr, (0, "", "f(", 199), "", ", ]", Unexpected),
    (Expr, (0, "", "f(", 199), "a...", "b", Unexpected),
    (Expr, (0, "", "f(", 199), "func(", "a", TooDeep),
    (Expr, (0, "", "f(", 199), "func()()", "(", TooDeep),
    (Expr, (0, "", "f(", 199), "struct{}", "{", TooDeep),
    (Expr, (0, "", "f(", 199), "struct {", "a", TooDeep),
    (Expr, (0, "", "f(", 199), "struct {", "\"t\"", Unexpected),
    (Expr, (0, "", "f[", 199), "a", "[ + . (", TooDeep),
    (Expr, (0, "", "f[", 199), "", "] ,", Unexpected),
    (Expr, (0, "", "f[", 199), "a", "b )", Unexpected),
    (Expr, (0, "", "f[", 199), "a", "...", ELLIPSIS),
    (Expr, (0, "", "a[:", 199), "b", "+", TooDeep),
    (Expr, (0, "T", "{", 199), "", "{ a 1 (", TooDeep),
    (Expr, (0, "T", "{", 199), "", ", ) :", Unexpected),
    (Expr, (0, "T", "{", 199), "", "chan", CHAN),
    (Expr, (0, "T", "{", 198), "a", ". +", TooDeep),
    (Expr, (0, "T", "{", 198), "a: {", "b {", TooDeep),
    (Expr, (0, "", "[]T{", 99), "", "]", Unexpected),
];

// Likewise, of types.
const DEEP_TYPES: &[Deep] = &[
    (Type, (0, "", "*", 199), "", "* ( [ map", TooDeep),
    (Type, (0, "", "*", 199), "", ") 1", Unexpected),
    (Type, (0, "", "*", 199), "", "", Unexpected),
    (Type, (0, "", "*", 199), "", "chan", CHAN),
    (Type, (0, "", "*", 199), "struct {", "a", TooDeep),
    (Type, (0, "", "*", 199), "func(", "a", TooDeep),
    (Type, (0, "", "*", 199), "interface {", "m ~", TooDeep),
    (Type, (0, "", "(", 199), "", "(", TooDeep),
    (Type, (0, "", "(", 199), "T", ". [", TooDeep),
    (Type, (0, "", "(", 199), "T", ", ] T", Unexpected),
    (Type, (0, "", "(", 199), "func()", "T *", TooDeep),
    (Type, (0, "", "(", 199), "", "<-", ARROW),
    (Type, (0, "", "[]", 199), "", "[ *", TooDeep),
    (Type, (0, "", "[]", 198), "[", "...", ELLIPSIS),
    (Type, (0, "", "[]", 198), "[", "- (", TooDeep),
    (Type, (0, "", "[]", 198), "[f", "[", TooDeep),
    (Type, (0, "", "[]", 198), "[a", "+ .", TooDeep),
    (Type, (0, "", "[]", 198), "[a", "b", Unexpected),
    (Type, (0, "", "map[", 199), "", "map [", TooDeep),
    (Type, (0, "", "map[", 199), "", "]", Unexpected),
    (Type, (0, "", "map[K]", 199), "", "[ map", TooDeep),
    (Type, (0, "", "map[K]", 199), "", "\"s\"", Unexpected),
    (Type, (0, "", "func(", 200), "", "func a *", TooDeep),
    (Type, (0, "", "func(", 200), "", ",", Unexpected),
    (Type, (0, "", "func(", 200), "", "", Unexpected),
    (Type, (0, "", "func(", 200), "", "...", ELLIPSIS),
    (Type, (0, "", "func(", 199), "a", "[ . *", TooDeep),
    (Type, (0, "", "func(", 199), "a b, c", ")", Unexpected),
    (Type, (0, "", "func(", 199), "a b", ". [", TooDeep),
    (Type, (0, "(", "func() ", 199), "", "func T", TooDeep),
    (Type, (0, "(", "func() ", 199), "(", "a", TooDeep),
    (Type, (0, "(", "func() ", 199), "", "{ ,", Unexpected),
    (Type, (0, "", "struct { a ", 199), "", "* [", TooDeep),
    (Type, (0, "", "struct { a ", 199), "struct {", "b", TooDeep),
    (Type, (0, "", "struct { a ", 199), "T", ".", TooDeep),
    (Type, (0, "", "struct { a ", 199), "T", "\"t\"", TAG),
    (
        Type,
        (0, "", "struct { a ", 199),
        "struct {",
        "\"t\"",
        Unexpected,
    ),
    (Type, (0, "", "struct { a ", 199), "struct {}", "\"t\"", TAG),
    (Type, (0, "", "struct { a ", 199), "", "\"t\"", Unexpected),
    (Type, (0, "", "struct { a ", 199), "T", "b", Unexpected),
    (Type, (0, "struct { a ", "[]", 198), "T", "\"t\"", TAG),
    (Type, (0, "struct { a ", "[]", 198), "", "[", TooDeep),
    (Type, (0, "struct { a ", "[]", 198), "", "\"t\"", Unexpected),
    (Type, (0, "struct { a ", "*", 198), "T", ".", TooDeep),
];

// Likewise, of interfaces, arguments of types and signatures.
const DEEP_LISTS: &[Deep] = &[
    (
        Type,
        (0, "", "interface { ", 200),
        "",
        "T ~ interface",
        TooDeep,
    ),
    (Type, (0, "", "interface { ", 200), "", ") ;", Unexpected),
    (Type, (0, "", "interface { ", 199), "m(", "a", TooDeep),
    (Type, (0, "", "interface { ", 199), "m()", "T", TooDeep),
    (Type, (0, "", "interface { ", 199), "T |", "*", TooDeep),
    (Type, (0, "", "interface { ", 199), "T", ". [", TooDeep),
    (Type, (0, "", "interface { m(", 100), "", "a *", TooDeep),
    (Type, (0, "", "T[", 199), "A", "[ .", TooDeep),
    (Type, (0, "", "T[", 199), "", "] 1", Unexpected),
    (Type, (0, "", "T[", 199), "A", "B", Unexpected),
    (Sig, (0, "", "(func", 199), "(", "func a", TooDeep),
    (Sig, (0, "", "(func", 199), "(", ",", Unexpected),
    (Sig, (0, "(", "func(", 198), "a", ".", TooDeep),
    (Sig, (0, "() ", "[]", 198), "", "[", TooDeep),
    (Sig, (0, "() ", "*", 198), "", "*", TooDeep),
    (Sig, (0, "() ", "[]", 198), "", "...", ELLIPSIS),
];

// Likewise, of mixtures, and where what encloses the text has a depth.
const DEEP_MIXTURES: &[Deep] = &[
    (Expr, (0, "", "([]T{f(", 49), "!!!", "!", TooDeep),
    (Expr, (0, "", "([]T{f(", 49), "!!!a", "+ . (", TooDeep),
    (Expr, (0, "", "([]T{f(", 49), "!!!", "} )", Unexpected),
    (Expr, (0, "", "f([]T{a: (-b[", 33), "c.d", ". + {", TooDeep),
    (Expr, (0, "", "f([]T{a: (-b[", 33), "c.d", "e", Unexpected),
    (
        Type,
        (0, "", "map[*[]T]func(a struct { b ", 66),
        "*",
        "*",
        TooDeep,
    ),
    (
        Type,
        (0, "", "map[*[]T]func(a struct { b ", 66),
        "*T",
        ". [",
        TooDeep,
    ),
    (
        Type,
        (0, "", "map[*[]T]func(a struct { b ", 66),
        "*T",
        "\"t\"",
        TAG,
    ),
    (
        Type,
        (0, "", "map[*[]T]func(a struct { b ", 66),
        "*T",
        ") ]",
        Unexpected,
    ),
    (
        Expr,
        (199, "", "(", 0),
        "",
        "( ! [ func struct interface map *",
        TooDeep,
    ),
    (Expr, (199, "", "(", 0), "", ")", Unexpected),
    (Expr, (199, "", "(", 0), "", "", Unexpected),
    (Expr, (199, "", "(", 0), "", "chan", CHAN),
    (Expr, (198, "", "(", 0), "func()", "T", TooDeep),
    (Expr, (198, "", "(", 0), "func()()(a", ".", TooDeep),
    (Expr, (198, "", "(", 0), "struct{}{", "a", TooDeep),
    (Expr, (198, "", "(", 0), "struct {", "a", TooDeep),
    (Expr, (198, "", "(", 0), "a{", "b", TooDeep),
    (Expr, (198, "", "(", 0), "", "[", TooDeep),
    (Expr, (198, "", "(", 0), "f(a", "+", TooDeep),
    (Expr, (198, "", "(", 0), "!", "!", TooDeep),
    (Expr, (198, "", "(", 0), "a.(", "*", TooDeep),
    (Expr, (198, "", "(", 0), "a.", "[", Unexpected),
    (Header, (199, "", "(", 0), "", "(", TooDeep),
    (Header, (198, "", "(", 0), "struct{}{", "a", TooDeep),
    (Type, (199, "", "(", 0), "", "* ( [ map", TooDeep),
    (Type, (199, "", "(", 0), "struct {", "a", TooDeep),
    (Type, (199, "", "(", 0), "interface {", "m ~", TooDeep),
    (Type, (199, "", "(", 0), "func(", "a", TooDeep),
    (Type, (199, "", "(", 0), "func() (", "a", TooDeep),
    (Type, (199, "", "(", 0), "", "1", Unexpected),
    (Type, (199, "", "(", 0), "", "", Unexpected),
    (Type, (199, "", "(", 0), "", "chan", CHAN),
    (Sig, (199, "", "(", 0), "(", "a", TooDeep),
    (Sig, (199, "", "(", 0), "() (", "a", TooDeep),
    (Sig, (199, "", "(", 0), "", "a", Unexpected),
    (Sig, (199, "", "(", 0), "(", ",", Unexpected),
    (Sig, (199, "", "(", 0), "(", "...", ELLIPSIS),
    (Sig, (199, "", "(", 0), "() (", "...", ELLIPSIS),
    (Sig, (198, "", "(", 0), "(a", ". [ *", TooDeep),
    (Sig, (198, "", "(", 0), "(a b, c", ")", Unexpected),
    (Sig, (198, "", "(", 0), "(a b", ".", TooDeep),
    (Sig, (198, "", "(", 0), "(", "*", TooDeep),
    (Sig, (198, "", "(", 0), "(func(", "a", TooDeep),
    (Expr, (100, "", "(", 99), "", "( !", TooDeep),
    (Expr, (100, "", "(", 99), "a", "+", TooDeep),
    (Expr, (100, "", "(", 99), "", ")", Unexpected),
    (Type, (100, "", "[]", 99), "", "[", TooDeep),
    (Type, (100, "", "*", 99), "", "1", Unexpected),
    (Sig, (100, "", "(func", 99), "(", "a", TooDeep),
];

// Likewise, where the same is nested 200 times again behind the fault.
const EARLY: &[Deep] = &[
    (Expr, (0, "", "(", 150), "", ")", Unexpected),
    (Expr, (0, "", "(", 150), "a", "b", Unexpected),
    (Expr, (0, "", "(", 0), "a + ", ")", Unexpected),
    (Expr, (0, "", "(", 150), "", "chan", CHAN),
    (Expr, (0, "", "f(", 120), "a", "1", Unexpected),
    (Expr, (0, "T", "{", 150), "a", ")", Unexpected),
    (Expr, (0, "", "! ", 198), "", "=", Unexpected),
    (Expr, (0, "", "f[", 150), "", "]", Unexpected),
    (Expr, (0, "", "f(", 198), "f", "]", Unexpected),
    (Type, (0, "", "*", 150), "", ")", Unexpected),
    (Type, (0, "", "[]", 150), "", "\"s\"", Unexpected),
    (Type, (0, "", "map[", 150), "", "]", Unexpected),
    (Type, (0, "", "struct { a ", 150), "T", "\"t\"", TAG),
    (Type, (0, "", "struct { a ", 150), "", "\"t\"", Unexpected),
    (Type, (0, "", "interface { ", 150), "T", "T", Unexpected),
    (Type, (0, "", "func(", 199), "", "...", ELLIPSIS),
    (Sig, (0, "", "(func", 150), "", "T", Unexpected),
    (Sig, (0, "(a ", "[]", 150), "", "<-", ARROW),
    (Expr, (0, "", "([]T{f(", 30), "", ",", Unexpected),
];

// All of the text is read: what closes each nest is last.
const AT_THE_LIMIT: &[(Sort, Nest, &str, &str)] = &[
    (Expr, (0, "", "(", 199), "a", ")"),
    (Expr, (0, "", "f(", 199), "a", ")"),
    (Expr, (0, "", "f(", 199), "func()", ")"),
    (Expr, (0, "", "f(", 199), "struct{}", ")"),
    (Expr, (0, "T", "{", 199), "", "}"),
    (Expr, (0, "T", "{", 198), "a: {}", "}"),
    (Expr, (0, "", "f[", 199), "a", "]"),
    (Expr, (0, "", "f[", 199), "a,", "]"),
    (Expr, (0, "", "a[:", 199), "b", "]"),
    (Expr, (0, "", "! ", 199), "a", ""),
    (Expr, (0, "", "([]T{f(", 49), "!!!a", ")})"),
    (Expr, (0, "", "f([]T{a: (-b[", 33), "c.d", "])})"),
    (Expr, (0, "", "(", 198), "a.b", ")"),
    (Expr, (0, "", "(", 198), "a{}", ")"),
    (Expr, (0, "", "(", 198), "a.(T)", ")"),
    (Expr, (0, "", "(", 198), "struct{}{}", ")"),
    (Expr, (0, "", "(", 198), "interface{}(a)", ")"),
    (Expr, (0, "", "(", 198), "func()()(a)", ")"),
    (Expr, (0, "", "(", 198), "f(func()())", ")"),
    (Expr, (0, "", "(", 197), "[]T{a}", ")"),
    (Expr, (0, "", "(", 197), "[]T(a + b)", ")"),
    (Expr, (0, "", "f(", 198), "[]T", ")"),
    (Expr, (0, "", "f(", 197), "[...]T{}", ")"),
    (Expr, (0, "a", " + a", 199), "", ""),
    (Expr, (0, "a", " + a", 198), " * b", ""),
    (Expr, (0, "a", ".b", 199), "", ""),
    (Expr, (0, "a", "()", 199), "", ""),
    (Expr, (0, "a", "[b]", 199), "", ""),
    (Header, (0, "", "(", 199), "a", ")"),
    (Header, (0, "", "(", 198), "a{}", ")"),
    (Type, (0, "", "*", 199), "T", ""),
    (Type, (0, "", "*", 199), "func()", ""),
    (Type, (0, "", "*", 199), "struct{}", ""),
    (Type, (0, "", "*", 198), "p.T", ""),
    (Type, (0, "", "(", 199), "T", ")"),
    (Type, (0, "", "[]", 199), "T", ""),
    (Type, (0, "", "[]", 198), "[a]T", ""),
    (Type, (0, "", "map[", 199), "K", "]V"),
    (Type, (0, "", "map[K]", 199), "V", ""),
    (Type, (0, "", "func(", 200), "", ")"),
    (Type, (0, "", "func(", 199), "a b", ")"),
    (Type, (0, "", "func() ", 200), "", ""),
    (Type, (0, "", "func() ", 200), "()", ""),
    (Type, (0, "", "struct { a ", 199), "T", "}"),
    (Type, (0, "", "struct { a ", 199), "struct {}", "}"),
    (Type, (0, "", "interface { ", 200), "", "}"),
    (Type, (0, "", "interface { ", 199), "m() ()", "}"),
    (Type, (0, "", "interface { ", 199), "T | ~U", "}"),
    (Type, (0, "", "interface { m(", 100), "", ")}"),
    (Type, (0, "", "T[", 199), "A, B", "]"),
    (Type, (0, "", "map[*[]T]func(a struct { b ", 66), "*T", "})"),
    (Sig, (0, "", "(func", 199), "()", ")"),
    (Sig, (0, "() ", "[]", 198), "T", ""),
    (Sig, (0, "(a", "", 0), ") T", ""),
    (Expr, (199, "", "(", 0), "a", ")"),
    (Expr, (198, "", "(", 1), "a", ")"),
    (Expr, (198, "", "(", 0), "func()()(a)", ""),
    (Expr, (198, "", "(", 0), "struct{}{}", ""),
    (Expr, (100, "", "(", 99), "a", ")"),
    (Type, (199, "", "(", 0), "func()()", ""),
    (Type, (199, "", "(", 0), "interface{}", ""),
    (Type, (100, "", "[]", 99), "T", ""),
    (Sig, (199, "", "(", 0), "()()", ""),
    (Sig, (198, "", "(", 0), "(a b, c d) (e)", ""),
    (Sig, (100, "", "(func", 99), "()", ")"),
];

fn nested(alloc: Global, (_, front, part, count): Nest, before: &str) -> Result<Vec<u8>, NoMemory> {
    let mut text = joined(alloc, &[front])?;
    put_each(&mut text, part, count)?;
    put_each(&mut text, before, 1)?;
    Ok(text)
}

// A token behind the nest, and the same so many times more behind it.
fn expect_token(
    rt: &impl Abort,
    alloc: Global,
    (sort, nest, before, _, told): Deep,
    token: &[u8],
    more: usize,
) -> Result<(), Fail> {
    let mut text = nested(alloc, nest, before)?;
    text.push(b' ')?;
    let mut last = Vec::from_slice(alloc, token)?;
    last.push(b' ')?;
    put_each(&mut last, nest.2, more)?;
    expect_between(rt, alloc, within(sort, nest.0), text, last.as_slice(), told)
}

fn expect_deep(rt: &impl Abort, alloc: Global, row: Deep, more: usize) -> Result<(), Fail> {
    let (sort, nest, before, behind, told) = row;
    let behind = behind.as_bytes();
    if behind.is_empty() {
        let text = nested(alloc, nest, before)?;
        return expect_between(rt, alloc, within(sort, nest.0), text, b"", told);
    }
    assert!(rt; behind.len() < 10000);
    let found = ui_scan::tokens(alloc, behind)?;
    for token in found.as_slice() {
        let (start, end) = (token.start as usize, token.end as usize);
        if start >= end || end > behind.len() {
            continue;
        }
        expect_token(rt, alloc, row, &behind[start..end], more)?;
    }
    Ok(())
}

fn expect_each(rt: &impl Abort, alloc: Global, rows: &[Deep], more: usize) -> Result<(), Fail> {
    for row in rows {
        expect_deep(rt, alloc, *row, more)?;
    }
    Ok(())
}

#[test]
fn deep_operands(rt: HostRuntime) -> Result<(), Fail> {
    expect_each(&rt, rt.alloc(), DEEP_OPERANDS, 0)
}

#[test]
fn deep_primaries(rt: HostRuntime) -> Result<(), Fail> {
    expect_each(&rt, rt.alloc(), DEEP_PRIMARIES, 0)
}

#[test]
fn deep_types(rt: HostRuntime) -> Result<(), Fail> {
    expect_each(&rt, rt.alloc(), DEEP_TYPES, 0)
}

#[test]
fn deep_lists(rt: HostRuntime) -> Result<(), Fail> {
    expect_each(&rt, rt.alloc(), DEEP_LISTS, 0)
}

#[test]
fn deep_mixtures(rt: HostRuntime) -> Result<(), Fail> {
    expect_each(&rt, rt.alloc(), DEEP_MIXTURES, 0)
}

#[test]
fn before_the_depth(rt: HostRuntime) -> Result<(), Fail> {
    expect_each(&rt, rt.alloc(), EARLY, 200)
}

#[test]
fn as_deep_as_may_be(rt: HostRuntime) -> Result<(), Fail> {
    for (sort, nest, middle, close) in AT_THE_LIMIT {
        let mut text = nested(rt.alloc(), *nest, middle)?;
        put_each(&mut text, close, nest.3)?;
        match answer(&rt, rt.alloc(), within(*sort, nest.0), text.as_slice())? {
            Ok((end, written)) => assert_eq!(rt; end, written),
            Err(found) => panic!(rt; "{middle}: {found:?}"),
        }
    }
    Ok(())
}
