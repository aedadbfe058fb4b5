//! Expressions, types and signatures in two parts: the fault stands where the second begins. And
//! texts that begin with a form.

use crate::calls::Sort::{self, Expr, Header, Sig, Type};
use crate::calls::{Call, answer, count_written, expect_between, whole};
use crate::told::Told::{self, Unexpected};
use crate::told::{
    ARROW, CHAN, DEFER, ELLIPSIS, FALLTHROUGH, FUNC, GO, GOTO, SELECT, TAG, TYPE_WORD, joined,
};
use std::test::Fail;

// What stands before the fault and what from it on.
const BETWEEN: &[(Sort, &str, &str, Told)] = &[
    (Expr, "", "chan T", CHAN),
    (Type, "[]", "chan T", CHAN),
    (Expr, "f(a ", "b chan T)", Unexpected),
    (Expr, "", "defer f()", DEFER),
    (Type, "[]", "defer f()", DEFER),
    (Expr, "f(a ", "b defer f())", Unexpected),
    (Expr, "", "fallthrough", FALLTHROUGH),
    (Type, "[]", "fallthrough", FALLTHROUGH),
    (Expr, "f(a ", "b fallthrough)", Unexpected),
    (Expr, "", "go f()", GO),
    (Type, "[]", "go f()", GO),
    (Expr, "f(a ", "b go f())", Unexpected),
    (Expr, "", "goto a", GOTO),
    (Type, "[]", "goto a", GOTO),
    (Expr, "", "select { }", SELECT),
    (Type, "[]", "select { }", SELECT),
    (Expr, "f(a ", "b select { })", Unexpected),
    (Expr, "", "type T int", TYPE_WORD),
    (Type, "[]", "type T int", TYPE_WORD),
    (Expr, "f(a ", "b type T int)", Unexpected),
    (Expr, "", "<-c", ARROW),
    (Type, "[]", "<-c", ARROW),
    (Expr, "f(a ", "b <-c)", Unexpected),
    (Expr, "", "...", ELLIPSIS),
    (Type, "[]", "...", ELLIPSIS),
    (Expr, "f(a ", "b ...)", Unexpected),
    (Expr, "(a ", "func() { })", FUNC),
    (Expr, "a.", "func", FUNC),
    (Expr, "(a ", "b func())", Unexpected),
    (Expr, "f(a... ", "b)", Unexpected),
    (Expr, "[... ", "T{}", Unexpected),
    (Type, "struct { ", "\"t\" }", Unexpected),
    (Type, "struct { a, b ", "\"t\" }", Unexpected),
    (Type, "struct { a ", "\"t\" }", Unexpected),
    (Type, "struct { a, ", "\"t\" }", Unexpected),
    (Type, "struct { a T ", "\"t\" }", TAG),
    (Type, "struct { a T ", "`t` }", TAG),
    (Type, "struct { a T /* c */ ", "\"t\" }", TAG),
    (Type, "struct { a T; b U ", "\"t\" }", TAG),
    (Type, "struct { a T; ", "\"t\" }", Unexpected),
    (Type, "struct { a T\n", "\"t\" }", Unexpected),
    (Type, "struct { a T /* \n */", "\"t\" }", Unexpected),
    (Type, "struct { a T // c\n", "\"t\" }", Unexpected),
    (Type, "struct { a T ", "'t' }", Unexpected),
    (Type, "struct { a T\nb U ", "\"t\" }", TAG),
    (Type, "struct { a struct { b T } ", "\"t\" }", TAG),
    (Type, "struct { a struct { b T ", "\"t\" } }", TAG),
    (Type, "(struct { a T } ", "\"t\")", Unexpected),
    (Sig, "(a T ", "\"t\")", Unexpected),
    (Sig, "() (a T ", "\"t\")", Unexpected),
    (Sig, "(a struct { b T ", "\"t\" })", TAG),
    (Sig, "() struct { b T ", "\"t\" }", TAG),
    (Sig, "(a struct { b T } ", "\"t\")", Unexpected),
    (Type, "interface { m() T ", "\"t\" }", Unexpected),
    (Type, "interface { T ", "\"t\" }", Unexpected),
    (Type, "[a ", "\"t\"]T", Unexpected),
    (Type, "struct { a [b ", "\"t\"]T }", Unexpected),
    (Type, "struct { a T[b ", "\"t\"] }", Unexpected),
    (Expr, "struct { a T ", "\"t\" }{}", TAG),
    (Expr, "struct { a T }{b ", "\"t\"}", Unexpected),
    (Expr, "T{a ", "\"t\"}", Unexpected),
    (Expr, "(a ", "\"t\")", Unexpected),
    (Expr, "T{struct { a T ", "\"t\" }{}}", TAG),
    (Expr, "struct { a T } ", "\"t\"", Unexpected),
    (Expr, "[]struct { a T } ", "\"t\"", Unexpected),
    (Header, "struct { a T ", "\"t\" }{}", TAG),
    (Expr, "struct { a [f(b, []c{d}) ", "\"t\"]e }", Unexpected),
    (Expr, "(a", "\n)", Unexpected),
    (Expr, "f(a", "\n)", Unexpected),
    (Expr, "T{a", "\n}", Unexpected),
    (Expr, "a[b", "\n]", Unexpected),
    (Expr, "(1", "\n)", Unexpected),
    (Expr, "(f()", "\n)", Unexpected),
    (Expr, "(a", "\n+ b)", Unexpected),
    (Expr, "(a{}", "\n)", Unexpected),
    (Expr, "[]T", "\n{}", Unexpected),
    (Expr, "(a", "; )", Unexpected),
    (Expr, "(a", "/* \n */)", Unexpected),
    (Expr, "(a", " // c\n)", Unexpected),
    (Expr, "f(a,\n", "; b)", Unexpected),
    (Type, "(T", "\n)", Unexpected),
    (Type, "[]", "\nT", Unexpected),
    (Type, "[a]", "\nT", Unexpected),
    (Type, "map[K]", "\nV", Unexpected),
    (Type, "struct { a", "\nT }", Unexpected),
    (Type, "(func()", "\n)", Unexpected),
    (Type, "interface { T\n", "| U }", Unexpected),
    (Type, "struct { ", "; a T }", Unexpected),
    (Type, "struct { a T; ", "; }", Unexpected),
    (Type, "interface { ", "; }", Unexpected),
    (Type, "interface { m();", "; }", Unexpected),
    (Sig, "(a b", "\n)", Unexpected),
    (Sig, "() (a", "\n)", Unexpected),
    (Sig, "() []", "\nT", Unexpected),
    (Type, "struct { a T ", "b U }", Unexpected),
    (Type, "interface { m() ", "~T }", Unexpected),
    (Expr, "T{", "", Unexpected),
    (Header, "(T{", "", Unexpected),
    (Header, "[]T{", "", Unexpected),
    (Header, "f(T{", "", Unexpected),
    (Header, "a[T{", "", Unexpected),
    (Header, "[]T{U{", "", Unexpected),
    (Header, "interface{} ", "{ }", Unexpected),
    (Header, "[T{}.", "]U{}", Unexpected),
    (Expr, "a +", "", Unexpected),
    (Expr, "a + ", ")", Unexpected),
    (Sig, "(a, b T, c", ")", Unexpected),
    (Sig, "(a.b, c ", "T)", Unexpected),
    (Expr, "\u{feff}(a ", "b)", Unexpected),
    (Expr, "(\u{e9} ", "b)", Unexpected),
    (Expr, "/* \u{e9} */ \"\u{e9}\" + ", ")", Unexpected),
    (Expr, "\n\t( ", ")", Unexpected),
];

#[test]
fn between(rt: HostRuntime) -> Result<(), Fail> {
    for (sort, before, behind, told) in BETWEEN {
        let text = joined(rt.alloc(), &[before])?;
        expect_between(
            &rt,
            rt.alloc(),
            whole(*sort),
            text,
            behind.as_bytes(),
            *told,
        )?;
    }
    Ok(())
}

// What stands before the first token that is read is no part of the form.
const FROM_WITHIN: &[(&str, Sort, &str, &str, Told)] = &[
    ("struct { a ", Expr, "func() ", "\"t\" }", Unexpected),
    ("struct { a ", Expr, "[]T ", "\"t\" }", Unexpected),
    ("struct { a ", Type, "(T ", "\"t\" }", Unexpected),
    ("struct { a func", Sig, "(b T ", "\"t\") }", Unexpected),
    ("x = ", Expr, "struct { a T ", "\"t\" }", TAG),
    ("struct { a ", Type, "struct { b T ", "\"t\" } }", TAG),
    ("( ( ( ", Expr, "(a ", "b", Unexpected),
    ("a + ", Expr, "", "chan T", CHAN),
    ("var x ", Type, "[]", "1", Unexpected),
    ("func f", Sig, "(a ", "...T)", ELLIPSIS),
    ("for x == T", Expr, "", "{ }", Unexpected),
];

#[test]
fn from_within(rt: HostRuntime) -> Result<(), Fail> {
    for (skipped, sort, before, behind, told) in FROM_WITHIN {
        assert!(rt; skipped.len() < 10000);
        let first = ui_scan::tokens(rt.alloc(), skipped.as_bytes())?;
        let call = Call {
            sort: *sort,
            from: count_written(first.as_slice()),
            depth: 0,
        };
        let text = joined(rt.alloc(), &[skipped, before])?;
        expect_between(&rt, rt.alloc(), call, text, behind.as_bytes(), *told)?;
    }
    Ok(())
}

// No token is left: the fault stands where the bytes end.
#[test]
fn behind_all(rt: HostRuntime) -> Result<(), Fail> {
    let text = joined(rt.alloc(), &["a \n"])?;
    assert!(rt; text.len() < 10000);
    let found = ui_scan::tokens(rt.alloc(), text.as_slice())?;
    for sort in [Expr, Header, Type, Sig] {
        let call = Call {
            sort,
            from: found.len(),
            depth: 0,
        };
        let text = joined(rt.alloc(), &["a \n"])?;
        expect_between(&rt, rt.alloc(), call, text, b"", Unexpected)?;
    }
    Ok(())
}

// A text that begins with a form, and how many tokens this has: what stands behind is no fault.
const READ: &[(Sort, &str, usize)] = &[
    (Expr, "a chan", 1),
    (Expr, "a defer", 1),
    (Expr, "a fallthrough", 1),
    (Expr, "a func", 1),
    (Expr, "a go", 1),
    (Expr, "a goto", 1),
    (Expr, "a select", 1),
    (Expr, "a type", 1),
    (Expr, "a <-", 1),
    (Expr, "a ...", 1),
    (Expr, "a \"t\"", 1),
    (Type, "T \"t\"", 1),
    (Sig, "() \"t\"", 2),
    (Expr, "a.b \"t\"", 3),
    (Sig, "(a b) c \"t\"", 5),
    (Sig, "() func()", 5),
    (Expr, "a <- b", 1),
    (Expr, "f(a...)", 5),
    (Expr, "[...]T{}", 6),
    (Expr, "func() T(x)", 7),
    (Expr, "f(func(A) B)", 8),
    (Expr, "\"s\"", 1),
    (Expr, "T{\"s\"}", 4),
    (Type, "struct { a T } \"t\"", 5),
    (Type, "struct { } \"t\"", 3),
    (Expr, "struct { a T }{} \"t\"", 7),
    (Expr, "struct { a string }{\"t\"}", 8),
    (Type, "[len(\"t\")]T", 7),
    (Type, "struct { a [len(\"t\")]T }", 11),
    (Expr, "a <- b + <- c", 1),
    (Header, "T{", 1),
    (Header, "T{}", 1),
    (Header, "a.b{", 3),
    (Header, "T[A]{", 4),
    (Header, "T[A, B]{}", 6),
    (Header, "-T{", 2),
    (Header, "a + T{}", 3),
    (Header, "a.(T){", 5),
    (Header, "a == []T{}{", 7),
    (Header, "T {}.x", 1),
    (Header, "(T{})", 5),
    (Header, "[len(T{})]U{}", 11),
    (Header, "f(T{}, U{a: b}) {", 13),
    (Expr, "f(a,\nb,\n)", 7),
    (Expr, "f(a...\n)", 5),
    (Expr, "(a +\nb)", 5),
    (Expr, "a.\nb", 3),
    (Expr, "T{\na,\n}", 5),
    (Expr, "a\n+ b", 1),
    (Type, "struct {\na T\nb U\n}", 9),
    (Type, "struct { a T }", 5),
    (Type, "struct { a T; }", 6),
    (Type, "interface { m() T; }", 8),
    (Type, "interface { m() }", 6),
    (Type, "T.U.V", 3),
    (Type, "T[A] [B]", 4),
    (Type, "T + 1", 1),
    (Type, "*T)", 2),
    (Sig, "(a b) (c d) e", 8),
    (Sig, "() T U", 3),
    (Sig, "() {", 2),
    (Expr, "a b", 1),
    (Expr, "a)", 1),
    (Expr, "a, b", 1),
    (Expr, "a := b", 1),
    (Expr, "a++", 1),
    (Expr, "f() { }", 3),
    (Expr, "T{a} {", 4),
    (Expr, "a + b = c", 3),
];

#[test]
fn read(rt: HostRuntime) -> Result<(), Fail> {
    for (sort, text, want) in READ {
        match answer(&rt, rt.alloc(), whole(*sort), text.as_bytes())? {
            Ok((end, _)) => assert_eq!(rt; end, *want),
            Err(found) => panic!(rt; "{text}: {found:?}"),
        }
    }
    Ok(())
}
