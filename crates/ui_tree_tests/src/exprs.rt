//! Expressions, types and signatures as they are read.

use crate::print_expr::{put, put_tree, put_type};
use std::alloc::Global;
use std::process::Abort;
use std::test::Fail;
use ui_base::NoMemory;
use ui_pexpr::{ParseFault, parse_expr, parse_sig, parse_type};

// The expression, or the fault.
fn expr(
    rt: &impl Abort,
    alloc: Global,
    text: &[u8],
    header: bool,
) -> Result<Result<Vec<u8>, ParseFault>, Fail> {
    assert!(rt; text.len() < 10000);
    let tokens = ui_scan::tokens(alloc, text)?;
    match parse_expr(alloc, text, tokens.as_slice(), 0, header, 0) {
        Ok((tree, _)) => {
            let mut out = Vec::new(alloc);
            put_tree(&mut out, &tree)?;
            Ok(Ok(out))
        }
        Err(fault) => Ok(Err(fault)),
    }
}

// The type, or the fault.
fn type_of(
    rt: &impl Abort,
    alloc: Global,
    text: &[u8],
) -> Result<Result<Vec<u8>, ParseFault>, Fail> {
    assert!(rt; text.len() < 10000);
    let tokens = ui_scan::tokens(alloc, text)?;
    match parse_type(alloc, text, tokens.as_slice(), 0, 0) {
        Ok((tree, _)) => {
            let mut out = Vec::new(alloc);
            put_type(&mut out, &tree)?;
            Ok(Ok(out))
        }
        Err(fault) => Ok(Err(fault)),
    }
}

const EXPRS: &[(&str, bool, &str)] = &[
    // Precedence and association.
    ("a + b * c", false, "(+ a (* b c))"),
    ("a * b + c", false, "(+ (* a b) c)"),
    ("a - b - c", false, "(- (- a b) c)"),
    (
        "a / b % c << d >> e & f &^ g",
        false,
        "(&^ (& (>> (<< (% (/ a b) c) d) e) f) g)",
    ),
    ("a | b ^ c + d", false, "(+ (^ (| a b) c) d)"),
    ("a == b + c", false, "(== a (+ b c))"),
    ("a != b && c < d", false, "(&& (!= a b) (< c d))"),
    (
        "a <= b || c > d && e >= f",
        false,
        "(|| (<= a b) (&& (> c d) (>= e f)))",
    ),
    ("a || b || c", false, "(|| (|| a b) c)"),
    ("a && b && c", false, "(&& (&& a b) c)"),
    ("- + ! ^ * & x", false, "(- (+ (! (^ (* (& x))))))"),
    (
        "- x.y * !z || w",
        false,
        "(|| (* (- (select x y)) (! z)) w)",
    ),
    // Literals, parentheses, calls and conversions.
    ("0x1 + \"s\"", false, "(+ 1 's')"),
    ("(a + b) * c", false, "(* (paren (+ a b)) c)"),
    ("f()", false, "(call f)"),
    ("f(a, b,)", false, "(call f a b)"),
    (
        "a.b.c(x, y...)",
        false,
        "(call (select (select a b) c) x y...)",
    ),
    ("f(x..., )", false, "(call f x...)"),
    ("f([]T)", false, "(call f (type (slice T)))"),
    ("make(map[K]V, 1)", false, "(call make (type (map K V)) 1)"),
    ("[]T(x)", false, "(convert x (to (slice T)))"),
    ("(*T)(x)", false, "(call (paren (* T)) x)"),
    (
        "(*[]T)(x)",
        false,
        "(convert x (to (paren (pointer (slice T)))))",
    ),
    (
        "func(A)(x)(y)",
        false,
        "(convert y (to (func {A} => (results {x}))))",
    ),
    ("x.(T)", false, "(assert x (to T))"),
    ("x.([]T).y", false, "(select (assert x (to (slice T))) y)"),
    // Indices, instances and slices.
    ("a[i]", false, "(index a i)"),
    ("f[[]T](x)", false, "(call (instance f (slice T)) x)"),
    ("f[a, []b]", false, "(instance f a (slice b))"),
    ("f[T,]", false, "(instance f T)"),
    ("a[:]", false, "(slice a _ _ _)"),
    ("a[i:]", false, "(slice a i _ _)"),
    ("a[:j]", false, "(slice a _ j _)"),
    ("a[i:j]", false, "(slice a i j _)"),
    ("a[:j:k]", false, "(slice a _ j k)"),
    ("a[i:j:k](d)", false, "(call (slice a i j k) d)"),
    // Literals of composite types.
    ("T{}", false, "(lit (of T))"),
    ("p.T{a, b,}", false, "(lit (of p.T) a b)"),
    ("T[A]{x: 1}", false, "(lit (of T[ A]) (key x 1))"),
    ("T[A, B]{}", false, "(lit (of T[ A B]))"),
    ("T{a: {b}, c,}", false, "(lit (of T) (key a (lit b)) c)"),
    (
        "[]T{{}, {1: {2}}}",
        false,
        "(lit (of (slice T)) (lit) (lit (key 1 (lit 2))))",
    ),
    ("[...]T{1}", false, "(lit (of (counted T)) 1)"),
    ("map[K]V{a: b}", false, "(lit (of (map K V)) (key a b))"),
    ("struct{a T}{1}", false, "(lit (of (struct {a T})) 1)"),
    ("T{}.x", false, "(select (lit (of T)) x)"),
    ("&T{}", false, "(& (lit (of T)))"),
    ("a[1]{}", false, "(index a 1)"),
    // Headers.
    ("x == T {}", true, "(== x T)"),
    ("x == (T{})", true, "(== x (paren (lit (of T))))"),
    ("x == []T{}", true, "(== x (lit (of (slice T))))"),
    ("f(T{})", true, "(call f (lit (of T)))"),
    ("x[T{}]", true, "(index x (lit (of T)))"),
    ("x == T[A] {", true, "(== x (index T A))"),
    ("x == p.T {", true, "(== x (select p T))"),
    (
        "[]T{U{}, {}}",
        true,
        "(lit (of (slice T)) (lit (of U)) (lit))",
    ),
];

fn joined(alloc: Global, parts: &[&str]) -> Result<Vec<u8>, NoMemory> {
    let mut text = Vec::new(alloc);
    for part in parts {
        put(&mut text, part.as_bytes())?;
    }
    Ok(text)
}

// The binary operators with their levels. Go specification, "Operator precedence".
const OPERATORS: &[(&str, u8)] = &[
    ("||", 1),
    ("&&", 2),
    ("==", 3),
    ("!=", 3),
    ("<", 3),
    ("<=", 3),
    (">", 3),
    (">=", 3),
    ("+", 4),
    ("-", 4),
    ("|", 4),
    ("^", 4),
    ("*", 5),
    ("/", 5),
    ("%", 5),
    ("<<", 5),
    (">>", 5),
    ("&", 5),
    ("&^", 5),
];

// Two operators group by their levels, and to the left where these are the same.
#[test]
fn operators(rt: HostRuntime) -> Result<(), Fail> {
    let alloc = rt.alloc();
    for (p, low) in OPERATORS {
        for (q, high) in OPERATORS {
            let text = joined(alloc, &["a ", p, " b ", q, " c"])?;
            let want = if high > low {
                joined(alloc, &["(", p, " a (", q, " b c))"])?
            } else {
                joined(alloc, &["(", q, " (", p, " a b) c)"])?
            };
            match expr(&rt, alloc, text.as_slice(), false)? {
                Ok(out) => assert_eq!(rt; out.as_slice(), want.as_slice()),
                Err(_) => panic!(rt; "{p} {q}"),
            }
        }
    }
    Ok(())
}

#[test]
fn expressions(rt: HostRuntime) -> Result<(), Fail> {
    for (text, header, want) in EXPRS {
        match expr(&rt, rt.alloc(), text.as_bytes(), *header)? {
            Ok(out) => assert_eq!(rt; out.as_slice(), want.as_bytes()),
            Err(_) => panic!(rt; "{text}"),
        }
    }
    Ok(())
}

const TYPES: &[(&str, &str)] = &[
    ("T", "T"),
    ("p.T", "p.T"),
    ("p.T[A, *B,]", "p.T[ A (pointer B)]"),
    ("(T)", "(paren T)"),
    ("**T", "(pointer (pointer T))"),
    ("[]map[K]V", "(slice (map K V))"),
    ("[2 * n + 1]T", "(array (+ (* 2 n) 1) T)"),
    ("func()", "(func)"),
    ("func(A, B) C", "(func {A} {B} => C)"),
    ("func(a, b T, c U)", "(func {a b T} {c U})"),
    ("func(a, b T) (c, d)", "(func {a b T} => (results {c} {d}))"),
    ("func(a [n]T, b, c U)", "(func {a (array n T)} {b c U})"),
    ("func(a [n], b)", "(func {a[ n]} {b})"),
    ("func(a []T)", "(func {a (slice T)})"),
    ("func(a.b, c[A, B])", "(func {a.b} {c[ A B]})"),
    (
        "func() func(A) *p.T[B, C,]",
        "(func => (func {A} => (pointer p.T[ B C])))",
    ),
    ("struct{}", "(struct)"),
    ("struct { a, b T; c []U }", "(struct {a b T} {c (slice U)})"),
    ("interface{}", "(interface)"),
    (
        "interface { M() (B, error); ~[]T; ~int | *U | ~string }",
        "(interface (method M => (results {B} {error})) (union (tilde (slice T))) (union (tilde int) (pointer U) (tilde string)))",
    ),
    (
        "interface { M(A) B; ~int | string; N.P[Q] }",
        "(interface (method M {A} => B) (union (tilde int) string) (union N.P[ Q]))",
    ),
];

#[test]
fn types(rt: HostRuntime) -> Result<(), Fail> {
    for (text, want) in TYPES {
        match type_of(&rt, rt.alloc(), text.as_bytes())? {
            Ok(out) => assert_eq!(rt; out.as_slice(), want.as_bytes()),
            Err(_) => panic!(rt; "{text}"),
        }
    }
    Ok(())
}

// The signature, or the fault.
fn sig_of(
    rt: &impl Abort,
    alloc: Global,
    text: &[u8],
) -> Result<Result<Vec<u8>, ParseFault>, Fail> {
    assert!(rt; text.len() < 10000);
    let tokens = ui_scan::tokens(alloc, text)?;
    match parse_sig(alloc, text, tokens.as_slice(), 0, 0) {
        Ok((tree, _)) => {
            let mut out = Vec::new(alloc);
            put_type(&mut out, &tree)?;
            Ok(Ok(out))
        }
        Err(fault) => Ok(Err(fault)),
    }
}

const SIGS: &[(&str, &str)] = &[
    ("()", "(func)"),
    ("(A, B,)", "(func {A} {B})"),
    ("(a, b T) U", "(func {a b T} => U)"),
    ("(a.b, []c)", "(func {a.b} {(slice c)})"),
    (
        "(n [2]T) (m U)",
        "(func {n (array 2 T)} => (results {m U}))",
    ),
    ("(f func(A) B) { x }", "(func {f (func {A} => B)})"),
];

#[test]
fn signatures(rt: HostRuntime) -> Result<(), Fail> {
    for (text, want) in SIGS {
        match sig_of(&rt, rt.alloc(), text.as_bytes())? {
            Ok(out) => assert_eq!(rt; out.as_slice(), want.as_bytes()),
            Err(_) => panic!(rt; "{text}"),
        }
    }
    Ok(())
}

// Where each expression begins, with its depth, and the number of the token behind it.
const PLACES: &[(&str, usize, u32, usize)] = &[
    ("f(a) + b; c", 0, 0, 6),
    ("f(a) + b; c", 2, 0, 3),
    ("f(a) + b; c", 5, 0, 6),
    ("f(a) + b; c", 7, 0, 8),
    ("f(a) + b; c", 0, 199, 1),
    ("f(a) + b; c", 0, 198, 4),
    ("T{a} x", 0, 0, 4),
];

#[test]
fn places(rt: HostRuntime) -> Result<(), Fail> {
    for (text, from, depth, behind) in PLACES {
        assert!(rt; text.len() < 10000);
        let tokens = ui_scan::tokens(rt.alloc(), text.as_bytes())?;
        assert!(rt; *from < tokens.len());
        assert!(rt; *depth < 200);
        match parse_expr(
            rt.alloc(),
            text.as_bytes(),
            tokens.as_slice(),
            *from,
            false,
            *depth,
        ) {
            Ok((_, end)) => assert_eq!(rt; end, *behind),
            Err(_) => panic!(rt; "{text}"),
        }
    }
    Ok(())
}

// So many names with `+` between.
fn sum(alloc: Global, count: usize) -> Result<Vec<u8>, NoMemory> {
    let mut text = Vec::new(alloc);
    for i in 0..count {
        if i > 0 {
            text.push(b'+')?;
        }
        text.push(b'x')?;
    }
    Ok(text)
}

// A sum of 200 names has depth 200. Of more it is the longest front that is an expression.
#[test]
fn long_sums(rt: HostRuntime) -> Result<(), Fail> {
    let alloc = rt.alloc();
    for (count, behind) in [(199, 397), (200, 399), (201, 399), (300, 399)] {
        let text = sum(alloc, count)?;
        assert!(rt; text.len() < 10000);
        let tokens = ui_scan::tokens(alloc, text.as_slice())?;
        match parse_expr(alloc, text.as_slice(), tokens.as_slice(), 0, false, 0) {
            Ok((_, end)) => assert_eq!(rt; end, behind),
            Err(_) => panic!(rt; "{count}"),
        }
    }
    Ok(())
}
