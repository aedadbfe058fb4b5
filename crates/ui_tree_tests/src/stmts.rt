//! Statements as they are read.

use crate::print_stmt::put_stmts;
use std::alloc::{AllocError, Global};
use std::process::Abort;
use std::test::Fail;
use ui_parse::{Cursor, ParseError};
use ui_pstmt::block;

// The statements in braces, or how many words stand before the fault.
fn read(
    rt: &impl Abort,
    alloc: Global,
    text: &[u8],
    budget: u32,
) -> Result<Result<Vec<u8>, usize>, Fail> {
    assert!(rt; text.len() < 10000);
    let tokens = ui_scan::tokens(alloc, text)?;
    let mut words = Cursor::new(text, tokens.as_slice());
    match block(alloc, &mut words, budget) {
        Ok(found) => {
            let mut out = Vec::new(alloc);
            put_stmts(&mut out, b" {", found.of.stmts.as_slice(), b" }")?;
            Ok(Ok(out))
        }
        Err(ParseError::Fault) => Ok(Err(tokens.len().saturating_sub(words.left()))),
        Err(ParseError::NoMemory) => Err(AllocError.into()),
    }
}

const BLOCKS: &[(&str, &str)] = &[
    // Simple statements, and where semicolons may be left out.
    ("{}", " { }"),
    ("{;}", " { _ }"),
    ("{ ; ; x }", " { _ _ x }"),
    ("{ f(x); }", " { (call f x) }"),
    ("{ x; y }", " { x y }"),
    ("{ a = 1 }", " { (= a | 1) }"),
    ("{ a, b = b, a }", " { (= a b | b a) }"),
    ("{ a[0] += 2 }", " { (+ (index a 0) = 2) }"),
    (
        "{ a += 1; a -= 1; a *= 1; a /= 1; a %= 1; a <<= 1; a >>= 1 }",
        " { (+ a = 1) (- a = 1) (* a = 1) (/ a = 1) (% a = 1) (<< a = 1) (>> a = 1) }",
    ),
    (
        "{ a &= 1; a |= 1; a ^= 1; a &^= 1 }",
        " { (& a = 1) (| a = 1) (^ a = 1) (&^ a = 1) }",
    ),
    ("{ a, b := f(), 1 }", " { (:= a b | (call f) 1) }"),
    ("{ a++; b-- }", " { (++ a) (-- b) }"),
    ("{ return }", " { (return) }"),
    ("{ return a, b + 1 }", " { (return a (+ b 1)) }"),
    ("{ break; continue }", " { (break) (continue) }"),
    ("{ {}; { x } }", " { { } { x } }"),
    // Constants and variables.
    ("{ const a = 1 }", " { (const { a = 1 }) }"),
    (
        "{ const ( a T = 0; b, c ) }",
        " { (const (group { a : T = 0 } { b c })) }",
    ),
    ("{ var a, b T }", " { (var { a b : T }) }"),
    (
        "{ var (a = 1; b T = 2;) }",
        " { (var (group { a = 1 } { b : T = 2 })) }",
    ),
    ("{ var () }", " { (var (group)) }"),
    // If: the nearest takes an else.
    ("{ if a {} }", " { (if a { }) }"),
    (
        "{ if a { if b {} else { x } } }",
        " { (if a { (if b { } else { x }) }) }",
    ),
    (
        "{ if a { if b {} } else { x } }",
        " { (if a { (if b { }) } else { x }) }",
    ),
    (
        "{ if a {} else if b {} else { x } }",
        " { (if a { } else (if b { } else { x })) }",
    ),
    (
        "{ if x := f(); x < 1 {} }",
        " { (if (:= x | (call f)) ; (< x 1) { }) }",
    ),
    ("{ if f(); x {} }", " { (if (call f) ; x { }) }"),
    ("{ if ; x {} }", " { (if _ ; x { }) }"),
    (
        "{ if x == (T{1}) {} }",
        " { (if (== x (paren (lit (of T) 1))) { }) }",
    ),
    // For.
    ("{ for {} }", " { (loop { }) }"),
    ("{ for a { x } }", " { (while a { x }) }"),
    (
        "{ for i := 0; i < 2; i++ {} }",
        " { (for (:= i | 0) (< i 2) (++ i) { }) }",
    ),
    ("{ for ;; {} }", " { (for _ _ _ { }) }"),
    ("{ for f(); ; {} }", " { (for (call f) _ _ { }) }"),
    ("{ for range a {} }", " { (range a { }) }"),
    ("{ for i, x := range a {} }", " { (range i x := a { }) }"),
    (
        "{ for a[0] = range b {} }",
        " { (range (index a 0) = b { }) }",
    ),
    ("{ for i := range T {} }", " { (range i := T { }) }"),
    ("{ for x == T {} }", " { (while (== x T) { }) }"),
    // Switch.
    ("{ switch {} }", " { (switch _) }"),
    (
        "{ switch x { case 1, 2: a; b; case 0: default: c } }",
        " { (switch x (case 1 2 : a b) (case 0 :) (default : c)) }",
    ),
    ("{ switch x := 1; x {} }", " { (switch (:= x | 1) ; x) }"),
    ("{ switch f(); {} }", " { (switch (call f) ; _) }"),
    ("{ switch ; x {} }", " { (switch _ ; x) }"),
    (
        "{ switch x == T { case T{1}: } }",
        " { (switch (== x T) (case (lit (of T) 1) :)) }",
    ),
    (
        "{ switch ; x == T { case T{1}: } }",
        " { (switch _ ; (== x T) (case (lit (of T) 1) :)) }",
    ),
];

#[test]
fn blocks(rt: HostRuntime) -> Result<(), Fail> {
    for (text, want) in BLOCKS {
        match read(&rt, rt.alloc(), text.as_bytes(), 199)? {
            Ok(out) => assert_eq!(rt; out.as_slice(), want.as_bytes()),
            Err(front) => panic!(rt; "{text}: {front}"),
        }
    }
    Ok(())
}

// Texts with a budget of depth, and how many words stand before the fault.
const FAULTS: &[(&str, u32, usize)] = &[
    ("x }", 199, 0),
    ("{ x y }", 199, 2),
    ("{ a, b }", 199, 4),
    ("{ f() := 1 }", 199, 4),
    ("{ a, 1 := 1, 2 }", 199, 4),
    ("{ var a }", 199, 3),
    ("{ const a T }", 199, 4),
    ("{ if x == T{1} {} }", 199, 8),
    ("{ for a, b {} }", 199, 5),
    ("{ for ; x == T{1}; {} }", 199, 6),
    ("{ for i := 0; i < 2 {} }", 199, 9),
    ("{ switch x { x } }", 199, 4),
    ("{ if a {} else x }", 199, 6),
    ("{ { { {} } } }", 2, 3),
];

#[test]
fn faults(rt: HostRuntime) -> Result<(), Fail> {
    for (text, budget, want) in FAULTS {
        match read(&rt, rt.alloc(), text.as_bytes(), *budget)? {
            Ok(_) => panic!(rt; "{text}"),
            Err(front) => assert_eq!(rt; front, *want),
        }
    }
    Ok(())
}
