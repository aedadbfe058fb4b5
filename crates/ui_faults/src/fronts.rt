//! Each token behind a front of an expression, a type or a signature: those that go on with it are
//! listed, each other one is a fault there, and so is the end.

use crate::calls::{Call, Sort, answer, expect_between, is_written, whole};
use crate::told::{Told, joined, place_of};
use std::alloc::Global;
use std::process::Abort;
use std::test::Fail;
use ui_parse::same_kind;
use ui_pexpr::Form;
use ui_scan::{Token, TokenKind};

const ALL: &str =
    "a 1 'r' \"s\" ; break case chan const continue default defer else fallthrough for func go goto if import interface map package range return select struct switch type var + - * / % & | ^ << >> &^ += -= *= /= %= &= |= ^= <<= >>= &^= && || <- ++ -- == < > = ! ~ != <= >= := ... ( [ { , . ) ] } :";

// what an expression begins with, what a type begins with, and the binary operators
const OPERAND: &str = "a 1 'r' \"s\" ( [ map struct interface func + - ! ^ * &";

const TYPE: &str = "a ( [ map struct interface func *";

const INFIX: &str = "|| && == != < <= > >= + - | ^ * / % << >> & &^";

const NONE: &str = "";

// A front that is no form, and the tokens that go on with it, in two parts.
type Row = (&'static str, &'static str, &'static str);

// Fronts of operands, operations, selectors, assertions and calls.
const OPERANDS: &[Row] = &[
    ("", OPERAND, ""),
    ("(", OPERAND, ""),
    ("(a", INFIX, ". [ ( { )"),
    ("(1", INFIX, ". [ ( )"),
    ("('r'", INFIX, ". [ ( )"),
    ("(\"s\"", INFIX, ". [ ( )"),
    ("((a)", INFIX, ". [ ( )"),
    ("(+", OPERAND, ""),
    ("(-", OPERAND, ""),
    ("(!", OPERAND, ""),
    ("(^", OPERAND, ""),
    ("(*", OPERAND, ""),
    ("(&", OPERAND, ""),
    ("(-a", INFIX, ". [ ( { )"),
    ("(a ||", OPERAND, ""),
    ("(a &&", OPERAND, ""),
    ("(a ==", OPERAND, ""),
    ("(a !=", OPERAND, ""),
    ("(a <", OPERAND, ""),
    ("(a <=", OPERAND, ""),
    ("(a >", OPERAND, ""),
    ("(a >=", OPERAND, ""),
    ("(a +", OPERAND, ""),
    ("(a -", OPERAND, ""),
    ("(a |", OPERAND, ""),
    ("(a ^", OPERAND, ""),
    ("(a *", OPERAND, ""),
    ("(a /", OPERAND, ""),
    ("(a %", OPERAND, ""),
    ("(a <<", OPERAND, ""),
    ("(a >>", OPERAND, ""),
    ("(a &", OPERAND, ""),
    ("(a &^", OPERAND, ""),
    ("(a + b", INFIX, ". [ ( { )"),
    ("(a{}", INFIX, ". [ ( )"),
    ("a.", NONE, "a ("),
    ("(a.b", INFIX, ". [ ( { )"),
    ("(a.b.c", INFIX, ". [ ( )"),
    ("(a().b", INFIX, ". [ ( )"),
    ("(a[b].c", INFIX, ". [ ( )"),
    ("a.(", TYPE, ""),
    ("a.(T", NONE, ". [ )"),
    ("a.(p.", NONE, "a"),
    ("a.(p.T", NONE, "[ )"),
    ("a.([]T", NONE, ". [ )"),
    ("a.(*T", NONE, ". [ )"),
    ("a.(interface{}", NONE, ")"),
    ("(a.(T)", INFIX, ". [ ( )"),
    ("f(", OPERAND, ")"),
    ("f(a", INFIX, ". [ ( { ... , )"),
    ("f(1", INFIX, ". [ ( ... , )"),
    ("f(a,", OPERAND, ")"),
    ("f(a, b", INFIX, ". [ ( { ... , )"),
    ("f(a, b,", OPERAND, ")"),
    ("f(a...", NONE, ", )"),
    ("f(a...,", NONE, ")"),
    ("f([]T...", NONE, ", )"),
    ("f([]T", NONE, ". [ ( { ... , )"),
    ("f(*T", INFIX, ". [ ( { ... , )"),
    ("f(*[]T", NONE, ". [ ( { ... , )"),
    ("f(struct{}", NONE, "( { ... , )"),
    ("f(interface{}", NONE, "( ... , )"),
    ("f(func()", TYPE, "... , )"),
    ("f(func() T", NONE, ". [ ( ... , )"),
    ("f(func()()", NONE, "( ... , )"),
    ("f(map[K]V", NONE, ". [ ( { ... , )"),
    ("f([2]T", NONE, ". [ ( { ... , )"),
    ("f([...]T", NONE, ". [ {"),
    ("f(([]T)", NONE, "( ... , )"),
    ("f((a)", INFIX, ". [ ( ... , )"),
    ("f((*[]T)", NONE, "( ... , )"),
    ("f(*([]T)", NONE, "( ... , )"),
    ("f(-[]T", NONE, ". [ ( {"),
    ("f(a, []T", NONE, ". [ ( { ... , )"),
    ("(f()", INFIX, ". [ ( )"),
    ("(f(a)", INFIX, ". [ ( )"),
];

// Fronts of conversions, and of types of literals.
const CONVERSIONS: &[Row] = &[
    ("[]T(", OPERAND, ""),
    ("[]T(a", INFIX, ". [ ( { , )"),
    ("[]T(a,", NONE, ")"),
    ("[]T([]U", NONE, ". [ ( {"),
    ("([]T(a)", INFIX, ". [ ( )"),
    ("interface{}", NONE, "("),
    ("interface{}(", OPERAND, ""),
    ("func()", TYPE, ""),
    ("func()()", NONE, "("),
    ("func() T", NONE, ". [ ("),
    ("func()[]T", NONE, ". [ ("),
    ("func() func()", TYPE, ""),
    ("func() T(", OPERAND, ""),
    ("func()()(", OPERAND, ""),
    ("func() (T)", NONE, "("),
    ("(func()", TYPE, ")"),
    ("(func()()", NONE, "( )"),
    ("(*func()", TYPE, ")"),
    ("([]T)", NONE, "("),
    ("((([]T)))", NONE, "("),
    ("(*[]T)", NONE, "("),
    ("([]T)(", OPERAND, ""),
    ("([]T)(a", INFIX, ". [ ( { , )"),
    ("(T)(", OPERAND, ")"),
    ("(*T)(", OPERAND, ")"),
    ("([]T", NONE, ". [ ( { )"),
    ("(struct{}", NONE, "( { )"),
    ("(interface{}", NONE, "( )"),
    ("(*struct{}", NONE, "( { )"),
    ("(**[]T", NONE, ". [ ( { )"),
    ("(-[]T", NONE, ". [ ( {"),
    ("(&[]T", NONE, ". [ ( {"),
    ("(-struct{}", NONE, "( {"),
    ("(a + []T", NONE, ". [ ( {"),
    ("struct{}", NONE, "( {"),
    ("map[K]V", NONE, ". [ ( {"),
    ("[]T", NONE, ". [ ( {"),
    ("[]p.T", NONE, "[ ( {"),
    ("[]p.T[A]", NONE, "( {"),
    ("[]T[A]", NONE, "( {"),
    ("[][]T", NONE, ". [ ( {"),
    ("[]*T", NONE, ". [ ( {"),
    ("[]func()", TYPE, "{"),
    ("[](T)", NONE, "( {"),
    ("[]interface{}", NONE, "( {"),
    ("[...]T", NONE, ". [ {"),
    ("[2]T", NONE, ". [ ( {"),
    ("[", OPERAND, "] ..."),
    ("[]", TYPE, ""),
    ("[...", NONE, "]"),
    ("[...]", TYPE, ""),
    ("[a", INFIX, ". [ ( { ]"),
    ("[1", INFIX, ". [ ( ]"),
    ("[1]", TYPE, ""),
    ("[][", OPERAND, "]"),
    ("[[]T", NONE, ". [ ( {"),
    ("map", NONE, "["),
    ("map[", TYPE, ""),
    ("map[K", NONE, ". [ ]"),
    ("map[K]", TYPE, ""),
    ("map[func()", TYPE, "]"),
    ("func", NONE, "("),
    ("struct", NONE, "{"),
    ("interface", NONE, "{"),
];

// Fronts of indices, instances and slices.
const INDICES: &[Row] = &[
    ("a[", OPERAND, ":"),
    ("a[b", INFIX, ". [ ( { : , ]"),
    ("a[1", INFIX, ". [ ( : ]"),
    ("a[b + c", INFIX, ". [ ( { : ]"),
    ("a[*b", INFIX, ". [ ( { : , ]"),
    ("a[-b", INFIX, ". [ ( { : ]"),
    ("a[b.c", INFIX, ". [ ( { : , ]"),
    ("a[b.c.d", INFIX, ". [ ( : ]"),
    ("a[(b)", INFIX, ". [ ( : , ]"),
    ("a[(b + c)", INFIX, ". [ ( : ]"),
    ("a[b()", INFIX, ". [ ( : ]"),
    ("a[b[c]", INFIX, ". [ ( { : , ]"),
    ("a[b[1]", INFIX, ". [ ( : ]"),
    ("a[b{}", INFIX, ". [ ( : ]"),
    ("(b[c]", INFIX, ". [ ( { )"),
    ("(b[c, d]", INFIX, ". [ ( { )"),
    ("(b[c,]", INFIX, ". [ ( { )"),
    ("(b[[]c]", INFIX, ". [ ( { )"),
    ("(b[*c]", INFIX, ". [ ( { )"),
    ("(b[(c)]", INFIX, ". [ ( { )"),
    ("(a.b[c]", INFIX, ". [ ( { )"),
    ("(b[1]", INFIX, ". [ ( )"),
    ("(b[c + d]", INFIX, ". [ ( )"),
    ("(b[-c]", INFIX, ". [ ( )"),
    ("(b[c:d]", INFIX, ". [ ( )"),
    ("(a.b.c[d]", INFIX, ". [ ( )"),
    ("(b()[c]", INFIX, ". [ ( )"),
    ("((b)[c]", INFIX, ". [ ( )"),
    ("(b[c][d]", INFIX, ". [ ( )"),
    ("a[b,", TYPE, "]"),
    ("a[b, c", NONE, ". [ , ]"),
    ("a[b, c,", TYPE, "]"),
    ("a[b, []c", NONE, ". [ , ]"),
    ("a[b, *c", NONE, ". [ , ]"),
    ("a[b, (c)", NONE, ", ]"),
    ("a[b, p.", NONE, "a"),
    ("a[b, p.c", NONE, "[ , ]"),
    ("a[b, func()", TYPE, ", ]"),
    ("a[[]b", NONE, ". [ ( { , ]"),
    ("a[[]b,", TYPE, "]"),
    ("a[struct{}", NONE, "( { , ]"),
    ("a[interface{}", NONE, "( , ]"),
    ("a[func()", TYPE, ", ]"),
    ("a[*[]b", NONE, ". [ ( { , ]"),
    ("a[([]b)", NONE, "( , ]"),
    ("a[-[]b", NONE, ". [ ( {"),
    ("a[[2]b", NONE, ". [ ( { , ]"),
    ("a[[...]b", NONE, ". [ {"),
    ("a[map[K]V", NONE, ". [ ( { , ]"),
    ("a[:", OPERAND, "]"),
    ("a[b:", OPERAND, "]"),
    ("a[:b", INFIX, ". [ ( { : ]"),
    ("a[b:c", INFIX, ". [ ( { : ]"),
    ("a[b:1", INFIX, ". [ ( : ]"),
    ("a[b:c:", OPERAND, ""),
    ("a[:c:", OPERAND, ""),
    ("a[b:c:d", INFIX, ". [ ( { ]"),
    ("(a[:]", INFIX, ". [ ( )"),
    ("a[:[]b", NONE, ". [ ( {"),
];

// Fronts of literals of composite types.
const LITERALS: &[Row] = &[
    ("T{", OPERAND, "{ }"),
    ("[]T{", OPERAND, "{ }"),
    ("[...]T{", OPERAND, "{ }"),
    ("[2]T{", OPERAND, "{ }"),
    ("map[K]V{", OPERAND, "{ }"),
    ("struct{}{", OPERAND, "{ }"),
    ("p.T{", OPERAND, "{ }"),
    ("T[A]{", OPERAND, "{ }"),
    ("T{a", INFIX, ". [ ( { : , }"),
    ("T{1", INFIX, ". [ ( : , }"),
    ("T{a,", OPERAND, "{ }"),
    ("T{a:", OPERAND, "{"),
    ("T{a: b", INFIX, ". [ ( { , }"),
    ("T{a: 1", INFIX, ". [ ( , }"),
    ("T{{", OPERAND, "{ }"),
    ("T{{}", NONE, ": , }"),
    ("T{{}: {}", NONE, ", }"),
    ("T{{}:", OPERAND, "{"),
    ("T{a: {", OPERAND, "{ }"),
    ("T{a: {}", NONE, ", }"),
    ("T{{a", INFIX, ". [ ( { : , }"),
    ("T{a: {b: c", INFIX, ". [ ( { , }"),
    ("T{[]a", NONE, ". [ ( {"),
    ("T{a, b: c", INFIX, ". [ ( { , }"),
    ("T{a + b", INFIX, ". [ ( { : , }"),
    ("struct { a T }{", OPERAND, "{ }"),
    ("struct { a T }{b", INFIX, ". [ ( { : , }"),
    ("struct { a T }{b, c", INFIX, ". [ ( { : , }"),
    ("struct { a T }{b: c", INFIX, ". [ ( { , }"),
];

// Fronts of expressions in a header.
const HEADERS: &[Row] = &[
    ("", OPERAND, ""),
    ("(", OPERAND, ""),
    ("(a", INFIX, ". [ ( { )"),
    ("-", OPERAND, ""),
    ("a +", OPERAND, ""),
    ("f(", OPERAND, ")"),
    ("f(a", INFIX, ". [ ( { ... , )"),
    ("f(-a", INFIX, ". [ ( { ... , )"),
    ("a[b", INFIX, ". [ ( { : , ]"),
    ("a[b:c:d", INFIX, ". [ ( { ]"),
    ("[a", INFIX, ". [ ( { ]"),
    ("[]T", NONE, ". [ ( {"),
    ("[...]T", NONE, ". [ {"),
    ("struct{}", NONE, "( {"),
    ("map[K]V", NONE, ". [ ( {"),
    ("interface{}", NONE, "("),
    ("func() T", NONE, ". [ ("),
    ("func()", TYPE, ""),
    ("[]T{", OPERAND, "{ }"),
    ("[]T{a", INFIX, ". [ ( { : , }"),
    ("[]T(a", INFIX, ". [ ( { , )"),
    ("a.(T", NONE, ". [ )"),
    ("-[]T", NONE, ". [ ( {"),
    ("a + []T", NONE, ". [ ( {"),
    ("a + struct{}", NONE, "( {"),
    ("([]T)", NONE, "("),
    ("[]T{}.", NONE, "a ("),
    ("a == (T{b", INFIX, ". [ ( { : , }"),
];

// Fronts of types.
const TYPES: &[Row] = &[
    ("", TYPE, ""),
    ("(", TYPE, ""),
    ("(T", NONE, ". [ )"),
    ("(p.", NONE, "a"),
    ("(p.T", NONE, "[ )"),
    ("(T[", TYPE, ""),
    ("(T[A", NONE, ". [ , ]"),
    ("(T[A,", TYPE, "]"),
    ("(T[A, B", NONE, ". [ , ]"),
    ("(T[A]", NONE, ")"),
    ("(p.T[A]", NONE, ")"),
    ("(T[[]A", NONE, ". [ , ]"),
    ("(T[(A)", NONE, ", ]"),
    ("(T[A, p.T", NONE, "[ , ]"),
    ("((T)", NONE, ")"),
    ("T[", TYPE, ""),
    ("T.", NONE, "a"),
    ("p.T[", TYPE, ""),
    ("*", TYPE, ""),
    ("**", TYPE, ""),
    ("(*T", NONE, ". [ )"),
    ("[", OPERAND, "]"),
    ("[]", TYPE, ""),
    ("([]T", NONE, ". [ )"),
    ("[a", INFIX, ". [ ( { ]"),
    ("[1", INFIX, ". [ ( ]"),
    ("[a]", TYPE, ""),
    ("([1]T", NONE, ". [ )"),
    ("map", NONE, "["),
    ("map[", TYPE, ""),
    ("map[K", NONE, ". [ ]"),
    ("map[K]", TYPE, ""),
    ("(map[K]V", NONE, ". [ )"),
    ("func", NONE, "("),
    ("func(", TYPE, ")"),
    ("(func()", TYPE, ")"),
    ("(func() T", NONE, ". [ )"),
    ("(func() (", TYPE, ")"),
    ("(func() (T)", NONE, ")"),
    ("(func() ()", NONE, ")"),
    ("struct", NONE, "{"),
    ("(struct{}", NONE, ")"),
    ("interface", NONE, "{"),
    ("(interface{}", NONE, ")"),
];

// Fronts of structs, none of which ends with a field, and of interfaces.
const ELEMENTS: &[Row] = &[
    ("struct {", NONE, "a }"),
    ("struct { a", TYPE, ","),
    ("struct { a,", NONE, "a"),
    ("struct { a, b", TYPE, ","),
    ("struct { a T;", NONE, "a }"),
    ("struct { a T; b", TYPE, ","),
    ("struct { a p.", NONE, "a"),
    ("struct { a T[", TYPE, ""),
    ("struct { a T[A", NONE, ". [ , ]"),
    ("struct { a *", TYPE, ""),
    ("struct { a [", OPERAND, "]"),
    ("struct { a [n", INFIX, ". [ ( { ]"),
    ("struct { a [n]", TYPE, ""),
    ("struct { a (T", NONE, ". [ )"),
    ("struct { a map[K]", TYPE, ""),
    ("struct { a func", NONE, "("),
    ("struct { a func() (T", TYPE, ". , )"),
    ("struct { a func(b T", NONE, ". [ , )"),
    ("struct { a struct {", NONE, "a }"),
    ("struct { a struct { b", TYPE, ","),
    ("struct { a struct { b T;", NONE, "a }"),
    ("struct { a struct { b T }; c", TYPE, ","),
    ("struct { a interface { m()", TYPE, "; }"),
    ("struct { a interface { T", NONE, "( . [ | ; }"),
    ("struct { a [f(b", INFIX, ". [ ( { ... , )"),
    ("struct { a [f(b)", INFIX, ". [ ( ]"),
    ("(struct { a T }", NONE, ")"),
    ("func(a struct { b T }", NONE, ", )"),
    ("[f(struct { a T }", NONE, "( { ... , )"),
    ("interface {", TYPE, "~ }"),
    ("interface { m", NONE, "( . [ | ; }"),
    ("interface { m(", TYPE, ")"),
    ("interface { m(a", TYPE, ". , )"),
    ("interface { m()", TYPE, "; }"),
    ("interface { m() T", NONE, ". [ ; }"),
    ("interface { m() (", TYPE, ")"),
    ("interface { m() (T)", NONE, "; }"),
    ("interface { m() func()", TYPE, "; }"),
    ("interface { m();", TYPE, "~ }"),
    ("interface { ~", TYPE, ""),
    ("interface { ~T", NONE, ". [ | ; }"),
    ("interface { T |", TYPE, "~"),
    ("interface { T | ~", TYPE, ""),
    ("interface { T | U", NONE, ". [ | ; }"),
    ("interface { p.", NONE, "a"),
    ("interface { p.T", NONE, "[ | ; }"),
    ("interface { T[", TYPE, ""),
    ("interface { T[A]", NONE, "| ; }"),
    ("interface { *T", NONE, ". [ | ; }"),
    ("interface { (T)", NONE, "| ; }"),
    ("interface { []T", NONE, ". [ | ; }"),
    ("interface { func()", TYPE, "| ; }"),
    ("interface { func() T", NONE, ". [ | ; }"),
    ("interface { T;", TYPE, "~ }"),
    ("interface { T; m", NONE, "( . [ | ; }"),
    ("interface { ~(T)", NONE, "| ; }"),
    ("interface { ~(", TYPE, ""),
    ("interface { interface{}", NONE, "| ; }"),
    ("interface { *", TYPE, ""),
    ("interface { (", TYPE, ""),
    ("interface { ~func()", TYPE, "| ; }"),
    ("interface { [", OPERAND, "]"),
];

// Fronts of types that end with a field.
const FIELDS: &[Row] = &[
    ("struct { a T", NONE, ". [ ; }"),
    ("struct { a, b T", NONE, ". [ ; }"),
    ("struct { a T; b U", NONE, ". [ ; }"),
    ("struct { a *T", NONE, ". [ ; }"),
    ("struct { a []T", NONE, ". [ ; }"),
    ("struct { a [n]T", NONE, ". [ ; }"),
    ("struct { a map[K]V", NONE, ". [ ; }"),
    ("struct { a func() T", NONE, ". [ ; }"),
    ("struct { a struct { b T", NONE, ". [ ; }"),
    ("struct { a T; b struct { c U", NONE, ". [ ; }"),
    ("struct { a T; b struct { c U; d V", NONE, ". [ ; }"),
    ("struct {\na T\nb U", NONE, ". [ ; }"),
    ("struct { a p.T", NONE, "[ ; }"),
    ("struct { a T[A]", NONE, "; }"),
    ("struct { a (T)", NONE, "; }"),
    ("struct { a func() (T)", NONE, "; }"),
    ("struct { a func()()", NONE, "; }"),
    ("struct { a struct{}", NONE, "; }"),
    ("struct { a struct { b T }", NONE, "; }"),
    ("struct { a struct { b T; }", NONE, "; }"),
    ("struct { a struct { b T; c U }", NONE, "; }"),
    ("struct { a interface{}", NONE, "; }"),
    ("struct { a interface { m() }", NONE, "; }"),
    ("struct { a interface { m(); T | U }", NONE, "; }"),
    ("struct { a T; b struct { c U; d V }", NONE, "; }"),
    ("struct { a [n]struct { b T; c U }", NONE, "; }"),
    ("struct { a map[struct { b T; c U }]struct{}", NONE, "; }"),
    ("struct { a [f(T{b, c}[0])]struct{}", NONE, "; }"),
    ("struct { a func()", TYPE, "; }"),
    ("struct { a func(b T)", TYPE, "; }"),
    ("struct { a func(b struct { c T; d U })", TYPE, "; }"),
    ("struct { a struct { b T }; c U", NONE, ". [ ; }"),
    ("interface { struct { a T", NONE, ". [ ; }"),
    ("func(a struct { b T", NONE, ". [ ; }"),
    ("func() struct { b T", NONE, ". [ ; }"),
    ("[f(struct { a T", NONE, ". [ ; }"),
    ("map[struct { a T", NONE, ". [ ; }"),
    ("T[struct { a T", NONE, ". [ ; }"),
    ("struct { a [f(struct { b T", NONE, ". [ ; }"),
    ("interface { m(a struct { b T; c U", NONE, ". [ ; }"),
    ("(struct { a T", NONE, ". [ ; }"),
];

// Fronts of expressions that end with a field.
const EXPR_FIELDS: &[Row] = &[
    ("struct { a T", NONE, ". [ ; }"),
    ("[]struct { a T", NONE, ". [ ; }"),
    ("f(struct { a T", NONE, ". [ ; }"),
    ("T{struct { a T", NONE, ". [ ; }"),
    ("a.(struct { b T", NONE, ". [ ; }"),
    ("a[struct { b T", NONE, ". [ ; }"),
    ("(*struct { a T", NONE, ". [ ; }"),
    ("T{a: struct { b T; c U", NONE, ". [ ; }"),
    ("struct { a T; b [2]T", NONE, ". [ ; }"),
];

// Fronts of signatures.
const SIGS: &[Row] = &[
    ("", NONE, "("),
    ("(", TYPE, ")"),
    ("(a", TYPE, ". , )"),
    ("(a b", NONE, ". [ , )"),
    ("(a b,", NONE, "a )"),
    ("(a b, c", TYPE, ","),
    ("(a b, c,", NONE, "a"),
    ("(a b, c d", NONE, ". [ , )"),
    ("(a,", TYPE, ")"),
    ("(a, b", TYPE, ". , )"),
    ("(a, b c", NONE, ". [ , )"),
    ("(a, b c,", NONE, "a )"),
    ("(a, b,", TYPE, ")"),
    ("(a.b", NONE, "[ , )"),
    ("(a.", NONE, "a"),
    ("(a.b,", TYPE, ")"),
    ("(a.b, c", NONE, ". [ , )"),
    ("(a, b.c", NONE, "[ , )"),
    ("(a, b.c, d", NONE, ". [ , )"),
    ("(*a", NONE, ". [ , )"),
    ("(*a, b", NONE, ". [ , )"),
    ("(*a,", TYPE, ")"),
    ("([]a", NONE, ". [ , )"),
    ("(a *", TYPE, ""),
    ("(a *b", NONE, ". [ , )"),
    ("(a *b, c", TYPE, ","),
    ("(a [", OPERAND, "]"),
    ("(a []", TYPE, ""),
    ("(a []b", NONE, ". [ , )"),
    ("(a [b", INFIX, ". [ ( { , ]"),
    ("(a [1", INFIX, ". [ ( ]"),
    ("(a [b]", TYPE, ", )"),
    ("(a [b]c", NONE, ". [ , )"),
    ("(a [b], c", NONE, ". [ , )"),
    ("(a [b,", TYPE, "]"),
    ("(a [b,]", NONE, ", )"),
    ("(a [b, c", NONE, ". [ , ]"),
    ("(a [b, c]", NONE, ", )"),
    ("(a [1]", TYPE, ""),
    ("(a [b + c]", TYPE, ""),
    ("(a [*b]", TYPE, ", )"),
    ("(a [-b]", TYPE, ""),
    ("(a [(b)]", TYPE, ", )"),
    ("(a [b.c]", TYPE, ", )"),
    ("(a [b.c.d]", TYPE, ""),
    ("(a [[]b", NONE, ". [ ( { , ]"),
    ("(a [[]b]", NONE, ", )"),
    ("(a [b()]", TYPE, ""),
    ("(a [b[c]]", TYPE, ", )"),
    ("(a [b[1]]", TYPE, ""),
    ("(a b [", TYPE, ""),
    ("(a b [c", NONE, ". [ , ]"),
    ("(a, b [", OPERAND, "]"),
    ("(a b, c [", OPERAND, "]"),
    ("(a b, c [d", INFIX, ". [ ( { ]"),
    ("(a b, c [d]", TYPE, ""),
    ("(a.b, c [", TYPE, ""),
    ("(a.b, c [d", NONE, ". [ , ]"),
    ("(a [b], c [", TYPE, ""),
    ("(a [b]c, d", TYPE, ","),
    ("(a, b [c]", TYPE, ", )"),
    ("(a, b [c]d", NONE, ". [ , )"),
    ("(a (", TYPE, ""),
    ("(a (b", NONE, ". [ )"),
    ("(a (b)", NONE, ", )"),
    ("(a func", NONE, "("),
    ("(a func(", TYPE, ")"),
    ("(a func()", TYPE, ", )"),
    ("(a struct{}", NONE, ", )"),
    ("(func()", TYPE, ", )"),
    ("() (", TYPE, ")"),
    ("() (a", TYPE, ". , )"),
    ("() (a b", NONE, ". [ , )"),
    ("() (a b,", NONE, "a )"),
    ("() (a b, c", TYPE, ","),
    ("() *", TYPE, ""),
    ("() []", TYPE, ""),
    ("() func", NONE, "("),
    ("() func() (", TYPE, ")"),
    ("() p.", NONE, "a"),
    ("() T[", TYPE, ""),
    ("() map", NONE, "["),
    ("() struct", NONE, "{"),
    ("() [", OPERAND, "]"),
];

fn has(tokens: &[Token], kind: TokenKind) -> bool {
    for token in tokens {
        if is_written(*token) && same_kind(token.kind, kind) {
            return true;
        }
    }
    false
}

// What is told of a token that nothing goes on with, where a string is a tag or not.
fn told_of(kind: TokenKind, tag: bool) -> Told {
    match kind {
        TokenKind::Chan => Told::Outside(Form::Chan),
        TokenKind::Defer => Told::Outside(Form::Defer),
        TokenKind::Fallthrough => Told::Outside(Form::Fallthrough),
        TokenKind::Func => Told::Outside(Form::Func),
        TokenKind::Go => Told::Outside(Form::Go),
        TokenKind::Goto => Told::Outside(Form::Goto),
        TokenKind::Select => Told::Outside(Form::Select),
        TokenKind::Type => Told::Outside(Form::Type),
        TokenKind::Arrow => Told::Outside(Form::Arrow),
        TokenKind::Ellipsis => Told::Outside(Form::Ellipsis),
        TokenKind::Str => {
            if tag {
                Told::Outside(Form::Tag)
            } else {
                Told::Unexpected
            }
        }
        _ => Told::Unexpected,
    }
}

// All of the text is read, or its fault stands behind the place.
fn expect_farther(
    rt: &impl Abort,
    alloc: Global,
    call: Call,
    text: &[u8],
    at: usize,
) -> Result<(), Fail> {
    match answer(rt, alloc, call, text)? {
        Ok((end, written)) => assert_eq!(rt; end, written),
        Err(found) => assert!(rt; place_of(found) > at),
    }
    Ok(())
}

fn expect_next(
    rt: &impl Abort,
    alloc: Global,
    sort: Sort,
    all: &[Token],
    (front, some, others): Row,
    tag: bool,
) -> Result<(), Fail> {
    let listed = joined(alloc, &[some, " ", others])?;
    assert!(rt; listed.len() < 10000);
    let listed = ui_scan::tokens(alloc, listed.as_slice())?;
    let words = ALL.as_bytes();
    for token in all {
        let (start, end) = (token.start as usize, token.end as usize);
        if start >= end || end > words.len() {
            continue;
        }
        let word = &words[start..end];
        let mut text = joined(alloc, &[front, " "])?;
        if has(listed.as_slice(), token.kind) {
            let at = text.len();
            text.extend_from_slice(word)?;
            expect_farther(rt, alloc, whole(sort), text.as_slice(), at)?;
        } else {
            expect_between(rt, alloc, whole(sort), text, word, told_of(token.kind, tag))?;
        }
    }
    let text = joined(alloc, &[front])?;
    expect_between(rt, alloc, whole(sort), text, b"", Told::Unexpected)
}

fn expect_rows(
    rt: &impl Abort,
    alloc: Global,
    sort: Sort,
    rows: &[Row],
    tag: bool,
) -> Result<(), Fail> {
    assert!(rt; ALL.len() < 10000);
    let all = ui_scan::tokens(alloc, ALL.as_bytes())?;
    for row in rows {
        expect_next(rt, alloc, sort, all.as_slice(), *row, tag)?;
    }
    Ok(())
}

#[test]
fn fronts_of_operands(rt: HostRuntime) -> Result<(), Fail> {
    expect_rows(&rt, rt.alloc(), Sort::Expr, OPERANDS, false)
}

#[test]
fn fronts_of_conversions(rt: HostRuntime) -> Result<(), Fail> {
    expect_rows(&rt, rt.alloc(), Sort::Expr, CONVERSIONS, false)
}

#[test]
fn fronts_of_indices(rt: HostRuntime) -> Result<(), Fail> {
    expect_rows(&rt, rt.alloc(), Sort::Expr, INDICES, false)
}

#[test]
fn fronts_of_literals(rt: HostRuntime) -> Result<(), Fail> {
    expect_rows(&rt, rt.alloc(), Sort::Expr, LITERALS, false)?;
    expect_rows(&rt, rt.alloc(), Sort::Header, HEADERS, false)
}

#[test]
fn fronts_of_types(rt: HostRuntime) -> Result<(), Fail> {
    expect_rows(&rt, rt.alloc(), Sort::Type, TYPES, false)
}

#[test]
fn fronts_of_elements(rt: HostRuntime) -> Result<(), Fail> {
    expect_rows(&rt, rt.alloc(), Sort::Type, ELEMENTS, false)
}

#[test]
fn fronts_with_fields(rt: HostRuntime) -> Result<(), Fail> {
    expect_rows(&rt, rt.alloc(), Sort::Expr, EXPR_FIELDS, true)?;
    expect_rows(&rt, rt.alloc(), Sort::Type, FIELDS, true)
}

#[test]
fn fronts_of_signatures(rt: HostRuntime) -> Result<(), Fail> {
    expect_rows(&rt, rt.alloc(), Sort::Sig, SIGS, false)
}
