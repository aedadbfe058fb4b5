//! What each expression is checked to be: a constant with its type, or the first fault with its
//! place. The expected answers follow from the Go specification ("Constants", "Constant
//! expressions", "Operators", "Arithmetic operators", "Comparison operators", "Declarations and
//! scope"), and from this language's limit of 128 bits.

use crate::scene::{decls, scope};
use crate::told::told;
use sqlite_items::Boxed;
use std::alloc::Global;
use std::process::Abort;
use std::test::Fail;
use ui_pexpr::parse_expr;
use ui_tree::ExprTree;
use ui_types::{ListEnv, NoMemory, TypeTable};

/// Literals and names.
const LITERALS: &[(&str, &str)] = &[
    ("5", "untyped int 5"),
    ("'a'", "untyped rune 97"),
    ("\"go\"", "untyped string \"go\""),
    ("true", "untyped bool true"),
    ("false", "untyped bool false"),
    ("seven", "untyped int 7"),
    ("letter", "untyped rune 97"),
    ("int8_hi", "int8 127"),
    ("word", "string \"go\""),
    ("yes", "bool true"),
    ("warm", "Celsius 20"),
    ("tag", "Label \"x\""),
    ("on", "Flag true"),
    ("max", "untyped int 9"),
    ("lib", "package x/lib"),
    ("lib.One", "untyped int 1"),
    ("(7)", "untyped int 7"),
    ("((int8_hi))", "int8 127"),
];

/// Names that mean nothing here, that the language leaves out, or that aren't taken yet.
const LEFT_OUT: &[(&str, &str)] = &[
    ("nothing", "Undefined nothing 1:1"),
    ("_", "Undefined _ 1:1"),
    ("undeclared", "Undefined undeclared 1:1"),
    ("iota", "Undefined iota 1:1"),
    ("float64", "OutsideName float64 1:1"),
    ("complex128", "OutsideName complex128 1:1"),
    ("print", "OutsideName print 1:1"),
    ("recover", "OutsideName recover 1:1"),
    ("nil", "Form 1:1"),
    ("int", "Form 1:1"),
    ("string", "Form 1:1"),
    ("any", "Form 1:1"),
    ("len", "Form 1:1"),
    ("Celsius", "Form 1:1"),
    ("variable", "Form 1:1"),
    ("Alias", "Form 1:1"),
    ("function", "Form 1:1"),
    ("too_wide", "Form 1:1"),
    ("list", "Form 1:1"),
    ("no_type", "Form 1:1"),
];

/// Names of packages.
const OF_PACKAGES: &[(&str, &str)] = &[
    ("lib.hidden", "NotExported hidden 1:1"),
    ("lib.nothing", "NotExported nothing 1:1"),
    ("lib._", "NotExported _ 1:1"),
    ("lib.Nothing", "Undefined Nothing 1:1"),
    ("lib.One << 3", "untyped int 8"),
    ("1 + lib.One", "untyped int 2"),
    ("1 + lib.hidden", "NotExported hidden 1:5"),
    ("(lib).One", "BadOperand 1:1"),
    ("(lib)", "BadOperand 1:1"),
    ("lib + 1", "BadOperand 1:1"),
    ("1 + lib", "BadOperand 1:1"),
    ("-lib", "BadOperand 1:1"),
    ("&lib", "BadOperand 1:1"),
    ("*lib", "BadOperand 1:1"),
    ("seven.x", "Form 1:1"),
    ("nothing.x", "Undefined nothing 1:1"),
];

/// Whole numbers without a type.
const WHOLE: &[(&str, &str)] = &[
    ("2 + 3", "untyped int 5"),
    ("2 - 3", "untyped int -1"),
    ("2 * 3", "untyped int 6"),
    ("7 / 2", "untyped int 3"),
    ("-7 / 2", "untyped int -3"),
    ("7 / -2", "untyped int -3"),
    ("-7 / -2", "untyped int 3"),
    ("7 % 3", "untyped int 1"),
    ("-7 % 3", "untyped int -1"),
    ("7 % -3", "untyped int 1"),
    ("6 & 3", "untyped int 2"),
    ("6 | 3", "untyped int 7"),
    ("6 ^ 3", "untyped int 5"),
    ("6 &^ 3", "untyped int 4"),
    ("-6 & 3", "untyped int 2"),
    ("-6 | 3", "untyped int -5"),
    ("-6 ^ 3", "untyped int -7"),
    ("-6 &^ 3", "untyped int -8"),
    ("1 << 10", "untyped int 1024"),
    ("1024 >> 3", "untyped int 128"),
    ("-5 >> 1", "untyped int -3"),
    ("-1 >> 1", "untyped int -1"),
    ("+5", "untyped int 5"),
    ("-5", "untyped int -5"),
    ("^5", "untyped int -6"),
    ("^-6", "untyped int 5"),
    ("1 + 2 * 3", "untyped int 7"),
    ("(1 + 2) * 3", "untyped int 9"),
    ("7 - 2 - 1", "untyped int 4"),
    ("1 < 2", "untyped bool true"),
    ("2 <= 2", "untyped bool true"),
    ("1 > 2", "untyped bool false"),
    ("2 >= 3", "untyped bool false"),
    ("1 == 1", "untyped bool true"),
    ("1 != 1", "untyped bool false"),
    ("1 && 1", "BadOperand 1:1"),
    ("1 || 1", "BadOperand 1:1"),
    ("!1", "BadOperand 1:1"),
];

/// Zero as a divisor.
const BY_ZERO: &[(&str, &str)] = &[
    ("1 / 0", "DivByZero 1:1"),
    ("1 % 0", "DivByZero 1:1"),
    ("int8_hi / 0", "DivByZero 1:1"),
    ("uint8_5 % (uint8_5 - uint8_5)", "DivByZero 1:1"),
    ("0 / 0", "DivByZero 1:1"),
];

/// The later of int and rune.
const RUNES: &[(&str, &str)] = &[
    ("1 + 'a'", "untyped rune 98"),
    ("'a' + 1", "untyped rune 98"),
    ("'b' - 'a'", "untyped rune 1"),
    ("2 * letter", "untyped rune 194"),
    ("seven + seven", "untyped int 14"),
    ("'a' << 1", "untyped rune 194"),
    ("1 << 'a'", "untyped int 158456325028528675187087900672"),
    ("'a' < 98", "untyped bool true"),
    ("97 == 'a'", "untyped bool true"),
    ("-'a'", "untyped rune -97"),
    ("^'a'", "untyped rune -98"),
    ("'a' &^ 1", "untyped rune 96"),
];

/// Texts.
const TEXTS: &[(&str, &str)] = &[
    ("\"a\" + \"b\"", "untyped string \"ab\""),
    ("word + \"!\"", "string \"go!\""),
    ("\"a\" + word", "string \"ago\""),
    ("tag + \"y\"", "Label \"xy\""),
    ("word + word", "string \"gogo\""),
    ("\"a\" < \"b\"", "untyped bool true"),
    ("\"a\" <= \"b\"", "untyped bool true"),
    ("\"a\" > \"b\"", "untyped bool false"),
    ("\"a\" >= \"b\"", "untyped bool false"),
    ("\"a\" == \"b\"", "untyped bool false"),
    ("\"a\" != \"b\"", "untyped bool true"),
    ("word == \"go\"", "untyped bool true"),
    ("tag <= \"x\"", "untyped bool true"),
    ("\"a\" - \"b\"", "BadOperand 1:1"),
    ("\"a\" * \"b\"", "BadOperand 1:1"),
    ("\"a\" / \"b\"", "BadOperand 1:1"),
    ("\"a\" % \"b\"", "BadOperand 1:1"),
    ("\"a\" & \"b\"", "BadOperand 1:1"),
    ("\"a\" | \"b\"", "BadOperand 1:1"),
    ("\"a\" ^ \"b\"", "BadOperand 1:1"),
    ("\"a\" &^ \"b\"", "BadOperand 1:1"),
    ("\"a\" && \"b\"", "BadOperand 1:1"),
    ("\"a\" || \"b\"", "BadOperand 1:1"),
    ("word << 1", "BadOperand 1:1"),
    ("1 >> \"a\"", "BadOperand 1:1"),
    ("+word", "BadOperand 1:1"),
    ("-word", "BadOperand 1:1"),
    ("^word", "BadOperand 1:1"),
    ("!word", "BadOperand 1:1"),
];

/// Truth values.
const TRUTHS: &[(&str, &str)] = &[
    ("true && false", "untyped bool false"),
    ("true || false", "untyped bool true"),
    ("false || false", "untyped bool false"),
    ("!true", "untyped bool false"),
    ("yes && true", "bool true"),
    ("false || yes", "bool true"),
    ("!yes", "bool false"),
    ("!on", "Flag false"),
    ("on && true", "Flag true"),
    ("true == false", "untyped bool false"),
    ("true != false", "untyped bool true"),
    ("yes == true", "untyped bool true"),
    ("on != on", "untyped bool false"),
    ("1 < 2 && yes", "bool true"),
    ("!(1 < 2)", "untyped bool false"),
    ("on == (1 < 2)", "untyped bool true"),
    ("true + false", "BadOperand 1:1"),
    ("true - false", "BadOperand 1:1"),
    ("true * false", "BadOperand 1:1"),
    ("true / false", "BadOperand 1:1"),
    ("true % false", "BadOperand 1:1"),
    ("true & false", "BadOperand 1:1"),
    ("true | false", "BadOperand 1:1"),
    ("true ^ false", "BadOperand 1:1"),
    ("true &^ false", "BadOperand 1:1"),
    ("true << false", "BadOperand 1:1"),
    ("true >> false", "BadOperand 1:1"),
    ("true < false", "BadOperand 1:1"),
    ("true <= false", "BadOperand 1:1"),
    ("true > false", "BadOperand 1:1"),
    ("true >= false", "BadOperand 1:1"),
    ("+yes", "BadOperand 1:1"),
    ("-yes", "BadOperand 1:1"),
    ("^yes", "BadOperand 1:1"),
];

/// Operands of two types.
const TWO_TYPES: &[(&str, &str)] = &[
    ("1 + \"a\"", "MismatchedTypes 1:1"),
    ("1 + true", "MismatchedTypes 1:1"),
    ("\"a\" + true", "MismatchedTypes 1:1"),
    ("'a' + \"a\"", "MismatchedTypes 1:1"),
    ("true && 1", "MismatchedTypes 1:1"),
    ("yes && 1", "MismatchedTypes 1:1"),
    ("word + 1", "MismatchedTypes 1:1"),
    ("int8_1 + \"a\"", "MismatchedTypes 1:1"),
    ("int8_1 + true", "MismatchedTypes 1:1"),
    ("int8_1 + int16_hi", "MismatchedTypes 1:1"),
    ("int_hi + int64_hi", "MismatchedTypes 1:1"),
    ("uint_hi & uint64_hi", "MismatchedTypes 1:1"),
    ("warm + int8_1", "MismatchedTypes 1:1"),
    ("tag + word", "MismatchedTypes 1:1"),
    ("on && yes", "MismatchedTypes 1:1"),
    ("1 < \"a\"", "MismatchedTypes 1:1"),
    ("int8_1 < int16_hi", "MismatchedTypes 1:1"),
    ("warm >= int8_1", "MismatchedTypes 1:1"),
    ("1 == \"a\"", "NotComparable 1:1"),
    ("1 != true", "NotComparable 1:1"),
    ("\"a\" == true", "NotComparable 1:1"),
    ("int8_1 == int16_hi", "NotComparable 1:1"),
    ("int_lo != int64_lo", "NotComparable 1:1"),
    ("warm == int8_1", "NotComparable 1:1"),
    ("int8_1 == 300", "NotComparable 1:1"),
    ("int8_1 == \"a\"", "NotComparable 1:1"),
    ("300 != int8_1", "NotComparable 1:1"),
    ("tag == word", "NotComparable 1:1"),
    ("on == yes", "NotComparable 1:1"),
    ("word == 1", "NotComparable 1:1"),
];

/// A constant without a type beside one that has a type.
const BESIDE_TYPED: &[(&str, &str)] = &[
    ("int8_1 + 126", "int8 127"),
    ("126 + int8_1", "int8 127"),
    ("int8_1 + 'a'", "int8 98"),
    ("warm + 1", "Celsius 21"),
    ("1 + warm", "Celsius 21"),
    ("warm < 21", "untyped bool true"),
    ("warm == 20", "untyped bool true"),
    ("int8_1 + 127", "NotRepresentable 1:1"),
    ("int8_1 + 128", "NotRepresentable 1:1"),
    ("128 + int8_1", "NotRepresentable 1:1"),
    ("int8_1 + -129", "NotRepresentable 1:1"),
    ("uint8_5 - 6", "NotRepresentable 1:1"),
    ("uint8_5 + -1", "NotRepresentable 1:1"),
    ("uint8_5 & 256", "NotRepresentable 1:1"),
    ("int8_1 < 300", "NotRepresentable 1:1"),
    ("hot + 1", "NotRepresentable 1:1"),
    ("hot * 2", "NotRepresentable 1:1"),
    ("warm - 149", "NotRepresentable 1:1"),
];

/// The limits of 128 bits, reached and passed.
const LIMITS: &[(&str, &str)] = &[
    (
        "170141183460469231731687303715884105727",
        "untyped int 170141183460469231731687303715884105727",
    ),
    (
        "170141183460469231731687303715884105727 + 0",
        "untyped int 170141183460469231731687303715884105727",
    ),
    (
        "170141183460469231731687303715884105727 - 0",
        "untyped int 170141183460469231731687303715884105727",
    ),
    (
        "-170141183460469231731687303715884105727 - 1",
        "untyped int -170141183460469231731687303715884105728",
    ),
    (
        "-170141183460469231731687303715884105727",
        "untyped int -170141183460469231731687303715884105727",
    ),
    (
        "^170141183460469231731687303715884105727",
        "untyped int -170141183460469231731687303715884105728",
    ),
    (
        "^(-170141183460469231731687303715884105727 - 1)",
        "untyped int 170141183460469231731687303715884105727",
    ),
    (
        "170141183460469231731687303715884105727 * 1",
        "untyped int 170141183460469231731687303715884105727",
    ),
    (
        "(-170141183460469231731687303715884105727 - 1) * 1",
        "untyped int -170141183460469231731687303715884105728",
    ),
    (
        "(-170141183460469231731687303715884105727 - 1) / 1",
        "untyped int -170141183460469231731687303715884105728",
    ),
    (
        "(-170141183460469231731687303715884105727 - 1) % -1",
        "untyped int 0",
    ),
    (
        "9223372036854775808 * 9223372036854775808",
        "untyped int 85070591730234615865843651857942052864",
    ),
    (
        "-9223372036854775808 * 18446744073709551616",
        "untyped int -170141183460469231731687303715884105728",
    ),
    (
        "170141183460469231731687303715884105727 & (-170141183460469231731687303715884105727 - 1)",
        "untyped int 0",
    ),
    (
        "170141183460469231731687303715884105727 | (-170141183460469231731687303715884105727 - 1)",
        "untyped int -1",
    ),
    (
        "170141183460469231731687303715884105727 ^ (-170141183460469231731687303715884105727 - 1)",
        "untyped int -1",
    ),
    (
        "170141183460469231731687303715884105727 &^ (-170141183460469231731687303715884105727 - 1)",
        "untyped int 170141183460469231731687303715884105727",
    ),
    (
        "170141183460469231731687303715884105727 + 1",
        "ConstTooBig 1:1",
    ),
    (
        "1 + 170141183460469231731687303715884105727",
        "ConstTooBig 1:1",
    ),
    (
        "170141183460469231731687303715884105727 - -1",
        "ConstTooBig 1:1",
    ),
    (
        "-170141183460469231731687303715884105727 - 2",
        "ConstTooBig 1:1",
    ),
    (
        "-(-170141183460469231731687303715884105727 - 1)",
        "ConstTooBig 1:1",
    ),
    (
        "(-170141183460469231731687303715884105727 - 1) / -1",
        "ConstTooBig 1:1",
    ),
    (
        "170141183460469231731687303715884105727 * 2",
        "ConstTooBig 1:1",
    ),
    (
        "(-170141183460469231731687303715884105727 - 1) * -1",
        "ConstTooBig 1:1",
    ),
    (
        "9223372036854775808 * 18446744073709551616",
        "ConstTooBig 1:1",
    ),
    (
        "170141183460469231731687303715884105727 + 'a'",
        "ConstTooBig 1:1",
    ),
    ("uint64_hi * uint64_hi", "ConstTooBig 1:1"),
    ("int64_lo * int64_lo * 2", "NotRepresentable 1:1"),
];

/// Shifts: counts of 0, 126, 127, 128 and below 0.
const SHIFTS: &[(&str, &str)] = &[
    ("1 << 0", "untyped int 1"),
    ("5 >> 0", "untyped int 5"),
    (
        "1 << 126",
        "untyped int 85070591730234615865843651857942052864",
    ),
    (
        "-1 << 127",
        "untyped int -170141183460469231731687303715884105728",
    ),
    ("0 << 127", "untyped int 0"),
    ("0 << 128", "untyped int 0"),
    (
        "170141183460469231731687303715884105727 >> 126",
        "untyped int 1",
    ),
    (
        "170141183460469231731687303715884105727 >> 127",
        "untyped int 0",
    ),
    (
        "170141183460469231731687303715884105727 >> 128",
        "untyped int 0",
    ),
    (
        "-170141183460469231731687303715884105727 >> 127",
        "untyped int -1",
    ),
    (
        "(-170141183460469231731687303715884105727 - 1) >> 127",
        "untyped int -1",
    ),
    ("-1 >> 128", "untyped int -1"),
    ("1 << uint8_5", "untyped int 32"),
    ("1 << int8_1", "untyped int 2"),
    ("0 >> 127", "untyped int 0"),
    ("1 << 127", "ConstTooBig 1:1"),
    ("1 << 128", "ConstTooBig 1:1"),
    ("-1 << 128", "ConstTooBig 1:1"),
    ("3 << 126", "ConstTooBig 1:1"),
    ("int8_1 << 127", "ConstTooBig 1:1"),
    ("1 << -1", "BadShift 1:1"),
    ("1 >> -1", "BadShift 1:1"),
    ("0 << -1", "BadShift 1:1"),
    ("int8_1 << -1", "BadShift 1:1"),
    ("warm >> int8_lo", "BadShift 1:1"),
    ("int8_1 << 6", "int8 64"),
    ("int8_1 << 7", "NotRepresentable 1:1"),
    ("int8_1 << 126", "NotRepresentable 1:1"),
    ("uint8_hi << 1", "NotRepresentable 1:1"),
    ("uint8_hi >> 7", "uint8 1"),
    ("int8_lo >> 7", "int8 -1"),
    ("uint8_5 << uint16_lo", "uint8 5"),
    ("uint8_5 << int64_lo", "BadShift 1:1"),
    ("warm << 1", "Celsius 40"),
    ("warm >> int8_1", "Celsius 10"),
    ("warm << warm", "NotRepresentable 1:1"),
    ("1 << warm", "untyped int 1048576"),
];

/// Signs and flipped bits at the limits of a kind.
const SIGNS: &[(&str, &str)] = &[
    ("-int8_lo", "NotRepresentable 1:1"),
    ("int8_lo / -1", "NotRepresentable 1:1"),
    ("int8_lo * -1", "NotRepresentable 1:1"),
    ("-int64_lo", "NotRepresentable 1:1"),
    ("int64_lo / -1", "NotRepresentable 1:1"),
    ("-uint8_5", "NotRepresentable 1:1"),
    ("-uint64_hi", "NotRepresentable 1:1"),
    ("-int8_hi", "int8 -127"),
    ("int8_lo % -1", "int8 0"),
    ("-uint8_lo", "uint8 0"),
    ("^uint8_5", "uint8 250"),
    ("^int8_1", "int8 -2"),
    ("^uint64_lo", "uint64 18446744073709551615"),
    ("^warm", "Celsius -21"),
    ("+int8_lo", "int8 -128"),
    ("uint8_hi &^ 5", "uint8 250"),
    ("int8_lo | int8_1", "int8 -127"),
    ("int8_lo ^ int8_hi", "int8 -1"),
    ("uint_hi / 2", "uint 9223372036854775807"),
];

/// Which of two faults is told: parts from left to right, and then the whole.
const TWO_FAULTS: &[(&str, &str)] = &[
    ("nothing + undeclared", "Undefined nothing 1:1"),
    ("1 + nothing", "Undefined nothing 1:5"),
    ("1 / 0 + nothing", "DivByZero 1:1"),
    ("nothing + 1 / 0", "Undefined nothing 1:1"),
    ("1 + 1 / 0", "DivByZero 1:5"),
    ("(1 / 0) + nothing", "DivByZero 1:2"),
    ("float64 + nil", "OutsideName float64 1:1"),
    ("nil + float64", "Form 1:1"),
    ("true + \"a\" / 0", "MismatchedTypes 1:8"),
    ("true + 1 / 0", "DivByZero 1:8"),
    ("lib.hidden + lib.Nothing", "NotExported hidden 1:1"),
    ("lib.Nothing + lib.hidden", "Undefined Nothing 1:1"),
    ("lib + nothing", "Undefined nothing 1:7"),
    ("-(1 + true)", "MismatchedTypes 1:3"),
    ("1 << -1 << nothing", "BadShift 1:1"),
    ("1 +\n nothing", "Undefined nothing 2:2"),
    ("uint8_hi + 1 == 256", "NotRepresentable 1:1"),
    ("256 == uint8_hi + 1", "NotRepresentable 1:8"),
    ("!(1 == \"a\")", "NotComparable 1:3"),
    ("nothing && 1", "Undefined nothing 1:1"),
    ("false && nothing", "Undefined nothing 1:10"),
    ("true || 1 / 0 == 0", "DivByZero 1:9"),
];

/// Addresses, and the forms that aren't taken yet, which are refused unseen.
const NOT_TAKEN: &[(&str, &str)] = &[
    ("&seven", "NotAddressable 1:1"),
    ("*seven", "BadOperand 1:1"),
    ("&nothing", "Undefined nothing 1:2"),
    ("len(word)", "Form 1:1"),
    ("len(nothing)", "Form 1:1"),
    ("int8(1)", "Form 1:1"),
    ("[]int(nil)", "Form 1:1"),
    ("[]int{1}", "Form 1:1"),
    ("Celsius{}", "Form 1:1"),
    ("word[0]", "Form 1:1"),
    ("word[0:1]", "Form 1:1"),
    ("word[nothing]", "Form 1:1"),
    ("seven.(int)", "Form 1:1"),
    ("function[int](1)", "Form 1:1"),
    ("make([]int, 1)", "Form 1:1"),
    ("1 + word[0]", "Form 1:5"),
    ("-len(word)", "Form 1:2"),
    ("(variable)", "Form 1:2"),
    ("&variable", "Form 1:2"),
];

/// Expressions of a block.
const WITHIN: &[(&str, &str)] = &[
    ("iota", "untyped int 3"),
    ("1 << iota", "untyped int 8"),
    ("iota + int8_1", "int8 4"),
    ("seven", "int 4"),
    ("seven + 1", "int 5"),
    ("max", "untyped int 9"),
    ("param", "Form 1:1"),
    ("local", "Form 1:1"),
    ("1 + local", "Form 1:5"),
    ("local + nothing", "Form 1:1"),
    ("lib.One", "untyped int 1"),
];

/// The whole kinds.
const KINDS: &[&str] = &[
    "int", "int8", "int16", "int32", "int64", "uint", "uint8", "uint16", "uint32", "uint64",
];

/// Expressions of each whole kind, whose name stands for `$`.
const EACH: &[(&str, &str)] = &[
    ("$_hi / $_hi", "$ 1"),
    ("$_hi % $_hi", "$ 0"),
    ("$_hi - $_hi", "$ 0"),
    ("$_hi & 5", "$ 5"),
    ("$_hi & 6 | 1", "$ 7"),
    ("$_hi & 6 ^ 3", "$ 5"),
    ("$_hi & 6 &^ 2", "$ 4"),
    ("$_hi & 6 + 1", "$ 7"),
    ("$_hi & 6 * 2", "$ 12"),
    ("$_hi & 6 / 4", "$ 1"),
    ("$_hi & 6 % 4", "$ 2"),
    ("$_hi & 1 << 3", "$ 8"),
    ("$_hi & 6 >> 1", "$ 3"),
    ("+$_hi & 3", "$ 3"),
    ("-($_hi & 0)", "$ 0"),
    ("^$_lo == $_hi", "untyped bool true"),
    ("^$_hi == $_lo", "untyped bool true"),
    ("$_lo < $_hi", "untyped bool true"),
    ("$_lo <= $_lo", "untyped bool true"),
    ("$_lo > $_hi", "untyped bool false"),
    ("$_lo >= $_hi", "untyped bool false"),
    ("$_lo == $_lo", "untyped bool true"),
    ("$_lo != $_lo", "untyped bool false"),
    ("$_hi && $_hi", "BadOperand 1:1"),
    ("$_hi || true", "MismatchedTypes 1:1"),
    ("!$_hi", "BadOperand 1:1"),
    ("$_hi + \"a\"", "MismatchedTypes 1:1"),
    ("$_hi == \"a\"", "NotComparable 1:1"),
    ("$_hi << \"a\"", "BadOperand 1:1"),
    ("$_hi >> true", "BadOperand 1:1"),
    ("$_hi << -1", "BadShift 1:1"),
    ("$_hi % 0", "DivByZero 1:1"),
    ("$_hi - 1 + 1 == $_hi", "untyped bool true"),
    ("$_lo + 1 - 1 == $_lo", "untyped bool true"),
    ("$_hi / 1 == $_hi", "untyped bool true"),
    ("$_hi >> 1 << 1 | 1 == $_hi", "untyped bool true"),
    ("$_hi + 1", "NotRepresentable 1:1"),
    ("$_lo - 1", "NotRepresentable 1:1"),
    ("$_hi * 2", "NotRepresentable 1:1"),
    ("$_hi << 1", "NotRepresentable 1:1"),
    ("$_hi + $_hi", "NotRepresentable 1:1"),
];

// What the expression is checked to be, over the scene.
fn checked(alloc: Global, within: bool, tree: &ExprTree) -> Result<String, Fail> {
    let mut table = TypeTable::new(alloc);
    let decls = decls(alloc, &mut table)?;
    let scope = scope(alloc, &mut table, within)?;
    let mut env = ListEnv::new(Vec::new(alloc), decls);
    told(alloc, &mut env, &mut table, &scope, tree)
}

// The expression that the text is.
fn parsed(rt: &impl Abort, alloc: Global, text: &[u8]) -> Result<Boxed<ExprTree>, Fail> {
    assert!(rt; text.len() < 10000);
    let tokens = ui_scan::tokens(alloc, text)?;
    let Ok((tree, end)) = parse_expr(alloc, text, tokens.as_slice(), 0, false, 0) else {
        panic!(rt; "no expression: {text:?}");
    };
    let tree = Boxed::new(alloc, tree)?;
    // behind it stand a semicolon and the end
    assert_eq!(rt; tokens.len().saturating_sub(end), 2);
    Ok(tree)
}

// The expression is checked to be what is wanted.
fn expect(
    rt: &impl Abort,
    alloc: Global,
    within: bool,
    text: &[u8],
    want: &[u8],
) -> Result<(), Fail> {
    let tree = parsed(rt, alloc, text)?;
    let answer = checked(alloc, within, tree.get())?;
    let want = str::from_utf8(want)?;
    let text = str::from_utf8(text)?;
    assert_eq!(rt; answer.as_str(), want, "{text}");
    Ok(())
}

#[test]
fn literals(rt: HostRuntime) -> Result<(), Fail> {
    for (text, want) in LITERALS {
        expect(&rt, rt.alloc(), false, text.as_bytes(), want.as_bytes())?;
    }
    Ok(())
}

#[test]
fn left_out_names(rt: HostRuntime) -> Result<(), Fail> {
    for (text, want) in LEFT_OUT {
        expect(&rt, rt.alloc(), false, text.as_bytes(), want.as_bytes())?;
    }
    Ok(())
}

#[test]
fn names_of_packages(rt: HostRuntime) -> Result<(), Fail> {
    for (text, want) in OF_PACKAGES {
        expect(&rt, rt.alloc(), false, text.as_bytes(), want.as_bytes())?;
    }
    Ok(())
}

#[test]
fn whole_numbers(rt: HostRuntime) -> Result<(), Fail> {
    for (text, want) in WHOLE {
        expect(&rt, rt.alloc(), false, text.as_bytes(), want.as_bytes())?;
    }
    Ok(())
}

#[test]
fn by_zero(rt: HostRuntime) -> Result<(), Fail> {
    for (text, want) in BY_ZERO {
        expect(&rt, rt.alloc(), false, text.as_bytes(), want.as_bytes())?;
    }
    Ok(())
}

#[test]
fn runes(rt: HostRuntime) -> Result<(), Fail> {
    for (text, want) in RUNES {
        expect(&rt, rt.alloc(), false, text.as_bytes(), want.as_bytes())?;
    }
    Ok(())
}

#[test]
fn texts(rt: HostRuntime) -> Result<(), Fail> {
    for (text, want) in TEXTS {
        expect(&rt, rt.alloc(), false, text.as_bytes(), want.as_bytes())?;
    }
    Ok(())
}

#[test]
fn truth_values(rt: HostRuntime) -> Result<(), Fail> {
    for (text, want) in TRUTHS {
        expect(&rt, rt.alloc(), false, text.as_bytes(), want.as_bytes())?;
    }
    Ok(())
}

#[test]
fn two_types(rt: HostRuntime) -> Result<(), Fail> {
    for (text, want) in TWO_TYPES {
        expect(&rt, rt.alloc(), false, text.as_bytes(), want.as_bytes())?;
    }
    Ok(())
}

#[test]
fn beside_typed(rt: HostRuntime) -> Result<(), Fail> {
    for (text, want) in BESIDE_TYPED {
        expect(&rt, rt.alloc(), false, text.as_bytes(), want.as_bytes())?;
    }
    Ok(())
}

#[test]
fn limits(rt: HostRuntime) -> Result<(), Fail> {
    for (text, want) in LIMITS {
        expect(&rt, rt.alloc(), false, text.as_bytes(), want.as_bytes())?;
    }
    Ok(())
}

#[test]
fn shifts(rt: HostRuntime) -> Result<(), Fail> {
    for (text, want) in SHIFTS {
        expect(&rt, rt.alloc(), false, text.as_bytes(), want.as_bytes())?;
    }
    Ok(())
}

#[test]
fn signs(rt: HostRuntime) -> Result<(), Fail> {
    for (text, want) in SIGNS {
        expect(&rt, rt.alloc(), false, text.as_bytes(), want.as_bytes())?;
    }
    Ok(())
}

#[test]
fn two_faults(rt: HostRuntime) -> Result<(), Fail> {
    for (text, want) in TWO_FAULTS {
        expect(&rt, rt.alloc(), false, text.as_bytes(), want.as_bytes())?;
    }
    Ok(())
}

#[test]
fn not_taken(rt: HostRuntime) -> Result<(), Fail> {
    for (text, want) in NOT_TAKEN {
        expect(&rt, rt.alloc(), false, text.as_bytes(), want.as_bytes())?;
    }
    Ok(())
}

#[test]
fn expressions_of_a_block(rt: HostRuntime) -> Result<(), Fail> {
    for (text, want) in WITHIN {
        expect(&rt, rt.alloc(), true, text.as_bytes(), want.as_bytes())?;
    }
    Ok(())
}

// The text with the kind's name in each place of `$`.
fn of_kind(alloc: Global, text: &str, kind: &str) -> Result<Vec<u8>, NoMemory> {
    let mut out = Vec::new(alloc);
    for byte in text.as_bytes() {
        if *byte == b'$' {
            out.extend_from_slice(kind.as_bytes())?;
        } else {
            out.push(*byte)?;
        }
    }
    Ok(out)
}

#[test]
fn whole_kinds(rt: HostRuntime) -> Result<(), Fail> {
    let alloc = rt.alloc();
    for kind in KINDS {
        for (text, want) in EACH {
            let text = of_kind(alloc, text, kind)?;
            let want = of_kind(alloc, want, kind)?;
            expect(&rt, alloc, false, text.as_slice(), want.as_slice())?;
        }
    }
    Ok(())
}
