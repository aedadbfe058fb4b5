//! Operations on constants, against values worked out by hand.

use std::alloc::Global;
use std::process::Abort;
use std::test::Fail;
use ui_base::{Basic, BinOp, NoMemory, Text, UnOp, Value};
use ui_const::{
    ConstFault, TEXT_LIMIT, binary, can_convert, can_operate, can_prefix, convert, is_shift,
    represent, shift, unary,
};

// The least and the greatest number of 128 bits.
const LEAST: i128 = i128::MIN;

const GREATEST: i128 = i128::MAX;

// A text of these bytes.
fn text(alloc: Global, bytes: &[u8]) -> Result<Value, NoMemory> {
    Ok(Value::Str(Text::from_slice(alloc, bytes)?))
}

// Whether a value is this whole number.
fn is_whole(v: &Value, want: i128) -> bool {
    matches!(v, Value::Whole(z) if *z == want)
}

// Whether a value is this truth value.
fn is_truth(v: &Value, want: bool) -> bool {
    matches!(v, Value::Truth(b) if *b == want)
}

// Whether a value is a text of these bytes.
fn is_text(v: &Value, want: &[u8]) -> bool {
    match v {
        Value::Str(text) => text.bytes() == want,
        _ => false,
    }
}

// Whether a result is this whole number, or this fault.
fn gives(given: &Result<Value, ConstFault>, want: Result<i128, ConstFault>) -> bool {
    match (given, want) {
        (Ok(v), Ok(z)) => is_whole(v, z),
        (Err(fault), Err(other)) => *fault == other,
        _ => false,
    }
}

// What a binary operator gives on whole numbers, where it is allowed.
fn of_wholes(alloc: Global, op: BinOp, a: i128, b: i128) -> Option<Result<Value, ConstFault>> {
    let (a, b) = (Value::Whole(a), Value::Whole(b));
    if can_operate(op, &a, &b) {
        Some(binary(alloc, op, &a, &b))
    } else {
        None
    }
}

#[test]
fn arithmetic(rt: HostRuntime) -> Result<(), Fail> {
    let too_big = Err(ConstFault::ConstTooBig);
    let by_zero = Err(ConstFault::DivByZero);
    for (op, a, b, want) in [
        (BinOp::Add, 2, 3, Ok(5)),
        (BinOp::Add, GREATEST, 0, Ok(GREATEST)),
        (BinOp::Add, GREATEST, 1, too_big),
        (BinOp::Sub, LEAST, 1, too_big),
        (BinOp::Sub, -1, GREATEST, Ok(LEAST)),
        (BinOp::Mul, 1 << 63, 1 << 63, Ok(1 << 126)),
        (BinOp::Mul, 1 << 64, 1 << 63, too_big),
        (BinOp::Mul, -(1 << 64), 1 << 63, Ok(LEAST)),
        (BinOp::Div, 7, 2, Ok(3)),
        (BinOp::Div, -7, 2, Ok(-3)),
        (BinOp::Div, 7, -2, Ok(-3)),
        (BinOp::Div, -7, -2, Ok(3)),
        (BinOp::Div, 7, 0, by_zero),
        (BinOp::Div, LEAST, -1, too_big),
        (BinOp::Rem, 7, 2, Ok(1)),
        (BinOp::Rem, -7, 2, Ok(-1)),
        (BinOp::Rem, 7, -2, Ok(1)),
        (BinOp::Rem, -7, -2, Ok(-1)),
        (BinOp::Rem, 7, 0, by_zero),
        (BinOp::Rem, LEAST, -1, Ok(0)),
        (BinOp::And, -2, 7, Ok(6)),
        (BinOp::And, -2, -4, Ok(-4)),
        (BinOp::Or, -8, 3, Ok(-5)),
        (BinOp::Xor, -1, 5, Ok(-6)),
        (BinOp::Xor, LEAST, GREATEST, Ok(-1)),
        (BinOp::AndNot, 7, 5, Ok(2)),
        (BinOp::AndNot, -1, 5, Ok(-6)),
    ] {
        let given = of_wholes(rt.alloc(), op, a, b).ok_or("not allowed")?;
        assert!(rt; gives(&given, want), "{a} {op:?} {b} gave {given:?}");
    }
    assert!(rt; of_wholes(rt.alloc(), BinOp::Shl, 1, 1).is_none());
    Ok(())
}

#[test]
fn comparisons(rt: HostRuntime) -> Result<(), Fail> {
    let alloc = rt.alloc();
    for (op, wholes, texts) in [
        (BinOp::Equal, false, false),
        (BinOp::NotEqual, true, true),
        (BinOp::Less, true, false),
        (BinOp::LessEqual, true, false),
        (BinOp::Greater, false, true),
        (BinOp::GreaterEqual, false, true),
    ] {
        let given = of_wholes(alloc, op, -3, 2).ok_or("not allowed")??;
        assert!(rt; is_truth(&given, wholes), "-3 {op:?} 2");
        let (a, b) = (text(alloc, b"b")?, text(alloc, b"ab")?);
        assert!(rt; can_operate(op, &a, &b));
        let given = binary(alloc, op, &a, &b)?;
        assert!(rt; is_truth(&given, texts), "b {op:?} ab");
    }
    for (op, want) in [
        (BinOp::Equal, false),
        (BinOp::NotEqual, true),
        (BinOp::LogicalAnd, false),
        (BinOp::LogicalOr, true),
    ] {
        let (a, b) = (Value::Truth(true), Value::Truth(false));
        assert!(rt; can_operate(op, &a, &b));
        assert!(rt; is_truth(&binary(alloc, op, &a, &b)?, want), "{op:?}");
    }
    assert!(rt; !can_operate(BinOp::Less, &Value::Truth(true), &Value::Truth(true)));
    assert!(rt; !can_operate(BinOp::Equal, &Value::Truth(true), &Value::Whole(1)));
    Ok(())
}

#[test]
fn texts(rt: HostRuntime) -> Result<(), Fail> {
    let alloc = rt.alloc();
    let (a, b) = (text(alloc, b"ab")?, text(alloc, b"c")?);
    assert!(rt; can_operate(BinOp::Add, &a, &b));
    assert!(rt; is_text(&binary(alloc, BinOp::Add, &a, &b)?, b"abc"));
    assert!(rt; !can_operate(BinOp::Sub, &a, &b));
    let long = vec![in alloc; b'x'; TEXT_LIMIT]?;
    let long = Value::Str(Text::new(long));
    let empty = text(alloc, b"")?;
    assert!(rt; can_operate(BinOp::Add, &long, &empty));
    assert!(rt; binary(alloc, BinOp::Add, &long, &empty).is_ok());
    assert!(rt; can_operate(BinOp::Add, &long, &b));
    let given = binary(alloc, BinOp::Add, &long, &b);
    assert_eq!(rt; given.err(), Some(ConstFault::ConstTooBig));
    Ok(())
}

#[test]
fn kinds_at_their_bounds(rt: HostRuntime) {
    for (kind, low, high) in [
        (Basic::Int8, -128, 127),
        (Basic::Int16, -32_768, 32_767),
        (Basic::Int32, -2_147_483_648, 2_147_483_647),
        (
            Basic::Int64,
            -9_223_372_036_854_775_808,
            9_223_372_036_854_775_807,
        ),
        (
            Basic::Int,
            -9_223_372_036_854_775_808,
            9_223_372_036_854_775_807,
        ),
        (Basic::Uint8, 0, 255),
        (Basic::Uint16, 0, 65_535),
        (Basic::Uint32, 0, 4_294_967_295),
        (Basic::Uint64, 0, 18_446_744_073_709_551_615),
        (Basic::Uint, 0, 18_446_744_073_709_551_615),
    ] {
        for (z, want) in [
            (low, true),
            (low - 1, false),
            (high, true),
            (high + 1, false),
        ] {
            assert_eq!(rt;
                represent(&Value::Whole(z), kind).is_ok(),
                want,
                "{z} as {kind:?}"
            );
        }
    }
    for kind in [Basic::UntypedInt, Basic::UntypedRune] {
        assert_eq!(rt; represent(&Value::Whole(LEAST), kind), Ok(()));
        assert_eq!(rt; represent(&Value::Whole(GREATEST), kind), Ok(()));
    }
    for kind in [
        Basic::Bool,
        Basic::String,
        Basic::UntypedBool,
        Basic::UntypedString,
        Basic::UntypedNil,
    ] {
        let given = represent(&Value::Whole(0), kind);
        assert_eq!(rt; given, Err(ConstFault::NotRepresentable), "0 as {kind:?}");
        let truth = represent(&Value::Truth(true), kind).is_ok();
        assert_eq!(rt; truth, matches!(kind, Basic::Bool | Basic::UntypedBool));
    }
}

#[test]
fn unary_operators(rt: HostRuntime) -> Result<(), Fail> {
    let unfit = Err(ConstFault::NotRepresentable);
    for (op, z, kind, want) in [
        (UnOp::Neg, 5, Basic::Int, Ok(-5)),
        (UnOp::Neg, -128, Basic::Int8, unfit),
        (UnOp::Neg, 1, Basic::Uint8, unfit),
        (UnOp::Neg, 0, Basic::Uint8, Ok(0)),
        (
            UnOp::Neg,
            LEAST,
            Basic::UntypedInt,
            Err(ConstFault::ConstTooBig),
        ),
        (UnOp::Flip, 0, Basic::Uint8, Ok(255)),
        (UnOp::Flip, 1, Basic::Uint64, Ok(18_446_744_073_709_551_614)),
        (UnOp::Flip, 0, Basic::Int8, Ok(-1)),
        (UnOp::Flip, -128, Basic::Int8, Ok(127)),
        (UnOp::Flip, GREATEST, Basic::UntypedInt, Ok(LEAST)),
    ] {
        let operand = Value::Whole(z);
        assert!(rt; can_prefix(op, &operand, kind));
        let given = unary(op, &operand, kind);
        assert!(rt;
            gives(&given, want),
            "{op:?} {z} as {kind:?} gave {given:?}"
        );
    }
    let operand = Value::Truth(true);
    assert!(rt; can_prefix(UnOp::Not, &operand, Basic::Bool));
    assert!(rt; is_truth(&unary(UnOp::Not, &operand, Basic::Bool)?, false));
    assert!(rt; !can_prefix(UnOp::Neg, &operand, Basic::Bool));
    assert!(rt; !can_prefix(UnOp::Neg, &Value::Whole(256), Basic::Uint8));
    Ok(())
}

#[test]
fn shifts(rt: HostRuntime) {
    let too_big = Err(ConstFault::ConstTooBig);
    for (a, count, left, right) in [
        (1, 0, Ok(1), Ok(1)),
        (1, 126, Ok(1 << 126), Ok(0)),
        (1, 127, too_big, Ok(0)),
        (-1, 127, Ok(LEAST), Ok(-1)),
        (-1, 128, too_big, Ok(-1)),
        (0, GREATEST, Ok(0), Ok(0)),
        (-5, 1, Ok(-10), Ok(-3)),
        (3, 126, too_big, Ok(0)),
        (LEAST, 127, too_big, Ok(-1)),
        (5, -1, Err(ConstFault::BadShift), Err(ConstFault::BadShift)),
    ] {
        assert_eq!(rt; shift(BinOp::Shl, a, count), left, "{a} << {count}");
        assert_eq!(rt; shift(BinOp::Shr, a, count), right, "{a} >> {count}");
    }
    assert!(rt; is_shift(BinOp::Shl) && is_shift(BinOp::Shr) && !is_shift(BinOp::Add));
}

#[test]
fn conversions(rt: HostRuntime) -> Result<(), Fail> {
    let alloc = rt.alloc();
    for (z, want) in [
        (65, b"A".as_slice()),
        (0xe9, b"\xc3\xa9".as_slice()),
        (0x20ac, b"\xe2\x82\xac".as_slice()),
        (0x1f600, b"\xf0\x9f\x98\x80".as_slice()),
        (0x10ffff, b"\xf4\x8f\xbf\xbf".as_slice()),
        (0x110000, b"\xef\xbf\xbd".as_slice()),
        (0xd800, b"\xef\xbf\xbd".as_slice()),
        (-1, b"\xef\xbf\xbd".as_slice()),
        (GREATEST, b"\xef\xbf\xbd".as_slice()),
    ] {
        let whole = Value::Whole(z);
        assert!(rt; can_convert(&whole, Basic::String));
        assert!(rt;
            is_text(&convert(alloc, &whole, Basic::String)?, want),
            "text of {z}"
        );
    }
    for (z, kind, want) in [
        (255, Basic::Uint8, Ok(255)),
        (256, Basic::Uint8, Err(ConstFault::NotRepresentable)),
        (-1, Basic::Uint, Err(ConstFault::NotRepresentable)),
        (-1, Basic::Int, Ok(-1)),
    ] {
        let whole = Value::Whole(z);
        assert!(rt; can_convert(&whole, kind));
        let given = convert(alloc, &whole, kind);
        assert!(rt; gives(&given, want), "{z} to {kind:?} gave {given:?}");
    }
    let word = text(alloc, b"go")?;
    assert!(rt; can_convert(&word, Basic::String));
    assert!(rt; is_text(&convert(alloc, &word, Basic::String)?, b"go"));
    assert!(rt; can_convert(&Value::Truth(true), Basic::Bool));
    assert!(rt; is_truth(&convert(alloc, &Value::Truth(true), Basic::Bool)?, true));
    assert!(rt; !can_convert(&Value::Truth(true), Basic::Int));
    assert!(rt; !can_convert(&word, Basic::Int));
    Ok(())
}
