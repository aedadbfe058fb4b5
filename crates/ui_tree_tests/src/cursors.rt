//! A cursor over tokens, and lists by a step.

ghost use Rattle.std.specs.Prelude.{nat_le};

use std::alloc::Global;
use std::process::Abort;
use std::test::Fail;
use ui_base::Value;
use ui_parse::{Cursor, Ends, Literal, ParseError, parts};
use ui_scan::{TokenKind, tokens};
use ui_tree::LiteralKind;

const TEXT: &[u8] = b"f(\n  \"b\\n\", 'c', 0x1F)";

// The words of a call, one after another.
#[test]
fn words_of_a_call(rt: HostRuntime) -> Result<(), Fail> {
    let found = tokens(rt.alloc(), TEXT)?;
    let mut cursor = Cursor::new(TEXT, found.as_slice());
    assert_eq!(rt; cursor.left(), 10);
    assert_eq!(rt; cursor.front(2).left(), 2);
    assert_eq!(rt; cursor.front(20).left(), 10);
    assert!(rt; cursor.take(TokenKind::Ident).is_none());
    match cursor.expect_name(rt.alloc()) {
        Ok(name) => assert_eq!(rt; name.text.bytes(), b"f".as_slice()),
        Err(_) => panic!(rt; "no name"),
    }
    match cursor.expect(TokenKind::LParen) {
        Ok(spot) => assert_eq!(rt; (spot.line, spot.col), (1, 2)),
        Err(_) => panic!(rt; "no parenthesis"),
    }
    assert!(rt; cursor.take_name(rt.alloc())?.is_none());
    assert_eq!(rt; cursor.peek(), Some(TokenKind::Str));
    expect_literals(&rt, rt.alloc(), &mut cursor)?;
    assert!(rt; cursor.fork().expect(TokenKind::Comma) == Err(ParseError::Fault));
    assert!(rt; cursor.take(TokenKind::RParen).is_some());
    assert!(rt; cursor.take(TokenKind::Semi).is_some());
    cursor.skip();
    assert_eq!(rt; cursor.peek(), None);
    Ok(())
}

fn expect_literals(rt: &impl Abort, alloc: Global, cursor: &mut Cursor<'_>) -> Result<(), Fail> {
    match cursor.take_literal(alloc)? {
        Some(
            Literal {
                kind: LiteralKind::Text,
                spot,
                value: Value::Str(text),
            },
        ) => {
            assert_eq!(rt; text.bytes(), b"b\n".as_slice());
            assert_eq!(rt; (spot.line, spot.col), (2, 3));
        }
        _ => panic!(rt; "no string"),
    }
    for want in [(LiteralKind::Rune, 99), (LiteralKind::Whole, 31)] {
        assert!(rt; cursor.take(TokenKind::Comma).is_some());
        match cursor.take_literal(alloc)? {
            Some(
                Literal {
                    kind,
                    spot: _,
                    value: Value::Whole(number),
                },
            ) => assert_eq!(rt; (kind, number), want),
            _ => panic!(rt; "no number"),
        }
    }
    assert!(rt; cursor.take_literal(alloc)?.is_none());
    Ok(())
}

// How many names were read, of which three are the most.
#[derive(Clone, Copy, Drop)]
struct Count {
    names: u32,
}

impl Ends for Count {
    ghost ending = { record { may = λ c. nat_le 1 c.names; must = λ c. nat_le 3 c.names } };

    fn may_end(&self) -> bool {
        self.names >= 1
    }

    fn must_end(&self) -> bool {
        self.names >= 3
    }
}

fn one_name(alloc: Global, cursor: &mut Cursor<'_>, count: Count) -> Result<Count, ParseError> {
    cursor.expect_name(alloc)?;
    Ok(Count {
        names: count.names.saturating_add(1),
    })
}

// How many names stand in parentheses, and how many words are left.
fn names_in(
    rt: &impl Abort,
    alloc: Global,
    text: &[u8],
) -> Result<(Result<Count, ParseError>, usize), Fail> {
    assert!(rt; text.len() < 1000);
    let found = tokens(alloc, text)?;
    let mut cursor = Cursor::new(text, found.as_slice());
    cursor.skip();
    let count = parts(
        &mut cursor,
        TokenKind::Comma,
        TokenKind::RParen,
        Count { names: 0 },
        &|cursor: &mut Cursor<'_>, count| one_name(alloc, cursor, count),
    );
    Ok((count, cursor.left()))
}

#[test]
fn names_in_parentheses(rt: HostRuntime) -> Result<(), Fail> {
    for (text, names, left) in [
        (b"(a)".as_slice(), 1, 2),
        (b"(a, b,) c".as_slice(), 2, 3),
        (b"(a, b, c)".as_slice(), 3, 2),
        (b"(a, b, c,)".as_slice(), 3, 2),
    ] {
        let (count, rest) = names_in(&rt, rt.alloc(), text)?;
        match count {
            Ok(count) => assert_eq!(rt; (count.names, rest), (names, left), "{text:?}"),
            Err(_) => panic!(rt; "{text:?}"),
        }
    }
    for (text, left) in [
        (b"()".as_slice(), 3),
        (b"(a b)".as_slice(), 4),
        (b"(a, b, c, d)".as_slice(), 4),
        (b"(a,".as_slice(), 1),
    ] {
        let (count, rest) = names_in(&rt, rt.alloc(), text)?;
        assert!(rt; count.is_err());
        assert_eq!(rt; rest, left, "{text:?}");
    }
    Ok(())
}
