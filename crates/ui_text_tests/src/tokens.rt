//! The tokens of texts, their first faults, and the values of literals.

ghost use Rattle.std.specs.Prelude.{◌≡◌};
ghost use Rattle.ui_scan.specs.Tokens.{Tokens};
ghost use Rattle.ui_scan.specs.Value.{is_literal};

use std::alloc::{AllocError, Global};
use std::process::Abort;
use std::test::Fail;
use ui_base::{NoMemory, Value};
use ui_scan::{ScanFault, ScanKind, Scanner, Token, TokenKind, TokensFault, tokens, value_of};

// Texts, and their tokens as kind, start and end.
const TEXTS: [(&[u8], &str); 92] = [
    (b"", "End 0 0;"),
    (
        b"x /* \n */ y",
        "Ident 0 1;Semi 1 1;Ident 10 11;Semi 11 11;End 11 11;",
    ),
    (b"return", "Return 0 6;Semi 6 6;End 6 6;"),
    (b"x // y", "Ident 0 1;Semi 1 1;End 6 6;"),
    (b"x // y\n+", "Ident 0 1;Semi 1 1;Add 7 8;End 8 8;"),
    (
        b"x /* y */ z",
        "Ident 0 1;Ident 10 11;Semi 11 11;End 11 11;",
    ),
    (
        b"x\r\ny\r\n",
        "Ident 0 1;Semi 1 1;Ident 3 4;Semi 4 4;End 6 6;",
    ),
    (
        b"f()\n\n}",
        "Ident 0 1;LParen 1 2;RParen 2 3;Semi 3 3;RBrace 5 6;Semi 6 6;End 6 6;",
    ),
    (b"x;\n", "Ident 0 1;Semi 1 2;End 3 3;"),
    (b"+\n", "Add 0 1;End 2 2;"),
    (
        b"a&^=b...<<=c&^d",
        "Ident 0 1;AndNotAssign 1 4;Ident 4 5;Ellipsis 5 8;ShlAssign 8 11;Ident 11 12;AndNot 12 14;Ident 14 15;Semi 15 15;End 15 15;",
    ),
    (
        b"i+++j",
        "Ident 0 1;Inc 1 3;Add 3 4;Ident 4 5;Semi 5 5;End 5 5;",
    ),
    (
        b"a..b",
        "Ident 0 1;Period 1 2;Period 2 3;Ident 3 4;Semi 4 4;End 4 4;",
    ),
    (b"1x", "Int 0 1;Ident 1 2;Semi 2 2;End 2 2;"),
    (b"breaks _if", "Ident 0 6;Ident 7 10;Semi 10 10;End 10 10;"),
    (b"\xEF\xBB\xBFx", "Ident 3 4;Semi 4 4;End 4 4;"),
    (
        b"\xC3\xA9\xD9\xA3 x",
        "Ident 0 4;Ident 5 6;Semi 6 6;End 6 6;",
    ),
    (
        b"`a\\\nb`\n\"\\\"\" \'\\\'\'",
        "Str 0 6;Semi 6 6;Str 7 11;Rune 12 16;Semi 16 16;End 16 16;",
    ),
    (b"'\xE2\x82\xAC'", "Rune 0 5;Semi 5 5;End 5 5;"),
    (b"break", "Break 0 5;Semi 5 5;End 5 5;"),
    (b"case", "Case 0 4;End 4 4;"),
    (b"chan", "Chan 0 4;End 4 4;"),
    (b"const", "Const 0 5;End 5 5;"),
    (b"continue", "Continue 0 8;Semi 8 8;End 8 8;"),
    (b"default", "Default 0 7;End 7 7;"),
    (b"defer", "Defer 0 5;End 5 5;"),
    (b"else", "Else 0 4;End 4 4;"),
    (b"fallthrough", "Fallthrough 0 11;Semi 11 11;End 11 11;"),
    (b"for", "For 0 3;End 3 3;"),
    (b"func", "Func 0 4;End 4 4;"),
    (b"go", "Go 0 2;End 2 2;"),
    (b"goto", "Goto 0 4;End 4 4;"),
    (b"if", "If 0 2;End 2 2;"),
    (b"import", "Import 0 6;End 6 6;"),
    (b"interface", "Interface 0 9;End 9 9;"),
    (b"map", "Map 0 3;End 3 3;"),
    (b"package", "Package 0 7;End 7 7;"),
    (b"range", "Range 0 5;End 5 5;"),
    (b"return", "Return 0 6;Semi 6 6;End 6 6;"),
    (b"select", "Select 0 6;End 6 6;"),
    (b"struct", "Struct 0 6;End 6 6;"),
    (b"switch", "Switch 0 6;End 6 6;"),
    (b"type", "Type 0 4;End 4 4;"),
    (b"var", "Var 0 3;End 3 3;"),
    (b"<<=", "ShlAssign 0 3;End 3 3;"),
    (b">>=", "ShrAssign 0 3;End 3 3;"),
    (b"&^=", "AndNotAssign 0 3;End 3 3;"),
    (b"...", "Ellipsis 0 3;End 3 3;"),
    (b"+=", "AddAssign 0 2;End 2 2;"),
    (b"-=", "SubAssign 0 2;End 2 2;"),
    (b"*=", "MulAssign 0 2;End 2 2;"),
    (b"/=", "DivAssign 0 2;End 2 2;"),
    (b"%=", "RemAssign 0 2;End 2 2;"),
    (b"&=", "AndAssign 0 2;End 2 2;"),
    (b"|=", "OrAssign 0 2;End 2 2;"),
    (b"^=", "XorAssign 0 2;End 2 2;"),
    (b"<<", "Shl 0 2;End 2 2;"),
    (b">>", "Shr 0 2;End 2 2;"),
    (b"&^", "AndNot 0 2;End 2 2;"),
    (b"&&", "LogicalAnd 0 2;End 2 2;"),
    (b"||", "LogicalOr 0 2;End 2 2;"),
    (b"<-", "Arrow 0 2;End 2 2;"),
    (b"++", "Inc 0 2;Semi 2 2;End 2 2;"),
    (b"--", "Dec 0 2;Semi 2 2;End 2 2;"),
    (b"==", "Equal 0 2;End 2 2;"),
    (b"!=", "NotEqual 0 2;End 2 2;"),
    (b"<=", "LessEqual 0 2;End 2 2;"),
    (b">=", "GreaterEqual 0 2;End 2 2;"),
    (b":=", "Define 0 2;End 2 2;"),
    (b"+", "Add 0 1;End 1 1;"),
    (b"-", "Sub 0 1;End 1 1;"),
    (b"*", "Mul 0 1;End 1 1;"),
    (b"/", "Div 0 1;End 1 1;"),
    (b"%", "Rem 0 1;End 1 1;"),
    (b"&", "And 0 1;End 1 1;"),
    (b"|", "Or 0 1;End 1 1;"),
    (b"^", "Xor 0 1;End 1 1;"),
    (b"<", "Less 0 1;End 1 1;"),
    (b">", "Greater 0 1;End 1 1;"),
    (b"=", "Assign 0 1;End 1 1;"),
    (b"!", "Not 0 1;End 1 1;"),
    (b"~", "Tilde 0 1;End 1 1;"),
    (b"(", "LParen 0 1;End 1 1;"),
    (b"[", "LBracket 0 1;End 1 1;"),
    (b"{", "LBrace 0 1;End 1 1;"),
    (b",", "Comma 0 1;End 1 1;"),
    (b".", "Period 0 1;End 1 1;"),
    (b")", "RParen 0 1;Semi 1 1;End 1 1;"),
    (b"]", "RBracket 0 1;Semi 1 1;End 1 1;"),
    (b"}", "RBrace 0 1;Semi 1 1;End 1 1;"),
    (b";", "Semi 0 1;End 1 1;"),
    (b":", "Colon 0 1;End 1 1;"),
];

// Texts, and their first faults.
const FAULTS: [(&[u8], ScanKind, usize); 55] = [
    (b"x \xFF", ScanKind::BadUtf8, 2),
    (b"// \xC3(", ScanKind::BadUtf8, 3),
    (b"/* \xED\xA0\x80 */", ScanKind::BadUtf8, 3),
    (b"\"a\xE2\x82", ScanKind::BadUtf8, 2),
    (b"a\xC0\x80", ScanKind::BadUtf8, 1),
    (b"a\x00b", ScanKind::BadByte, 1),
    (b"x \xEF\xBB\xBFy", ScanKind::BadByte, 2),
    (b"\xEF\xBB\xBF\xEF\xBB\xBF", ScanKind::BadByte, 3),
    (b"`\x00`", ScanKind::BadByte, 1),
    (b"// \xEF\xBB\xBF", ScanKind::BadByte, 3),
    (b"a # b", ScanKind::BadByte, 2),
    (b"x?", ScanKind::BadByte, 1),
    (b"\xE2\x82\xAC", ScanKind::BadByte, 0),
    (b"a \\", ScanKind::BadByte, 2),
    (b"\xD9\xA3", ScanKind::BadByte, 0),
    (b"x /* y", ScanKind::OpenComment, 2),
    (b"/*/", ScanKind::OpenComment, 0),
    (b" 0x", ScanKind::BadNumber, 1),
    (b"0b12", ScanKind::BadNumber, 0),
    (b"0o8", ScanKind::BadNumber, 0),
    (b"08", ScanKind::BadNumber, 0),
    (b"1_", ScanKind::BadNumber, 0),
    (b"1__0", ScanKind::BadNumber, 0),
    (b"0x_", ScanKind::BadNumber, 0),
    (b"0_9", ScanKind::BadNumber, 0),
    (b"x 1.5", ScanKind::FloatLiteral, 2),
    (b"1.", ScanKind::FloatLiteral, 0),
    (b".5", ScanKind::FloatLiteral, 0),
    (b"1e9", ScanKind::FloatLiteral, 0),
    (b"0x1p3", ScanKind::FloatLiteral, 0),
    (b"09.5", ScanKind::FloatLiteral, 0),
    (b"1_E", ScanKind::FloatLiteral, 0),
    (b" 2i", ScanKind::ImaginaryLiteral, 1),
    (b"09i", ScanKind::ImaginaryLiteral, 0),
    (
        b"170141183460469231731687303715884105728",
        ScanKind::ConstTooBig,
        0,
    ),
    (
        b"0x80000000_00000000_00000000_00000000",
        ScanKind::ConstTooBig,
        0,
    ),
    (b"\"a\\q\"", ScanKind::BadEscape, 2),
    (b"\"\\\'\"", ScanKind::BadEscape, 1),
    (b"\'\\\"\'", ScanKind::BadEscape, 1),
    (b"\"\\400\"", ScanKind::BadEscape, 1),
    (b"\"\\x4\"", ScanKind::BadEscape, 1),
    (b"\"\\uD800\"", ScanKind::BadEscape, 1),
    (b"\"\\uDFFF\"", ScanKind::BadEscape, 1),
    (b"\"\\U00110000\"", ScanKind::BadEscape, 1),
    (b"\"\\", ScanKind::BadEscape, 1),
    (b"\'ab\\q", ScanKind::BadEscape, 3),
    (b"x \'\'", ScanKind::BadRune, 2),
    (b"\'ab\'", ScanKind::BadRune, 0),
    (b"\'a\n", ScanKind::BadRune, 0),
    (b"\'a", ScanKind::BadRune, 0),
    (b"\'\\n\\n\'", ScanKind::BadRune, 0),
    (b"\'\xE2\x82\xACa\'", ScanKind::BadRune, 0),
    (b"x \"a\n\"", ScanKind::NewlineInString, 2),
    (b"x \"a", ScanKind::OpenString, 2),
    (b"`a\n", ScanKind::OpenString, 0),
];

// Literals, and the numbers that they stand for.
const NUMBERS: [(&[u8], i128); 24] = [
    (b"0", 0),
    (b"007", 7),
    (b"0_7", 7),
    (b"0o17", 15),
    (b"0O17", 15),
    (b"0b1_01", 5),
    (b"0B11", 3),
    (b"0x_Ff", 255),
    (b"0XfF", 255),
    (b"1_234", 1234),
    (b"170141183460469231731687303715884105727", i128::MAX),
    (b"0x7fffffffffffffffffffffffffffffff", i128::MAX),
    (b"0000000000000000000000000000000000000000000000000001", 1),
    (b"'a'", 97),
    (b"'\\n'", 10),
    (b"'\\''", 39),
    (b"'\\377'", 255),
    (b"'\\xfF'", 255),
    (b"'\\u20AC'", 0x20AC),
    (b"'\\U0010FFFF'", 0x10FFFF),
    (b"'\\uD7FF'", 0xD7FF),
    (b"'\\uE000'", 0xE000),
    (b"'\xF0\x9F\x98\x80'", 0x1F600),
    (b"'\\000'", 0),
];

// Literals, and the bytes that they stand for.
const STRINGS: [(&[u8], &[u8]); 7] = [
    (b"\"\"", b""),
    (b"\"a\\tb\"", b"a\tb"),
    (
        b"\"\\a\\b\\f\\n\\r\\t\\v\\\\\\\"\"",
        b"\x07\x08\x0C\n\r\t\x0B\\\"",
    ),
    (b"\"\\xFF\\377\\101\"", b"\xFF\xFFA"),
    (
        b"\"\\u00e9\\U0001F600\xC3\xA9\"",
        b"\xC3\xA9\xF0\x9F\x98\x80\xC3\xA9",
    ),
    (b"`a\r\n\\n\"`", b"a\n\\n\""),
    (b"\"\r\"", b"\r"),
];

// One token after another.
fn listed(alloc: Global, tokens: &[Token]) -> Result<String, AllocError> {
    let mut text = String::new(alloc);
    for token in tokens {
        let kind = token.kind;
        let start = token.start;
        let end = token.end;
        let line = format!(in alloc; "{kind:?} {start} {end};")?;
        text.push_str(line.as_str())?;
    }
    Ok(text)
}

fn expect_tokens(rt: &impl Abort, alloc: Global, text: &[u8], want: &str) -> Result<(), Fail> {
    assert!(rt; text.len() < 1000);
    let found = tokens(alloc, text)?;
    let found = listed(alloc, found.as_slice())?;
    assert_eq!(rt; found.as_str(), want, "{text:?}");
    Ok(())
}

#[test]
fn tokens_of_texts(rt: HostRuntime) -> Result<(), Fail> {
    for row in TEXTS.as_slice() {
        expect_tokens(&rt, rt.alloc(), row.0, row.1)?;
    }
    Ok(())
}

fn expect_fault(rt: &impl Abort, alloc: Global, text: &[u8], want: ScanFault) {
    assert!(rt; text.len() < 1000);
    match tokens(alloc, text) {
        Err(TokensFault::Scan(found)) => assert_eq!(rt; found, want, "{text:?}"),
        _ => panic!(rt; "{text:?}"),
    }
}

#[test]
fn faults_of_texts(rt: HostRuntime) {
    for row in FAULTS.as_slice() {
        let fault = ScanFault {
            kind: row.1,
            at: row.2,
        };
        expect_fault(&rt, rt.alloc(), row.0, fault);
    }
}

// Whether a token is a literal.
fn is_literal(kind: TokenKind) -> bool
    ensures { result ≡ is_literal kind }
{
    matches!(kind, TokenKind::Int | TokenKind::Rune | TokenKind::Str)
}

// The value of the first of a text's tokens, if that is a literal.
fn literal_value(alloc: Global, text: &[u8], found: &[Token]) -> Result<Option<Value>, NoMemory>
    requires { Tokens text.now found.now }
{
    if found.is_empty() {
        return Ok(None);
    }
    let token = found[0];
    if !is_literal(token.kind) {
        return Ok(None);
    }
    let value = value_of(alloc, text, &token)?;
    Ok(Some(value))
}

fn first_value(rt: &impl Abort, alloc: Global, text: &[u8]) -> Result<Option<Value>, Fail> {
    assert!(rt; text.len() < 1000);
    let found = tokens(alloc, text)?;
    let value = literal_value(alloc, text, found.as_slice())?;
    Ok(value)
}

fn expect_number(rt: &impl Abort, alloc: Global, text: &[u8], number: i128) -> Result<(), Fail> {
    match first_value(rt, alloc, text)? {
        Some(Value::Whole(found)) => assert_eq!(rt; found, number, "{text:?}"),
        _ => panic!(rt; "{text:?}"),
    }
    Ok(())
}

fn expect_string(rt: &impl Abort, alloc: Global, text: &[u8], bytes: &[u8]) -> Result<(), Fail> {
    match first_value(rt, alloc, text)? {
        Some(Value::Str(found)) => assert_eq!(rt; found.bytes(), bytes, "{text:?}"),
        _ => panic!(rt; "{text:?}"),
    }
    Ok(())
}

#[test]
fn values_of_literals(rt: HostRuntime) -> Result<(), Fail> {
    for row in NUMBERS.as_slice() {
        expect_number(&rt, rt.alloc(), row.0, row.1)?;
    }
    for row in STRINGS.as_slice() {
        expect_string(&rt, rt.alloc(), row.0, row.1)?;
    }
    Ok(())
}

#[test]
fn places_count_bytes(rt: HostRuntime) -> Result<(), Fail> {
    let text = "\u{FEFF}é := `x\n`\n\ty";
    let found = tokens(rt.alloc(), text.as_bytes())?;
    let mut places = String::new(rt.alloc());
    for token in found.iter() {
        let line = token.line;
        let col = token.col;
        let place = format!(in rt.alloc(); "{line}:{col};")?;
        places.push_str(place.as_str())?;
    }
    assert_eq!(rt; places.as_str(), "1:4;1:7;1:10;2:2;3:2;3:3;3:3;");
    Ok(())
}

#[test]
fn scanner_repeats_its_end(rt: HostRuntime) -> Result<(), Fail> {
    let mut scanner = Scanner::new(b"x");
    let mut faulty = Scanner::new(b"x #");
    let first = [scanner.next(), scanner.next(), scanner.next()];
    assert_eq!(rt; scanner.next(), first[2]);
    let name = faulty.next();
    assert_eq!(rt; name, first[0]);
    let fault = ScanFault {
        kind: ScanKind::BadByte,
        at: 2,
    };
    assert_eq!(rt; faulty.next(), Err(fault));
    assert_eq!(rt; faulty.next(), Err(fault));
    Ok(())
}
