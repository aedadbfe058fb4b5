/// What a token is. Each keyword and each operator has a variant of its own.
#[derive(Clone, Copy, Debug, PartialEq, Eq)]
pub enum TokenKind {
    /// An identifier that is no keyword.
    Ident,
    /// A whole number.
    Int,
    /// A character in single quotes.
    Rune,
    /// A string, raw or with escapes.
    Str,
    /// `;`, or a semicolon of empty span at the end of a line.
    Semi,
    /// The end of the bytes.
    End,
    Break,
    Case,
    Chan,
    Const,
    Continue,
    Default,
    Defer,
    Else,
    Fallthrough,
    For,
    Func,
    Go,
    Goto,
    If,
    Import,
    Interface,
    Map,
    Package,
    Range,
    Return,
    Select,
    Struct,
    Switch,
    Type,
    Var,
    /// `+`
    Add,
    /// `-`
    Sub,
    /// `*`
    Mul,
    /// `/`
    Div,
    /// `%`
    Rem,
    /// `&`
    And,
    /// `|`
    Or,
    /// `^`
    Xor,
    /// `<<`
    Shl,
    /// `>>`
    Shr,
    /// `&^`
    AndNot,
    /// `+=`
    AddAssign,
    /// `-=`
    SubAssign,
    /// `*=`
    MulAssign,
    /// `/=`
    DivAssign,
    /// `%=`
    RemAssign,
    /// `&=`
    AndAssign,
    /// `|=`
    OrAssign,
    /// `^=`
    XorAssign,
    /// `<<=`
    ShlAssign,
    /// `>>=`
    ShrAssign,
    /// `&^=`
    AndNotAssign,
    /// `&&`
    LogicalAnd,
    /// `||`
    LogicalOr,
    /// `<-`
    Arrow,
    /// `++`
    Inc,
    /// `--`
    Dec,
    /// `==`
    Equal,
    /// `<`
    Less,
    /// `>`
    Greater,
    /// `=`
    Assign,
    /// `!`
    Not,
    /// `~`
    Tilde,
    /// `!=`
    NotEqual,
    /// `<=`
    LessEqual,
    /// `>=`
    GreaterEqual,
    /// `:=`
    Define,
    /// `...`
    Ellipsis,
    /// `(`
    LParen,
    /// `[`
    LBracket,
    /// `{`
    LBrace,
    /// `,`
    Comma,
    /// `.`
    Period,
    /// `)`
    RParen,
    /// `]`
    RBracket,
    /// `}`
    RBrace,
    /// `:`
    Colon,
}

/// Why no token begins, or why one that begins is none.
#[derive(Clone, Copy, Debug, PartialEq, Eq)]
pub enum ScanKind {
    /// Bytes that are not UTF-8.
    BadUtf8,
    /// A zero byte, U+FEFF past the start, or a character that begins no token.
    BadByte,
    /// A general comment that the bytes end in.
    OpenComment,
    /// A number without digits, with a digit outside its base, or with `_` at a wrong place.
    BadNumber,
    /// A number with a point or an exponent.
    FloatLiteral,
    /// A number that `i` follows.
    ImaginaryLiteral,
    /// A whole number past 2^127 - 1.
    ConstTooBig,
    /// A backslash that begins no escape, or one of no character.
    BadEscape,
    /// Single quotes with other than one character or escape, or without an end.
    BadRune,
    /// A line's end within double quotes.
    NewlineInString,
    /// A string that the bytes end in.
    OpenString,
}

/// A token: its kind, the offsets of its first byte and behind its last, and the line and column of
/// its start, both from 1. A column counts bytes.
#[derive(Clone, Copy, Debug, PartialEq, Eq)]
pub struct Token {
    pub kind: TokenKind,
    pub start: u32,
    pub end: u32,
    pub line: u32,
    pub col: u32,
}

/// The fault that ends a scan, and the offset at which it stands.
#[derive(Clone, Copy, Debug, PartialEq, Eq)]
pub struct ScanFault {
    pub kind: ScanKind,
    pub at: usize,
}
