//! Why a text has no tree, and where.

ghost use Rattle.std.specs.Prelude.{◌≡◌};
ghost use Rattle.ui_pexpr.specs.Faults as spec;
ghost use Rattle.ui_pexpr.specs.Forms as forms;

use ui_scan::{Token, TokenKind};

/// A form of Go that no tree stands for.
#[derive(Clone, Copy, Debug, PartialEq, Eq)]
pub enum Form {
    Chan,
    Defer,
    Fallthrough,
    Func,
    Go,
    Goto,
    Select,
    Type,
    Arrow,
    Ellipsis,
    /// An import of all names of a package; of files alone.
    DotImport,
    /// A string behind a struct's field.
    Tag,
    /// An alias with type parameters; of files alone.
    GenericAlias,
}

/// Why nothing was read. A place is the offset of a token's first byte, or the end of the bytes
/// where no token is left.
#[derive(Clone, Copy, Debug, PartialEq, Eq)]
pub enum ParseFault {
    /// No form goes on with the token.
    Unexpected { at: usize },
    /// Only a deeper form goes on with the token.
    TooDeep { at: usize },
    /// No form goes on with the token, which begins one that no tree stands for.
    Outside { at: usize, form: Form },
    /// An import's string is no path; of files alone.
    BadImportPath { at: usize },
    NoMemory,
}

/// The form without trees that a token begins wherever it is.
pub fn form_of(kind: TokenKind) -> Option<Form>
    ensures { result ≡ forms.form_of kind }
{
    match kind {
        TokenKind::Chan => Some(Form::Chan),
        TokenKind::Defer => Some(Form::Defer),
        TokenKind::Fallthrough => Some(Form::Fallthrough),
        TokenKind::Func => Some(Form::Func),
        TokenKind::Go => Some(Form::Go),
        TokenKind::Goto => Some(Form::Goto),
        TokenKind::Select => Some(Form::Select),
        TokenKind::Type => Some(Form::Type),
        TokenKind::Arrow => Some(Form::Arrow),
        TokenKind::Ellipsis => Some(Form::Ellipsis),
        _ => None,
    }
}

/// This form, where it is there.
pub fn form_if(holds: bool, form: Form) -> Option<Form>
    ensures { result ≡ forms.form_if holds form }
{
    if holds { Some(form) } else { None }
}

/// Where the tokens begin, or the bytes end.
pub fn first_offset(bytes: &[u8], tokens: &[Token]) -> usize
    ensures { result ≡ spec.first_offset bytes.now tokens.now }
{
    match tokens {
        [] => bytes.len(),
        [first, ..] => first.start as usize,
    }
}

/// The fault at a place, where it is known whether a deeper form goes on there, and which form
/// without trees begins there.
pub fn told(deep: bool, form: Option<Form>, at: usize) -> ParseFault
    ensures { result ≡ spec.told deep form at }
{
    if deep {
        return ParseFault::TooDeep { at };
    }
    match form {
        Some(form) => ParseFault::Outside { at, form },
        None => ParseFault::Unexpected { at },
    }
}

/// The kind of the first of these tokens.
pub fn first_kind(tokens: &[Token]) -> Option<TokenKind>
    ensures { result ≡ spec.first_kind tokens.now }
{
    match tokens {
        [] => None,
        [first, ..] => Some(first.kind),
    }
}
