ghost use Rattle.std.specs.Prelude.{◌≡◌, IfOk, bytes_eq, slice_get};
ghost use Rattle.std.specs.List.{list_all, list_any};
ghost use Rattle.std.specs.Str.{chars};
ghost use Rattle.ui_base.specs.Chars as letters;
ghost use Rattle.ui_base.specs.Names as names;

use crate::chars::{is_digit, is_letter, is_upper};
use crate::items::Items;
use crate::text::{NoMemory, Text};
use std::alloc::Global;

/// A declared name: its package's path, and the name itself. The name of a field or method has the
/// empty path exactly where it is exported.
#[derive(Debug, Drop, PartialEq, Eq, Hash)]
pub struct Name {
    pub path: Text,
    pub name: Text,
}

/// A list of names.
pub type Names = Items<Name>;

impl Name {
    /// A name of its own with the same texts.
    pub fn copy(&self, alloc: Global) -> Result<Name, NoMemory>
        ensures { IfOk result (λ n. n ≡ self.now) }
    {
        let path = self.path.copy(alloc)?;
        let name = self.name.copy(alloc)?;
        Ok(Name { path, name })
    }
}

/// The words that are no names, ascending. Go specification, "Keywords".
const KEYWORDS: [&str; 25] = [
    "break",
    "case",
    "chan",
    "const",
    "continue",
    "default",
    "defer",
    "else",
    "fallthrough",
    "for",
    "func",
    "go",
    "goto",
    "if",
    "import",
    "interface",
    "map",
    "package",
    "range",
    "return",
    "select",
    "struct",
    "switch",
    "type",
    "var",
];

// Whether the bytes are one of the words.
fn is_among(words: &[&str], bytes: &[u8]) -> bool
    ensures { result ≡ list_any (λ word. bytes_eq word.now bytes.now) words.now }
{
    words.iter().any(|word| word.as_bytes() == bytes)
}

/// Whether the bytes are one of the 25 keywords.
#[tactic(auto, unfolding(crate::specs::Names::is_keyword))]
pub fn is_keyword(bytes: &[u8]) -> bool
    ensures { result ≡ names.is_keyword bytes.now }
{
    is_among(&KEYWORDS, bytes)
}

// The first character of a text.
fn first_char(text: &str) -> Option<char>
    ensures { result ≡ slice_get (chars text.now) 0 }
{
    text.chars().next()
}

// Whether a text begins with a letter.
fn begins_with_letter(text: &str) -> bool
    ensures { result ≡ names.begins_with letters.is_letter (chars text.now) }
{
    match first_char(text) {
        Some(first) => is_letter(first),
        None => false,
    }
}

// Whether a text has letters and digits alone.
fn has_letters_and_digits(text: &str) -> bool
    ensures { result ≡ list_all names.continues (chars text.now) }
{
    text.chars().all(|c| is_letter(c) || is_digit(c))
}

// Whether a text is letters and digits, the first of them a letter.
fn is_identifier(text: &str) -> bool
    ensures { result ≡ names.is_identifier (chars text.now) }
{
    begins_with_letter(text) && has_letters_and_digits(text)
}

/// Whether the bytes are a name: an identifier in UTF-8 that is no keyword. Go specification,
/// "Identifiers".
pub fn is_name(bytes: &[u8]) -> bool
    ensures { result ≡ names.is_name bytes.now }
{
    match str::from_utf8(bytes) {
        Ok(text) => is_identifier(text) && !is_keyword(bytes),
        Err(_) => false,
    }
}

// Whether a text begins with a capital.
fn begins_with_upper(text: &str) -> bool
    ensures { result ≡ names.begins_with letters.is_upper (chars text.now) }
{
    match first_char(text) {
        Some(first) => is_upper(first),
        None => false,
    }
}

/// Whether the bytes begin with a character of category Lu. Go specification, "Exported
/// identifiers".
#[tactic(auto, unfolding(crate::specs::Names::is_exported))]
pub fn is_exported(bytes: &[u8]) -> bool
    ensures { result ≡ names.is_exported bytes.now }
{
    match bytes.utf8_chunks().next() {
        Some(chunk) => begins_with_upper(chunk.valid()),
        None => false,
    }
}
