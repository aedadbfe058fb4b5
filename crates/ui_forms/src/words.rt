// The words of a source.
ghost use Rattle.std.specs.Prelude.{◌≡◌};
ghost use Rattle.std.specs.List.{list_all};
ghost use Rattle.ui_base.specs.Names.{begins_with};
ghost use Rattle.ui_forms.specs.Words as words;

use ui_base::is_keyword;

// A letter; `_` is one.
fn is_letter(byte: u8) -> bool
    ensures { result ≡ words.is_letter byte }
{
    matches!(byte, b'A'..=b'Z' | b'a'..=b'z' | b'_')
}

// Whether the first byte is a letter.
fn begins_with_letter(bytes: &[u8]) -> bool
    ensures { result ≡ begins_with words.is_letter bytes.now }
{
    match bytes.first() {
        Some(first) => is_letter(*first),
        None => false,
    }
}

// Whether the first byte is a capital.
fn begins_with_capital(bytes: &[u8]) -> bool
    ensures { result ≡ begins_with words.is_capital bytes.now }
{
    match bytes.first() {
        Some(first) => matches!(*first, b'A'..=b'Z'),
        None => false,
    }
}

// Whether all bytes are letters and digits.
fn has_letters_and_digits(bytes: &[u8]) -> bool
    ensures { result ≡ list_all words.is_letter_or_digit bytes.now }
{
    bytes
        .iter()
        .all(|byte| is_letter(*byte) || matches!(*byte, b'0'..=b'9'))
}

/// Whether the bytes are an ASCII identifier: letters, digits and `_`, the first no digit.
pub fn is_ascii_name(bytes: &[u8]) -> bool
    ensures { result ≡ words.is_ascii_name bytes.now }
{
    begins_with_letter(bytes) && has_letters_and_digits(bytes)
}

// Whether the bytes are the name of a constant: an identifier that begins with a capital.
pub(crate) fn is_constant_name(bytes: &[u8]) -> bool
    ensures { result ≡ words.is_constant_name bytes.now }
{
    begins_with_capital(bytes) && is_ascii_name(bytes)
}

// What stands behind the last slash, or everything.
pub(crate) fn last_segment(path: &[u8]) -> &[u8]
    ensures { result.now ≡ words.last_segment path.now }
{
    let mut start = path.len();
    while start > 0 && path[start - 1] != b'/' {
        start -= 1;
    }
    &path[start..]
}

// Whether a package of this path may have the name.
pub(crate) fn is_package_name(path: &[u8], name: &[u8]) -> bool
    ensures { result ≡ words.is_package_name path.now name.now }
{
    name == last_segment(path)
        && is_ascii_name(name)
        && name != b"_".as_slice()
        && !is_keyword(name)
}
