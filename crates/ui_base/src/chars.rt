ghost use Rattle.std.specs.Prelude.{◌≡◌};
ghost use Rattle.ui_base.specs.Chars as chars;

use ucd_category::GeneralCategory;

/// Whether a character is a letter of an identifier: `_`, or of category Lu, Ll, Lt, Lm or Lo.
#[tactic(auto, unfolding(crate::specs::Chars::is_letter))]
pub fn is_letter(c: char) -> bool
    ensures { result ≡ chars.is_letter c }
{
    c == '_'
        || match GeneralCategory::for_char(c) {
            GeneralCategory::UppercaseLetter
            | GeneralCategory::LowercaseLetter
            | GeneralCategory::TitlecaseLetter
            | GeneralCategory::ModifierLetter
            | GeneralCategory::OtherLetter => true,
            _ => false,
        }
}

/// Whether a character is a digit of an identifier: of category Nd.
#[tactic(auto, unfolding(crate::specs::Chars::is_digit))]
pub fn is_digit(c: char) -> bool
    ensures { result ≡ chars.is_digit c }
{
    match GeneralCategory::for_char(c) {
        GeneralCategory::DecimalNumber => true,
        _ => false,
    }
}

/// Whether a character is a capital: of category Lu.
#[tactic(auto, unfolding(crate::specs::Chars::is_upper))]
pub fn is_upper(c: char) -> bool
    ensures { result ≡ chars.is_upper c }
{
    match GeneralCategory::for_char(c) {
        GeneralCategory::UppercaseLetter => true,
        _ => false,
    }
}
