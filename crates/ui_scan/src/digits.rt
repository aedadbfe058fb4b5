//! Digits and their numbers.

ghost use Rattle.std.specs.Prelude.{◌≡◌, ◌≤◌, ◌<◌, ◌^◌, length, IfSome};
ghost use Rattle.ui_scan.specs.Digits as spec;

const GREATEST: u128 = (1 << 127) - 1;

// Below this a number can take one more digit in 64 bits.
const SHORT: u64 = 1 << 59;

/// What a digit stands for, and 16 for any other byte.
#[tactic(auto, unfolding(crate::specs::Digits::digit))]
pub fn digit(b: u8) -> u8
    ensures value { result ≡ spec.digit b }
    ensures bound { result ≤ 16 }
{
    match b {
        b'0'..=b'9' => b - b'0',
        b'a'..=b'f' => b - b'a' + 10,
        b'A'..=b'F' => b - b'A' + 10,
        _ => 16,
    }
}

/// Whether a byte is a digit of the base.
pub fn is_digit_of(base: u8, b: u8) -> bool
    ensures { result ≡ spec.is_digit_of base b }
{
    digit(b) < base
}

// The number that the digits stand for, unless it may not fit 64 bits.
fn short(base: u8, digits: &[u8]) -> Option<u64>
    requires low { 2 ≤ base }
    requires high { base ≤ 16 }
    ensures number { IfSome result (λ n. n ≡ spec.number_of base digits.now) }
    ensures small { IfSome result (λ n. n < 2 ^ 64) }
{
    let mut number: u64 = 0;
    for b in digits {
        if *b != b'_' {
            if SHORT <= number {
                return None;
            }
            number = number * u64::from(base) + u64::from(digit(*b));
        }
    }
    Some(number)
}

// The number that the digits stand for, unless it is past 2^127 - 1.
fn long(base: u8, digits: &[u8]) -> Option<u128>
    requires low { 2 ≤ base }
    requires high { base ≤ 16 }
    ensures { result ≡ spec.whole base digits.now }
{
    let mut number: u128 = 0;
    for b in digits {
        if *b != b'_' {
            let digit = u128::from(digit(*b));
            if number > (GREATEST - digit) / u128::from(base) {
                return None;
            }
            number = number * u128::from(base) + digit;
        }
    }
    Some(number)
}

/// The number that the digits stand for, unless it is past 2^127 - 1. A `_` stands for nothing.
pub fn whole(base: u8, digits: &[u8]) -> Option<u128>
    requires low { 2 ≤ base }
    requires high { base ≤ 16 }
    ensures { result ≡ spec.whole base digits.now }
{
    match short(base, digits) {
        Some(number) => Some(u128::from(number)),
        None => long(base, digits),
    }
}

// Whether a digit follows, or what is no `_`.
fn goes_on(bytes: &[u8]) -> bool
    ensures { result ≡ spec.goes_on bytes.now }
{
    match bytes {
        [] => false,
        [b, ..] => *b != b'_',
    }
}

/// Whether each byte is a digit of the base, or a `_` that a digit follows.
#[tactic(auto, unfolding(crate::specs::Digits::are_digits))]
pub fn are_digits(base: u8, digits: &[u8]) -> bool
    ensures { result ≡ spec.are_digits base digits.now }
{
    let mut left = digits;
    while let [b, rest @ ..] = left {
        if !is_digit_of(base, *b) && !(*b == b'_' && goes_on(rest)) {
            return false;
        }
        left = rest;
    }
    true
}
