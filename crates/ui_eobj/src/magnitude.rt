ghost use Rattle.std.specs.Prelude.{◌≡◌, ◌≢◌, ◌<◌, ◌≤◌, ◌^◌, MatchOption, IfOk, slice_index};
ghost use Rattle.ui_eobj.specs.Values as values;

use std::alloc::Global;
use ui_frame::NoMemory;

/// The number that bytes spell, most significant first, or nothing where it passes 128 bits.
pub fn magnitude_number(bytes: &[u8]) -> Option<u128>
    ensures { MatchOption result (2 ^ 128 ≤ values.magnitude bytes.now)
        (λ n. n ≡ values.magnitude bytes.now) }
{
    let mut number: u128 = 0;
    for byte in bytes {
        if number >= 1 << 120 {
            return None;
        }
        number = 256 * number + *byte as u128;
    }
    Some(number)
}

/// The shortest bytes of a number that isn't 0, most significant first.
pub fn magnitude_bytes(alloc: Global, number: u128) -> Result<Vec<u8>, NoMemory>
    requires { 0 < number }
    ensures number { IfOk result (λ v. values.magnitude v.items ≡ number) }
    ensures shortest { IfOk result (λ v. slice_index v.items 0 ≢ 0) }
{
    let mut bytes = Vec::new(alloc);
    let mut rest = number;
    while rest > 0 {
        bytes.push((rest % 256) as u8)?;
        rest /= 256;
    }
    bytes.reverse();
    Ok(bytes)
}

/// Whether bytes are the shortest of the magnitude of a number of this sign that passes 64 signed
/// bits and is a constant.
pub fn is_big(negative: bool, bytes: &[u8]) -> bool
    ensures { result ≡ values.is_big negative bytes.now }
{
    if bytes.is_empty() || bytes[0] == 0 {
        return false;
    }
    match magnitude_number(bytes) {
        Some(number) => is_past_64(negative, number),
        None => false,
    }
}

fn is_past_64(negative: bool, number: u128) -> bool
    ensures { result ≡ values.is_past_64 negative number }
{
    if negative {
        number > 1 << 63 && number <= 1 << 127
    } else {
        number >= 1 << 63 && number < 1 << 127
    }
}

/// Whether bytes are such a magnitude of either sign.
pub fn is_magnitude(bytes: &[u8]) -> bool
    ensures { result ≡ values.is_magnitude bytes.now }
{
    is_big(false, bytes) || is_big(true, bytes)
}
