// Numbers and truth values as bytes, each in its shortest spelling.
ghost use Rattle.std.specs.Prelude.{◌≡◌, ◌↔◌, ℕ, ℤ, Bool, List, take, ◌+◌, ◌<◌, ◌≤◌, ◌^◌, ◌++◌};
ghost use Rattle.std.specs.Prelude.{length, drop, IfOk, OnOk, OnErr};
ghost use Rattle.ui_frame.specs.Laws.{IsBytes};
ghost use Rattle.ui_frame.specs.Number.{AppendsFront, IsCutUint, IsUint, uint, int, truth, zigzag};
ghost use Rattle.ui_frame.specs.declared.number.NumFault.{NumFault};
ghost use Rattle.ui_frame.specs.Reading.{number_at, uint_at, int_at, truth_at, placed};

use crate::NoMemory;
use std::alloc::Global;

/// Why no number or truth value stands at a place.
#[derive(Clone, Copy, Debug, PartialEq, Eq)]
pub enum NumFault {
    /// The bytes end inside the spelling.
    Cut,
    /// The spelling isn't the shortest one, or its number passes 64 bits.
    LongNumber,
    /// The byte of a truth value is neither 0 nor 1.
    BadBool,
}

// A number of at most `limit` at the front, and how many bytes it takes.
fn leading_number(bytes: &[u8], limit: u64) -> Result<(u64, usize), NumFault>
    ensures read { result ≡ number_at limit bytes.now }
    ensures bound { IfOk result (λ x. x.0 ≤ limit) }
    ensures length { IfOk result (λ x. x.1 ≤ length bytes.now) }
    ensures some { IfOk result (λ x. 0 < x.1) }
{
    match bytes {
        [] => Err(NumFault::Cut),
        [byte, rest @ ..] => {
            let byte = *byte as u64;
            if byte < 128 {
                if limit < byte {
                    return Err(NumFault::LongNumber);
                }
                return Ok((byte, 1));
            }
            if limit < 128 {
                return Err(NumFault::LongNumber);
            }
            let (high, len) = leading_number(rest, (limit - (byte - 128)) / 128)?;
            if high == 0 {
                return Err(NumFault::LongNumber);
            }
            Ok(((byte - 128) + 128 * high, len + 1))
        }
    }
}

/// The number at a place, and the place after it. Fails with `Cut` or `LongNumber`. Takes no
/// memory.
#[tactic(auto, unfolding(crate::specs::Reading::uint_at))]
pub fn get_uint(bytes: &[u8], at: usize) -> Result<(u64, usize), NumFault>
    requires { at ≤ length bytes.now }
    ensures read { result ≡ placed at (uint_at (drop at bytes.now)) }
    ensures within { IfOk result (λ x. x.1 ≤ length bytes.now) }
    ensures after { IfOk result (λ x. at < x.1) }
{
    let (n, len) = leading_number(&bytes[at..], u64::MAX)?;
    Ok((n, at + len))
}

/// The signed number at a place, and the place after it. Fails with `Cut` or `LongNumber`. Takes no
/// memory.
#[tactic(auto, unfolding(crate::specs::Reading::int_at))]
pub fn get_int(bytes: &[u8], at: usize) -> Result<(i64, usize), NumFault>
    requires { at ≤ length bytes.now }
    ensures read { result ≡ placed at (int_at (drop at bytes.now)) }
    ensures within { IfOk result (λ x. x.1 ≤ length bytes.now) }
    ensures after { IfOk result (λ x. at < x.1) }
{
    let (n, next) = get_uint(bytes, at)?;
    let half = (n / 2) as i64;
    if n % 2 == 0 {
        Ok((half, next))
    } else {
        Ok((-half - 1, next))
    }
}

/// The truth value at a place, and the place after it. Fails with `Cut` or `BadBool`. Takes no
/// memory.
#[tactic(auto, unfolding(crate::specs::Reading::truth_at))]
pub fn get_bool(bytes: &[u8], at: usize) -> Result<(bool, usize), NumFault>
    requires { at ≤ length bytes.now }
    ensures read { result ≡ placed at (truth_at (drop at bytes.now)) }
    ensures within { IfOk result (λ x. x.1 ≤ length bytes.now) }
    ensures after { IfOk result (λ x. at < x.1) }
{
    match &bytes[at..] {
        [] => Err(NumFault::Cut),
        [0, ..] => Ok((false, at + 1)),
        [1, ..] => Ok((true, at + 1)),
        [_, ..] => Err(NumFault::BadBool),
    }
}

/// Appends a number. Without memory a front of it may stand there.
pub fn put_uint(alloc: Global, out: &mut Vec<u8>, n: u64) -> Result<(), NoMemory>
    ensures ok { OnOk result (out.new.items ≡ out.old.items ++ uint n) }
    ensures err { OnErr result (AppendsFront (uint n) out.old.items out.new.items) }
{
    let mut rest = n;
    while rest >= 128 {
        out.push((128 + rest % 128) as u8)?;
        rest /= 128;
    }
    out.push(rest as u8)?;
    Ok(())
}

/// Appends a signed number. Without memory a front of it may stand there.
pub fn put_int(alloc: Global, out: &mut Vec<u8>, n: i64) -> Result<(), NoMemory>
    ensures ok { OnOk result (out.new.items ≡ out.old.items ++ int n) }
    ensures err { OnErr result (AppendsFront (int n) out.old.items out.new.items) }
{
    let zigzag = if n >= 0 {
        2 * (n as u64)
    } else {
        2 * ((-(n + 1)) as u64) + 1
    };
    put_uint(alloc, out, zigzag)
}

/// Appends a truth value. Without memory nothing is appended.
pub fn put_bool(alloc: Global, out: &mut Vec<u8>, b: bool) -> Result<(), NoMemory>
    ensures ok { OnOk result (out.new.items ≡ out.old.items ++ truth b) }
    ensures err { OnErr result (out.new.items ≡ out.old.items) }
{
    out.push(if b { 1 } else { 0 })?;
    Ok(())
}

/// What is appended for a number is in the grammar of numbers, and nothing else is. No spelling
/// begins another. Reading finds exactly what is in the grammar, whatever follows it, and tells a
/// spelling that is cut from what begins no spelling.
pub fn one_spelling()
    ensures grammar { (n : ℕ) → n < 2 ^ 64 → IsUint (uint n) n }
    ensures only { (bytes : List ℕ) (n : ℕ) → n < 2 ^ 64 → IsUint bytes n → bytes ≡ uint n }
    ensures begins { (a b x y : List ℕ) (m n : ℕ) → IsUint a m → IsUint b n → a ++ x ≡ b ++ y
        → (a ≡ b) × (m ≡ n) }
    ensures read { (bytes : List ℕ) (n : ℕ) (rest : List ℕ) → n < 2 ^ 64 → IsUint bytes n
        → uint_at (bytes ++ rest) ≡ Ok (n, length bytes) }
    ensures found { (bytes : List ℕ) (x : ℕ × ℕ) → IsBytes bytes → uint_at bytes ≡ Ok x
        → IsUint (take x.1 bytes) x.0 × (x.0 < 2 ^ 64) }
    ensures cut { (bytes : List ℕ) → IsBytes bytes
        → (uint_at bytes ≡ Err NumFault.Cut) ↔ IsCutUint bytes }
    ensures faults { (bytes : List ℕ) → uint_at bytes ≡ Err NumFault.BadBool → ⊥ }
{}

/// The same for signed numbers, whose spelling is that of a number without a sign, and for truth
/// values.
pub fn one_signed_spelling()
    ensures read { (z : ℤ) (rest : List ℕ) → zigzag z < 2 ^ 64
        → int_at (int z ++ rest) ≡ Ok (z, length (int z)) }
    ensures found { (bytes : List ℕ) (x : ℤ × ℕ) → IsBytes bytes → int_at bytes ≡ Ok x
        → (take x.1 bytes ≡ int x.0) × (zigzag x.0 < 2 ^ 64) }
    ensures faults { (bytes : List ℕ) (fault : NumFault)
        → (int_at bytes ≡ Err fault) ↔ (uint_at bytes ≡ Err fault) }
    ensures truth_read { (b : Bool) (rest : List ℕ) → truth_at (truth b ++ rest) ≡ Ok (b, 1) }
    ensures truth_found { (bytes : List ℕ) (x : Bool × ℕ) → truth_at bytes ≡ Ok x
        → take x.1 bytes ≡ truth x.0 }
{}
