// Bitwise operators on whole numbers. In 128 bits each number repeats its sign from bit 127 on, so
// no bit is lost.
ghost use Rattle.std.specs.Prelude.{◌≡◌};
ghost use Rattle.ui_const.specs.Bits.{whole_and, whole_or, whole_xor, whole_and_not};

// The bits that both have.
pub(crate) fn and(a: i128, b: i128) -> i128
    ensures { result ≡ whole_and a b }
{
    a & b
}

// The bits that one of them has.
pub(crate) fn or(a: i128, b: i128) -> i128
    ensures { result ≡ whole_or a b }
{
    a | b
}

// The bits that just one of them has.
pub(crate) fn xor(a: i128, b: i128) -> i128
    ensures { result ≡ whole_xor a b }
{
    a ^ b
}

// The bits of `a` that `b` lacks.
pub(crate) fn and_not(a: i128, b: i128) -> i128
    ensures { result ≡ whole_and_not a b }
{
    and(a, !b)
}
