ghost use Rattle.std.specs.Prelude.{◌≡◌, ℕ, Bool, true, Some, None, if◌then◌else◌};
ghost use Rattle.ui_file_rules.specs.First.{FirstOf};

/// A test of numbers, each by itself.
pub trait Test {
    ghost passes: { Self → ℕ → Bool };

    /// Whether a number passes.
    fn holds(&self, k: usize) -> bool
        ensures { result ≡ passes self.now k };
}

/// The first of so many numbers that doesn't pass.
pub fn first_not<R: Test>(test: &R, count: usize) -> Option<usize>
    ensures { FirstOf (λ k. R.passes test.now k ≡ true) count result }
{
    for k in 0..count {
        if !test.holds(k) {
            return Some(k);
        }
    }
    None
}

/// The first number, where the one test of all isn't kept.
pub fn first_or_none(kept: bool) -> Option<usize>
    ensures { result ≡ (if kept then None else Some 0) }
{
    if kept { None } else { Some(0) }
}
