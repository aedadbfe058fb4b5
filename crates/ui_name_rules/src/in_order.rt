ghost use Rattle.std.specs.Prelude.{◌≡◌, Bool};
ghost use Rattle.ui_file.specs.Rules.{all_pairs};

/// An order of neighbours in a list.
pub(crate) trait Order<T> {
    ghost before: { Self → T → T → Bool };

    /// Whether one may stand just before another.
    fn is_before(&self, one: &T, other: &T) -> bool
        ensures { result ≡ before self.now one.now other.now };
}

/// Whether each item but the first stands so to the one before it.
#[tactic(auto, using(crate::proofs::Pairs::none_ordered, crate::proofs::Pairs::more_ordered, crate::proofs::Pairs::disordered, crate::proofs::Pairs::all_ordered))]
pub(crate) fn are_in_order<T, R: Order<T>>(order: &R, items: &[T]) -> bool
    ensures { result ≡ all_pairs (R.before order.now) items.now }
{
    for k in 1..items.len() {
        if !order.is_before(&items[k - 1], &items[k]) {
            return false;
        }
    }
    true
}
