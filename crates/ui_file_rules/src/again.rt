ghost use Rattle.std.specs.Prelude.{◌≡◌, IfOk, length};
ghost use Rattle.std.specs.Bool.{Decides};
ghost use Rattle.ui_file.specs.Rules.{IsNew};
ghost use Rattle.ui_file_rules.specs.First.{FirstOf};
ghost use Rattle.ui_file_rules.specs.Seen.{seen_of, IsInserted};

use indexmap::IndexSet;
use std::alloc::Global;
use std::hash::Hash;
use ui_frame::NoMemory;

// Puts a value into the set; whether it was there.
fn insert_new<'a, T: Eq + Hash>(seen: &mut IndexSet<&'a T>, x: &'a T) -> Result<bool, NoMemory>
    ensures { IfOk result (λ was. IsInserted T.eq (seen_of seen.old.keys)
        (seen_of seen.new.keys) x.now was) }
{
    let (_, is_new) = seen.insert_full(x)?;
    Ok(!is_new)
}

/// The first of the items that is equal to one before it.
pub(crate) fn first_again<T: Eq + Hash>(
    alloc: Global,
    items: &[T],
) -> Result<Option<usize>, NoMemory>
    requires { (a b : T) → Decides (T.eq a b) (a ≡ b) }
    ensures { IfOk result (λ o. (d : T) → FirstOf (IsNew items.now d) (length items.now) o) }
{
    let mut seen = IndexSet::new(alloc);
    for k in 0..items.len() {
        if insert_new(&mut seen, &items[k])? {
            return Ok(Some(k));
        }
    }
    Ok(None)
}
