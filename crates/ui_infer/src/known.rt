//! What is known of each type parameter.
ghost use Rattle.std.specs.Prelude.{◌≡◌, ◌<◌, ℕ, IfOk, IfSome, None, Some, length};
ghost use Rattle.ui_types.specs.Table.{IsId, tree};
ghost use Rattle.ui_infer.specs.Bindings as want;
ghost use Rattle.ui_infer.specs.Shown.{AreBindings, AreKnown, IsKnown, known_at, shown_binding};
ghost use Rattle.ui_infer.specs.Shown.{shown_bindings, shown_known, with_binding, with_type};

use crate::binding::Binding;
use std::alloc::Global;
use ui_types::{NoMemory, TypeId, TypeTable, is_identical};

/// The first type that a type parameter is to stand for, and the next that differs from it.
#[derive(Clone, Copy)]
pub struct Known {
    pub first: Option<TypeId>,
    pub other: Option<TypeId>,
}

impl Known {
    /// Nothing is known.
    pub fn nothing() -> Known
        ensures first { result.first ≡ None }
        ensures other { result.other ≡ None }
    {
        Known {
            first: None,
            other: None,
        }
    }

    /// The same with one more type that it is to stand for.
    pub fn with(self, table: &TypeTable, t: TypeId) -> Known
        requires known { IsKnown table.now self }
        requires t { IsId table.now t }
        ensures valid { IsKnown table.now result }
        ensures value { shown_known table.now result
            ≡ with_type (shown_known table.now self) (tree table.now t) }
    {
        match (self.first, self.other) {
            (None, _) => Known {
                first: Some(t),
                other: None,
            },
            (Some(first), None) => {
                if is_identical(table, t, first) {
                    self
                } else {
                    Known {
                        first: self.first,
                        other: Some(t),
                    }
                }
            }
            (Some(_), Some(_)) => self,
        }
    }
}

// What is known with one more binding.
fn note(table: &TypeTable, entry: Binding, known: &mut [Known])
    requires entry { IsId table.now entry.ty }
    requires known { AreKnown table.now known.old }
    ensures valid { AreKnown table.now known.new }
    ensures value { (k : ℕ) → k < length known.old → shown_known table.now (known_at known.new k)
        ≡ with_binding k (shown_known table.now (known_at known.old k))
        (shown_binding table.now entry) }
{
    let k = entry.param as usize;
    if k < known.len() {
        known[k] = known[k].with(table, entry.ty);
    }
}

/// What the bindings say of each of `count` type parameters.
pub fn known_of(
    alloc: Global,
    table: &TypeTable,
    count: usize,
    entries: &[Binding],
) -> Result<Vec<Known>, NoMemory>
    requires { AreBindings table.now entries.now }
    ensures many { IfOk result (λ v. length v.items ≡ count) }
    ensures valid { IfOk result (λ v. AreKnown table.now v.items) }
    ensures value { IfOk result (λ v. (k : ℕ) → k < count
        → shown_known table.now (known_at v.items k)
        ≡ want.known_of k (shown_bindings table.now entries.now)) }
{
    let mut known = vec![in alloc; Known::nothing(); count]?;
    for entry in entries {
        note(table, *entry, known.as_mut_slice());
    }
    Ok(known)
}
