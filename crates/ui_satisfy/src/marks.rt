//! What a search has met.
ghost use Rattle.std.specs.Prelude.{◌≡◌, [], suc, false, length, take, OnOk};
ghost use Rattle.ui_types.specs.Table.{IsId, AreIds, tree, trees};
ghost use Rattle.ui_satisfy.specs.Search as want;
ghost use Rattle.ui_satisfy.specs.Marks.{AreMarks, IsLonger};

use indexmap::IndexSet;
use std::alloc::Global;
use ui_types::{NoMemory, TypeId, TypeTable};

/// The types that are looked at now or that were found comparable, and those that aren't, each in
/// the order in which they were met.
#[derive(Drop)]
pub(crate) struct Marks {
    pub good: IndexSet<TypeId>,
    pub bad: IndexSet<TypeId>,
}

/// None.
pub(crate) fn no_marks(alloc: Global) -> Marks
    ensures good { result.good.keys ≡ [] }
    ensures bad { result.bad.keys ≡ [] }
{
    Marks {
        good: IndexSet::new(alloc),
        bad: IndexSet::new(alloc),
    }
}

/// Whether the type is in the set.
pub(crate) fn is_in(table: &TypeTable, set: &IndexSet<TypeId>, t: TypeId) -> bool
    requires id { IsId table.now t }
    requires set { AreIds table.now set.now.keys }
    ensures { result ≡ want.is_in (tree table.now t) (trees table.now set.now.keys) }
{
    table.once();
    set.contains(&t)
}

/// Puts the type at the end, where it isn't in the set.
pub(crate) fn put(table: &TypeTable, set: &mut IndexSet<TypeId>, t: TypeId) -> Result<(), NoMemory>
    requires id { IsId table.now t }
    requires set { AreIds table.now set.old.keys }
    ensures valid { OnOk result (AreIds table.now set.new.keys) }
    ensures longer { OnOk result (IsLonger set.old.keys set.new.keys) }
    ensures answer { OnOk result (trees table.now set.new.keys
        ≡ want.put (tree table.now t) (trees table.now set.old.keys)) }
    ensures more { OnOk result (want.is_in (tree table.now t) (trees table.now set.old.keys) ≡ false
        → length set.new.keys ≡ suc (length set.old.keys)) }
{
    table.once();
    set.insert(t)?;
    Ok(())
}

/// Marks a type as one that isn't comparable, and forgets what was found comparable behind the
/// first `count`.
pub(crate) fn close(
    table: &TypeTable,
    marks: &mut Marks,
    count: usize,
    t: TypeId,
) -> Result<(), NoMemory>
    requires id { IsId table.now t }
    requires marks { AreMarks table.now marks.old }
    ensures valid { OnOk result (AreMarks table.now marks.new) }
    ensures good { OnOk result (marks.new.good.keys ≡ take count marks.old.good.keys) }
    ensures bad { OnOk result (trees table.now marks.new.bad.keys
        ≡ want.put (tree table.now t) (trees table.now marks.old.bad.keys)) }
{
    marks.good.truncate(count);
    put(table, &mut marks.bad, t)
}
