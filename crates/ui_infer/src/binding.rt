//! Types that type parameters are to stand for, in the order in which they are found.
ghost use Rattle.std.specs.Prelude.{◌≡◌, ◌++◌, IfSome, OnOk, option_map};
ghost use Rattle.ui_types.specs.Table.{Table, IsId, tree};
ghost use Rattle.ui_infer.specs.Bindings as want;
ghost use Rattle.ui_infer.specs.Shown.{AreBindings, shown_bindings};

use ui_types::{NoMemory, TypeId};

/// A type parameter, by its number, and a type that it is to stand for.
#[derive(Clone, Copy)]
pub struct Binding {
    pub param: u32,
    pub ty: TypeId,
}

/// The first type that the type parameter is to stand for.
pub fn first_of(bindings: &[Binding], k: usize) -> Option<TypeId>
    ensures valid { (table : Table) → AreBindings table bindings.now → IfSome result (IsId table) }
    ensures value { (table : Table)
        → option_map (tree table) result ≡ want.first_of k (shown_bindings table bindings.now) }
{
    for binding in bindings {
        if binding.param as usize == k {
            return Some(binding.ty);
        }
    }
    None
}

/// Puts these bindings after the others.
pub fn append(bindings: &mut Vec<Binding>, more: &[Binding]) -> Result<(), NoMemory>
    ensures { OnOk result (bindings.new.items ≡ bindings.old.items ++ more.now) }
{
    for binding in more {
        bindings.push(*binding)?;
    }
    Ok(())
}
