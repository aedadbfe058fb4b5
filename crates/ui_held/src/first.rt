//! The first type that holds itself.
ghost use Rattle.std.specs.Prelude.{◌≡◌, length, IfOk};
ghost use Rattle.ui_types.specs.Table.{AreIds, trees};
ghost use Rattle.ui_held.specs.Held.{IsFirstInfinite};

use crate::held::held_places;
use indexmap::IndexSet;
use std::alloc::Global;
use ui_order::first_on_cycle;
use ui_types::{Name, NoMemory, TypeId, TypeTable};

/// The place of the first of the declared types that holds itself by value: its underlying type is,
/// through arrays and the fields of structs, its own or that of another that leads back to it.
/// There is one underlying type for each name. Go specification, "Struct types", "Array types".
pub fn first_infinite(
    alloc: Global,
    table: &TypeTable,
    names: &IndexSet<Name>,
    unders: &[TypeId],
) -> Result<Option<usize>, NoMemory>
    requires ids { AreIds table.now unders.now }
    requires each { length unders.now ≡ length names.now.keys }
    ensures { IfOk result (IsFirstInfinite names.now.keys (trees table.now unders.now)) }
{
    let mut links = Vec::new(alloc);
    for under in unders {
        links.push(held_places(alloc, table, names, *under)?)?;
    }
    first_on_cycle(alloc, &links)
}
