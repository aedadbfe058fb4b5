//! Identity of types.
ghost use Rattle.std.specs.Prelude.{◌≡◌};
ghost use Rattle.ui_types.specs.Same.{same_type};
ghost use Rattle.ui_types.specs.Table.{IsId, tree};

use crate::id::TypeId;
use crate::table::TypeTable;

/// Whether two types are identical. Go specification, "Type identity".
pub fn is_identical(table: &TypeTable, a: TypeId, b: TypeId) -> bool
    requires first { IsId table.now a }
    requires second { IsId table.now b }
    ensures { result ≡ same_type (tree table.now a) (tree table.now b) }
{
    table.same(a, b)
}
