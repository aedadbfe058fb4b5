//! Bodies of functions at type arguments.
ghost use Rattle.std.specs.Prelude.{◌≡◌, ℕ, List};
ghost use Rattle.ui_types.specs.Table.{Table, IsId, AreIds, IsNode, shown, tree, trees};
ghost use Rattle.ui_core.specs.Bodies.{Answers, BodiesKept, GivesBody};

use crate::callee::FuncKey;
use crate::fault::BodyFault;
use crate::tree::Body;
use std::alloc::Global;
use ui_types::{Ids, TypeId, TypeNode};

/// Answers bodies from one map, from keys and type arguments, whatever was asked before. The ids
/// that it takes and gives are of one table.
pub trait Bodies {
    /// The table of the ids.
    ghost table: { Self → Table };

    /// The ghost names of the references that it holds, which no call changes.
    ghost lent: { Self → List ℕ };

    /// The map: for a key and type arguments a body, nothing, or a refusal.
    ghost answers: { Self → Answers };

    /// The ids that it keeps are of the table, with the trees that they stand for.
    ghost fits: { Self → Type 0 };

    /// The body of the function or method at these type arguments; nothing where none is kept.
    fn body(&mut self, alloc: Global, key: &FuncKey, targs: &Ids) -> Result<Option<Body>, BodyFault>
        requires fits { fits self.old }
        requires arguments { AreIds (table self.old) targs.now }
        ensures answer { GivesBody (table self.new)
            (answers self.old key.now (trees (table self.old) targs.now)) result }
        ensures kept { BodiesKept table lent answers fits self.old self.new };

    /// The node of a type of the table.
    fn node(&self, t: TypeId) -> &TypeNode
        requires { IsId (table self.now) t }
        ensures valid { IsNode (table self.now) result.now }
        ensures value { shown (table self.now) result.now ≡ tree (table self.now) t };
}
