use crate::stmt::StmtEl;
use sqlite_items::Items;
use ui_eexpr::OuterUse;

/// The body of a function. The first locals are the parameters, a receiver before the others. Go
/// specification, "Function declarations".
#[derive(Drop)]
pub struct BodyEl {
    /// How many of the locals are parameters.
    pub params: u64,
    pub locals: ui_base::Items<OuterUse>,
    pub results: ui_base::Items<OuterUse>,
    pub stmts: Items<StmtEl>,
}
