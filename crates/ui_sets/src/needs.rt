//! Types that a question needs.
ghost use Rattle.std.specs.Prelude.{◌≡◌, Ok, IfOk};
ghost use Rattle.ui_types.specs.Ty.{subst};
ghost use Rattle.ui_types.specs.Table.{IsId, AreIds, Grows, Denotes, tree, trees};
ghost use Rattle.ui_types.specs.Kept.{Kept};
ghost use Rattle.ui_sets.specs.Needed as want;
ghost use Rattle.ui_sets.specs.Needed.{GivesType, any_type, bound_of, within};

use crate::fault::{SetFault, limit};
use std::alloc::Global;
use ui_types::{
    Env, Ids, Methods, NoMemory, TypeId, TypeNode, TypeTable, intern_within, underlying,
};

/// The underlying type, which is refused where it is past a limit. Go specification, "Underlying
/// types".
#[tactic(auto, using(ui_types::specs::Kept::keeping), unfolding(crate::specs::Needed::within))]
pub fn needed<E: Env>(
    alloc: Global,
    env: &mut E,
    table: &mut TypeTable,
    t: TypeId,
) -> Result<TypeId, SetFault>
    requires env { E.fits env.old table.old }
    requires id { IsId table.old t }
    ensures answer { GivesType table.new (want.needed (E.decls env.old table.old)
        (tree table.old t)) result }
    ensures kept { Kept E.packages E.lent E.decls E.fits env.old table.old env.new table.new }
{
    match underlying(alloc, env, table, t) {
        Ok(under) => Ok(under),
        Err(fault) => Err(limit(fault)),
    }
}

/// The type with the arguments put in.
#[tactic(auto, unfolding(crate::specs::Needed::within))]
pub(crate) fn instance(
    alloc: Global,
    table: &mut TypeTable,
    t: TypeId,
    args: &[TypeId],
) -> Result<TypeId, SetFault>
    requires id { IsId table.old t }
    requires arguments { AreIds table.old args.now }
    ensures answer { GivesType table.new
        (within (subst (trees table.old args.now) (tree table.old t))) result }
    ensures grows { Grows table.old table.new }
{
    match table.subst(alloc, t, args) {
        Ok(made) => Ok(made),
        Err(fault) => Err(limit(fault)),
    }
}

// The empty interface.
fn any_interface(alloc: Global, table: &mut TypeTable) -> Result<TypeId, NoMemory>
    ensures made { IfOk result (Denotes table.new any_type) }
    ensures grows { Grows table.old table.new }
{
    let interface = TypeNode::Iface {
        methods: Methods::new(Vec::new(alloc)),
        comparable: false,
        unions: Ids::new(Vec::new(alloc)),
    };
    intern_within(alloc, table, interface)
}

// The same as the answer for a type parameter that has no constraint.
fn no_bound(alloc: Global, table: &mut TypeTable) -> Result<TypeId, SetFault>
    ensures answer { GivesType table.new (Ok any_type) result }
    ensures grows { Grows table.old table.new }
{
    match any_interface(alloc, table) {
        Ok(id) => Ok(id),
        Err(_) => Err(SetFault::NoMemory),
    }
}

/// The underlying type of a type parameter's constraint, by its number. One that has none there has
/// the empty interface.
pub fn needed_bound<E: Env>(
    alloc: Global,
    env: &mut E,
    table: &mut TypeTable,
    bounds: &[TypeId],
    k: u32,
) -> Result<TypeId, SetFault>
    requires env { E.fits env.old table.old }
    requires bounds { AreIds table.old bounds.now }
    ensures answer { GivesType table.new (want.needed (E.decls env.old table.old)
        (bound_of (trees table.old bounds.now) k)) result }
    ensures kept { Kept E.packages E.lent E.decls E.fits env.old table.old env.new table.new }
{
    let k = k as usize;
    if k < bounds.len() {
        return needed(alloc, env, table, bounds[k]);
    }
    no_bound(alloc, table)
}
