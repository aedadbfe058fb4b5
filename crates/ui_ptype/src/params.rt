//! Parameters, as they are read.

ghost use Rattle.std.specs.Prelude.{◌≡◌, ◌++◌, IfOk, map};
ghost use Rattle.ui_tree.specs.View.{group_with, type_view};
ghost use Rattle.ui_ptype.specs.Seen.{see_type, see_groups, see_params};
ghost use Rattle.ui_syntax.specs.Types as spec;

use crate::sub::{Groups, TypeSub};
use std::alloc::Global;
use ui_base::NoMemory;
use ui_syntax::Style;
use ui_tree::{Boxed, Group, Items, Placed, TypeExpr};

/// Parameters as far as they were read, with the names that wait for a type.
#[derive(Drop)]
pub struct Params {
    pub groups: Items<Group<Boxed<TypeExpr>>>,
    pub waiting: Vec<Placed>,
    pub style: Style,
    pub depth: u32,
}

// Names without a type are types.
#[tactic(auto, using(crate::proofs::Bare::bare_more))]
fn add_bare(
    alloc: Global,
    groups: Items<Group<Boxed<TypeExpr>>>,
    names: Vec<Placed>,
) -> Result<Items<Group<Boxed<TypeExpr>>>, NoMemory>
    ensures { IfOk result (λ gs. map (group_with type_view) gs
        ≡ map (group_with type_view) groups ++ spec.as_types names.items) }
{
    let mut groups = groups;
    for name in names {
        let of = Boxed::new(alloc, TypeExpr::named(name, None, None))?;
        groups.push(Group {
            names: Items::new(alloc),
            of,
        })?;
    }
    Ok(groups)
}

fn bare_depth(names: &[Placed]) -> u32
    ensures { result ≡ spec.bare_depth names.now }
{
    match names {
        [] => 0,
        [_, ..] => 1,
    }
}

impl Params {
    pub(crate) fn new(alloc: Global) -> Params
        ensures { see_params result ≡ spec.no_params }
    {
        Params {
            groups: Items::new(alloc),
            waiting: Vec::new(alloc),
            style: Style::Open,
            depth: 0,
        }
    }

    pub(crate) fn add_type(self, alloc: Global, of: TypeSub) -> Result<Params, NoMemory>
        ensures { IfOk result (λ ps. see_params ps
            ≡ spec.add_type (see_params self) (see_type of)) }
    {
        let Params {
            groups,
            waiting,
            style: _,
            depth: deepest,
        } = self;
        let deepest = deepest.max(bare_depth(waiting.as_slice()));
        let mut groups = add_bare(alloc, groups, waiting)?;
        let TypeSub {
            tree,
            spot: _,
            depth,
        } = of;
        groups.push(Group {
            names: Items::new(alloc),
            of: tree,
        })?;
        Ok(Params {
            groups,
            waiting: Vec::new(alloc),
            style: Style::Bare,
            depth: deepest.max(depth),
        })
    }

    pub(crate) fn add_named(
        self,
        alloc: Global,
        name: Placed,
        of: TypeSub,
    ) -> Result<Params, NoMemory>
        ensures { IfOk result (λ ps. see_params ps ≡ spec.add_named (see_params self) name
            (see_type of)) }
    {
        let Params {
            mut groups,
            mut waiting,
            style: _,
            depth: deepest,
        } = self;
        waiting.push(name)?;
        let TypeSub {
            tree,
            spot: _,
            depth,
        } = of;
        groups.push(Group {
            names: Items::from_vec(waiting),
            of: tree,
        })?;
        Ok(Params {
            groups,
            waiting: Vec::new(alloc),
            style: Style::Named,
            depth: deepest.max(depth),
        })
    }

    pub(crate) fn add_name(self, name: Placed) -> Result<Params, NoMemory>
        ensures { IfOk result (λ ps. see_params ps ≡ spec.add_name (see_params self) name) }
    {
        let Params {
            groups,
            mut waiting,
            style,
            depth,
        } = self;
        waiting.push(name)?;
        Ok(Params {
            groups,
            waiting,
            style,
            depth,
        })
    }

    /// All groups, where the names that wait are types.
    pub(crate) fn into_groups(self, alloc: Global) -> Result<Groups, NoMemory>
        ensures { IfOk result (λ gs. see_groups gs ≡ spec.all_params (see_params self)) }
    {
        let Params {
            groups,
            waiting,
            style: _,
            depth,
        } = self;
        let depth = depth.max(bare_depth(waiting.as_slice()));
        let items = add_bare(alloc, groups, waiting)?;
        Ok(Groups { items, depth })
    }
}
