//! What begins headers: expressions, other simple statements, or the places of a range.

ghost use Rattle.std.specs.Prelude.{◌≡◌, IfOk, suc, map, max};
ghost use Rattle.ui_tree.specs.StmtView.{stmt_view, places_view};
ghost use Rattle.ui_tree.specs.View.{view, trees};
ghost use Rattle.ui_tree.specs.Stmt as plain;
ghost use Rattle.ui_parse.specs.View.{Reads};
ghost use Rattle.ui_ptype.specs.Seen.{see, see_all};
ghost use Rattle.ui_stmts.specs.Common.{sized};
ghost use Rattle.ui_stmts.specs.Simple as spec;
ghost use Rattle.ui_psimple.specs.Seen.{see_head, see_stmt};

use crate::deep::{Deep, StmtSub, stmt_over};
use std::alloc::Global;
use ui_base::{BinOp, NoMemory, Spot};
use ui_parse::ParseError;
use ui_ptype::{Sub, Subs, deeper};
use ui_tree::{Items, Placed, RangePlaces, StmtTree};

/// What begins a header or is a simple statement: an expression, another simple statement, or what
/// stands before the expression of a range.
#[derive(Drop)]
pub enum Head {
    Expression(Sub),
    Statement(StmtSub),
    Range(Deep<Option<RangePlaces>>),
}

/// A statement over parts so deep.
pub(crate) fn stated(alloc: Global, tree: StmtTree, depth: u32) -> Result<Head, NoMemory>
    ensures { IfOk result (λ h. see_head h ≡ spec.stated (stmt_view tree) depth) }
{
    match stmt_over(alloc, tree, depth) {
        Ok(stmt) => Ok(Head::Statement(stmt)),
        Err(fault) => Err(fault),
    }
}

/// Values assigned to places.
#[tactic(auto, using(crate::specs::StmtViews::view_Assign))]
pub(crate) fn assign_over(
    alloc: Global,
    spot: Spot,
    places: Subs,
    values: Subs,
) -> Result<Head, NoMemory>
    ensures { IfOk result (λ h. see_head h ≡ spec.stated
        (plain.assign spot (trees (see_all places).items) (trees (see_all values).items))
        (max places.depth values.depth)) }
{
    let depth = places.depth.max(values.depth);
    let tree = StmtTree::Assign {
        spot,
        places: places.items,
        values: values.items,
    };
    stated(alloc, tree, depth)
}

/// A value assigned to a place with an operator.
#[tactic(auto, using(crate::specs::StmtViews::view_OpAssign))]
pub(crate) fn op_assign_over(
    alloc: Global,
    place: Sub,
    op: BinOp,
    value: Sub,
) -> Result<Head, NoMemory>
    ensures { IfOk result (λ h. see_head h ≡ spec.stated
        (plain.op_assign place.spot (see place).tree op (see value).tree)
        (max place.depth value.depth)) }
{
    let depth = place.depth.max(value.depth);
    let tree = StmtTree::OpAssign {
        spot: place.spot,
        place: place.tree.into_inner(),
        op,
        value: value.tree.into_inner(),
    };
    stated(alloc, tree, depth)
}

/// Names defined by values.
#[tactic(auto, using(crate::specs::StmtViews::view_Define))]
pub(crate) fn define_over(
    alloc: Global,
    spot: Spot,
    names: Items<Placed>,
    values: Subs,
) -> Result<Head, NoMemory>
    ensures { IfOk result (λ h. see_head h ≡ spec.stated
        (plain.define spot names (trees (see_all values).items)) values.depth) }
{
    let depth = values.depth;
    let tree = StmtTree::Define {
        spot,
        names,
        values: values.items,
    };
    stated(alloc, tree, depth)
}

/// A place with one more.
#[tactic(auto, using(crate::specs::StmtViews::view_Increment))]
pub(crate) fn increment_over(alloc: Global, place: Sub) -> Result<Head, NoMemory>
    ensures { IfOk result (λ h. see_head h ≡ spec.stated
        (plain.increment place.spot (see place).tree) place.depth) }
{
    let Sub { tree, spot, depth } = place;
    let place = tree.into_inner();
    stated(alloc, StmtTree::Increment { spot, place }, depth)
}

/// A place with one less.
#[tactic(auto, using(crate::specs::StmtViews::view_Decrement))]
pub(crate) fn decrement_over(alloc: Global, place: Sub) -> Result<Head, NoMemory>
    ensures { IfOk result (λ h. see_head h ≡ spec.stated
        (plain.decrement place.spot (see place).tree) place.depth) }
{
    let Sub { tree, spot, depth } = place;
    let place = tree.into_inner();
    stated(alloc, StmtTree::Decrement { spot, place }, depth)
}

/// The places of a range, which may be defined there.
pub(crate) fn range_over(places: Subs, define: bool) -> Result<Head, NoMemory>
    ensures { IfOk result (λ h. see_head h ≡ spec.range_over
        (sized (plain.places (trees (map view places.items)) define) (suc places.depth))) }
{
    match deeper(places.depth) {
        Ok(depth) => Ok(Head::Range(Deep {
            of: Some(RangePlaces {
                places: places.items,
                define,
            }),
            depth,
        })),
        Err(fault) => Err(fault),
    }
}

/// The statement of an expression alone.
#[tactic(auto, using(crate::specs::StmtViews::view_Expr))]
pub fn alone(alloc: Global, of: Sub) -> Result<StmtSub, NoMemory>
    ensures { IfOk result (λ s. see_stmt s ≡ sized (plain.alone (see of).tree) (suc of.depth)) }
{
    let Sub {
        tree,
        spot: _,
        depth,
    } = of;
    stmt_over(alloc, StmtTree::Expr(tree.into_inner()), depth)
}
