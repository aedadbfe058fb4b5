// Where the first tokens of trees stand.
ghost use Rattle.std.specs.Prelude.{◌≡◌};
ghost use Rattle.ui_tree.specs.View.{type_view, view};
ghost use Rattle.ui_tree.specs.Spots as spots;

use crate::expr::{ExprTree, TypeExpr};
use ui_base::Spot;

/// Where the first token of a type stands.
#[tactic(auto, using(crate::specs::Views::type_variants))]
pub fn type_spot(of: &TypeExpr) -> Spot
    ensures { result ≡ spots.type_spot (type_view of.now) }
{
    match of {
        TypeExpr::Named { name, .. } => name.spot,
        TypeExpr::Parenthesized { spot, .. } => *spot,
        TypeExpr::Pointer { spot, .. } => *spot,
        TypeExpr::Slice { spot, .. } => *spot,
        TypeExpr::Array { spot, .. } => *spot,
        TypeExpr::Counted { spot, .. } => *spot,
        TypeExpr::Map { spot, .. } => *spot,
        TypeExpr::Func { spot, .. } => *spot,
        TypeExpr::Listed { spot, .. } => *spot,
        TypeExpr::Struct { spot, .. } => *spot,
        TypeExpr::Interface { spot, .. } => *spot,
        TypeExpr::Method { name, .. } => name.spot,
        TypeExpr::Union { spot, .. } => *spot,
        TypeExpr::Tilde { spot, .. } => *spot,
    }
}

/// Where the first token of an expression stands.
#[tactic(auto, using(crate::specs::Views::variants))]
pub fn tree_spot(of: &ExprTree) -> Spot
    ensures { result ≡ spots.tree_spot (view of.now) }
{
    match of {
        ExprTree::Literal { spot, .. } => *spot,
        ExprTree::Name(name) => name.spot,
        ExprTree::Paren { spot, .. } => *spot,
        ExprTree::Convert { spot, .. } => *spot,
        ExprTree::Composite { spot, .. } => *spot,
        ExprTree::Elided { spot, .. } => *spot,
        ExprTree::Keyed { spot, .. } => *spot,
        ExprTree::Instance { spot, .. } => *spot,
        ExprTree::Selector { spot, .. } => *spot,
        ExprTree::Assert { spot, .. } => *spot,
        ExprTree::Index { spot, .. } => *spot,
        ExprTree::Sliced { spot, .. } => *spot,
        ExprTree::Call { spot, .. } => *spot,
        ExprTree::Type(of) => type_spot(of.get()),
        ExprTree::Unary { spot, .. } => *spot,
        ExprTree::Binary { spot, .. } => *spot,
    }
}
