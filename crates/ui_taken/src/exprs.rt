// The first form of expressions that isn't taken.
ghost use Rattle.std.specs.Prelude.{◌≡◌, map};
ghost use Rattle.ui_tree.specs.View.{trees, view};
ghost use Rattle.ui_tree.specs.StmtView.{maybe_trees};
ghost use Rattle.ui_taken.specs.Taken as forms;

use ui_base::Spot;
use ui_tree::{ExprTree, Items, tree_spot, type_spot};

// `x.f` is taken where x is a name.
#[tactic(auto, using(ui_tree::specs::Views::variants))]
fn selected_form(at: Spot, of: &ExprTree) -> Option<Spot>
    ensures { result ≡ forms.selected_form at (view of.now) }
{
    match of {
        ExprTree::Name(_) => None,
        ExprTree::Literal { .. } => Some(at),
        ExprTree::Paren { .. } => Some(at),
        ExprTree::Convert { .. } => Some(at),
        ExprTree::Composite { .. } => Some(at),
        ExprTree::Elided { .. } => Some(at),
        ExprTree::Keyed { .. } => Some(at),
        ExprTree::Instance { .. } => Some(at),
        ExprTree::Selector { .. } => Some(at),
        ExprTree::Assert { .. } => Some(at),
        ExprTree::Index { .. } => Some(at),
        ExprTree::Sliced { .. } => Some(at),
        ExprTree::Call { .. } => Some(at),
        ExprTree::Type(_) => Some(at),
        ExprTree::Unary { .. } => Some(at),
        ExprTree::Binary { .. } => Some(at),
    }
}

// Literals, names, parentheses, selectors of names, and operators are taken.
#[tactic(auto, using(std::proofs::lemmas::Grind::common_steps, ui_tree::specs::Views::variants))]
pub(crate) fn expr_form(of: &ExprTree) -> Option<Spot>
    ensures { result ≡ forms.expr_form (view of.now) }
{
    match of {
        ExprTree::Literal { .. } => None,
        ExprTree::Name(_) => None,
        ExprTree::Paren { of, .. } => expr_form(of.get()),
        ExprTree::Selector { spot, of, .. } => selected_form(*spot, of.get()),
        ExprTree::Unary { of, .. } => expr_form(of.get()),
        ExprTree::Binary { left, right, .. } => match expr_form(left.get()) {
            Some(spot) => Some(spot),
            None => expr_form(right.get()),
        },
        ExprTree::Convert { spot, .. } => Some(*spot),
        ExprTree::Composite { spot, .. } => Some(*spot),
        ExprTree::Elided { spot, .. } => Some(*spot),
        ExprTree::Keyed { spot, .. } => Some(*spot),
        ExprTree::Instance { spot, .. } => Some(*spot),
        ExprTree::Assert { spot, .. } => Some(*spot),
        ExprTree::Index { spot, .. } => Some(*spot),
        ExprTree::Sliced { spot, .. } => Some(*spot),
        ExprTree::Call { spot, .. } => Some(*spot),
        ExprTree::Type(of) => Some(type_spot(of.get())),
    }
}

// The first of a list.
fn exprs_form(list: &[ExprTree]) -> Option<Spot>
    ensures { result ≡ forms.exprs_form (trees (map view list.now)) }
{
    for tree in list {
        if let Some(spot) = expr_form(tree) {
            return Some(spot);
        }
    }
    None
}

// The first of the values of a specification.
pub(crate) fn values_form(values: &Option<Items<ExprTree>>) -> Option<Spot>
    ensures { result ≡ forms.values_form (maybe_trees values.now) }
{
    match values {
        None => None,
        Some(list) => exprs_form(list.as_slice()),
    }
}

// Where the first value stands, if there is one.
pub(crate) fn no_values(values: &Option<Items<ExprTree>>) -> Option<Spot>
    ensures { result ≡ forms.no_values (maybe_trees values.now) }
{
    match values {
        None => None,
        Some(list) => first_spot(list.as_slice()),
    }
}

// Where the first of a list stands.
fn first_spot(list: &[ExprTree]) -> Option<Spot>
    ensures { result ≡ forms.no_values (maybe_trees (Some list.now)) }
{
    match list {
        [] => None,
        [first, ..] => Some(tree_spot(first)),
    }
}
