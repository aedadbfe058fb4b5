//! Type parameters whose text is an array's length too. Go specification, "Type parameter
//! declarations".

ghost use Rattle.std.specs.Prelude.{◌≡◌, map};
ghost use Rattle.ui_tree.specs.View.{type_view, types};
ghost use Rattle.ui_tree.specs.StmtView.{groups_view};
ghost use Rattle.ui_grammar.specs.Both as spec;
ghost use Rattle.ui_pdecl.specs.Parts.{continue_of};

use ui_tree::{Boxed, Group, TypeExpr};

// Whether the type's text is an expression too.
fn is_expression(of: &TypeExpr) -> bool
    ensures { result ≡ spec.is_expression (type_view of.now) }
{
    match of {
        TypeExpr::Named { .. } => true,
        TypeExpr::Parenthesized { of, .. } => is_expression(of.get()),
        TypeExpr::Pointer { of, .. } => is_expression(of.get()),
        _ => false,
    }
}

fn are_expressions(all: &[TypeExpr]) -> bool
    ensures { result ≡ spec.all_expressions (types (map type_view all.now)) }
{
    for of in all {
        if !is_expression(of) {
            return false;
        }
    }
    true
}

// Whether the type's text goes on with an expression behind a name.
fn continues(of: &TypeExpr) -> bool
    ensures { result ≡ spec.continues (type_view of.now) }
{
    match of {
        TypeExpr::Parenthesized { .. } => true,
        TypeExpr::Pointer { of, .. } => is_expression(of.get()),
        TypeExpr::Array { of, .. } => continues(of.get()),
        _ => false,
    }
}

fn terms_continue(terms: &[TypeExpr]) -> bool
    ensures { result ≡ continue_of (map type_view terms.now) }
{
    match terms {
        [] => false,
        [first, more @ ..] => continues(first) && are_expressions(more),
    }
}

fn bound_continues(of: &TypeExpr) -> bool
    ensures { result ≡ spec.bound_continues (type_view of.now) }
{
    match of {
        TypeExpr::Union { terms, .. } => terms_continue(terms.as_slice()),
        _ => false,
    }
}

/// Whether the parameters' text is an array's length too.
pub(crate) fn is_length(groups: &[Group<Boxed<TypeExpr>>]) -> bool
    ensures { result ≡ spec.is_length (groups_view groups.now) }
{
    match groups {
        [only] => matches!(only.names.as_slice(), [_]) && bound_continues(only.of.get()),
        _ => false,
    }
}
