//! Expressions that are types too.

ghost use Rattle.std.specs.Prelude.{◌≡◌, IfOk, map, Some, None};
ghost use Rattle.std.specs.Option.{option_map};
ghost use Rattle.ui_tree.specs.View.{view, type_view, types};
ghost use Rattle.ui_syntax.specs.Cover as spec;
ghost use Rattle.ui_syntax.specs.Cover.{only_type, as_type, if_named, name_of};
ghost use Rattle.ui_syntax.specs.Exprs.{is_some};
ghost use Rattle.ui_ptype.specs.Pointers.{is_deref};
ghost use Rattle.ui_ptype.specs.Seen.{named_by};

use std::alloc::Global;
use ui_base::NoMemory;
use ui_tree::{Boxed, ExprTree, Items, PrefixOp, TypeExpr};

/// Whether the tree is a type and no expression.
pub fn is_type_alone(tree: &ExprTree) -> bool
    ensures { result ≡ is_some (only_type (view tree.now)) }
{
    matches!(tree, ExprTree::Type(_))
}

/// The type that the tree is alone.
pub fn into_type_alone(tree: Boxed<ExprTree>) -> Option<Boxed<TypeExpr>>
    ensures { option_map type_view result ≡ only_type (view tree) }
{
    match tree.into_inner() {
        ExprTree::Type(of) => Some(of),
        _ => None,
    }
}

// n or n.m
fn is_type_name(tree: &ExprTree) -> bool
    ensures { result ≡ is_some (name_of (view tree.now)) }
{
    match tree {
        ExprTree::Name(_) => true,
        ExprTree::Selector { of, .. } => matches!(of.get(), ExprTree::Name(_)),
        _ => false,
    }
}

fn is_deref(op: PrefixOp) -> bool
    ensures { result ≡ is_deref op }
{
    matches!(op, PrefixOp::Deref)
}

/// Whether the text of the tree is a type too.
pub fn is_type(tree: &ExprTree) -> bool
    ensures { result ≡ is_some (as_type (view tree.now)) }
{
    match tree {
        ExprTree::Name(_) | ExprTree::Selector { .. } => is_type_name(tree),
        ExprTree::Index { of, at, .. } => is_type_name(of.get()) && is_type(at.get()),
        ExprTree::Instance { of, .. } => is_type_name(of.get()),
        ExprTree::Paren { of, .. } => is_type(of.get()),
        ExprTree::Unary { op, of, .. } => is_deref(*op) && is_type(of.get()),
        ExprTree::Type(_) => true,
        _ => false,
    }
}

/// Whether the tree is a type's name, with arguments or without.
pub fn is_named_type(tree: &ExprTree) -> bool
    ensures { result ≡ is_some (if_named (as_type (view tree.now))) }
{
    match tree {
        ExprTree::Name(_)
        | ExprTree::Selector { .. }
        | ExprTree::Index { .. }
        | ExprTree::Instance { .. } => is_type(tree),
        ExprTree::Type(of) => matches!(of.get(), TypeExpr::Named { .. }),
        _ => false,
    }
}

fn named(tree: ExprTree, args: Option<Items<TypeExpr>>) -> Option<TypeExpr>
    ensures { option_map type_view result ≡ named_by (name_of (view tree))
        (option_map (map type_view) args) }
{
    match tree {
        ExprTree::Name(name) => Some(TypeExpr::named(name, None, args)),
        ExprTree::Selector {
            spot: _,
            of,
            member,
        } => match of.into_inner() {
            ExprTree::Name(name) => Some(TypeExpr::named(name, Some(member), args)),
            _ => None,
        },
        _ => None,
    }
}

/// The type that the text of the tree is too, if it is one.
pub fn into_type(alloc: Global, tree: ExprTree) -> Result<Option<TypeExpr>, NoMemory>
    ensures { IfOk result (λ o. option_map type_view o ≡ as_type (view tree)) }
{
    match tree {
        ExprTree::Name(_) | ExprTree::Selector { .. } => Ok(named(tree, None)),
        ExprTree::Index { spot: _, of, at } => {
            let Some(arg) = into_type(alloc, at.into_inner())? else {
                return Ok(None);
            };
            let mut args = Items::new(alloc);
            args.push(arg)?;
            Ok(named(of.into_inner(), Some(args)))
        }
        ExprTree::Instance { spot: _, of, args } => Ok(named(of.into_inner(), Some(args))),
        ExprTree::Paren { spot, of } => match into_type(alloc, of.into_inner())? {
            Some(of) => Ok(Some(TypeExpr::parenthesized(spot, Boxed::new(alloc, of)?))),
            None => Ok(None),
        },
        ExprTree::Unary { spot, op, of } => {
            if !is_deref(op) {
                return Ok(None);
            }
            match into_type(alloc, of.into_inner())? {
                Some(of) => Ok(Some(TypeExpr::pointer(spot, Boxed::new(alloc, of)?))),
                None => Ok(None),
            }
        }
        ExprTree::Type(of) => Ok(Some(of.into_inner())),
        _ => Ok(None),
    }
}

/// Whether braces make a literal of the type, which is no name.
pub fn has_literals(of: &TypeExpr) -> bool
    ensures { result ≡ spec.has_literals (type_view of.now) }
{
    matches!(
        of,
        TypeExpr::Slice { .. }
            | TypeExpr::Array { .. }
            | TypeExpr::Counted { .. }
            | TypeExpr::Map { .. }
            | TypeExpr::Struct { .. }
    )
}

/// Whether the type is an array whose elements are counted, `[...]T`.
pub fn is_counted(of: &TypeExpr) -> bool
    ensures { result ≡ spec.is_counted (type_view of.now) }
{
    matches!(of, TypeExpr::Counted { .. })
}
