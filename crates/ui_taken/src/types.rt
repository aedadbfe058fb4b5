// The first form of types that isn't taken.
ghost use Rattle.std.specs.Prelude.{◌≡◌, map};
ghost use Rattle.std.specs.Option.{option_map};
ghost use Rattle.ui_tree.specs.View.{groups, group_with, kept, maybe_type, type_args, type_view};
ghost use Rattle.ui_tree.specs.View.{types};
ghost use Rattle.ui_taken.specs.Taken as forms;

use crate::exprs::expr_form;
use ui_base::Spot;
use ui_tree::{Boxed, Group, Items, TypeExpr, type_spot};

// A name without type arguments is taken.
#[tactic(auto, using(std::proofs::lemmas::Grind::common_steps, ui_tree::specs::Views::type_variants))]
pub(crate) fn name_form(of: &TypeExpr) -> Option<Spot>
    ensures { result ≡ forms.name_form (type_view of.now) }
{
    match of {
        TypeExpr::Named { name, args, .. } => match args {
            None => None,
            Some(_) => Some(name.spot),
        },
        TypeExpr::Parenthesized { of, .. } => name_form(of.get()),
        TypeExpr::Pointer { spot, .. } => Some(*spot),
        TypeExpr::Slice { spot, .. } => Some(*spot),
        TypeExpr::Array { spot, .. } => Some(*spot),
        TypeExpr::Counted { spot, .. } => Some(*spot),
        TypeExpr::Map { spot, .. } => Some(*spot),
        TypeExpr::Func { spot, .. } => Some(*spot),
        TypeExpr::Listed { spot, .. } => Some(*spot),
        TypeExpr::Struct { spot, .. } => Some(*spot),
        TypeExpr::Interface { spot, .. } => Some(*spot),
        TypeExpr::Method { name, .. } => Some(name.spot),
        TypeExpr::Union { spot, .. } => Some(*spot),
        TypeExpr::Tilde { spot, .. } => Some(*spot),
    }
}

// Where the first element of an interface stands.
fn element_form(list: &[TypeExpr]) -> Option<Spot>
    ensures { result ≡ forms.element_form (types (map type_view list.now)) }
{
    match list {
        [] => None,
        [first, ..] => Some(type_spot(first)),
    }
}

// All but types with arguments and interfaces with elements are taken.
#[cycle(types)]
#[tactic(auto, using(std::proofs::lemmas::Grind::common_steps, ui_tree::specs::Views::type_variants))]
pub(crate) fn type_form(of: &TypeExpr) -> Option<Spot>
    ensures { result ≡ forms.type_form (type_view of.now) }
{
    match of {
        TypeExpr::Named { name, args, .. } => match args {
            None => None,
            Some(_) => Some(name.spot),
        },
        TypeExpr::Parenthesized { of, .. } => type_form(of.get()),
        TypeExpr::Pointer { of, .. } => type_form(of.get()),
        TypeExpr::Slice { of, .. } => type_form(of.get()),
        TypeExpr::Array { len, of, .. } => match expr_form(len.get()) {
            Some(spot) => Some(spot),
            None => type_form(of.get()),
        },
        TypeExpr::Counted { spot, .. } => Some(*spot),
        TypeExpr::Map { key, of, .. } => match type_form(key.get()) {
            Some(spot) => Some(spot),
            None => type_form(of.get()),
        },
        TypeExpr::Func { sig, .. } => match groups_form(sig.params.as_slice()) {
            Some(spot) => Some(spot),
            None => result_form(&sig.results),
        },
        TypeExpr::Listed { groups, .. } => groups_form(groups.as_slice()),
        TypeExpr::Struct { fields, .. } => groups_form(fields.as_slice()),
        TypeExpr::Interface { elems, .. } => element_form(elems.as_slice()),
        TypeExpr::Method { name, .. } => Some(name.spot),
        TypeExpr::Union { spot, .. } => Some(*spot),
        TypeExpr::Tilde { spot, .. } => Some(*spot),
    }
}

// The first of the types of groups.
#[cycle(types)]
pub(crate) fn groups_form(list: &[Group<Boxed<TypeExpr>>]) -> Option<Spot>
    ensures { result ≡ forms.groups_form (groups kept (map (group_with type_view) list.now)) }
{
    for group in list {
        if let Some(spot) = type_form(group.of.get()) {
            return Some(spot);
        }
    }
    None
}

// The first of the types of results.
#[cycle(types)]
pub(crate) fn result_form(results: &Option<Boxed<TypeExpr>>) -> Option<Spot>
    ensures { result ≡ forms.result_form (maybe_type (option_map type_view results.now)) }
{
    match results {
        None => None,
        Some(of) => type_form(of.get()),
    }
}
