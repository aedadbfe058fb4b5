// What types and expressions depend on.
#![tactic(auto, using(std::proofs::lemmas::Grind::common_steps, crate::proofs::NeedLemmas::adding))]

ghost use Rattle.std.specs.Prelude.{◌≡◌, ◌++◌, OnOk, map};
ghost use Rattle.std.specs.Option.{option_map};
ghost use Rattle.ui_tree.specs.View.{group_with, groups, kept, maybe_type, trees, type_view, view};
ghost use Rattle.ui_collect.specs.Views.{maybe_at};
ghost use Rattle.ui_needs.specs.Needs as needs;
ghost use Rattle.ui_needs.specs.Views.{found_in};

use crate::numbers::Numbering;
use ui_base::{NoMemory, Text};
use ui_tree::{Boxed, ExprTree, Group, TypeExpr};

// What the name is declared as.
fn add_meaning(numbers: &Numbering, found: &mut Vec<usize>, name: &Text) -> Result<(), NoMemory>
    ensures { OnOk result (found.new.items ≡ found.old.items ++ needs.meaning_node (found_in
        numbers.now name.now)) }
{
    if let Some(nodes) = numbers.find(name) {
        found.push(nodes.meaning)?;
    }
    Ok(())
}

// The underlying type of that.
fn add_under(numbers: &Numbering, found: &mut Vec<usize>, name: &Text) -> Result<(), NoMemory>
    ensures { OnOk result (found.new.items ≡ found.old.items ++ needs.under_node (found_in
        numbers.now name.now)) }
{
    if let Some(nodes) = numbers.find(name) {
        found.push(nodes.under)?;
    }
    Ok(())
}

// The underlying type of a type that is a name.
#[tactic(auto, using(std::proofs::lemmas::Grind::common_steps, ui_tree::specs::Views::type_variants, crate::proofs::NeedLemmas::adding))]
pub(crate) fn head_needs(
    numbers: &Numbering,
    found: &mut Vec<usize>,
    of: &TypeExpr,
) -> Result<(), NoMemory>
    ensures { OnOk result (found.new.items ≡ found.old.items ++ needs.head_needs (found_in
        numbers.now) (type_view of.now)) }
{
    match of {
        TypeExpr::Named { name, member, .. } => match member {
            None => add_under(numbers, found, &name.text),
            Some(_) => Ok(()),
        },
        TypeExpr::Parenthesized { of, .. } => head_needs(numbers, found, of.get()),
        TypeExpr::Pointer { .. } => Ok(()),
        TypeExpr::Slice { .. } => Ok(()),
        TypeExpr::Array { .. } => Ok(()),
        TypeExpr::Counted { .. } => Ok(()),
        TypeExpr::Map { .. } => Ok(()),
        TypeExpr::Func { .. } => Ok(()),
        TypeExpr::Listed { .. } => Ok(()),
        TypeExpr::Struct { .. } => Ok(()),
        TypeExpr::Interface { .. } => Ok(()),
        TypeExpr::Method { .. } => Ok(()),
        TypeExpr::Union { .. } => Ok(()),
        TypeExpr::Tilde { .. } => Ok(()),
    }
}

// What an expression's value and type need.
#[tactic(auto, using(std::proofs::lemmas::Grind::common_steps, ui_tree::specs::Views::variants, crate::proofs::NeedLemmas::adding))]
pub(crate) fn value_needs(
    numbers: &Numbering,
    found: &mut Vec<usize>,
    of: &ExprTree,
) -> Result<(), NoMemory>
    ensures { OnOk result (found.new.items ≡ found.old.items ++ needs.value_needs (found_in
        numbers.now) (view of.now)) }
{
    match of {
        ExprTree::Literal { .. } => Ok(()),
        ExprTree::Name(name) => {
            add_meaning(numbers, found, &name.text)?;
            add_under(numbers, found, &name.text)
        }
        ExprTree::Paren { of, .. } => value_needs(numbers, found, of.get()),
        ExprTree::Selector { of, .. } => value_needs(numbers, found, of.get()),
        ExprTree::Unary { of, .. } => value_needs(numbers, found, of.get()),
        ExprTree::Binary { left, right, .. } => {
            value_needs(numbers, found, left.get())?;
            value_needs(numbers, found, right.get())
        }
        ExprTree::Convert { .. } => Ok(()),
        ExprTree::Composite { .. } => Ok(()),
        ExprTree::Elided { .. } => Ok(()),
        ExprTree::Keyed { .. } => Ok(()),
        ExprTree::Instance { .. } => Ok(()),
        ExprTree::Assert { .. } => Ok(()),
        ExprTree::Index { .. } => Ok(()),
        ExprTree::Sliced { .. } => Ok(()),
        ExprTree::Call { .. } => Ok(()),
        ExprTree::Type(_) => Ok(()),
    }
}

pub(crate) fn values_needs(
    numbers: &Numbering,
    found: &mut Vec<usize>,
    list: &[ExprTree],
) -> Result<(), NoMemory>
    ensures { OnOk result (found.new.items ≡ found.old.items ++ needs.values_needs (found_in
        numbers.now) (trees (map view list.now))) }
{
    for tree in list {
        value_needs(numbers, found, tree)?;
    }
    Ok(())
}

// What a type needs.
#[cycle(needs)]
#[tactic(auto, using(std::proofs::lemmas::Grind::common_steps, ui_tree::specs::Views::type_variants, crate::proofs::NeedLemmas::adding))]
pub(crate) fn type_needs(
    numbers: &Numbering,
    found: &mut Vec<usize>,
    of: &TypeExpr,
) -> Result<(), NoMemory>
    ensures { OnOk result (found.new.items ≡ found.old.items ++ needs.type_needs (found_in
        numbers.now) (type_view of.now)) }
{
    match of {
        TypeExpr::Named { name, member, .. } => match member {
            None => add_meaning(numbers, found, &name.text),
            Some(_) => Ok(()),
        },
        TypeExpr::Parenthesized { of, .. } => type_needs(numbers, found, of.get()),
        TypeExpr::Pointer { of, .. } => type_needs(numbers, found, of.get()),
        TypeExpr::Slice { of, .. } => type_needs(numbers, found, of.get()),
        TypeExpr::Array { len, of, .. } => {
            value_needs(numbers, found, len.get())?;
            type_needs(numbers, found, of.get())
        }
        TypeExpr::Counted { of, .. } => type_needs(numbers, found, of.get()),
        TypeExpr::Map { key, of, .. } => {
            type_needs(numbers, found, key.get())?;
            type_needs(numbers, found, of.get())
        }
        TypeExpr::Func { sig, .. } => {
            group_needs(numbers, found, sig.params.as_slice())?;
            result_needs(numbers, found, &sig.results)
        }
        TypeExpr::Listed { groups, .. } => group_needs(numbers, found, groups.as_slice()),
        TypeExpr::Struct { fields, .. } => group_needs(numbers, found, fields.as_slice()),
        TypeExpr::Interface { .. } => Ok(()),
        TypeExpr::Method { .. } => Ok(()),
        TypeExpr::Union { .. } => Ok(()),
        TypeExpr::Tilde { .. } => Ok(()),
    }
}

// What the types of groups need.
#[cycle(needs)]
pub(crate) fn group_needs(
    numbers: &Numbering,
    found: &mut Vec<usize>,
    list: &[Group<Boxed<TypeExpr>>],
) -> Result<(), NoMemory>
    ensures { OnOk result (found.new.items ≡ found.old.items ++ needs.group_needs (found_in
        numbers.now) (groups kept (map (group_with type_view) list.now))) }
{
    for group in list {
        type_needs(numbers, found, group.of.get())?;
    }
    Ok(())
}

// What results need.
#[cycle(needs)]
pub(crate) fn result_needs(
    numbers: &Numbering,
    found: &mut Vec<usize>,
    results: &Option<Boxed<TypeExpr>>,
) -> Result<(), NoMemory>
    ensures { OnOk result (found.new.items ≡ found.old.items ++ needs.result_needs (found_in
        numbers.now) (maybe_type (option_map type_view results.now))) }
{
    match results {
        None => Ok(()),
        Some(of) => type_needs(numbers, found, of.get()),
    }
}

// What a written type needs.
pub(crate) fn maybe_needs(
    numbers: &Numbering,
    found: &mut Vec<usize>,
    of: Option<&TypeExpr>,
) -> Result<(), NoMemory>
    ensures { OnOk result (found.new.items ≡ found.old.items ++ needs.result_needs (found_in
        numbers.now) (maybe_at of.entry)) }
{
    match of {
        None => Ok(()),
        Some(of) => type_needs(numbers, found, of),
    }
}

// What the underlying type of a written type needs, where it is a name.
pub(crate) fn maybe_head(
    numbers: &Numbering,
    found: &mut Vec<usize>,
    of: Option<&TypeExpr>,
) -> Result<(), NoMemory>
    ensures { OnOk result (found.new.items ≡ found.old.items ++ needs.maybe_head (found_in
        numbers.now) (maybe_at of.entry)) }
{
    match of {
        None => Ok(()),
        Some(of) => head_needs(numbers, found, of),
    }
}

// Both.
pub(crate) fn whole_needs(
    numbers: &Numbering,
    found: &mut Vec<usize>,
    of: Option<&TypeExpr>,
) -> Result<(), NoMemory>
    ensures { OnOk result (found.new.items ≡ found.old.items ++ needs.whole_needs (found_in
        numbers.now) (maybe_at of.entry)) }
{
    maybe_needs(numbers, found, of)?;
    maybe_head(numbers, found, of)
}
