// Names of fields, parameters and results.
ghost use Rattle.std.specs.Prelude.{◌≡◌, [], Some, map};
ghost use Rattle.std.specs.Option.{option_map};
ghost use Rattle.ui_tree.specs.View.{groups, group_with, kept, maybe_type, type_view};
ghost use Rattle.ui_tree.specs.StmtView.{groups_view, maybe_type_view};
ghost use Rattle.ui_collect.specs.Lists as lists;
ghost use Rattle.ui_collect.specs.Names.{is_blank, steps};
ghost use Rattle.ui_collect.specs.Views.{Holds, Moves};
ghost use Rattle.ui_scopes.specs.Steps.{Refuses, fault_at};

use crate::before::NameSet;
use std::alloc::Global;
use ui_base::Text;
use ui_scopes::refusal;
use ui_tree::{Boxed, Group, Placed, Sig, TypeExpr};
use ui_types::{CheckFault, FaultKind};

/// Whether a name is blank. Go specification, "Blank identifier".
pub(crate) fn is_blank(name: &Text) -> bool
    ensures { result ≡ is_blank name.now }
{
    name.bytes() == b"_".as_slice()
}

/// The fault of a name that stands twice.
pub(crate) fn redeclared(alloc: Global, file: &Text, name: &Placed) -> CheckFault
    ensures { Refuses (Some (fault_at file.now name.now.spot FaultKind.Redeclared name.now.text))
        result }
{
    refusal(
        alloc,
        file,
        name.spot,
        FaultKind::Redeclared,
        name.text.bytes(),
    )
}

// One name of a list.
fn name_rule(
    alloc: Global,
    file: &Text,
    names: &mut NameSet,
    name: &Placed,
) -> Result<(), CheckFault>
    ensures { Moves (lists.name_rule file.now names.old name.now) result names.new }
{
    if is_blank(&name.text) {
        return Ok(());
    }
    if names.has(&name.text) {
        return Err(redeclared(alloc, file, name));
    }
    names.add(name.text.copy(alloc)?)?;
    Ok(())
}

fn names_rule(
    alloc: Global,
    file: &Text,
    names: &mut NameSet,
    list: &[Placed],
) -> Result<(), CheckFault>
    ensures { Moves (steps (lists.name_rule file.now) names.old list.now) result names.new }
{
    for name in list {
        name_rule(alloc, file, names, name)?;
    }
    Ok(())
}

/// No name stands twice in a list of the type.
#[cycle(lists)]
#[tactic(auto, using(std::proofs::lemmas::Grind::common_steps, ui_tree::specs::Views::type_variants, ui_scopes::specs::Steps::stepping, crate::proofs::StepLemmas::walking))]
pub(crate) fn type_rule(alloc: Global, file: &Text, of: &TypeExpr) -> Result<(), CheckFault>
    ensures { Holds (lists.type_rule file.now (type_view of.now)) result }
{
    match of {
        TypeExpr::Named { .. } => Ok(()),
        TypeExpr::Parenthesized { of, .. } => type_rule(alloc, file, of.get()),
        TypeExpr::Pointer { of, .. } => type_rule(alloc, file, of.get()),
        TypeExpr::Slice { of, .. } => type_rule(alloc, file, of.get()),
        TypeExpr::Array { of, .. } => type_rule(alloc, file, of.get()),
        TypeExpr::Counted { of, .. } => type_rule(alloc, file, of.get()),
        TypeExpr::Map { key, of, .. } => {
            type_rule(alloc, file, key.get())?;
            type_rule(alloc, file, of.get())
        }
        TypeExpr::Func { sig, .. } => {
            let mut names = NameSet::new(alloc);
            groups_rule(alloc, file, &mut names, sig.params.as_slice())?;
            result_rule(alloc, file, &mut names, &sig.results)
        }
        TypeExpr::Listed { groups, .. } => list_rule(alloc, file, groups.as_slice()),
        TypeExpr::Struct { fields, .. } => list_rule(alloc, file, fields.as_slice()),
        TypeExpr::Interface { .. } => Ok(()),
        TypeExpr::Method { .. } => Ok(()),
        TypeExpr::Union { .. } => Ok(()),
        TypeExpr::Tilde { .. } => Ok(()),
    }
}

// The names of groups, behind those that stand before them in the list.
#[cycle(lists)]
#[tactic(auto, using(std::proofs::lemmas::Grind::common_steps, ui_scopes::specs::Steps::stepping, crate::proofs::StepLemmas::walking, crate::proofs::ListLemmas::listing))]
fn groups_rule(
    alloc: Global,
    file: &Text,
    names: &mut NameSet,
    list: &[Group<Boxed<TypeExpr>>],
) -> Result<(), CheckFault>
    ensures { Moves (lists.groups_rule file.now names.old (groups kept (map (group_with type_view)
        list.now))) result names.new }
{
    for group in list {
        names_rule(alloc, file, names, group.names.as_slice())?;
        type_rule(alloc, file, group.of.get())?;
    }
    Ok(())
}

#[cycle(lists)]
fn list_rule(alloc: Global, file: &Text, list: &[Group<Boxed<TypeExpr>>]) -> Result<(), CheckFault>
    ensures { Holds (lists.nameless (lists.groups_rule file.now [] (groups kept
        (map (group_with type_view) list.now)))) result }
{
    let mut names = NameSet::new(alloc);
    groups_rule(alloc, file, &mut names, list)
}

// The parameters and results of a function are one list.
pub(crate) fn sig_rule(
    alloc: Global,
    file: &Text,
    sig: &Sig<Boxed<TypeExpr>>,
) -> Result<(), CheckFault>
    ensures { Holds (lists.sig_rule file.now (groups_view sig.now.params) (maybe_type_view
        sig.now.results)) result }
{
    let mut names = NameSet::new(alloc);
    groups_rule(alloc, file, &mut names, sig.params.as_slice())?;
    result_rule(alloc, file, &mut names, &sig.results)
}

// Results, behind the names of the parameters.
#[cycle(lists)]
fn result_rule(
    alloc: Global,
    file: &Text,
    names: &mut NameSet,
    results: &Option<Boxed<TypeExpr>>,
) -> Result<(), CheckFault>
    ensures { Holds (lists.result_rule file.now names.old (maybe_type (option_map type_view
        results.now))) result }
{
    match results {
        None => Ok(()),
        Some(of) => {
            if let TypeExpr::Listed { groups, .. } = of.get() {
                return groups_rule(alloc, file, names, groups.as_slice());
            }
            type_rule(alloc, file, of.get())
        }
    }
}
