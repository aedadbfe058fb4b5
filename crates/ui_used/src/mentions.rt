// Names that stand where an import's name may stand.
#![tactic(auto, using(std::proofs::lemmas::Grind::common_steps, crate::proofs::MentionLemmas::finding))]

ghost use Rattle.std.specs.Prelude.{◌≡◌, ◌++◌, OnOk, IfOk, map};
ghost use Rattle.std.specs.List.{flat_map, fold};
ghost use Rattle.std.specs.Option.{option_map};
ghost use Rattle.ui_tree.specs.View.{group_with, groups, kept, maybe_type, trees, type_view, view};
ghost use Rattle.ui_tree.specs.StmtView.{decl_view, file_view, maybe_type_view, specs_with};
ghost use Rattle.ui_tree.specs.StmtView.{type_spec_view, value_view};
ghost use Rattle.ui_collect.specs.Names.{with_name};
ghost use Rattle.ui_used.specs.Mentions as names;

use std::alloc::Global;
use ui_base::{NoMemory, Text};
use ui_collect::NameSet;
use ui_tree::{
    Boxed, CommonTree, DeclTree, ExprTree, FileTree, Group, Specs, TypeExpr, TypeSpec, ValueSpec,
};

// One name more, if it isn't there yet.
fn add(alloc: Global, found: &mut NameSet, name: &Text) -> Result<(), NoMemory>
    ensures { OnOk result (found.new ≡ with_name found.old name.now) }
{
    if !found.has(name) {
        found.add(name.copy(alloc)?)?;
    }
    Ok(())
}

// ---- expressions and types

// The names in an expression.
#[tactic(auto, using(std::proofs::lemmas::Grind::common_steps, ui_tree::specs::Views::variants, crate::proofs::MentionLemmas::finding))]
fn in_value(alloc: Global, found: &mut NameSet, of: &ExprTree) -> Result<(), NoMemory>
    ensures { OnOk result (found.new ≡ fold with_name found.old (names.in_value (view of.now))) }
{
    match of {
        ExprTree::Literal { .. } => Ok(()),
        ExprTree::Name(name) => add(alloc, found, &name.text),
        ExprTree::Paren { of, .. } => in_value(alloc, found, of.get()),
        ExprTree::Selector { of, .. } => in_value(alloc, found, of.get()),
        ExprTree::Unary { of, .. } => in_value(alloc, found, of.get()),
        ExprTree::Binary { left, right, .. } => {
            in_value(alloc, found, left.get())?;
            in_value(alloc, found, right.get())
        }
        ExprTree::Convert { .. } => Ok(()),
        ExprTree::Composite { .. } => Ok(()),
        ExprTree::Elided { .. } => Ok(()),
        ExprTree::Keyed { .. } => Ok(()),
        ExprTree::Instance { .. } => Ok(()),
        ExprTree::Assert { .. } => Ok(()),
        ExprTree::Index { .. } => Ok(()),
        ExprTree::Sliced { .. } => Ok(()),
        ExprTree::Call { .. } => Ok(()),
        ExprTree::Type(_) => Ok(()),
    }
}

fn in_values(alloc: Global, found: &mut NameSet, list: &[ExprTree]) -> Result<(), NoMemory>
    ensures { OnOk result (found.new ≡ fold with_name found.old (names.in_values (trees (map view
        list.now)))) }
{
    for tree in list {
        in_value(alloc, found, tree)?;
    }
    Ok(())
}

// The names in a type.
#[cycle(mentions)]
#[tactic(auto, using(std::proofs::lemmas::Grind::common_steps, ui_tree::specs::Views::type_variants, crate::proofs::MentionLemmas::finding))]
fn in_type(alloc: Global, found: &mut NameSet, of: &TypeExpr) -> Result<(), NoMemory>
    ensures { OnOk result (found.new ≡ fold with_name found.old (names.in_type (type_view
        of.now))) }
{
    match of {
        TypeExpr::Named { name, member, .. } => match member {
            None => Ok(()),
            Some(_) => add(alloc, found, &name.text),
        },
        TypeExpr::Parenthesized { of, .. } => in_type(alloc, found, of.get()),
        TypeExpr::Pointer { of, .. } => in_type(alloc, found, of.get()),
        TypeExpr::Slice { of, .. } => in_type(alloc, found, of.get()),
        TypeExpr::Array { len, of, .. } => {
            in_value(alloc, found, len.get())?;
            in_type(alloc, found, of.get())
        }
        TypeExpr::Counted { of, .. } => in_type(alloc, found, of.get()),
        TypeExpr::Map { key, of, .. } => {
            in_type(alloc, found, key.get())?;
            in_type(alloc, found, of.get())
        }
        TypeExpr::Func { sig, .. } => {
            in_groups(alloc, found, sig.params.as_slice())?;
            in_results(alloc, found, &sig.results)
        }
        TypeExpr::Listed { groups, .. } => in_groups(alloc, found, groups.as_slice()),
        TypeExpr::Struct { fields, .. } => in_groups(alloc, found, fields.as_slice()),
        TypeExpr::Interface { .. } => Ok(()),
        TypeExpr::Method { .. } => Ok(()),
        TypeExpr::Union { .. } => Ok(()),
        TypeExpr::Tilde { .. } => Ok(()),
    }
}

// The names in the types of groups.
#[cycle(mentions)]
fn in_groups(
    alloc: Global,
    found: &mut NameSet,
    list: &[Group<Boxed<TypeExpr>>],
) -> Result<(), NoMemory>
    ensures { OnOk result (found.new ≡ fold with_name found.old (names.in_groups (groups kept
        (map (group_with type_view) list.now)))) }
{
    for group in list {
        in_type(alloc, found, group.of.get())?;
    }
    Ok(())
}

// The names in results.
#[cycle(mentions)]
fn in_results(
    alloc: Global,
    found: &mut NameSet,
    results: &Option<Boxed<TypeExpr>>,
) -> Result<(), NoMemory>
    ensures { OnOk result (found.new ≡ fold with_name found.old (names.in_maybe (maybe_type
        (option_map type_view results.now)))) }
{
    match results {
        None => Ok(()),
        Some(of) => in_type(alloc, found, of.get()),
    }
}

// ---- declarations

// The names in a type, where one is written.
fn in_maybe(alloc: Global, found: &mut NameSet, of: &Option<TypeExpr>) -> Result<(), NoMemory>
    ensures { OnOk result (found.new ≡ fold with_name found.old (names.in_maybe (maybe_type_view
        of.now))) }
{
    match of {
        None => Ok(()),
        Some(of) => in_type(alloc, found, of),
    }
}

// The names in a specification of constants or variables.
fn in_value_spec(alloc: Global, found: &mut NameSet, spec: &ValueSpec) -> Result<(), NoMemory>
    ensures { OnOk result (found.new ≡ fold with_name found.old (names.in_value_group (value_view
        spec.now))) }
{
    in_maybe(alloc, found, &spec.of)?;
    match &spec.values {
        None => Ok(()),
        Some(values) => in_values(alloc, found, values.as_slice()),
    }
}

fn in_value_list(alloc: Global, found: &mut NameSet, list: &[ValueSpec]) -> Result<(), NoMemory>
    ensures { OnOk result (found.new ≡ fold with_name found.old (flat_map names.in_value_group
        (map value_view list.now))) }
{
    for spec in list {
        in_value_spec(alloc, found, spec)?;
    }
    Ok(())
}

fn in_value_specs(
    alloc: Global,
    found: &mut NameSet,
    specs: &Specs<ValueSpec>,
) -> Result<(), NoMemory>
    ensures { OnOk result (found.new ≡ fold with_name found.old (names.in_specs
        names.in_value_group (specs_with value_view specs.now))) }
{
    match specs {
        Specs::One(spec) => in_value_spec(alloc, found, spec),
        Specs::Grouped(list) => in_value_list(alloc, found, list.as_slice()),
    }
}

fn in_type_list(alloc: Global, found: &mut NameSet, list: &[TypeSpec]) -> Result<(), NoMemory>
    ensures { OnOk result (found.new ≡ fold with_name found.old (flat_map names.in_type_group
        (map type_spec_view list.now))) }
{
    for spec in list {
        in_type(alloc, found, &spec.of)?;
    }
    Ok(())
}

fn in_type_specs(
    alloc: Global,
    found: &mut NameSet,
    specs: &Specs<TypeSpec>,
) -> Result<(), NoMemory>
    ensures { OnOk result (found.new ≡ fold with_name found.old (names.in_specs
        names.in_type_group (specs_with type_spec_view specs.now))) }
{
    match specs {
        Specs::One(spec) => in_type(alloc, found, &spec.of),
        Specs::Grouped(list) => in_type_list(alloc, found, list.as_slice()),
    }
}

fn in_decl(alloc: Global, found: &mut NameSet, decl: &DeclTree) -> Result<(), NoMemory>
    ensures { OnOk result (found.new ≡ fold with_name found.old (names.in_decl (decl_view
        decl.now))) }
{
    match decl {
        DeclTree::Common(CommonTree::Const { specs, .. })
        | DeclTree::Common(CommonTree::Var { specs, .. }) => in_value_specs(alloc, found, specs),
        DeclTree::Type { specs, .. } => in_type_specs(alloc, found, specs),
        DeclTree::Method { .. } => Ok(()),
        DeclTree::Func { sig, .. } => {
            in_groups(alloc, found, sig.params.as_slice())?;
            in_results(alloc, found, &sig.results)
        }
    }
}

/// The names of a file that stand where an import's name may stand, each once.
#[tactic(auto, using(std::proofs::lemmas::Grind::common_steps, crate::proofs::MentionLemmas::finding), unfolding(crate::specs::Mentions::in_file))]
pub(crate) fn in_file(alloc: Global, file: &FileTree) -> Result<NameSet, NoMemory>
    ensures { IfOk result (λ found. found ≡ names.each_once (names.in_file (file_view
        file.now))) }
{
    let mut found = NameSet::new(alloc);
    for decl in file.decls.as_slice() {
        in_decl(alloc, &mut found, decl)?;
    }
    Ok(found)
}
