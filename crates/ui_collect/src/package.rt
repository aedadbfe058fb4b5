// The names that a package declares and imports.
ghost use Rattle.std.specs.Prelude.{◌≡◌, ◌∷◌, ◌++◌, [], false, map, IfOk, OnOk};
ghost use Rattle.std.specs.Option.{option_map};
ghost use Rattle.ui_tree.specs.View.{maybe_type};
ghost use Rattle.ui_tree.specs.StmtView.{decl_view, file_view, groups_view, import_view};
ghost use Rattle.ui_tree.specs.StmtView.{maybe_groups, maybe_type_view, specs_with, type_spec_view};
ghost use Rattle.ui_tree.specs.StmtView.{value_view};
ghost use Rattle.ui_scopes.specs.Steps.{Refuses, fault_at};
ghost use Rattle.ui_collect.specs.Names.{is_among, is_init, is_function_name, steps};
ghost use Rattle.ui_collect.specs.Lists as lists;
ghost use Rattle.ui_collect.specs.Package as rules;
ghost use Rattle.ui_collect.specs.Package.{Place, source_of};
ghost use Rattle.ui_collect.specs.Views.{Holds, Moves, Tells, at_place, imported_view};

use crate::before::{Before, NameSet, PackageNames};
use crate::lists::{is_blank, redeclared, sig_rule, type_rule};
use std::alloc::Global;
use ui_base::{NoMemory, Spot, Text};
use ui_scopes::refusal;
use ui_tree::{
    Boxed, CommonTree, DeclTree, FileTree, Group, ImportSpec, ImportTree, Items, Placed, Sig,
    Specs, TypeExpr, TypeSpec, ValueSpec,
};
use ui_types::{CheckFault, FaultKind};

/// A file, and the package that it is of.
#[derive(Clone, Copy)]
pub(crate) struct At<'a> {
    file: &'a Text,
    home: &'a Text,
    names: &'a PackageNames,
}

// Whether a name is that of a function without parameters and results alone.
fn is_function_name(home: &Text, name: &Text) -> bool
    ensures { result ≡ is_function_name home.now name.now }
{
    name.bytes() == b"init".as_slice()
        || (home.bytes() == b"main".as_slice() && name.bytes() == b"main".as_slice())
}

fn is_init(name: &Text) -> bool
    ensures { result ≡ is_init name.now }
{
    name.bytes() == b"init".as_slice()
}

// The fault of a name that functions alone may have.
fn main_shape(alloc: Global, at: &At<'_>, spot: Spot) -> CheckFault
    ensures { Refuses (Some (fault_at at.now.file.now spot FaultKind.MainShape [])) result }
{
    refusal(alloc, at.file, spot, FaultKind::MainShape, b"")
}

fn clause_rule(alloc: Global, at: &At<'_>, name: &Placed) -> Result<(), CheckFault>
    ensures { Holds (rules.clause_rule (at_place at.now) name.now) result }
{
    if is_blank(&name.text) || name.text.bytes() != at.home.bytes() {
        return Err(refusal(alloc, at.file, name.spot, FaultKind::PackageName, b""));
    }
    Ok(())
}

// ---- imports

// The name that the package of a path has.
fn package_name(alloc: Global, names: &PackageNames, path: &Text) -> Result<Text, NoMemory>
    ensures { IfOk result (λ n. n ≡ rules.package_name names.now path.now) }
{
    match names.find(path) {
        Some(name) => name.copy(alloc),
        None => Ok(Text::new(Vec::new(alloc))),
    }
}

/// The name that an import is known by, with its place.
pub fn known_as(alloc: Global, names: &PackageNames, spec: &ImportSpec) -> Result<Placed, NoMemory>
    ensures { IfOk result (λ p. p ≡ rules.known_as names.now spec.now.name spec.now.path) }
{
    match &spec.name {
        Some(name) => {
            let text = name.text.copy(alloc)?;
            Ok(Placed {
                spot: name.spot,
                text,
            })
        }
        None => {
            let text = package_name(alloc, names, &spec.path.text)?;
            Ok(Placed {
                spot: spec.path.spot,
                text,
            })
        }
    }
}

fn imported_rule(
    alloc: Global,
    at: &At<'_>,
    before: &mut Before,
    name: &Placed,
) -> Result<(), CheckFault>
    ensures { Moves (rules.imported_rule (at_place at.now) before.old name.now) result before.new }
{
    if is_blank(&name.text) {
        return Ok(());
    }
    if before.own.has(&name.text) || before.names.has(&name.text) {
        return Err(redeclared(alloc, at.file, name));
    }
    if is_function_name(at.home, &name.text) {
        return Err(main_shape(alloc, at, name.spot));
    }
    add_import(alloc, before, &name.text)?;
    Ok(())
}

// An import's name, which is new in its file.
fn add_import(alloc: Global, before: &mut Before, name: &Text) -> Result<(), NoMemory>
    requires { is_among before.old.own name.now ≡ false }
    ensures { OnOk result (before.new ≡ rules.imported before.old name.now) }
{
    before.own.add(name.copy(alloc)?)?;
    if !before.imports.has(name) {
        before.imports.add(name.copy(alloc)?)?;
    }
    Ok(())
}

fn spec_rule(
    alloc: Global,
    at: &At<'_>,
    before: &mut Before,
    spec: &ImportSpec,
) -> Result<(), CheckFault>
    ensures { Moves (rules.spec_rule (at_place at.now) before.old (imported_view spec.now)) result
        before.new }
{
    let name = known_as(alloc, at.names, spec)?;
    imported_rule(alloc, at, before, &name)
}

fn specs_rule(
    alloc: Global,
    at: &At<'_>,
    before: &mut Before,
    list: &[ImportSpec],
) -> Result<(), CheckFault>
    ensures { Moves (steps (rules.spec_rule (at_place at.now)) before.old (map imported_view
        list.now)) result before.new }
{
    for spec in list {
        spec_rule(alloc, at, before, spec)?;
    }
    Ok(())
}

fn import_rule(
    alloc: Global,
    at: &At<'_>,
    before: &mut Before,
    import: &ImportTree,
) -> Result<(), CheckFault>
    ensures { Moves (rules.import_rule (at_place at.now) before.old (import_view import.now))
        result before.new }
{
    match &import.specs {
        Specs::One(spec) => spec_rule(alloc, at, before, spec),
        Specs::Grouped(list) => specs_rule(alloc, at, before, list.as_slice()),
    }
}

fn imports_rule(
    alloc: Global,
    at: &At<'_>,
    before: &mut Before,
    list: &[ImportTree],
) -> Result<(), CheckFault>
    ensures { Moves (steps (rules.import_rule (at_place at.now)) before.old (map import_view
        list.now)) result before.new }
{
    for import in list {
        import_rule(alloc, at, before, import)?;
    }
    Ok(())
}

// ---- declarations

// A name that a declaration of the package has.
fn name_rule(
    alloc: Global,
    at: &At<'_>,
    plain: bool,
    before: &mut Before,
    name: &Placed,
) -> Result<(), CheckFault>
    ensures { Moves (rules.name_rule (at_place at.now) plain before.old name.now) result
        before.new }
{
    if is_blank(&name.text) {
        return Ok(());
    }
    if before.names.has(&name.text) || before.imports.has(&name.text) {
        return Err(redeclared(alloc, at.file, name));
    }
    if is_function_name(at.home, &name.text) && !plain {
        return Err(main_shape(alloc, at, name.spot));
    }
    declare(alloc, before, &name.text)?;
    Ok(())
}

// A new name, which `init` isn't.
fn declare(alloc: Global, before: &mut Before, name: &Text) -> Result<(), NoMemory>
    requires { is_among before.old.names name.now ≡ false }
    ensures { OnOk result (before.new ≡ rules.declared before.old name.now) }
{
    if !is_init(name) {
        before.names.add(name.copy(alloc)?)?;
    }
    Ok(())
}

fn names_rule(
    alloc: Global,
    at: &At<'_>,
    before: &mut Before,
    list: &[Placed],
) -> Result<(), CheckFault>
    ensures { Moves (steps (rules.name_rule (at_place at.now) false) before.old list.now) result
        before.new }
{
    for name in list {
        name_rule(alloc, at, false, before, name)?;
    }
    Ok(())
}

fn maybe_rule(alloc: Global, file: &Text, of: &Option<TypeExpr>) -> Result<(), CheckFault>
    ensures { Holds (lists.maybe_rule file.now (maybe_type_view of.now)) result }
{
    match of {
        None => Ok(()),
        Some(of) => type_rule(alloc, file, of),
    }
}

fn value_rule(
    alloc: Global,
    at: &At<'_>,
    before: &mut Before,
    spec: &ValueSpec,
) -> Result<(), CheckFault>
    ensures { Moves (rules.value_rule (at_place at.now) before.old (value_view spec.now)) result
        before.new }
{
    names_rule(alloc, at, before, spec.names.as_slice())?;
    maybe_rule(alloc, at.file, &spec.of)
}

fn type_spec_rule(
    alloc: Global,
    at: &At<'_>,
    before: &mut Before,
    spec: &TypeSpec,
) -> Result<(), CheckFault>
    ensures { Moves (rules.type_spec_rule (at_place at.now) before.old (type_spec_view spec.now))
        result before.new }
{
    name_rule(alloc, at, false, before, &spec.name)?;
    type_rule(alloc, at.file, &spec.of)
}

fn value_group(
    alloc: Global,
    at: &At<'_>,
    before: &mut Before,
    list: &[ValueSpec],
) -> Result<(), CheckFault>
    ensures { Moves (steps (rules.value_rule (at_place at.now)) before.old (map value_view
        list.now)) result before.new }
{
    for spec in list {
        value_rule(alloc, at, before, spec)?;
    }
    Ok(())
}

fn type_group(
    alloc: Global,
    at: &At<'_>,
    before: &mut Before,
    list: &[TypeSpec],
) -> Result<(), CheckFault>
    ensures { Moves (steps (rules.type_spec_rule (at_place at.now)) before.old (map type_spec_view
        list.now)) result before.new }
{
    for spec in list {
        type_spec_rule(alloc, at, before, spec)?;
    }
    Ok(())
}

fn values_rule(
    alloc: Global,
    at: &At<'_>,
    before: &mut Before,
    specs: &Specs<ValueSpec>,
) -> Result<(), CheckFault>
    ensures { Moves (rules.specs_rule (rules.value_rule (at_place at.now)) before.old (specs_with
        value_view specs.now)) result before.new }
{
    match specs {
        Specs::One(spec) => value_rule(alloc, at, before, spec),
        Specs::Grouped(list) => value_group(alloc, at, before, list.as_slice()),
    }
}

fn types_rule(
    alloc: Global,
    at: &At<'_>,
    before: &mut Before,
    specs: &Specs<TypeSpec>,
) -> Result<(), CheckFault>
    ensures { Moves (rules.specs_rule (rules.type_spec_rule (at_place at.now)) before.old
        (specs_with type_spec_view specs.now)) result before.new }
{
    match specs {
        Specs::One(spec) => type_spec_rule(alloc, at, before, spec),
        Specs::Grouped(list) => type_group(alloc, at, before, list.as_slice()),
    }
}

// Whether a function has neither parameters of types nor others nor results.
fn is_plain(params: &Option<Items<Group<Boxed<TypeExpr>>>>, sig: &Sig<Boxed<TypeExpr>>) -> bool
    ensures { result ≡ rules.is_plain (maybe_groups params.now) (groups_view sig.now.params)
        (maybe_type_view sig.now.results) }
{
    match params {
        Some(_) => false,
        None => match sig.params.as_slice() {
            [] => sig.results.is_none(),
            [_, ..] => false,
        },
    }
}

fn func_rule(
    alloc: Global,
    at: &At<'_>,
    before: &mut Before,
    name: &Placed,
    params: &Option<Items<Group<Boxed<TypeExpr>>>>,
    sig: &Sig<Boxed<TypeExpr>>,
) -> Result<(), CheckFault>
    ensures { Moves (rules.func_rule (at_place at.now) before.old name.now (maybe_groups
        params.now) (groups_view sig.now.params) (maybe_type_view sig.now.results)) result
        before.new }
{
    name_rule(alloc, at, is_plain(params, sig), before, name)?;
    sig_rule(alloc, at.file, sig)
}

fn decl_rule(
    alloc: Global,
    at: &At<'_>,
    before: &mut Before,
    decl: &DeclTree,
) -> Result<(), CheckFault>
    ensures { Moves (rules.decl_rule (at_place at.now) before.old (decl_view decl.now)) result
        before.new }
{
    match decl {
        DeclTree::Common(CommonTree::Const { specs, .. })
        | DeclTree::Common(CommonTree::Var { specs, .. }) => {
            values_rule(alloc, at, before, specs)
        }
        DeclTree::Type { specs, .. } => types_rule(alloc, at, before, specs),
        DeclTree::Method { .. } => Ok(()),
        DeclTree::Func {
            name,
            params,
            sig,
            ..
        } => func_rule(alloc, at, before, name, params, sig),
    }
}

fn decls_rule(
    alloc: Global,
    at: &At<'_>,
    before: &mut Before,
    list: &[DeclTree],
) -> Result<(), CheckFault>
    ensures { Moves (steps (rules.decl_rule (at_place at.now)) before.old (map decl_view
        list.now)) result before.new }
{
    for decl in list {
        decl_rule(alloc, at, before, decl)?;
    }
    Ok(())
}

// ---- files

// A file's clause, its imports and its declarations.
fn tree_rule(
    alloc: Global,
    at: &At<'_>,
    before: &mut Before,
    file: &FileTree,
) -> Result<(), CheckFault>
    ensures { Moves (rules.tree_rule (at_place at.now) before.old (file_view file.now)) result
        before.new }
{
    clause_rule(alloc, at, &file.package)?;
    before.own = NameSet::new(alloc);
    imports_rule(alloc, at, before, file.imports.as_slice())?;
    decls_rule(alloc, at, before, file.decls.as_slice())
}

fn file_rule(
    alloc: Global,
    home: &Text,
    names: &PackageNames,
    before: &mut Before,
    file: &FileTree,
) -> Result<(), CheckFault>
    ensures { Moves (rules.file_rule home.now names.now before.old (source_of file.now)) result
        before.new }
{
    let at = At {
        file: &file.file,
        home,
        names,
    };
    tree_rule(alloc, &at, before, file)
}

fn files_rule(
    alloc: Global,
    home: &Text,
    names: &PackageNames,
    before: &mut Before,
    files: &[FileTree],
) -> Result<(), CheckFault>
    ensures { Moves (steps (rules.file_rule home.now names.now) before.old (map source_of
        files.now)) result before.new }
{
    for file in files {
        file_rule(alloc, home, names, before, file)?;
    }
    Ok(())
}

/// The names that the files' declarations and imports have.
///
/// # Errors
///
/// The first of these faults, by files, and from left to right in each: `PackageName` at the name
/// of a package clause that is blank or differs from the first file's; `Redeclared` with the name,
/// at the later of two in one list of fields or of parameters and results, of two imports of a
/// file, of two declarations, or of an import and a declaration; `MainShape` at `init`, or in
/// package main at `main`, where it isn't the name of a function without parameters and results.
#[tactic(auto, using(std::proofs::lemmas::Grind::common_steps, crate::proofs::ListLemmas::starting))]
pub fn names_of(
    alloc: Global,
    names: &PackageNames,
    files: &[FileTree],
) -> Result<Before, CheckFault>
    ensures { Tells (λ b. b) (rules.names_of names.now (map source_of files.now)) result }
{
    let mut before = Before {
        names: NameSet::new(alloc),
        imports: NameSet::new(alloc),
        own: NameSet::new(alloc),
    };
    match files {
        [] => Ok(before),
        [first, ..] => {
            match files_rule(alloc, &first.package.text, names, &mut before, files) {
                Ok(()) => Ok(before),
                Err(fault) => Err(fault),
            }
        }
    }
}
