// What is found of a name before the environment is asked.
ghost use Rattle.std.specs.Prelude.{◌≡◌, IfSome, option_map};
ghost use Rattle.ui_base.specs.declared.name.Name.{Name};
ghost use Rattle.ui_types.specs.Table.{Grows, Table};
ghost use Rattle.ui_types.specs.Ty.{Ty};
ghost use Rattle.ui_scopes.specs.Scopes.{IsMeaning, IsScope, World, shown_meaning, shown_scope};
ghost use Rattle.ui_scopes.specs.Steps.{Checks};
ghost use Rattle.ui_face_rules.specs.TypeNames as names;
ghost use Rattle.ui_type_names.specs.Views.{Finds, GivesType};

use crate::faults::{not_taken, not_type, undefined};
use crate::predeclared::predeclared_type;
use std::alloc::Global;
use ui_base::{CheckFault, FaultKind, Name, Spot, Text, is_exported};
use ui_scopes::{Meaning, Scope, refusal};
use ui_tree::Placed;
use ui_types::{TypeId, TypeTable};

/// What a name stands for: a type, or what the environment declares this name as.
#[derive(Drop)]
pub(crate) enum Found {
    Known(TypeId),
    Declared(Name),
}

// A predeclared name.
fn predeclared(
    alloc: Global,
    table: &mut TypeTable,
    file: &Text,
    at: Spot,
    name: &Text,
) -> Result<Found, CheckFault>
    ensures answer { (object : World → Name → Checks Ty) → Finds table.new (λ w.
        names.predeclared_type file.now at name.now) object result }
    ensures grows { Grows table.old table.new }
{
    match predeclared_type(alloc, table, file, at, name.bytes()) {
        Ok(t) => Ok(Found::Known(t)),
        Err(fault) => Err(fault),
    }
}

// A name alone.
fn found_meaning(
    alloc: Global,
    table: &mut TypeTable,
    file: &Text,
    name: &Placed,
    meaning: Option<&Meaning>,
) -> Result<Found, CheckFault>
    requires { IfSome meaning (λ m. IsMeaning table.old m.now) }
    ensures answer { Finds table.new (λ w. names.meaning_type w file.now name.now (option_map (λ m.
        shown_meaning table.old m.now) meaning.entry)) (λ w n. names.object_type w file.now
        name.now.spot n) result }
    ensures grows { Grows table.old table.new }
{
    let at = name.spot;
    let Some(meaning) = meaning else {
        return Err(undefined(alloc, file, at, &name.text));
    };
    match meaning {
        Meaning::Object(object) => match object.copy(alloc) {
            Ok(object) => Ok(Found::Declared(object)),
            Err(_) => Err(CheckFault::NoMemory),
        },
        Meaning::Predeclared(word) => predeclared(alloc, table, file, at, word),
        Meaning::Param(_) => Err(not_taken(alloc, file, at)),
        Meaning::Package(_) | Meaning::Local { .. } | Meaning::Const { .. } => {
            Err(not_type(alloc, file, at))
        }
    }
}

// A name of a package.
fn package_name(
    alloc: Global,
    file: &Text,
    at: Spot,
    path: &Text,
    name: &Text,
) -> Result<Found, CheckFault>
    ensures { (table : Table) → Finds table (λ w. names.package_type w file.now at path.now
        name.now) (λ w n. names.object_type w file.now at n) result }
{
    if !is_exported(name.bytes()) {
        return Err(refusal(alloc, file, at, FaultKind::NotExported, name.bytes()));
    }
    let path = path.copy(alloc)?;
    let name = name.copy(alloc)?;
    Ok(Found::Declared(Name { path, name }))
}

// A name before a dot.
fn qualified_meaning(
    alloc: Global,
    table: &TypeTable,
    file: &Text,
    name: &Placed,
    member: &Text,
    meaning: Option<&Meaning>,
) -> Result<Found, CheckFault>
    ensures { Finds table.now (λ w. names.qualified_meaning w file.now name.now member.now
        (option_map (λ m. shown_meaning table.now m.now) meaning.entry)) (λ w n.
        names.object_type w file.now name.now.spot n) result }
{
    let _table = table;
    let at = name.spot;
    let Some(meaning) = meaning else {
        return Err(undefined(alloc, file, at, &name.text));
    };
    match meaning {
        Meaning::Package(path) => package_name(alloc, file, at, path, member),
        Meaning::Object(_)
        | Meaning::Predeclared(_)
        | Meaning::Param(_)
        | Meaning::Local { .. }
        | Meaning::Const { .. } => Err(not_type(alloc, file, at)),
    }
}

/// What `T`, or `Q.T`, stands for: a type, or what the environment declares a name as.
pub(crate) fn found_name(
    alloc: Global,
    table: &mut TypeTable,
    scope: &Scope,
    name: &Placed,
    member: &Option<Placed>,
) -> Result<Found, CheckFault>
    requires { IsScope table.old scope.now }
    ensures answer { Finds table.new (λ w. names.named_type w (shown_scope table.old scope.now)
        name.now member.now) (λ w n. names.object_type w scope.now.file name.now.spot n) result }
    ensures grows { Grows table.old table.new }
{
    if name.text.bytes() == b"_".as_slice() {
        return Err(undefined(alloc, &scope.file, name.spot, &name.text));
    }
    let meaning = scope.meaning(&name.text);
    match member {
        None => found_meaning(alloc, table, &scope.file, name, meaning),
        Some(member) => {
            qualified_meaning(alloc, table, &scope.file, name, &member.text, meaning)
        }
    }
}
