// What names stand for as types, in an environment.
ghost use Rattle.std.specs.Prelude.{◌≡◌, IfSome, option_map};
ghost use Rattle.ui_types.specs.Table.{Grows};
ghost use Rattle.ui_types.specs.Decls.{IsDecl, IsFace, shown_decl, shown_face, shown_params};
ghost use Rattle.ui_types.specs.Kept.{Kept};
ghost use Rattle.ui_scopes.specs.Scopes.{IsScope, shown_scope, world};
ghost use Rattle.ui_scopes.specs.Standing.{Stands};
ghost use Rattle.ui_face_rules.specs.TypeNames as names;
ghost use Rattle.ui_type_names.specs.Views.{GivesType};

use crate::faults::{not_type, undefined};
use crate::found::{Found, found_name};
use crate::predeclared::named_of;
use std::alloc::Global;
use ui_base::{CheckFault, FaultKind, Name, Spot, Text};
use ui_scopes::{Scope, refusal};
use ui_tree::Placed;
use ui_types::{Decl, Env, Face, TParams, TypeId, TypeTable};

// A defined type by its name, where it has no parameters.
fn defined_type(
    alloc: Global,
    table: &mut TypeTable,
    file: &Text,
    at: Spot,
    name: &Name,
    params: &TParams,
) -> Result<TypeId, CheckFault>
    ensures answer { GivesType table.new (names.defined_type file.now at name.now (shown_params
        table.old params.now)) result }
    ensures grows { Grows table.old table.new }
{
    match params.items() {
        [] => named_of(alloc, table, file, at, name),
        [_, ..] => Err(refusal(alloc, file, at, FaultKind::NeedsArgs, b"")),
    }
}

fn face_type(
    alloc: Global,
    table: &mut TypeTable,
    file: &Text,
    at: Spot,
    name: &Name,
    face: &Face,
) -> Result<TypeId, CheckFault>
    requires { IsFace table.old face.now }
    ensures answer { GivesType table.new (names.face_type file.now at name.now (shown_face
        table.old face.now)) result }
    ensures grows { Grows table.old table.new }
{
    match face {
        Face::Alias { ty } => Ok(*ty),
        Face::Const { .. } | Face::Var { .. } | Face::Func { .. } => {
            Err(not_type(alloc, file, at))
        }
        Face::Defined { params, .. } => defined_type(alloc, table, file, at, name, params),
    }
}

fn found_type(
    alloc: Global,
    table: &mut TypeTable,
    file: &Text,
    at: Spot,
    name: &Name,
    found: &Option<Decl>,
) -> Result<TypeId, CheckFault>
    requires { IfSome found.now (IsDecl table.old) }
    ensures answer { GivesType table.new (names.found_type file.now at name.now (option_map
        (shown_decl table.old) found.now)) result }
    ensures grows { Grows table.old table.new }
{
    match found {
        Some(decl) => face_type(alloc, table, file, at, name, &decl.face),
        None => Err(undefined(alloc, file, at, &name.name)),
    }
}

// What the environment declares the name as.
fn object_type<E: Env>(
    alloc: Global,
    env: &mut E,
    table: &mut TypeTable,
    file: &Text,
    at: Spot,
    name: &Name,
) -> Result<TypeId, CheckFault>
    requires { Stands E.packages E.decls E.fits env.old table.old }
    ensures answer { GivesType table.new (names.object_type (world (E.packages env.old) (E.decls
        env.old table.old)) file.now at name.now) result }
    ensures kept { Kept E.packages E.lent E.decls E.fits env.old table.old env.new table.new }
{
    match env.decl(alloc, table, name) {
        Ok(found) => found_type(alloc, table, file, at, name, &found),
        Err(_) => Err(CheckFault::NoMemory),
    }
}

/// What `T`, or `Q.T`, stands for as a type. Go specification, "Types", "Qualified identifiers".
///
/// # Errors
///
/// `Undefined`, `NotType`, `OutsideName`, `NeedsArgs`, `NotExported`, all at the first name.
pub fn named_type<E: Env>(
    alloc: Global,
    env: &mut E,
    table: &mut TypeTable,
    scope: &Scope,
    name: &Placed,
    member: &Option<Placed>,
) -> Result<TypeId, CheckFault>
    requires env { Stands E.packages E.decls E.fits env.old table.old }
    requires scope { IsScope table.old scope.now }
    ensures answer { GivesType table.new (names.named_type (world (E.packages env.old) (E.decls
        env.old table.old)) (shown_scope table.old scope.now) name.now member.now) result }
    ensures kept { Kept E.packages E.lent E.decls E.fits env.old table.old env.new table.new }
{
    match found_name(alloc, table, scope, name, member) {
        Ok(Found::Known(t)) => Ok(t),
        Ok(Found::Declared(object)) => {
            object_type(alloc, env, table, &scope.file, name.spot, &object)
        }
        Err(fault) => Err(fault),
    }
}
