//! What names and selectors of packages stand for.
ghost use Rattle.std.specs.Prelude.{◌≡◌, Ok, IfOk, IfSome, option_map, bytes_eq};
ghost use Rattle.std.specs.List.{list_any};
ghost use Rattle.ui_types.specs.Table.{IsId, Grows, tree};
ghost use Rattle.ui_types.specs.Decls.{IsFace, IsDecl, shown_face, shown_decl};
ghost use Rattle.ui_types.specs.Kept.{Kept};
ghost use Rattle.ui_scopes.specs.Scopes.{world, IsMeaning, IsScope, shown_meaning, shown_scope};
ghost use Rattle.ui_scopes.specs.Standing.{Stands};
ghost use Rattle.ui_scopes.specs.Steps.{Gives, GivesOperand};
ghost use Rattle.ui_base.specs.declared.value.Value.TheVariants.{Truth};
ghost use Rattle.ui_base.specs.declared.kind.Basic.TheVariants.{UntypedBool};
ghost use Rattle.ui_types.specs.Ty.{basic};
ghost use Rattle.ui_rules.specs.Constants as constants;
ghost use Rattle.ui_rules.specs.Names as names;

use crate::constants::constant_operand;
use crate::forms::not_taken;
use crate::kinds::holds;
use std::alloc::Global;
use ui_scopes::{Meaning, Operand, Scope, copy_value, make_type, refusal, under_at};
use ui_tree::Placed;
use ui_types::{
    Basic, CheckFault, Env, Face, FaultKind, Name, NoMemory, Spot, Text, TypeId, TypeNode,
    TypeTable, Value, is_exported,
};

// A declared constant, by its type's underlying type.
fn constant_object(
    alloc: Global,
    table: &TypeTable,
    file: &Text,
    at: Spot,
    ty: TypeId,
    value: &Value,
    under: TypeId,
) -> Result<Operand, CheckFault>
    requires ty { IsId table.now ty }
    requires under { IsId table.now under }
    ensures { GivesOperand table.now (names.constant_object file.now at
        (tree table.now ty) value.now (tree table.now under)) result }
{
    if let TypeNode::Basic(kind) = table.node(under) {
        if holds(*kind, value) {
            let value = copy_value(alloc, value)?;
            return Ok(constant_operand(alloc, ty, value)?);
        }
    }
    Err(not_taken(alloc, file, at))
}

// What a declaration makes of its name.
fn object_face<E: Env>(
    alloc: Global,
    env: &mut E,
    table: &mut TypeTable,
    file: &Text,
    at: Spot,
    face: &Face,
) -> Result<Operand, CheckFault>
    requires env { Stands E.packages E.decls E.fits env.old table.old }
    requires face { IsFace table.old face.now }
    ensures answer { GivesOperand table.new (names.object_face (world (E.packages env.old)
        (E.decls env.old table.old)) file.now at (shown_face table.old face.now)) result }
    ensures kept { Kept E.packages E.lent E.decls E.fits env.old table.old env.new table.new }
{
    match face {
        Face::Const { ty, value } => {
            let under = under_at(alloc, env, table, file, at, *ty)?;
            constant_object(alloc, table, file, at, *ty, value, under)
        }
        _ => Err(not_taken(alloc, file, at)),
    }
}

/// A name of a package.
pub(crate) fn object_operand<E: Env>(
    alloc: Global,
    env: &mut E,
    table: &mut TypeTable,
    file: &Text,
    at: Spot,
    name: &Name,
) -> Result<Operand, CheckFault>
    requires env { Stands E.packages E.decls E.fits env.old table.old }
    ensures answer { GivesOperand table.new (names.object_operand (world (E.packages env.old)
        (E.decls env.old table.old)) file.now at name.now) result }
    ensures kept { Kept E.packages E.lent E.decls E.fits env.old table.old env.new table.new }
{
    let found = env.decl(alloc, table, name)?;
    match &found {
        Some(decl) => object_face(alloc, env, table, file, at, &decl.face),
        None => Err(refusal(alloc, file, at, FaultKind::Undefined, name.name.bytes())),
    }
}

/// The predeclared names that this language leaves out.
const OUTSIDE: [&str; 13] = [
    "float32",
    "float64",
    "complex64",
    "complex128",
    "uintptr",
    "clear",
    "close",
    "complex",
    "imag",
    "print",
    "println",
    "real",
    "recover",
];

/// The predeclared names that aren't taken yet.
const LATER: [&str; 28] = [
    "any",
    "bool",
    "byte",
    "comparable",
    "error",
    "int",
    "int8",
    "int16",
    "int32",
    "int64",
    "rune",
    "string",
    "uint",
    "uint8",
    "uint16",
    "uint32",
    "uint64",
    "nil",
    "append",
    "cap",
    "copy",
    "delete",
    "len",
    "make",
    "max",
    "min",
    "new",
    "panic",
];

// Whether the bytes are one of the words.
fn is_among(words: &[&str], bytes: &[u8]) -> bool
    ensures { result ≡ list_any (λ word. bytes_eq word.now bytes.now) words.now }
{
    words.iter().any(|word| word.as_bytes() == bytes)
}

// Whether it is a predeclared name that is left out.
#[tactic(auto, unfolding(ui_rules::specs::Names::is_outside))]
fn is_outside(name: &[u8]) -> bool
    ensures { result ≡ names.is_outside name.now }
{
    is_among(&OUTSIDE, name)
}

// Whether it is a predeclared name that isn't taken yet.
#[tactic(auto, unfolding(ui_rules::specs::Names::is_later))]
fn is_later(name: &[u8]) -> bool
    ensures { result ≡ names.is_later name.now }
{
    is_among(&LATER, name)
}

// A truth value as a constant.
fn truth(
    alloc: Global,
    table: &mut TypeTable,
    file: &Text,
    at: Spot,
    value: bool,
) -> Result<Operand, CheckFault>
    ensures answer { GivesOperand table.new (Ok (constants.constant_operand (basic UntypedBool)
        (Truth value))) result }
    ensures grows { Grows table.old table.new }
{
    let ty = make_type(alloc, table, file, at, TypeNode::Basic(Basic::UntypedBool))?;
    Ok(constant_operand(alloc, ty, Value::Truth(value))?)
}

// A predeclared name.
fn predeclared_operand(
    alloc: Global,
    table: &mut TypeTable,
    file: &Text,
    at: Spot,
    name: &[u8],
) -> Result<Operand, CheckFault>
    ensures answer { GivesOperand table.new (names.predeclared_operand file.now at name.now)
        result }
    ensures grows { Grows table.old table.new }
{
    if name == b"true".as_slice() {
        return truth(alloc, table, file, at, true);
    }
    if name == b"false".as_slice() {
        return truth(alloc, table, file, at, false);
    }
    if is_outside(name) {
        return Err(refusal(alloc, file, at, FaultKind::OutsideName, name));
    }
    if is_later(name) {
        return Err(not_taken(alloc, file, at));
    }
    Err(refusal(alloc, file, at, FaultKind::Undefined, name))
}

// What a meaning makes of a name.
fn meaning_operand<E: Env>(
    alloc: Global,
    env: &mut E,
    table: &mut TypeTable,
    file: &Text,
    name: &Placed,
    meaning: Option<&Meaning>,
) -> Result<Operand, CheckFault>
    requires env { Stands E.packages E.decls E.fits env.old table.old }
    requires meaning { IfSome meaning (λ m. IsMeaning table.old m.now) }
    ensures answer { GivesOperand table.new (names.meaning_operand (world (E.packages env.old)
        (E.decls env.old table.old)) file.now name.now (option_map
        (λ m. shown_meaning table.old m.now) meaning.entry)) result }
    ensures kept { Kept E.packages E.lent E.decls E.fits env.old table.old env.new table.new }
{
    let at = name.spot;
    let Some(meaning) = meaning else {
        return Err(refusal(alloc, file, at, FaultKind::Undefined, name.text.bytes()));
    };
    match meaning {
        Meaning::Object(object) => object_operand(alloc, env, table, file, at, object),
        Meaning::Package(path) => Ok(Operand::Package(path.copy(alloc)?)),
        Meaning::Predeclared(word) => predeclared_operand(alloc, table, file, at, word.bytes()),
        Meaning::Param(_) | Meaning::Local { .. } => Err(not_taken(alloc, file, at)),
        Meaning::Const { ty, value } => {
            let value = copy_value(alloc, value)?;
            Ok(constant_operand(alloc, *ty, value)?)
        }
    }
}

/// A name as an operand. `Undefined` where it has no meaning or is `_`. Go specification,
/// "Declarations and scope".
pub fn name_operand<E: Env>(
    alloc: Global,
    env: &mut E,
    table: &mut TypeTable,
    scope: &Scope,
    name: &Placed,
) -> Result<Operand, CheckFault>
    requires env { Stands E.packages E.decls E.fits env.old table.old }
    requires scope { IsScope table.old scope.now }
    ensures answer { GivesOperand table.new (names.name_operand (world (E.packages env.old)
        (E.decls env.old table.old)) (shown_scope table.old scope.now) name.now) result }
    ensures kept { Kept E.packages E.lent E.decls E.fits env.old table.old env.new table.new }
{
    if name.text.bytes() == b"_".as_slice() {
        return Err(refusal(
            alloc,
            &scope.file,
            name.spot,
            FaultKind::Undefined,
            name.text.bytes(),
        ));
    }
    let meaning = scope.meaning(&name.text);
    meaning_operand(alloc, env, table, &scope.file, name, meaning)
}

/// A name selected from a package.
pub(crate) fn package_member<E: Env>(
    alloc: Global,
    env: &mut E,
    table: &mut TypeTable,
    file: &Text,
    at: Spot,
    path: &Text,
    name: &Text,
) -> Result<Operand, CheckFault>
    requires env { Stands E.packages E.decls E.fits env.old table.old }
    ensures answer { GivesOperand table.new (names.package_member (world (E.packages env.old)
        (E.decls env.old table.old)) file.now at path.now name.now) result }
    ensures kept { Kept E.packages E.lent E.decls E.fits env.old table.old env.new table.new }
{
    if !is_exported(name.bytes()) {
        return Err(refusal(alloc, file, at, FaultKind::NotExported, name.bytes()));
    }
    match member_name(alloc, path, name) {
        Ok(name) => object_operand(alloc, env, table, file, at, &name),
        Err(_) => Err(CheckFault::NoMemory),
    }
}

// The name in the package.
fn member_name(alloc: Global, path: &Text, name: &Text) -> Result<Name, NoMemory>
    ensures { IfOk result (λ n. n ≡ record { path = path.now; name = name.now }) }
{
    let path = path.copy(alloc)?;
    let name = name.copy(alloc)?;
    Ok(Name { path, name })
}
