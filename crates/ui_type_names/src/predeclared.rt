// Predeclared types.
ghost use Rattle.std.specs.Prelude.{◌≡◌, [], Ok, IfOk, bytes_eq, option_map};
ghost use Rattle.std.specs.List.{list_any};
ghost use Rattle.std.specs.Map.{lookup};
ghost use Rattle.ui_types.specs.Decls.{error_name};
ghost use Rattle.ui_types.specs.Table.{Grows};
ghost use Rattle.ui_types.specs.Ty.{basic, named, iface, no_types};
ghost use Rattle.ui_rules.specs.Names as rule_names;
ghost use Rattle.ui_face_rules.specs.TypeNames as names;
ghost use Rattle.ui_type_names.specs.Views.{GivesType};

use crate::faults::not_type;
use std::alloc::Global;
use ui_base::{Basic, CheckFault, FaultKind, Name, NoMemory, Spot, Text};
use ui_scopes::{make_type, refusal};
use ui_types::{Ids, Methods, TypeId, TypeNode, TypeTable};

/// The predeclared names that this language leaves out.
const OUTSIDE: [&str; 13] = [
    "float32",
    "float64",
    "complex64",
    "complex128",
    "uintptr",
    "clear",
    "close",
    "complex",
    "imag",
    "print",
    "println",
    "real",
    "recover",
];

// Whether the bytes are one of the words.
fn is_among(words: &[&str], bytes: &[u8]) -> bool
    ensures { result ≡ list_any (λ word. bytes_eq word.now bytes.now) words.now }
{
    words.iter().any(|word| word.as_bytes() == bytes)
}

// Whether it is a predeclared name that is left out.
#[tactic(auto, unfolding(ui_rules::specs::Names::is_outside))]
fn is_outside(name: &[u8]) -> bool
    ensures { result ≡ rule_names.is_outside name.now }
{
    is_among(&OUTSIDE, name)
}

// The kind of a predeclared basic type.
fn kind_of(name: &[u8]) -> Option<Basic>
    ensures { option_map basic result ≡ lookup (bytes_eq name.now) names.basic_types }
{
    if name == b"bool".as_slice() {
        return Some(Basic::Bool);
    }
    if name == b"string".as_slice() {
        return Some(Basic::String);
    }
    if name == b"int".as_slice() {
        return Some(Basic::Int);
    }
    if name == b"int8".as_slice() {
        return Some(Basic::Int8);
    }
    if name == b"int16".as_slice() {
        return Some(Basic::Int16);
    }
    if name == b"int32".as_slice() {
        return Some(Basic::Int32);
    }
    if name == b"int64".as_slice() {
        return Some(Basic::Int64);
    }
    if name == b"uint".as_slice() {
        return Some(Basic::Uint);
    }
    if name == b"uint8".as_slice() {
        return Some(Basic::Uint8);
    }
    if name == b"uint16".as_slice() {
        return Some(Basic::Uint16);
    }
    if name == b"uint32".as_slice() {
        return Some(Basic::Uint32);
    }
    if name == b"uint64".as_slice() {
        return Some(Basic::Uint64);
    }
    if name == b"byte".as_slice() {
        return Some(Basic::Uint8);
    }
    if name == b"rune".as_slice() {
        return Some(Basic::Int32);
    }
    None
}

/// A declared type without arguments.
#[tactic(auto, using(ui_types::specs::Trees::growth, ui_scopes::specs::Steps::stepping, crate::proofs::MadeLemmas::making))]
pub(crate) fn named_of(
    alloc: Global,
    table: &mut TypeTable,
    file: &Text,
    at: Spot,
    name: &Name,
) -> Result<TypeId, CheckFault>
    ensures answer { GivesType table.new (Ok (named name.now no_types)) result }
    ensures grows { Grows table.old table.new }
{
    let name = name.copy(alloc)?;
    let args = Ids::new(Vec::new(alloc));
    make_type(alloc, table, file, at, TypeNode::Named { name, args })
}

/// An interface without methods, with or without the test of `comparable`.
#[tactic(auto, using(ui_types::specs::Trees::growth, ui_scopes::specs::Steps::stepping, crate::proofs::MadeLemmas::making))]
pub fn empty_interface(
    alloc: Global,
    table: &mut TypeTable,
    file: &Text,
    at: Spot,
    comparable: bool,
) -> Result<TypeId, CheckFault>
    ensures answer { GivesType table.new (Ok (iface [] no_types comparable no_types)) result }
    ensures grows { Grows table.old table.new }
{
    let methods = Methods::new(Vec::new(alloc));
    let unions = Ids::new(Vec::new(alloc));
    let node = TypeNode::Iface {
        methods,
        comparable,
        unions,
    };
    make_type(alloc, table, file, at, node)
}

// The name of the predeclared type `error`.
fn universe_error(alloc: Global) -> Result<Name, NoMemory>
    ensures { IfOk result (λ n. n ≡ error_name) }
{
    let path = Text::from_slice(alloc, b"builtin")?;
    let name = Text::from_slice(alloc, b"error")?;
    Ok(Name { path, name })
}

// A predeclared name that isn't that of a basic type.
fn interface_type(
    alloc: Global,
    table: &mut TypeTable,
    file: &Text,
    at: Spot,
    name: &[u8],
) -> Result<TypeId, CheckFault>
    ensures answer { GivesType table.new (names.predeclared_else file.now at name.now (lookup
        (bytes_eq name.now) names.interface_types)) result }
    ensures grows { Grows table.old table.new }
{
    if name == b"any".as_slice() {
        return empty_interface(alloc, table, file, at, false);
    }
    if name == b"comparable".as_slice() {
        return empty_interface(alloc, table, file, at, true);
    }
    if name == b"error".as_slice() {
        let error = universe_error(alloc)?;
        return named_of(alloc, table, file, at, &error);
    }
    if is_outside(name) {
        return Err(refusal(alloc, file, at, FaultKind::OutsideName, name));
    }
    Err(not_type(alloc, file, at))
}

/// A predeclared name as a type.
#[tactic(auto, using(ui_types::specs::Trees::growth, ui_scopes::specs::Steps::stepping), unfolding(ui_face_rules::specs::TypeNames::predeclared_type))]
pub(crate) fn predeclared_type(
    alloc: Global,
    table: &mut TypeTable,
    file: &Text,
    at: Spot,
    name: &[u8],
) -> Result<TypeId, CheckFault>
    ensures answer { GivesType table.new (names.predeclared_type file.now at name.now) result }
    ensures grows { Grows table.old table.new }
{
    match kind_of(name) {
        Some(kind) => make_type(alloc, table, file, at, TypeNode::Basic(kind)),
        None => interface_type(alloc, table, file, at, name),
    }
}
