//! Types in a short notation.
//!
//! Types are written after their parts, a letter each: `i` int, `r` int32, `s` string, `b` bool;
//! `I`, `R`, `S`, `B`, `N` the untyped kinds int, rune, string, bool and nil; a digit a type
//! parameter by its number; `/` a slice, `*` a pointer, `a` and `A` arrays of lengths 3 and 4, `m`
//! a map, `f` a function of one parameter and one result, `g` a function of one parameter, `t` and
//! `u` structs with a field `X` or `Y`; `L` the declared type `L`, and `G`, `D` and `W` declared
//! types with one argument.
ghost use Rattle.std.specs.Prelude.{◌≡◌, ◌++◌, [], ◌∷◌, IfOk, OnOk, map};
ghost use Rattle.ui_types.specs.Table.{Table, IsId, AreIds, IsNode, Grows};

use std::alloc::Global;
use ui_types::{
    Basic, Field, Fields, Ids, Name, NoMemory, Text, TypeFault, TypeId, TypeNode, TypeTable,
};

pub fn name(alloc: Global, text: &[u8]) -> Result<Name, NoMemory> {
    let path = Text::new(Vec::new(alloc));
    let name = Text::from_slice(alloc, text)?;
    Ok(Name { path, name })
}

fn no_ids(alloc: Global) -> Ids
    ensures { result ≡ [] }
{
    Ids::new(Vec::new(alloc))
}

fn one_id(alloc: Global, id: TypeId) -> Result<Ids, NoMemory>
    ensures value { IfOk result (λ ids. ids ≡ id ∷ []) }
    ensures valid { (table : Table) → IsId table id → IfOk result (AreIds table) }
{
    let mut ids = Vec::new(alloc);
    ids.push(id)?;
    Ok(Ids::new(ids))
}

fn one_field(alloc: Global, text: &[u8], ty: TypeId) -> Result<Fields, NoMemory>
    ensures { IfOk result (λ fields. map (λ f. f.ty) fields ≡ ty ∷ []) }
{
    let name = name(alloc, text)?;
    let mut fields = Vec::new(alloc);
    fields.push(Field { name, ty })?;
    Ok(Fields::new(fields))
}

fn declared(alloc: Global, text: &[u8], args: Ids) -> Result<TypeNode, NoMemory>
    ensures { (table : Table) → AreIds table args → IfOk result (IsNode table) }
{
    let name = name(alloc, text)?;
    Ok(TypeNode::Named { name, args })
}

fn basic(letter: u8) -> Basic {
    match letter {
        b'r' => Basic::Int32,
        b's' => Basic::String,
        b'b' => Basic::Bool,
        b'I' => Basic::UntypedInt,
        b'R' => Basic::UntypedRune,
        b'S' => Basic::UntypedString,
        b'B' => Basic::UntypedBool,
        b'N' => Basic::UntypedNil,
        _ => Basic::Int,
    }
}

// A type of one or two others.
fn compound(alloc: Global, letter: u8, before: TypeId, last: TypeId) -> Result<TypeNode, NoMemory>
    ensures { (table : Table) → IsId table before → IsId table last → IfOk result (IsNode table) }
{
    match letter {
        b'*' => Ok(TypeNode::Pointer(last)),
        b'a' => Ok(TypeNode::Array { len: 3, elem: last }),
        b'A' => Ok(TypeNode::Array { len: 4, elem: last }),
        b't' => Ok(TypeNode::Struct(one_field(alloc, b"X", last)?)),
        b'u' => Ok(TypeNode::Struct(one_field(alloc, b"Y", last)?)),
        b'm' => Ok(TypeNode::Map {
            key: before,
            elem: last,
        }),
        b'f' => Ok(TypeNode::Func {
            params: one_id(alloc, before)?,
            results: one_id(alloc, last)?,
        }),
        b'g' => Ok(TypeNode::Func {
            params: one_id(alloc, last)?,
            results: no_ids(alloc),
        }),
        b'G' => declared(alloc, b"G", one_id(alloc, last)?),
        b'D' => declared(alloc, b"D", one_id(alloc, last)?),
        b'W' => declared(alloc, b"W", one_id(alloc, last)?),
        _ => Ok(TypeNode::Slice(last)),
    }
}

// The last type, and `int` where there is none.
fn popped(
    alloc: Global,
    table: &mut TypeTable,
    stack: &mut Vec<TypeId>,
) -> Result<TypeId, TypeFault>
    requires { AreIds table.old stack.old.items }
    ensures id { IfOk result (IsId table.new) }
    ensures stack { AreIds table.new stack.new.items }
    ensures grows { Grows table.old table.new }
{
    match stack.pop() {
        Some(id) => Ok(id),
        None => table.intern(alloc, TypeNode::Basic(Basic::Int)),
    }
}

fn put_id(stack: &mut Vec<TypeId>, id: TypeId) -> Result<(), NoMemory>
    ensures { OnOk result (stack.new.items ≡ stack.old.items ++ id ∷ []) }
{
    stack.push(id)?;
    Ok(())
}

fn pushed(
    alloc: Global,
    table: &mut TypeTable,
    stack: &mut Vec<TypeId>,
    node: TypeNode,
) -> Result<(), TypeFault>
    requires stack { AreIds table.old stack.old.items }
    requires node { IsNode table.old node }
    ensures stack { OnOk result (AreIds table.new stack.new.items) }
    ensures grows { Grows table.old table.new }
{
    let id = table.intern(alloc, node)?;
    put_id(stack, id)?;
    Ok(())
}

// The type before the last, where there are two parts.
fn before(
    alloc: Global,
    table: &mut TypeTable,
    stack: &mut Vec<TypeId>,
    letter: u8,
    last: TypeId,
) -> Result<TypeId, TypeFault>
    requires stack { AreIds table.old stack.old.items }
    requires last { IsId table.old last }
    ensures id { IfOk result (IsId table.new) }
    ensures stack { AreIds table.new stack.new.items }
    ensures grows { Grows table.old table.new }
{
    if letter == b'm' || letter == b'f' {
        return popped(alloc, table, stack);
    }
    Ok(last)
}

fn put_compound(
    alloc: Global,
    table: &mut TypeTable,
    stack: &mut Vec<TypeId>,
    letter: u8,
) -> Result<(), TypeFault>
    requires { AreIds table.old stack.old.items }
    ensures stack { OnOk result (AreIds table.new stack.new.items) }
    ensures grows { Grows table.old table.new }
{
    let last = popped(alloc, table, stack)?;
    let before = before(alloc, table, stack, letter, last)?;
    let node = compound(alloc, letter, before, last)?;
    pushed(alloc, table, stack, node)
}

// Puts the type of a letter in the place of its parts.
fn put(
    alloc: Global,
    table: &mut TypeTable,
    stack: &mut Vec<TypeId>,
    letter: u8,
) -> Result<(), TypeFault>
    requires { AreIds table.old stack.old.items }
    ensures stack { OnOk result (AreIds table.new stack.new.items) }
    ensures grows { Grows table.old table.new }
{
    match letter {
        b'0'..=b'9' => pushed(
            alloc,
            table,
            stack,
            TypeNode::Param(u32::from(letter - b'0')),
        ),
        b'L' => {
            let node = declared(alloc, b"L", no_ids(alloc))?;
            pushed(alloc, table, stack, node)
        }
        b'i' | b'r' | b's' | b'b' | b'I' | b'R' | b'S' | b'B' | b'N' => {
            pushed(alloc, table, stack, TypeNode::Basic(basic(letter)))
        }
        _ => put_compound(alloc, table, stack, letter),
    }
}

/// The types that are written one after another.
pub fn read(alloc: Global, table: &mut TypeTable, text: &str) -> Result<Vec<TypeId>, TypeFault>
    ensures ids { IfOk result (λ v. AreIds table.new v.items) }
    ensures grows { Grows table.old table.new }
{
    let mut stack = Vec::new(alloc);
    for letter in text.as_bytes() {
        put(alloc, table, &mut stack, *letter)?;
    }
    Ok(stack)
}

/// The last type that is written.
pub fn read_one(alloc: Global, table: &mut TypeTable, text: &str) -> Result<TypeId, TypeFault>
    ensures id { IfOk result (IsId table.new) }
    ensures grows { Grows table.old table.new }
{
    let mut stack = read(alloc, table, text)?;
    popped(alloc, table, &mut stack)
}

/// The first type parameter under 255 pointers.
pub fn deep(alloc: Global, table: &mut TypeTable) -> Result<TypeId, TypeFault>
    ensures id { IfOk result (IsId table.new) }
    ensures grows { Grows table.old table.new }
{
    let mut made = read_one(alloc, table, "0")?;
    for _ in 0..255 {
        made = table.intern(alloc, TypeNode::Pointer(made))?;
    }
    Ok(made)
}

/// A map of maps, as large as a type may be, over the first type parameter.
pub fn large(alloc: Global, table: &mut TypeTable) -> Result<TypeId, TypeFault>
    ensures id { IfOk result (IsId table.new) }
    ensures grows { Grows table.old table.new }
{
    let mut made = read_one(alloc, table, "0")?;
    for _ in 0..15 {
        made = table.intern(
            alloc,
            TypeNode::Map {
                key: made,
                elem: made,
            },
        )?;
    }
    Ok(made)
}
