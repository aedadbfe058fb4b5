//! Types spelled in a short notation, from the inside out.
ghost use Rattle.std.specs.Prelude.{◌≡◌, ◌++◌, All, List, [], ◌∷◌, IfOk, IfSome, OnOk, None, map};
ghost use Rattle.ui_types.specs.Ty.{Ty};
ghost use Rattle.ui_types.specs.Table.{IsId, AreIds, IsNode, Grows};
ghost use Rattle.ui_set_tests.specs.Desk.{IsDesk};

use std::alloc::Global;
use ui_types::{
    Basic, Field, Fields, Ids, Method, Methods, Name, NoMemory, Term, Terms, Text, TypeFault,
    TypeId, TypeNode, TypeTable,
};

/// A name, of a package where it isn't exported.
pub fn name(alloc: Global, path: &str, text: &str) -> Result<Name, NoMemory> {
    let path = Text::from_slice(alloc, path.as_bytes())?;
    let name = Text::from_slice(alloc, text.as_bytes())?;
    Ok(Name { path, name })
}

/// What is spelled so far: types, and the terms, unions and marks of the next interface.
#[derive(Drop)]
pub struct Desk {
    pub stack: Vec<TypeId>,
    pub terms: Vec<Term>,
    pub unions: Vec<TypeId>,
    pub sig: Option<TypeId>,
    pub is_comparable: bool,
}

fn new_desk(alloc: Global) -> Desk
    ensures stack { result.stack.items ≡ [] }
    ensures terms { result.terms.items ≡ [] }
    ensures unions { result.unions.items ≡ [] }
    ensures sig { result.sig ≡ None }
{
    Desk {
        stack: Vec::new(alloc),
        terms: Vec::new(alloc),
        unions: Vec::new(alloc),
        sig: None,
        is_comparable: false,
    }
}

fn add_type(list: &mut Vec<TypeId>, id: TypeId) -> Result<(), NoMemory>
    ensures { OnOk result (list.new.items ≡ list.old.items ++ id ∷ []) }
{
    list.push(id)?;
    Ok(())
}

fn add_term(list: &mut Vec<Term>, term: Term) -> Result<(), NoMemory>
    ensures { OnOk result (list.new.items ≡ list.old.items ++ term ∷ []) }
{
    list.push(term)?;
    Ok(())
}

fn one_id(alloc: Global, id: TypeId) -> Result<Ids, NoMemory>
    ensures value { IfOk result (λ ids. ids ≡ id ∷ []) }
    ensures valid { (table : List Ty) → IsId table id → IfOk result (AreIds table) }
{
    let mut ids = Vec::new(alloc);
    ids.push(id)?;
    Ok(Ids::new(ids))
}

fn no_ids(alloc: Global) -> Ids
    ensures { result ≡ [] }
{
    Ids::new(Vec::new(alloc))
}

// The last type, and `int` where there is none.
fn popped(alloc: Global, table: &mut TypeTable, desk: &mut Desk) -> Result<TypeId, TypeFault>
    requires { IsDesk table.old desk.old }
    ensures id { IfOk result (IsId table.new) }
    ensures desk { IsDesk table.new desk.new }
    ensures grows { Grows table.old table.new }
{
    match desk.stack.pop() {
        Some(id) => Ok(id),
        None => table.intern(alloc, TypeNode::Basic(Basic::Int)),
    }
}

fn pushed(
    alloc: Global,
    table: &mut TypeTable,
    desk: &mut Desk,
    node: TypeNode,
) -> Result<(), TypeFault>
    requires desk { IsDesk table.old desk.old }
    requires node { IsNode table.old node }
    ensures desk { OnOk result (IsDesk table.new desk.new) }
    ensures grows { Grows table.old table.new }
{
    let id = table.intern(alloc, node)?;
    add_type(&mut desk.stack, id)?;
    Ok(())
}

fn basic(letter: u8) -> Basic {
    match letter {
        b's' => Basic::String,
        b'b' => Basic::Bool,
        _ => Basic::Int,
    }
}

// `p.X` without type arguments, where the letter is X; of the letter E `error`.
fn declared(alloc: Global, letter: u8, args: Ids) -> Result<TypeNode, TypeFault>
    ensures { (table : List Ty) → AreIds table args → IfOk result (IsNode table) }
{
    let mut text = String::new(alloc);
    text.push(char::from(letter))?;
    let name = match letter {
        b'E' => name(alloc, "builtin", "error")?,
        _ => name(alloc, "p", text.as_str())?,
    };
    Ok(TypeNode::Named { name, args })
}

fn fields(alloc: Global, first: TypeId, second: TypeId) -> Result<Fields, NoMemory>
    ensures { IfOk result (λ fields. map (λ f. f.ty) fields ≡ first ∷ second ∷ []) }
{
    let exported = name(alloc, "", "X")?;
    let own = name(alloc, "p", "y")?;
    let mut fields = Vec::new(alloc);
    fields.push(Field {
        name: exported,
        ty: first,
    })?;
    fields.push(Field {
        name: own,
        ty: second,
    })?;
    Ok(Fields::new(fields))
}

// A type of one or two others.
fn compound(alloc: Global, letter: u8, last: TypeId, before: TypeId) -> Result<TypeNode, TypeFault>
    ensures { (table : List Ty) → IsId table last → IsId table before
        → IfOk result (IsNode table) }
{
    match letter {
        b'*' => Ok(TypeNode::Pointer(last)),
        b'[' => Ok(TypeNode::Slice(last)),
        b'a' => Ok(TypeNode::Array { len: 2, elem: last }),
        b'm' => Ok(TypeNode::Map {
            key: before,
            elem: last,
        }),
        b'{' => Ok(TypeNode::Struct(fields(alloc, before, last)?)),
        b'h' => declared(alloc, b'H', one_id(alloc, last)?),
        b'k' => declared(alloc, b'K', one_id(alloc, last)?),
        b'w' => declared(alloc, b'W', one_id(alloc, last)?),
        b'x' => declared(alloc, b'X', one_id(alloc, last)?),
        _ => declared(alloc, b'G', one_id(alloc, last)?),
    }
}

// The type before the last, where there are two parts.
fn before(
    alloc: Global,
    table: &mut TypeTable,
    desk: &mut Desk,
    letter: u8,
    last: TypeId,
) -> Result<TypeId, TypeFault>
    requires desk { IsDesk table.old desk.old }
    requires last { IsId table.old last }
    ensures id { IfOk result (IsId table.new) }
    ensures desk { IsDesk table.new desk.new }
    ensures grows { Grows table.old table.new }
{
    if letter == b'm' || letter == b'{' {
        return popped(alloc, table, desk);
    }
    Ok(last)
}

fn put_compound(
    alloc: Global,
    table: &mut TypeTable,
    desk: &mut Desk,
    letter: u8,
) -> Result<(), TypeFault>
    requires desk { IsDesk table.old desk.old }
    ensures desk { OnOk result (IsDesk table.new desk.new) }
    ensures grows { Grows table.old table.new }
{
    let last = popped(alloc, table, desk)?;
    let before = before(alloc, table, desk, letter, last)?;
    let node = compound(alloc, letter, last, before)?;
    pushed(alloc, table, desk, node)
}

// `struct{X t; p.y t}`, and so on as many times: 65,535 nodes over `int` after fifteen.
fn put_large(
    alloc: Global,
    table: &mut TypeTable,
    desk: &mut Desk,
    count: u32,
) -> Result<(), TypeFault>
    requires desk { IsDesk table.old desk.old }
    ensures desk { OnOk result (IsDesk table.new desk.new) }
    ensures grows { Grows table.old table.new }
{
    let mut last = popped(alloc, table, desk)?;
    for _ in 0..count {
        let node = compound(alloc, b'{', last, last)?;
        last = table.intern(alloc, node)?;
    }
    add_type(&mut desk.stack, last)?;
    Ok(())
}

// A pointer to a pointer, and so on as many times: 255 deep over `int` after 254.
fn put_deep(
    alloc: Global,
    table: &mut TypeTable,
    desk: &mut Desk,
    count: u32,
) -> Result<(), TypeFault>
    requires desk { IsDesk table.old desk.old }
    ensures desk { OnOk result (IsDesk table.new desk.new) }
    ensures grows { Grows table.old table.new }
{
    let mut last = popped(alloc, table, desk)?;
    for _ in 0..count {
        last = table.intern(alloc, TypeNode::Pointer(last))?;
    }
    add_type(&mut desk.stack, last)?;
    Ok(())
}

// One more term of the next union.
fn put_term(
    alloc: Global,
    table: &mut TypeTable,
    desk: &mut Desk,
    tilde: bool,
) -> Result<(), TypeFault>
    requires desk { IsDesk table.old desk.old }
    ensures desk { OnOk result (IsDesk table.new desk.new) }
    ensures grows { Grows table.old table.new }
{
    let ty = popped(alloc, table, desk)?;
    add_term(&mut desk.terms, Term { tilde, ty })?;
    Ok(())
}

// The terms as one union of the next interface.
fn put_union(alloc: Global, table: &mut TypeTable, desk: &mut Desk) -> Result<(), TypeFault>
    requires desk { IsDesk table.old desk.old }
    ensures desk { OnOk result (IsDesk table.new desk.new) }
    ensures grows { Grows table.old table.new }
{
    let terms = std::mem::replace(&mut desk.terms, Vec::new(alloc));
    let union = table.intern(alloc, TypeNode::Union(Terms::new(terms)))?;
    add_type(&mut desk.unions, union)?;
    Ok(())
}

// The next interface has a method `V()`, or `V(t)` of the last type.
fn put_method(
    alloc: Global,
    table: &mut TypeTable,
    desk: &mut Desk,
    letter: u8,
) -> Result<(), TypeFault>
    requires desk { IsDesk table.old desk.old }
    ensures desk { OnOk result (IsDesk table.new desk.new) }
    ensures grows { Grows table.old table.new }
{
    let sig = signature(alloc, table, desk, letter)?;
    desk.sig = Some(sig);
    Ok(())
}

fn signature(
    alloc: Global,
    table: &mut TypeTable,
    desk: &mut Desk,
    letter: u8,
) -> Result<TypeId, TypeFault>
    requires desk { IsDesk table.old desk.old }
    ensures id { IfOk result (IsId table.new) }
    ensures desk { OnOk result (IsDesk table.new desk.new) }
    ensures grows { Grows table.old table.new }
{
    if letter == b'o' {
        let param = popped(alloc, table, desk)?;
        let params = one_id(alloc, param)?;
        let results = no_ids(alloc);
        return table.intern(alloc, TypeNode::Func { params, results });
    }
    let params = no_ids(alloc);
    let results = no_ids(alloc);
    table.intern(alloc, TypeNode::Func { params, results })
}

fn methods(alloc: Global, sig: Option<TypeId>) -> Result<Methods, NoMemory>
    ensures { (table : List Ty) → IfSome sig (IsId table)
        → IfOk result (All (λ m. IsId table m.sig)) }
{
    let mut methods = Vec::new(alloc);
    if let Some(sig) = sig {
        let name = name(alloc, "", "V")?;
        methods.push(Method { name, sig })?;
    }
    Ok(Methods::new(methods))
}

// An interface of the method, the mark and the unions.
fn put_interface(alloc: Global, table: &mut TypeTable, desk: &mut Desk) -> Result<(), TypeFault>
    requires desk { IsDesk table.old desk.old }
    ensures desk { OnOk result (IsDesk table.new desk.new) }
    ensures grows { Grows table.old table.new }
{
    let methods = methods(alloc, desk.sig)?;
    let unions = std::mem::replace(&mut desk.unions, Vec::new(alloc));
    let node = TypeNode::Iface {
        methods,
        comparable: desk.is_comparable,
        unions: Ids::new(unions),
    };
    desk.sig = None;
    desk.is_comparable = false;
    pushed(alloc, table, desk, node)
}

fn put(alloc: Global, table: &mut TypeTable, desk: &mut Desk, letter: u8) -> Result<(), TypeFault>
    requires desk { IsDesk table.old desk.old }
    ensures desk { OnOk result (IsDesk table.new desk.new) }
    ensures grows { Grows table.old table.new }
{
    match letter {
        b'0'..=b'9' => pushed(
            alloc,
            table,
            desk,
            TypeNode::Param(u32::from(letter - b'0')),
        ),
        b'A'..=b'Z' => {
            let node = declared(alloc, letter, no_ids(alloc))?;
            pushed(alloc, table, desk, node)
        }
        b'i' | b's' | b'b' => pushed(alloc, table, desk, TypeNode::Basic(basic(letter))),
        b'#' => put_large(alloc, table, desk, 15),
        b'$' => put_large(alloc, table, desk, 14),
        b'%' => put_deep(alloc, table, desk, 254),
        b'&' => put_deep(alloc, table, desk, 252),
        b'~' => put_term(alloc, table, desk, true),
        b'+' => put_term(alloc, table, desk, false),
        b'|' => put_union(alloc, table, desk),
        b'v' | b'o' => put_method(alloc, table, desk, letter),
        b'c' => {
            desk.is_comparable = true;
            Ok(())
        }
        b')' => put_interface(alloc, table, desk),
        _ => put_compound(alloc, table, desk, letter),
    }
}

/// The type that the letters spell, each after its parts.
///
/// `i`, `s`, `b` are `int`, `string`, `bool`; a digit is the type parameter of that number; a
/// capital is the type `p.X` of that name, E `error`; `g`, `h`, `k`, `w`, `x` are G, H, K, W and X
/// with one type argument; `*`, `[`, `a`, `m`, `{` are a pointer, a slice, an array of two, a map,
/// and a struct with the fields X and p.y; `#` and `$` make a large type of the last, `%` and `&` a
/// deep one. `+` and `~` make it a term, `|` ends a union, `v` and `o` are the methods V() and V(t),
/// `c` is `comparable`, and `)` ends an interface.
pub fn spelled(alloc: Global, table: &mut TypeTable, text: &str) -> Result<TypeId, TypeFault>
    ensures id { IfOk result (IsId table.new) }
    ensures grows { Grows table.old table.new }
{
    let mut desk = new_desk(alloc);
    for letter in text.as_bytes() {
        put(alloc, table, &mut desk, *letter)?;
    }
    popped(alloc, table, &mut desk)
}
