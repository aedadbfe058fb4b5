//! Types as text.
ghost use Rattle.std.specs.Prelude.{◌≡◌, ◌++◌, [], All, IfOk, OnOk, codes, map, slice_index_or};
ghost use Rattle.std.specs.Prelude.{if◌then◌else◌};
ghost use Rattle.ui_types.specs.Decls.{name_eq, error_name};
ghost use Rattle.ui_types.specs.Table.{IsId, AreIds, tree};
ghost use Rattle.ui_show.specs.Pieces.{tail_of, joined, selected};
ghost use Rattle.ui_show.specs.Types as spec;

use crate::pieces::{basic_name, put, put_if, put_number, put_qualified, put_selected};
use std::alloc::Global;
use ui_types::{Field, Method, Name, NoMemory, TParam, Term, Text, TypeId, TypeNode, TypeTable};

// Whether it is the name of the predeclared type `error`.
fn is_error(name: &Name) -> bool
    ensures { result ≡ name_eq name.now error_name }
{
    name.path.bytes() == b"builtin".as_slice() && name.name.bytes() == b"error".as_slice()
}

fn put_type_name(out: &mut Vec<u8>, name: &Name) -> Result<(), NoMemory>
    ensures { OnOk result (out.new.items ≡ out.old.items ++ spec.type_name name.now) }
{
    if is_error(name) {
        put(out, b"error")
    } else {
        put_qualified(out, name)
    }
}

fn put_param(out: &mut Vec<u8>, params: &[TParam], k: u32) -> Result<(), NoMemory>
    ensures { OnOk result (out.new.items
        ≡ out.old.items ++ slice_index_or (map (λ p. p.name) params.now) k []) }
{
    match params.get(k as usize) {
        Some(param) => put(out, param.name.bytes()),
        None => Ok(()),
    }
}

// Whether there are methods.
fn are_some(methods: &[Method]) -> bool
    ensures { result ≡ spec.are_some methods.now }
{
    match methods {
        [] => false,
        _ => true,
    }
}

// Appends `comparable`, if it is asked for.
fn put_comparable(out: &mut Vec<u8>, is_behind: bool, is_asked: bool) -> Result<(), NoMemory>
    ensures { OnOk result (out.new.items
        ≡ out.old.items ++ tail_of (codes "; ") is_behind (spec.comparable is_asked)) }
{
    if is_asked {
        put_if(out, is_behind, b"; ")?;
        put(out, b"comparable")
    } else {
        Ok(())
    }
}

/// Appends a type, whose type parameters have the names of these.
#[cycle(put)]
pub(crate) fn put_type(
    out: &mut Vec<u8>,
    table: &TypeTable,
    params: &[TParam],
    t: TypeId,
) -> Result<(), NoMemory>
    requires { IsId table.now t }
    ensures { OnOk result (out.new.items ≡ out.old.items
        ++ spec.type_text (map (λ p. p.name) params.now) (tree table.now t)) }
{
    match table.node(t) {
        TypeNode::Basic(kind) => put(out, basic_name(*kind)),
        TypeNode::Named { name, args } => {
            put_type_name(out, name)?;
            put_arguments(out, table, params, args.items())
        }
        TypeNode::Pointer(elem) => {
            put(out, b"*")?;
            put_type(out, table, params, *elem)
        }
        TypeNode::Slice(elem) => {
            put(out, b"[]")?;
            put_type(out, table, params, *elem)
        }
        TypeNode::Array { len, elem } => {
            put(out, b"[")?;
            put_number(out, *len)?;
            put(out, b"]")?;
            put_type(out, table, params, *elem)
        }
        TypeNode::Map { key, elem } => {
            put(out, b"map[")?;
            put_type(out, table, params, *key)?;
            put(out, b"]")?;
            put_type(out, table, params, *elem)
        }
        TypeNode::Func {
            params: formals,
            results,
        } => {
            put(out, b"func")?;
            put_signature(out, table, params, formals.items(), results.items())
        }
        TypeNode::Struct(fields) => {
            put(out, b"struct{")?;
            put_fields(out, table, params, fields.items())?;
            put(out, b"}")
        }
        TypeNode::Iface {
            methods,
            comparable,
            unions,
        } => {
            put(out, b"interface{")?;
            put_elements(
                out,
                table,
                params,
                methods.items(),
                *comparable,
                unions.items(),
            )?;
            put(out, b"}")
        }
        TypeNode::Union(terms) => put_terms(out, table, params, terms.items()),
        TypeNode::Param(k) => put_param(out, params, *k),
    }
}

// Appends types, with a separator before each but the first, or before that too.
#[cycle(put)]
fn put_each(
    out: &mut Vec<u8>,
    table: &TypeTable,
    params: &[TParam],
    separator: &[u8],
    is_behind: bool,
    ids: &[TypeId],
) -> Result<(), NoMemory>
    requires { AreIds table.now ids.now }
    ensures { OnOk result (out.new.items ≡ out.old.items ++ tail_of separator.now is_behind
        (map (λ t. spec.type_text (map (λ p. p.name) params.now) (tree table.now t)) ids.now)) }
{
    let mut is_behind = is_behind;
    for id in ids {
        put_if(out, is_behind, separator)?;
        put_type(out, table, params, *id)?;
        is_behind = true;
    }
    Ok(())
}

/// Appends type arguments in brackets, if there are some.
#[cycle(put)]
pub(crate) fn put_arguments(
    out: &mut Vec<u8>,
    table: &TypeTable,
    params: &[TParam],
    args: &[TypeId],
) -> Result<(), NoMemory>
    requires { AreIds table.now args.now }
    ensures { OnOk result (out.new.items ≡ out.old.items ++ spec.in_brackets
        (map (λ t. spec.type_text (map (λ p. p.name) params.now) (tree table.now t)) args.now)) }
{
    if args.is_empty() {
        return Ok(());
    }
    put(out, b"[")?;
    put_each(out, table, params, b", ", false, args)?;
    put(out, b"]")
}

// Appends the results of a function.
#[cycle(put)]
fn put_results(
    out: &mut Vec<u8>,
    table: &TypeTable,
    params: &[TParam],
    results: &[TypeId],
) -> Result<(), NoMemory>
    requires { AreIds table.now results.now }
    ensures { OnOk result (out.new.items ≡ out.old.items ++ spec.results
        (map (λ t. spec.type_text (map (λ p. p.name) params.now) (tree table.now t)) results.now)) }
{
    match results {
        [] => Ok(()),
        [only] => {
            put(out, b" ")?;
            put_type(out, table, params, *only)
        }
        _ => {
            put(out, b" (")?;
            put_each(out, table, params, b", ", false, results)?;
            put(out, b")")
        }
    }
}

// Appends the parameters and results of a function.
#[cycle(put)]
fn put_signature(
    out: &mut Vec<u8>,
    table: &TypeTable,
    params: &[TParam],
    formals: &[TypeId],
    results: &[TypeId],
) -> Result<(), NoMemory>
    requires formals { AreIds table.now formals.now }
    requires results { AreIds table.now results.now }
    ensures { OnOk result (out.new.items ≡ out.old.items ++ spec.signature
        (map (λ t. spec.type_text (map (λ p. p.name) params.now) (tree table.now t)) formals.now)
        (map (λ t. spec.type_text (map (λ p. p.name) params.now) (tree table.now t)) results.now)) }
{
    put(out, b"(")?;
    put_each(out, table, params, b", ", false, formals)?;
    put(out, b")")?;
    put_results(out, table, params, results)
}

/// Appends a function's type without the word `func`, and nothing of another type.
#[cycle(put)]
pub(crate) fn put_sig(
    out: &mut Vec<u8>,
    table: &TypeTable,
    params: &[TParam],
    t: TypeId,
) -> Result<(), NoMemory>
    requires { IsId table.now t }
    ensures { OnOk result (out.new.items ≡ out.old.items
        ++ spec.sig_text (map (λ p. p.name) params.now) (tree table.now t)) }
{
    match table.node(t) {
        TypeNode::Func {
            params: formals,
            results,
        } => put_signature(out, table, params, formals.items(), results.items()),
        _ => Ok(()),
    }
}

// Appends the fields of a struct.
#[cycle(put)]
fn put_fields(
    out: &mut Vec<u8>,
    table: &TypeTable,
    params: &[TParam],
    fields: &[Field],
) -> Result<(), NoMemory>
    requires { All (λ f. IsId table.now f.ty) fields.now }
    ensures { OnOk result (out.new.items ≡ out.old.items ++ joined (codes "; ")
        (map (λ f. selected f.name ++ codes " "
        ++ spec.type_text (map (λ p. p.name) params.now) (tree table.now f.ty)) fields.now)) }
{
    let mut is_behind = false;
    for field in fields {
        put_if(out, is_behind, b"; ")?;
        put_selected(out, &field.name)?;
        put(out, b" ")?;
        put_type(out, table, params, field.ty)?;
        is_behind = true;
    }
    Ok(())
}

// Appends the methods of an interface.
#[cycle(put)]
fn put_methods(
    out: &mut Vec<u8>,
    table: &TypeTable,
    params: &[TParam],
    methods: &[Method],
) -> Result<(), NoMemory>
    requires { All (λ m. IsId table.now m.sig) methods.now }
    ensures { OnOk result (out.new.items ≡ out.old.items ++ joined (codes "; ")
        (map (λ m. selected m.name
        ++ spec.sig_text (map (λ p. p.name) params.now) (tree table.now m.sig)) methods.now)) }
{
    let mut is_behind = false;
    for method in methods {
        put_if(out, is_behind, b"; ")?;
        put_selected(out, &method.name)?;
        put_sig(out, table, params, method.sig)?;
        is_behind = true;
    }
    Ok(())
}

// Appends the methods, `comparable` and the unions of an interface.
#[cycle(put)]
fn put_elements(
    out: &mut Vec<u8>,
    table: &TypeTable,
    params: &[TParam],
    methods: &[Method],
    comparable: bool,
    unions: &[TypeId],
) -> Result<(), NoMemory>
    requires methods { All (λ m. IsId table.now m.sig) methods.now }
    requires unions { AreIds table.now unions.now }
    ensures { OnOk result (out.new.items ≡ out.old.items ++ joined (codes "; ")
        (map (λ m. selected m.name
        ++ spec.sig_text (map (λ p. p.name) params.now) (tree table.now m.sig)) methods.now
        ++ spec.comparable comparable
        ++ map (λ t. spec.type_text (map (λ p. p.name) params.now) (tree table.now t)) unions.now)) }
{
    put_methods(out, table, params, methods)?;
    let is_behind = are_some(methods);
    put_comparable(out, is_behind, comparable)?;
    put_each(out, table, params, b"; ", is_behind | comparable, unions)
}

// Appends the terms of a union.
#[cycle(put)]
fn put_terms(
    out: &mut Vec<u8>,
    table: &TypeTable,
    params: &[TParam],
    terms: &[Term],
) -> Result<(), NoMemory>
    requires { All (λ t. IsId table.now t.ty) terms.now }
    ensures { OnOk result (out.new.items ≡ out.old.items ++ joined (codes " | ")
        (map (λ t. (if t.tilde then codes "~" else [])
        ++ spec.type_text (map (λ p. p.name) params.now) (tree table.now t.ty)) terms.now)) }
{
    let mut is_behind = false;
    for term in terms {
        put_if(out, is_behind, b" | ")?;
        put_if(out, term.tilde, b"~")?;
        put_type(out, table, params, term.ty)?;
        is_behind = true;
    }
    Ok(())
}

/// The text of a type without type parameters.
pub fn show_type(alloc: Global, table: &TypeTable, t: TypeId) -> Result<Text, NoMemory>
    requires { IsId table.now t }
    ensures { IfOk result (λ text. text ≡ spec.type_text [] (tree table.now t)) }
{
    let mut out = Vec::new(alloc);
    put_type(&mut out, table, &[], t)?;
    Ok(Text::new(out))
}
