//! Declarations as text.
ghost use Rattle.std.specs.Prelude.{◌≡◌, ◌++◌, [], All, IfOk, OnOk, codes, map};
ghost use Rattle.std.specs.List.{flat_map};
ghost use Rattle.ui_types.specs.Table.{IsId, AreIds, tree, trees};
ghost use Rattle.ui_types.specs.Decls.{IsDecl, IsFace, shown_face, shown_params, shown_methods};
ghost use Rattle.ui_show.specs.Pieces.{joined, qualified, value_text};
ghost use Rattle.ui_show.specs.Types.{in_brackets, type_text};
ghost use Rattle.ui_show.specs.Decls as spec;

use crate::pieces::{put, put_if, put_qualified, put_selected, put_value};
use crate::types::{put_arguments, put_sig, put_type};
use std::alloc::Global;
use ui_types::{
    Decl, Face, Ids, MethodFace, Name, NoMemory, TParam, Text, TypeId, TypeTable, Value,
};

// Appends type parameters, each with its constraint.
fn put_params(out: &mut Vec<u8>, table: &TypeTable, params: &[TParam]) -> Result<(), NoMemory>
    requires { All (λ p. IsId table.now p.bound) params.now }
    ensures { OnOk result (out.new.items ≡ out.old.items ++ joined (codes ", ")
        (map (spec.param_text (spec.param_names (shown_params table.now params.now)))
        (shown_params table.now params.now))) }
{
    let mut is_behind = false;
    for param in params {
        put_if(out, is_behind, b", ")?;
        put(out, param.name.bytes())?;
        put(out, b" ")?;
        put_type(out, table, params, param.bound)?;
        is_behind = true;
    }
    Ok(())
}

// Appends type parameters in brackets, if there are some.
fn put_param_brackets(
    out: &mut Vec<u8>,
    table: &TypeTable,
    params: &[TParam],
) -> Result<(), NoMemory>
    requires { All (λ p. IsId table.now p.bound) params.now }
    ensures { OnOk result (out.new.items ≡ out.old.items ++ in_brackets
        (map (spec.param_text (spec.param_names (shown_params table.now params.now)))
        (shown_params table.now params.now))) }
{
    match params {
        [] => Ok(()),
        _ => {
            put(out, b"[")?;
            put_params(out, table, params)?;
            put(out, b"]")
        }
    }
}

// Appends type arguments where there are some, and else type parameters.
fn put_brackets(
    out: &mut Vec<u8>,
    table: &TypeTable,
    args: &[TypeId],
    params: &[TParam],
) -> Result<(), NoMemory>
    requires args { AreIds table.now args.now }
    requires params { All (λ p. IsId table.now p.bound) params.now }
    ensures { OnOk result (out.new.items ≡ out.old.items
        ++ spec.brackets (spec.param_names (shown_params table.now params.now))
        (trees table.now args.now) (shown_params table.now params.now)) }
{
    match args {
        [] => put_param_brackets(out, table, params),
        _ => put_arguments(out, table, params, args),
    }
}

// Appends the lines of methods.
fn put_method_lines(
    out: &mut Vec<u8>,
    table: &TypeTable,
    params: &[TParam],
    methods: &[MethodFace],
) -> Result<(), NoMemory>
    requires { All (λ m. IsId table.now m.sig) methods.now }
    ensures { OnOk result (out.new.items ≡ out.old.items
        ++ flat_map (spec.method_line (spec.param_names (shown_params table.now params.now)))
        (shown_methods table.now methods.now)) }
{
    for method in methods {
        put(out, b"\n\t")?;
        put_if(out, method.pointer, b"(*) ")?;
        put_selected(out, &method.name)?;
        put_sig(out, table, params, method.sig)?;
    }
    Ok(())
}

// Appends what kind of declaration it is, and its name.
fn put_head(out: &mut Vec<u8>, kind: &[u8], name: &Name) -> Result<(), NoMemory>
    ensures { OnOk result (out.new.items ≡ out.old.items ++ kind.now ++ qualified name.now) }
{
    put(out, kind)?;
    put_qualified(out, name)
}

fn put_constant(
    out: &mut Vec<u8>,
    table: &TypeTable,
    ty: TypeId,
    value: &Value,
) -> Result<(), NoMemory>
    requires { IsId table.now ty }
    ensures { OnOk result (out.new.items ≡ out.old.items ++ codes " "
        ++ type_text [] (tree table.now ty) ++ codes " = " ++ value_text value.now) }
{
    put(out, b" ")?;
    put_type(out, table, &[], ty)?;
    put(out, b" = ")?;
    put_value(out, value)
}

// Appends a declaration.
fn put_decl(
    out: &mut Vec<u8>,
    table: &TypeTable,
    name: &Name,
    args: &[TypeId],
    face: &Face,
) -> Result<(), NoMemory>
    requires args { AreIds table.now args.now }
    requires face { IsFace table.now face.now }
    ensures { OnOk result (out.new.items ≡ out.old.items
        ++ spec.decl_text name.now (trees table.now args.now) (shown_face table.now face.now)) }
{
    match face {
        Face::Alias { ty } => {
            put_head(out, b"type ", name)?;
            put(out, b" = ")?;
            put_type(out, table, &[], *ty)
        }
        Face::Const { ty, value } => {
            put_head(out, b"const ", name)?;
            put_constant(out, table, *ty, value)
        }
        Face::Var { ty } => {
            put_head(out, b"var ", name)?;
            put(out, b" ")?;
            put_type(out, table, &[], *ty)
        }
        Face::Func { params, sig } => {
            put_head(out, b"func ", name)?;
            put_brackets(out, table, args, params.items())?;
            put_sig(out, table, params.items(), *sig)
        }
        Face::Defined {
            params,
            under,
            methods,
        } => {
            put_head(out, b"type ", name)?;
            put_brackets(out, table, args, params.items())?;
            put(out, b" ")?;
            put_type(out, table, params.items(), *under)?;
            put_method_lines(out, table, params.items(), methods.items())
        }
    }
}

/// The text of a declaration. With type arguments these stand in its brackets, and the declaration
/// has them put in already; without, it is shown with its type parameters.
pub fn show_decl(
    alloc: Global,
    table: &TypeTable,
    name: &Name,
    args: &Ids,
    decl: &Decl,
) -> Result<Text, NoMemory>
    requires args { AreIds table.now args.now }
    requires decl { IsDecl table.now decl.now }
    ensures { IfOk result (λ text. text
        ≡ spec.decl_text name.now (trees table.now args.now) (shown_face table.now decl.now.face)) }
{
    let mut out = Vec::new(alloc);
    put_decl(&mut out, table, name, args.items(), &decl.face)?;
    Ok(Text::new(out))
}
