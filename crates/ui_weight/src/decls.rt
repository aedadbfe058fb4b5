//! The weight of declarations.
ghost use Rattle.std.specs.Prelude.{◌≡◌, ◌+◌, All, IfOk, OnOk, length};
ghost use Rattle.ui_types.specs.Table.{IsId};
ghost use Rattle.ui_types.specs.Decls.{IsFace, IsDecl, AreDecls, shown_params, shown_methods};
ghost use Rattle.ui_types.specs.Decls.{shown_face, shown_decl, shown_decls};
ghost use Rattle.ui_weight.specs.Weight as spec;
ghost use Rattle.ui_weight.specs.Weight.{counted};
ghost use Rattle.ui_weight.specs.Parts.{IsMemo};

use crate::bytes::{name_bytes, text_bytes, value_bytes};
use crate::texts::{Memo, type_weight};
use indexmap::IndexMap;
use std::alloc::Global;
use ui_types::{Decl, Face, MethodFace, Name, NoMemory, TParam, TypeTable};

/// The largest weight that the declarations of a package, or those of a file, may have.
pub const MAX_WEIGHT: u64 = 4_194_304;

fn params_weight(
    alloc: Global,
    table: &TypeTable,
    memo: &mut Memo,
    params: &[TParam],
) -> Result<u64, NoMemory>
    requires ids { All (λ p. IsId table.now p.bound) params.now }
    requires memo { IsMemo table.now memo.old }
    ensures count { IfOk result (λ n. n
        ≡ counted (spec.params_weight (shown_params table.now params.now))) }
    ensures memo { OnOk result (IsMemo table.now memo.new) }
{
    let mut count = 0u64;
    for param in params {
        let bound = type_weight(alloc, table, memo, param.bound)?;
        count = count.saturating_add(text_bytes(&param.name).saturating_add(bound));
    }
    Ok(count)
}

fn methods_weight(
    alloc: Global,
    table: &TypeTable,
    memo: &mut Memo,
    methods: &[MethodFace],
) -> Result<u64, NoMemory>
    requires ids { All (λ m. IsId table.now m.sig) methods.now }
    requires memo { IsMemo table.now memo.old }
    ensures count { IfOk result (λ n. n
        ≡ counted (spec.methods_weight (shown_methods table.now methods.now))) }
    ensures memo { OnOk result (IsMemo table.now memo.new) }
{
    let mut count = 0u64;
    for method in methods {
        let sig = type_weight(alloc, table, memo, method.sig)?;
        let file = text_bytes(&method.pos.file).saturating_add(sig);
        count = count.saturating_add(name_bytes(&method.name).saturating_add(file));
    }
    Ok(count)
}

fn face_weight(
    alloc: Global,
    table: &TypeTable,
    memo: &mut Memo,
    face: &Face,
) -> Result<u64, NoMemory>
    requires ids { IsFace table.now face.now }
    requires memo { IsMemo table.now memo.old }
    ensures count { IfOk result (λ n. n
        ≡ counted (spec.face_weight (shown_face table.now face.now))) }
    ensures memo { OnOk result (IsMemo table.now memo.new) }
{
    match face {
        Face::Alias { ty } | Face::Var { ty } => type_weight(alloc, table, memo, *ty),
        Face::Const { ty, value } => {
            let of = type_weight(alloc, table, memo, *ty)?;
            Ok(of.saturating_add(value_bytes(value)))
        }
        Face::Func { params, sig } => {
            let params = params_weight(alloc, table, memo, params.items())?;
            let sig = type_weight(alloc, table, memo, *sig)?;
            Ok(params.saturating_add(sig))
        }
        Face::Defined {
            params,
            under,
            methods,
        } => {
            let params = params_weight(alloc, table, memo, params.items())?;
            let under = type_weight(alloc, table, memo, *under)?;
            let methods = methods_weight(alloc, table, memo, methods.items())?;
            Ok(params.saturating_add(under.saturating_add(methods)))
        }
    }
}

/// The weight of declarations: the nodes of all their types, the bytes of their names and texts at
/// each place, and those of the files of their positions; at most the largest `u64`. Each type of
/// the table is looked at once.
pub fn weight(alloc: Global, table: &TypeTable, decls: &[(Name, Decl)]) -> Result<u64, NoMemory>
    requires { AreDecls table.now decls.now }
    ensures { IfOk result (λ n. n ≡ counted (spec.weight (shown_decls table.now decls.now))) }
{
    let mut memo = IndexMap::new(alloc);
    let mut count = 0u64;
    for (name, decl) in decls {
        let face = face_weight(alloc, table, &mut memo, &decl.face)?;
        let file = text_bytes(&decl.pos.file).saturating_add(face);
        count = count.saturating_add(name_bytes(name).saturating_add(file));
    }
    Ok(count)
}
