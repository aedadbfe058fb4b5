//! The printer of trees: declarations and files.

use crate::print_expr::{put, put_groups, put_names, put_type};
use crate::print_stmt::{put_common, put_stmts};
use std::alloc::Global;
use ui_base::NoMemory;
use ui_tree::{
    Block, Boxed, DeclTree, FileTree, ImportSpec, ImportTree, Receiver, Sig, Specs, StmtTree,
    TypeExpr, TypeSpec,
};

fn put_import_spec(out: &mut Vec<u8>, import: &ImportSpec) -> Result<(), NoMemory> {
    if let Some(name) = &import.name {
        put(out, name.text.bytes())?;
        put(out, b" ")?;
    }
    put(out, import.path.text.bytes())?;
    put(out, b";")
}

fn put_import(out: &mut Vec<u8>, import: &ImportTree) -> Result<(), NoMemory> {
    put(out, b"import ")?;
    match &import.specs {
        Specs::One(only) => put_import_spec(out, only),
        Specs::Grouped(all) => {
            put(out, b"(")?;
            for spec in all.as_slice() {
                put_import_spec(out, spec)?;
            }
            put(out, b")")
        }
    }
}

fn put_type_spec(out: &mut Vec<u8>, spec: &TypeSpec) -> Result<(), NoMemory> {
    put(out, spec.name.text.bytes())?;
    put(out, b"[")?;
    put_groups(out, spec.params.as_slice())?;
    put(
        out,
        if spec.alias {
            b"]=".as_slice()
        } else {
            b"]".as_slice()
        },
    )?;
    put_type(out, &spec.of)?;
    put(out, b";")
}

fn put_type_specs(out: &mut Vec<u8>, specs: &Specs<TypeSpec>) -> Result<(), NoMemory> {
    put(out, b"type ")?;
    match specs {
        Specs::One(only) => put_type_spec(out, only),
        Specs::Grouped(all) => {
            put(out, b"(")?;
            for spec in all.as_slice() {
                put_type_spec(out, spec)?;
            }
            put(out, b")")
        }
    }
}

fn put_receiver(out: &mut Vec<u8>, receiver: &Receiver) -> Result<(), NoMemory> {
    put(out, b"(")?;
    if let Some(name) = &receiver.name {
        put(out, name.text.bytes())?;
        put(out, b" ")?;
    }
    put(
        out,
        if receiver.pointer {
            b"*".as_slice()
        } else {
            b"".as_slice()
        },
    )?;
    put(out, receiver.of.text.bytes())?;
    if let Some(params) = &receiver.params {
        put(out, b"[")?;
        put_names(out, params.as_slice())?;
        put(out, b"]")?;
    }
    put(out, b") ")
}

fn put_sig(out: &mut Vec<u8>, sig: &Sig<Boxed<TypeExpr>>) -> Result<(), NoMemory> {
    put(out, b"(")?;
    put_groups(out, sig.params.as_slice())?;
    put(out, b")")?;
    if let Some(of) = &sig.results {
        put_type(out, of.get())?;
    }
    Ok(())
}

fn put_body(out: &mut Vec<u8>, body: &Block<StmtTree>) -> Result<(), NoMemory> {
    put_stmts(out, b" {", body.stmts.as_slice(), b" };")
}

fn put_decl(out: &mut Vec<u8>, decl: &DeclTree) -> Result<(), NoMemory> {
    match decl {
        DeclTree::Common(common) => {
            put_common(out, common)?;
            put(out, b");")
        }
        DeclTree::Type { specs, .. } => put_type_specs(out, specs),
        DeclTree::Method {
            receiver,
            name,
            sig,
            body,
            ..
        } => {
            put(out, b"func ")?;
            put_receiver(out, receiver)?;
            put(out, name.text.bytes())?;
            put_sig(out, sig)?;
            put_body(out, body)
        }
        DeclTree::Func {
            name,
            params,
            sig,
            body,
            ..
        } => {
            put(out, b"func ")?;
            put(out, name.text.bytes())?;
            if let Some(params) = params {
                put(out, b"[")?;
                put_groups(out, params.as_slice())?;
                put(out, b"]")?;
            }
            put_sig(out, sig)?;
            put_body(out, body)
        }
    }
}

/// The shape of a file.
pub fn shape(alloc: Global, file: &FileTree) -> Result<Vec<u8>, NoMemory> {
    let mut out = Vec::new(alloc);
    put(&mut out, file.package.text.bytes())?;
    put(&mut out, b" ")?;
    for import in file.imports.as_slice() {
        put_import(&mut out, import)?;
    }
    for decl in file.decls.as_slice() {
        put_decl(&mut out, decl)?;
    }
    Ok(out)
}
