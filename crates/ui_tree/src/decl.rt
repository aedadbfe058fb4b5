//! Declarations and files.

use crate::expr::TypeExpr;
use crate::part::{Group, Placed, Sig, Specs};
use crate::stmt::{Block, CommonTree, StmtTree};
use sqlite_items::{Boxed, Items};
use ui_base::{Spot, Text};

/// An import: the name that it is given, if any, and its path. Go specification, "Import
/// declarations".
#[derive(Drop)]
pub struct ImportSpec {
    pub name: Option<Placed>,
    pub path: Placed,
}

#[derive(Drop)]
pub struct ImportTree {
    pub spot: Spot,
    pub specs: Specs<ImportSpec>,
}

/// A type declaration's name, its parameters, and whether it is an alias. Go specification, "Type
/// declarations".
#[derive(Drop)]
pub struct TypeSpec {
    pub name: Placed,
    pub params: Items<Group<Boxed<TypeExpr>>>,
    pub alias: bool,
    pub of: TypeExpr,
}

/// A method's receiver: its name, whether it is a pointer, its type's name and that type's
/// parameters. Go specification, "Method declarations".
#[derive(Drop)]
pub struct Receiver {
    pub spot: Spot,
    pub name: Option<Placed>,
    pub pointer: bool,
    pub of: Placed,
    pub params: Option<Items<Placed>>,
}

/// A declaration of a file. Go specification, "Declarations and scope".
#[derive(Drop)]
pub enum DeclTree {
    Common(CommonTree),
    Type {
        spot: Spot,
        specs: Specs<TypeSpec>,
    },
    Method {
        spot: Spot,
        receiver: Receiver,
        name: Placed,
        sig: Sig<Boxed<TypeExpr>>,
        body: Block<StmtTree>,
    },
    Func {
        spot: Spot,
        name: Placed,
        params: Option<Items<Group<Boxed<TypeExpr>>>>,
        sig: Sig<Boxed<TypeExpr>>,
        body: Block<StmtTree>,
    },
}

/// A source file, with its name in the store. Go specification, "Source file organization".
#[derive(Drop)]
pub struct FileTree {
    pub file: Text,
    pub spot: Spot,
    pub package: Placed,
    pub imports: Items<ImportTree>,
    pub decls: Items<DeclTree>,
}
