//! What was checked, as text.
ghost use Rattle.ui_types.specs.Table.{IsId};
ghost use Rattle.ui_types.specs.Decls.{AreDecls};
ghost use Rattle.ui_scopes.specs.Operands.{IsOperand};
ghost use Rattle.ui_scopes.specs.Scopes.{IsScope};

use sqlite_items::Boxed;
use std::alloc::Global;
use std::test::Fail;
use ui_expr::check_expr;
use ui_scopes::{Operand, Scope};
use ui_tree::ExprTree;
use ui_types::{Basic, CheckFault, Fault, ListEnv, Text, TypeId, TypeNode, TypeTable, Value};

// How a kind is written in Go; for constants without a type as its specification calls them.
fn word(kind: Basic) -> &'static str {
    match kind {
        Basic::Bool => "bool",
        Basic::Int => "int",
        Basic::Int8 => "int8",
        Basic::Int16 => "int16",
        Basic::Int32 => "int32",
        Basic::Int64 => "int64",
        Basic::Uint => "uint",
        Basic::Uint8 => "uint8",
        Basic::Uint16 => "uint16",
        Basic::Uint32 => "uint32",
        Basic::Uint64 => "uint64",
        Basic::String => "string",
        Basic::UntypedBool => "untyped bool",
        Basic::UntypedInt => "untyped int",
        Basic::UntypedRune => "untyped rune",
        Basic::UntypedString => "untyped string",
        Basic::UntypedNil => "untyped nil",
    }
}

fn shown(text: &Text) -> &str {
    match str::from_utf8(text.bytes()) {
        Ok(text) => text,
        Err(_) => "?",
    }
}

fn type_told(table: &TypeTable, t: TypeId) -> &str
    requires { IsId table.now t }
{
    match table.node(t) {
        TypeNode::Basic(kind) => word(*kind),
        TypeNode::Named { name, .. } => shown(&name.name),
        _ => "another type",
    }
}

fn value_told(alloc: Global, of: &str, value: &Value) -> Result<String, Fail> {
    match value {
        Value::Whole(n) => Ok(format!(in alloc; "{of} {n}")?),
        Value::Str(text) => {
            let text = shown(text);
            Ok(format!(in alloc; "{of} {text:?}")?)
        }
        Value::Truth(b) => Ok(format!(in alloc; "{of} {b}")?),
    }
}

fn fault_told(alloc: Global, fault: &Fault) -> Result<String, Fail> {
    let (kind, line, col) = (fault.kind, fault.pos.line, fault.pos.col);
    if fault.name.bytes().is_empty() {
        return Ok(format!(in alloc; "{kind:?} {line}:{col}")?);
    }
    let name = shown(&fault.name);
    Ok(format!(in alloc; "{kind:?} {name} {line}:{col}")?)
}

fn operand_told(alloc: Global, table: &TypeTable, operand: &Operand) -> Result<String, Fail>
    requires { IsOperand table.now operand.now }
{
    match operand {
        Operand::Val { ty, constant, .. } => match constant {
            Some(value) => value_told(alloc, type_told(table, *ty), value),
            None => Ok(format!(in alloc; "another value")?),
        },
        Operand::Package(path) => {
            let path = shown(path);
            Ok(format!(in alloc; "package {path}")?)
        }
        _ => Ok(format!(in alloc; "another operand")?),
    }
}

fn operand_shown(alloc: Global, table: &TypeTable, operand: Operand) -> Result<String, Fail>
    requires { IsOperand table.now operand }
{
    let operand = Boxed::new(alloc, operand)?;
    operand_told(alloc, table, operand.get())
}

fn fault_shown(alloc: Global, fault: CheckFault) -> Result<String, Fail> {
    match &fault {
        CheckFault::Fault(fault) => fault_told(alloc, fault),
        CheckFault::NoMemory => Ok(format!(in alloc; "no memory")?),
    }
}

/// What the expression is checked to be: a constant with its type, a package with its path, or a
/// fault with its place.
pub fn told(
    alloc: Global,
    env: &mut ListEnv,
    table: &mut TypeTable,
    scope: &Scope,
    tree: &ExprTree,
) -> Result<String, Fail>
    requires env { AreDecls table.old env.old.decls }
    requires scope { IsScope table.old scope.now }
{
    match check_expr(alloc, env, table, scope, tree) {
        Ok(operand) => operand_shown(alloc, table, operand),
        Err(fault) => fault_shown(alloc, fault),
    }
}
