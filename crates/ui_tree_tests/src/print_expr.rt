//! The printer of trees: expressions and types.

use ui_base::{BinOp, NoMemory, Value};
use ui_tree::{Boxed, ExprTree, Group, Placed, PrefixOp, TypeExpr};

/// Puts a text.
pub fn put(out: &mut Vec<u8>, text: &[u8]) -> Result<(), NoMemory> {
    out.extend_from_slice(text)
}

/// How an operator is written.
pub fn operator(op: BinOp) -> &'static [u8] {
    match op {
        BinOp::Add => b"+",
        BinOp::Sub => b"-",
        BinOp::Mul => b"*",
        BinOp::Div => b"/",
        BinOp::Rem => b"%",
        BinOp::And => b"&",
        BinOp::Or => b"|",
        BinOp::Xor => b"^",
        BinOp::AndNot => b"&^",
        BinOp::Shl => b"<<",
        BinOp::Shr => b">>",
        BinOp::Equal => b"==",
        BinOp::NotEqual => b"!=",
        BinOp::Less => b"<",
        BinOp::LessEqual => b"<=",
        BinOp::Greater => b">",
        BinOp::GreaterEqual => b">=",
        BinOp::LogicalAnd => b"&&",
        BinOp::LogicalOr => b"||",
    }
}

fn prefix(op: PrefixOp) -> &'static [u8] {
    match op {
        PrefixOp::Plus => b"+",
        PrefixOp::Minus => b"-",
        PrefixOp::Not => b"!",
        PrefixOp::Flip => b"^",
        PrefixOp::Deref => b"*",
        PrefixOp::Address => b"&",
    }
}

fn put_value(out: &mut Vec<u8>, value: &Value) -> Result<(), NoMemory> {
    match value {
        Value::Whole(0) => put(out, b"0"),
        Value::Whole(1) => put(out, b"1"),
        Value::Whole(2) => put(out, b"2"),
        Value::Whole(3) => put(out, b"3"),
        Value::Whole(_) => put(out, b"9"),
        Value::Str(text) => {
            put(out, b"'")?;
            put(out, text.bytes())?;
            put(out, b"'")
        }
        Value::Truth(_) => put(out, b"?"),
    }
}

/// Puts names, with a blank behind each.
pub fn put_names(out: &mut Vec<u8>, names: &[Placed]) -> Result<(), NoMemory> {
    for name in names {
        put(out, name.text.bytes())?;
        put(out, b" ")?;
    }
    Ok(())
}

#[cycle(put)]
fn put_types(out: &mut Vec<u8>, types: &[TypeExpr]) -> Result<(), NoMemory> {
    for of in types {
        put(out, b" ")?;
        put_type(out, of)?;
    }
    Ok(())
}

/// Puts groups of names of one type.
#[cycle(put)]
pub fn put_groups(out: &mut Vec<u8>, groups: &[Group<Boxed<TypeExpr>>]) -> Result<(), NoMemory> {
    for group in groups {
        put(out, b" {")?;
        put_names(out, group.names.as_slice())?;
        put_type(out, group.of.get())?;
        put(out, b"}")?;
    }
    Ok(())
}

#[cycle(put)]
fn put_results(out: &mut Vec<u8>, results: &Option<Boxed<TypeExpr>>) -> Result<(), NoMemory> {
    match results {
        Some(of) => {
            put(out, b" => ")?;
            put_type(out, of.get())
        }
        None => Ok(()),
    }
}

// A form with one type.
#[cycle(put)]
fn put_of(out: &mut Vec<u8>, form: &[u8], of: &Boxed<TypeExpr>) -> Result<(), NoMemory> {
    put(out, form)?;
    put_type(out, of.get())?;
    put(out, b")")
}

/// Puts a type.
#[cycle(put)]
pub fn put_type(out: &mut Vec<u8>, tree: &TypeExpr) -> Result<(), NoMemory> {
    match tree {
        TypeExpr::Named { name, member, args } => {
            put(out, name.text.bytes())?;
            if let Some(member) = member {
                put(out, b".")?;
                put(out, member.text.bytes())?;
            }
            if let Some(args) = args {
                put(out, b"[")?;
                put_types(out, args.as_slice())?;
                put(out, b"]")?;
            }
            Ok(())
        }
        TypeExpr::Parenthesized { of, .. } => put_of(out, b"(paren ", of),
        TypeExpr::Pointer { of, .. } => put_of(out, b"(pointer ", of),
        TypeExpr::Slice { of, .. } => put_of(out, b"(slice ", of),
        TypeExpr::Array { len, of, .. } => {
            put(out, b"(array ")?;
            put_tree(out, len.get())?;
            put_of(out, b" ", of)
        }
        TypeExpr::Counted { of, .. } => put_of(out, b"(counted ", of),
        TypeExpr::Map { key, of, .. } => {
            put(out, b"(map ")?;
            put_type(out, key.get())?;
            put_of(out, b" ", of)
        }
        TypeExpr::Func { sig, .. } => {
            put(out, b"(func")?;
            put_groups(out, sig.params.as_slice())?;
            put_results(out, &sig.results)?;
            put(out, b")")
        }
        TypeExpr::Listed { groups, .. } => {
            put(out, b"(results")?;
            put_groups(out, groups.as_slice())?;
            put(out, b")")
        }
        TypeExpr::Struct { fields, .. } => {
            put(out, b"(struct")?;
            put_groups(out, fields.as_slice())?;
            put(out, b")")
        }
        TypeExpr::Interface { elems, .. } => {
            put(out, b"(interface")?;
            put_types(out, elems.as_slice())?;
            put(out, b")")
        }
        TypeExpr::Method { name, sig } => {
            put(out, b"(method ")?;
            put(out, name.text.bytes())?;
            put_groups(out, sig.params.as_slice())?;
            put_results(out, &sig.results)?;
            put(out, b")")
        }
        TypeExpr::Union { terms, .. } => {
            put(out, b"(union")?;
            put_types(out, terms.as_slice())?;
            put(out, b")")
        }
        TypeExpr::Tilde { of, .. } => put_of(out, b"(tilde ", of),
    }
}

/// Puts expressions, with a blank before each.
#[cycle(put)]
pub fn put_trees(out: &mut Vec<u8>, trees: &[ExprTree]) -> Result<(), NoMemory> {
    for tree in trees {
        put(out, b" ")?;
        put_tree(out, tree)?;
    }
    Ok(())
}

// A form that begins with one tree.
#[cycle(put)]
fn put_form(out: &mut Vec<u8>, form: &[u8], of: &Boxed<ExprTree>) -> Result<(), NoMemory> {
    put(out, b"(")?;
    put(out, form)?;
    put(out, b" ")?;
    put_tree(out, of.get())
}

#[cycle(put)]
fn put_bound(out: &mut Vec<u8>, bound: &Option<Boxed<ExprTree>>) -> Result<(), NoMemory> {
    put(out, b" ")?;
    match bound {
        Some(of) => put_tree(out, of.get()),
        None => put(out, b"_"),
    }
}

/// Puts an expression.
#[cycle(put)]
pub fn put_tree(out: &mut Vec<u8>, tree: &ExprTree) -> Result<(), NoMemory> {
    match tree {
        ExprTree::Literal { value, .. } => return put_value(out, value),
        ExprTree::Name(name) => return put(out, name.text.bytes()),
        ExprTree::Paren { of, .. } => put_form(out, b"paren", of)?,
        ExprTree::Convert { to, of, .. } => {
            put_form(out, b"convert", of)?;
            put_of(out, b" (to ", to)?;
        }
        ExprTree::Composite { of, elems, .. } => {
            put_of(out, b"(lit (of ", of)?;
            put_trees(out, elems.as_slice())?;
        }
        ExprTree::Elided { elems, .. } => {
            put(out, b"(lit")?;
            put_trees(out, elems.as_slice())?;
        }
        ExprTree::Keyed { key, value, .. } => {
            put_form(out, b"key", key)?;
            put(out, b" ")?;
            put_tree(out, value.get())?;
        }
        ExprTree::Instance { of, args, .. } => {
            put_form(out, b"instance", of)?;
            put_types(out, args.as_slice())?;
        }
        ExprTree::Selector { of, member, .. } => {
            put_form(out, b"select", of)?;
            put(out, b" ")?;
            put(out, member.text.bytes())?;
        }
        ExprTree::Assert { of, to, .. } => {
            put_form(out, b"assert", of)?;
            put_of(out, b" (to ", to)?;
        }
        ExprTree::Index { of, at, .. } => {
            put_form(out, b"index", of)?;
            put(out, b" ")?;
            put_tree(out, at.get())?;
        }
        ExprTree::Sliced {
            of,
            low,
            high,
            max,
            ..
        } => {
            put_form(out, b"slice", of)?;
            put_bound(out, low)?;
            put_bound(out, high)?;
            put_bound(out, max)?;
        }
        ExprTree::Call {
            of,
            args,
            spread,
            ..
        } => {
            put_form(out, b"call", of)?;
            put_trees(out, args.as_slice())?;
            if *spread {
                put(out, b"...")?;
            }
        }
        ExprTree::Type(of) => return put_of(out, b"(type ", of),
        ExprTree::Unary { op, of, .. } => put_form(out, prefix(*op), of)?,
        ExprTree::Binary {
            op,
            left,
            right,
            ..
        } => {
            put_form(out, operator(*op), left)?;
            put(out, b" ")?;
            put_tree(out, right.get())?;
        }
    }
    put(out, b")")
}
