//! Trees by hand, from lines: `import PATH`, `import (PATH`, `import NAME PATH`, `const NAME =
//! SUM`, `const NAME int = SUM`, `const (NAME = SUM`, `var NAME = SUM`, `func NAME`. A term that
//! begins with a bracket, a quote or `-` is a form of that kind around or of a number.

use std::alloc::Global;
use ui_base::{BinOp, Spot, Text, Value};
use ui_forms::NoMemory;
use ui_tree::*;

fn placed(alloc: Global, spot: Spot, text: &str) -> Result<Placed, NoMemory> {
    let text = Text::from_slice(alloc, text.as_bytes())?;
    Ok(Placed { spot, text })
}

fn name(alloc: Global, spot: Spot, text: &str) -> Result<ExprTree, NoMemory> {
    Ok(ExprTree::name(placed(alloc, spot, text)?))
}

fn whole(spot: Spot, kind: LiteralKind, text: &str) -> ExprTree {
    match text.parse::<i128>() {
        Ok(value) => ExprTree::literal(spot, kind, Value::Whole(value)),
        Err(_) => ExprTree::literal(spot, kind, Value::Whole(1)),
    }
}

fn selector(alloc: Global, spot: Spot, segment: &str, text: &str) -> Result<ExprTree, NoMemory> {
    let of = Boxed::new(alloc, name(alloc, spot, segment)?)?;
    Ok(ExprTree::selector(spot, of, placed(alloc, spot, text)?))
}

// A term by its first character.
fn term(alloc: Global, spot: Spot, text: &str) -> Result<ExprTree, NoMemory> {
    match text.as_bytes().first() {
        Some(b'0'..=b'9' | b'-') => Ok(whole(spot, LiteralKind::Whole, text)),
        Some(b'\'') => Ok(whole(spot, LiteralKind::Rune, "1")),
        Some(b'"') => Ok(whole(spot, LiteralKind::Text, "1")),
        Some(b'(') => {
            let of = Boxed::new(alloc, whole(spot, LiteralKind::Whole, "1"))?;
            Ok(ExprTree::paren(spot, of))
        }
        _ => match text.split_once('.') {
            Some((segment, member)) => selector(alloc, spot, segment, member),
            None => name(alloc, spot, text),
        },
    }
}

// A term alone, or behind others.
fn joined(
    alloc: Global,
    first: Spot,
    op: BinOp,
    left: Option<ExprTree>,
    right: ExprTree,
) -> Result<ExprTree, NoMemory> {
    match left {
        None => Ok(right),
        Some(left) => {
            let left = Boxed::new(alloc, left)?;
            let right = Boxed::new(alloc, right)?;
            Ok(ExprTree::binary(first, op, left, right))
        }
    }
}

fn width(text: &str) -> u32 {
    u32::try_from(text.len()).unwrap_or(0)
}

// An expression whose words stand between blanks.
fn sum(alloc: Global, first: Spot, text: &str) -> Result<Items<ExprTree>, NoMemory> {
    let mut tree = None;
    let mut op = BinOp::Add;
    let mut spot = first;
    for word in text.split(' ') {
        match word {
            "+" => op = BinOp::Add,
            "*" => op = BinOp::Mul,
            _ => {
                let right = term(alloc, spot, word)?;
                tree = Some(joined(alloc, first, op, tree, right)?);
            }
        }
        spot.col = spot.col.saturating_add(width(word)).saturating_add(1);
    }
    let mut trees = Items::new(alloc);
    if let Some(tree) = tree {
        trees.push(tree)?;
    }
    Ok(trees)
}

// `NAME = SUM` or `NAME int = SUM`, from the seventh column on.
fn group(alloc: Global, line: u32, text: &str) -> Result<ValueSpec, NoMemory> {
    let (left, right) = text.split_once(" = ").unwrap_or((text, ""));
    let (called, of) = left.split_once(' ').unwrap_or((left, ""));
    let mut names = Items::new(alloc);
    names.push(placed(alloc, Spot { line, col: 7 }, called)?)?;
    let col = width(left).saturating_add(10);
    let values = Some(sum(alloc, Spot { line, col }, right)?);
    let col = width(called).saturating_add(8);
    let of = if of.is_empty() {
        None
    } else {
        let of = placed(alloc, Spot { line, col }, of)?;
        Some(TypeExpr::named(of, None, None))
    };
    Ok(ValueSpec { names, of, values })
}

fn grouped<T: Drop>(alloc: Global, one: T) -> Result<Specs<T>, NoMemory> {
    let mut items = Items::new(alloc);
    items.push(one)?;
    Ok(Specs::Grouped(items))
}

fn function(alloc: Global, spot: Spot, text: &str) -> Result<DeclTree, NoMemory> {
    Ok(DeclTree::Func {
        spot,
        name: placed(alloc, spot, text)?,
        params: None,
        sig: Sig {
            params: Items::new(alloc),
            results: None,
        },
        body: Block {
            spot,
            stmts: Items::new(alloc),
            close: spot,
        },
    })
}

fn declaration(alloc: Global, line: u32, text: &str) -> Result<DeclTree, NoMemory> {
    let spot = Spot { line, col: 1 };
    if let Some(rest) = text.strip_prefix("const (") {
        let specs = grouped(alloc, group(alloc, line, rest)?)?;
        return Ok(DeclTree::Common(CommonTree::Const { spot, specs }));
    }
    if let Some(rest) = text.strip_prefix("const ") {
        let specs = Specs::One(group(alloc, line, rest)?);
        return Ok(DeclTree::Common(CommonTree::Const { spot, specs }));
    }
    if let Some(rest) = text.strip_prefix("var ") {
        let specs = Specs::One(group(alloc, line, rest)?);
        return Ok(DeclTree::Common(CommonTree::Var { spot, specs }));
    }
    function(alloc, spot, text)
}

fn import(alloc: Global, line: u32, text: &str) -> Result<ImportTree, NoMemory> {
    let spot = Spot { line, col: 1 };
    let string = Spot { line, col: 8 };
    if let Some(rest) = text.strip_prefix("(") {
        let path = placed(alloc, string, rest)?;
        let specs = grouped(alloc, ImportSpec { name: None, path })?;
        return Ok(ImportTree { spot, specs });
    }
    let spec = match text.split_once(' ') {
        Some((called, path)) => ImportSpec {
            name: Some(placed(alloc, string, called)?),
            path: placed(alloc, string, path)?,
        },
        None => ImportSpec {
            name: None,
            path: placed(alloc, string, text)?,
        },
    };
    Ok(ImportTree {
        spot,
        specs: Specs::One(spec),
    })
}

// A file: its name and its package's on the first line.
fn file_of(alloc: Global, text: &str) -> Result<FileTree, NoMemory> {
    let (head, body) = text.split_once('\n').unwrap_or((text, ""));
    let (file, package) = head.split_once(' ').unwrap_or((head, ""));
    let front = Spot { line: 1, col: 1 };
    let mut imports = Items::new(alloc);
    let mut decls = Items::new(alloc);
    let mut line = 2u32;
    for written in body.split('\n') {
        if let Some(rest) = written.strip_prefix("import ") {
            imports.push(import(alloc, line, rest)?)?;
        } else if !written.is_empty() {
            decls.push(declaration(alloc, line, written)?)?;
        }
        line = line.saturating_add(1);
    }
    Ok(FileTree {
        file: Text::from_slice(alloc, file.as_bytes())?,
        spot: front,
        package: placed(alloc, front, package)?,
        imports,
        decls,
    })
}

/// The trees of files, each behind a `~`.
pub fn files_of(alloc: Global, text: &str) -> Result<Vec<FileTree>, NoMemory> {
    let mut files = Vec::new(alloc);
    for part in text.split('~') {
        if !part.is_empty() {
            files.push(file_of(alloc, part)?)?;
        }
    }
    Ok(files)
}
