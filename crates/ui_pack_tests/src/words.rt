// Packages from texts, and what is said of them in words.
use std::alloc::{AllocError, Global};
use ui_base::{CheckFault, NoMemory, Spot, Text};
use ui_collect::{Item, PackageNames, What, items_of, names_of};
use ui_needs::{first_cycle, links_of, node_order};
use ui_sources::{SourceFile, read_trees};
use ui_taken::{Taken, first_untaken};
use ui_tree::{FileTree, tree_spot, type_spot};
use ui_used::imports_used;

/// What is asked of a package.
#[derive(Clone, Copy)]
pub enum Ask {
    /// The first form that isn't taken.
    Form(Taken),
    /// The first clash of names, or the names that are declared.
    Names,
    /// What is declared.
    Items,
    /// The first declaration on a cycle, or the order of the nodes.
    Nodes,
    /// The first import that isn't used.
    Used,
}

// A file begins behind a `~`, with its name on the first line.
fn sources_of(alloc: Global, text: &str) -> Result<Vec<SourceFile>, NoMemory> {
    let mut sources = Vec::new(alloc);
    for part in text.split('~') {
        if let Some((name, body)) = part.split_once('\n') {
            let name = String::from_str(alloc, name)?;
            let bytes = Vec::from_slice(alloc, body.as_bytes())?;
            sources.push(SourceFile {
                name,
                bytes: Some(bytes),
            })?;
        }
    }
    Ok(sources)
}

/// What is said of the package.
pub fn outcome(alloc: Global, ask: Ask, text: &str) -> Result<String, NoMemory> {
    let sources = sources_of(alloc, text)?;
    match read_trees(alloc, "p", &sources) {
        Ok(trees) => said(alloc, ask, &trees.files),
        Err(CheckFault::Fault(fault)) => {
            let kind = fault.kind;
            format!(in alloc; "unread: {kind:?}")
        }
        Err(CheckFault::NoMemory) => Err(AllocError),
    }
}

fn said(alloc: Global, ask: Ask, files: &[FileTree]) -> Result<String, NoMemory> {
    match ask {
        Ask::Form(taken) => form(alloc, taken, files),
        Ask::Names => names(alloc, files),
        Ask::Items => items(alloc, files),
        Ask::Nodes => nodes(alloc, files),
        Ask::Used => used(alloc, files),
    }
}

fn form(alloc: Global, taken: Taken, files: &[FileTree]) -> Result<String, NoMemory> {
    match first_untaken(taken, files) {
        None => String::from_str(alloc, "taken"),
        Some(untaken) => {
            let (file, spot) = (untaken.file, untaken.spot);
            format!(in alloc; "{file}:{}:{}", spot.line, spot.col)
        }
    }
}

fn word(text: &Text) -> &str {
    str::from_utf8(text.bytes()).unwrap_or("?")
}

// The packages of the paths `x`, `y/z` and `i`, of which the last two have names of their own.
fn package_names(alloc: Global) -> Result<PackageNames, NoMemory> {
    let mut names = PackageNames::new(alloc);
    for (path, name) in [("x", "x"), ("y/z", "q"), ("i", "init")] {
        let path = Text::from_slice(alloc, path.as_bytes())?;
        let name = Text::from_slice(alloc, name.as_bytes())?;
        names.put(path, name)?;
    }
    Ok(names)
}

// A fault with its place and the name that it speaks of.
fn refused(alloc: Global, fault: &CheckFault) -> Result<String, NoMemory> {
    let CheckFault::Fault(fault) = fault else {
        return Err(AllocError);
    };
    let kind = fault.kind;
    let (file, name) = (word(&fault.pos.file), word(&fault.name));
    format!(in alloc;
        "{file}:{}:{} {kind:?} {name}",
        fault.pos.line, fault.pos.col
    )
}

fn names(alloc: Global, files: &[FileTree]) -> Result<String, NoMemory> {
    let packages = package_names(alloc)?;
    let mut out = String::new(alloc);
    match names_of(alloc, &packages, files) {
        Ok(before) => {
            for name in before.names.as_slice() {
                out.push_str(word(name))?;
                out.push(' ')?;
            }
            Ok(out)
        }
        Err(fault) => refused(alloc, &fault),
    }
}

fn used(alloc: Global, files: &[FileTree]) -> Result<String, NoMemory> {
    let packages = package_names(alloc)?;
    match imports_used(alloc, &packages, files) {
        Ok(()) => String::from_str(alloc, "used"),
        Err(fault) => refused(alloc, &fault),
    }
}

fn at(alloc: Global, word: &str, spot: Spot) -> Result<String, NoMemory> {
    format!(in alloc; "{word} {}:{}", spot.line, spot.col)
}

fn what(alloc: Global, what: &What<'_>) -> Result<String, NoMemory> {
    match what {
        What::Alias(of) => at(alloc, "alias", type_spot(of)),
        What::Defined(of) => at(alloc, "type", type_spot(of)),
        What::Var(Some(of)) => at(alloc, "var", type_spot(of)),
        What::Var(None) => String::from_str(alloc, "var"),
        What::Const { iota, of, value } => {
            let typed = of.is_some();
            let value = at(alloc, "const", tree_spot(value))?;
            format!(in alloc; "{value} {iota} {typed}")
        }
        What::Miscounted { iota, at: spot, .. } => {
            let place = at(alloc, "miscounted", *spot)?;
            format!(in alloc; "{place} {iota}")
        }
        What::Func(_) => String::from_str(alloc, "func"),
    }
}

fn add_item(alloc: Global, out: &mut String, item: &Item<'_>) -> Result<(), NoMemory> {
    let what = what(alloc, &item.what)?;
    let (file, name) = (item.file, word(&item.name.text));
    let line = format!(in alloc; "{file} {name} {what}; ")?;
    out.push_str(&line)
}

fn items(alloc: Global, files: &[FileTree]) -> Result<String, NoMemory> {
    let mut out = String::new(alloc);
    let found = items_of(alloc, files)?;
    for item in found.as_slice() {
        add_item(alloc, &mut out, item)?;
    }
    Ok(out)
}

fn nodes(alloc: Global, files: &[FileTree]) -> Result<String, NoMemory> {
    let items = items_of(alloc, files)?;
    let links = links_of(alloc, &items)?;
    if let Some(k) = first_cycle(alloc, &links, items.len())? {
        return format!(in alloc; "cycle {k}");
    }
    let mut out = String::new(alloc);
    let order = node_order(alloc, &links)?;
    for node in order.as_slice() {
        let node = format!(in alloc; "{node} ")?;
        out.push_str(&node)?;
    }
    Ok(out)
}
