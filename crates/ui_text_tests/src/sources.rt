//! Packages of sources, and their first faults.

use std::alloc::{AllocError, Global};
use std::test::Fail;
use ui_base::{CheckFault, Fault, NoMemory};
use ui_sources::{SOURCE_LIMIT, SourceFile, read_trees};

fn source(alloc: Global, name: &str, text: &str) -> Result<SourceFile, NoMemory> {
    Ok(SourceFile {
        name: String::from_str(alloc, name)?,
        bytes: Some(Vec::from_slice(alloc, text.as_bytes())?),
    })
}

// The sources of a text, of which each begins behind a `~`, with its name on the first line.
fn sources_of(alloc: Global, text: &str) -> Result<Vec<SourceFile>, NoMemory> {
    let mut sources = Vec::new(alloc);
    for part in text.split('~') {
        if let Some((name, body)) = part.split_once('|') {
            sources.push(source(alloc, name, body)?)?;
        }
    }
    Ok(sources)
}

fn words_of(alloc: Global, fault: &Fault) -> Result<String, NoMemory> {
    let file = str::from_utf8(fault.pos.file.bytes()).unwrap_or("?");
    let line = fault.pos.line;
    let column = fault.pos.col;
    format!(in alloc; "{file}:{line}:{column} {:?}", fault.kind)
}

// What comes of the sources of a package of the path `p/x`, in words.
fn outcome(alloc: Global, sources: &[SourceFile]) -> Result<String, NoMemory> {
    match read_trees(alloc, "p/x", sources) {
        Ok(trees) => format!(in alloc; "{} bytes, {} files", trees.size, trees.files.len()),
        Err(CheckFault::Fault(fault)) => words_of(alloc, &fault),
        Err(CheckFault::NoMemory) => Err(AllocError),
    }
}

const CASES: [(&str, &str); 12] = [
    ("", "0 bytes, 0 files"),
    ("~a|package x\n~b|package x", "19 bytes, 2 files"),
    ("~a|package x\n\nconst N = 1.5\n", "a:3:11 FloatLiteral"),
    ("~a|package x\r\n\r\nconst N = 'ab'\r\n", "a:3:11 BadRune"),
    (
        "~a|package x\n\n/* one\ntwo */ const N = 1i\n",
        "a:4:18 ImaginaryLiteral",
    ),
    ("~a|package x\r\n\r\nconst = 1\r\n", "a:3:7 Unexpected"),
    (
        "~a|package x\nconst = 1\n~b|package x\nconst N = 0x\n",
        "b:2:11 BadNumber",
    ),
    (
        "~a|package x\nvar s = \"\n~b|package x\nconst N = 0x\n",
        "a:2:9 NewlineInString",
    ),
    (
        "~a|package x\n~b|package x\nconst = 1\n",
        "b:2:7 Unexpected",
    ),
    (
        "~a|package x\nimport \"q\"\n~b|package x\nimport \"p/x\"\n",
        "b:2:8 BadImportPath",
    ),
    ("~a|package x\nfunc f() { go f() }\n", "a:2:12 Outside"),
    ("~a|package x\nfunc f() {\n", "a:3:1 Unexpected"),
];

#[test]
fn cases(rt: HostRuntime) -> Result<(), Fail> {
    let alloc = rt.alloc();
    for (text, wanted) in CASES {
        let sources = sources_of(alloc, text)?;
        let found = outcome(alloc, &sources)?;
        assert_eq!(rt; found.as_str(), wanted);
    }
    Ok(())
}

// So many sources with one fault of parsing each.
fn many(alloc: Global, count: usize) -> Result<Vec<SourceFile>, NoMemory> {
    let mut sources = Vec::new(alloc);
    for _i in 0..count {
        sources.push(source(alloc, "a", "x")?)?;
    }
    Ok(sources)
}

// A source of so many blanks.
fn blank(alloc: Global, count: usize) -> Result<SourceFile, NoMemory> {
    let mut bytes = Vec::new(alloc);
    for _i in 0..count {
        bytes.push(b' ')?;
    }
    Ok(SourceFile {
        name: String::from_str(alloc, "b")?,
        bytes: Some(bytes),
    })
}

#[test]
fn numbers_of_sources(rt: HostRuntime) -> Result<(), Fail> {
    let alloc = rt.alloc();
    let most = many(alloc, 256)?;
    assert_eq!(rt; outcome(alloc, &most)?.as_str(), "a:1:1 Unexpected");
    let mut more = many(alloc, 257)?;
    assert_eq!(rt; outcome(alloc, &more)?.as_str(), "a:1:1 PackageTooLarge");
    more.push(SourceFile {
        name: String::from_str(alloc, "b")?,
        bytes: None,
    })?;
    assert_eq!(rt; outcome(alloc, &more)?.as_str(), "b:1:1 SourceTooLong");
    Ok(())
}

#[test]
fn long_sources(rt: HostRuntime) -> Result<(), Fail> {
    let alloc = rt.alloc();
    let mut sources = sources_of(alloc, "~a|'")?;
    sources.push(blank(alloc, SOURCE_LIMIT + 1)?)?;
    assert_eq!(rt; outcome(alloc, &sources)?.as_str(), "b:1:1 SourceTooLong");
    let mut longest = Vec::new(alloc);
    longest.push(blank(alloc, SOURCE_LIMIT)?)?;
    assert_eq!(rt;
        outcome(alloc, &longest)?.as_str(),
        "b:1:1048577 Unexpected"
    );
    for _i in 0..15 {
        longest.push(blank(alloc, SOURCE_LIMIT)?)?;
    }
    longest.push(source(alloc, "c", "'")?)?;
    assert_eq!(rt; outcome(alloc, &longest)?.as_str(), "b:1:1 PackageTooLarge");
    Ok(())
}
