//! The forms of packages and their verdicts, over trees made by hand.

use crate::trees::files_of;
use std::alloc::{AllocError, Global};
use std::test::Fail;
use ui_base::{CheckFault, Fault, Pos, Text};
use ui_exports::{Constant, Linked, Package};
use ui_forms::{Form, FormFault, NoMemory, check, form_of};
use ui_tree::FileTree;

// What comes of the sources of a package of the path `p/x`, in words.
fn outcome(alloc: Global, text: &str) -> Result<String, NoMemory> {
    let files = files_of(alloc, text)?;
    outcome_of(alloc, "p/x", 4096, &files)
}

fn outcome_of(
    alloc: Global,
    path: &str,
    size: usize,
    files: &[FileTree],
) -> Result<String, NoMemory> {
    match form_of(alloc, path, size, files) {
        Ok(form) => verdict_of(alloc, &form),
        Err(FormFault::NotTaken(pos)) => place_of(alloc, &pos, "Form", ""),
        Err(FormFault::NoMemory) => Err(AllocError),
    }
}

fn verdict_of(alloc: Global, form: &Form) -> Result<String, NoMemory> {
    let imports = linked_of(alloc, form)?;
    match check(alloc, form, &imports) {
        Ok(package) => value_of(alloc, &package),
        Err(CheckFault::Fault(fault)) => words_of(alloc, &fault),
        Err(CheckFault::NoMemory) => Err(AllocError),
    }
}

// The place and the value of the constant `M`.
fn value_of(alloc: Global, package: &Package) -> Result<String, NoMemory> {
    let Some(constant) = package.constants().get(b"M".as_slice()) else {
        return String::from_str(alloc, "none");
    };
    let value = format!(in alloc; "{}", constant.value)?;
    place_of(alloc, &constant.pos, &value, "")
}

fn words_of(alloc: Global, fault: &Fault) -> Result<String, NoMemory> {
    let name = str::from_utf8(fault.name.bytes()).unwrap_or("?");
    let kind = format!(in alloc; "{:?}", fault.kind)?;
    place_of(alloc, &fault.pos, &kind, name)
}

fn place_of(alloc: Global, pos: &Pos, what: &str, name: &str) -> Result<String, NoMemory> {
    let file = str::from_utf8(pos.file.bytes()).unwrap_or("?");
    let line = pos.line;
    let column = pos.col;
    format!(in alloc; "{file}:{line}:{column} {what} {name}")
}

// What the imports of a form stand for: each has N = 7, HALF = 2^126 and MOST = 2^127 - 1.
fn linked_of(alloc: Global, form: &Form) -> Result<Vec<Linked>, NoMemory> {
    let mut imports = Vec::new(alloc);
    for path in form.imports() {
        imports.push(linked(alloc, path.as_bytes())?)?;
    }
    Ok(imports)
}

fn linked(alloc: Global, path: &[u8]) -> Result<Linked, NoMemory> {
    let mut package = Package::new(alloc, path, b"name")?;
    declare(alloc, &mut package, b"N", 7)?;
    declare(alloc, &mut package, b"HALF", 1 << 126)?;
    declare(
        alloc,
        &mut package,
        b"MOST",
        0x7fff_ffff_ffff_ffff_ffff_ffff_ffff_ffff,
    )?;
    Ok(Linked {
        package,
        below: Vec::new(alloc),
    })
}

fn declare(
    alloc: Global,
    exported: &mut Package,
    name: &[u8],
    value: u128,
) -> Result<(), NoMemory> {
    let pos = Pos {
        file: Text::from_slice(alloc, b"q.go")?,
        line: 1,
        col: 7,
    };
    let name = Vec::from_slice(alloc, name)?;
    exported.declare(name, Constant { pos, value })?;
    Ok(())
}

// The first case, sources and what comes of them split by `|`, that comes out otherwise. Cases
// stand behind a `#`.
fn failing(alloc: Global, cases: &str) -> Result<Option<String>, NoMemory> {
    for case in cases.split('#') {
        if let Some((sources, wanted)) = case.split_once('|') {
            let found = outcome(alloc, sources)?;
            if found.as_str() != wanted {
                return Ok(Some(format!(in alloc; "{sources}: {found}")?));
            }
        }
    }
    Ok(None)
}

// A file begins behind a `~`, with its name and its package's on the first line.
const TAKEN: &str = "~a x\n|none\
    #~a x\nconst M = 0\n|a:2:7 0 \
    #~a x\nconst M = 1 + 2 + 3\n|a:2:7 6 \
    #~a x\nconst M = 170141183460469231731687303715884105727\n|a:2:7 170141183460469231731687303715884105727 \
    #~a x\nimport y/q\nimport z/r\nconst N_1 = 2\nconst M = N_1 + q.N + r.N\n|a:5:7 16 \
    #~a x\nimport y/q\nconst A = q.N\n~b x\nimport z/q\nconst M = q.N + 1\n|b:3:7 8 \
    #~a x\nimport y/q\nconst M = q.MOST + 0\n|a:3:7 170141183460469231731687303715884105727 \
    #~a x\nimport y/q\nconst H = q.HALF\nconst M = 999 + H\n|a:4:7 85070591730234615865843651857942053863 ";

const OF_NO_FORM: &str = "~a y\n|a:1:1 Form \
    #~a x\n~b y\n|a:1:1 Form \
    #~a x\nimport (q\nconst M = 1\n|a:2:1 Form \
    #~a x\nimport n q\n|a:2:1 Form \
    #~a x\nimport q//r\n|a:2:8 Form \
    #~a x\nimport p/x\n|a:2:8 Form \
    #~a x\nvar M = 1\n|a:2:1 Form \
    #~a x\nconst (M = 1\n|a:2:1 Form \
    #~a x\nconst m = 1\n|a:2:1 Form \
    #~a x\nconst M int = m\n|a:2:9 Form \
    #~a x\nfunc F\n|a:2:1 Form \
    #~a x\nconst M = B\nconst B = 1\n|a:2:11 Form \
    #~a x\nconst M = M\n|a:2:11 Form \
    #~a x\nconst M = q.N\n|a:2:11 Form \
    #~a x\nimport q\nconst M = q.n\n|a:3:11 Form \
    #~a x\nimport q\n~b x\nconst M = q.N\n|b:2:11 Form \
    #~a x\nconst A = 1\n~b x\nconst M = A\n|b:2:11 Form \
    #~a x\nconst M = 1 + (1\n|a:2:15 Form \
    #~a x\nconst M = (1 + A\n|a:2:11 Form \
    #~a x\nconst M = 1 * 2\n|a:2:11 Form \
    #~a x\nconst M = 'c\n|a:2:11 Form \
    #~a x\nconst M = \"c\n|a:2:11 Form \
    #~a x\nconst M = -1\n|a:2:11 Form \
    #~a x\nconst M = 1\nimport p/x\n|a:3:8 Form ";

const REPEATED: &str = "~a x\nimport y/q\nimport z/q\n|a:1:1 Form \
    #~a x\nimport y/M\n~b x\nconst M = 1\n|a:1:1 Form \
    #~a x\nconst M = 1\n~b x\nconst M = 2\n|a:1:1 Form \
    #~a x\nconst M = 1\nconst M = 2\nconst m = 1\n|a:4:1 Form ";

const FAULTS: &str = "~a x\nimport q\nconst M = 1\n|a:2:8 UnusedImport q\
    #~a x\nimport z/r\nimport q\nconst M = r.N\n|a:3:8 UnusedImport q\
    #~a x\nimport q\n~b x\nimport q\nconst M = q.N\n|a:2:8 UnusedImport q\
    #~a x\nimport q\nconst A = 1\n~b x\nimport q\nconst M = q.X\n|b:3:11 Undefined X\
    #~a x\nimport q\nconst M = 1 + q.M\n|a:3:15 Undefined M\
    #~a x\nimport q\nconst M = q.MOST + 1 + q.X\n|a:3:11 ConstTooBig \
    #~a x\nimport q\nconst M = q.MOST + q.X + 1\n|a:3:20 Undefined X\
    #~a x\nimport q\nconst A = q.MOST\nconst M = 0 + A + 1\n|a:4:11 ConstTooBig ";

#[test]
fn taken(rt: HostRuntime) -> Result<(), Fail> {
    assert_eq!(rt; failing(rt.alloc(), TAKEN)?, None);
    Ok(())
}

#[test]
fn of_no_form(rt: HostRuntime) -> Result<(), Fail> {
    assert_eq!(rt; failing(rt.alloc(), OF_NO_FORM)?, None);
    assert_eq!(rt; failing(rt.alloc(), REPEATED)?, None);
    Ok(())
}

#[test]
fn faults(rt: HostRuntime) -> Result<(), Fail> {
    assert_eq!(rt; failing(rt.alloc(), FAULTS)?, None);
    Ok(())
}

#[test]
fn packages(rt: HostRuntime) -> Result<(), Fail> {
    let alloc = rt.alloc();
    let none = outcome_of(alloc, "x", 0, &[])?;
    assert_eq!(rt; none.as_str(), ":1:1 Form ");
    let one = files_of(alloc, "~a x\n")?;
    let cases = [
        ("x", 4096, "none"),
        ("x", 4097, "a:1:1 Form "),
        ("x//x", 0, "a:1:1 Form "),
        ("y", 0, "a:1:1 Form "),
    ];
    for (path, size, wanted) in cases {
        let found = outcome_of(alloc, path, size, &one)?;
        assert_eq!(rt; found.as_str(), wanted);
    }
    for (path, text) in [
        ("_", "~a _\n"),
        ("const", "~a const\n"),
        ("a-b", "~a a-b\n"),
        ("1", "~a 1\n"),
    ] {
        let files = files_of(alloc, text)?;
        let found = outcome_of(alloc, path, 0, &files)?;
        assert_eq!(rt; found.as_str(), "a:1:1 Form ");
    }
    Ok(())
}

// The sources of a file whose name has so many bytes.
fn named(alloc: Global, count: usize) -> Result<Vec<FileTree>, NoMemory> {
    let mut text = String::from_str(alloc, "~")?;
    for _i in 0..count {
        text.push('f')?;
    }
    text.push_str(" x\n")?;
    files_of(alloc, &text)
}

#[test]
fn store_names(rt: HostRuntime) -> Result<(), Fail> {
    let longest = named(rt.alloc(), 255)?;
    assert!(rt; form_of(rt.alloc(), "x", 0, &longest).is_ok());
    let longer = named(rt.alloc(), 256)?;
    assert!(rt; form_of(rt.alloc(), "x", 0, &longer).is_err());
    Ok(())
}
