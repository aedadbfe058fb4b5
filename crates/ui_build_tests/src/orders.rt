//! The order of packages, cycles, and the order in which packages are read.

ghost use Rattle.std.specs.Prelude.{IfOk};
ghost use Rattle.ui_order.specs.Found.{IsClosed};

use std::alloc::{AllocError, Global};
use std::test::Fail;
use ui_order::{Discovery, NoMemory, Order};

type Package = (String, Vec<String>);

// A line for each package: its path, and then its imports.
fn packages(alloc: Global, text: &str) -> Result<Vec<Package>, NoMemory> {
    let mut packages = Vec::new(alloc);
    for line in text.lines() {
        packages.push(package(alloc, line)?)?;
    }
    Ok(packages)
}

fn package(alloc: Global, line: &str) -> Result<Package, NoMemory> {
    let mut path = String::new(alloc);
    let mut imports = Vec::new(alloc);
    for (i, word) in line.split(' ').enumerate() {
        let word = String::from_str(alloc, word)?;
        if i == 0 {
            path = word;
        } else {
            imports.push(word)?;
        }
    }
    Ok((path, imports))
}

fn imports_of(alloc: Global, packages: &[Package], path: &str) -> Result<Vec<String>, NoMemory> {
    for (name, imports) in packages {
        if name.as_str() == path {
            return imports.clone();
        }
    }
    Ok(Vec::new(alloc))
}

// Reads what the root needs, at most a hundred packages. The paths are listed as they are read.
fn discovered(
    alloc: Global,
    packages: &[Package],
    root: &str,
    trace: &mut String,
) -> Result<Discovery, NoMemory>
    ensures { IfOk result (λ discovery. IsClosed discovery.read) }
{
    let mut discovery = Discovery::new(alloc, root)?;
    for _ in 0..100 {
        let path = match discovery.next() {
            Some(path) => String::from_str(alloc, path)?,
            None => return Ok(discovery),
        };
        trace.push_str(path.as_str())?;
        trace.push_str(" ")?;
        let imports = imports_of(alloc, packages, path.as_str())?;
        discovery.add(alloc, path, imports)?;
    }
    Err(AllocError)
}

fn told(alloc: Global, order: &Order) -> Result<String, NoMemory> {
    let mut text = String::new(alloc);
    match order {
        Order::Cycle(path) => {
            text.push_str("cycle ")?;
            text.push_str(path.as_str())?;
        }
        Order::Paths(paths) => {
            for path in paths {
                text.push_str(path.as_str())?;
                text.push_str(" ")?;
            }
        }
    }
    Ok(text)
}

fn ordered(alloc: Global, text: &str, root: &str) -> Result<String, NoMemory> {
    let packages = packages(alloc, text)?;
    let mut trace = String::new(alloc);
    let discovery = discovered(alloc, packages.as_slice(), root, &mut trace)?;
    let order = discovery.order(alloc)?;
    told(alloc, &order)
}

#[test]
fn orders(rt: HostRuntime) -> Result<(), Fail> {
    let alloc = rt.alloc();
    let cases = [
        ("r", "r", "r "),
        ("r a b\na c\nb c\nc", "r", "c a b r "),
        ("r z b a", "r", "a b z r "),
        ("r a z\na z", "r", "z a r "),
        ("c/x b/y\nb/y a\na", "c/x", "a b/y c/x "),
    ];
    for (text, root, wanted) in cases {
        let answer = ordered(alloc, text, root)?;
        assert!(rt; answer.as_str() == wanted);
    }
    Ok(())
}

#[test]
fn cycles(rt: HostRuntime) -> Result<(), Fail> {
    let alloc = rt.alloc();
    let cases = [
        ("r r", "r", "cycle r"),
        ("r a\na r", "r", "cycle a"),
        ("r c\nc b\nb d\nd c", "r", "cycle b"),
        ("b z\nz b a\na y\ny w\nw y", "b", "cycle b"),
        ("r m\nm p a\np m\na x\nx y\ny x", "r", "cycle m"),
        ("r q k\nq q\nk", "r", "cycle q"),
        // a chain a, b, c between two cycles
        ("r x\nx y\ny x a\na b\nb c\nc p\np q\nq p", "r", "cycle p"),
        // an import of itself inside a chain
        ("r d\nd b\nb c\nc c a\na", "r", "cycle c"),
        // the cycle with the least path is found last
        ("a m t w\nm n\nn m\nt u\nu v\nv t\nw d\nd w", "a", "cycle d"),
        // two cycles through one package, and one into it
        ("r f\nf g k\ng h f\nh g\nk e\ne f", "r", "cycle e"),
    ];
    for (text, root, wanted) in cases {
        let answer = ordered(alloc, text, root)?;
        assert!(rt; answer.as_str() == wanted);
    }
    Ok(())
}

#[test]
fn a_long_chain(rt: HostRuntime) -> Result<(), Fail> {
    let alloc = rt.alloc();
    let mut text = String::new(alloc);
    let mut wanted = String::new(alloc);
    for k in 0..29u8 {
        let line = format!(in alloc; "p{:02} p{:02}\n", k, k + 1)?;
        text.push_str(line.as_str())?;
        let path = format!(in alloc; "p{:02} ", 29 - k)?;
        wanted.push_str(path.as_str())?;
    }
    wanted.push_str("p00 ")?;
    let answer = ordered(alloc, text.as_str(), "p00")?;
    assert!(rt; answer.as_str() == wanted.as_str());
    Ok(())
}

#[test]
fn reads_the_least_first(rt: HostRuntime) -> Result<(), Fail> {
    let alloc = rt.alloc();
    let packages = packages(alloc, "m t n\nn a z\na\nt m\nz a")?;
    let mut trace = String::new(alloc);
    let discovery = discovered(alloc, packages.as_slice(), "m", &mut trace)?;
    assert!(rt; trace.as_str() == "m n a t z ");
    assert!(rt; discovery.count() == 5);
    assert!(rt; discovery.imports("n").is_some());
    assert!(rt; discovery.imports("b").is_none());
    Ok(())
}

// A root with so many imports.
fn star(alloc: Global, count: u32) -> Result<Discovery, NoMemory> {
    let mut discovery = Discovery::new(alloc, "r")?;
    let mut imports = Vec::new(alloc);
    for k in 0..count {
        imports.push(format!(in alloc; "p{k}")?)?;
    }
    discovery.add(alloc, String::from_str(alloc, "r")?, imports)?;
    Ok(discovery)
}

#[test]
fn the_limit(rt: HostRuntime) -> Result<(), Fail> {
    let alloc = rt.alloc();
    for (imports, is_too_large) in [(0, false), (1023, false), (1024, true)] {
        let discovery = star(alloc, imports)?;
        assert!(rt; discovery.is_too_large() == is_too_large);
    }
    Ok(())
}
