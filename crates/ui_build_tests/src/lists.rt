//! The packages below, of small programs.

use std::alloc::Global;
use std::test::Fail;
use ui_base::Text;
use ui_below::{JoinFault, join};
use ui_exports::{Below, Linked, NoMemory, Package};

// A linked file of a package with this list: paths of one byte, each with the byte of its
// fingerprint.
fn file(alloc: Global, path: &[u8], list: &[(u8, u8)]) -> Result<Linked, NoMemory> {
    let package = Package::new(alloc, path, path)?;
    let mut below = Vec::new(alloc);
    for (name, print) in list {
        let path = Text::from_slice(alloc, &[*name])?;
        let print = [*print; 8];
        let direct = true;
        below.push(Below {
            path,
            print,
            direct,
        })?;
    }
    Ok(Linked { package, below })
}

// What a list says: its paths, the bytes of its fingerprints, and `d` for each direct import.
fn spell(alloc: Global, list: &[Below]) -> Result<Vec<u8>, NoMemory> {
    let mut text = Vec::new(alloc);
    for below in list {
        text.extend_from_slice(below.path.bytes())?;
        text.push(below.print[0])?;
        text.push(if below.direct { b'd' } else { b'-' })?;
    }
    Ok(text)
}

// A package that imports b and c, both of which import others.
fn joined(alloc: Global, own: &[u8], b: &[(u8, u8)], c: &[(u8, u8)]) -> Result<Vec<u8>, NoMemory> {
    let mut files = Vec::new(alloc);
    files.push(file(alloc, b"b", b)?)?;
    files.push(file(alloc, b"c", c)?)?;
    match join(alloc, own, &files, &[[b'2'; 8], [b'3'; 8]]) {
        Ok(list) => spell(alloc, &list),
        Err(JoinFault::Cycle) => b"cycle".to_vec(alloc),
        Err(JoinFault::NoMemory) => b"memory".to_vec(alloc),
        Err(
            JoinFault::Stale {
                path,
                first,
                second,
            },
        ) => {
            let mut text = b"stale ".to_vec(alloc)?;
            text.extend_from_slice(path.bytes())?;
            text.push(first[0])?;
            text.push(second[0])?;
            Ok(text)
        }
    }
}

// Whether two lists join to what is wanted.
fn come_to(
    alloc: Global,
    own: &[u8],
    b: &[(u8, u8)],
    c: &[(u8, u8)],
    want: &[u8],
) -> Result<bool, NoMemory> {
    let text = joined(alloc, own, b, c)?;
    Ok(text.as_slice() == want)
}

#[test]
fn lists_join(rt: HostRuntime) -> Result<(), Fail> {
    let alloc = rt.alloc();
    let a = [(b'a', b'1')];
    assert!(rt; come_to(alloc, b"d", &[], &[], b"b2dc3d")?);
    assert!(rt; come_to(alloc, b"d", &a, &a, b"a1-b2dc3d")?);
    assert!(rt;
        come_to(
            alloc,
            b"d",
            &[(b'c', b'3'), (b'x', b'4')],
            &a,
            b"a1-b2dc3dx4-"
        )?
    );
    Ok(())
}

#[test]
fn lists_apart(rt: HostRuntime) -> Result<(), Fail> {
    let alloc = rt.alloc();
    let own = [(b'd', b'4')];
    assert!(rt; come_to(alloc, b"d", &[(b'a', b'1')], &[(b'a', b'2')], b"stale a12")?);
    assert!(rt;
        come_to(
            alloc,
            b"d",
            &[(b'c', b'9'), (b'x', b'1')],
            &[(b'd', b'4'), (b'x', b'2')],
            b"stale c93"
        )?
    );
    // a file that names itself: its own fingerprint goes first
    assert!(rt; come_to(alloc, b"d", &[(b'b', b'9')], &[], b"stale b29")?);
    assert!(rt; come_to(alloc, b"d", &[], &own, b"cycle")?);
    assert!(rt; come_to(alloc, b"c", &[], &[], b"cycle")?);
    Ok(())
}
