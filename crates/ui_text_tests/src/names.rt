//! Names and paths.

use std::test::Fail;
use ui_base::{is_exported, is_name, is_path};

#[test]
fn names_and_paths(rt: HostRuntime) -> Result<(), Fail> {
    let names: [&[u8]; 5] = [b"a", b"_", b"x9", "é".as_bytes(), b"breaks"];
    for name in names {
        assert!(rt; is_name(name));
    }
    let others: [&[u8]; 6] = [b"", b"9", b"break", b"a-b", b"\xff", b"var"];
    for name in others {
        assert!(rt; !is_name(name));
    }
    assert!(rt; is_exported(b"N") && is_exported("Éa".as_bytes()) && is_exported(b"A\xff"));
    assert!(rt;
        !is_exported(b"n") && !is_exported(b"_N") && !is_exported(b"") && !is_exported(b"\xffA")
    );
    let paths: [&[u8]; 5] = [b"a", b"a/b", b"x.y/z-1", b"C/x", b"..."];
    for path in paths {
        assert!(rt; is_path(path));
    }
    let bad: [&[u8]; 10] = [
        b"",
        b"a//b",
        b"/a",
        b"a/",
        b".",
        b"a/..",
        b"builtin",
        b"unsafe",
        b"C",
        "é".as_bytes(),
    ];
    for path in bad {
        assert!(rt; !is_path(path));
    }
    assert!(rt; is_path(&[b'a'; 255]) && !is_path(&[b'a'; 256]));
    Ok(())
}
