//! Stores, sources and sinks, in memory and over the system.

use std::alloc::Global;
use std::io::{Read, Write};
use std::process::Abort;
use std::test::Fail;
use std::{fs, io};
use ui_store::{
    AskKind, DirStore, InSource, IoFault, MemSink, MemSource, MemStore, OutSink, Sink, Source,
    Store, StoreFault, put_all,
};

// Lists a folder through the bound, and joins what it gives by blanks.
fn listed<S: Store>(alloc: Global, store: &mut S, dir: &str) -> Result<String, StoreFault> {
    let mut joined = String::new(alloc);
    for name in store.list(alloc, dir)? {
        joined.push_str(name.as_str())?;
        joined.push(' ')?;
    }
    Ok(joined)
}

// What reading a file through the bound answers: how many bytes, or why not.
fn length_of<S: Store>(
    alloc: Global,
    store: &mut S,
    name: &str,
    limit: usize,
) -> Result<usize, StoreFault> {
    Ok(store.read(alloc, name, limit)?.len())
}

// The bytes under a name of a store in memory.
fn is_file(store: &MemStore, name: &str, bytes: &[u8]) -> bool {
    match store.file(name) {
        Some(found) => found == bytes,
        None => false,
    }
}

#[test]
fn memory_store_answers(rt: HostRuntime) -> Result<(), Fail> {
    let alloc = rt.alloc();
    let mut store = MemStore::new(alloc, Vec::new(alloc), 0);
    for name in [
        "src/a/b.go",
        "src/a/a.go",
        "src/a/x/c.go",
        "src/ab",
        "src/b/",
    ] {
        store.put(alloc, name, name.as_bytes())?;
    }
    for (dir, want) in [
        ("src/a", Ok("a.go b.go ")),
        ("src", Ok("ab ")),
        ("src/a/x", Ok("c.go ")),
        ("src/b", Ok(" ")),
        ("src/c", Err(StoreFault::Missing)),
        ("", Err(StoreFault::Missing)),
    ] {
        let given = listed(alloc, &mut store, dir);
        let given = match &given {
            Ok(names) => Ok(names.as_str()),
            Err(fault) => Err(*fault),
        };
        assert_eq!(rt; given, want, "in {dir}");
    }
    for (name, limit, want) in [
        ("src/ab", 6, Ok(6)),
        ("src/ab", 5, Err(StoreFault::TooLong)),
        ("src/ac", 6, Err(StoreFault::Missing)),
    ] {
        assert_eq!(rt;
            length_of(alloc, &mut store, name, limit),
            want,
            "{name} to {limit}"
        );
    }
    store.write(alloc, "src/ab", b"new")?;
    assert!(rt; is_file(&store, "src/ab", b"new"));
    assert_eq!(rt; store.faults(), 0);
    assert_eq!(rt; store.asked().len(), 10);
    let last = store.asked().last().ok_or("no call")?;
    assert_eq!(rt; last.what, AskKind::Write);
    assert_eq!(rt; last.name.bytes(), b"src/ab".as_slice());
    Ok(())
}

#[test]
fn memory_store_fails_by_number(rt: HostRuntime) -> Result<(), Fail> {
    let alloc = rt.alloc();
    let mut store = MemStore::new(alloc, vec![in alloc; 1, 3, 4]?, 2);
    store.put(alloc, "f", b"old")?;
    assert_eq!(rt; length_of(alloc, &mut store, "f", 9), Ok(3));
    assert_eq!(rt;
        length_of(alloc, &mut store, "g", 9),
        Err(StoreFault::Failed)
    );
    assert_eq!(rt;
        length_of(alloc, &mut store, "g", 9),
        Err(StoreFault::Missing)
    );
    assert_eq!(rt;
        listed(alloc, &mut store, "none").err(),
        Some(StoreFault::Failed)
    );
    assert_eq!(rt;
        store.write(alloc, "f", b"new text"),
        Err(StoreFault::Failed)
    );
    assert!(rt; is_file(&store, "f", b"ne"));
    assert_eq!(rt; store.faults(), 3);
    assert_eq!(rt; store.asked().len(), 5);
    Ok(())
}

// Reads from a source through its bound.
fn taken<S: Source>(source: &mut S, piece: &mut [u8]) -> Result<usize, IoFault> {
    source.read(piece)
}

#[test]
fn memory_source_gives_pieces(rt: HostRuntime) -> Result<(), Fail> {
    let alloc = rt.alloc();
    let bytes = Vec::from_slice(alloc, b"abcde")?;
    let mut source = MemSource::new(bytes, vec![in alloc; 1]?);
    let mut piece = [b'.'; 3];
    for (want, holds) in [
        (Ok(3), b"abc"),
        (Err(IoFault), b"abc"),
        (Ok(2), b"dec"),
        (Ok(0), b"dec"),
    ] {
        assert_eq!(rt; taken(&mut source, &mut piece), want);
        assert_eq!(rt; piece, *holds);
    }
    assert_eq!(rt; source.faults(), 1);
    Ok(())
}

#[test]
fn memory_sink_takes_what_fits(rt: HostRuntime) -> Result<(), Fail> {
    let alloc = rt.alloc();
    let mut sink = MemSink::new(alloc, 4, vec![in alloc; 0]?)?;
    for (piece, want) in [
        ("abc", Err(IoFault)),
        ("abc", Ok(3)),
        ("def", Ok(1)),
        ("ef", Err(IoFault)),
        ("", Ok(0)),
    ] {
        assert_eq!(rt; sink.write(piece.as_bytes()), want, "at {piece}");
    }
    assert_eq!(rt; sink.written(), b"abcd".as_slice());
    assert_eq!(rt; sink.faults(), 2);
    Ok(())
}

#[test]
fn all_of_it_is_put(rt: HostRuntime) -> Result<(), Fail> {
    let alloc = rt.alloc();
    let mut sink = MemSink::new(alloc, 5, Vec::new(alloc))?;
    put_all(&mut sink, b"abc")?;
    assert_eq!(rt; put_all(&mut sink, b"def"), Err(IoFault));
    assert_eq!(rt; sink.written(), b"abcde".as_slice());
    Ok(())
}

#[test]
fn directory_is_a_store(rt: HostRuntime) -> Result<(), Fail> {
    let alloc = rt.alloc();
    let mut store = DirStore::new(rt.clone()?);
    store.write(alloc, "top/in/b", b"bytes")?;
    store.write(alloc, "top/in/a", b"")?;
    store.write(alloc, "top/in/sub/c", b"")?;
    assert_eq!(rt; listed(alloc, &mut store, "top/in")?.as_str(), "a b ");
    assert_eq!(rt;
        listed(alloc, &mut store, "top").err(),
        Some(StoreFault::Missing)
    );
    for (name, limit, want) in [
        ("top/in/b", 5, Ok(5)),
        ("top/in/b", 4, Err(StoreFault::TooLong)),
        ("top/in/none", 5, Err(StoreFault::Missing)),
    ] {
        assert_eq!(rt;
            length_of(alloc, &mut store, name, limit),
            want,
            "{name} to {limit}"
        );
    }
    assert_eq!(rt;
        store.write(alloc, "top/in/b/under", b""),
        Err(StoreFault::Failed)
    );
    fs::remove_dir_all(&rt, "top")?;
    Ok(())
}

// A stream that is broken in both directions.
#[derive(Drop)]
struct Broken;

impl Read for Broken {
    fn read(&mut self, _buf: &mut [u8]) -> io::Result<usize> {
        Err(io::ErrorKind::Other.into())
    }
}

impl Write for Broken {
    fn write(&mut self, _buf: &[u8]) -> io::Result<usize> {
        Ok(0)
    }

    fn flush(&mut self) -> io::Result<()> {
        Ok(())
    }
}

#[test]
fn reader_is_a_source(rt: HostRuntime) -> Result<(), Fail> {
    let mut piece = [0u8; 3];
    let mut source = InSource::new(b"abcd".as_slice());
    for want in [3, 1, 0] {
        assert_eq!(rt; taken(&mut source, &mut piece), Ok(want));
    }
    assert_eq!(rt; piece, *b"dbc");
    assert_eq!(rt; taken(&mut InSource::new(Broken), &mut piece), Err(IoFault));
    Ok(())
}

#[test]
fn writer_is_a_sink(rt: HostRuntime) -> Result<(), Fail> {
    put_all(&mut OutSink::new(io::writer(&rt)), b"")?;
    assert_eq!(rt; put_all(&mut OutSink::new(Broken), b"a"), Err(IoFault));
    assert_eq!(rt; put_all(&mut OutSink::new(Broken), b""), Ok(()));
    Ok(())
}
