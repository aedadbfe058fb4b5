// Sources at their limits and one past them.
use crate::scene::{run_words, store_of};
use std::alloc::{AllocError, Global};
use std::test::Fail;
use ui_store::MemStore;
use ui_top::Status;

// A source of the package `a` of so many bytes, of which most are a comment.
fn long_source(alloc: Global, count: usize) -> Result<String, AllocError> {
    let mut text = String::from_str(alloc, "package a //")?;
    for _ in text.len()..count {
        text.push('x')?;
    }
    Ok(text)
}

#[test]
fn a_source_that_is_as_long_as_may_be(rt: HostRuntime) -> Result<(), Fail> {
    let alloc = rt.alloc();
    for (count, line) in [
        (4096, ""),
        (1048576, "src/a/a.go:1:1: Form\n"),
        (1048577, "src/a/a.go:1:1: SourceTooLong\n"),
    ] {
        let text = long_source(alloc, count)?;
        let mut store = store_of(alloc, &[("src/a/a.go", text.as_str())])?;
        let ended = run_words(alloc, &["build", "a"], &mut store)?;
        assert_eq!(rt; ended.err.written(), line.as_bytes());
    }
    Ok(())
}

// A store with so many files of the package `a`.
fn many_files(alloc: Global, count: u32) -> Result<MemStore, AllocError> {
    let mut store = MemStore::new(alloc, Vec::new(alloc), 0);
    for i in 0..count {
        let name = format!(in alloc; "src/a/f{i}.go")?;
        store.put(alloc, name.as_str(), b"package a\n")?;
    }
    Ok(store)
}

#[test]
fn as_many_files_as_may_be(rt: HostRuntime) -> Result<(), Fail> {
    let alloc = rt.alloc();
    for (count, status, line) in [
        (256, Status::Ok, ""),
        (257, Status::Refused, "src/a/f0.go:1:1: PackageTooLarge\n"),
    ] {
        let mut store = many_files(alloc, count)?;
        let ended = run_words(alloc, &["build", "a"], &mut store)?;
        assert_eq!(rt; ended.err.written(), line.as_bytes());
        assert_eq!(rt; ended.status, status);
    }
    Ok(())
}
