//! A command over a store in memory, and how it ends.

ghost use Rattle.std.specs.Prelude.{◌≡◌, ◌<◌};

use std::alloc::{AllocError, Global};
use std::marker::Brand;
use std::process::Abort;
use std::sync::ledger::{Blank, Ledger};
use ui_steps::Steps;
use ui_store::{MemSink, MemSource, MemStore, Store};
use ui_top::{Status, run};

/// The line of words that spell no command.
pub const USAGE: &str =
    "usage: goui build PATH [QUERY]... | compile PATH | link PATH | dump PATH [QUERY]... | ask PATH | frame NAME | gen N\n";

/// A file: its name and its text.
pub type File = (&'static str, &'static str);

/// A package of one constant.
pub const SEVEN: File = ("src/a/a.go", "package a\n\nconst N = 7\n");

/// The linked file of that package.
pub const SEVEN_FILE: &[u8] = b"\x01\0\0\0\0\0\0\0\
    \x03\0\0\0\x05\0\0\0\x06\0\0\0\x07\0\0\0\x08\0\0\0\x09\0\0\0\x0a\0\0\0\x0b\0\0\0\x0c\0\0\0\x0c\0\0\0\
    \x01\0\0\0\x0b\0\0\0\x0c\0\0\0\x17\0\0\0\x19\0\0\0\x1e\0\0\0\x23\0\0\0\x2b\0\0\0\x2e\0\0\0\x3c\0\0\0\x3d\0\0\0\x45\0\0\0\
    asrc/a/a.goN\
    \x02\x03\0\x06\0\0\0\x01\0\x01\0\0\0\
    \x01\0\x01\0\x01\
    \x01\0\0\0\0\
    \x02\x03\0\0\x02\0\x01\x01\
    \0\0\x14\
    \x02\x02\0\x05\0\x01\0\x03\x07\0\x01\0\x02\x0e\
    \0\
    \0\0\0\0\0\0\0\0\
    \x0b\x20\x00\xa1\xfa\x75\xd6\xb3";

/// How a command ended, and what its sinks took.
#[derive(Drop)]
pub struct Ended {
    pub status: Status,
    pub out: MemSink,
    pub err: MemSink,
}

fn run_counted<S: Store, L: Ledger>(
    alloc: Global,
    words: &[&str],
    store: &mut S,
    room: usize,
    out_fails: &[u64],
    blank: Blank,
) -> Result<Ended, AllocError>
    requires name { blank.name ≡ L.name }
    requires parts { (blank.parts ≡ L.parts) × (0 < L.parts) }
{
    let mut texts = Vec::new(alloc);
    for word in words {
        texts.push(String::from_str(alloc, word)?)?;
    }
    let mut input = MemSource::new(Vec::new(alloc), Vec::new(alloc));
    let mut out = MemSink::new(alloc, room, out_fails.to_vec(alloc)?)?;
    let mut err = MemSink::new(alloc, 1000, Vec::new(alloc))?;
    let mut steps = Steps::<L>::new(blank);
    let status = run(
        alloc, &texts, store, &mut input, &mut out, &mut err, &mut steps,
    );
    Ok(Ended { status, out, err })
}

/// Runs the words over a store, with a sink for answers that has so much room and fails at these
/// calls.
pub fn run_with<S: Store>(
    alloc: Global,
    words: &[&str],
    store: &mut S,
    room: usize,
    out_fails: &[u64],
) -> Result<Ended, AllocError> {
    run_counted::<S, Brand>(alloc, words, store, room, out_fails, Blank::new(1))
}

/// Runs the words over a store.
pub fn run_words<S: Store>(
    alloc: Global,
    words: &[&str],
    store: &mut S,
) -> Result<Ended, AllocError> {
    run_with(alloc, words, store, 1000, &[])
}

/// Puts these files into a store.
pub fn put_files(
    alloc: Global,
    store: &mut MemStore,
    files: &[(&str, &str)],
) -> Result<(), AllocError> {
    for (name, text) in files {
        store.put(alloc, name, text.as_bytes())?;
    }
    Ok(())
}

/// A store with these files.
pub fn store_of(alloc: Global, files: &[(&str, &str)]) -> Result<MemStore, AllocError> {
    let mut store = MemStore::new(alloc, Vec::new(alloc), 0);
    put_files(alloc, &mut store, files)?;
    Ok(store)
}

/// Compares the status and both texts.
pub fn compare(rt: &impl Abort, ended: &Ended, status: Status, out: &str, err: &str) {
    assert_eq!(rt; ended.err.written(), err.as_bytes());
    assert_eq!(rt; ended.out.written(), out.as_bytes());
    assert_eq!(rt; ended.status, status);
}

/// Files, words, and how these end over the files: the status, the answers and the line.
pub type Row = (
    &'static [File],
    &'static [&'static str],
    Status,
    &'static str,
    &'static str,
);

/// Runs each row over a store of its own.
pub fn expect(rt: &(impl Abort + AllocGlobal), rows: &[Row]) -> Result<(), AllocError> {
    for (files, words, status, out, err) in rows {
        let mut store = store_of(rt.alloc(), files)?;
        let ended = run_words(rt.alloc(), words, &mut store)?;
        compare(rt, &ended, *status, out, err);
    }
    Ok(())
}
