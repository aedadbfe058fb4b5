//! Linked files that a store gives in place of those that were written.

ghost use Rattle.std.specs.Prelude.{None};
ghost use Rattle.ui_store.specs.Memory.{memory_of};

use crate::scene::{Ended, File, SEVEN, compare, put_files, run_words, store_of};
use std::alloc::{AllocError, Global};
use std::process::Abort;
use std::test::Fail;
use ui_store::{MemStore, Store, StoreFault};
use ui_top::Status;

// A store that tells nothing of itself, and gives other bytes at one linked file; where it has
// none, that is too long.
#[derive(Drop)]
struct Forged {
    inner: MemStore,
    name: &'static str,
    bytes: Option<Vec<u8>>,
}

#[tactic(auto, unfolding(ui_store::specs::Told::more))]
impl Store for Forged {
    ghost told = { λ s. record {
      files = None;
      asked = None;
      heard = None;
      faults = (memory_of s.inner).faults;
    } };

    fn list(&mut self, alloc: Global, dir: &str) -> Result<Vec<String>, StoreFault> {
        match self.inner.list(alloc, dir) {
            Ok(names) => Ok(names),
            Err(fault) => Err(fault),
        }
    }

    fn read(&mut self, alloc: Global, name: &str, limit: usize) -> Result<Vec<u8>, StoreFault> {
        if name == self.name {
            return match &self.bytes {
                Some(bytes) if bytes.len() <= limit => Ok(bytes.to_vec(alloc)?),
                _ => Err(StoreFault::TooLong),
            };
        }
        match self.inner.read(alloc, name, limit) {
            Ok(bytes) => Ok(bytes),
            Err(fault) => Err(fault),
        }
    }

    #[tactic(auto, unfolding(ui_store::specs::Told::more, ui_store::specs::Files::put))]
    fn write(&mut self, alloc: Global, name: &str, bytes: &[u8]) -> Result<(), StoreFault> {
        match self.inner.write(alloc, name, bytes) {
            Ok(()) => Ok(()),
            Err(fault) => Err(fault),
        }
    }

    ghost tells_asked = { λ s told. told };
}

const EIGHT: File = ("src/a/a.go", "package a\n\nconst N = 8\n");

const OVER_A: File = (
    "src/b/b.go",
    "package b\n\nimport \"a\"\n\nconst M = a.N + 1\n",
);

const OVER_BOTH: File = (
    "src/c/c.go",
    "package c\n\nimport \"a\"\nimport \"b\"\n\nconst L = a.N + b.M\n",
);

// The linked file that a build of these packages leaves.
fn linked_of(alloc: Global, files: &[File], root: &str, linked: &str) -> Result<Vec<u8>, Fail> {
    let mut store = store_of(alloc, files)?;
    run_words(alloc, &["build", root], &mut store)?;
    let bytes = store.file(linked).ok_or("no linked file")?;
    Ok(bytes.to_vec(alloc)?)
}

// Builds where one linked file gives these bytes.
fn forge(
    alloc: Global,
    files: &[File],
    words: &[&str],
    name: &'static str,
    bytes: Option<Vec<u8>>,
) -> Result<Ended, AllocError> {
    let mut inner = MemStore::new(alloc, Vec::new(alloc), 0);
    put_files(alloc, &mut inner, files)?;
    let mut store = Forged { inner, name, bytes };
    run_words(alloc, words, &mut store)
}

// Builds `a` where its linked file gives these bytes, and compares the status and both texts.
fn case_of_a(
    rt: &(impl Abort + AllocGlobal),
    bytes: Option<Vec<u8>>,
    status: Status,
    out: &str,
    err: &str,
) -> Result<(), AllocError> {
    let words = ["build", "a", "decl N"];
    let ended = forge(rt.alloc(), &[SEVEN], &words, "lib/a.u", bytes)?;
    compare(rt, &ended, status, out, err);
    Ok(())
}

#[test]
fn the_file_of_the_root(rt: HostRuntime) -> Result<(), Fail> {
    let alloc = rt.alloc();
    let bad = Status::BadFile;
    case_of_a(&rt, None, bad, "", "bad file: lib/a.u: TooLong\n")?;
    let none = Vec::new(alloc);
    case_of_a(&rt, Some(none), bad, "", "bad file: lib/a.u: Short\n")?;
    let zeros = vec![in alloc; 0; 60]?;
    case_of_a(&rt, Some(zeros), bad, "", "bad file: lib/a.u: Version\n")?;
    let other = linked_of(alloc, &[("src/b/b.go", "package b\n")], "b", "lib/b.u")?;
    case_of_a(&rt, Some(other), bad, "", "bad file: lib/a.u: Element\n")?;
    let eight = linked_of(alloc, &[EIGHT], "a", "lib/a.u")?;
    let answer = "const a.N untyped int = 8\n";
    case_of_a(&rt, Some(eight), Status::Ok, answer, "")?;
    Ok(())
}

#[test]
fn the_file_of_an_import(rt: HostRuntime) -> Result<(), Fail> {
    let alloc = rt.alloc();
    let words = ["build", "b", "decl M"];
    let none = Vec::new(alloc);
    let ended = forge(alloc, &[SEVEN, OVER_A], &words, "lib/a.u", Some(none))?;
    compare(
        &rt,
        &ended,
        Status::BadFile,
        "",
        "bad file: lib/a.u: Short\n",
    );
    let eight = linked_of(alloc, &[EIGHT], "a", "lib/a.u")?;
    let ended = forge(alloc, &[SEVEN, OVER_A], &words, "lib/a.u", Some(eight))?;
    compare(&rt, &ended, Status::Ok, "const b.M untyped int = 9\n", "");
    Ok(())
}

#[test]
fn files_of_two_states(rt: HostRuntime) -> Result<(), Fail> {
    let alloc = rt.alloc();
    let old = linked_of(alloc, &[EIGHT, OVER_A], "b", "lib/b.u")?;
    let files = [SEVEN, OVER_A, OVER_BOTH];
    let ended = forge(alloc, &files, &["build", "c"], "lib/b.u", Some(old))?;
    assert_eq!(rt; ended.status, Status::Stale);
    let line = ended.err.written();
    assert!(rt; line.starts_with(b"stale: a ") && line.len() == 43);
    assert!(rt; ended.out.written().is_empty());
    Ok(())
}
