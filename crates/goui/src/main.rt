//! goui, a front end for Go: the command line over the current folder and the standard streams.
#![tactic(auto)]

ghost use Rattle.std.specs.Prelude.{◌≡◌, ◌<◌};

use std::alloc::AllocError;
use std::env;
use std::io::ErrorKind;
use std::marker::Brand;
use std::process::ExitCode;
use std::sync::ledger::{Blank, Ledger};
use ui_steps::Steps;
use ui_store::{DirStore, InSource, OutSink, put_all};
use ui_top::{Status, run};

// The words behind the program's own name; none where they are no text.
fn words(rt: &HostRuntime) -> Result<Vec<String>, AllocError> {
    let mut words = Vec::new(rt.alloc());
    match env::args(rt) {
        Ok(args) => {
            for word in args.skip(1) {
                words.push(word)?;
            }
        }
        Err(error) if error.kind() == ErrorKind::OutOfMemory => return Err(AllocError),
        Err(_) => {}
    }
    Ok(words)
}

// Does what the words say.
fn run_words<L: Ledger>(rt: HostRuntime, blank: Blank) -> Status
    requires name { blank.name ≡ L.name }
    requires parts { (blank.parts ≡ L.parts) × (0 < L.parts) }
{
    let mut steps = Steps::<L>::new(blank);
    let mut err = OutSink::new(rt.stderr());
    let Ok(words) = words(&rt) else {
        let _ = put_all(&mut err, b"no memory\n");
        return Status::NoMemory;
    };
    let alloc = rt.alloc();
    let mut input = InSource::new(rt.stdin());
    let mut out = OutSink::new(rt.stdout());
    let mut store = DirStore::new(rt);
    run(
        alloc, &words, &mut store, &mut input, &mut out, &mut err, &mut steps,
    )
}

fn main(rt: HostRuntime) -> ExitCode {
    let status = run_words::<Brand>(rt, Blank::new(1));
    ExitCode::from(status as u8)
}
