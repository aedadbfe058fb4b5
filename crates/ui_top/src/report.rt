// What is said on `err`, and the status that goes with it.
ghost use Rattle.std.specs.Prelude.{◌≡◌, ◌++◌, OnOk, OnErr, codes};
ghost use Rattle.hex.specs.Hex.{encode_lower};
ghost use Rattle.ui_store.specs.Causes.{HasCause};
ghost use Rattle.ui_store.specs.Told.{more};
ghost use Rattle.ui_store.specs.Sinks.{Partly};
ghost use Rattle.ui_top.specs.Scene.{Says};
ghost use Rattle.ui_top.specs.Outcome.{refused_as, refusal_line, frame_end, place, name_end};
ghost use Rattle.ui_top.specs.Outcome.{line_at, stale_line};
ghost use Rattle.ui_top.specs.Ends.{stop_line, status_of, answers_line, answers_status};
ghost use Rattle.ui_build.specs.Stops.{refusal_of};

use crate::answers::Unanswered;
use crate::kinds::kind_text;
use crate::status::Status;
use itoa::Buffer;
use ui_base::Pos;
use ui_build::{Refusal, Stop};
use ui_frame::FrameFault;
use ui_store::{IoFault, Sink, put_all};

// Three texts, one after another.
#[tactic(auto, using(std::proofs::lemmas::Grind::common_steps, ui_store::specs::Told::growing, ui_store::specs::Sinks::fronts))]
fn put_three<E: Sink>(err: &mut E, label: &[u8], name: &[u8], end: &[u8]) -> Result<(), IoFault>
    ensures ok { OnOk result
        ((E.told err.new).written ≡ more (E.told err.old).written
        (label.now ++ name.now ++ end.now)) }
    ensures err { OnErr result
        (Partly (E.told err.old).written (E.told err.new).written
        (label.now ++ name.now ++ end.now)) }
    ensures cause { HasCause (E.told err.old).faults (E.told err.new).faults result }
{
    put_all(err, label)?;
    put_all(err, name)?;
    put_all(err, end)?;
    Ok(())
}

/// Says a text; a fault of `err` changes nothing else.
pub fn say<E: Sink>(err: &mut E, label: &[u8], name: &[u8], end: &[u8])
    ensures { Says (label.now ++ name.now ++ end.now) (E.told err.old) (E.told err.new) }
{
    let _ = put_three(err, label, name, end);
}

// The sixteen digits of a fingerprint.
fn hex_of(print: [u8; 8]) -> [u8; 16]
    ensures { result ≡ encode_lower print }
{
    let mut digits = [0; 16];
    let _ = hex::encode_to_slice(print.as_slice(), &mut digits);
    digits
}

// Two fingerprints, as digits.
#[tactic(auto, using(std::proofs::lemmas::Grind::common_steps, ui_store::specs::Told::growing, ui_store::specs::Sinks::fronts))]
fn put_fingerprints<E: Sink>(err: &mut E, kept: &[u8], computed: &[u8]) -> Result<(), IoFault>
    ensures ok { OnOk result
        ((E.told err.new).written ≡ more (E.told err.old).written
        (codes ": Fingerprint kept " ++ kept.now ++ codes " computed " ++ computed.now
        ++ codes "\n")) }
    ensures err { OnErr result
        (Partly (E.told err.old).written (E.told err.new).written
        (codes ": Fingerprint kept " ++ kept.now ++ codes " computed " ++ computed.now
        ++ codes "\n")) }
    ensures cause { HasCause (E.told err.old).faults (E.told err.new).faults result }
{
    put_three(err, b": Fingerprint kept ", kept, b" computed ")?;
    put_all(err, computed)?;
    put_all(err, b"\n")?;
    Ok(())
}

// The name of a file, and two fingerprints behind it.
#[tactic(auto, using(std::proofs::lemmas::Grind::common_steps, ui_store::specs::Told::growing, ui_store::specs::Sinks::fronts))]
fn put_mismatch<E: Sink>(
    err: &mut E,
    name: &[u8],
    kept: [u8; 8],
    computed: [u8; 8],
) -> Result<(), IoFault>
    ensures ok { OnOk result
        ((E.told err.new).written ≡ more (E.told err.old).written
        (codes "bad file: " ++ name.now ++ frame_end (FrameFault.Fingerprint kept computed))) }
    ensures err { OnErr result
        (Partly (E.told err.old).written (E.told err.new).written
        (codes "bad file: " ++ name.now ++ frame_end (FrameFault.Fingerprint kept computed))) }
    ensures cause { HasCause (E.told err.old).faults (E.told err.new).faults result }
{
    let kept = hex_of(kept);
    let computed = hex_of(computed);
    put_all(err, b"bad file: ")?;
    put_all(err, name)?;
    put_fingerprints(err, &kept, &computed)?;
    Ok(())
}

fn say_mismatch<E: Sink>(err: &mut E, name: &[u8], kept: [u8; 8], computed: [u8; 8])
    ensures { Says (codes "bad file: " ++ name.now
        ++ frame_end (FrameFault.Fingerprint kept computed)) (E.told err.old) (E.told err.new) }
{
    let _ = put_mismatch(err, name, kept, computed);
}

// Says which test of a container a file fails.
fn say_frame<E: Sink>(err: &mut E, name: &[u8], fault: FrameFault)
    ensures { Says (codes "bad file: " ++ name.now ++ frame_end fault)
        (E.told err.old) (E.told err.new) }
{
    match fault {
        FrameFault::Short => say(err, b"bad file: ", name, b": Short\n"),
        FrameFault::Version => say(err, b"bad file: ", name, b": Version\n"),
        FrameFault::Flags => say(err, b"bad file: ", name, b": Flags\n"),
        FrameFault::Counts => say(err, b"bad file: ", name, b": Counts\n"),
        FrameFault::Ends => say(err, b"bad file: ", name, b": Ends\n"),
        FrameFault::Length => say(err, b"bad file: ", name, b": Length\n"),
        FrameFault::Fingerprint { kept, computed } => say_mismatch(err, name, kept, computed),
    }
}

// A place.
#[tactic(auto, using(std::proofs::lemmas::Grind::common_steps, ui_store::specs::Told::growing, ui_store::specs::Sinks::fronts))]
fn put_place<E: Sink>(err: &mut E, pos: &Pos) -> Result<(), IoFault>
    ensures ok { OnOk result
        ((E.told err.new).written ≡ more (E.told err.old).written (place pos.now)) }
    ensures err { OnErr result
        (Partly (E.told err.old).written (E.told err.new).written (place pos.now)) }
    ensures cause { HasCause (E.told err.old).faults (E.told err.new).faults result }
{
    let mut line = Buffer::new();
    let mut column = Buffer::new();
    put_three(
        err,
        pos.file.bytes(),
        b":",
        line.format(pos.line).as_bytes(),
    )?;
    put_three(err, b":", column.format(pos.col).as_bytes(), b": ")?;
    Ok(())
}

// The name that a fault speaks of, to the line's end.
fn put_name<E: Sink>(err: &mut E, name: &[u8]) -> Result<(), IoFault>
    ensures ok { OnOk result
        ((E.told err.new).written ≡ more (E.told err.old).written (name_end name.now)) }
    ensures err { OnErr result
        (Partly (E.told err.old).written (E.told err.new).written (name_end name.now)) }
    ensures cause { HasCause (E.told err.old).faults (E.told err.new).faults result }
{
    match name {
        [] => {
            put_all(err, b"\n")?;
            Ok(())
        }
        [_, ..] => {
            put_three(err, b" ", name, b"\n")?;
            Ok(())
        }
    }
}

// A place, a word, and the name that it speaks of.
#[tactic(auto, using(std::proofs::lemmas::Grind::common_steps, ui_store::specs::Told::growing, ui_store::specs::Sinks::fronts))]
fn put_fault<E: Sink>(err: &mut E, pos: &Pos, word: &[u8], name: &[u8]) -> Result<(), IoFault>
    ensures ok { OnOk result
        ((E.told err.new).written ≡ more (E.told err.old).written
        (line_at pos.now word.now name.now)) }
    ensures err { OnErr result
        (Partly (E.told err.old).written (E.told err.new).written
        (line_at pos.now word.now name.now)) }
    ensures cause { HasCause (E.told err.old).faults (E.told err.new).faults result }
{
    put_place(err, pos)?;
    put_all(err, word)?;
    put_name(err, name)?;
    Ok(())
}

// Says the fault of a package.
fn say_fault<E: Sink>(err: &mut E, pos: &Pos, word: &[u8], name: &[u8])
    ensures { Says (line_at pos.now word.now name.now) (E.told err.old) (E.told err.new) }
{
    let _ = put_fault(err, pos, word, name);
}

// A path, and two fingerprints that are named for it.
#[tactic(auto, using(std::proofs::lemmas::Grind::common_steps, ui_store::specs::Told::growing, ui_store::specs::Sinks::fronts))]
fn put_stale<E: Sink>(
    err: &mut E,
    path: &[u8],
    first: [u8; 8],
    second: [u8; 8],
) -> Result<(), IoFault>
    ensures ok { OnOk result
        ((E.told err.new).written ≡ more (E.told err.old).written
        (stale_line path.now first second)) }
    ensures err { OnErr result
        (Partly (E.told err.old).written (E.told err.new).written
        (stale_line path.now first second)) }
    ensures cause { HasCause (E.told err.old).faults (E.told err.new).faults result }
{
    let first = hex_of(first);
    let second = hex_of(second);
    put_three(err, b"stale: ", path, b" ")?;
    put_three(err, &first, b" ", &second)?;
    put_all(err, b"\n")?;
    Ok(())
}

// Says that two fingerprints are named for a path.
fn say_stale<E: Sink>(err: &mut E, path: &[u8], first: [u8; 8], second: [u8; 8])
    ensures { Says (stale_line path.now first second) (E.told err.old) (E.told err.new) }
{
    let _ = put_stale(err, path, first, second);
}

// Says a refusal.
fn report_refusal<E: Sink>(refusal: &Refusal, err: &mut E) -> Status
    ensures status { result ≡ refused_as (refusal_of refusal.now) }
    ensures said { Says (refusal_line (refusal_of refusal.now)) (E.told err.old) (E.told err.new) }
{
    match refusal {
        Refusal::NoFile(name) => {
            say(err, b"no file: ", name.as_bytes(), b"\n");
            Status::NoFile
        }
        Refusal::Faulty(fault) => {
            say_fault(
                err,
                &fault.pos,
                kind_text(fault.kind).as_bytes(),
                fault.name.bytes(),
            );
            Status::Refused
        }
        Refusal::Form(pos) => {
            say_fault(err, pos, b"Form", b"");
            Status::Refused
        }
        Refusal::TooLong(name) => {
            say(err, b"bad file: ", name.as_bytes(), b": TooLong\n");
            Status::BadFile
        }
        Refusal::BadFrame { name, fault } => {
            say_frame(err, name.as_bytes(), *fault);
            Status::BadFile
        }
        Refusal::BadElement(name) => {
            say(err, b"bad file: ", name.as_bytes(), b": Element\n");
            Status::BadFile
        }
        Refusal::TooMany => {
            say(err, b"too many packages", b"", b"\n");
            Status::Refused
        }
        Refusal::Cycle(path) => {
            say(err, b"import cycle: ", path.as_bytes(), b"\n");
            Status::Refused
        }
        Refusal::Stale {
            path,
            first,
            second,
        } => {
            say_stale(err, path.bytes(), *first, *second);
            Status::Stale
        }
    }
}

/// Says why a command was stopped before its answers.
pub fn report<E: Sink>(stop: &Stop, err: &mut E) -> Status
    ensures status { result ≡ status_of stop.now }
    ensures said { Says (stop_line stop.now) (E.told err.old) (E.told err.new) }
{
    match stop {
        Stop::Refused(refusal) => report_refusal(refusal, err),
        Stop::ReadFault(name) => {
            say(err, b"read fault: ", name.as_bytes(), b"\n");
            Status::ReadFault
        }
        Stop::WriteFault(name) => {
            say(err, b"write fault: ", name.as_bytes(), b"\n");
            Status::WriteFault
        }
        Stop::NoMemory => {
            say(err, b"no memory", b"", b"\n");
            Status::NoMemory
        }
    }
}

/// Says why the answers were not written to their end, and how they ended.
pub fn report_answers<E: Sink>(answered: Result<bool, Unanswered>, err: &mut E) -> Status
    ensures status { result ≡ answers_status answered }
    ensures said { Says (answers_line answered) (E.told err.old) (E.told err.new) }
{
    match answered {
        Ok(true) => Status::Ok,
        Ok(false) => Status::QueryRefused,
        Err(Unanswered::OutFault) => {
            say(err, b"output fault", b"", b"\n");
            Status::OutFault
        }
        Err(Unanswered::NoMemory) => {
            say(err, b"no memory", b"", b"\n");
            Status::NoMemory
        }
    }
}
