// The first fault of a package, with its place.
ghost use Rattle.std.specs.Prelude.{◌≡◌, ◌+◌, ◌<◌, ◌^◌, false, IfOk, length};
ghost use Rattle.ui_sources.specs.Choosing.{IsFault, spot_past};
ghost use Rattle.ui_sources.specs.Sources as spec;
ghost use Rattle.ui_sources.specs.Sources.{source_of};

use crate::source::SourceFile;
use std::alloc::Global;
use ui_base::{CheckFault, Fault, FaultKind, NoMemory, Pos, Spot, Text};

/// The first place of a source.
pub(crate) const FRONT: Spot = Spot { line: 1, col: 1 };

// A fault at a place in a source.
fn fault_of(alloc: Global, kind: FaultKind, file: &str, spot: Spot) -> Result<Fault, NoMemory>
    ensures { IfOk result (λ f. f ≡ spec.fault_in kind file.now spot) }
{
    let file = Text::from_slice(alloc, file.as_bytes())?;
    Ok(Fault {
        kind,
        pos: Pos {
            file,
            line: spot.line,
            col: spot.col,
        },
        name: Text::new(Vec::new(alloc)),
    })
}

/// The end of a reading with a fault at a place in the source of this name.
pub(crate) fn fault_in(alloc: Global, kind: FaultKind, file: &str, spot: Spot) -> CheckFault
    ensures { IsFault (spec.fault_in kind file.now spot) result }
{
    match fault_of(alloc, kind, file, spot) {
        Ok(fault) => CheckFault::Fault(fault),
        Err(_) => CheckFault::NoMemory,
    }
}

// The line and the column behind one more byte.
fn past(spot: Spot, byte: u8) -> Spot
    requires line { spot.line + 1 < 2 ^ 32 }
    requires col { spot.col + 1 < 2 ^ 32 }
    ensures { result ≡ spot_past spot byte }
{
    if byte == b'\n' {
        Spot {
            line: spot.line + 1,
            col: 1,
        }
    } else {
        Spot {
            line: spot.line,
            col: spot.col + 1,
        }
    }
}

// The line and the column of an offset, or of the end where it lies behind that.
fn spot_at(bytes: &[u8], at: usize) -> Spot
    requires { length bytes.now < 2 ^ 31 }
    ensures { result ≡ spec.spot_at bytes.now at }
{
    let mut spot = FRONT;
    let before = &bytes[..at.min(bytes.len())];
    for byte in before {
        spot = past(spot, *byte);
    }
    spot
}

/// The end of a reading with a fault at an offset of a source.
pub(crate) fn fault_at(alloc: Global, kind: FaultKind, source: &SourceFile, at: usize) -> CheckFault
    requires { spec.is_long (source_of source.now).1 ≡ false }
    ensures { IsFault (spec.fault_at kind (source_of source.now) at) result }
{
    let spot = spot_at(source.bytes(), at);
    fault_in(alloc, kind, source.name.as_str(), spot)
}
