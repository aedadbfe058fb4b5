// The phase of scanning.
ghost use Rattle.std.specs.Prelude.{◌≡◌, false, map};
ghost use Rattle.ui_sources.specs.Choosing.{AreMeasured, Gives};
ghost use Rattle.ui_sources.specs.Sources as spec;
ghost use Rattle.ui_sources.specs.Sources.{source_of};
ghost use Rattle.ui_base.specs.Steps.{each};

use crate::fault::fault_at;
use crate::source::SourceFile;
use std::alloc::Global;
use ui_base::{CheckFault, FaultKind};
use ui_scan::{ScanKind, Token, TokensFault, tokens};

// The kind of a package's fault that is one of scanning.
fn kind_of(kind: ScanKind) -> FaultKind
    ensures { result ≡ spec.scan_kind kind }
{
    match kind {
        ScanKind::BadUtf8 => FaultKind::BadUtf8,
        ScanKind::BadByte => FaultKind::BadByte,
        ScanKind::OpenComment => FaultKind::OpenComment,
        ScanKind::BadNumber => FaultKind::BadNumber,
        ScanKind::FloatLiteral => FaultKind::FloatLiteral,
        ScanKind::ImaginaryLiteral => FaultKind::ImaginaryLiteral,
        ScanKind::ConstTooBig => FaultKind::ConstTooBig,
        ScanKind::BadEscape => FaultKind::BadEscape,
        ScanKind::BadRune => FaultKind::BadRune,
        ScanKind::NewlineInString => FaultKind::NewlineInString,
        ScanKind::OpenString => FaultKind::OpenString,
    }
}

// The tokens of a source.
fn scan(alloc: Global, source: &SourceFile) -> Result<Vec<Token>, CheckFault>
    requires { spec.is_long (source_of source.now).1 ≡ false }
    ensures { Gives (λ v. v.items) (spec.tokens_in (source_of source.now)) result }
{
    match tokens(alloc, source.bytes()) {
        Ok(tokens) => Ok(tokens),
        Err(TokensFault::Scan(fault)) => {
            Err(fault_at(alloc, kind_of(fault.kind), source, fault.at))
        }
        Err(TokensFault::NoMemory) => Err(CheckFault::NoMemory),
    }
}

/// The tokens of each source.
pub(crate) fn scan_all(alloc: Global, sources: &[SourceFile]) -> Result<Vec<Vec<Token>>, CheckFault>
    requires { AreMeasured (map source_of sources.now) }
    ensures { Gives (λ v. map (λ tokens. tokens.items) v.items)
        (each spec.tokens_in (map source_of sources.now)) result }
{
    let mut scanned = Vec::new(alloc);
    for source in sources {
        let tokens = scan(alloc, source)?;
        let Ok(()) = scanned.push(tokens) else {
            return Err(CheckFault::NoMemory);
        };
    }
    Ok(scanned)
}
