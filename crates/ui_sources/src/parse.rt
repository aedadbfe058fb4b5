// The phase of parsing.
ghost use Rattle.std.specs.Prelude.{◌≡◌, false, Ok, map};
ghost use Rattle.ui_scan.specs.Scan.{tokens_of};
ghost use Rattle.ui_sources.specs.Choosing.{AreMeasured, Gives, IsParseFault};
ghost use Rattle.ui_sources.specs.Sources as spec;
ghost use Rattle.ui_sources.specs.Sources.{bytes_of, source_of, source_tree};
ghost use Rattle.ui_base.specs.Steps.{each};

use crate::fault::fault_at;
use crate::source::SourceFile;
use std::alloc::Global;
use ui_base::{CheckFault, FaultKind, Text};
use ui_pdecl::parse_file;
use ui_pexpr::ParseFault;
use ui_scan::{Token, scan_of_a_file};
use ui_tree::FileTree;

// The end of a reading with a fault of parsing in a source.
fn parse_fault(alloc: Global, source: &SourceFile, fault: ParseFault) -> CheckFault
    requires { spec.is_long (source_of source.now).1 ≡ false }
    ensures { IsParseFault (source_of source.now) fault result }
{
    let (kind, at) = match fault {
        ParseFault::Unexpected { at } => (FaultKind::Unexpected, at),
        ParseFault::TooDeep { at } => (FaultKind::TooDeep, at),
        ParseFault::Outside { at, .. } => (FaultKind::Outside, at),
        ParseFault::BadImportPath { at } => (FaultKind::BadImportPath, at),
        ParseFault::NoMemory => return CheckFault::NoMemory,
    };
    fault_at(alloc, kind, source, at)
}

// The tree of a source with these tokens.
fn parse(
    alloc: Global,
    own: &Text,
    source: &SourceFile,
    tokens: &[Token],
) -> Result<FileTree, CheckFault>
    requires measured { spec.is_long (source_of source.now).1 ≡ false }
    requires scanned { tokens_of (bytes_of (source_of source.now)) ≡ Ok tokens.now }
    ensures { Gives source_tree (spec.tree_in own.now (source_of source.now)) result }
{
    scan_of_a_file();
    let name = Text::from_slice(alloc, source.name.as_bytes())?;
    match parse_file(alloc, source.bytes(), tokens, &name, own) {
        Ok(file) => Ok(file),
        Err(fault) => Err(parse_fault(alloc, source, fault)),
    }
}

/// The trees of sources, each with its tokens, in the package of this path.
pub(crate) fn parse_all(
    alloc: Global,
    own: &Text,
    sources: &[SourceFile],
    tokens: &[Vec<Token>],
) -> Result<Vec<FileTree>, CheckFault>
    requires measured { AreMeasured (map source_of sources.now) }
    requires scanned { each spec.tokens_in (map source_of sources.now)
        ≡ Ok (map (λ v. v.items) tokens.now) }
    ensures { Gives (λ v. map source_tree v.items)
        (each (spec.tree_in own.now) (map source_of sources.now)) result }
{
    let mut files = Vec::new(alloc);
    for (i, source) in sources.iter().enumerate() {
        let file = parse(alloc, own, source, tokens[i].as_slice())?;
        let Ok(()) = files.push(file) else {
            return Err(CheckFault::NoMemory);
        };
    }
    Ok(files)
}
