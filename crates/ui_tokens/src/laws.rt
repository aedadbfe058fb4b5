//! Laws, each a function whose contract is the statement.

ghost use Rattle.ui_tokens.specs.Faults.{TellsScanFaults};
ghost use Rattle.ui_tokens.specs.Values.{StringsByItems, RawStringsByBodies, RunesByItems};

/// The value of a string is what its characters and escapes stand for, one after another; that of a
/// raw string is its body without carriage returns; that of a rune is the number of its one
/// character or escape.
pub fn literals_by_items()
    ensures strings { StringsByItems }
    ensures raw_strings { RawStringsByBodies }
    ensures runes { RunesByItems }
{}

/// A file has a fault of scanning, of a kind and at an offset, exactly where its bytes up to some
/// place are white space, comments and tokens, each the longest there, and this fault stands in
/// what follows.
pub fn scan_faults_by_bytes()
    ensures { TellsScanFaults }
{}
