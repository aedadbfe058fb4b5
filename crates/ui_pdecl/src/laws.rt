//! Laws, each a function whose contract is the statement.

ghost use Rattle.ui_pdecl.specs.FileLaws.{DecidesFiles, FileFaultsStay};

/// A file's tokens give a tree exactly where their words are a file of depth 200 at most with good
/// paths: that tree, and there is no other. Else the fault stands at the word behind the longest
/// list of words with which a file begins: it is too deep exactly where a deeper file begins with
/// that word too, else outside exactly where the word begins a form without trees, else unexpected.
/// Or, in a file, it stands at the first path that isn't good. No other fault is told.
pub fn file_result_decides()
    ensures { DecidesFiles }
{}

/// A fault of a file that is none of depth stands where it does at each greater limit too.
pub fn file_faults_stay()
    ensures { FileFaultsStay }
{}
