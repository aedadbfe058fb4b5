//! Laws, each a function whose contract is the statement.

ghost use Rattle.ui_stmts.specs.Laws.{NoBoth, ReadsFiles, ReadsStmts};

/// The reader of a file of each budget of depth, and of the end of the text behind it, reads
/// exactly the files of that depth: what is read is the longest list of words with which a file
/// begins, and a fault stands behind it where it is none itself. Each file is read, and no words
/// have two trees.
pub fn reads_files_exactly()
    ensures { ReadsFiles }
{}

/// What is read as a statement is one, within the budget; a fault stands where nothing was taken,
/// or behind words with which a statement begins. Each statement is read where a semicolon or a
/// closing brace follows.
pub fn reads_statements()
    ensures { ReadsStmts }
{}

/// No text up to a closing bracket is both an expression and type parameters, but for parameters
/// that have a comma behind them.
pub fn no_length_and_parameters()
    ensures { NoBoth }
{}
