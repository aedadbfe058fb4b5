//! Laws, each a function whose contract is the statement.

ghost use Rattle.ui_syntax.specs.Laws.{ReadsExprs, ReadsTypes, ReadsSigs};

/// The readers of each budget of depth from 1 on read exactly the forms of the grammar of that
/// depth: what is read is the longest list of words with which a form begins, and a fault stands
/// behind it where it is none itself. Each form is read, and no words have two trees.
pub fn reads_exactly()
    ensures expressions { ReadsExprs }
    ensures types { ReadsTypes }
    ensures signatures { ReadsSigs }
{}
