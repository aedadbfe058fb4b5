//! Laws, each a function whose contract is the statement.
ghost use Rattle.ui_satisfy.specs.Laws.{SearchIsRight};

/// Where the search ends with an answer, it says whether the type is in the least set that isn't
/// comparable.
pub fn search_is_right()
    ensures { SearchIsRight }
{}
