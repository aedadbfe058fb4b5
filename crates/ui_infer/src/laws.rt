//! Laws, each a function whose contract is the statement.

ghost use Rattle.ui_infer.specs.Laws.{RoundsEnd};

/// The rounds through core types go on until one takes no type parameter: after as many as there
/// are type parameters one more changes nothing.
pub fn rounds_end()
    ensures { RoundsEnd }
{}
