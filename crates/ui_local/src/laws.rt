//! Laws, each a function whose contract is the statement.

ghost use Rattle.ui_local.specs.Laws.{ExpressionsAgree, ExpressionsStayWithin};

/// Take a set of names that holds what the scope and the expression mention, and what the
/// declarations of its own names mention. Two environments that declare the names of the set alike
/// check the expression alike: to one operand, or with one fault. The operand mentions only names
/// of the set, and it is a package only where the expression is that package's name.
pub fn expressions_are_local()
    ensures same { ExpressionsAgree }
    ensures within { ExpressionsStayWithin }
{}
