//! Laws, each a function whose contract is the statement.

ghost use Rattle.ui_pexpr.specs.Laws.{ExprFaultsStay, HasOneExpr, HasOneType, HasOneSig};
ghost use Rattle.ui_pexpr.specs.Laws.{SigFaultsStay, TypeFaultsStay};

/// No words have two expressions as their trees.
pub fn one_expr_tree()
    ensures { HasOneExpr }
{}

/// No words have two types as their trees.
pub fn one_type_tree()
    ensures { HasOneType }
{}

/// No words have two signatures as their trees.
pub fn one_sig_tree()
    ensures { HasOneSig }
{}

/// A fault of expressions that is none of depth stands where it does at each greater limit too.
pub fn expr_faults_stay()
    ensures { ExprFaultsStay }
{}

/// Likewise of types.
pub fn type_faults_stay()
    ensures { TypeFaultsStay }
{}

/// Likewise of signatures.
pub fn sig_faults_stay()
    ensures { SigFaultsStay }
{}
