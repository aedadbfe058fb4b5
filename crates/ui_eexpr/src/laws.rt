ghost use Rattle.std.specs.Prelude.{ℕ};
ghost use Rattle.ui_strpos.specs.Format.{Lawful};
ghost use Rattle.ui_eexpr.specs.Exprs.{expression};

/// The fields of an expression are read as the expression that was written, and nothing else is
/// read: the law of its format, for any number of locals and any depth.
pub fn expressions_are_lawful()
    ensures { (locals depth : ℕ) → Lawful (expression locals depth) }
{}
