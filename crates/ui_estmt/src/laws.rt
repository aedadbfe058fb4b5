ghost use Rattle.std.specs.Prelude.{ℕ};
ghost use Rattle.ui_strpos.specs.Format.{Lawful};
ghost use Rattle.ui_estmt.specs.Stmts.{statement};
ghost use Rattle.ui_estmt.specs.Bodies.{body};

/// The fields of a statement are read as the statement that was written, and nothing else is read:
/// the law of its format, for any number of locals and any depth.
pub fn statements_are_lawful()
    ensures { (locals depth : ℕ) → Lawful (statement locals depth) }
{}

/// The fields of a body are read as the body that was written, and nothing else is read: the law of
/// its format.
pub fn bodies_are_lawful()
    ensures { Lawful body }
{}
