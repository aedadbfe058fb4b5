//! Laws, each a function whose contract is the statement.

ghost use Rattle.ui_readings.specs.Lengths.{LengthsAreExpressions};
ghost use Rattle.ui_readings.specs.Aliases.{AliasesBehindParams, AliasesExactly};
ghost use Rattle.ui_readings.specs.Tags.{TagsBehindFields, TagsExactly};

/// Behind `type N [`, type parameters up to the bracket are taken for an array's length just where
/// their words spell an expression that a length may be.
pub fn lengths_are_expressions()
    ensures { LengthsAreExpressions }
{}

/// Behind the words `struct {`, some fields with their semicolons, and the names and the type of
/// one field more, a string is a tag. It is one exactly where the bracket that is open last is a
/// struct's brace, and the words behind it, or behind a semicolon in it, are the names and the type
/// of a field.
pub fn tags_stand_behind_fields()
    ensures behind { TagsBehindFields }
    ensures exactly { TagsExactly }
{}

/// Behind `type`, alone or with a parenthesis and whole specifications, a name and type parameters
/// in their brackets, `=` is that of a generic alias. It is one exactly where the words before it
/// end with a name and whole type parameters, behind `type` or behind a semicolon or the parenthesis
/// itself in a parenthesis of `type`.
pub fn aliases_stand_behind_params()
    ensures behind { AliasesBehindParams }
    ensures exactly { AliasesExactly }
{}
