// What the readers read, told without a reader.
ghost use Rattle.pg_script.specs.Forms.{ExpressionLaw, MoveLaw, HintLaw};

/// An expression is read exactly where the tokens are that expression.
pub fn expression_law()
    ensures { ExpressionLaw }
{}

/// A move is read exactly where its word and the tokens behind it are that move, and where so many
/// steps may stand.
pub fn move_law()
    ensures { MoveLaw }
{}

/// A hint is read exactly where the tokens behind its word are that hint.
pub fn hint_law()
    ensures { HintLaw }
{}
