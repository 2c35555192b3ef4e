//! Definitions and laws of printing: fresh names, a tree with the names of its binders, and the
//! text of a shape with its tokens. The crate's functions are its laws.
#![tactic(auto)]

ghost use Rattle.pg_spelling.specs.Laws.{FreshLaw};
ghost use Rattle.pg_spelling.specs.Back.{BackLaw, TermBackLaw};
ghost use Rattle.pg_spelling.specs.Placed.{PlaceLaw};
ghost use Rattle.pg_spelling.specs.TextBack.{TokenLaw, FreshNameLaw, TermTextLaw, TextLaw};

/// A fresh name isn't taken; it is the name itself, or its stem with the least number that makes it
/// free (docs/LOGIC.md, "Printing").
pub fn fresh_law()
    ensures { FreshLaw }
{}

/// The shape of a printed term means the term, where the term fits and has live variables only, the
/// live names differ from one another and from the declared names, and each function and constant of
/// the term is named as it may be. Declared names differ, as those of every signature do.
pub fn term_back_law()
    ensures { TermBackLaw }
{}

/// The shape of a printed formula means the same formula, with the names of its binders as printed,
/// where the same holds of the formula, its predicates included, and names and nodes are fewer than
/// 2^64.
pub fn back_law()
    ensures { BackLaw }
{}

/// The text of a name or a number, and a sign of one character, is one token before a blank, a
/// parenthesis, a comma or the end.
pub fn token_law()
    ensures { TokenLaw }
{}

/// The places of a shape's tokens change nothing else: neither what it is and means nor whether it
/// has a fault nor how deep its tokens are nested. The printed shape has no places.
pub fn place_law()
    ensures { PlaceLaw }
{}

/// A name made fresh is the text of a name token that isn't reserved, where the name is the text of
/// a name token and the fresh one has at most 48 bytes.
pub fn fresh_name_law()
    ensures { FreshNameLaw }
{}

/// The text of a printed term has no fault, and its tokens spell the printed shape, each at its
/// byte, where besides the live names and those of its functions and constants are texts of tokens.
pub fn term_text_law()
    ensures { TermTextLaw }
{}

/// The same of a printed formula, its predicates included. A binder's name is the text of a name
/// token, and its printed name has at most 48 bytes.
pub fn text_law()
    ensures { TextLaw }
{}
