//! Laws of truth in the standard model, of every signature.

ghost use Rattle.pg_arith.specs.Laws.{AxiomLaw, ClassicalLaw, LongerLaw, OpeningLaw, SubstitutedLaw};

/// A body opened by a term is true where the body itself is, with the term's value for the loose
/// bound variable that is 0 at its root, whatever the numbers for the others. The term has no loose
/// bound variable; the body fits some number of free and of loose bound ones.
pub fn opening_law()
    ensures { OpeningLaw }
{}

/// What is not false is true.
pub fn classical_law()
    ensures { ClassicalLaw }
{}

/// Each axiom of what is declared is true.
pub fn axiom_law()
    ensures { AxiomLaw }
{}

/// Where a formula fits so many free variables, numbers for further ones change nothing of its
/// truth.
pub fn longer_law()
    ensures { LongerLaw }
{}

/// A formula with terms for its free variables is true where the formula itself is, with the values
/// of these terms for the variables. It fits as many variables as there are terms, and these have
/// no loose bound variable.
pub fn substituted_law()
    ensures { SubstitutedLaw }
{}
