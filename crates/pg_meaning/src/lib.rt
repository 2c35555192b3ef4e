//! Definitions and laws of the meaning of shapes: what names, numbers and signs stand for, the term
//! or formula that a shape means, and its first fault. The crate's functions are its laws.
#![tactic(auto)]

ghost use Rattle.pg_meaning.specs.Laws.{TermFitLaw, FormulaFitLaw, TermLiveLaw, FormulaLiveLaw};

/// What a shape without a fault means as a term fits its scope: each function is declared and has its
/// number of arguments, and each variable and binder is one of the scope's.
pub fn term_fit_law()
    ensures { TermFitLaw }
{}

/// The same of a formula.
pub fn formula_fit_law()
    ensures { FormulaFitLaw }
{}

/// The free variables of what a shape means as a term are live.
pub fn term_live_law()
    ensures { TermLiveLaw }
{}

/// The same of a formula.
pub fn formula_live_law()
    ensures { FormulaLiveLaw }
{}
