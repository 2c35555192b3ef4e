//! Definitions and laws of goals, expressions, moves and runs, and of the proofs that closed runs have. The
//! crate's functions are its laws.
#![tactic(auto)]

ghost use Rattle.pg_moves.specs.Laws.{TermInstanceLaw, FormulaInstanceLaw, GivenLaw, NestingLaw, UnfoldedLaw};
ghost use Rattle.pg_moves.specs.Laws.{PartsLaw, ActLaw, ClosedRunLaw, StaysClosedLaw};

/// A term is an instance of a pattern exactly where some values for the holes turn the pattern into it, and
/// these values are found.
pub fn term_instance_law()
    ensures { TermInstanceLaw }
{}

/// The same of formulas, up to the names of binders.
pub fn formula_instance_law()
    ensures { FormulaInstanceLaw }
{}

/// What an expression gives fits the goal, and has a proof that the kernel accepts there, by available
/// theorems.
pub fn given_law()
    ensures { GivenLaw }
{}

/// An expression's formula hangs on no bound of how deep expressions are nested in its arguments.
pub fn nesting_law()
    ensures { NestingLaw }
{}

/// An unfolded formula has no predicate at its head.
pub fn unfolded_law()
    ensures { UnfoldedLaw }
{}

/// A move has as many acts as its script counts steps.
pub fn parts_law()
    ensures { PartsLaw }
{}

/// Each act that goes well has frames that turn proofs of the new goals into one of the old goal, whatever
/// goals stand behind. The new goals fit.
pub fn act_law()
    ensures { ActLaw }
{}

/// Where a run is closed, the kernel accepts a proof of the statement's closed formula that names available
/// theorems alone.
pub fn closed_run_law()
    ensures { ClosedRunLaw }
{}

/// A closed run stays closed where more moves and theorems are available.
pub fn stays_closed_law()
    ensures { StaysClosedLaw }
{}
