// The first instance of a pattern within a formula.
ghost use Rattle.std.specs.Prelude.{◌≡◌, ◌++◌, IfOk, IsTrue, option_map};
ghost use Rattle.pg_logic.specs.Tree.{is_tight};
ghost use Rattle.pg_terms.specs.View.{term, args, formula};
ghost use Rattle.pg_moves.specs.Instances.{term_instance, subterms, subterms_in, subterms_of, first_found};
ghost use Rattle.pg_match.specs.View.{found_values};
ghost use Rattle.pg_match.specs.Answers as answers;
ghost use Rattle.pg_match.specs.Answers.{Finds};

use crate::fault::MatchFault;
use crate::found::Found;
use crate::matching::match_term;
use pg_terms::{Formula, Term};
use std::alloc::{AllocError, Global};

/// The values of the holes for the first instance of a pattern within a formula: of its subterms that are
/// instances, the one of least preorder place. A hole is a loose bound variable of the pattern, of which
/// each is below `holes`.
///
/// A pattern that is a hole alone is `BarePattern`. Else, where no subterm is an instance, it is
/// `NoInstance`. Want of memory is `OutOfMemory`.
pub fn first_instance(
    alloc: Global,
    pattern: &Term,
    holes: u32,
    within: &Formula,
) -> Result<Found, MatchFault>
    requires { IsTrue (is_tight holes (term pattern.now)) }
    ensures { Finds (term pattern.now) holes (formula within.now) result }
{
    if is_bare(pattern) {
        return Err(MatchFault::BarePattern);
    }
    match in_formula(alloc, within, pattern, holes)? {
        Some(found) => Ok(found),
        None => Err(MatchFault::NoInstance),
    }
}

/// Whether a pattern is a hole alone.
fn is_bare(pattern: &Term) -> bool
    ensures { result ≡ answers.is_bare (term pattern.now) }
{
    matches!(pattern, Term::Bound(_))
}

/// The values for the first instance within a formula, if there is one.
#[cycle(formulas)]
fn in_formula(
    alloc: Global,
    a: &Formula,
    pattern: &Term,
    holes: u32,
) -> Result<Option<Found>, AllocError>
    requires { IsTrue (is_tight holes (term pattern.now)) }
    ensures { IfOk result (λ o. option_map found_values o ≡ first_found (term_instance (term pattern.now) holes) (subterms_of (formula a.now))) }
{
    match a {
        Formula::Falsum => Ok(None),
        Formula::Eq(s, t) => in_sides(alloc, s, t, pattern, holes),
        Formula::Pred(_, ts) => in_terms(alloc, ts.as_slice(), pattern, holes),
        Formula::And(a, b) | Formula::Or(a, b) | Formula::Imp(a, b) => {
            in_either(alloc, a.get(), b.get(), pattern, holes)
        }
        Formula::All(_, a) | Formula::Ex(_, a) => in_formula(alloc, a.get(), pattern, holes),
    }
}

/// The same within two formulas, in order.
#[cycle(formulas)]
fn in_either(
    alloc: Global,
    a: &Formula,
    b: &Formula,
    pattern: &Term,
    holes: u32,
) -> Result<Option<Found>, AllocError>
    requires { IsTrue (is_tight holes (term pattern.now)) }
    ensures { IfOk result (λ o. option_map found_values o ≡ first_found (term_instance (term pattern.now) holes) (subterms_of (formula a.now) ++ subterms_of (formula b.now))) }
{
    if let Some(found) = in_formula(alloc, a, pattern, holes)? {
        return Ok(Some(found));
    }
    in_formula(alloc, b, pattern, holes)
}

/// The same within the sides of an equation.
fn in_sides(
    alloc: Global,
    s: &Term,
    t: &Term,
    pattern: &Term,
    holes: u32,
) -> Result<Option<Found>, AllocError>
    requires { IsTrue (is_tight holes (term pattern.now)) }
    ensures { IfOk result (λ o. option_map found_values o ≡ first_found (term_instance (term pattern.now) holes) (subterms (term s.now) ++ subterms (term t.now))) }
{
    if let Some(found) = in_term(alloc, s, pattern, holes)? {
        return Ok(Some(found));
    }
    in_term(alloc, t, pattern, holes)
}

/// The same within a term.
#[cycle(search)]
#[tactic(auto, using(crate::proofs::Firsts::at_once, crate::proofs::Firsts::further))]
fn in_term(alloc: Global, t: &Term, pattern: &Term, holes: u32) -> Result<Option<Found>, AllocError>
    requires { IsTrue (is_tight holes (term pattern.now)) }
    ensures { IfOk result (λ o. option_map found_values o ≡ first_found (term_instance (term pattern.now) holes) (subterms (term t.now))) }
{
    if let Some(found) = match_term(alloc, pattern, holes, t)? {
        return Ok(Some(found));
    }
    match t {
        Term::Succ(t) => in_term(alloc, t.get(), pattern, holes),
        Term::App(_, ts) => in_terms(alloc, ts.as_slice(), pattern, holes),
        _ => Ok(None),
    }
}

/// The same within terms, in order.
#[cycle(search)]
fn in_terms(
    alloc: Global,
    ts: &[Term],
    pattern: &Term,
    holes: u32,
) -> Result<Option<Found>, AllocError>
    requires { IsTrue (is_tight holes (term pattern.now)) }
    ensures { IfOk result (λ o. option_map found_values o ≡ first_found (term_instance (term pattern.now) holes) (subterms_in (args ts.now))) }
{
    for t in ts {
        if let Some(found) = in_term(alloc, t, pattern, holes)? {
            return Ok(Some(found));
        }
    }
    Ok(None)
}
