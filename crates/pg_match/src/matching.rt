// Whether terms and formulas are instances of patterns.
ghost use Rattle.std.specs.Prelude.{◌≡◌, ℕ, true, IfOk, IsTrue, option_map};
ghost use Rattle.pg_logic.specs.Tree.{is_tight, is_tight_formula};
ghost use Rattle.pg_terms.specs.View.{term, formula};
ghost use Rattle.pg_moves.specs.Instances.{term_instance, formula_instance};
ghost use Rattle.pg_match.specs.View.{values, found_values};
ghost use Rattle.pg_match.specs.Walks.{lend, lent, nones};

use crate::found::Found;
use crate::walking::{walk, walk_formula};
use pg_terms::{Formula, Term};
use sqlite_items::{Boxed, Items};
use std::alloc::{AllocError, Global};

/// The values of the holes that make the subject of the pattern, if there are some. A hole is a loose
/// bound variable of the pattern, of which each is below `holes`. No value holds a bound variable, also
/// where the subject does. It fails only for want of memory.
pub fn match_term(
    alloc: Global,
    pattern: &Term,
    holes: u32,
    subject: &Term,
) -> Result<Option<Found>, AllocError>
    requires { IsTrue (is_tight holes (term pattern.now)) }
    ensures { IfOk result (λ o. option_map found_values o ≡ term_instance (term pattern.now) holes (term subject.now)) }
{
    let mut values = no_values(alloc, holes)?;
    found_term(alloc, &mut values, pattern, subject)
}

/// The same of formulas, up to the names of binders.
pub fn match_formula(
    alloc: Global,
    pattern: &Formula,
    holes: u32,
    subject: &Formula,
) -> Result<Option<Found>, AllocError>
    requires { IsTrue (is_tight_formula holes (formula pattern.now)) }
    ensures { IfOk result (λ o. option_map found_values o ≡ formula_instance (formula pattern.now) holes (formula subject.now)) }
{
    let mut values = no_values(alloc, holes)?;
    found_formula(alloc, &mut values, pattern, subject)
}

/// The values of the holes that make a term, if there are some. `values` are none at first.
fn found_term<'a>(
    alloc: Global,
    values: &mut [Option<&'a Term>],
    pattern: &Term,
    subject: &'a Term,
) -> Result<Option<Found>, AllocError>
    ensures { IfOk result (λ o. (n : ℕ) → is_tight n (term pattern.now) ≡ true → lent values.old ≡ nones n → option_map found_values o ≡ term_instance (term pattern.now) n (term subject.now)) }
{
    if !walk(values, 0, pattern, subject) {
        return Ok(None);
    }
    let values = copies(alloc, values)?;
    Ok(Some(Found { values }))
}

/// The same of formulas.
fn found_formula<'a>(
    alloc: Global,
    values: &mut [Option<&'a Term>],
    pattern: &Formula,
    subject: &'a Formula,
) -> Result<Option<Found>, AllocError>
    ensures { IfOk result (λ o. (n : ℕ) → is_tight_formula n (formula pattern.now) ≡ true → lent values.old ≡ nones n → option_map found_values o ≡ formula_instance (formula pattern.now) n (formula subject.now)) }
{
    if !walk_formula(values, 0, pattern, subject) {
        return Ok(None);
    }
    let values = copies(alloc, values)?;
    Ok(Some(Found { values }))
}

/// So many holes without values.
fn no_values<'a>(alloc: Global, holes: u32) -> Result<Vec<Option<&'a Term>>, AllocError>
    ensures { IfOk result (λ vs. lent vs.items ≡ nones holes) }
{
    let mut values = Vec::new(alloc);
    for hole in 0..holes {
        values.push(None)?;
    }
    Ok(values)
}

/// Copies of the values.
fn copies(alloc: Global, stood: &[Option<&Term>]) -> Result<Items<Option<Boxed<Term>>>, AllocError>
    ensures { IfOk result (λ vs. values vs ≡ lent stood.now) }
{
    let mut values = Items::new(alloc);
    for value in stood {
        values.push(copy(alloc, *value)?)?;
    }
    Ok(values)
}

/// A copy of a value, if there is one.
fn copy(alloc: Global, value: Option<&Term>) -> Result<Option<Boxed<Term>>, AllocError>
    ensures { IfOk result (λ v. option_map term v ≡ lend value.entry) }
{
    match value {
        None => Ok(None),
        Some(t) => Ok(Some(Boxed::new(alloc, t.copied(alloc)?)?)),
    }
}
