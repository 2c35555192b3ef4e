// The equation by which a formula is rewritten.
ghost use Rattle.std.specs.Prelude.{◌≡◌, ◌≤◌, [], IfOk, IsTrue, option_map};
ghost use Rattle.pg_kernel.specs.View.{proof};
ghost use Rattle.pg_logic.specs.Tree.{nodes_of, is_tight_formula};
ghost use Rattle.pg_moves.specs.Instances.{AreTight, filled};
ghost use Rattle.pg_moves.specs.Rewriting.{Sides, sides, rewritten_by};
ghost use Rattle.pg_moves.specs.Stripped.{unbound};
ghost use Rattle.pg_terms.specs.View.{term, terms, formula};
ghost use Rattle.pg_reduction.specs.Doing.{Yields};
ghost use Rattle.pg_reduction.specs.Limits.{Tells, large_nodes};
ghost use Rattle.pg_rewrites.specs.Measuring.{Forms};
ghost use Rattle.pg_rewrites.specs.Rewriting.{equated, equation, exchanged_at, rule_terms};
ghost use Rattle.pg_rewrites.specs.Searching.{lent_term, old_side};
ghost use Rattle.pg_rewrites.specs.View.{equation_of};

use crate::measuring::Refusal;
use crate::stripping::without_binders;
use crate::taking::taken_at;
use crate::unfixed::fixed;
use pg_goal::Given;
use pg_kernel::Proof;
use pg_match::{MatchFault, first_instance, replaced_size, sizes, term_instance_size};
use pg_reduction::{ActFault, Cause, large_nodes};
use pg_terms::{Formula, Term};
use sqlite_items::{Boxed, Items};
use std::alloc::{AllocError, Global};

/// The term that is replaced, the one that stands for it, and a proof of the equation as it was given.
#[derive(Drop)]
pub struct Equation {
    pub old: Boxed<Term>,
    pub new: Boxed<Term>,
    pub proof: Boxed<Proof>,
}

/// The equation by which a formula is rewritten, at the terms of the first instance of its left side,
/// or its right side backwards.
///
/// It stops by `WrongShape` where an equation is not what stands behind the leading binders, then by
/// `BarePattern`, then by `NoInstance`, then by `Undetermined`. Where the formula would have more than
/// 4,096 nodes, the other side isn't made.
pub fn rule_equation(
    alloc: Global,
    back: bool,
    given: Given,
    subject: &Formula,
) -> Result<Equation, Refusal>
    requires few { nodes_of (formula given.formula) ≤ 4096 }
    requires holes { IsTrue (is_tight_formula 0 (formula given.formula)) }
    ensures { Forms equation_of (equation back (formula given.formula) (proof given.proof) (formula subject.now)) (rewritten_by back (unbound [] (formula given.formula)) (formula subject.now)) result }
{
    let terms = match rule_terms(alloc, back, given.formula.get(), subject) {
        Ok(terms) => terms,
        Err(fault) => return Err(Refusal::Fault(fault)),
    };
    let by = terms.as_slice();
    if let Some(limit) = large_rule(alloc, back, given.formula.get(), by, subject)? {
        return Err(Refusal::Large(limit));
    }
    let given = taken_at(alloc, given, terms.as_slice())?;
    match equated(alloc, back, given) {
        Ok(e) => Ok(e),
        Err(fault) => Err(Refusal::Fault(fault)),
    }
}

/// The limit of nodes that a formula passes where an equation under leading binders rewrites it, with
/// these terms for the binders.
fn large_rule(
    alloc: Global,
    back: bool,
    a: &Formula,
    by: &[Boxed<Term>],
    subject: &Formula,
) -> Result<Option<Cause>, AllocError>
    requires few { nodes_of (formula a.now) ≤ 4096 }
    requires tight { AreTight (terms by.now) }
    ensures { IfOk result (λ o. (z : Sides) → sides back (unbound [] (formula a.now)).rest ≡ Ok z → Tells (large_nodes (exchanged_at (terms by.now) (formula subject.now) z)) o) }
{
    match without_binders(a, 0).rest {
        Formula::Eq(s, t) => {
            if back {
                large_exchange(alloc, t, s, by, subject)
            } else {
                large_exchange(alloc, s, t, by, subject)
            }
        }
        _ => Ok(None),
    }
}

/// The limit of nodes that a formula passes where one side of an equation is exchanged for the other.
/// The side that is replaced is as large as what it replaces; the other one is counted alone.
fn large_exchange(
    alloc: Global,
    old: &Term,
    new: &Term,
    by: &[Boxed<Term>],
    subject: &Formula,
) -> Result<Option<Cause>, AllocError>
    requires { AreTight (terms by.now) }
    ensures { IfOk result (Tells (large_nodes (exchanged_at (terms by.now) (formula subject.now) (record { old = term old.now; new = term new.now })))) }
{
    let values = sizes(alloc, by)?;
    let size = term_instance_size(new, values.as_slice());
    let old = filled(alloc, old, by)?;
    Ok(large_nodes(replaced_size(subject, old.get(), size.nodes)))
}

/// A pattern with these terms in its holes, the outermost binder's first.
fn filled(alloc: Global, pattern: &Term, by: &[Boxed<Term>]) -> Result<Boxed<Term>, AllocError>
    ensures { IfOk result (λ t. term t ≡ filled (terms by.now) (term pattern.now)) }
{
    match by {
        [] => Boxed::new(alloc, pattern.copied(alloc)?),
        [t, rest @ ..] => {
            let inner = filled(alloc, pattern, rest)?;
            Boxed::new(alloc, inner.get().opened(alloc, t.get())?)
        }
    }
}

/// The sides of what is given, an equation. Else it stops by `WrongShape`.
fn equated(alloc: Global, back: bool, given: Given) -> Result<Equation, ActFault>
    ensures { Yields equation_of (equated back (formula given.formula) (proof given.proof)) result }
{
    let Given { formula, proof } = given;
    let Formula::Eq(s, t) = formula.into_inner() else {
        return Err(ActFault::Stop(Cause::WrongShape));
    };
    let s = Boxed::new(alloc, s)?;
    let t = Boxed::new(alloc, t)?;
    if back {
        return Ok(Equation {
            old: t,
            new: s,
            proof,
        });
    }
    Ok(Equation {
        old: s,
        new: t,
        proof,
    })
}

/// The terms by which an equation under leading binders rewrites a formula.
fn rule_terms(
    alloc: Global,
    back: bool,
    a: &Formula,
    subject: &Formula,
) -> Result<Items<Boxed<Term>>, ActFault>
    requires few { nodes_of (formula a.now) ≤ 4096 }
    requires holes { IsTrue (is_tight_formula 0 (formula a.now)) }
    ensures { Yields terms (rule_terms back (unbound [] (formula a.now)) (formula subject.now)) result }
{
    let form = without_binders(a, 0);
    let Some(old) = old_side(back, form.rest) else {
        return Err(ActFault::Stop(Cause::WrongShape));
    };
    match first_instance(alloc, old, form.count, subject) {
        Ok(found) => fixed(alloc, a, &found),
        Err(MatchFault::BarePattern) => Err(ActFault::Stop(Cause::BarePattern)),
        Err(MatchFault::NoInstance) => Err(ActFault::Stop(Cause::NoInstance)),
        Err(_) => Err(ActFault::OutOfMemory),
    }
}

/// The side of an equation that is replaced.
fn old_side<'a>(back: bool, a: &'a Formula) -> Option<&'a Term>
    ensures { option_map lent_term result ≡ old_side back (formula a.now) }
{
    match a {
        Formula::Eq(s, t) => Some(if back { t } else { s }),
        _ => None,
    }
}
