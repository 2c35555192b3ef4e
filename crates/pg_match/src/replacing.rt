// Every occurrence of a term exchanged for another.
ghost use Rattle.std.specs.Prelude.{◌≡◌, ◌<◌, ◌-◌, ◌^◌, min, IfOk};
ghost use Rattle.pg_logic.specs.Tree.{Tm, eq, nodes, nodes_all, nodes_of};
ghost use Rattle.pg_terms.specs.View.{term, args, formula};
ghost use Rattle.pg_moves.specs.Replaced.{replaced as new_term, replaced_all, replaced_formula};
ghost use Rattle.pg_match.specs.Answers.{Replaces};

use crate::fault::MatchFault;
use pg_terms::{Formula, Term};
use sqlite_items::{Boxed, Items};
use std::alloc::{AllocError, Global};

/// The formula with every occurrence of the old term exchanged for the new one, under binders too. The
/// terms are compared and put as they are; one that has no bound variable means the same at each place.
///
/// A result of more than `limit` nodes is `TooLarge`; its nodes are counted before anything is built.
/// Counts end at 2^64 - 1, so the limit is less. Want of memory is `OutOfMemory`.
pub fn replaced(
    alloc: Global,
    within: &Formula,
    old: &Term,
    new: &Term,
    limit: u64,
) -> Result<Boxed<Formula>, MatchFault>
    requires { limit < 2 ^ 64 - 1 }
    ensures { Replaces (formula within.now) (term old.now) (term new.now) limit result }
{
    let size = replaced_size(within, old, new.size());
    if size > limit {
        return Err(MatchFault::TooLarge { size });
    }
    Ok(changed(alloc, within, old, new)?)
}

/// The nodes of the formula that `replaced` makes with a new term of so many nodes. A number past the
/// type's end is given as that end, here and below. Takes no memory.
pub fn replaced_size(a: &Formula, old: &Term, by: u64) -> u64
    ensures { (n : Tm) → by ≡ min (nodes n) (2 ^ 64 - 1) → result ≡ min (nodes_of (replaced_formula (term old.now) n (formula a.now))) (2 ^ 64 - 1) }
{
    match a {
        Formula::Falsum => 1,
        Formula::Eq(s, t) => equation_size(s, t, old, by),
        Formula::Pred(_, ts) => all_size(ts.as_slice(), old, by).saturating_add(1),
        Formula::And(a, b) | Formula::Or(a, b) | Formula::Imp(a, b) => {
            replaced_size(a.get(), old, by)
                .saturating_add(replaced_size(b.get(), old, by))
                .saturating_add(1)
        }
        Formula::All(_, a) | Formula::Ex(_, a) => {
            replaced_size(a.get(), old, by).saturating_add(1)
        }
    }
}

/// The size of an equation so changed.
fn equation_size(s: &Term, t: &Term, old: &Term, by: u64) -> u64
    ensures { (n : Tm) → by ≡ min (nodes n) (2 ^ 64 - 1) → result ≡ min (nodes_of (replaced_formula (term old.now) n (eq (term s.now) (term t.now)))) (2 ^ 64 - 1) }
{
    term_size(s, old, by)
        .saturating_add(term_size(t, old, by))
        .saturating_add(1)
}

/// The size of a term so changed.
#[cycle(sizes)]
fn term_size(t: &Term, old: &Term, by: u64) -> u64
    ensures { (n : Tm) → by ≡ min (nodes n) (2 ^ 64 - 1) → result ≡ min (nodes (new_term (term old.now) n (term t.now))) (2 ^ 64 - 1) }
{
    if t.same(old) {
        return by;
    }
    match t {
        Term::Free(_) | Term::Bound(_) | Term::Zero => 1,
        Term::Succ(t) => term_size(t.get(), old, by).saturating_add(1),
        Term::App(_, ts) => all_size(ts.as_slice(), old, by).saturating_add(1),
    }
}

/// The sum of the sizes of terms so changed.
#[cycle(sizes)]
fn all_size(ts: &[Term], old: &Term, by: u64) -> u64
    ensures { (n : Tm) → by ≡ min (nodes n) (2 ^ 64 - 1) → result ≡ min (nodes_all (replaced_all (term old.now) n (args ts.now))) (2 ^ 64 - 1) }
{
    let mut sum: u64 = 0;
    for t in ts {
        sum = sum.saturating_add(term_size(t, old, by));
    }
    sum
}

/// The formula so changed, however large it is: `replaced_size` counts it before. It fails only for want of memory.
pub fn changed(
    alloc: Global,
    a: &Formula,
    old: &Term,
    new: &Term,
) -> Result<Boxed<Formula>, AllocError>
    ensures { IfOk result (λ r. formula r ≡ replaced_formula (term old.now) (term new.now) (formula a.now)) }
{
    match a {
        Formula::Falsum => Boxed::new(alloc, Formula::Falsum),
        Formula::Eq(s, t) => changed_equation(alloc, s, t, old, new),
        Formula::Pred(p, ts) => {
            let ts = changed_all(alloc, ts.as_slice(), old, new)?;
            Boxed::new(alloc, Formula::Pred(*p, ts))
        }
        Formula::And(a, b) => {
            let a = changed(alloc, a.get(), old, new)?;
            let b = changed(alloc, b.get(), old, new)?;
            Boxed::new(alloc, Formula::And(a, b))
        }
        Formula::Or(a, b) => {
            let a = changed(alloc, a.get(), old, new)?;
            let b = changed(alloc, b.get(), old, new)?;
            Boxed::new(alloc, Formula::Or(a, b))
        }
        Formula::Imp(a, b) => {
            let a = changed(alloc, a.get(), old, new)?;
            let b = changed(alloc, b.get(), old, new)?;
            Boxed::new(alloc, Formula::Imp(a, b))
        }
        Formula::All(x, a) => {
            let a = changed(alloc, a.get(), old, new)?;
            Boxed::new(alloc, Formula::All(x.copied(alloc)?, a))
        }
        Formula::Ex(x, a) => {
            let a = changed(alloc, a.get(), old, new)?;
            Boxed::new(alloc, Formula::Ex(x.copied(alloc)?, a))
        }
    }
}

/// An equation so changed.
fn changed_equation(
    alloc: Global,
    s: &Term,
    t: &Term,
    old: &Term,
    new: &Term,
) -> Result<Boxed<Formula>, AllocError>
    ensures { IfOk result (λ r. formula r ≡ replaced_formula (term old.now) (term new.now) (eq (term s.now) (term t.now))) }
{
    let s = Boxed::new(alloc, changed_term(alloc, s, old, new)?)?;
    let t = changed_term(alloc, t, old, new)?;
    Boxed::new(alloc, Formula::Eq(s.into_inner(), t))
}

/// A term so changed.
#[cycle(terms)]
fn changed_term(alloc: Global, t: &Term, old: &Term, new: &Term) -> Result<Term, AllocError>
    ensures { IfOk result (λ r. term r ≡ new_term (term old.now) (term new.now) (term t.now)) }
{
    if t.same(old) {
        return new.copied(alloc);
    }
    match t {
        Term::Free(i) => Ok(Term::Free(*i)),
        Term::Bound(i) => Ok(Term::Bound(*i)),
        Term::Zero => Ok(Term::Zero),
        Term::Succ(t) => Ok(Term::Succ(Boxed::new(
            alloc,
            changed_term(alloc, t.get(), old, new)?,
        )?)),
        Term::App(f, ts) => Ok(Term::App(*f, changed_all(alloc, ts.as_slice(), old, new)?)),
    }
}

/// Each term of a list so changed, in order.
#[cycle(terms)]
fn changed_all(
    alloc: Global,
    ts: &[Term],
    old: &Term,
    new: &Term,
) -> Result<Items<Term>, AllocError>
    ensures { IfOk result (λ rs. args rs ≡ replaced_all (term old.now) (term new.now) (args ts.now)) }
{
    let mut changes = Items::new(alloc);
    for t in ts {
        changes.push(changed_term(alloc, t, old, new)?)?;
    }
    Ok(changes)
}
