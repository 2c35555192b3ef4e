// `apply e`, `apply e at h`.
ghost use Rattle.std.specs.Prelude.{◌≡◌, ◌+◌, ◌≤◌, ◌<◌, ◌^◌, ◌∷◌, [], All, List, IfOk, IsTrue, length, option_map};
ghost use Rattle.pg_base.specs.Tokens.{word};
ghost use Rattle.pg_goal.specs.Conditions.{IsCounted, AreTexts};
ghost use Rattle.pg_goal.specs.View.{goal_of, lookup_of};
ghost use Rattle.pg_kernel.specs.View.{proof};
ghost use Rattle.pg_logic.specs.Declarations.{Name};
ghost use Rattle.pg_logic.specs.Kernel as logic;
ghost use Rattle.pg_logic.specs.Tree.{Fm, imp, nodes_of, is_tight_formula};
ghost use Rattle.pg_moves.specs.Acts as act;
ghost use Rattle.pg_moves.specs.Assuming as moves;
ghost use Rattle.pg_moves.specs.Frames as frames;
ghost use Rattle.pg_moves.specs.Frames.{asked};
ghost use Rattle.pg_moves.specs.Instances.{AreTight, filled_formula, first_found};
ghost use Rattle.pg_moves.specs.Measures.{first_over, formula_measures};
ghost use Rattle.pg_moves.specs.Rewriting.{forward};
ghost use Rattle.pg_moves.specs.Stripped.{Antecedent, strippings, unbound};
ghost use Rattle.pg_script.specs.View.{expression};
ghost use Rattle.pg_terms.specs.View.{terms, formula};
ghost use Rattle.pg_reduction.specs.Doing.{IsReady, DoesWithin, Has, Yields};
ghost use Rattle.pg_reduction.specs.Limits.{Tells};
ghost use Rattle.pg_reduction.specs.Named.{found_of};
ghost use Rattle.pg_rewrites.specs.Applying.{Applies, Asks, asking, detached, fit, forward_terms, forwarded, stages};
ghost use Rattle.pg_rewrites.specs.Measuring.{Forms};
ghost use Rattle.pg_rewrites.specs.Searching.{left_side, lent_formula, looks, right_side, short, shortened};
ghost use Rattle.pg_rewrites.specs.View.{claim, fit_of};

use crate::measuring::{Refusal, large_antecedent, large_instance};
use crate::staging::{asking, stages};
use crate::stripping::without_binders;
use crate::taking::taken_at;
use crate::unfixed::fixed;
use pg_base::Token;
use pg_frames::Frame;
use pg_goal::{Given, Goal, Lookup};
use pg_kernel::Proof;
use pg_match::{match_formula, sizes};
use pg_reduction::{
    ActFault, Cause, Found, Reduction, boxed, changed_to, given_there, hypothesis_limit,
    hypothesis_of, one, target_limit,
};
use pg_script::Expr;
use pg_terms::{Formula, Term};
use sqlite_items::{Boxed, Items};
use std::alloc::{AllocError, Global};

/// `apply e`: the fewest leading binders and antecedents of what the expression gives are stripped
/// whose rest has the target as an instance. There is a goal for each antecedent, with the terms of
/// the instance for the binders.
///
/// It stops by the cause of the expression where this gives nothing, then by `NoInstance`, then by
/// `Undetermined` with the name of the first stripped binder that the instance doesn't fix. Where an
/// antecedent would have more than 4,096 nodes or a height over 256, nothing is made: it stops by the
/// first limit that a new goal would pass.
pub fn apply(
    alloc: Global,
    goal: &Goal,
    expr: &Expr<'_>,
    lookup: &Lookup<'_>,
) -> Result<Reduction, ActFault>
    requires ready { IsReady (lookup_of lookup.now) (goal_of goal.now) }
    requires counted { IsCounted (lookup_of lookup.now) (goal_of goal.now) }
    requires texts { AreTexts (expression expr.now).args }
    ensures { DoesWithin (lookup_of lookup.now) (goal_of goal.now) (act.Apply (expression expr.now)) result }
{
    match given_there(alloc, goal, expr, lookup) {
        Ok(given) => match fitting(alloc, given.formula.get(), goal.target.get()) {
            Ok(fit) => applied(alloc, goal, given, &fit),
            Err(fault) => Err(fault),
        },
        Err(fault) => Err(fault),
    }
}

/// What is given, with what fits taken off, where no antecedent passes a limit.
fn applied(alloc: Global, goal: &Goal, given: Given, fit: &Fit) -> Result<Reduction, ActFault>
    requires { Asks (fit_of fit.now) (formula given.formula) }
    ensures { Applies (goal_of goal.now) (fit_of fit.now) (formula given.formula) (proof given.proof) result }
{
    let a = given.formula.get();
    let by = fit.terms.as_slice();
    let counted = sizes(alloc, by)?;
    match large_antecedent(a, counted.as_slice(), 0, fit.steps) {
        Some(limit) => Err(ActFault::Stop(target_limit(alloc, goal, limit)?)),
        None => Ok(taken_off(alloc, goal, given, fit)?),
    }
}

/// What is given, with what fits taken off. The antecedents are known to be small before they are made.
fn taken_off(alloc: Global, goal: &Goal, given: Given, fit: &Fit) -> Result<Reduction, AllocError>
    requires { All (λ a. nodes_of a ≤ 4096) (asked (stages fit.now.steps (terms fit.now.terms) (formula given.formula))) }
    ensures { IfOk result (Has (asking (goal_of goal.now) (stages fit.now.steps (terms fit.now.terms) (formula given.formula))) (frames.applied (stages fit.now.steps (terms fit.now.terms) (formula given.formula)) (proof given.proof) ∷ [])) }
{
    let Given { formula, proof } = given;
    let stages = stages(alloc, formula, fit.terms.as_slice(), fit.steps)?;
    let goals = asking(alloc, goal, stages.as_slice())?;
    let mut frames = Items::new(alloc);
    frames.push(Frame::Applied(stages, proof))?;
    Ok(Reduction { goals, frames })
}

/// Terms for the binders that are stripped, and how many binders and antecedents are.
#[derive(Drop)]
pub struct Fit {
    pub terms: Items<Boxed<Term>>,
    pub steps: u32,
}

/// The fewest binders and antecedents are stripped whose rest has the formula as an instance. It
/// stops by `NoInstance`, then by `Undetermined`.
fn fitting(alloc: Global, a: &Formula, subject: &Formula) -> Result<Fit, ActFault>
    requires few { nodes_of (formula a.now) ≤ 4096 }
    requires holes { IsTrue (is_tight_formula 0 (formula a.now)) }
    ensures { Yields fit_of (fit (formula a.now) (formula subject.now)) result }
{
    match search(alloc, a, 0, 0, subject)? {
        None => Err(ActFault::Stop(Cause::NoInstance)),
        Some(found) => match fixed(alloc, a, &found.values) {
            Ok(terms) => Ok(Fit {
                terms,
                steps: found.steps,
            }),
            Err(fault) => Err(fault),
        },
    }
}

/// The values of an instance, and how many binders and antecedents are stripped.
#[derive(Drop)]
struct Fewest {
    values: pg_match::Found,
    steps: u32,
}

/// The fewest binders and antecedents whose rest has the formula as an instance, where so many
/// binders and so many of both are stripped before.
fn search(
    alloc: Global,
    a: &Formula,
    holes: u32,
    steps: u32,
    subject: &Formula,
) -> Result<Option<Fewest>, AllocError>
    requires few { holes + nodes_of (formula a.now) < 2 ^ 32 }
    requires steps { steps + nodes_of (formula a.now) < 2 ^ 32 }
    requires holes { IsTrue (is_tight_formula holes (formula a.now)) }
    ensures { IfOk result (λ o. (xs : List Name) (hs : List Antecedent) → length xs ≡ holes → length xs + length hs ≡ steps → option_map short o ≡ option_map shortened (first_found (looks (formula subject.now)) (strippings xs hs (formula a.now)))) }
{
    if let Some(values) = match_formula(alloc, a, holes, subject)? {
        return Ok(Some(Fewest { values, steps }));
    }
    match a {
        Formula::All(_, body) => search(alloc, body.get(), holes + 1, steps + 1, subject),
        Formula::Imp(_, b) => search(alloc, b.get(), holes, steps + 1, subject),
        _ => Ok(None),
    }
}

/// `apply e at h`: the expression gives an implication under leading binders, and the hypothesis of
/// this name is an instance of its left side. The hypothesis dies, and a new one of its name is the
/// right side, with the terms of the instance for the binders.
///
/// It stops by `NoSuchName` where there is no such hypothesis, then by the cause of the expression
/// where this gives nothing, then by `WrongShape`, then by `NoInstance`, then by `Undetermined`
/// with the name of the first binder that the instance doesn't fix. Where the right side would have
/// more than 4,096 nodes or a height over 256, it isn't made: it stops by the first limit that the
/// new goal would pass.
pub fn apply_at(
    alloc: Global,
    goal: &Goal,
    expr: &Expr<'_>,
    name: &Token<'_>,
    lookup: &Lookup<'_>,
) -> Result<Reduction, ActFault>
    requires ready { IsReady (lookup_of lookup.now) (goal_of goal.now) }
    requires counted { IsCounted (lookup_of lookup.now) (goal_of goal.now) }
    requires texts { AreTexts (expression expr.now).args }
    ensures { DoesWithin (lookup_of lookup.now) (goal_of goal.now) (act.ApplyAt (expression expr.now) (word name.now)) result }
{
    match hypothesis_of(goal, name.text) {
        Some(f) => match given_there(alloc, goal, expr, lookup) {
            Ok(given) => match forwarded(alloc, &f, given) {
                Ok(next) => Ok(reworded(alloc, goal, &f, next)?),
                Err(Refusal::Large(limit)) => {
                    Err(ActFault::Stop(hypothesis_limit(alloc, goal, &f, limit)?))
                }
                Err(Refusal::Fault(fault)) => Err(fault),
            },
            Err(fault) => Err(fault),
        },
        None => Err(ActFault::Stop(Cause::NoSuchName { at: name.at })),
    }
}

/// What the hypothesis is to say, with its proof, by what is given, where that passes no limit.
fn forwarded(alloc: Global, f: &Found<'_>, given: Given) -> Result<Given, Refusal>
    requires few { nodes_of (formula given.formula) ≤ 4096 }
    requires holes { IsTrue (is_tight_formula 0 (formula given.formula)) }
    ensures { Forms claim (forwarded (found_of f.now) (formula given.formula) (proof given.proof)) (forward (unbound [] (formula given.formula)) (unbound [] (formula given.formula)).rest (formula f.now.hyp.now.formula)) result }
{
    let terms = match forward_terms(alloc, given.formula.get(), f.hyp.formula.get()) {
        Ok(terms) => terms,
        Err(fault) => return Err(Refusal::Fault(fault)),
    };
    if let Some(limit) = large_right(alloc, given.formula.get(), terms.as_slice())? {
        return Err(Refusal::Large(limit));
    }
    let given = taken_at(alloc, given, terms.as_slice())?;
    match detached(alloc, f, given) {
        Ok(next) => Ok(next),
        Err(fault) => Err(Refusal::Fault(fault)),
    }
}

/// The limit that the right side of an implication under leading binders passes, where these terms stand
/// for the binders.
fn large_right(alloc: Global, a: &Formula, by: &[Boxed<Term>]) -> Result<Option<Cause>, AllocError>
    requires few { nodes_of (formula a.now) ≤ 4096 }
    requires tight { AreTight (terms by.now) }
    ensures { IfOk result (λ o. (u v : Fm) → (unbound [] (formula a.now)).rest ≡ imp u v → Tells (first_over (formula_measures (filled_formula (terms by.now) v))) o) }
{
    let Some(right) = right_side(without_binders(a, 0).rest) else {
        return Ok(None);
    };
    let values = sizes(alloc, by)?;
    Ok(large_instance(right, values.as_slice()))
}

/// The right side of an implication.
fn right_side<'a>(a: &'a Formula) -> Option<&'a Formula>
    ensures { option_map lent_formula result ≡ right_side (formula a.now) }
{
    match a {
        Formula::Imp(_, right) => Some(right.get()),
        _ => None,
    }
}

/// The terms by which a formula is the left side of an implication under leading binders.
fn forward_terms(
    alloc: Global,
    a: &Formula,
    subject: &Formula,
) -> Result<Items<Boxed<Term>>, ActFault>
    requires few { nodes_of (formula a.now) ≤ 4096 }
    requires holes { IsTrue (is_tight_formula 0 (formula a.now)) }
    ensures { Yields terms (forward_terms (unbound [] (formula a.now)) (unbound [] (formula a.now)).rest (formula subject.now)) result }
{
    let form = without_binders(a, 0);
    let Some(left) = left_side(form.rest) else {
        return Err(ActFault::Stop(Cause::WrongShape));
    };
    match match_formula(alloc, left, form.count, subject)? {
        None => Err(ActFault::Stop(Cause::NoInstance)),
        Some(found) => fixed(alloc, a, &found),
    }
}

/// The left side of an implication.
fn left_side<'a>(a: &'a Formula) -> Option<&'a Formula>
    ensures { option_map lent_formula result ≡ left_side (formula a.now) }
{
    match a {
        Formula::Imp(left, _) => Some(left.get()),
        _ => None,
    }
}

/// The right side of an implication, by a proof of it and the hypothesis.
fn detached(alloc: Global, f: &Found<'_>, given: Given) -> Result<Given, ActFault>
    ensures { Yields claim (detached (found_of f.now) (formula given.formula) (proof given.proof)) result }
{
    let Given { formula, proof } = given;
    let Formula::Imp(_, right) = formula.into_inner() else {
        return Err(ActFault::Stop(Cause::WrongShape));
    };
    let proof = by_hypothesis(alloc, f, proof)?;
    Ok(Given {
        formula: right,
        proof,
    })
}

/// The proof of the right side of an implication whose left side the hypothesis says.
fn by_hypothesis(alloc: Global, f: &Found<'_>, by: Boxed<Proof>) -> Result<Boxed<Proof>, AllocError>
    ensures { IfOk result (λ p. proof p ≡ logic.impe (formula f.now.hyp.now.formula) (proof by) (logic.hyp f.now.number)) }
{
    let known = Boxed::new(alloc, Proof::Hyp(f.number))?;
    let left = boxed(alloc, f.hyp.formula.get())?;
    Boxed::new(alloc, Proof::Impe(left.into_inner(), by, known))
}

/// The goal in which the hypothesis says what is given.
pub fn reworded(
    alloc: Global,
    goal: &Goal,
    f: &Found<'_>,
    next: Given,
) -> Result<Reduction, AllocError>
    ensures { IfOk result (Has (moves.changed_to (goal_of goal.now) (found_of f.now) (formula next.formula) ∷ []) (frames.cut (formula next.formula) (proof next.proof) ∷ [])) }
{
    let Given { formula, proof } = next;
    let changed = changed_to(alloc, goal, f, boxed(alloc, formula.get())?)?;
    one(
        alloc,
        Items::new(alloc),
        Frame::Cut(formula, proof),
        changed,
    )
}
