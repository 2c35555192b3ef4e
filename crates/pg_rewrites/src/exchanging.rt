// `rw [r]`, `rw [r] at h`.
ghost use Rattle.std.specs.Prelude.{◌≡◌, ◌≤◌, ◌<◌, ◌^◌, ◌∷◌, [], IfOk};
ghost use Rattle.pg_base.specs.Tokens.{word};
ghost use Rattle.pg_goal.specs.Conditions.{IsCounted, AreTexts};
ghost use Rattle.pg_goal.specs.View.{goal_of, lookup_of};
ghost use Rattle.pg_logic.specs.Tree.{nodes_of};
ghost use Rattle.pg_moves.specs.Acts as act;
ghost use Rattle.pg_moves.specs.Assuming as moves;
ghost use Rattle.pg_moves.specs.Goals.{aimed};
ghost use Rattle.pg_script.specs.View as script;
ghost use Rattle.pg_terms.specs.View.{formula};
ghost use Rattle.pg_reduction.specs.Doing.{IsReady, DoesWithin, Has};
ghost use Rattle.pg_reduction.specs.Named.{found_of};
ghost use Rattle.pg_rewrites.specs.Depth.{binder_depth};
ghost use Rattle.pg_rewrites.specs.Rewriting.{cutting, rewriting, reworded, rewritten_in};
ghost use Rattle.pg_rewrites.specs.View.{claim, equation_of};

use crate::abstracting::abstracted_formula;
use crate::applying::reworded;
use crate::flipping::flipped;
use crate::measuring::Refusal;
use crate::rewriting::{Equation, rule_equation};
use pg_base::Token;
use pg_frames::Frame;
use pg_goal::{Given, Goal, Lookup};
use pg_kernel::Proof;
use pg_match::changed;
use pg_reduction::{
    ActFault, Cause, Found, Reduction, given_there, hypothesis_limit, hypothesis_of, one,
    target_limit,
};
use pg_script::RwRule;
use pg_terms::Formula;
use sqlite_items::{Boxed, Items};
use std::alloc::{AllocError, Global};

/// `rw [r]`: the expression gives an equation under leading binders. In the target, every occurrence of
/// the first instance of its left side becomes the right side; backwards the sides change places.
///
/// It stops by the cause of the expression where this gives nothing, then by `WrongShape`, then by
/// `BarePattern` where the side to be replaced is a binder alone, then by `NoInstance`, then by
/// `Undetermined` with the name of the first binder that the instance doesn't fix. A formula of more
/// than 4,096 nodes isn't made: it stops by the first limit that the new goal would pass.
pub fn rewrite(
    alloc: Global,
    goal: &Goal,
    rule: &RwRule<'_>,
    lookup: &Lookup<'_>,
) -> Result<Reduction, ActFault>
    requires ready { IsReady (lookup_of lookup.now) (goal_of goal.now) }
    requires counted { IsCounted (lookup_of lookup.now) (goal_of goal.now) }
    requires texts { AreTexts (script.expression rule.now.expr).args }
    ensures { DoesWithin (lookup_of lookup.now) (goal_of goal.now) (act.Rewrite (script.rule rule.now)) result }
{
    match given_there(alloc, goal, &rule.expr, lookup) {
        Ok(given) => match rule_equation(alloc, rule.back, given, goal.target.get()) {
            Ok(e) => Ok(exchanged(alloc, goal, rule.back, e)?),
            Err(Refusal::Large(limit)) => { Err(ActFault::Stop(target_limit(alloc, goal, limit)?)) }
            Err(Refusal::Fault(fault)) => Err(fault),
        },
        Err(fault) => Err(fault),
    }
}

/// The target rewritten by an equation. It is known to be small before it is made.
fn exchanged(alloc: Global, goal: &Goal, back: bool, e: Equation) -> Result<Reduction, AllocError>
    requires { nodes_of (rewritten_in (formula goal.now.target) (equation_of e)) ≤ 4096 }
    ensures { IfOk result (Has (aimed (rewritten_in (formula goal.now.target) (equation_of e)) (goal_of goal.now) ∷ []) (rewriting back (formula goal.now.target) (equation_of e))) }
{
    let a = changed(alloc, goal.target.get(), e.old.get(), e.new.get())?;
    aimed(alloc, goal, back, e, a)
}

/// The goal with the rewritten target.
fn aimed(
    alloc: Global,
    goal: &Goal,
    back: bool,
    e: Equation,
    a: Boxed<Formula>,
) -> Result<Reduction, AllocError>
    requires { binder_depth (formula goal.now.target) < 2 ^ 32 }
    ensures { IfOk result (Has (aimed (formula a) (goal_of goal.now) ∷ []) (rewriting back (formula goal.now.target) (equation_of e))) }
{
    let body = abstracted_formula(alloc, e.old.get(), goal.target.get())?;
    let Equation { old, new, proof } = e;
    let by = if back {
        proof
    } else {
        flipped(alloc, old.get(), new.get(), proof)?
    };
    let next = goal.aimed(alloc, a)?;
    one(
        alloc,
        Items::new(alloc),
        Frame::Rewrite(body, new, old, by),
        next,
    )
}

/// `rw [r] at h`: as `rw [r]`, in the hypothesis of this name. It dies, and a new one of its name is the
/// rewritten formula.
///
/// It stops by `NoSuchName` where there is no such hypothesis, and then as `rw [r]` does.
pub fn rewrite_at(
    alloc: Global,
    goal: &Goal,
    rule: &RwRule<'_>,
    name: &Token<'_>,
    lookup: &Lookup<'_>,
) -> Result<Reduction, ActFault>
    requires ready { IsReady (lookup_of lookup.now) (goal_of goal.now) }
    requires counted { IsCounted (lookup_of lookup.now) (goal_of goal.now) }
    requires texts { AreTexts (script.expression rule.now.expr).args }
    ensures { DoesWithin (lookup_of lookup.now) (goal_of goal.now) (act.RewriteAt (script.rule rule.now) (word name.now)) result }
{
    match hypothesis_of(goal, name.text) {
        Some(f) => match given_there(alloc, goal, &rule.expr, lookup) {
            Ok(given) => match rule_equation(alloc, rule.back, given, f.hyp.formula.get()) {
                Ok(e) => Ok(exchanged_at(alloc, goal, &f, rule.back, e)?),
                Err(Refusal::Large(limit)) => {
                    Err(ActFault::Stop(hypothesis_limit(alloc, goal, &f, limit)?))
                }
                Err(Refusal::Fault(fault)) => Err(fault),
            },
            Err(fault) => Err(fault),
        },
        None => Err(ActFault::Stop(Cause::NoSuchName { at: name.at })),
    }
}

/// The hypothesis rewritten by an equation. It is known to be small before it is made.
fn exchanged_at(
    alloc: Global,
    goal: &Goal,
    f: &Found<'_>,
    back: bool,
    e: Equation,
) -> Result<Reduction, AllocError>
    requires { nodes_of (rewritten_in (formula f.now.hyp.now.formula) (equation_of e)) ≤ 4096 }
    ensures { IfOk result (Has (moves.changed_to (goal_of goal.now) (found_of f.now) (rewritten_in (formula f.now.hyp.now.formula) (equation_of e)) ∷ []) (cutting (reworded back (found_of f.now) (equation_of e)))) }
{
    let a = changed(alloc, f.hyp.formula.get(), e.old.get(), e.new.get())?;
    let next = said(alloc, f, back, e, a)?;
    reworded(alloc, goal, f, next)
}

/// The rewritten hypothesis, with its proof.
fn said(
    alloc: Global,
    f: &Found<'_>,
    back: bool,
    e: Equation,
    a: Boxed<Formula>,
) -> Result<Given, AllocError>
    requires depth { binder_depth (formula f.now.hyp.now.formula) < 2 ^ 32 }
    requires is { formula a ≡ rewritten_in (formula f.now.hyp.now.formula) (equation_of e) }
    ensures { IfOk result (λ x. claim x ≡ reworded back (found_of f.now) (equation_of e)) }
{
    let body = abstracted_formula(alloc, e.old.get(), f.hyp.formula.get())?;
    let known = Boxed::new(alloc, Proof::Hyp(f.number))?;
    let Equation { old, new, proof } = e;
    let by = if back {
        flipped(alloc, new.get(), old.get(), proof)?
    } else {
        proof
    };
    let proof = Boxed::new(
        alloc,
        Proof::Repl(
            body.into_inner(),
            old.into_inner(),
            new.into_inner(),
            by,
            known,
        ),
    )?;
    Ok(Given { formula: a, proof })
}
