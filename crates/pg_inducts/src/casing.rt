// `cases`.
ghost use Rattle.std.specs.Prelude.{◌≡◌, ◌≢◌, ◌<◌, ◌+◌, ◌^◌, ◌∷◌, [], All, IfOk, length, map};
ghost use Rattle.pg_base.specs.Tokens.{word};
ghost use Rattle.pg_base.specs.declared.token.Token.{Token as Lexeme};
ghost use Rattle.pg_script.specs.View.{words};
ghost use Rattle.pg_logic.specs.Kernel as logic;
ghost use Rattle.pg_logic.specs.Tree as tree;
ghost use Rattle.pg_terms.specs.View.{formula};
ghost use Rattle.pg_kernel.specs.View.{proof};
ghost use Rattle.pg_moves.specs.Acts as act;
ghost use Rattle.pg_moves.specs.Frames as frames;
ghost use Rattle.pg_moves.specs.Holding.{before, carried, put_for};
ghost use Rattle.pg_moves.specs.Inducting as moves;
ghost use Rattle.pg_goal.specs.View.{goal_of, lookup_of};
ghost use Rattle.pg_frames.specs.View.{frame_of};
ghost use Rattle.pg_reduction.specs.Doing.{IsReady, Does, Makes, Has};
ghost use Rattle.pg_reduction.specs.Limits.{hyp_formula};
ghost use Rattle.pg_inducts.specs.Carrying.{IsClosable, MayDouble, CanStep};
ghost use Rattle.pg_inducts.specs.Framed.{parting};
ghost use Rattle.pg_inducts.specs.Steps.{case_named};

use crate::carrying::{Taken, closed, implication, opened, put_for, take_along, without_held};
use crate::holding::holds_var;
use crate::inducting::{base_goal, step_goal, successor};
use crate::naming::{at_most, step_name};
use crate::reverting::{instance, universal};
use pg_acts::cases_hypothesis;
use pg_base::Token;
use pg_frames::Frame;
use pg_goal::{Goal, Lookup};
use pg_kernel::Proof;
use pg_reduction::{ActFault, Reduction, hyp_count, two, var_count};
use pg_terms::{Formula, Name, Term};
use sqlite_items::Boxed;
use std::alloc::{AllocError, Global};

/// `cases n with ..`. A variable of this name dies, and the live hypotheses that hold it do. The
/// first new goal is the target at 0, with copies of these hypotheses at 0. The second one has a new
/// variable, and copies and target at its successor. The variable is called by the first name, else
/// `d` made fresh. Where no variable has the name `n`, the hypothesis of this name is taken apart, as
/// `cases_hypothesis` says. Twice the nodes of each formula are fewer than 2^32.
///
/// It stops by `NoSuchName` where neither is there, then, of a variable, by `WrongArgument` at the
/// first name too many, then by `NameTaken`.
pub fn cases(
    alloc: Global,
    goal: &Goal,
    name: &Token<'_>,
    names: &[Token<'_>],
    lookup: &Lookup<'_>,
) -> Result<Reduction, ActFault>
    requires ready { IsReady (lookup_of lookup.now) (goal_of goal.now) }
    requires names { All (λ (t : Lexeme). t.text.now ≢ []) names.now }
    requires hyps { All MayDouble (map hyp_formula goal.now.hyps) }
    requires target { MayDouble (formula goal.now.target) }
    ensures { Does (lookup_of lookup.now) (goal_of goal.now) (act.Cases (word name.now) (words names.now)) result }
{
    match goal.variable_named(name.text) {
        Some(k) => cases_of(alloc, goal, k, names, lookup),
        None => cases_hypothesis(alloc, goal, name, names, lookup),
    }
}

fn cases_of(
    alloc: Global,
    goal: &Goal,
    k: u32,
    names: &[Token<'_>],
    lookup: &Lookup<'_>,
) -> Result<Reduction, ActFault>
    requires vars { length goal.now.vars < 2 ^ 32 }
    requires few { length goal.now.hyps + 1 < 2 ^ 32 }
    requires names { All (λ (t : Lexeme). t.text.now ≢ []) names.now }
    requires hyps { All IsClosable (map hyp_formula goal.now.hyps) }
    requires target { IsClosable (formula goal.now.target) }
    requires step_hyps { All (CanStep k (length goal.now.vars)) (map hyp_formula goal.now.hyps) }
    requires step_target { CanStep k (length goal.now.vars) (formula goal.now.target) }
    ensures { Makes (moves.cases_of_var (lookup_of lookup.now) (goal_of goal.now) k (words names.now)) (parting (goal_of goal.now) k) result }
{
    at_most(1, names)?;
    case_named(alloc, goal, k, names, lookup)
}

/// The variable gets its name.
fn case_named(
    alloc: Global,
    goal: &Goal,
    k: u32,
    names: &[Token<'_>],
    lookup: &Lookup<'_>,
) -> Result<Reduction, ActFault>
    requires vars { length goal.now.vars < 2 ^ 32 }
    requires few { length goal.now.hyps + 1 < 2 ^ 32 }
    requires names { All (λ (t : Lexeme). t.text.now ≢ []) names.now }
    requires hyps { All IsClosable (map hyp_formula goal.now.hyps) }
    requires target { IsClosable (formula goal.now.target) }
    requires step_hyps { All (CanStep k (length goal.now.vars)) (map hyp_formula goal.now.hyps) }
    requires step_target { CanStep k (length goal.now.vars) (formula goal.now.target) }
    ensures { Makes (case_named (lookup_of lookup.now) (goal_of goal.now) k (words names.now)) (parting (goal_of goal.now) k) result }
{
    let rest = without_held(alloc, goal, k)?;
    let x = step_name(alloc, goal, k, &rest, names, "d", lookup)?;
    let rest = rest.with_var(x)?;
    let made = by_cases(alloc, goal, k, rest)?;
    Ok(made)
}

/// The goal at 0, and the goal at a successor behind the new variable.
fn by_cases(alloc: Global, goal: &Goal, k: u32, rest: Goal) -> Result<Reduction, AllocError>
    requires vars { length goal.now.vars < 2 ^ 32 }
    requires few { length goal.now.hyps + 1 < 2 ^ 32 }
    requires hyps { All IsClosable (map hyp_formula goal.now.hyps) }
    requires target { IsClosable (formula goal.now.target) }
    requires step_hyps { All (CanStep k (length goal.now.vars)) (map hyp_formula goal.now.hyps) }
    requires step_target { CanStep k (length goal.now.vars) (formula goal.now.target) }
    ensures { IfOk result (Has (moves.base_goal (goal_of goal.now) k ∷ moves.step_goal (goal_of goal.now) k (goal_of rest) ∷ []) (parting (goal_of goal.now) k)) }
{
    let Taken { body, gives, count } = take_along(alloc, goal, k)?;
    let last = parts(alloc, goal, k, body, count)?;
    let base = base_goal(alloc, goal, k)?;
    let step = step_goal(alloc, goal, k, rest)?;
    two(alloc, gives, last, base, step)
}

/// The frame of both goals, by the closed body of the carried hypotheses before the target.
fn parts(
    alloc: Global,
    goal: &Goal,
    k: u32,
    body: Boxed<Formula>,
    count: u32,
) -> Result<Frame, AllocError>
    requires vars { length goal.now.vars < 2 ^ 32 }
    requires few { length goal.now.hyps + 1 < 2 ^ 32 }
    requires hyps { All IsClosable (map hyp_formula goal.now.hyps) }
    requires target { IsClosable (formula goal.now.target) }
    requires step_hyps { All (CanStep k (length goal.now.vars)) (map hyp_formula goal.now.hyps) }
    requires step_target { CanStep k (length goal.now.vars) (formula goal.now.target) }
    requires body { formula body ≡ tree.closed_over_formula k (before (carried k (goal_of goal.now)) (formula goal.now.target)) }
    ensures { IfOk result (λ r. frame_of r ≡ frames.parts (length (goal_of goal.now).vars) (length (goal_of goal.now).hyps) k (before (carried k (goal_of goal.now)) (formula goal.now.target)) count) }
{
    let base = opened(alloc, body.get(), &Term::Zero)?;
    let step = at_successors(alloc, goal, k)?;
    let d = joined(alloc, body, step.get(), k, var_count(goal), hyp_count(goal))?;
    let step = universal(alloc, Name::new(alloc, "x")?, step)?;
    Ok(Frame::ByParts(base, step, count, d))
}

/// The carried hypotheses before the target, with the successor of the new variable for variable
/// `k`, closed over the new one.
fn at_successors(alloc: Global, goal: &Goal, k: u32) -> Result<Boxed<Formula>, AllocError>
    requires vars { length goal.now.vars < 2 ^ 32 }
    requires hyps { All IsClosable (map hyp_formula goal.now.hyps) }
    requires target { IsClosable (formula goal.now.target) }
    requires step_hyps { All (CanStep k (length goal.now.vars)) (map hyp_formula goal.now.hyps) }
    requires step_target { CanStep k (length goal.now.vars) (formula goal.now.target) }
    ensures { IfOk result (λ r. formula r ≡ tree.closed_over_formula (length (goal_of goal.now).vars) (put_for k (tree.succ (tree.free (length (goal_of goal.now).vars))) (before (carried k (goal_of goal.now)) (formula goal.now.target)))) }
{
    let newest = var_count(goal);
    let hyps = goal.hyps.as_slice();
    let mut body = at_successor(alloc, goal.target.get(), k, newest)?;
    let mut left = hyps.len();
    while left > 0 {
        left -= 1;
        let hyp = &hyps[left];
        if hyp.live && holds_var(k, hyp.formula.get()) {
            let first = at_successor(alloc, hyp.formula.get(), k, newest)?;
            body = implication(alloc, first, body)?;
        }
    }
    Ok(body)
}

/// A formula with the successor of the newest variable for variable `k`, closed over the newest one.
fn at_successor(
    alloc: Global,
    a: &Formula,
    k: u32,
    newest: u32,
) -> Result<Boxed<Formula>, AllocError>
    requires closable { IsClosable (formula a.now) }
    requires step { CanStep k newest (formula a.now) }
    ensures { IfOk result (λ r. formula r ≡ tree.closed_over_formula newest (put_for k (tree.succ (tree.free newest)) (formula a.now))) }
{
    let next = successor(alloc, newest)?;
    let a = put_for(alloc, a, k, next.get())?;
    closed(alloc, a.get(), newest)
}

/// A proof of what is closed, at variable `k`: hypothesis `i` says it at 0, and the next one says the
/// universal formula of the body `step`, which is taken at the newest variable.
fn joined(
    alloc: Global,
    body: Boxed<Formula>,
    step: &Formula,
    k: u32,
    newest: u32,
    i: u32,
) -> Result<Boxed<Proof>, AllocError>
    requires { i + 1 < 2 ^ 32 }
    ensures { IfOk result (λ d. proof d ≡ logic.ind (formula body) (tree.free k) (logic.hyp i) (logic.alle (formula step.now) (tree.free newest) (logic.hyp (i + 1)))) }
{
    let base = Boxed::new(alloc, Proof::Hyp(i))?;
    let next = instance(alloc, step, newest, i + 1)?;
    Boxed::new(
        alloc,
        Proof::Ind(body.into_inner(), Term::Free(k), base, next),
    )
}
