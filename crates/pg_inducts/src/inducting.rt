// `induction`.
ghost use Rattle.std.specs.Prelude.{◌≡◌, ◌≢◌, ◌<◌, ◌^◌, ◌∷◌, [], All, IfOk, length, map};
ghost use Rattle.pg_base.specs.Tokens.{word};
ghost use Rattle.pg_base.specs.declared.token.Token.{Token as Lexeme};
ghost use Rattle.pg_script.specs.View.{words};
ghost use Rattle.pg_logic.specs.Tree as tree;
ghost use Rattle.pg_terms.specs.View.{term, formula};
ghost use Rattle.pg_moves.specs.Acts as act;
ghost use Rattle.pg_moves.specs.Goals.{with_hyp};
ghost use Rattle.pg_moves.specs.Inducting as moves;
ghost use Rattle.pg_goal.specs.View.{goal_of, lookup_of};
ghost use Rattle.pg_reduction.specs.Doing.{IsReady, Does, Makes, Has};
ghost use Rattle.pg_reduction.specs.Limits.{hyp_formula};
ghost use Rattle.pg_inducts.specs.Carrying.{IsSmall, IsClosable};
ghost use Rattle.pg_inducts.specs.Framed.{inducting};
ghost use Rattle.pg_inducts.specs.Steps.{by_variable, by_hypothesis};

use crate::carrying::{Taken, at_term, opened, take_along, without_held};
use crate::naming::{after_first, at_most, step_name};
use pg_base::Token;
use pg_frames::Frame;
use pg_goal::{Goal, Lookup};
use pg_reduction::{ActFault, Cause, Reduction, hypothesis_of, two, var_count};
use pg_terms::{Name, Term};
use sqlite_items::Boxed;
use std::alloc::{AllocError, Global};

/// `induction n with d hd`. The variable of this name dies, and the live hypotheses that hold it
/// do. The first new goal is the target at 0, with copies of these hypotheses at 0. The second one
/// has a new variable, the hypothesis of induction, which says of this variable that the carried
/// hypotheses make the target, and then copies and target at the variable's successor. The names are
/// those of the variable and of the hypothesis, else `d` and `hd` made fresh. Each formula has fewer
/// than 2^32 nodes.
///
/// It stops by `WrongShape` where a hypothesis has the name and no variable, by `NoSuchName` where
/// neither is there, then by `WrongArgument` at the first name too many, then by `NameTaken`.
pub fn induction(
    alloc: Global,
    goal: &Goal,
    name: &Token<'_>,
    names: &[Token<'_>],
    lookup: &Lookup<'_>,
) -> Result<Reduction, ActFault>
    requires ready { IsReady (lookup_of lookup.now) (goal_of goal.now) }
    requires names { All (λ (t : Lexeme). t.text.now ≢ []) names.now }
    requires hyps { All IsSmall (map hyp_formula goal.now.hyps) }
    requires target { IsSmall (formula goal.now.target) }
    ensures { Does (lookup_of lookup.now) (goal_of goal.now) (act.Induction (word name.now) (words names.now)) result }
{
    match goal.variable_named(name.text) {
        Some(k) => induction_of(alloc, goal, k, names, lookup),
        None => match hypothesis_of(goal, name.text) {
            Some(_) => Err(ActFault::Stop(Cause::WrongShape)),
            None => Err(ActFault::Stop(Cause::NoSuchName { at: name.at })),
        },
    }
}

fn induction_of(
    alloc: Global,
    goal: &Goal,
    k: u32,
    names: &[Token<'_>],
    lookup: &Lookup<'_>,
) -> Result<Reduction, ActFault>
    requires vars { length goal.now.vars < 2 ^ 32 }
    requires few { length goal.now.hyps < 2 ^ 32 }
    requires names { All (λ (t : Lexeme). t.text.now ≢ []) names.now }
    requires hyps { All IsClosable (map hyp_formula goal.now.hyps) }
    requires target { IsClosable (formula goal.now.target) }
    ensures { Makes (moves.induction_of_var (lookup_of lookup.now) (goal_of goal.now) k (words names.now)) (inducting (goal_of goal.now) k) result }
{
    at_most(2, names)?;
    by_variable(alloc, goal, k, names, lookup)
}

/// The variable gets its name.
fn by_variable(
    alloc: Global,
    goal: &Goal,
    k: u32,
    names: &[Token<'_>],
    lookup: &Lookup<'_>,
) -> Result<Reduction, ActFault>
    requires vars { length goal.now.vars < 2 ^ 32 }
    requires few { length goal.now.hyps < 2 ^ 32 }
    requires names { All (λ (t : Lexeme). t.text.now ≢ []) names.now }
    requires hyps { All IsClosable (map hyp_formula goal.now.hyps) }
    requires target { IsClosable (formula goal.now.target) }
    ensures { Makes (by_variable (lookup_of lookup.now) (goal_of goal.now) k (words names.now)) (inducting (goal_of goal.now) k) result }
{
    let rest = without_held(alloc, goal, k)?;
    let x = step_name(alloc, goal, k, &rest, names, "d", lookup)?;
    let rest = rest.with_var(x)?;
    by_hypothesis(alloc, goal, k, rest, names, lookup)
}

/// The hypothesis of induction gets its name, behind the new variable.
fn by_hypothesis(
    alloc: Global,
    goal: &Goal,
    k: u32,
    rest: Goal,
    names: &[Token<'_>],
    lookup: &Lookup<'_>,
) -> Result<Reduction, ActFault>
    requires vars { length goal.now.vars < 2 ^ 32 }
    requires few { length goal.now.hyps < 2 ^ 32 }
    requires names { All (λ (t : Lexeme). t.text.now ≢ []) names.now }
    requires hyps { All IsClosable (map hyp_formula goal.now.hyps) }
    requires target { IsClosable (formula goal.now.target) }
    ensures { Makes (by_hypothesis (lookup_of lookup.now) (goal_of goal.now) k (words names.now) (goal_of rest)) (inducting (goal_of goal.now) k) result }
{
    let h = step_name(alloc, goal, k, &rest, after_first(names), "hd", lookup)?;
    let made = by_induction(alloc, goal, k, rest, h)?;
    Ok(made)
}

/// The goal at 0, and the goal at a successor behind the hypothesis of induction, which gets this
/// name.
fn by_induction(
    alloc: Global,
    goal: &Goal,
    k: u32,
    rest: Goal,
    name: Name,
) -> Result<Reduction, AllocError>
    requires vars { length goal.now.vars < 2 ^ 32 }
    requires few { length goal.now.hyps < 2 ^ 32 }
    requires hyps { All IsClosable (map hyp_formula goal.now.hyps) }
    requires target { IsClosable (formula goal.now.target) }
    ensures { IfOk result (Has (moves.base_goal (goal_of goal.now) k ∷ moves.step_goal (goal_of goal.now) k (with_hyp name (moves.induction_hyp (goal_of goal.now) k) (goal_of rest)) ∷ []) (inducting (goal_of goal.now) k)) }
{
    let Taken { body, gives, count } = take_along(alloc, goal, k)?;
    let known = opened(alloc, body.get(), &Term::Free(var_count(goal)))?;
    let last = Frame::Induct(body, Boxed::new(alloc, Term::Free(k))?, count);
    let base = base_goal(alloc, goal, k)?;
    let step = step_goal(alloc, goal, k, rest.with_hyp(alloc, name, known)?)?;
    two(alloc, gives, last, base, step)
}

/// The goal at 0.
pub fn base_goal(alloc: Global, goal: &Goal, k: u32) -> Result<Goal, AllocError>
    requires hyps { All IsClosable (map hyp_formula goal.now.hyps) }
    requires target { IsClosable (formula goal.now.target) }
    ensures { IfOk result (λ g. goal_of g ≡ moves.base_goal (goal_of goal.now) k) }
{
    at_term(alloc, goal, k, &Term::Zero, without_held(alloc, goal, k)?)
}

/// The goal at the successor of the new variable, behind what stands in `rest`.
pub fn step_goal(alloc: Global, goal: &Goal, k: u32, rest: Goal) -> Result<Goal, AllocError>
    requires vars { length goal.now.vars < 2 ^ 32 }
    requires hyps { All IsClosable (map hyp_formula goal.now.hyps) }
    requires target { IsClosable (formula goal.now.target) }
    ensures { IfOk result (λ g. goal_of g ≡ moves.step_goal (goal_of goal.now) k (goal_of rest)) }
{
    let next = successor(alloc, var_count(goal))?;
    at_term(alloc, goal, k, next.get(), rest)
}

/// The successor of a variable.
pub fn successor(alloc: Global, i: u32) -> Result<Boxed<Term>, AllocError>
    ensures { IfOk result (λ t. term t ≡ tree.succ (tree.free i)) }
{
    let variable = Boxed::new(alloc, Term::Free(i))?;
    Boxed::new(alloc, Term::Succ(variable))
}
