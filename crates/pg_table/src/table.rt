// The table: the act of each part of a move.
ghost use Rattle.std.specs.Prelude.{◌≡◌, ◌<◌, ◌^◌, All, Some, map, option_map};
ghost use Rattle.pg_base.specs.Tokens.{word};
ghost use Rattle.pg_logic.specs.Tree.{nodes_of};
ghost use Rattle.pg_script.specs.Data.{entries_of};
ghost use Rattle.pg_script.specs.View.{entry, expression, words};
ghost use Rattle.pg_terms.specs.View.{formula};
ghost use Rattle.pg_moves.specs.Acts.{Act, Cases, Induction, Revert, apply_act, have_act, move_named, plain_act, split_act, symm_act};
ghost use Rattle.pg_moves.specs.Measures.{formulas};
ghost use Rattle.pg_moves.specs.First.{first_goal};
ghost use Rattle.pg_moves.specs.Runs as runs;
ghost use Rattle.pg_goal.specs.Conditions.{IsCounted, AreTexts};
ghost use Rattle.pg_goal.specs.View.{goal_of, lookup_of};
ghost use Rattle.pg_reduction.specs.Doing.{IsReady, Does, DoesWithin};
ghost use Rattle.pg_runs.specs.Asked.{CanRun};
ghost use Rattle.pg_runs.specs.Running.{Ends};
ghost use Rattle.pg_acts.specs.Giving.{lent};
ghost use Rattle.pg_table.specs.Lent.{lent_word, lent_expression};
ghost use Rattle.pg_runs.specs.Written.{AreNamed, HasTexts, HaveTexts, IsNamed, Maybe};

use crate::lists::{introduced, rewritten, witnessed};
use pg_acts::{
    assert, by_cases, constructor, exact, exfalso, have, left, rfl, right, symm, symm_at,
};
use pg_base::Token;
use pg_goal::{Goal, Lookup};
use pg_inducts::{cases, induction, revert};
use pg_reduction::{ActFault, Cause, Reduction};
use pg_rewrites::{apply, apply_at};
use pg_runs::{Acts, Outcome};
use pg_script::{Expr, Form, MoveItem, Piece, Script};
use pg_syntax::Statement;
use pg_worlds::TacticName;
use std::alloc::{AllocError, Global};

/// The moves of the game, as a table of their acts.
#[derive(Clone, Copy, Debug, PartialEq, Eq)]
pub struct Moves;

/// Runs a script on the first goal of a statement, by the moves of the game ("Bullets, hints and branches" in
/// docs/MOVES.md).
///
/// A closed run gives the statement's formula with the proof that its moves made, which the kernel has checked. The
/// proof names theorems that are available alone. It fails only for want of memory.
pub fn run(
    alloc: Global,
    statement: &Statement,
    script: &Script<'_>,
    lookup: &Lookup<'_>,
) -> Result<Outcome, AllocError>
    requires { CanRun (lookup_of lookup.now) statement.now (entries_of (map entry script.now.items)) }
    ensures { Ends (lookup_of lookup.now) statement.now (runs.run (lookup_of lookup.now) (first_goal statement.now.binders.items (formula statement.now.target)) (map entry script.now.items)) result }
{
    pg_runs::run(&Moves, alloc, statement, script, lookup)
}

impl Acts for Moves {
    fn act(
        &self,
        alloc: Global,
        goal: &Goal,
        step: &MoveItem<'_>,
        part: u32,
        lookup: &Lookup<'_>,
    ) -> Result<Reduction, ActFault> {
        match &step.form {
            Form::Plain => plain(alloc, goal, step.head, lookup),
            Form::Exact(expr) => exact(alloc, goal, expr, lookup),
            Form::Intro(names) => introduced(alloc, goal, names.as_slice(), part, lookup),
            Form::Apply { expr, place } => applied(alloc, goal, expr, place.as_ref(), lookup),
            Form::Rw { rules, place } => {
                rewritten(alloc, goal, rules.as_slice(), place.as_ref(), part, lookup)
            }
            Form::Split { name, names } => {
                split(alloc, goal, step.head, name, names.as_slice(), lookup)
            }
            Form::Use(terms) => witnessed(alloc, goal, terms.as_slice(), part, lookup),
            Form::Symm(place) => swapped(alloc, goal, place.as_ref(), lookup),
            Form::Have {
                name,
                formula,
                expr,
            } => had(alloc, goal, name, formula.as_ref(), expr.as_ref(), lookup),
            Form::Revert(name) => reverted(alloc, goal, name, lookup),
            Form::ByCases { name, formula } => by_cases(alloc, goal, name, formula, lookup),
            Form::Unknown => Err(ActFault::Stop(Cause::WrongShape)),
        }
    }
}

/// A move with nothing behind its word.
#[tactic(auto, using(crate::proofs::Acts::unknown))]
fn plain(alloc: Global, goal: &Goal, head: &str, lookup: &Lookup<'_>) -> Result<Reduction, ActFault>
    requires { IsReady (lookup_of lookup.now) (goal_of goal.now) }
    ensures { Does (lookup_of lookup.now) (goal_of goal.now) (plain_act (move_named head.now)) result }
{
    match TacticName::named(head) {
        Some(tactic) => plain_of(alloc, goal, tactic, lookup),
        None => Err(ActFault::Stop(Cause::WrongShape)),
    }
}

#[tactic(auto, using(crate::proofs::Acts::unknown))]
fn plain_of(
    alloc: Global,
    goal: &Goal,
    tactic: TacticName,
    lookup: &Lookup<'_>,
) -> Result<Reduction, ActFault>
    requires { IsReady (lookup_of lookup.now) (goal_of goal.now) }
    ensures { Does (lookup_of lookup.now) (goal_of goal.now) (plain_act (Some tactic)) result }
{
    match tactic {
        TacticName::Rfl => rfl(alloc, goal, lookup),
        TacticName::Left => left(alloc, goal, lookup),
        TacticName::Right => right(alloc, goal, lookup),
        TacticName::Constructor => constructor(alloc, goal, lookup),
        TacticName::Exfalso => exfalso(alloc, goal, lookup),
        _ => Err(ActFault::Stop(Cause::WrongShape)),
    }
}

/// `apply e`, `apply e at h`.
fn applied(
    alloc: Global,
    goal: &Goal,
    expr: &Expr<'_>,
    place: Option<&Token<'_>>,
    lookup: &Lookup<'_>,
) -> Result<Reduction, ActFault>
    requires ready { IsReady (lookup_of lookup.now) (goal_of goal.now) }
    requires counted { IsCounted (lookup_of lookup.now) (goal_of goal.now) }
    requires texts { AreTexts (expression expr.now).args }
    ensures { DoesWithin (lookup_of lookup.now) (goal_of goal.now) (apply_act (expression expr.now) (option_map lent_word place.entry)) result }
{
    match place {
        None => apply(alloc, goal, expr, lookup),
        Some(name) => apply_at(alloc, goal, expr, name, lookup),
    }
}

/// `induction n with ..`, `cases n with ..`.
fn split(
    alloc: Global,
    goal: &Goal,
    head: &str,
    name: &Token<'_>,
    names: &[Token<'_>],
    lookup: &Lookup<'_>,
) -> Result<Reduction, ActFault>
    requires ready { IsReady (lookup_of lookup.now) (goal_of goal.now) }
    requires small { All (λ a. nodes_of a < 2 ^ 29) (formulas (goal_of goal.now)) }
    requires names { AreNamed (words names.now) }
    ensures { Does (lookup_of lookup.now) (goal_of goal.now) (split_act (move_named head.now) (word name.now) (words names.now)) result }
{
    match TacticName::named(head) {
        Some(tactic) => split_of(alloc, goal, tactic, name, names, lookup),
        None => cased(alloc, goal, name, names, lookup),
    }
}

fn split_of(
    alloc: Global,
    goal: &Goal,
    tactic: TacticName,
    name: &Token<'_>,
    names: &[Token<'_>],
    lookup: &Lookup<'_>,
) -> Result<Reduction, ActFault>
    requires ready { IsReady (lookup_of lookup.now) (goal_of goal.now) }
    requires small { All (λ a. nodes_of a < 2 ^ 29) (formulas (goal_of goal.now)) }
    requires names { AreNamed (words names.now) }
    ensures { Does (lookup_of lookup.now) (goal_of goal.now) (split_act (Some tactic) (word name.now) (words names.now)) result }
{
    match tactic {
        TacticName::Induction => inducted(alloc, goal, name, names, lookup),
        _ => cased(alloc, goal, name, names, lookup),
    }
}

#[tactic(auto, using(crate::proofs::Small::small_hyps, crate::proofs::Small::small_target, crate::proofs::Small::named))]
fn inducted(
    alloc: Global,
    goal: &Goal,
    name: &Token<'_>,
    names: &[Token<'_>],
    lookup: &Lookup<'_>,
) -> Result<Reduction, ActFault>
    requires ready { IsReady (lookup_of lookup.now) (goal_of goal.now) }
    requires small { All (λ a. nodes_of a < 2 ^ 29) (formulas (goal_of goal.now)) }
    requires names { AreNamed (words names.now) }
    ensures { Does (lookup_of lookup.now) (goal_of goal.now) (Induction (word name.now) (words names.now)) result }
{
    induction(alloc, goal, name, names, lookup)
}

#[tactic(auto, using(crate::proofs::Small::double_hyps, crate::proofs::Small::double_target, crate::proofs::Small::named))]
fn cased(
    alloc: Global,
    goal: &Goal,
    name: &Token<'_>,
    names: &[Token<'_>],
    lookup: &Lookup<'_>,
) -> Result<Reduction, ActFault>
    requires ready { IsReady (lookup_of lookup.now) (goal_of goal.now) }
    requires small { All (λ a. nodes_of a < 2 ^ 29) (formulas (goal_of goal.now)) }
    requires names { AreNamed (words names.now) }
    ensures { Does (lookup_of lookup.now) (goal_of goal.now) (Cases (word name.now) (words names.now)) result }
{
    cases(alloc, goal, name, names, lookup)
}

/// `revert x`.
#[tactic(auto, using(crate::proofs::Small::small_hyps, crate::proofs::Small::small_target))]
fn reverted(
    alloc: Global,
    goal: &Goal,
    name: &Token<'_>,
    lookup: &Lookup<'_>,
) -> Result<Reduction, ActFault>
    requires ready { IsReady (lookup_of lookup.now) (goal_of goal.now) }
    requires small { All (λ a. nodes_of a < 2 ^ 29) (formulas (goal_of goal.now)) }
    requires name { IsNamed (word name.now) }
    ensures { Does (lookup_of lookup.now) (goal_of goal.now) (Revert (word name.now)) result }
{
    revert(alloc, goal, name, lookup)
}

/// `symm`, `symm at h`.
fn swapped(
    alloc: Global,
    goal: &Goal,
    place: Option<&Token<'_>>,
    lookup: &Lookup<'_>,
) -> Result<Reduction, ActFault>
    requires { IsReady (lookup_of lookup.now) (goal_of goal.now) }
    ensures { Does (lookup_of lookup.now) (goal_of goal.now) (symm_act (option_map lent_word place.entry)) result }
{
    match place {
        None => symm(alloc, goal, lookup),
        Some(name) => symm_at(alloc, goal, name, lookup),
    }
}

/// `have h : A`, `have h := e`, `have h : A := e`.
#[tactic(auto, using(crate::proofs::Acts::unknown))]
fn had(
    alloc: Global,
    goal: &Goal,
    name: &Token<'_>,
    formula: Option<&Piece<'_>>,
    expr: Option<&Expr<'_>>,
    lookup: &Lookup<'_>,
) -> Result<Reduction, ActFault>
    requires ready { IsReady (lookup_of lookup.now) (goal_of goal.now) }
    requires counted { IsCounted (lookup_of lookup.now) (goal_of goal.now) }
    requires name { IsNamed (word name.now) }
    requires formula { Maybe HasTexts (option_map lent formula) }
    requires texts { Maybe HaveTexts (option_map lent_expression expr) }
    ensures { Does (lookup_of lookup.now) (goal_of goal.now) (have_act (word name.now) (option_map lent formula.entry) (option_map lent_expression expr.entry)) result }
{
    match expr {
        Some(expr) => have(alloc, goal, name, formula, expr, lookup),
        None => match formula {
            Some(formula) => assert(alloc, goal, name, formula, lookup),
            None => Err(ActFault::Stop(Cause::WrongShape)),
        },
    }
}
