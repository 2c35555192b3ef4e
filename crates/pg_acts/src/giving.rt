// The acts that take an expression.
ghost use Rattle.std.specs.Prelude.{◌≡◌, ◌≢◌, ◌∷◌, [], All, IfOk, IfSome, option_map};
ghost use Rattle.pg_base.specs.Spans.{IsTokenText};
ghost use Rattle.pg_base.specs.Tokens.{Word as Lexeme, word};
ghost use Rattle.pg_kernel.specs.View.{proof};
ghost use Rattle.pg_script.specs.View.{expression};
ghost use Rattle.pg_moves.specs.Acts as act;
ghost use Rattle.pg_moves.specs.Assuming as moves;
ghost use Rattle.pg_moves.specs.Closing.{given, closed_by};
ghost use Rattle.pg_moves.specs.Frames.{whole, cut};
ghost use Rattle.pg_goal.specs.Conditions.{IsCounted, AreTexts, IsProved};
ghost use Rattle.pg_goal.specs.View.{goal_of, lookup_of};
ghost use Rattle.pg_reduction.specs.Doing.{IsReady, Does, Makes, Yields};
ghost use Rattle.pg_reduction.specs.Giving.{fault_cause, said, stop_cause};
ghost use Rattle.pg_acts.specs.Giving.{IsKnown, had_as, lent};

use pg_base::Token;
use pg_frames::Frame;
use pg_goal::{ExprFault, Given, Goal, Lookup, gives};
use pg_reduction::{
    ActFault, Cause, Measure, Reduction, boxed, formula_there, given_name, given_there, one, shut,
};
use pg_script::{Expr, Piece};
use sqlite_items::Items;
use std::alloc::Global;

/// `exact e`: no goal, where the expression gives the target up to the names of binders.
///
/// It stops by the cause of the expression where this gives nothing, then by `NotSame`.
pub fn exact(
    alloc: Global,
    goal: &Goal,
    expr: &Expr<'_>,
    lookup: &Lookup<'_>,
) -> Result<Reduction, ActFault>
    requires ready { IsReady (lookup_of lookup.now) (goal_of goal.now) }
    requires counted { IsCounted (lookup_of lookup.now) (goal_of goal.now) }
    requires texts { AreTexts (expression expr.now).args }
    ensures { Does (lookup_of lookup.now) (goal_of goal.now) (act.Exact (expression expr.now)) result }
{
    match given_there(alloc, goal, expr, lookup) {
        Ok(given) => closed_by(alloc, goal, given),
        Err(fault) => Err(fault),
    }
}

/// No goal, where what is given is the target up to the names of binders.
fn closed_by(alloc: Global, goal: &Goal, given: Given) -> Result<Reduction, ActFault>
    ensures { Makes (closed_by (goal_of goal.now).target (said given)) (whole (proof given.proof) ∷ []) result }
{
    let Given { formula, proof } = given;
    if !formula.get().same(goal.target.get()) {
        return Err(ActFault::Stop(Cause::NotSame { found: formula }));
    }
    Ok(shut(alloc, proof.into_inner())?)
}

/// `have h := e`, `have h : A := e`: a goal with what the expression gives as the hypothesis `h`, as
/// the formula says it where one stands.
///
/// It stops by `WrongArgument` where the formula's tokens are none, then by the cause of the
/// expression where this gives nothing, then by `NotSame` where it gives another formula, then by
/// `NameTaken`.
pub fn have(
    alloc: Global,
    goal: &Goal,
    name: &Token<'_>,
    formula: Option<&Piece<'_>>,
    expr: &Expr<'_>,
    lookup: &Lookup<'_>,
) -> Result<Reduction, ActFault>
    requires ready { IsReady (lookup_of lookup.now) (goal_of goal.now) }
    requires counted { IsCounted (lookup_of lookup.now) (goal_of goal.now) }
    requires name { name.now.text.now ≢ [] }
    requires formula { IfSome formula (λ p. All (λ (w : Lexeme). IsTokenText w.kind w.text) (lent p).tokens) }
    requires texts { AreTexts (expression expr.now).args }
    ensures { Does (lookup_of lookup.now) (goal_of goal.now) (act.Have (word name.now) (option_map lent formula.entry) (expression expr.now)) result }
{
    match said_or_given(alloc, goal, formula, expr, lookup) {
        Ok(given) => had(alloc, goal, name, given, lookup),
        Err(fault) => Err(fault),
    }
}

/// What is given as a hypothesis of this name.
fn had(
    alloc: Global,
    goal: &Goal,
    name: &Token<'_>,
    given: Given,
    lookup: &Lookup<'_>,
) -> Result<Reduction, ActFault>
    requires { name.now.text.now ≢ [] }
    ensures { Makes (had_as (lookup_of lookup.now) (goal_of goal.now) (word name.now) (said given)) (cut (said given) (proof given.proof) ∷ []) result }
{
    let name = given_name(alloc, goal, name, lookup)?;
    let Given { formula, proof } = given;
    let next = goal
        .copied(alloc)?
        .with_hyp(alloc, name, boxed(alloc, formula.get())?)?;
    Ok(one(alloc, Items::new(alloc), Frame::Cut(formula, proof), next)?)
}

/// What is said, where it is said and the expression gives it, and else what is given.
fn said_or_given(
    alloc: Global,
    goal: &Goal,
    formula: Option<&Piece<'_>>,
    expr: &Expr<'_>,
    lookup: &Lookup<'_>,
) -> Result<Given, ActFault>
    requires ready { IsReady (lookup_of lookup.now) (goal_of goal.now) }
    requires counted { IsCounted (lookup_of lookup.now) (goal_of goal.now) }
    requires formula { IfSome formula (λ p. All (λ (w : Lexeme). IsTokenText w.kind w.text) (lent p).tokens) }
    requires texts { AreTexts (expression expr.now).args }
    ensures yields { Yields said (moves.said_or_given (lookup_of lookup.now) (goal_of goal.now) (option_map lent formula.entry) (expression expr.now)) result }
    ensures known { IfOk result (λ x. IsKnown (lookup_of lookup.now) (goal_of goal.now) (said x) (proof x.proof)) }
{
    let Some(piece) = formula else {
        return given_there(alloc, goal, expr, lookup);
    };
    let a = formula_there(alloc, goal, piece, lookup)?;
    let Given { formula, proof } = given_there(alloc, goal, expr, lookup)?;
    if !formula.get().same(a.get()) {
        return Err(ActFault::Stop(Cause::NotSame { found: formula }));
    }
    Ok(Given { formula: a, proof })
}
