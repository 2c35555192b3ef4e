// The limits that formulas pass, told before these are made.
ghost use Rattle.std.specs.Prelude.{◌≡◌, IfOk};
ghost use Rattle.pg_logic.specs.Tree.{falsum};
ghost use Rattle.pg_moves.specs.Assuming as moves;
ghost use Rattle.pg_moves.specs.Goals.{aimed};
ghost use Rattle.pg_moves.specs.Measures.{first_over, goal_measures};
ghost use Rattle.pg_terms.specs.View.{formula};
ghost use Rattle.pg_goal.specs.View.{goal_of};
ghost use Rattle.pg_reduction.specs.Limits.{IsFirst};
ghost use Rattle.pg_reduction.specs.Named.{found_of};

use crate::cause::Cause;
use crate::found::{Found, changed_to};
use crate::limits::first_large_goal;
use pg_goal::Goal;
use pg_terms::Formula;
use sqlite_items::Boxed;
use std::alloc::{AllocError, Global};

/// The first limit that is passed, where a target of the goal passes this one. It fails only for want of
/// memory.
pub fn target_limit(alloc: Global, goal: &Goal, limit: Cause) -> Result<Cause, AllocError>
    ensures { IfOk result (IsFirst (first_over (goal_measures (aimed falsum (goal_of goal.now)))) limit) }
{
    let small = goal.aimed(alloc, falsum(alloc)?)?;
    Ok(first_limit(&small, limit))
}

/// The first limit that is passed, where what the hypothesis is to say passes this one. It fails only for
/// want of memory.
pub fn hypothesis_limit(
    alloc: Global,
    goal: &Goal,
    f: &Found<'_>,
    limit: Cause,
) -> Result<Cause, AllocError>
    ensures { IfOk result (IsFirst (first_over (goal_measures (aimed falsum (moves.changed_to (goal_of goal.now) (found_of f.now) falsum)))) limit) }
{
    let changed = changed_to(alloc, goal, f, falsum(alloc)?)?;
    target_limit(alloc, &changed, limit)
}

/// The first limit that is passed, where a formula that passes this one stands behind what is measured
/// of the goal.
fn first_limit(small: &Goal, limit: Cause) -> Cause
    ensures { IsFirst (first_over (goal_measures (goal_of small.now))) limit result }
{
    match first_large_goal(small) {
        Some(first) => first,
        None => limit,
    }
}

/// A false formula.
fn falsum(alloc: Global) -> Result<Boxed<Formula>, AllocError>
    ensures { IfOk result (λ r. formula r ≡ falsum) }
{
    Boxed::new(alloc, Formula::Falsum)
}
