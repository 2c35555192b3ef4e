// Hypotheses by their names.
ghost use Rattle.std.specs.Prelude.{◌≡◌, ◌<◌, ◌^◌, IfOk, length, option_map};
ghost use Rattle.pg_moves.specs.Assuming as moves;
ghost use Rattle.pg_terms.specs.View.{formula};
ghost use Rattle.pg_goal.specs.View.{goal_of};
ghost use Rattle.pg_reduction.specs.Named.{found_of};

use pg_goal::{Goal, Hyp};
use pg_terms::Formula;
use sqlite_items::{Boxed, at};
use std::alloc::{AllocError, Global};

/// A hypothesis with its number.
#[derive(Clone, Copy)]
pub struct Found<'g> {
    pub number: u32,
    pub hyp: &'g Hyp,
}

/// The live hypothesis of a name.
pub fn hypothesis_of<'g>(goal: &'g Goal, name: &str) -> Option<Found<'g>>
    requires { length goal.now.hyps < 2 ^ 32 }
    ensures { option_map found_of result ≡ moves.hypothesis (goal_of goal.now) name.now }
{
    let number = goal.hypothesis_named(name)?;
    let hyp = at(goal.hyps.as_slice(), number as usize)?;
    Some(Found { number, hyp })
}

/// The goal in which a hypothesis is dead, and a new one of its name says this instead.
pub fn changed_to(
    alloc: Global,
    goal: &Goal,
    f: &Found<'_>,
    a: Boxed<Formula>,
) -> Result<Goal, AllocError>
    ensures { IfOk result (λ g. goal_of g ≡ moves.changed_to (goal_of goal.now) (found_of f.now) (formula a)) }
{
    let without = goal.copied(alloc)?.without_hyp(alloc, f.number)?;
    without.with_hyp(alloc, f.hyp.name.copied(alloc)?, a)
}

/// An equal formula, in a box of its own.
pub fn boxed(alloc: Global, a: &Formula) -> Result<Boxed<Formula>, AllocError>
    ensures { IfOk result (λ r. r ≡ a.now) }
{
    Boxed::new(alloc, a.copied(alloc)?)
}
