// The names of what stands in the goal at a successor.
ghost use Rattle.std.specs.Prelude.{◌≡◌, ◌≢◌, [], All, IfOk, drop};
ghost use Rattle.pg_base.specs.declared.token.Token.{Token as Lexeme};
ghost use Rattle.pg_script.specs.View.{words};
ghost use Rattle.pg_moves.specs.Assuming as moves;
ghost use Rattle.pg_moves.specs.Inducting.{step_names};
ghost use Rattle.pg_moves.specs.Lookup.{new_name};
ghost use Rattle.pg_goal.specs.View.{goal_of, lookup_of};
ghost use Rattle.pg_reduction.specs.Doing.{Yields};
ghost use Rattle.pg_reduction.specs.View.{always, itself};

use crate::holding::holds_var;
use pg_base::Token;
use pg_goal::{Goal, Lookup, NameFault};
use pg_reduction::{ActFault, Cause};
use pg_terms::Name;
use sqlite_items::{Items, at};
use std::alloc::{AllocError, Global};

/// Stops by `WrongArgument` at the first name too many.
pub fn at_most(limit: usize, names: &[Token<'_>]) -> Result<(), ActFault>
    ensures { Yields (always (words names.now)) (moves.at_most limit (words names.now)) result }
{
    match at(names, limit) {
        None => Ok(()),
        Some(name) => Err(ActFault::Stop(Cause::WrongArgument { at: name.at })),
    }
}

/// All names but the first.
pub fn after_first<'a, 't>(names: &'a [Token<'t>]) -> &'a [Token<'t>]
    ensures { result.now ≡ drop 1 names.now }
{
    names.get(1..).unwrap_or_default()
}

/// The first of the names that a script gives, or else the default made fresh, where the live names of `rest`
/// are in use, and those of the hypotheses of `goal` that hold variable `k`. It stops by `NameTaken`.
pub fn step_name(
    alloc: Global,
    goal: &Goal,
    k: u32,
    rest: &Goal,
    given: &[Token<'_>],
    default: &str,
    lookup: &Lookup<'_>,
) -> Result<Name, ActFault>
    requires given { All (λ (t : Lexeme). t.text.now ≢ []) given.now }
    requires default { default.now ≢ [] }
    ensures { Yields itself (new_name (lookup_of lookup.now) (step_names (goal_of goal.now) k (goal_of rest.now)) (words given.now) default.now) result }
{
    let used = step_names(alloc, goal, k, rest)?;
    let default = Name::new(alloc, default)?;
    match lookup.new_name(alloc, used.as_slice(), given, &default) {
        Ok(name) => Ok(name),
        Err(NameFault::NameTaken { name }) => Err(ActFault::Stop(Cause::NameTaken { name })),
        Err(NameFault::OutOfMemory) => Err(ActFault::OutOfMemory),
    }
}

/// The live names of `rest`, then those of the hypotheses of `goal` that hold variable `k`.
fn step_names(alloc: Global, goal: &Goal, k: u32, rest: &Goal) -> Result<Items<Name>, AllocError>
    ensures { IfOk result (λ used. used ≡ step_names (goal_of goal.now) k (goal_of rest.now)) }
{
    let mut used = rest.live_names(alloc)?;
    for hyp in goal.hyps.as_slice() {
        if hyp.live && holds_var(k, hyp.formula.get()) {
            used.push(hyp.name.copied(alloc)?)?;
        }
    }
    Ok(used)
}
