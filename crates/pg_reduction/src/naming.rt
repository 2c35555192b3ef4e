// The names of new hypotheses and variables.
ghost use Rattle.std.specs.Prelude.{◌≢◌, [], All};
ghost use Rattle.pg_base.specs.declared.token.Token.{Token as Lexeme};
ghost use Rattle.pg_base.specs.Tokens.{word};
ghost use Rattle.pg_moves.specs.Goals.{live_names};
ghost use Rattle.pg_moves.specs.Lookup.{given_name, new_name};
ghost use Rattle.pg_script.specs.View.{words};
ghost use Rattle.pg_goal.specs.View.{goal_of, lookup_of};
ghost use Rattle.pg_reduction.specs.Doing.{Yields};
ghost use Rattle.pg_reduction.specs.View.{itself};

use crate::cause::{ActFault, Cause};
use pg_base::Token;
use pg_goal::{Goal, Lookup, NameFault};
use pg_terms::Name;
use std::alloc::Global;

/// The name that a script gives, where those of the goal are in use. It stops by `NameTaken`.
pub fn given_name(
    alloc: Global,
    goal: &Goal,
    name: &Token<'_>,
    lookup: &Lookup<'_>,
) -> Result<Name, ActFault>
    requires { name.now.text.now ≢ [] }
    ensures { Yields itself (given_name (lookup_of lookup.now) (live_names (goal_of goal.now)) (word name.now)) result }
{
    let used = goal.live_names(alloc)?;
    match lookup.given_name(alloc, used.as_slice(), name) {
        Ok(name) => Ok(name),
        Err(NameFault::NameTaken { name }) => Err(ActFault::Stop(Cause::NameTaken { name })),
        Err(NameFault::OutOfMemory) => Err(ActFault::OutOfMemory),
    }
}

/// The first of the names that a script gives, or else the default made fresh, where the names of
/// the goal are in use. It stops by `NameTaken`.
pub fn new_name(
    alloc: Global,
    goal: &Goal,
    given: &[Token<'_>],
    default: &Name,
    lookup: &Lookup<'_>,
) -> Result<Name, ActFault>
    requires { All (λ (t : Lexeme). t.text.now ≢ []) given.now }
    ensures { Yields itself (new_name (lookup_of lookup.now) (live_names (goal_of goal.now)) (words given.now) default.now) result }
{
    let used = goal.live_names(alloc)?;
    match lookup.new_name(alloc, used.as_slice(), given, default) {
        Ok(name) => Ok(name),
        Err(NameFault::NameTaken { name }) => Err(ActFault::Stop(Cause::NameTaken { name })),
        Err(NameFault::OutOfMemory) => Err(ActFault::OutOfMemory),
    }
}
