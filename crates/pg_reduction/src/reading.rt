// What the tokens of a move's part are read as, in a goal.
ghost use Rattle.std.specs.Prelude.{◌≡◌, ◌<◌, ◌^◌, All, IfOk, length};
ghost use Rattle.pg_base.specs.Spans.{IsTokenText};
ghost use Rattle.pg_base.specs.Tokens.{Word as Lexeme};
ghost use Rattle.pg_script.specs.View.{part};
ghost use Rattle.pg_terms.specs.View.{term, formula};
ghost use Rattle.pg_moves.specs.Closing.{term_there, formula_there};
ghost use Rattle.pg_moves.specs.Expressions.{begins};
ghost use Rattle.pg_moves.specs.Goals.{var_names};
ghost use Rattle.pg_goal.specs.View.{goal_of, lookup_of};
ghost use Rattle.pg_reduction.specs.Doing.{Yields};
ghost use Rattle.pg_reduction.specs.Unread.{IsUnread};

use crate::cause::{ActFault, Cause};
use pg_goal::{Goal, Lookup};
use pg_script::Piece;
use pg_syntax::{Names, SyntaxFault, read_formula, read_term};
use pg_terms::{Formula, Term};
use sqlite_items::Boxed;
use std::alloc::{AllocError, Global};

/// The term that a part of a move is. It stops by `WrongArgument` at the first token where that is
/// none.
pub fn term_there(
    alloc: Global,
    goal: &Goal,
    argument: &Piece<'_>,
    lookup: &Lookup<'_>,
) -> Result<Boxed<Term>, ActFault>
    requires vars { length goal.now.vars < 2 ^ 32 }
    requires texts { All (λ (w : Lexeme). IsTokenText w.kind w.text) (part argument.now).tokens }
    ensures { Yields term (term_there (lookup_of lookup.now) (goal_of goal.now) (part argument.now)) result }
{
    let names = goal.var_names(alloc)?;
    match read_term(
        alloc,
        argument.tokens.as_slice(),
        argument.end,
        &names,
        lookup.sig,
    ) {
        Ok(t) => Ok(Boxed::new(alloc, t)?),
        Err(fault) => Err(unread(argument, fault)),
    }
}

/// The formula that a part of a move is. It stops by `WrongArgument` at the first token where that
/// is none.
pub fn formula_there(
    alloc: Global,
    goal: &Goal,
    argument: &Piece<'_>,
    lookup: &Lookup<'_>,
) -> Result<Boxed<Formula>, ActFault>
    requires vars { length goal.now.vars < 2 ^ 32 }
    requires texts { All (λ (w : Lexeme). IsTokenText w.kind w.text) (part argument.now).tokens }
    ensures { Yields formula (formula_there (lookup_of lookup.now) (goal_of goal.now) (part argument.now)) result }
{
    let names = goal.var_names(alloc)?;
    match read_formula(
        alloc,
        argument.tokens.as_slice(),
        argument.end,
        &names,
        lookup.sig,
    ) {
        Ok(a) => Ok(Boxed::new(alloc, a)?),
        Err(fault) => Err(unread(argument, fault)),
    }
}

/// The cause that a part of a move is not what is wanted, or want of memory.
fn unread(argument: &Piece<'_>, fault: SyntaxFault) -> ActFault
    ensures { IsUnread (begins (part argument.now)) fault result }
{
    match fault {
        SyntaxFault::OutOfMemory => ActFault::OutOfMemory,
        _ => ActFault::Stop(Cause::WrongArgument {
            at: beginning(argument),
        }),
    }
}

/// Where a part begins: at its first token, or else where the next token would.
fn beginning(argument: &Piece<'_>) -> u32
    ensures { result ≡ begins (part argument.now) }
{
    match argument.tokens.as_slice().first() {
        Some(token) => token.at,
        None => argument.end,
    }
}
