// The lines that a player's bytes get.
ghost use Rattle.std.specs.Prelude.{◌≡◌, IfOk, string_bytes};
ghost use Rattle.pg_moves.specs.Runs as runs;
ghost use Rattle.pg_goal.specs.View.{lookup_of};
ghost use Rattle.pg_attempt.specs.Attempts.{CanAttempt, IsProved, attempted, goal};
ghost use Rattle.pg_attempt.specs.Lines.{lines_of};

use crate::printing::lines;
use crate::trying::attempt;
use pg_goal::Lookup;
use pg_syntax::Statement;
use std::alloc::{AllocError, Global};

/// The lines of what a player's bytes come to on a statement, as [`attempt`] runs them. It fails only for want of memory.
///
/// Where they are `won`, the statement has a proof that the kernel accepts.
pub fn told(
    alloc: Global,
    statement: &Statement,
    bytes: &[u8],
    lookup: &Lookup<'_>,
) -> Result<String, AllocError>
    requires { CanAttempt (lookup_of lookup.now) statement.now }
    ensures lines { IfOk result (λ text. string_bytes text ≡ lines_of (lookup_of lookup.now).declared (attempted (lookup_of lookup.now) (goal statement.now) bytes.now)) }
    ensures won { IfOk result (λ text. attempted (lookup_of lookup.now) (goal statement.now) bytes.now ≡ runs.Closed → IsProved (lookup_of lookup.now) statement.now) }
{
    let outcome = attempt(alloc, statement, bytes, lookup)?;
    lines(alloc, &outcome, lookup.sig)
}
