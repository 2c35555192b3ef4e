// A player's bytes, run as a script.
ghost use Rattle.std.specs.Prelude.{◌≡◌, ◌≢◌, ◌≤◌, IfOk, Ok, false, length};
ghost use Rattle.pg_script.specs.declared.fault.ScriptFault.TheVariants.{OutOfMemory};
ghost use Rattle.pg_script.specs.Scripts as scripts;
ghost use Rattle.pg_script.specs.Scripts.{script_of};
ghost use Rattle.pg_moves.specs.Runs as runs;
ghost use Rattle.pg_goal.specs.View.{lookup_of};
ghost use Rattle.pg_runs.specs.Running.{Ends};
ghost use Rattle.pg_attempt.specs.Attempts.{CanAttempt, attempted, goal, unread};
ghost use Rattle.pg_attempt.specs.Outcomes.{outcome_of};

use pg_base::{LexFault, Lexer};
use pg_goal::Lookup;
use pg_reduction::Cause;
use pg_runs::{Outcome, Stop, script_law};
use pg_script::{Script, ScriptFault, read_script};
use pg_syntax::Statement;
use sqlite_items::Items;
use std::alloc::{AllocError, Global};

/// Runs a player's bytes as a script on the first goal of a statement ("Bullets, hints and branches" in docs/MOVES.md).
///
/// Bytes that are no UTF-8, or no script ("Scripts" in docs/GAME-TEXT.md), stop with `Syntax`: at the byte of the script's fault, at
/// 0 where they are no text. It fails only for want of memory.
pub fn attempt(
    alloc: Global,
    statement: &Statement,
    bytes: &[u8],
    lookup: &Lookup<'_>,
) -> Result<Outcome, AllocError>
    requires { CanAttempt (lookup_of lookup.now) statement.now }
    ensures { Ends (lookup_of lookup.now) statement.now (attempted (lookup_of lookup.now) (goal statement.now) bytes.now) result }
{
    let Ok(text) = str::from_utf8(bytes) else {
        return Ok(unread(alloc, 0));
    };
    match read_script(alloc, text, false) {
        Ok(script) => run_script(alloc, statement, text, &script, lookup),
        Err(fault) => unreadable(alloc, fault),
    }
}

/// Runs the script that a text is.
fn run_script(
    alloc: Global,
    statement: &Statement,
    text: &str,
    script: &Script<'_>,
    lookup: &Lookup<'_>,
) -> Result<Outcome, AllocError>
    requires can { CanAttempt (lookup_of lookup.now) statement.now }
    requires short { length text.now ≤ 16384 }
    requires read { script_of text.now false ≡ Ok (scripts.script script.now) }
    ensures { Ends (lookup_of lookup.now) statement.now (runs.run (lookup_of lookup.now) (goal statement.now) (scripts.script script.now)) result }
{
    let _ = Lexer::new(text);
    script_law();
    pg_table::run(alloc, statement, script, lookup)
}

/// The outcome of a script with a fault. Want of memory is none.
fn unreadable(alloc: Global, fault: ScriptFault) -> Result<Outcome, AllocError>
    ensures { IfOk result (λ o. (fault ≢ OutOfMemory) × (outcome_of o ≡ unread (runs.fault_place fault))) }
{
    match fault {
        ScriptFault::TooLong { at }
        | ScriptFault::Expected { at, .. }
        | ScriptFault::TooMany { at }
        | ScriptFault::Deep { at } => Ok(unread(alloc, at)),
        ScriptFault::Lex(fault) => Ok(unread(alloc, lex_place(fault))),
        ScriptFault::OutOfMemory => Err(AllocError),
    }
}

/// The outcome of what can't be read, by its fault at this byte.
fn unread(alloc: Global, at: u32) -> Outcome
    ensures { outcome_of result ≡ unread at }
{
    Outcome::Stopped(Stop {
        item: 0,
        part: 0,
        cause: Cause::Syntax { at },
        goals: Items::new(alloc),
    })
}

/// The byte at which a token has its fault.
fn lex_place(fault: LexFault) -> u32
    ensures { result ≡ scripts.lex_place fault }
{
    match fault {
        LexFault::BadByte { at }
        | LexFault::OpenString { at }
        | LexFault::OpenComment { at }
        | LexFault::LongName { at } => at,
    }
}
