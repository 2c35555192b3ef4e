// Samples, which may have hints and branches.
ghost use Rattle.std.specs.Prelude.{◌≡◌, ◌≤◌, Ok, true, length};
ghost use Rattle.pg_script.specs.Scripts as scripts;
ghost use Rattle.pg_script.specs.Scripts.{script_of};
ghost use Rattle.pg_goal.specs.View.{lookup_of};
ghost use Rattle.pg_attempt.specs.Attempts.{CanAttempt};

use crate::fault::RowFault;
use pg_attempt::lines;
use pg_base::Lexer;
use pg_goal::{Goal, Lookup};
use pg_runs::{Outcome, script_law};
use pg_script::{Script, ScriptFault, read_script};
use pg_syntax::Statement;
use sqlite_items::Items;
use std::alloc::{AllocError, Global};

/// The lines of what a sample comes to on a statement: those of a script's outcome. Where a part stops, the lines of the
/// goals that are left in the innermost block stand behind. A text that is no sample is a script at fault.
pub fn rehearsed(
    alloc: Global,
    statement: &Statement,
    text: &str,
    lookup: &Lookup<'_>,
) -> Result<String, RowFault>
    requires { CanAttempt (lookup_of lookup.now) statement.now }
{
    match read_script(alloc, text, true) {
        Ok(script) => {
            let outcome = run_sample(alloc, statement, text, &script, lookup)?;
            Ok(with_goals(alloc, outcome, lookup)?)
        }
        Err(ScriptFault::OutOfMemory) => Err(RowFault::OutOfMemory),
        Err(_) => Ok(String::from_str(alloc, "stopped 0 0 S1\n")?),
    }
}

/// Runs the sample that a text is.
fn run_sample(
    alloc: Global,
    statement: &Statement,
    text: &str,
    script: &Script<'_>,
    lookup: &Lookup<'_>,
) -> Result<Outcome, AllocError>
    requires can { CanAttempt (lookup_of lookup.now) statement.now }
    requires short { length text.now ≤ 16384 }
    requires read { script_of text.now true ≡ Ok (scripts.script script.now) }
{
    let _ = Lexer::new(text);
    script_law();
    pg_table::run(alloc, statement, script, lookup)
}

/// The lines of an outcome, and behind those of a stop the lines of its goals.
fn with_goals(alloc: Global, outcome: Outcome, lookup: &Lookup<'_>) -> Result<String, AllocError> {
    let mut text = lines(alloc, &outcome, lookup.sig)?;
    if let Some(goals) = goals_at_stop(outcome) {
        let left = lines(alloc, &Outcome::Unfinished { goals }, lookup.sig)?;
        text.push_str(left.as_str())?;
    }
    Ok(text)
}

/// The goals that were left where a run stopped.
fn goals_at_stop(outcome: Outcome) -> Option<Items<Goal>> {
    match outcome {
        Outcome::Stopped(stop) => Some(stop.goals),
        Outcome::Unfinished { goals: _goals } => None,
        Outcome::Closed(_checked) => None,
    }
}
