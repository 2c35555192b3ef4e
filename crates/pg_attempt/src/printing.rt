// The lines of an outcome.
ghost use Rattle.std.specs.Prelude.{◌≡◌, ◌++◌, IfOk, OnOk, flat_map, map, string_bytes};
ghost use Rattle.pg_arith.specs.View.{declarations};
ghost use Rattle.pg_terms.specs.View.{formula};
ghost use Rattle.pg_spelling.specs.Written.{printed_formula};
ghost use Rattle.pg_goal.specs.View.{goal_of, hyp_of};
ghost use Rattle.pg_moves.specs.Goals.{scope, var_names};
ghost use Rattle.pg_reduction.specs.View.{cause_of};
ghost use Rattle.pg_runs.specs.State.{goals_of};
ghost use Rattle.pg_attempt.specs.Lines.{code, goal_lines, hyp_line, line, lines_of, open_lines, stop_line, turnstile};
ghost use Rattle.pg_attempt.specs.Outcomes.{outcome_of, stop_of};

use pg_arith::Signature;
use pg_goal::{Goal, Hyp};
use pg_reduction::Cause;
use pg_runs::{Outcome, Stop};
use pg_syntax::{Names, print_formula};
use std::alloc::{AllocError, Global};

/// The lines of an outcome: `won`; `open K` and K goals, each with a line for each live hypothesis and one for its target; or
/// `stopped ITEM PART CODE` ("Outcomes" in docs/COMMAND-LINE.md). It fails only for want of memory.
pub fn lines(alloc: Global, outcome: &Outcome, sig: &Signature) -> Result<String, AllocError>
    ensures { IfOk result (λ text. string_bytes text ≡ lines_of (declarations sig.now) (outcome_of outcome.now)) }
{
    match outcome {
        Outcome::Closed(_) => String::from_str(alloc, "won\n"),
        Outcome::Unfinished { goals } => open_lines(alloc, goals.as_slice(), sig),
        Outcome::Stopped(stop) => stop_line(alloc, stop),
    }
}

/// How many goals are left, and the lines of each.
fn open_lines(alloc: Global, goals: &[Goal], sig: &Signature) -> Result<String, AllocError>
    ensures { IfOk result (λ text. string_bytes text ≡ open_lines (declarations sig.now) (goals_of goals.now)) }
{
    let mut text = String::new(alloc);
    writeln!(text, "open {}", goals.len())?;
    for goal in goals {
        push_goal(alloc, &mut text, goal, sig)?;
    }
    Ok(text)
}

/// The lines of a goal go on the text.
fn push_goal(
    alloc: Global,
    text: &mut String,
    goal: &Goal,
    sig: &Signature,
) -> Result<(), AllocError>
    ensures { OnOk result (string_bytes text.new ≡ string_bytes text.old ++ goal_lines (declarations sig.now) (goal_of goal.now)) }
{
    let names = goal.var_names(alloc)?;
    push_hyps(alloc, text, goal, &names, sig)?;
    push_target(alloc, text, goal, &names, sig)
}

/// The lines of the live hypotheses of a goal go on the text.
fn push_hyps(
    alloc: Global,
    text: &mut String,
    goal: &Goal,
    names: &Names,
    sig: &Signature,
) -> Result<(), AllocError>
    requires { names.now.vars.items ≡ var_names (goal_of goal.now) }
    ensures { OnOk result (string_bytes text.new ≡ string_bytes text.old ++ flat_map (hyp_line (declarations sig.now) (goal_of goal.now)) (map hyp_of goal.now.hyps)) }
{
    for hyp in goal.hyps.as_slice() {
        push_hyp(alloc, text, goal, hyp, names, sig)?;
    }
    Ok(())
}

/// The line of a live hypothesis of a goal goes on the text.
fn push_hyp(
    alloc: Global,
    text: &mut String,
    goal: &Goal,
    hyp: &Hyp,
    names: &Names,
    sig: &Signature,
) -> Result<(), AllocError>
    requires { names.now.vars.items ≡ var_names (goal_of goal.now) }
    ensures { OnOk result (string_bytes text.new ≡ string_bytes text.old ++ hyp_line (declarations sig.now) (goal_of goal.now) (hyp_of hyp.now)) }
{
    if !hyp.live {
        return Ok(());
    }
    let formula = print_formula(alloc, hyp.formula.get(), names, sig)?;
    text.push_str(hyp.name.as_str())?;
    writeln!(text, " : {formula}")
}

/// The line of the target of a goal goes on the text.
fn push_target(
    alloc: Global,
    text: &mut String,
    goal: &Goal,
    names: &Names,
    sig: &Signature,
) -> Result<(), AllocError>
    requires { names.now.vars.items ≡ var_names (goal_of goal.now) }
    ensures { OnOk result (string_bytes text.new ≡ string_bytes text.old ++ line (turnstile ++ printed_formula (scope (declarations sig.now) (goal_of goal.now)) (formula goal.now.target))) }
{
    let target = print_formula(alloc, goal.target.get(), names, sig)?;
    writeln!(text, "⊢ {target}")
}

/// Where a script stops, and the code of the cause.
fn stop_line(alloc: Global, stop: &Stop) -> Result<String, AllocError>
    ensures { IfOk result (λ text. string_bytes text ≡ stop_line (stop_of stop.now)) }
{
    let mut text = String::new(alloc);
    let Stop { item, part, .. } = stop;
    writeln!(text, "stopped {item} {part} {}", code(&stop.cause))?;
    Ok(text)
}

/// The code of a cause.
fn code(cause: &Cause) -> &'static str
    ensures { result.now ≡ code (cause_of cause.now) }
{
    match cause {
        Cause::Syntax { .. } => "S1",
        Cause::NoSuchTactic { .. } => "S2",
        Cause::LockedTactic { .. } => "S3",
        Cause::NoSuchName { .. } => "S4",
        Cause::LockedTheorem { .. } => "S5",
        Cause::SidesDiffer { .. } => "S6",
        Cause::WrongShape => "S7",
        Cause::NoInstance => "S8",
        Cause::Undetermined { .. } => "S9",
        Cause::NameTaken { .. } => "S10",
        Cause::TooLarge { .. } => "S11",
        Cause::NoGoal => "S12",
        Cause::WrongArgument { .. } => "S13",
        Cause::NotSame { .. } => "S14",
        Cause::LeftOpen { .. } => "S15",
        Cause::TooMany { .. } => "S16",
        Cause::BarePattern => "S17",
    }
}
