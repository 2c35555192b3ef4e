// Runs of scripts.
ghost use Rattle.std.specs.Prelude.{◌≡◌, min, ◌+◌, ◌-◌, ◌<◌, ◌^◌, ◌∷◌, [], Ok, IfOk, OnOk, map};
ghost use Rattle.pg_script.specs.Data.{entries_of};
ghost use Rattle.pg_script.specs.View.{entry, step as move_in, shape};
ghost use Rattle.pg_moves.specs.Lookup.{Lookup as Looked};
ghost use Rattle.pg_runs.specs.declared.running.Halt.TheVariants as halt;
ghost use Rattle.pg_script.specs.Blocks.{steps_of};
ghost use Rattle.pg_arith.specs.View.{signature};
ghost use Rattle.pg_terms.specs.View.{formula};
ghost use Rattle.pg_kernel.specs.View.{proof};
ghost use Rattle.pg_kernel.specs.View.{proof as proof_in};
ghost use Rattle.pg_syntax.specs.Statements.{closed, AreFitting, total};
ghost use Rattle.pg_frames.specs.View.{frames_of};
ghost use Rattle.pg_moves.specs.First.{first_goal};
ghost use Rattle.pg_moves.specs.Runs as runs;
ghost use Rattle.pg_moves.specs.Runs.{run, outcome, run_items, run_item, run_parts, items_in, items_among, parts_in, parts_among, focused, branched, hinted};
ghost use Rattle.pg_goal.specs.View.{goal_of, lookup_of};
ghost use Rattle.pg_runs.specs.Asked.{CanRun, asked, IsProof, IsTrueByTheorems};
ghost use Rattle.pg_runs.specs.State.{goals_of, IsUsable, HaveRoom, Leads};
ghost use Rattle.pg_runs.specs.Running.{Runs, Ends};
ghost use Rattle.pg_runs.specs.Written.{IsWritten, AreWritten, AreWrittenIn};

use crate::act::Acts;
use crate::state::State;
use pg_frames::{Frame, finish};
use pg_goal::{Goal, Lookup};
use pg_kernel::{Checked, Proof, admit};
use pg_reduction::{ActFault, Cause};
use pg_script::{Form, Item, MoveItem, Script};
use pg_syntax::{Statement, statement_formula};
use sqlite_items::{Boxed, Items};
use std::alloc::{AllocError, Global};

/// What a run of a script comes to.
#[derive(Drop)]
pub enum Outcome {
    /// No goal is left: the statement's formula, with a proof that the kernel accepted.
    Closed(Checked),
    /// These goals are left.
    Unfinished { goals: Items<Goal> },
    /// A part of a move, a bullet or a hint stopped.
    Stopped(Stop),
}

/// Where a run stops, and why.
#[derive(Drop)]
pub struct Stop {
    /// The number of the item, in preorder, from 0.
    pub item: u32,
    /// The number of the move's part, from 0; 0 where the item is no move.
    pub part: u32,
    pub cause: Cause,
    /// The goals of the innermost block before that part.
    pub goals: Items<Goal>,
}

/// Why items did not run to their end.
#[derive(Drop)]
pub(crate) enum Halt {
    Stop(Stop),
    OutOfMemory,
}

impl From<AllocError> for Halt {
    ghost use Rattle.pg_runs.specs.declared.running.Halt.TheVariants.{OutOfMemory};
    ghost use Rattle.std.specs.Prelude.{◌≡◌};

    ghost from_gives = { λ _ e. e ≡ OutOfMemory };

    fn from(_e: AllocError) -> Halt {
        Halt::OutOfMemory
    }
}

/// Runs a script on the first goal of a statement ("Bullets, hints and branches" in docs/MOVES.md).
///
/// A closed run gives the statement's formula with the proof that its moves made, which the kernel has checked: it never
/// refuses it. The proof names theorems that are available alone, and where these are true of the natural numbers the
/// statement is. It fails only for want of memory.
pub fn run<A: Acts>(
    acts: &A,
    alloc: Global,
    statement: &Statement,
    script: &Script<'_>,
    lookup: &Lookup<'_>,
) -> Result<Outcome, AllocError>
    requires { CanRun (lookup_of lookup.now) statement.now (entries_of (map entry script.now.items)) }
    ensures { Ends (lookup_of lookup.now) statement.now (run (lookup_of lookup.now) (first_goal statement.now.binders.items (formula statement.now.target)) (map entry script.now.items)) result }
{
    let mut state = State::new(alloc, statement)?;
    match items(acts, alloc, lookup, &mut state, script.items.as_slice(), 0) {
        Ok(_) => ended(alloc, statement, lookup, state),
        Err(Halt::Stop(stop)) => Ok(Outcome::Stopped(stop)),
        Err(Halt::OutOfMemory) => Err(AllocError),
    }
}

/// Runs items, of which the first has this number, and gives the number behind them.
#[cycle(item)]
fn items<A: Acts>(
    acts: &A,
    alloc: Global,
    lookup: &Lookup<'_>,
    state: &mut State,
    items: &[Item<'_>],
    first: u32,
) -> Result<u32, Halt>
    requires usable { IsUsable (lookup_of lookup.now) }
    requires written { AreWritten (entries_of (map entry items.now)) }
    requires room { HaveRoom (lookup_of lookup.now) (parts_among (entries_of (map entry items.now))) (goals_of state.old.goals) }
    requires few { first + items_among (entries_of (map entry items.now)) < 2 ^ 32 }
    ensures runs { Runs (lookup_of lookup.now) (run_items (lookup_of lookup.now) (entries_of (map entry items.now)) first (goals_of state.old.goals)) (parts_among (entries_of (map entry items.now))) state.old state.new result }
    ensures next { IfOk result (λ n. n ≡ first + items_among (entries_of (map entry items.now))) }
{
    let mut number = first;
    for it in items {
        number = item(acts, alloc, lookup, state, it, number)?;
    }
    Ok(number)
}

/// Runs the item of this number, and gives the number behind it and its block.
#[cycle(item)]
fn item<A: Acts>(
    acts: &A,
    alloc: Global,
    lookup: &Lookup<'_>,
    state: &mut State,
    item: &Item<'_>,
    number: u32,
) -> Result<u32, Halt>
    requires usable { IsUsable (lookup_of lookup.now) }
    requires written { AreWrittenIn (entry item.now) }
    requires room { HaveRoom (lookup_of lookup.now) (parts_in (entry item.now)) (goals_of state.old.goals) }
    requires few { number + items_in (entry item.now) < 2 ^ 32 }
    ensures runs { Runs (lookup_of lookup.now) (run_item (lookup_of lookup.now) (entry item.now) number (goals_of state.old.goals)) (parts_in (entry item.now)) state.old state.new result }
    ensures next { IfOk result (λ n. n ≡ number + items_in (entry item.now)) }
{
    match item {
        Item::Move(step) => {
            parts(acts, alloc, lookup, state, step, number)?;
            Ok(number + 1)
        }
        Item::Focus(block) => focus(acts, alloc, lookup, state, block.as_slice(), number),
        Item::Branch(block) => branch(acts, alloc, lookup, state, block.as_slice(), number),
        Item::Hint(_) => hint(alloc, state, number),
    }
}

/// A bullet: its block runs on the first goal alone, and has to close it.
#[cycle(item)]
fn focus<A: Acts>(
    acts: &A,
    alloc: Global,
    lookup: &Lookup<'_>,
    state: &mut State,
    block: &[Item<'_>],
    number: u32,
) -> Result<u32, Halt>
    requires usable { IsUsable (lookup_of lookup.now) }
    requires written { AreWritten (entries_of (map entry block.now)) }
    requires room { HaveRoom (lookup_of lookup.now) (parts_among (entries_of (map entry block.now))) (goals_of state.old.goals) }
    requires few { number + items_among (entries_of (map entry block.now)) + 1 < 2 ^ 32 }
    ensures runs { Runs (lookup_of lookup.now) (focused number (run_items (lookup_of lookup.now) (entries_of (map entry block.now)) (number + 1)) (goals_of state.old.goals)) (parts_among (entries_of (map entry block.now))) state.old state.new result }
    ensures next { IfOk result (λ n. n ≡ number + items_among (entries_of (map entry block.now)) + 1) }
{
    let Some(goal) = state.goals.get(0) else {
        return Err(stopped(alloc, state, number, 0, Cause::NoGoal));
    };
    let mut inner = State::of(alloc, goal.copied(alloc)?)?;
    let next = items(acts, alloc, lookup, &mut inner, block, number + 1)?;
    if !inner.goals.is_empty() {
        let count = counted(inner.goals.len());
        return Err(stopped(alloc, state, number, 0, Cause::LeftOpen { count }));
    }
    state.close_first(inner.frames)?;
    Ok(next)
}

/// A number, or else the end of its type.
fn counted(count: usize) -> u32
    ensures { result ≡ min count (2 ^ 32 - 1) }
{
    u32::try_from(count).unwrap_or(u32::MAX)
}

/// A branch: its block runs on a copy of the goals, which stay as they are.
#[cycle(item)]
fn branch<A: Acts>(
    acts: &A,
    alloc: Global,
    lookup: &Lookup<'_>,
    state: &mut State,
    block: &[Item<'_>],
    number: u32,
) -> Result<u32, Halt>
    requires usable { IsUsable (lookup_of lookup.now) }
    requires written { AreWritten (entries_of (map entry block.now)) }
    requires room { HaveRoom (lookup_of lookup.now) (parts_among (entries_of (map entry block.now))) (goals_of state.old.goals) }
    requires few { number + items_among (entries_of (map entry block.now)) + 1 < 2 ^ 32 }
    ensures runs { Runs (lookup_of lookup.now) (branched (goals_of state.old.goals) (run_items (lookup_of lookup.now) (entries_of (map entry block.now)) (number + 1) (goals_of state.old.goals))) (parts_among (entries_of (map entry block.now))) state.old state.new result }
    ensures next { IfOk result (λ n. n ≡ number + items_among (entries_of (map entry block.now)) + 1) }
{
    let mut copy = state.branched(alloc)?;
    items(acts, alloc, lookup, &mut copy, block, number + 1)
}

/// A hint takes the first goal, and changes nothing.
fn hint(alloc: Global, state: &mut State, number: u32) -> Result<u32, Halt>
    requires { number + 1 < 2 ^ 32 }
    ensures runs { (l : Looked) → Runs l (hinted number (goals_of state.old.goals)) 0 state.old state.new result }
    ensures next { IfOk result (λ n. n ≡ number + 1) }
{
    if state.goals.is_empty() {
        return Err(stopped(alloc, state, number, 0, Cause::NoGoal));
    }
    Ok(number + 1)
}

/// Runs the parts of a move.
fn parts<A: Acts>(
    acts: &A,
    alloc: Global,
    lookup: &Lookup<'_>,
    state: &mut State,
    step: &MoveItem<'_>,
    number: u32,
) -> Result<(), Halt>
    requires usable { IsUsable (lookup_of lookup.now) }
    requires written { IsWritten (move_in step.now) }
    requires few { steps_of (shape step.now.form) < 2 ^ 32 }
    requires room { HaveRoom (lookup_of lookup.now) (steps_of (shape step.now.form)) (goals_of state.old.goals) }
    ensures { Runs (lookup_of lookup.now) (run_parts (lookup_of lookup.now) number (move_in step.now) (steps_of (shape step.now.form)) 0 (goals_of state.old.goals)) (steps_of (shape step.now.form)) state.old state.new result }
{
    for part in 0..part_count(&step.form) {
        match state.step(acts, alloc, step, part, lookup) {
            Ok(()) => {}
            Err(ActFault::Stop(cause)) => return Err(stopped(alloc, state, number, part, cause)),
            Err(ActFault::OutOfMemory) => return Err(Halt::OutOfMemory),
        }
    }
    Ok(())
}

/// The stop of this cause, with the goals of the block, which are taken from it.
fn stopped(alloc: Global, state: &mut State, item: u32, part: u32, cause: Cause) -> Halt
    ensures { result ≡ halt.Stop (record { item = item; part = part; cause = cause; goals = state.old.goals }) }
{
    let goals = state.taken(alloc);
    Halt::Stop(Stop {
        item,
        part,
        cause,
        goals,
    })
}

/// How a run ends whose items ran: with goals that are left, or closed.
fn ended(
    alloc: Global,
    statement: &Statement,
    lookup: &Lookup<'_>,
    state: State,
) -> Result<Outcome, AllocError>
    requires fits { AreFitting (signature lookup.now.sig.now) 0 statement.now.binders.items (formula statement.now.target) }
    requires nodes { total statement.now.binders.items (formula statement.now.target) < 2 ^ 29 }
    requires leads { Leads (lookup_of lookup.now) (frames_of state.frames) (asked statement.now ∷ []) (goals_of state.goals) }
    ensures { Ends (lookup_of lookup.now) statement.now (outcome (Ok (goals_of state.goals))) result }
{
    let State { goals, frames, .. } = state;
    if !goals.is_empty() {
        return Ok(Outcome::Unfinished { goals });
    }
    let proof = proof_of(alloc, statement, lookup, frames)?;
    Ok(Outcome::Closed(checked(alloc, statement, lookup, proof)?))
}

/// The proof that the frames of a closed run make.
#[tactic(auto, using(crate::proofs::Ending::is_proof, crate::proofs::Ending::no_none))]
fn proof_of(
    alloc: Global,
    statement: &Statement,
    lookup: &Lookup<'_>,
    frames: Items<Frame>,
) -> Result<Boxed<Proof>, AllocError>
    requires { Leads (lookup_of lookup.now) (frames_of frames) (asked statement.now ∷ []) [] }
    ensures { IfOk result (λ p. IsProof (lookup_of lookup.now) statement.now (proof p)) }
{
    match finish(alloc, frames)? {
        Some(proof) => Ok(proof),
        None => unreachable!(),
    }
}

/// The statement's formula with this proof of it, which the kernel accepts.
#[tactic(auto, using(crate::proofs::Ending::tight))]
fn checked(
    alloc: Global,
    statement: &Statement,
    lookup: &Lookup<'_>,
    proof: Boxed<Proof>,
) -> Result<Checked, AllocError>
    requires fits { AreFitting (signature lookup.now.sig.now) 0 statement.now.binders.items (formula statement.now.target) }
    requires nodes { total statement.now.binders.items (formula statement.now.target) < 2 ^ 29 }
    requires proof { IsProof (lookup_of lookup.now) statement.now (proof_in proof) }
    ensures goal { IfOk result (λ c. formula c.0 ≡ closed statement.now.binders.items (formula statement.now.target)) }
    ensures proof { IfOk result (λ c. IsProof (lookup_of lookup.now) statement.now (proof_in c.1)) }
    ensures truth { IfOk result (λ c. IsTrueByTheorems (lookup_of lookup.now) statement.now (proof_in c.1)) }
{
    let goal = statement_formula(alloc, statement)?;
    match admit(alloc, lookup.sig, lookup.theorems, goal, proof.into_inner())? {
        Some(checked) => Ok(checked),
        None => unreachable!(),
    }
}

/// How many parts a move has.
fn part_count(form: &Form<'_>) -> u32
    requires { steps_of (shape form.now) < 2 ^ 32 }
    ensures { result ≡ steps_of (shape form.now) }
{
    match form {
        Form::Intro(names) => names.len() as u32,
        Form::Rw { rules, .. } => rules.len() as u32,
        Form::Use(terms) => terms.len() as u32,
        _ => 1,
    }
}
