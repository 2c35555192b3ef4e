// What a step makes of a block.
ghost use Rattle.std.specs.Prelude.{◌≡◌, All, ◌≢◌, ◌-◌, ◌^◌, ◌∷◌, List, min, ◌<◌, [], IfOk, Some, length, slice_get};
ghost use Rattle.pg_script.specs.View.{step as move_in, shape};
ghost use Rattle.pg_moves.specs.Acts.{Act, acts_of};
ghost use Rattle.pg_moves.specs.Goals as moves;
ghost use Rattle.pg_logic.specs.Tree.{nodes_of};
ghost use Rattle.pg_moves.specs.Frames.{introduced};
ghost use Rattle.pg_moves.specs.Steps.{move_there};
ghost use Rattle.pg_goal.specs.Conditions.{IsCounted};
ghost use Rattle.pg_goal.specs.View.{goal_of, lookup_of};
ghost use Rattle.pg_reduction.specs.Doing.{IsReady};
ghost use Rattle.pg_reduction.specs.Limits.{AreOthers};
ghost use Rattle.pg_moves.specs.Measures.{all_nodes, formulas};
ghost use Rattle.pg_frames.specs.View.{frame_of, frames_of};
ghost use Rattle.pg_runs.specs.State.{introduces, goals_of};
ghost use Rattle.pg_runs.specs.Written.{IsWritten};
ghost use Rattle.pg_runs.specs.Running.{CanMove, IsReduced};

use crate::act::Acts;
use pg_frames::Frame;
use pg_goal::{Goal, Lookup};
use pg_reduction::{ActFault, Cause, Others, Reduction, first_large, goal_nodes};
use pg_script::MoveItem;
use pg_syntax::Binder;
use pg_terms::Name;
use pg_worlds::TacticName;
use sqlite_items::Items;
use std::alloc::{AllocError, Global};

/// A frame for each binder.
#[tactic(auto, using(crate::proofs::Introducing::introduced_push))]
pub fn introduced(alloc: Global, binders: &[Binder]) -> Result<Items<Frame>, AllocError>
    ensures { IfOk result (λ frames. frames_of frames ≡ introduced binders.now) }
{
    let mut frames = Items::new(alloc);
    for binder in binders {
        frames.push(introducing(binder))?;
    }
    Ok(frames)
}

/// The frame that brings a binder in.
fn introducing(binder: &Binder) -> Frame
    ensures { frame_of result ≡ introduces binder.now }
{
    match binder {
        Binder::Var(_) => Frame::UnderAlli,
        Binder::Hyp(_, _) => Frame::UnderImpi,
    }
}

/// Equal goals.
pub fn copied(alloc: Global, goals: &[Goal]) -> Result<Items<Goal>, AllocError>
    ensures { IfOk result (λ copies. copies ≡ goals.now) }
{
    let mut copies = Items::new(alloc);
    for goal in goals {
        copies.push(goal.copied(alloc)?)?;
    }
    Ok(copies)
}

/// What a part of a move makes of the first goal, before other goals of so many nodes, within the limits.
#[tactic(auto, using(crate::proofs::Carrying::stops_within, crate::proofs::Carrying::large_stops))]
pub fn reduced<A: Acts>(
    acts: &A,
    alloc: Global,
    goal: &Goal,
    others: &Others,
    step: &MoveItem<'_>,
    part: u32,
    lookup: &Lookup<'_>,
) -> Result<Reduction, ActFault>
    requires ready { IsReady (lookup_of lookup.now) (goal_of goal.now) }
    requires counted { IsCounted (lookup_of lookup.now) (goal_of goal.now) }
    requires small { All (λ a. nodes_of a < 2 ^ 29) (formulas (goal_of goal.now)) }
    requires written { IsWritten (move_in step.now) }
    requires part { part < length (acts_of step.now.head.now (shape step.now.form)) }
    ensures { (rest : List moves.Goal) (a : Act) → AreOthers rest others.now → slice_get (acts_of step.now.head.now (shape step.now.form)) part ≡ Some a → IsReduced (lookup_of lookup.now) (goal_of goal.now) rest a result }
{
    let made = acts.act(alloc, goal, step, part, lookup)?;
    match first_large(made.goals.as_slice(), others) {
        Some(cause) => Err(ActFault::Stop(cause)),
        None => Ok(made),
    }
}

/// How many goals stand behind the first one, and the nodes of all their formulas, or else the type's end, where
/// all goals have so many nodes. Takes no memory, and time linear in the first goal.
pub fn others(nodes: u64, first: &Goal, rest: &[Goal]) -> Others
    requires { nodes ≡ min (all_nodes (goal_of first.now ∷ goals_of rest.now)) (2 ^ 64 - 1) }
    ensures { AreOthers (goals_of rest.now) result }
{
    Others {
        count: rest.len() as u64,
        nodes: behind(nodes, first, rest),
    }
}

/// The nodes of the goals behind the first one. Where all nodes are told as the type's end, those are counted anew.
fn behind(nodes: u64, first: &Goal, rest: &[Goal]) -> u64
    requires { nodes ≡ min (all_nodes (goal_of first.now ∷ goals_of rest.now)) (2 ^ 64 - 1) }
    ensures { result ≡ min (all_nodes (goals_of rest.now)) (2 ^ 64 - 1) }
{
    if nodes == u64::MAX {
        return all_nodes(rest);
    }
    nodes - goal_nodes(first)
}

/// The nodes of all formulas of some goals, or else the type's end.
pub fn all_nodes(goals: &[Goal]) -> u64
    ensures { result ≡ min (all_nodes (goals_of goals.now)) (2 ^ 64 - 1) }
{
    let mut nodes: u64 = 0;
    for goal in goals {
        nodes = nodes.saturating_add(goal_nodes(goal));
    }
    nodes
}

/// Whether the word is that of a move, which is available: else the cause.
#[tactic(auto, using(crate::proofs::Named::no_move, crate::proofs::Named::is_move))]
pub fn can_move(alloc: Global, word: &str, lookup: &Lookup<'_>) -> Result<(), ActFault>
    requires { word.now ≢ [] }
    ensures { CanMove (move_there (lookup_of lookup.now) word.now) result }
{
    let Some(tactic) = TacticName::named(word) else {
        let name = Name::new(alloc, word)?;
        return Err(ActFault::Stop(Cause::NoSuchTactic { name }));
    };
    if lookup.available.has_tactic(tactic) {
        return Ok(());
    }
    let name = Name::new(alloc, word)?;
    Err(ActFault::Stop(Cause::LockedTactic { name }))
}
