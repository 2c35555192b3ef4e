// What an act makes of a goal.
ghost use Rattle.std.specs.Prelude.{◌≡◌, ◌<◌, ◌^◌, ◌++◌, ◌∷◌, [], IfOk, length};
ghost use Rattle.pg_moves.specs.Frames as moves;
ghost use Rattle.pg_kernel.specs.View.{proof};
ghost use Rattle.pg_goal.specs.View.{goal_of};
ghost use Rattle.pg_frames.specs.View.{frame_of, frames_of};
ghost use Rattle.pg_reduction.specs.Doing.{Has};

use pg_frames::Frame;
use pg_goal::Goal;
use pg_kernel::Proof;
use sqlite_items::{Boxed, Items};
use std::alloc::{AllocError, Global};

/// The new goals of an act, and the frames of its proof: they make a proof of the old goal from
/// proofs of the new ones.
#[derive(Drop)]
pub struct Reduction {
    pub goals: Items<Goal>,
    pub frames: Items<Frame>,
}

/// No new goal: this is the proof.
pub fn shut(alloc: Global, p: Proof) -> Result<Reduction, AllocError>
    ensures { IfOk result (Has [] (moves.whole (proof p) ∷ [])) }
{
    let p = Boxed::new(alloc, p)?;
    let mut frames = Items::new(alloc);
    frames.push(Frame::Whole(p))?;
    Ok(Reduction {
        goals: Items::new(alloc),
        frames,
    })
}

/// One new goal, by a frame behind others.
pub fn one(
    alloc: Global,
    frames: Items<Frame>,
    last: Frame,
    goal: Goal,
) -> Result<Reduction, AllocError>
    ensures { IfOk result (Has (goal_of goal ∷ []) (frames_of frames ++ frame_of last ∷ [])) }
{
    let mut frames = frames;
    frames.push(last)?;
    let mut goals = Items::new(alloc);
    goals.push(goal)?;
    Ok(Reduction { goals, frames })
}

/// Two new goals, by a frame behind others.
pub fn two(
    alloc: Global,
    frames: Items<Frame>,
    last: Frame,
    goal: Goal,
    other: Goal,
) -> Result<Reduction, AllocError>
    ensures { IfOk result (Has (goal_of goal ∷ goal_of other ∷ []) (frames_of frames ++ frame_of last ∷ [])) }
{
    let mut made = one(alloc, frames, last, goal)?;
    made.goals.push(other)?;
    Ok(made)
}

/// How many variables a goal has.
#[tactic(auto, using(crate::proofs::Parts::lengths))]
pub fn var_count(goal: &Goal) -> u32
    requires { length goal.now.vars < 2 ^ 32 }
    ensures { result ≡ length (goal_of goal.now).vars }
{
    goal.vars.len() as u32
}

/// How many hypotheses a goal has.
#[tactic(auto, using(crate::proofs::Parts::lengths))]
pub fn hyp_count(goal: &Goal) -> u32
    requires { length goal.now.hyps < 2 ^ 32 }
    ensures { result ≡ length (goal_of goal.now).hyps }
{
    goal.hyps.len() as u32
}
