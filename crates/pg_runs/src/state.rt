// A block of goals, and the proof in the making.
ghost use Rattle.std.specs.Prelude.{◌≡◌, ◌-◌, ◌^◌, min, map};
ghost use Rattle.pg_moves.specs.Measures.{all_nodes};
ghost use Rattle.pg_goal.specs.View.{goal_of};

use crate::act::Acts;
use crate::moving::{all_nodes, can_move, copied, introduced, others, reduced};
use pg_frames::Frame;
use pg_goal::{Goal, Lookup, initial};
use pg_reduction::{ActFault, Cause, Reduction, goal_nodes};
use pg_script::MoveItem;
use pg_syntax::Statement;
use sqlite_items::Items;
use std::alloc::{AllocError, Global};

/// The goals of a block that are left, the first one first, with the frames of the moves that led to
/// them: a proof in the making.
#[derive(Drop)]
pub struct State {
    pub(crate) goals: Items<Goal>,
    pub(crate) frames: Items<Frame>,
    // The nodes of all formulas of the goals, or else the type's end: so a step measures only the goals that it changes.
    pub(crate) nodes: u64,
    ghost counted: { nodes ≡ min (all_nodes (map goal_of goals)) (2 ^ 64 - 1) },
}

impl State {
    ghost use Rattle.std.specs.Prelude.{◌++◌, ◌∷◌, ◌<◌, [], IfOk, OnOk, length, drop};
    ghost use Rattle.pg_script.specs.View.{step as move_in, shape};
    ghost use Rattle.pg_moves.specs.Acts.{acts_of};
    ghost use Rattle.pg_terms.specs.View.{formula};
    ghost use Rattle.pg_moves.specs.First.{first_goal};
    ghost use Rattle.pg_moves.specs.Frames.{introduced};
    ghost use Rattle.pg_moves.specs.Steps.{step as step_of};
    ghost use Rattle.pg_goal.specs.View.{lookup_of};
    ghost use Rattle.pg_frames.specs.View.{frames_of};
    ghost use Rattle.pg_runs.specs.State.{goals_of, IsUsable, HaveRoom};
    ghost use Rattle.pg_runs.specs.Written.{IsWritten};
    ghost use Rattle.pg_runs.specs.Running.{Steps};

    /// The first goal of a statement, with the frames that bring its variables and hypotheses in. It
    /// fails only for want of memory.
    pub fn new(alloc: Global, statement: &Statement) -> Result<State, AllocError>
        ensures goals { IfOk result (λ s. goals_of s.goals ≡ first_goal statement.now.binders.items (formula statement.now.target) ∷ []) }
        ensures frames { IfOk result (λ s. frames_of s.frames ≡ introduced statement.now.binders.items) }
    {
        let frames = introduced(alloc, statement.binders.as_slice())?;
        let mut state = State::of(alloc, initial(alloc, statement)?)?;
        state.frames = frames;
        Ok(state)
    }

    /// One goal, and no frame. It fails only for want of memory.
    pub(crate) fn of(alloc: Global, goal: Goal) -> Result<State, AllocError>
        ensures goals { IfOk result (λ s. s.goals ≡ goal ∷ []) }
        ensures frames { IfOk result (λ s. s.frames ≡ []) }
    {
        let nodes = goal_nodes(&goal);
        let mut goals = Items::new(alloc);
        goals.push(goal)?;
        Ok(State {
            goals,
            frames: Items::new(alloc),
            nodes,
        })
    }

    /// The goals that are left, the first one first. Takes no memory.
    pub fn goals(&self) -> &[Goal]
        ensures { result.now ≡ self.now.goals }
    {
        self.goals.as_slice()
    }

    /// Does a part of a move on the first goal, whose new goals stand in its place then. After a stop the state is as
    /// before.
    pub fn step<A: Acts>(
        &mut self,
        acts: &A,
        alloc: Global,
        step: &MoveItem<'_>,
        part: u32,
        lookup: &Lookup<'_>,
    ) -> Result<(), ActFault>
        requires usable { IsUsable (lookup_of lookup.now) }
        requires part { part < length (acts_of step.now.head.now (shape step.now.form)) }
        requires written { IsWritten (move_in step.now) }
        requires room { HaveRoom (lookup_of lookup.now) 1 (goals_of self.old.goals) }
        ensures { Steps (lookup_of lookup.now) (step_of (lookup_of lookup.now) (goals_of self.old.goals) (move_in step.now) part) self.old self.new result }
    {
        can_move(alloc, step.head, lookup)?;
        let [goal, rest @ ..] = self.goals.as_slice() else {
            return Err(ActFault::Stop(Cause::NoGoal));
        };
        let others = others(self.nodes, goal, rest);
        let made = reduced(acts, alloc, goal, &others, step, part, lookup)?;
        Ok(self.advance(alloc, made, others.nodes)?)
    }

    /// Puts new goals in the place of the first one, and their frames behind the others. The goals behind it have
    /// so many nodes.
    fn advance(&mut self, alloc: Global, made: Reduction, behind: u64) -> Result<(), AllocError>
        requires some { 0 < length self.old.goals }
        requires behind { behind ≡ min (all_nodes (goals_of (drop 1 self.old.goals))) (2 ^ 64 - 1) }
        ensures frames { OnOk result (self.new.frames ≡ self.old.frames ++ made.frames) }
        ensures goals { OnOk result (self.new.goals ≡ made.goals ++ drop 1 self.old.goals) }
    {
        let Reduction { goals, frames } = made;
        self.frames.append(frames)?;
        let nodes = all_nodes(goals.as_slice()).saturating_add(behind);
        let mut rest = self.taken(alloc);
        let _ = rest.remove(0);
        let mut next = goals;
        next.append(rest)?;
        self.goals = next;
        self.nodes = nodes;
        Ok(())
    }

    /// All goals, which the block has no more.
    pub(crate) fn taken(&mut self, alloc: Global) -> Items<Goal>
        ensures goals { result ≡ self.old.goals }
        ensures frames { self.new.frames ≡ self.old.frames }
    {
        self.nodes = 0;
        std::mem::replace(&mut self.goals, Items::new(alloc))
    }

    /// Takes the first goal off, which these frames close.
    pub(crate) fn close_first(&mut self, frames: Items<Frame>) -> Result<(), AllocError>
        requires { 0 < length self.old.goals }
        ensures frames { OnOk result (self.new.frames ≡ self.old.frames ++ frames) }
        ensures goals { OnOk result (self.new.goals ≡ drop 1 self.old.goals) }
    {
        self.frames.append(frames)?;
        let [first, rest @ ..] = self.goals.as_slice() else {
            unreachable!();
        };
        let nodes = others(self.nodes, first, rest).nodes;
        let _ = self.goals.remove(0);
        self.nodes = nodes;
        Ok(())
    }

    /// A copy of the goals, with no frame.
    pub(crate) fn branched(&self, alloc: Global) -> Result<State, AllocError>
        ensures goals { IfOk result (λ s. s.goals ≡ self.now.goals) }
        ensures frames { IfOk result (λ s. s.frames ≡ []) }
    {
        Ok(State {
            goals: copied(alloc, self.goals.as_slice())?,
            frames: Items::new(alloc),
            nodes: self.nodes,
        })
    }
}
