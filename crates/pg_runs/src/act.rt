// The acts that moves are made of.
ghost use Rattle.std.specs.Prelude.{◌≡◌, ◌<◌, ◌^◌, All, Some, length, slice_get};
ghost use Rattle.pg_logic.specs.Tree.{nodes_of};
ghost use Rattle.pg_script.specs.View.{step as move_in, shape};
ghost use Rattle.pg_moves.specs.Acts.{Act, acts_of};
ghost use Rattle.pg_moves.specs.Measures.{formulas};
ghost use Rattle.pg_goal.specs.Conditions.{IsCounted};
ghost use Rattle.pg_goal.specs.View.{goal_of, lookup_of};
ghost use Rattle.pg_reduction.specs.Doing.{DoesWithin, IsReady};
ghost use Rattle.pg_runs.specs.Written.{IsWritten};

use pg_goal::{Goal, Lookup};
use pg_reduction::{ActFault, Reduction};
use pg_script::MoveItem;
use std::alloc::Global;

/// What the parts of moves do. A run takes it as a table, and knows no move itself: so one more move is one more
/// act of the table, and no run is proved anew for it.
pub trait Acts {
    /// What this part of a move makes of a goal: new goals with the frames of their proof, or the cause by which it stops
    /// ("The table" in docs/MOVES.md). Where the new goals would pass a limit, it may stop by that limit itself, before
    /// they are made. The move has the part. Want of memory is `OutOfMemory`.
    fn act(
        &self,
        alloc: Global,
        goal: &Goal,
        step: &MoveItem<'_>,
        part: u32,
        lookup: &Lookup<'_>,
    ) -> Result<Reduction, ActFault>
        requires ready { IsReady (lookup_of lookup.now) (goal_of goal.now) }
        requires counted { IsCounted (lookup_of lookup.now) (goal_of goal.now) }
        requires small { All (λ a. nodes_of a < 2 ^ 29) (formulas (goal_of goal.now)) }
        requires written { IsWritten (move_in step.now) }
        requires part { part < length (acts_of step.now.head.now (shape step.now.form)) }
        ensures { (a : Act) → slice_get (acts_of step.now.head.now (shape step.now.form)) part ≡ Some a → DoesWithin (lookup_of lookup.now) (goal_of goal.now) a result };
}
