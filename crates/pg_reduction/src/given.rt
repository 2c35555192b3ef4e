// What expressions give.
ghost use Rattle.std.specs.Prelude.{◌≡◌, IfOk};
ghost use Rattle.pg_kernel.specs.View.{proof};
ghost use Rattle.pg_script.specs.View.{expression};
ghost use Rattle.pg_moves.specs.Closing.{given};
ghost use Rattle.pg_goal.specs.Conditions.{IsCounted, AreTexts, IsProved};
ghost use Rattle.pg_goal.specs.View.{goal_of, lookup_of};
ghost use Rattle.pg_reduction.specs.Doing.{IsReady, Yields};
ghost use Rattle.pg_reduction.specs.Giving.{fault_cause, said, stop_cause};

use crate::cause::{ActFault, Cause, Measure};
use pg_goal::{ExprFault, Given, Goal, Lookup, gives};
use pg_script::Expr;
use std::alloc::Global;

/// What an expression gives, with its proof. It stops by the cause why it gives nothing.
pub fn given_there(
    alloc: Global,
    goal: &Goal,
    expr: &Expr<'_>,
    lookup: &Lookup<'_>,
) -> Result<Given, ActFault>
    requires ready { IsReady (lookup_of lookup.now) (goal_of goal.now) }
    requires counted { IsCounted (lookup_of lookup.now) (goal_of goal.now) }
    requires texts { AreTexts (expression expr.now).args }
    ensures yields { Yields said (given (lookup_of lookup.now) (goal_of goal.now) (expression expr.now)) result }
    ensures proved { IfOk result (λ x. IsProved (lookup_of lookup.now) (goal_of goal.now) (said x) (proof x.proof)) }
{
    match gives(alloc, goal, expr, lookup) {
        Ok(given) => Ok(given),
        Err(fault) => Err(stop(fault)),
    }
}

/// The cause that an expression gives nothing, or want of memory.
fn stop(fault: ExprFault) -> ActFault
    ensures { stop_cause result ≡ fault_cause fault }
{
    let cause = match fault {
        ExprFault::NoSuchName { at } => Cause::NoSuchName { at },
        ExprFault::Locked { theorem, .. } => Cause::LockedTheorem { theorem },
        ExprFault::WrongArgument { at } => Cause::WrongArgument { at },
        ExprFault::TooManyArguments { at } => Cause::WrongArgument { at },
        ExprFault::TooLarge { size } => Cause::TooLarge {
            measure: Measure::Nodes,
            reached: size,
        },
        ExprFault::OutOfMemory => return ActFault::OutOfMemory,
    };
    ActFault::Stop(cause)
}
