// `revert`.
ghost use Rattle.std.specs.Prelude.{◌≡◌, ◌≢◌, ◌<◌, ◌^◌, ◌∷◌, [], All, Ok, IfOk, length, map};
ghost use Rattle.pg_base.specs.Tokens.{word};
ghost use Rattle.pg_logic.specs.Kernel as logic;
ghost use Rattle.pg_logic.specs.Tree as tree;
ghost use Rattle.pg_kernel.specs.View.{proof};
ghost use Rattle.pg_terms.specs.View.{formula};
ghost use Rattle.pg_moves.specs.Acts as act;
ghost use Rattle.pg_moves.specs.Assuming as moves;
ghost use Rattle.pg_moves.specs.Frames as frames;
ghost use Rattle.pg_goal.specs.View.{goal_of, lookup_of};
ghost use Rattle.pg_reduction.specs.Doing.{IsReady, Does, Makes};
ghost use Rattle.pg_reduction.specs.Limits.{hyp_formula};
ghost use Rattle.pg_reduction.specs.Named.{found_of};
ghost use Rattle.pg_inducts.specs.Carrying.{IsSmall, IsClosable};
ghost use Rattle.pg_inducts.specs.Framed.{reverting};

use crate::carrying::{Taken, implication, take_along, without_held};
use pg_base::Token;
use pg_frames::Frame;
use pg_goal::{Goal, Lookup};
use pg_kernel::Proof;
use pg_reduction::{ActFault, Cause, Found, Reduction, boxed, hyp_count, hypothesis_of, one};
use pg_terms::{Formula, Name, Term};
use sqlite_items::{Boxed, Items};
use std::alloc::{AllocError, Global};

/// `revert x`. The hypothesis of this name dies and stands before the target. Where there is none
/// the variable of this name dies with the live hypotheses that hold it: these stand before the
/// target, and `∀ x` before them. Each formula has fewer than 2^32 nodes.
///
/// It stops by `NoSuchName` where neither is there.
pub fn revert(
    alloc: Global,
    goal: &Goal,
    name: &Token<'_>,
    lookup: &Lookup<'_>,
) -> Result<Reduction, ActFault>
    requires ready { IsReady (lookup_of lookup.now) (goal_of goal.now) }
    requires name { name.now.text.now ≢ [] }
    requires hyps { All IsSmall (map hyp_formula goal.now.hyps) }
    requires target { IsSmall (formula goal.now.target) }
    ensures { Does (lookup_of lookup.now) (goal_of goal.now) (act.Revert (word name.now)) result }
{
    match hypothesis_of(goal, name.text) {
        Some(f) => reverted_hypothesis(alloc, goal, &f),
        None => match goal.variable_named(name.text) {
            Some(k) => reverted_variable(alloc, goal, name, k),
            None => Err(ActFault::Stop(Cause::NoSuchName { at: name.at })),
        },
    }
}

fn reverted_hypothesis(alloc: Global, goal: &Goal, f: &Found<'_>) -> Result<Reduction, ActFault>
    ensures { Makes (Ok (moves.reverted_hyp (goal_of goal.now) (found_of f.now) ∷ [])) (frames.give (formula f.now.hyp.now.formula) f.now.number ∷ []) result }
{
    let a = boxed(alloc, f.hyp.formula.get())?;
    let target = implication(alloc, a, boxed(alloc, goal.target.get())?)?;
    let next = goal.aimed(alloc, target)?.without_hyp(alloc, f.number)?;
    let last = Frame::Give(boxed(alloc, f.hyp.formula.get())?, f.number);
    Ok(one(alloc, Items::new(alloc), last, next)?)
}

fn reverted_variable(
    alloc: Global,
    goal: &Goal,
    name: &Token<'_>,
    k: u32,
) -> Result<Reduction, ActFault>
    requires few { length goal.now.hyps < 2 ^ 32 }
    requires name { name.now.text.now ≢ [] }
    requires hyps { All IsClosable (map hyp_formula goal.now.hyps) }
    requires target { IsClosable (formula goal.now.target) }
    ensures { Makes (Ok (moves.reverted_var (goal_of goal.now) name.now.text.now k ∷ [])) (reverting (goal_of goal.now) name.now.text.now k) result }
{
    let Taken { body, gives, .. } = take_along(alloc, goal, k)?;
    let d = instance(alloc, body.get(), k, hyp_count(goal))?;
    let target = universal(alloc, Name::new(alloc, name.text)?, body)?;
    let next = without_held(alloc, goal, k)?.aimed(alloc, boxed(alloc, target.get())?)?;
    Ok(one(alloc, gives, Frame::Change(target, d), next)?)
}

/// The universal formula of a body.
pub fn universal(
    alloc: Global,
    name: Name,
    body: Boxed<Formula>,
) -> Result<Boxed<Formula>, AllocError>
    ensures { IfOk result (λ r. formula r ≡ tree.all name (formula body)) }
{
    Boxed::new(alloc, Formula::All(name, body))
}

/// The instance of a universal formula at variable `k`, from hypothesis `i`, which says it.
pub fn instance(alloc: Global, body: &Formula, k: u32, i: u32) -> Result<Boxed<Proof>, AllocError>
    ensures { IfOk result (λ d. proof d ≡ logic.alle (formula body.now) (tree.free k) (logic.hyp i)) }
{
    let known = Boxed::new(alloc, Proof::Hyp(i))?;
    let body = boxed(alloc, body)?;
    Boxed::new(alloc, Proof::Alle(body.into_inner(), Term::Free(k), known))
}
