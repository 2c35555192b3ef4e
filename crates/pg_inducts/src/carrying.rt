// What a variable carries along: the live hypotheses that hold it.
ghost use Rattle.std.specs.Prelude.{◌≡◌, ◌≤◌, ◌<◌, ◌^◌, ◌++◌, ◌∷◌, [], All, IfOk, length, map};
ghost use Rattle.pg_logic.specs.Tree as tree;
ghost use Rattle.pg_terms.specs.View.{term, formula};
ghost use Rattle.pg_moves.specs.Frames as frames;
ghost use Rattle.pg_moves.specs.Goals.{aimed};
ghost use Rattle.pg_moves.specs.Holding.{carried, before, without_held, put_for};
ghost use Rattle.pg_moves.specs.Inducting.{with_copies};
ghost use Rattle.pg_goal.specs.View.{goal_of, hyp_of};
ghost use Rattle.pg_frames.specs.View.{frames_of};
ghost use Rattle.pg_reduction.specs.Limits.{hyp_formula};
ghost use Rattle.pg_inducts.specs.Carrying.{IsClosable, let_go};

use crate::holding::holds_var;
use pg_frames::Frame;
use pg_goal::{Goal, Hyp, Shared};
use pg_reduction::boxed;
use pg_terms::{Formula, Term};
use sqlite_items::{Boxed, Items};
use std::alloc::{AllocError, Global};

/// What a variable takes along before the target, closed over it, the frames that give it back, and
/// how many hypotheses these are.
#[derive(Drop)]
pub struct Taken {
    pub body: Boxed<Formula>,
    pub gives: Items<Frame>,
    pub count: u32,
}

/// The live hypotheses that hold variable `k`, from the last one on, before the target.
pub fn take_along(alloc: Global, goal: &Goal, k: u32) -> Result<Taken, AllocError>
    requires few { length goal.now.hyps < 2 ^ 32 }
    requires hyps { All IsClosable (map hyp_formula goal.now.hyps) }
    requires target { IsClosable (formula goal.now.target) }
    ensures body { IfOk result (λ t. formula t.body ≡ tree.closed_over_formula k (before (carried k (goal_of goal.now)) (formula goal.now.target))) }
    ensures gives { IfOk result (λ t. frames_of t.gives ≡ frames.gives_all (carried k (goal_of goal.now))) }
    ensures count { IfOk result (λ t. t.count ≡ length (carried k (goal_of goal.now))) }
{
    let hyps = goal.hyps.as_slice();
    let mut body = closed(alloc, goal.target.get(), k)?;
    let mut gives = Items::new(alloc);
    let mut count: u32 = 0;
    let mut left = hyps.len();
    while left > 0 {
        left -= 1;
        let hyp = &hyps[left];
        if hyp.live && holds_var(k, hyp.formula.get()) {
            gives.push(Frame::Give(boxed(alloc, hyp.formula.get())?, left as u32))?;
            body = implication(alloc, closed(alloc, hyp.formula.get(), k)?, body)?;
            count += 1;
        }
    }
    Ok(Taken { body, gives, count })
}

/// A formula closed over variable `k`.
pub fn closed(alloc: Global, a: &Formula, k: u32) -> Result<Boxed<Formula>, AllocError>
    requires { IsClosable (formula a.now) }
    ensures { IfOk result (λ r. formula r ≡ tree.closed_over_formula k (formula a.now)) }
{
    Boxed::new(alloc, a.closed_over(alloc, k)?)
}

/// A formula opened by a term.
pub fn opened(alloc: Global, a: &Formula, t: &Term) -> Result<Boxed<Formula>, AllocError>
    ensures { IfOk result (λ r. formula r ≡ tree.opened_formula (term t.now) (formula a.now)) }
{
    Boxed::new(alloc, a.opened(alloc, t)?)
}

/// A formula with a term for variable `k`.
pub fn put_for(alloc: Global, a: &Formula, k: u32, t: &Term) -> Result<Boxed<Formula>, AllocError>
    requires { IsClosable (formula a.now) }
    ensures { IfOk result (λ r. formula r ≡ put_for k (term t.now) (formula a.now)) }
{
    let body = closed(alloc, a, k)?;
    opened(alloc, body.get(), t)
}

/// An implication.
pub fn implication(
    alloc: Global,
    a: Boxed<Formula>,
    b: Boxed<Formula>,
) -> Result<Boxed<Formula>, AllocError>
    ensures { IfOk result (λ r. formula r ≡ tree.imp (formula a) (formula b)) }
{
    Boxed::new(alloc, Formula::Imp(a, b))
}

/// A copy of the goal in which variable `k` is dead, and the live hypotheses that hold it are.
pub fn without_held(alloc: Global, goal: &Goal, k: u32) -> Result<Goal, AllocError>
    ensures { IfOk result (λ g. goal_of g ≡ without_held k (goal_of goal.now)) }
{
    let hyps = released(alloc, goal.hyps.as_slice(), k)?;
    let copy = goal.copied(alloc)?;
    let mut next = copy.without_var(alloc, k)?;
    next.hyps = hyps;
    Ok(next)
}

/// The same hypotheses, where the live ones that hold variable `k` are dead.
fn released(alloc: Global, hyps: &[Hyp], k: u32) -> Result<Items<Hyp>, AllocError>
    ensures { IfOk result (λ hs. map hyp_of hs ≡ map (let_go k) (map hyp_of hyps.now)) }
{
    let mut released = Items::new(alloc);
    for hyp in hyps {
        let live = hyp.live && !holds_var(k, hyp.formula.get());
        let formula = hyp.formula.shared()?;
        let name = hyp.name.copied(alloc)?;
        released.push(Hyp {
            name,
            formula,
            live,
        })?;
    }
    Ok(released)
}

/// What stands in `rest`, then copies of the hypotheses of `goal` that hold variable `k`, and the
/// target of `goal`: in these there is a term for the variable.
pub fn at_term(alloc: Global, goal: &Goal, k: u32, t: &Term, rest: Goal) -> Result<Goal, AllocError>
    requires hyps { All IsClosable (map hyp_formula goal.now.hyps) }
    requires target { IsClosable (formula goal.now.target) }
    ensures { IfOk result (λ g. goal_of g ≡ aimed (put_for k (term t.now) (formula goal.now.target)) (with_copies k (term t.now) (carried k (goal_of goal.now)) (goal_of rest))) }
{
    let target = Shared::new(alloc, put_for(alloc, goal.target.get(), k, t)?)?;
    let mut next = with_copies(alloc, goal, k, t, rest)?;
    next.target = target;
    Ok(next)
}

/// What stands in `rest`, then copies of the hypotheses of `goal` that hold variable `k`, with a
/// term for it.
fn with_copies(alloc: Global, goal: &Goal, k: u32, t: &Term, rest: Goal) -> Result<Goal, AllocError>
    requires { All IsClosable (map hyp_formula goal.now.hyps) }
    ensures { IfOk result (λ g. goal_of g ≡ with_copies k (term t.now) (carried k (goal_of goal.now)) (goal_of rest)) }
{
    let mut next = rest;
    for hyp in goal.hyps.as_slice() {
        if hyp.live && holds_var(k, hyp.formula.get()) {
            let copy = put_for(alloc, hyp.formula.get(), k, t)?;
            next = next.with_hyp(alloc, hyp.name.copied(alloc)?, copy)?;
        }
    }
    Ok(next)
}
