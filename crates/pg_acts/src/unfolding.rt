// Predicates unfolded at the head of a formula.
ghost use Rattle.std.specs.Prelude.{◌≡◌, IfOk, length, map, option_map};
ghost use Rattle.pg_logic.specs.Kernel as logic;
ghost use Rattle.pg_moves.specs.Closing.{unfolded_within, goal_form};
ghost use Rattle.pg_moves.specs.Frames.{predis, way};
ghost use Rattle.pg_terms.specs.View.{formula};
ghost use Rattle.pg_arith.specs.View.{signature};
ghost use Rattle.pg_goal.specs.View.{goal_of, lookup_of};
ghost use Rattle.pg_frames.specs.View.{frames_of};
ghost use Rattle.pg_acts.specs.Opening.{opening};

use pg_arith::Signature;
use pg_frames::Frame;
use pg_goal::{Goal, Lookup};
use pg_reduction::boxed;
use pg_terms::Formula;
use sqlite_items::{Boxed, Items};
use std::alloc::{AllocError, Global};

/// The unfolded form of a target, and the frames that unfold it.
#[derive(Drop)]
pub struct Form {
    pub formula: Boxed<Formula>,
    pub opening: Items<Frame>,
}

/// The unfolded form of a goal's target.
pub fn target_form(alloc: Global, goal: &Goal, lookup: &Lookup<'_>) -> Result<Form, AllocError>
    ensures form { IfOk result (λ f. formula f.formula ≡ goal_form (lookup_of lookup.now) (goal_of goal.now)) }
    ensures opening { IfOk result (λ f. frames_of f.opening ≡ opening (lookup_of lookup.now) (goal_of goal.now)) }
{
    let Unfolded { form, way } = unfold(alloc, lookup.sig, goal.target.get())?;
    let opening = opening(alloc, way.len())?;
    Ok(Form {
        formula: form,
        opening,
    })
}

/// The frames that unfold so many predicates in the target.
fn opening(alloc: Global, count: usize) -> Result<Items<Frame>, AllocError>
    ensures { IfOk result (λ frames. frames_of frames ≡ predis count) }
{
    let mut frames = Items::new(alloc);
    for _ in 0..count {
        frames.push(Frame::UnderPredi)?;
    }
    Ok(frames)
}

/// An unfolded formula, and the formulas on the way to it.
#[derive(Drop)]
pub struct Unfolded {
    pub form: Boxed<Formula>,
    pub way: Items<Boxed<Formula>>,
}

/// A formula with the predicate at its head unfolded, until none stands there.
pub fn unfold(alloc: Global, sig: &Signature, a: &Formula) -> Result<Unfolded, AllocError>
    ensures form { IfOk result (λ u. formula u.form ≡ unfolded_within (length (signature sig.now).predicates) (signature sig.now) (formula a.now)) }
    ensures way { IfOk result (λ u. map formula u.way ≡ way (length (signature sig.now).predicates) (signature sig.now) (formula a.now)) }
{
    let mut form = boxed(alloc, a)?;
    let mut way = Items::new(alloc);
    let mut left = sig.predicate_count();
    while left > 0 {
        match body(alloc, sig, form.get())? {
            None => return Ok(Unfolded { form, way }),
            Some(next) => {
                way.push(form)?;
                form = next;
                left -= 1;
            }
        }
    }
    Ok(Unfolded { form, way })
}

/// What the predicate at the head of a formula says of its arguments.
fn body(alloc: Global, sig: &Signature, a: &Formula) -> Result<Option<Boxed<Formula>>, AllocError>
    ensures { IfOk result (λ o. option_map formula o ≡ logic.unfolded (signature sig.now) (formula a.now)) }
{
    match a {
        Formula::Pred(p, ts) => {
            if *p >= sig.predicate_count() {
                return Ok(None);
            }
            let body = sig.predicate_body(*p);
            let at_terms = body.substituted(alloc, ts.as_slice())?;
            Ok(Some(Boxed::new(alloc, at_terms)?))
        }
        _ => Ok(None),
    }
}
