// The acts on the form of the target.
ghost use Rattle.std.specs.Prelude.{◌≡◌, ◌≢◌, ◌≤◌, ◌<◌, ◌^◌, ◌++◌, ◌∷◌, [], All, Ok, IfOk, length};
ghost use Rattle.pg_base.specs.Spans.{IsTokenText};
ghost use Rattle.pg_base.specs.Tokens.{Word as Lexeme, word};
ghost use Rattle.pg_logic.specs.Kernel as logic;
ghost use Rattle.pg_logic.specs.Tree as tree;
ghost use Rattle.pg_script.specs.View.{part};
ghost use Rattle.pg_terms.specs.View.{term, formula};
ghost use Rattle.pg_moves.specs.Acts as act;
ghost use Rattle.pg_moves.specs.Causes.{SidesDiffer};
ghost use Rattle.pg_moves.specs.Closing.{reflexivity, goal_form, intro_of, left_of, right_of, both_of, witness_of};
ghost use Rattle.pg_moves.specs.Frames as moves;
ghost use Rattle.pg_moves.specs.Framing.{intro_frame};
ghost use Rattle.pg_moves.specs.Goals.{aimed, with_hyp, with_var};
ghost use Rattle.pg_goal.specs.View.{goal_of, lookup_of};
ghost use Rattle.pg_frames.specs.View.{frames_of};
ghost use Rattle.pg_reduction.specs.Doing.{IsReady, Does, DoesWithin, Has, Makes, MakesWithin};
ghost use Rattle.pg_acts.specs.Opening.{opening};
ghost use Rattle.pg_reduction.specs.View.{cause_of};

use crate::unfolding::{Form, target_form};
use pg_base::Token;
use pg_frames::Frame;
use pg_goal::{Goal, Lookup, opened_size};
use pg_kernel::Proof;
use pg_reduction::{
    ActFault, Cause, Reduction, boxed, given_name, large_nodes, one, shut, target_limit,
    term_there, two, var_count,
};
use pg_script::Piece;
use pg_terms::{Formula, Name, Term};
use sqlite_items::{Boxed, Items};
use std::alloc::{AllocError, Global};

/// `rfl`: no goal, where the two sides of the target are one term.
///
/// It stops by `WrongShape` where the target is no equation, then by `SidesDiffer`.
pub fn rfl(alloc: Global, goal: &Goal, lookup: &Lookup<'_>) -> Result<Reduction, ActFault>
    requires { IsReady (lookup_of lookup.now) (goal_of goal.now) }
    ensures { Does (lookup_of lookup.now) (goal_of goal.now) act.Rfl result }
{
    reflexivity(alloc, goal)
}

fn reflexivity(alloc: Global, goal: &Goal) -> Result<Reduction, ActFault>
    ensures { Makes (reflexivity (goal_of goal.now).target) (moves.whole logic.reflexive ∷ []) result }
{
    match goal.target.get() {
        Formula::Eq(s, t) => {
            if s.same(t) {
                Ok(shut(alloc, Proof::Refl)?)
            } else {
                Err(ActFault::Stop(sides_differ(alloc, s, t)?))
            }
        }
        _ => Err(ActFault::Stop(Cause::WrongShape)),
    }
}

/// The cause that tells two sides.
fn sides_differ(alloc: Global, s: &Term, t: &Term) -> Result<Cause, AllocError>
    ensures { IfOk result (λ c. cause_of c ≡ SidesDiffer (term s.now) (term t.now)) }
{
    let left = Boxed::new(alloc, s.copied(alloc)?)?;
    let right = Boxed::new(alloc, t.copied(alloc)?)?;
    Ok(Cause::SidesDiffer { left, right })
}

/// `exfalso`: the target becomes `False`.
pub fn exfalso(alloc: Global, goal: &Goal, lookup: &Lookup<'_>) -> Result<Reduction, ActFault>
    requires { IsReady (lookup_of lookup.now) (goal_of goal.now) }
    ensures { Does (lookup_of lookup.now) (goal_of goal.now) act.Exfalso result }
{
    to_falsum(alloc, goal)
}

fn to_falsum(alloc: Global, goal: &Goal) -> Result<Reduction, ActFault>
    ensures { Makes (Ok (aimed tree.falsum (goal_of goal.now) ∷ [])) (moves.under_fale ∷ []) result }
{
    let next = goal.aimed(alloc, Boxed::new(alloc, Formula::Falsum)?)?;
    Ok(one(alloc, Items::new(alloc), Frame::UnderFale, next)?)
}

/// `left`: the left side of the target, a disjunction when it is unfolded. Else it stops by
/// `WrongShape`.
pub fn left(alloc: Global, goal: &Goal, lookup: &Lookup<'_>) -> Result<Reduction, ActFault>
    requires { IsReady (lookup_of lookup.now) (goal_of goal.now) }
    ensures { Does (lookup_of lookup.now) (goal_of goal.now) act.Left result }
{
    left_side(alloc, goal, lookup)
}

fn left_side(alloc: Global, goal: &Goal, lookup: &Lookup<'_>) -> Result<Reduction, ActFault>
    ensures { Makes (left_of (goal_of goal.now) (goal_form (lookup_of lookup.now) (goal_of goal.now))) (opening (lookup_of lookup.now) (goal_of goal.now) ++ moves.under_orl ∷ []) result }
{
    let Form { formula, opening } = target_form(alloc, goal, lookup)?;
    match formula.get() {
        Formula::Or(a, _) => {
            let next = goal.aimed(alloc, boxed(alloc, a.get())?)?;
            Ok(one(alloc, opening, Frame::UnderOrl, next)?)
        }
        _ => Err(ActFault::Stop(Cause::WrongShape)),
    }
}

/// `right`: the right side of the target, a disjunction when it is unfolded. Else it stops by
/// `WrongShape`.
pub fn right(alloc: Global, goal: &Goal, lookup: &Lookup<'_>) -> Result<Reduction, ActFault>
    requires { IsReady (lookup_of lookup.now) (goal_of goal.now) }
    ensures { Does (lookup_of lookup.now) (goal_of goal.now) act.Right result }
{
    right_side(alloc, goal, lookup)
}

fn right_side(alloc: Global, goal: &Goal, lookup: &Lookup<'_>) -> Result<Reduction, ActFault>
    ensures { Makes (right_of (goal_of goal.now) (goal_form (lookup_of lookup.now) (goal_of goal.now))) (opening (lookup_of lookup.now) (goal_of goal.now) ++ moves.under_orr ∷ []) result }
{
    let Form { formula, opening } = target_form(alloc, goal, lookup)?;
    match formula.get() {
        Formula::Or(_, b) => {
            let next = goal.aimed(alloc, boxed(alloc, b.get())?)?;
            Ok(one(alloc, opening, Frame::UnderOrr, next)?)
        }
        _ => Err(ActFault::Stop(Cause::WrongShape)),
    }
}

/// `constructor`: both sides of the target, a conjunction when it is unfolded, a goal each. Else it
/// stops by `WrongShape`.
pub fn constructor(alloc: Global, goal: &Goal, lookup: &Lookup<'_>) -> Result<Reduction, ActFault>
    requires { IsReady (lookup_of lookup.now) (goal_of goal.now) }
    ensures { Does (lookup_of lookup.now) (goal_of goal.now) act.Constructor result }
{
    both_sides(alloc, goal, lookup)
}

fn both_sides(alloc: Global, goal: &Goal, lookup: &Lookup<'_>) -> Result<Reduction, ActFault>
    ensures { Makes (both_of (goal_of goal.now) (goal_form (lookup_of lookup.now) (goal_of goal.now))) (opening (lookup_of lookup.now) (goal_of goal.now) ++ moves.pair ∷ []) result }
{
    let Form { formula, opening } = target_form(alloc, goal, lookup)?;
    match formula.get() {
        Formula::And(a, b) => {
            let first = goal.aimed(alloc, boxed(alloc, a.get())?)?;
            let second = goal.aimed(alloc, boxed(alloc, b.get())?)?;
            Ok(two(alloc, opening, Frame::Pair, first, second)?)
        }
        _ => Err(ActFault::Stop(Cause::WrongShape)),
    }
}

/// `intro x`: the variable of a universal target, or the left side of an implication as a
/// hypothesis, when it is unfolded; it is called by the name.
///
/// It stops by `WrongShape` where the target has neither form, then by `NameTaken`.
pub fn intro(
    alloc: Global,
    goal: &Goal,
    name: &Token<'_>,
    lookup: &Lookup<'_>,
) -> Result<Reduction, ActFault>
    requires ready { IsReady (lookup_of lookup.now) (goal_of goal.now) }
    requires name { name.now.text.now ≢ [] }
    ensures { Does (lookup_of lookup.now) (goal_of goal.now) (act.Intro (word name.now)) result }
{
    introduced(alloc, goal, name, lookup)
}

fn introduced(
    alloc: Global,
    goal: &Goal,
    name: &Token<'_>,
    lookup: &Lookup<'_>,
) -> Result<Reduction, ActFault>
    requires ready { IsReady (lookup_of lookup.now) (goal_of goal.now) }
    requires name { name.now.text.now ≢ [] }
    ensures { Makes (intro_of (lookup_of lookup.now) (goal_of goal.now) (word name.now) (goal_form (lookup_of lookup.now) (goal_of goal.now))) (opening (lookup_of lookup.now) (goal_of goal.now) ++ intro_frame (goal_form (lookup_of lookup.now) (goal_of goal.now)) ∷ []) result }
{
    let Form { formula, opening } = target_form(alloc, goal, lookup)?;
    match formula.get() {
        Formula::All(_, a) => {
            let name = given_name(alloc, goal, name, lookup)?;
            Ok(with_variable(alloc, goal, name, a.get(), opening)?)
        }
        Formula::Imp(a, b) => {
            let name = given_name(alloc, goal, name, lookup)?;
            Ok(with_hypothesis(alloc, goal, name, a.get(), b.get(), opening)?)
        }
        _ => Err(ActFault::Stop(Cause::WrongShape)),
    }
}

/// A goal with one variable more, and the body of a universal target at it.
fn with_variable(
    alloc: Global,
    goal: &Goal,
    name: Name,
    body: &Formula,
    opening: Items<Frame>,
) -> Result<Reduction, AllocError>
    requires { length goal.now.vars < 2 ^ 32 }
    ensures { IfOk result (Has (aimed (tree.opened_formula (tree.free (length (goal_of goal.now).vars)) (formula body.now)) (with_var name (goal_of goal.now)) ∷ []) (frames_of opening ++ moves.under_alli ∷ [])) }
{
    let newest = Term::Free(var_count(goal));
    let target = Boxed::new(alloc, body.opened(alloc, &newest)?)?;
    let next = goal.aimed(alloc, target)?.with_var(name)?;
    one(alloc, opening, Frame::UnderAlli, next)
}

/// A goal with the left side of an implication for one hypothesis more, and its right side.
fn with_hypothesis(
    alloc: Global,
    goal: &Goal,
    name: Name,
    known: &Formula,
    target: &Formula,
    opening: Items<Frame>,
) -> Result<Reduction, AllocError>
    ensures { IfOk result (Has (aimed (formula target.now) (with_hyp name (formula known.now) (goal_of goal.now)) ∷ []) (frames_of opening ++ moves.under_impi ∷ [])) }
{
    let known = boxed(alloc, known)?;
    let next = goal.aimed(alloc, boxed(alloc, target)?)?;
    one(
        alloc,
        opening,
        Frame::UnderImpi,
        next.with_hyp(alloc, name, known)?,
    )
}

/// `use t`: the body of an existential target, when it is unfolded, at the term.
///
/// It stops by `WrongArgument` where the tokens are no term, then by `WrongShape`. A target of more than
/// 4,096 nodes isn't made: it stops by the first limit that the new goal would pass.
pub fn witness(
    alloc: Global,
    goal: &Goal,
    argument: &Piece<'_>,
    lookup: &Lookup<'_>,
) -> Result<Reduction, ActFault>
    requires ready { IsReady (lookup_of lookup.now) (goal_of goal.now) }
    requires texts { All (λ (w : Lexeme). IsTokenText w.kind w.text) (part argument.now).tokens }
    ensures { DoesWithin (lookup_of lookup.now) (goal_of goal.now) (act.Witness (part argument.now)) result }
{
    match term_there(alloc, goal, argument, lookup) {
        Ok(t) => witnessed(alloc, goal, t, lookup),
        Err(fault) => Err(fault),
    }
}

fn witnessed(
    alloc: Global,
    goal: &Goal,
    t: Boxed<Term>,
    lookup: &Lookup<'_>,
) -> Result<Reduction, ActFault>
    ensures { MakesWithin (witness_of (goal_of goal.now) (term t) (goal_form (lookup_of lookup.now) (goal_of goal.now))) (opening (lookup_of lookup.now) (goal_of goal.now) ++ moves.under_exi (term t) ∷ []) result }
{
    let Form { formula, opening } = target_form(alloc, goal, lookup)?;
    match formula.get() {
        Formula::Ex(_, a) => at_witness(alloc, goal, a.get(), t, opening),
        _ => Err(ActFault::Stop(Cause::WrongShape)),
    }
}

/// The body of an existential target at a term, whose nodes are counted first.
fn at_witness(
    alloc: Global,
    goal: &Goal,
    body: &Formula,
    t: Boxed<Term>,
    opening: Items<Frame>,
) -> Result<Reduction, ActFault>
    ensures { MakesWithin (Ok (aimed (tree.opened_formula (term t) (formula body.now)) (goal_of goal.now) ∷ [])) (frames_of opening ++ moves.under_exi (term t) ∷ []) result }
{
    let size = opened_size(body, t.get().size());
    match large_nodes(size) {
        Some(limit) => Err(ActFault::Stop(target_limit(alloc, goal, limit)?)),
        None => Ok(with_witness(alloc, goal, body, t, opening)?),
    }
}

/// A goal for the body of an existential target at a term.
fn with_witness(
    alloc: Global,
    goal: &Goal,
    body: &Formula,
    t: Boxed<Term>,
    opening: Items<Frame>,
) -> Result<Reduction, AllocError>
    requires few { tree.nodes_of (tree.opened_formula (term t) (formula body.now)) ≤ 4096 }
    ensures { IfOk result (Has (aimed (tree.opened_formula (term t) (formula body.now)) (goal_of goal.now) ∷ []) (frames_of opening ++ moves.under_exi (term t) ∷ [])) }
{
    let target = Boxed::new(alloc, body.opened(alloc, t.get())?)?;
    let next = goal.aimed(alloc, target)?;
    one(alloc, opening, Frame::UnderExi(t), next)
}
