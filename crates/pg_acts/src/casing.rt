// `cases` of a hypothesis.
ghost use Rattle.std.specs.Prelude.{◌≡◌, ◌≢◌, ◌<◌, ◌^◌, ◌++◌, ◌∷◌, [], All, None, Ok, IfOk, drop, length, map};
ghost use Rattle.pg_base.specs.Tokens.{word};
ghost use Rattle.pg_base.specs.declared.token.Token.{Token};
ghost use Rattle.pg_logic.specs.Kernel as logic;
ghost use Rattle.pg_logic.specs.Tree as tree;
ghost use Rattle.pg_script.specs.View.{words};
ghost use Rattle.pg_terms.specs.View.{formula};
ghost use Rattle.pg_kernel.specs.View.{proof};
ghost use Rattle.pg_moves.specs.Acts as act;
ghost use Rattle.pg_moves.specs.Assuming as moves;
ghost use Rattle.pg_moves.specs.Closing.{head_unfolded};
ghost use Rattle.pg_moves.specs.Frames as frames;
ghost use Rattle.pg_moves.specs.Framing.{cases_frames};
ghost use Rattle.pg_moves.specs.Goals.{variable_named, with_hyp};
ghost use Rattle.pg_goal.specs.View.{goal_of, lookup_of};
ghost use Rattle.pg_reduction.specs.Doing.{IsReady, Does, Has, Makes, Yields};
ghost use Rattle.pg_reduction.specs.Named.{found_of};
ghost use Rattle.pg_acts.specs.Named.{second_part};
ghost use Rattle.pg_acts.specs.Opening.{opened_proof};
ghost use Rattle.pg_reduction.specs.View.{always};

use crate::unfolding::{Unfolded, unfold};
use pg_base::Token;
use pg_frames::Frame;
use pg_goal::{Goal, Lookup};
use pg_kernel::Proof;
use pg_reduction::{
    ActFault, Cause, Found, Reduction, boxed, hypothesis_of, new_name, one, shut, two, var_count,
};
use pg_terms::{Formula, Name, Term};
use sqlite_items::{Boxed, Items, at};
use std::alloc::{AllocError, Global};

/// `cases h with ..`: the hypothesis of this name dies, and the parts of its unfolded form come in
/// its place. A conjunction gives two hypotheses, a disjunction two goals with one each, an
/// existential formula a variable and a hypothesis, and `False` no goal. Parts are called by the
/// names, and else by a default made fresh. No live variable has the name `h`.
///
/// It stops by `NoSuchName`, then by `WrongShape`, then by `WrongArgument` at the first name too
/// many, then by `NameTaken`.
pub fn cases_hypothesis(
    alloc: Global,
    goal: &Goal,
    name: &Token<'_>,
    names: &[Token<'_>],
    lookup: &Lookup<'_>,
) -> Result<Reduction, ActFault>
    requires ready { IsReady (lookup_of lookup.now) (goal_of goal.now) }
    requires names { All (λ (t : Token). t.text.now ≢ []) names.now }
    requires variable { variable_named (goal_of goal.now) name.now.text.now ≡ None }
    ensures { Does (lookup_of lookup.now) (goal_of goal.now) (act.Cases (word name.now) (words names.now)) result }
{
    match hypothesis_of(goal, name.text) {
        Some(f) => cases_of(alloc, goal, &f, names, lookup),
        None => Err(ActFault::Stop(Cause::NoSuchName { at: name.at })),
    }
}

fn cases_of(
    alloc: Global,
    goal: &Goal,
    f: &Found<'_>,
    names: &[Token<'_>],
    lookup: &Lookup<'_>,
) -> Result<Reduction, ActFault>
    requires room { length goal.now.vars < 2 ^ 32 }
    requires names { All (λ (t : Token). t.text.now ≢ []) names.now }
    ensures { Makes (moves.cases_of_hyp (lookup_of lookup.now) (goal_of goal.now) (found_of f.now) (words names.now)) (cases_frames (opened_proof (lookup_of lookup.now) (found_of f.now)) (head_unfolded (lookup_of lookup.now) (formula f.now.hyp.now.formula))) result }
{
    let Unfolded { form, way } = unfold(alloc, lookup.sig, f.hyp.formula.get())?;
    let d = opened(alloc, way.as_slice(), f.number)?;
    let rest = goal.copied(alloc)?.without_hyp(alloc, f.number)?;
    parts_of(alloc, &rest, &f.hyp.name, names, form.get(), d, lookup)
}

/// A proof of the unfolded form of hypothesis `i`, by the formulas on the way to it.
fn opened(alloc: Global, way: &[Boxed<Formula>], i: u32) -> Result<Boxed<Proof>, AllocError>
    ensures { IfOk result (λ d. proof d ≡ frames.predes (map formula way.now) (logic.hyp i)) }
{
    let mut d = Boxed::new(alloc, Proof::Hyp(i))?;
    for a in way {
        let a = boxed(alloc, a.get())?;
        d = Boxed::new(alloc, Proof::Prede(a.into_inner(), d))?;
    }
    Ok(d)
}

/// What the unfolded form of a hypothesis is taken apart to, which `d` proves.
fn parts_of(
    alloc: Global,
    goal: &Goal,
    name: &Name,
    names: &[Token<'_>],
    form: &Formula,
    d: Boxed<Proof>,
    lookup: &Lookup<'_>,
) -> Result<Reduction, ActFault>
    requires room { length goal.now.vars < 2 ^ 32 }
    requires names { All (λ (t : Token). t.text.now ≢ []) names.now }
    ensures { Makes (moves.parts_of (lookup_of lookup.now) (goal_of goal.now) name.now (words names.now) (formula form.now)) (cases_frames (proof d) (formula form.now)) result }
{
    match form {
        Formula::And(a, b) => {
            at_most(2, names)?;
            both_parts(alloc, goal, name, names, a.get(), b.get(), d, lookup)
        }
        Formula::Or(a, b) => {
            at_most(2, names)?;
            either_part(alloc, goal, name, names, a.get(), b.get(), d, lookup)
        }
        Formula::Ex(z, a) => {
            at_most(2, names)?;
            some_part(alloc, goal, name, names, z, a.get(), d, lookup)
        }
        Formula::Falsum => {
            at_most(0, names)?;
            Ok(shut(alloc, Proof::Fale(d))?)
        }
        _ => Err(ActFault::Stop(Cause::WrongShape)),
    }
}

/// Stops by `WrongArgument` at the first name too many.
fn at_most(limit: usize, names: &[Token<'_>]) -> Result<(), ActFault>
    ensures { Yields (always (words names.now)) (moves.at_most limit (words names.now)) result }
{
    match at(names, limit) {
        None => Ok(()),
        Some(name) => Err(ActFault::Stop(Cause::WrongArgument { at: name.at })),
    }
}

/// Two hypotheses.
fn both_parts(
    alloc: Global,
    goal: &Goal,
    name: &Name,
    names: &[Token<'_>],
    a: &Formula,
    b: &Formula,
    d: Boxed<Proof>,
    lookup: &Lookup<'_>,
) -> Result<Reduction, ActFault>
    requires { All (λ (t : Token). t.text.now ≢ []) names.now }
    ensures { Makes (moves.both_parts (lookup_of lookup.now) (goal_of goal.now) name.now (words names.now) (formula a.now) (formula b.now)) (cases_frames (proof d) (tree.and (formula a.now) (formula b.now))) result }
{
    let x = new_name(alloc, goal, names, name, lookup)?;
    let between = with_one_more(alloc, goal, x, a)?;
    second_part(alloc, &between, name, names, a, b, d, lookup)
}

/// The second one of two hypotheses, where the first one stands.
fn second_part(
    alloc: Global,
    goal: &Goal,
    name: &Name,
    names: &[Token<'_>],
    a: &Formula,
    b: &Formula,
    d: Boxed<Proof>,
    lookup: &Lookup<'_>,
) -> Result<Reduction, ActFault>
    requires { All (λ (t : Token). t.text.now ≢ []) names.now }
    ensures { Makes (second_part (lookup_of lookup.now) (goal_of goal.now) name.now (words names.now) (formula b.now)) (cases_frames (proof d) (tree.and (formula a.now) (formula b.now))) result }
{
    let y = new_name(alloc, goal, after_first(names), name, lookup)?;
    let made = by_both(alloc, goal, y, a, b, d)?;
    Ok(made)
}

/// A goal with both sides of a conjunction, which `d` proves, for two hypotheses more: the first one
/// stands there, and the second one gets this name.
fn by_both(
    alloc: Global,
    goal: &Goal,
    name: Name,
    a: &Formula,
    b: &Formula,
    d: Boxed<Proof>,
) -> Result<Reduction, AllocError>
    ensures { IfOk result (Has (with_hyp name (formula b.now) (goal_of goal.now) ∷ []) (cases_frames (proof d) (tree.and (formula a.now) (formula b.now)))) }
{
    let next = with_one_more(alloc, goal, name, b)?;
    let left = left_part(alloc, b, d.get())?;
    let right = right_part(alloc, a, d)?;
    let mut first = Items::new(alloc);
    first.push(Frame::Cut(boxed(alloc, a)?, left))?;
    let last = Frame::Cut(boxed(alloc, b)?, right);
    one(alloc, first, last, next)
}

/// A copy of the goal with a hypothesis more.
pub fn with_one_more(
    alloc: Global,
    goal: &Goal,
    name: Name,
    a: &Formula,
) -> Result<Goal, AllocError>
    ensures { IfOk result (λ g. goal_of g ≡ with_hyp name (formula a.now) (goal_of goal.now)) }
{
    let a = boxed(alloc, a)?;
    goal.copied(alloc)?.with_hyp(alloc, name, a)
}

/// The left side of a conjunction that `d` proves, whose right side is `b`.
fn left_part(alloc: Global, b: &Formula, d: &Proof) -> Result<Boxed<Proof>, AllocError>
    ensures { IfOk result (λ r. proof r ≡ logic.andl (formula b.now) (proof d.now)) }
{
    let d = Boxed::new(alloc, d.copied(alloc)?)?;
    let b = boxed(alloc, b)?;
    Boxed::new(alloc, Proof::Andl(b.into_inner(), d))
}

/// The right side of a conjunction that `d` proves, whose left side is `a`.
fn right_part(alloc: Global, a: &Formula, d: Boxed<Proof>) -> Result<Boxed<Proof>, AllocError>
    ensures { IfOk result (λ r. proof r ≡ logic.andr (formula a.now) (proof d)) }
{
    let a = boxed(alloc, a)?;
    Boxed::new(alloc, Proof::Andr(a.into_inner(), d))
}

/// Two goals, with a hypothesis each.
fn either_part(
    alloc: Global,
    goal: &Goal,
    name: &Name,
    names: &[Token<'_>],
    a: &Formula,
    b: &Formula,
    d: Boxed<Proof>,
    lookup: &Lookup<'_>,
) -> Result<Reduction, ActFault>
    requires { All (λ (t : Token). t.text.now ≢ []) names.now }
    ensures { Makes (moves.either_part (lookup_of lookup.now) (goal_of goal.now) name.now (words names.now) (formula a.now) (formula b.now)) (cases_frames (proof d) (tree.or (formula a.now) (formula b.now))) result }
{
    let x = new_name(alloc, goal, names, name, lookup)?;
    let y = new_name(alloc, goal, after_first(names), name, lookup)?;
    let first = with_one_more(alloc, goal, x, a)?;
    let second = with_one_more(alloc, goal, y, b)?;
    let made = by_either(alloc, first, second, a, b, d)?;
    Ok(made)
}

/// A goal for each side of a disjunction that `d` proves.
fn by_either(
    alloc: Global,
    first: Goal,
    second: Goal,
    a: &Formula,
    b: &Formula,
    d: Boxed<Proof>,
) -> Result<Reduction, AllocError>
    ensures { IfOk result (Has (goal_of first ∷ goal_of second ∷ []) (cases_frames (proof d) (tree.or (formula a.now) (formula b.now)))) }
{
    let last = Frame::Split(boxed(alloc, a)?, boxed(alloc, b)?, d);
    two(alloc, Items::new(alloc), last, first, second)
}

/// A variable and a hypothesis.
fn some_part(
    alloc: Global,
    goal: &Goal,
    name: &Name,
    names: &[Token<'_>],
    z: &Name,
    a: &Formula,
    d: Boxed<Proof>,
    lookup: &Lookup<'_>,
) -> Result<Reduction, ActFault>
    requires room { length goal.now.vars < 2 ^ 32 }
    requires names { All (λ (t : Token). t.text.now ≢ []) names.now }
    ensures { Makes (moves.some_part (lookup_of lookup.now) (goal_of goal.now) name.now (words names.now) z.now (formula a.now)) (cases_frames (proof d) (tree.ex z.now (formula a.now))) result }
{
    let x = new_name(alloc, goal, names, z, lookup)?;
    let newest = var_count(goal);
    let between = goal.copied(alloc)?.with_var(x)?;
    let y = new_name(alloc, &between, after_first(names), name, lookup)?;
    let made = by_witness(alloc, &between, y, newest, a, d)?;
    Ok(made)
}

/// A goal with the body of an existential formula, which `d` proves, at the newest variable for one
/// hypothesis more.
fn by_witness(
    alloc: Global,
    goal: &Goal,
    name: Name,
    newest: u32,
    a: &Formula,
    d: Boxed<Proof>,
) -> Result<Reduction, AllocError>
    ensures { IfOk result (Has (with_hyp name (tree.opened_formula (tree.free newest) (formula a.now)) (goal_of goal.now) ∷ []) (frames.open_up (formula a.now) (proof d) ∷ [])) }
{
    let known = Boxed::new(alloc, a.opened(alloc, &Term::Free(newest))?)?;
    let next = with_one_more(alloc, goal, name, known.get())?;
    let last = Frame::OpenUp(boxed(alloc, a)?, d);
    one(alloc, Items::new(alloc), last, next)
}

/// All names but the first.
fn after_first<'a, 't>(names: &'a [Token<'t>]) -> &'a [Token<'t>]
    ensures { result.now ≡ drop 1 names.now }
{
    names.get(1..).unwrap_or_default()
}
