// The acts on hypotheses.
ghost use Rattle.std.specs.Prelude.{◌≡◌, ◌≢◌, ◌+◌, ◌-◌, ◌<◌, ◌^◌, ◌∷◌, [], All, IfOk, length, option_map};
ghost use Rattle.pg_base.specs.Spans.{IsTokenText};
ghost use Rattle.pg_base.specs.Tokens.{Word as Lexeme, word};
ghost use Rattle.pg_logic.specs.Kernel as logic;
ghost use Rattle.pg_logic.specs.Tree as tree;
ghost use Rattle.pg_script.specs.View.{part};
ghost use Rattle.pg_terms.specs.View.{term, formula};
ghost use Rattle.pg_kernel.specs.View.{proof};
ghost use Rattle.pg_moves.specs.Acts as act;
ghost use Rattle.pg_moves.specs.Assuming as moves;
ghost use Rattle.pg_moves.specs.Frames as frames;
ghost use Rattle.pg_moves.specs.Framing.{symm_frames, swapped_proof};
ghost use Rattle.pg_goal.specs.View.{goal_of, lookup_of};
ghost use Rattle.pg_reduction.specs.Doing.{IsReady, Does, Makes};
ghost use Rattle.pg_reduction.specs.Named.{found_of};
ghost use Rattle.pg_acts.specs.Named.{answer, asserted_as, split_as, swapped_at, swapping};

use pg_base::Token;
use pg_frames::Frame;
use pg_goal::{Goal, Hyp, Lookup};
use pg_kernel::Proof;
use pg_reduction::{
    ActFault, Cause, Found, Reduction, boxed, changed_to, formula_there, given_name, hyp_count,
    hypothesis_of, one, two,
};
use pg_script::Piece;
use pg_terms::{Formula, Term};
use sqlite_items::{Boxed, Items, at};
use std::alloc::{AllocError, Global};

/// `symm`: the target, an equation or the negation of one, with its sides swapped. Else it stops by
/// `WrongShape`. Nothing is unfolded.
pub fn symm(alloc: Global, goal: &Goal, lookup: &Lookup<'_>) -> Result<Reduction, ActFault>
    requires { IsReady (lookup_of lookup.now) (goal_of goal.now) }
    ensures { Does (lookup_of lookup.now) (goal_of goal.now) act.Symm result }
{
    symmetric(alloc, goal)
}

fn symmetric(alloc: Global, goal: &Goal) -> Result<Reduction, ActFault>
    requires { length goal.now.hyps < 2 ^ 32 - 1 }
    ensures { Makes (moves.symmetric (goal_of goal.now)) (symm_frames (length (goal_of goal.now).hyps) (goal_of goal.now).target) result }
{
    let Some(a) = swapped(alloc, goal.target.get())? else {
        return Err(ActFault::Stop(Cause::WrongShape));
    };
    let known = hyp_count(goal);
    let d = swapped_proof(alloc, a.get(), known, known + 1)?;
    let next = goal.aimed(alloc, boxed(alloc, a.get())?)?;
    Ok(one(alloc, Items::new(alloc), Frame::Change(a, d), next)?)
}

/// `symm at h`: the hypothesis of this name, an equation or the negation of one, with its sides
/// swapped. Nothing is unfolded.
///
/// It stops by `NoSuchName` where there is no such hypothesis, then by `WrongShape`.
pub fn symm_at(
    alloc: Global,
    goal: &Goal,
    name: &Token<'_>,
    lookup: &Lookup<'_>,
) -> Result<Reduction, ActFault>
    requires ready { IsReady (lookup_of lookup.now) (goal_of goal.now) }
    ensures { Does (lookup_of lookup.now) (goal_of goal.now) (act.SymmAt (word name.now)) result }
{
    match hypothesis_of(goal, name.text) {
        Some(f) => symmetric_at(alloc, goal, &f),
        None => Err(ActFault::Stop(Cause::NoSuchName { at: name.at })),
    }
}

fn symmetric_at(alloc: Global, goal: &Goal, f: &Found<'_>) -> Result<Reduction, ActFault>
    requires { length goal.now.hyps < 2 ^ 32 }
    ensures { Makes (swapped_at (goal_of goal.now) (found_of f.now)) (swapping (length (goal_of goal.now).hyps) (found_of f.now) (moves.swapped (formula f.now.hyp.now.formula))) result }
{
    let Some(a) = swapped(alloc, f.hyp.formula.get())? else {
        return Err(ActFault::Stop(Cause::WrongShape));
    };
    let known = hyp_count(goal);
    let d = swapped_proof(alloc, f.hyp.formula.get(), f.number, known)?;
    let next = changed_to(alloc, goal, f, boxed(alloc, a.get())?)?;
    Ok(one(alloc, Items::new(alloc), Frame::Cut(a, d), next)?)
}

/// `have h : A`: a goal for `A`, and one with `A` as the hypothesis `h`.
///
/// It stops by `WrongArgument` where the tokens are no formula, then by `NameTaken`.
pub fn assert(
    alloc: Global,
    goal: &Goal,
    name: &Token<'_>,
    argument: &Piece<'_>,
    lookup: &Lookup<'_>,
) -> Result<Reduction, ActFault>
    requires ready { IsReady (lookup_of lookup.now) (goal_of goal.now) }
    requires name { name.now.text.now ≢ [] }
    requires texts { All (λ (w : Lexeme). IsTokenText w.kind w.text) (part argument.now).tokens }
    ensures { Does (lookup_of lookup.now) (goal_of goal.now) (act.Assert (word name.now) (part argument.now)) result }
{
    match formula_there(alloc, goal, argument, lookup) {
        Ok(a) => asserted(alloc, goal, name, a, lookup),
        Err(fault) => Err(fault),
    }
}

fn asserted(
    alloc: Global,
    goal: &Goal,
    name: &Token<'_>,
    a: Boxed<Formula>,
    lookup: &Lookup<'_>,
) -> Result<Reduction, ActFault>
    requires few { length goal.now.hyps < 2 ^ 32 }
    requires name { name.now.text.now ≢ [] }
    ensures { Makes (asserted_as (lookup_of lookup.now) (goal_of goal.now) (word name.now) (formula a)) (frames.lemma (formula a) (length (goal_of goal.now).hyps) ∷ []) result }
{
    let name = given_name(alloc, goal, name, lookup)?;
    let first = goal.aimed(alloc, boxed(alloc, a.get())?)?;
    let second = goal
        .copied(alloc)?
        .with_hyp(alloc, name, boxed(alloc, a.get())?)?;
    let known = hyp_count(goal);
    let last = Frame::Lemma(a, known);
    Ok(two(alloc, Items::new(alloc), last, first, second)?)
}

/// `by_cases h : A`: a goal with `A` as the hypothesis `h`, and one with its negation.
///
/// It stops by `WrongArgument` where the tokens are no formula, then by `NameTaken`.
pub fn by_cases(
    alloc: Global,
    goal: &Goal,
    name: &Token<'_>,
    argument: &Piece<'_>,
    lookup: &Lookup<'_>,
) -> Result<Reduction, ActFault>
    requires ready { IsReady (lookup_of lookup.now) (goal_of goal.now) }
    requires name { name.now.text.now ≢ [] }
    requires texts { All (λ (w : Lexeme). IsTokenText w.kind w.text) (part argument.now).tokens }
    ensures { Does (lookup_of lookup.now) (goal_of goal.now) (act.ByCases (word name.now) (part argument.now)) result }
{
    match formula_there(alloc, goal, argument, lookup) {
        Ok(a) => split(alloc, goal, name, a, lookup),
        Err(fault) => Err(fault),
    }
}

fn split(
    alloc: Global,
    goal: &Goal,
    name: &Token<'_>,
    a: Boxed<Formula>,
    lookup: &Lookup<'_>,
) -> Result<Reduction, ActFault>
    requires { name.now.text.now ≢ [] }
    ensures { Makes (split_as (lookup_of lookup.now) (goal_of goal.now) (word name.now) (formula a)) (frames.split (formula a) (tree.imp (formula a) tree.falsum) logic.lem ∷ []) result }
{
    let name = given_name(alloc, goal, name, lookup)?;
    let same = name.copied(alloc)?;
    let first = goal
        .copied(alloc)?
        .with_hyp(alloc, name, boxed(alloc, a.get())?)?;
    let second = goal
        .copied(alloc)?
        .with_hyp(alloc, same, negation(alloc, a.get())?)?;
    let not = negation(alloc, a.get())?;
    let last = Frame::Split(a, not, Boxed::new(alloc, Proof::Lem)?);
    Ok(two(alloc, Items::new(alloc), last, first, second)?)
}

/// The negation of a formula.
fn negation(alloc: Global, a: &Formula) -> Result<Boxed<Formula>, AllocError>
    ensures { IfOk result (λ r. formula r ≡ tree.imp (formula a.now) tree.falsum) }
{
    let a = boxed(alloc, a)?;
    let falsum = Boxed::new(alloc, Formula::Falsum)?;
    Boxed::new(alloc, Formula::Imp(a, falsum))
}

/// An equation, or the negation of one, with its sides swapped.
fn swapped(alloc: Global, a: &Formula) -> Result<Option<Boxed<Formula>>, AllocError>
    ensures { IfOk result (λ o. answer (option_map formula o) ≡ moves.swapped (formula a.now)) }
{
    match a {
        Formula::Eq(s, t) => Ok(Some(equation(alloc, t, s)?)),
        Formula::Imp(a, b) => match (a.get(), b.get()) {
            (Formula::Eq(s, t), Formula::Falsum) => {
                let a = equation(alloc, t, s)?;
                Ok(Some(negation(alloc, a.get())?))
            }
            _ => Ok(None),
        },
        _ => Ok(None),
    }
}

/// An equation of equal terms.
fn equation(alloc: Global, s: &Term, t: &Term) -> Result<Boxed<Formula>, AllocError>
    ensures { IfOk result (λ r. formula r ≡ tree.eq (term s.now) (term t.now)) }
{
    let s = Boxed::new(alloc, s.copied(alloc)?)?;
    let t = t.copied(alloc)?;
    Boxed::new(alloc, Formula::Eq(s.into_inner(), t))
}

/// The proof of a formula with its sides swapped, by hypothesis `i` that says it, where `k`
/// hypotheses stand.
fn swapped_proof(alloc: Global, a: &Formula, i: u32, k: u32) -> Result<Boxed<Proof>, AllocError>
    ensures { IfOk result (λ r. proof r ≡ swapped_proof i k (formula a.now)) }
{
    match a {
        Formula::Eq(s, t) => flipped(alloc, s, t, i),
        Formula::Imp(a, b) => match (a.get(), b.get()) {
            (Formula::Eq(s, t), Formula::Falsum) => {
                let d = flipped(alloc, t, s, k)?;
                refuted(alloc, a.get(), i, d)
            }
            _ => Boxed::new(alloc, Proof::Hyp(i)),
        },
        _ => Boxed::new(alloc, Proof::Hyp(i)),
    }
}

/// `t = s`, from hypothesis `i`, which says `s = t`.
fn flipped(alloc: Global, s: &Term, t: &Term, i: u32) -> Result<Boxed<Proof>, AllocError>
    ensures { IfOk result (λ r. proof r ≡ frames.flipped (term s.now) (term t.now) (logic.hyp i)) }
{
    let body = equation(alloc, &Term::Bound(0), s)?;
    let known = Boxed::new(alloc, Proof::Hyp(i))?;
    let same = Boxed::new(alloc, Proof::Refl)?;
    let s = Boxed::new(alloc, s.copied(alloc)?)?;
    let t = t.copied(alloc)?;
    Boxed::new(
        alloc,
        Proof::Repl(body.into_inner(), s.into_inner(), t, known, same),
    )
}

/// That a formula is false, from hypothesis `i`, which says that `a` is, and a proof of `a` from
/// this formula.
fn refuted(alloc: Global, a: &Formula, i: u32, d: Boxed<Proof>) -> Result<Boxed<Proof>, AllocError>
    ensures { IfOk result (λ r. proof r ≡ logic.impi (logic.impe (formula a.now) (logic.hyp i) (proof d))) }
{
    let known = Boxed::new(alloc, Proof::Hyp(i))?;
    let a = boxed(alloc, a)?;
    let p = Boxed::new(alloc, Proof::Impe(a.into_inner(), known, d))?;
    Boxed::new(alloc, Proof::Impi(p))
}
