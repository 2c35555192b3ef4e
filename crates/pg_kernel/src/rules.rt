//! The lines of the table of rules ("Rules" in docs/LOGIC.md): what the premises of a node prove
//! for its goal, or none where a field does not fit or the condition is false. A formula "under"
//! another is proved with that one put after the hypotheses. Each fails only for want of memory.

ghost use Rattle.std.specs.Prelude.{◌≡◌, ◌&&◌, ◌+◌, ◌-◌, ◌^◌, ◌<◌, option_map, IfOk};
ghost use Rattle.pg_logic.specs.Kernel as logic;
ghost use Rattle.pg_logic.specs.Signature as arith;
ghost use Rattle.pg_logic.specs.Tree as tree;
ghost use Rattle.pg_terms.specs.View.{term, formula};
ghost use Rattle.pg_arith.specs.View.{signature};
ghost use Rattle.pg_kernel.specs.Premises.{premise, pair, triple};

use crate::goals;
use crate::premise::{Context, Premise, assuming, here};
use pg_terms::{Formula, Term};
use sqlite_items::Boxed;
use std::alloc::AllocError;

/// `A ∧ B`, from `A` and `B`.
pub fn andi(
    cx: &Context<'_>,
    vars: u32,
    goal: &Formula,
) -> Result<Option<(Premise, Premise)>, AllocError>
    ensures { IfOk result (λ o. option_map pair o ≡ logic.andi_line vars (formula goal.now)) }
{
    match goal {
        Formula::And(a, b) => {
            let a = goals::boxed(cx.alloc, a.get())?;
            let b = goals::boxed(cx.alloc, b.get())?;
            Ok(Some((here(vars, a), here(vars, b))))
        }
        _ => Ok(None),
    }
}

/// `C`, from `C ∧ B`.
pub fn andl(
    cx: &Context<'_>,
    vars: u32,
    b: &Formula,
    goal: &Formula,
) -> Result<Option<Premise>, AllocError>
    ensures { IfOk result (λ o. option_map premise o ≡ logic.andl_line (signature cx.now.sig.now) vars (formula b.now) (formula goal.now)) }
{
    if !cx.sig.fits(vars, b) {
        return Ok(None);
    }
    Ok(Some(here(vars, goals::and(cx.alloc, goal, b)?)))
}

/// `C`, from `A ∧ C`.
pub fn andr(
    cx: &Context<'_>,
    vars: u32,
    a: &Formula,
    goal: &Formula,
) -> Result<Option<Premise>, AllocError>
    ensures { IfOk result (λ o. option_map premise o ≡ logic.andr_line (signature cx.now.sig.now) vars (formula a.now) (formula goal.now)) }
{
    if !cx.sig.fits(vars, a) {
        return Ok(None);
    }
    Ok(Some(here(vars, goals::and(cx.alloc, a, goal)?)))
}

/// `A ∨ B`, from `A`.
pub fn orl(cx: &Context<'_>, vars: u32, goal: &Formula) -> Result<Option<Premise>, AllocError>
    ensures { IfOk result (λ o. option_map premise o ≡ logic.orl_line vars (formula goal.now)) }
{
    match goal {
        Formula::Or(a, _) => Ok(Some(here(vars, goals::boxed(cx.alloc, a.get())?))),
        _ => Ok(None),
    }
}

/// `A ∨ B`, from `B`.
pub fn orr(cx: &Context<'_>, vars: u32, goal: &Formula) -> Result<Option<Premise>, AllocError>
    ensures { IfOk result (λ o. option_map premise o ≡ logic.orr_line vars (formula goal.now)) }
{
    match goal {
        Formula::Or(_, b) => Ok(Some(here(vars, goals::boxed(cx.alloc, b.get())?))),
        _ => Ok(None),
    }
}

/// `C`, from `A ∨ B`, `C` under `A`, and `C` under `B`.
pub fn ore(
    cx: &Context<'_>,
    vars: u32,
    a: &Formula,
    b: &Formula,
    goal: &Formula,
) -> Result<Option<(Premise, Premise, Premise)>, AllocError>
    ensures { IfOk result (λ o. option_map triple o ≡ logic.ore_line (signature cx.now.sig.now) vars (formula a.now) (formula b.now) (formula goal.now)) }
{
    if !(cx.sig.fits(vars, a) && cx.sig.fits(vars, b)) {
        return Ok(None);
    }
    let whole = goals::or(cx.alloc, a, b)?;
    let (left, right) = cases(cx, vars, a, b, goal)?;
    Ok(Some((here(vars, whole), left, right)))
}

/// `A → B`, from `B` under `A`.
pub fn impi(cx: &Context<'_>, vars: u32, goal: &Formula) -> Result<Option<Premise>, AllocError>
    ensures { IfOk result (λ o. option_map premise o ≡ logic.impi_line vars (formula goal.now)) }
{
    match goal {
        Formula::Imp(a, b) => Ok(Some(assuming_copies(cx, vars, a.get(), b.get())?)),
        _ => Ok(None),
    }
}

/// `C`, from `A → C` and `A`.
pub fn impe(
    cx: &Context<'_>,
    vars: u32,
    a: &Formula,
    goal: &Formula,
) -> Result<Option<(Premise, Premise)>, AllocError>
    ensures { IfOk result (λ o. option_map pair o ≡ logic.impe_line (signature cx.now.sig.now) vars (formula a.now) (formula goal.now)) }
{
    if !cx.sig.fits(vars, a) {
        return Ok(None);
    }
    let whole = goals::imp(cx.alloc, a, goal)?;
    let part = goals::boxed(cx.alloc, a)?;
    Ok(Some((here(vars, whole), here(vars, part))))
}

/// `∀ x, A`, from `A` at a new variable.
pub fn alli(cx: &Context<'_>, vars: u32, goal: &Formula) -> Result<Option<Premise>, AllocError>
    ensures { IfOk result (λ o. option_map premise o ≡ logic.alli_line vars (formula goal.now)) }
{
    if !has_room(vars) {
        return Ok(None);
    }
    match goal {
        Formula::All(_, a) => {
            let known = goals::newest(cx.alloc, vars, a.get())?;
            Ok(Some(here(vars + 1, known)))
        }
        _ => Ok(None),
    }
}

/// `A[t]`, from `∀ x, A`.
pub fn alle(
    cx: &Context<'_>,
    vars: u32,
    a: &Formula,
    t: &Term,
    goal: &Formula,
) -> Result<Option<Premise>, AllocError>
    ensures { IfOk result (λ o. option_map premise o ≡ logic.alle_line (signature cx.now.sig.now) vars (formula a.now) (term t.now) (formula goal.now)) }
{
    if !is_instance(cx, vars, a, t, goal)? {
        return Ok(None);
    }
    Ok(Some(here(vars, goals::all(cx.alloc, a)?)))
}

/// `∃ x, A`, from `A[t]`.
pub fn exi(
    cx: &Context<'_>,
    vars: u32,
    t: &Term,
    goal: &Formula,
) -> Result<Option<Premise>, AllocError>
    ensures { IfOk result (λ o. option_map premise o ≡ logic.exi_line (signature cx.now.sig.now) vars (term t.now) (formula goal.now)) }
{
    if !cx.sig.fits_term(vars, t) {
        return Ok(None);
    }
    match goal {
        Formula::Ex(_, a) => Ok(Some(here(vars, goals::opened(cx.alloc, a.get(), t)?))),
        _ => Ok(None),
    }
}

/// `C`, from `∃ x, A`, and `C` under `A` at a new variable.
pub fn exe(
    cx: &Context<'_>,
    vars: u32,
    a: &Formula,
    goal: &Formula,
) -> Result<Option<(Premise, Premise)>, AllocError>
    ensures { IfOk result (λ o. option_map pair o ≡ logic.exe_line (signature cx.now.sig.now) vars (formula a.now) (formula goal.now)) }
{
    if !(has_room(vars) && cx.sig.fits_body(vars, a)) {
        return Ok(None);
    }
    let some = goals::ex(cx.alloc, a)?;
    let known = goals::newest(cx.alloc, vars, a)?;
    let goal = goals::boxed(cx.alloc, goal)?;
    Ok(Some((here(vars, some), assuming(vars + 1, known, goal))))
}

/// `A[t]`, from `s = t` and `A[s]`.
pub fn repl(
    cx: &Context<'_>,
    vars: u32,
    a: &Formula,
    s: &Term,
    t: &Term,
    goal: &Formula,
) -> Result<Option<(Premise, Premise)>, AllocError>
    ensures { IfOk result (λ o. option_map pair o ≡ logic.repl_line (signature cx.now.sig.now) vars (formula a.now) (term s.now) (term t.now) (formula goal.now)) }
{
    if !cx.sig.fits_term(vars, s) {
        return Ok(None);
    }
    if !is_instance(cx, vars, a, t, goal)? {
        return Ok(None);
    }
    let equal = goals::eq(cx.alloc, s, t)?;
    let before = goals::opened(cx.alloc, a, s)?;
    Ok(Some((here(vars, equal), here(vars, before))))
}

/// `A[t]`, from `A[0]`, and `A[succ v]` under `A[v]` for a new variable `v`.
pub fn ind(
    cx: &Context<'_>,
    vars: u32,
    a: &Formula,
    t: &Term,
    goal: &Formula,
) -> Result<Option<(Premise, Premise)>, AllocError>
    ensures { IfOk result (λ o. option_map pair o ≡ logic.ind_line (signature cx.now.sig.now) vars (formula a.now) (term t.now) (formula goal.now)) }
{
    if !has_room(vars) {
        return Ok(None);
    }
    if !is_instance(cx, vars, a, t, goal)? {
        return Ok(None);
    }
    let first = goals::opened(cx.alloc, a, &Term::Zero)?;
    let step = step(cx, vars, a)?;
    Ok(Some((here(vars, first), step)))
}

/// A declared predicate at terms, from its body at them.
pub fn predi(cx: &Context<'_>, vars: u32, goal: &Formula) -> Result<Option<Premise>, AllocError>
    ensures { IfOk result (λ o. option_map premise o ≡ logic.predi_line (signature cx.now.sig.now) vars (formula goal.now)) }
{
    match unfolded(cx, goal)? {
        None => Ok(None),
        Some(body) => Ok(Some(here(vars, Boxed::new(cx.alloc, body)?))),
    }
}

/// The body of a declared predicate at terms, from this predicate formula.
pub fn prede(
    cx: &Context<'_>,
    vars: u32,
    a: &Formula,
    goal: &Formula,
) -> Result<Option<Premise>, AllocError>
    ensures { IfOk result (λ o. option_map premise o ≡ logic.prede_line (signature cx.now.sig.now) vars (formula a.now) (formula goal.now)) }
{
    if !unfolds_to(cx, vars, a, goal)? {
        return Ok(None);
    }
    Ok(Some(here(vars, goals::boxed(cx.alloc, a)?)))
}

/// Both cases of a disjunction: the goal under either side of it.
fn cases(
    cx: &Context<'_>,
    vars: u32,
    a: &Formula,
    b: &Formula,
    goal: &Formula,
) -> Result<(Premise, Premise), AllocError>
    ensures { IfOk result (λ p. pair p ≡ (logic.assuming vars (formula a.now) (formula goal.now), logic.assuming vars (formula b.now) (formula goal.now))) }
{
    let left = assuming_copies(cx, vars, a, goal)?;
    let right = assuming_copies(cx, vars, b, goal)?;
    Ok((left, right))
}

/// A premise with `known` for one more hypothesis, from copies of it and of the goal.
fn assuming_copies(
    cx: &Context<'_>,
    vars: u32,
    known: &Formula,
    goal: &Formula,
) -> Result<Premise, AllocError>
    ensures { IfOk result (λ p. premise p ≡ logic.assuming vars (formula known.now) (formula goal.now)) }
{
    let known = goals::boxed(cx.alloc, known)?;
    let goal = goals::boxed(cx.alloc, goal)?;
    Ok(assuming(vars, known, goal))
}

/// Whether a context may have one more variable.
fn has_room(vars: u32) -> bool
    ensures { result ≡ logic.has_room vars }
{
    vars < u32::MAX
}

/// Whether a body and a term fit, and the body opened by the term is the goal.
fn is_instance(
    cx: &Context<'_>,
    vars: u32,
    a: &Formula,
    t: &Term,
    goal: &Formula,
) -> Result<bool, AllocError>
    ensures { IfOk result (λ b. b ≡ logic.is_instance (signature cx.now.sig.now) vars (formula a.now) (term t.now) (formula goal.now)) }
{
    if !(cx.sig.fits_body(vars, a) && cx.sig.fits_term(vars, t)) {
        return Ok(false);
    }
    let whole = goals::opened(cx.alloc, a, t)?;
    Ok(whole.get().same(goal))
}

/// The step of an induction.
fn step(cx: &Context<'_>, vars: u32, a: &Formula) -> Result<Premise, AllocError>
    requires { vars < 2 ^ 32 - 1 }
    ensures { IfOk result (λ p. premise p ≡ logic.assuming (vars + 1) (tree.opened_formula (tree.free vars) (formula a.now)) (tree.opened_formula (tree.succ (tree.free vars)) (formula a.now))) }
{
    let known = goals::newest(cx.alloc, vars, a)?;
    let next = next(cx, vars, a)?;
    Ok(assuming(vars + 1, known, next))
}

/// What the step of an induction proves.
fn next(cx: &Context<'_>, vars: u32, a: &Formula) -> Result<Boxed<Formula>, AllocError>
    ensures { IfOk result (λ r. formula r ≡ tree.opened_formula (tree.succ (tree.free vars)) (formula a.now)) }
{
    let next = Term::Succ(Boxed::new(cx.alloc, Term::Free(vars))?);
    goals::opened(cx.alloc, a, &next)
}

/// The body of a predicate formula at its terms.
fn unfolded(cx: &Context<'_>, a: &Formula) -> Result<Option<Formula>, AllocError>
    ensures { IfOk result (λ o. option_map formula o ≡ logic.unfolded (signature cx.now.sig.now) (formula a.now)) }
{
    match a {
        Formula::Pred(p, ts) => {
            if *p >= cx.sig.predicate_count() {
                return Ok(None);
            }
            let body = cx.sig.predicate_body(*p);
            Ok(Some(body.substituted(cx.alloc, ts.as_slice())?))
        }
        _ => Ok(None),
    }
}

/// Whether a predicate formula fits, and the goal is its body at its terms.
fn unfolds_to(cx: &Context<'_>, vars: u32, a: &Formula, goal: &Formula) -> Result<bool, AllocError>
    ensures { IfOk result (λ b. b ≡ (arith.fits (signature cx.now.sig.now) vars 0 (formula a.now) && logic.is_unfolded (logic.unfolded (signature cx.now.sig.now) (formula a.now)) (formula goal.now))) }
{
    if !cx.sig.fits(vars, a) {
        return Ok(false);
    }
    match unfolded(cx, a)? {
        None => Ok(false),
        Some(body) => {
            let body = Boxed::new(cx.alloc, body)?;
            Ok(body.get().same(goal))
        }
    }
}
