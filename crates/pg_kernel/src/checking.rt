//! The check of a proof against a goal.

ghost use Rattle.std.specs.Prelude.{◌≡◌, ◌+◌, ◌-◌, ◌^◌, min, ℕ, if◌then◌else◌, slice_get, option_map, IfOk, IsTrue};
ghost use Rattle.pg_logic.specs.Derivation.{Derives};
ghost use Rattle.pg_logic.specs.Kernel as logic;
ghost use Rattle.pg_logic.specs.Signature as arith;
ghost use Rattle.pg_logic.specs.Sound.{AllFit, IsTheorem, Entails};
ghost use Rattle.pg_terms.specs.View.{formula, formulas};
ghost use Rattle.pg_arith.specs.View.{signature};
ghost use Rattle.pg_kernel.specs.Checks as checks;
ghost use Rattle.pg_kernel.specs.Checks.{Gives};
ghost use Rattle.pg_kernel.specs.Names.{is_named, IsNamedTheorem};
ghost use Rattle.pg_kernel.specs.Premises.{premise, pair, triple};
ghost use Rattle.pg_kernel.specs.View.{proof};

use crate::premise::{Context, Premise};
use crate::proof::Proof;
use crate::theorems::Theorems;
use crate::{goals, number, rules};
use pg_arith::Signature;
use pg_terms::Formula;
use sqlite_items::{Items, at};
use std::alloc::{AllocError, Global};

/// The kernel's answer about a proof.
#[derive(Clone, Copy, Debug, PartialEq, Eq)]
pub enum Verdict {
    /// Each node meets its rule.
    Accepted,
    /// The first node in preorder that does not, and its rule, 1 to 21. Nodes are counted from 0,
    /// and the count stays at the type's end.
    Refused { node: u32, rule: u8 },
}

/// Checks a proof of a goal in a context: `vars` variables and the hypotheses, which fit them as
/// the goal does. The proof may name the theorems.
///
/// It is accepted exactly where each node meets its rule in the context that its parents give it
/// ("Rules" in docs/LOGIC.md), and else the first node that does not is told. It fails only for
/// want of memory.
pub fn check(
    alloc: Global,
    sig: &Signature,
    theorems: &Theorems,
    vars: u32,
    hyps: &[Formula],
    p: &Proof,
    goal: &Formula,
) -> Result<Verdict, AllocError>
    requires hyps { AllFit (signature sig.now) vars (formulas hyps.now) }
    requires goal { IsTrue (arith.fits (signature sig.now) vars 0 (formula goal.now)) }
    ensures exact { IfOk result (λ v. v ≡ checks.verdict_of (logic.fault_of (signature sig.now) (formulas theorems.now) (proof p.now) vars (formulas hyps.now) (formula goal.now) 0)) }
    // what is accepted is derivable from the hypotheses and those theorems that the proof names
    // ("Derivability" in docs/LOGIC.md)
    ensures derives { IfOk result (λ v. v ≡ Verdict.Accepted → Derives (signature sig.now) (IsNamedTheorem (formulas theorems.now) (proof p.now)) vars (formulas hyps.now) (formula goal.now)) }
    // what is accepted is true where the hypotheses are, and each theorem that the proof names fits
    // no variable and is true ("Soundness" in docs/LOGIC.md)
    ensures sound { IfOk result (λ v. v ≡ Verdict.Accepted → ((k : ℕ) → IsTrue (is_named k (proof p.now)) → IsTheorem (signature sig.now) (formulas theorems.now) k) → Entails (signature sig.now) vars (formulas hyps.now) (formula goal.now)) }
{
    sig.declared_law();
    checked(alloc, sig, theorems, vars, hyps, p, goal)
}

/// Checks a proof from its root on, over a copy of the hypotheses to which those of the premises
/// can be put.
fn checked(
    alloc: Global,
    sig: &Signature,
    theorems: &Theorems,
    vars: u32,
    hyps: &[Formula],
    p: &Proof,
    goal: &Formula,
) -> Result<Verdict, AllocError>
    ensures { IfOk result (λ v. v ≡ checks.verdict_of (logic.fault_of (signature sig.now) (formulas theorems.now) (proof p.now) vars (formulas hyps.now) (formula goal.now) 0)) }
{
    let mut held = Items::new(alloc);
    for a in hyps {
        held.push(a.copied(alloc)?)?;
    }
    let cx = Context {
        alloc,
        sig,
        theorems: theorems.as_slice(),
    };
    let mut next = 0;
    check_node(p, &cx, vars, &mut held, &mut next, goal)
}

/// Checks a proof of a goal in a context of `vars` variables and the hypotheses, node by node in
/// preorder, up to the first refusal. `next` is the number of its root; where it is accepted, it is
/// the number after its last node then. Afterwards the hypotheses are as before.
#[cycle(check)]
fn check_node(
    p: &Proof,
    cx: &Context<'_>,
    vars: u32,
    hyps: &mut Items<Formula>,
    next: &mut u32,
    goal: &Formula,
) -> Result<Verdict, AllocError>
    ensures checks { IfOk result (λ v. Gives (logic.fault_of (signature cx.now.sig.now) (formulas cx.now.theorems.now) (proof p.now) vars (formulas hyps.old) (formula goal.now)) (logic.proof_nodes (proof p.now)) next.old next.new v) }
    ensures kept { IfOk result (λ _. hyps.new ≡ hyps.old) }
{
    let node = enter(next);
    match p {
        Proof::Hyp(i) => Ok(settled(node, is_at(hyps.as_slice(), *i, goal), number::HYP)),
        Proof::Thm(i) => Ok(settled(node, is_at(cx.theorems, *i, goal), number::THM)),
        Proof::Andi(p, q) => {
            let premises = rules::andi(cx, vars, goal)?;
            check_two(
                p.get(),
                q.get(),
                cx,
                hyps,
                node,
                next,
                number::ANDI,
                premises,
            )
        }
        Proof::Andl(b, p) => {
            let premises = rules::andl(cx, vars, b, goal)?;
            check_one(p.get(), cx, hyps, node, next, number::ANDL, premises)
        }
        Proof::Andr(a, p) => {
            let premises = rules::andr(cx, vars, a, goal)?;
            check_one(p.get(), cx, hyps, node, next, number::ANDR, premises)
        }
        Proof::Orl(p) => {
            let premises = rules::orl(cx, vars, goal)?;
            check_one(p.get(), cx, hyps, node, next, number::ORL, premises)
        }
        Proof::Orr(p) => {
            let premises = rules::orr(cx, vars, goal)?;
            check_one(p.get(), cx, hyps, node, next, number::ORR, premises)
        }
        Proof::Ore(a, b, p, q, r) => {
            let premises = rules::ore(cx, vars, a, b, goal)?;
            check_three(
                p.get(),
                q.get(),
                r.get(),
                cx,
                hyps,
                node,
                next,
                number::ORE,
                premises,
            )
        }
        Proof::Impi(p) => {
            let premises = rules::impi(cx, vars, goal)?;
            check_one(p.get(), cx, hyps, node, next, number::IMPI, premises)
        }
        Proof::Impe(a, p, q) => {
            let premises = rules::impe(cx, vars, a, goal)?;
            check_two(
                p.get(),
                q.get(),
                cx,
                hyps,
                node,
                next,
                number::IMPE,
                premises,
            )
        }
        Proof::Fale(p) => check_node(p.get(), cx, vars, hyps, next, &Formula::Falsum),
        Proof::Lem => Ok(settled(node, goals::is_middle(goal), number::LEM)),
        Proof::Alli(p) => {
            let premises = rules::alli(cx, vars, goal)?;
            check_one(p.get(), cx, hyps, node, next, number::ALLI, premises)
        }
        Proof::Alle(a, t, p) => {
            let premises = rules::alle(cx, vars, a, t, goal)?;
            check_one(p.get(), cx, hyps, node, next, number::ALLE, premises)
        }
        Proof::Exi(t, p) => {
            let premises = rules::exi(cx, vars, t, goal)?;
            check_one(p.get(), cx, hyps, node, next, number::EXI, premises)
        }
        Proof::Exe(a, p, q) => {
            let premises = rules::exe(cx, vars, a, goal)?;
            check_two(
                p.get(),
                q.get(),
                cx,
                hyps,
                node,
                next,
                number::EXE,
                premises,
            )
        }
        Proof::Refl => Ok(settled(node, goals::is_reflexive(goal), number::REFL)),
        Proof::Repl(a, s, t, p, q) => {
            let premises = rules::repl(cx, vars, a, s, t, goal)?;
            check_two(
                p.get(),
                q.get(),
                cx,
                hyps,
                node,
                next,
                number::REPL,
                premises,
            )
        }
        Proof::Ind(a, t, p, q) => {
            let premises = rules::ind(cx, vars, a, t, goal)?;
            check_two(
                p.get(),
                q.get(),
                cx,
                hyps,
                node,
                next,
                number::IND,
                premises,
            )
        }
        Proof::Predi(p) => {
            let premises = rules::predi(cx, vars, goal)?;
            check_one(p.get(), cx, hyps, node, next, number::PREDI, premises)
        }
        Proof::Prede(a, p) => {
            let premises = rules::prede(cx, vars, a, goal)?;
            check_one(p.get(), cx, hyps, node, next, number::PREDE, premises)
        }
    }
}

/// Takes the number of a node, and counts one on for the next node. The count stays at the type's
/// end.
fn enter(next: &mut u32) -> u32
    ensures number { result ≡ next.old }
    ensures counted { next.new ≡ min (next.old + 1) (2 ^ 32 - 1) }
{
    let node = *next;
    *next = node.saturating_add(1);
    node
}

/// The verdict on a node with no premise, by whether the condition of its rule holds.
fn settled(node: u32, holds: bool, rule: u8) -> Verdict
    ensures { result ≡ (if holds then Verdict.Accepted else Verdict.Refused node rule) }
{
    if holds {
        Verdict::Accepted
    } else {
        Verdict::Refused { node, rule }
    }
}

/// Whether a formula of a list is the goal.
fn is_at(all: &[Formula], i: u32, goal: &Formula) -> bool
    ensures { result ≡ logic.is_at (slice_get (formulas all.now) i) (formula goal.now) }
{
    match at(all, i as usize) {
        None => false,
        Some(a) => a.same(goal),
    }
}

/// Checks what is left of a node with one premise, of which `p` is the proof. The node's number is
/// `node`, and `next` is the one after it. The node is refused where there are no premises, since
/// the condition of its rule is false then.
#[cycle(check)]
fn check_one(
    p: &Proof,
    cx: &Context<'_>,
    hyps: &mut Items<Formula>,
    node: u32,
    next: &mut u32,
    rule: u8,
    premises: Option<Premise>,
) -> Result<Verdict, AllocError>
    requires { next.old ≡ min (node + 1) (2 ^ 32 - 1) }
    ensures checks { IfOk result (λ v. Gives (checks.one (signature cx.now.sig.now) (formulas cx.now.theorems.now) (formulas hyps.old) (proof p.now) rule (option_map premise premises)) (logic.proof_nodes (proof p.now) + 1) node next.new v) }
    ensures kept { IfOk result (λ _. hyps.new ≡ hyps.old) }
{
    match premises {
        None => Ok(Verdict::Refused { node, rule }),
        Some(premise) => check_premise(p, cx, hyps, next, premise),
    }
}

/// Checks what is left of a node with two premises, of which `p` and `q` are the proofs, as
/// `check_one` does.
#[cycle(check)]
fn check_two(
    p: &Proof,
    q: &Proof,
    cx: &Context<'_>,
    hyps: &mut Items<Formula>,
    node: u32,
    next: &mut u32,
    rule: u8,
    premises: Option<(Premise, Premise)>,
) -> Result<Verdict, AllocError>
    requires { next.old ≡ min (node + 1) (2 ^ 32 - 1) }
    ensures checks { IfOk result (λ v. Gives (checks.two (signature cx.now.sig.now) (formulas cx.now.theorems.now) (formulas hyps.old) (proof p.now) (proof q.now) rule (option_map pair premises)) (logic.proof_nodes (proof p.now) + logic.proof_nodes (proof q.now) + 1) node next.new v) }
    ensures kept { IfOk result (λ _. hyps.new ≡ hyps.old) }
{
    match premises {
        None => Ok(Verdict::Refused { node, rule }),
        Some((first, second)) => match check_premise(p, cx, hyps, next, first)? {
            Verdict::Accepted => check_premise(q, cx, hyps, next, second),
            refused => Ok(refused),
        },
    }
}

/// Checks what is left of a node with three premises, of which `p`, `q` and `r` are the proofs, as
/// `check_one` does.
#[cycle(check)]
fn check_three(
    p: &Proof,
    q: &Proof,
    r: &Proof,
    cx: &Context<'_>,
    hyps: &mut Items<Formula>,
    node: u32,
    next: &mut u32,
    rule: u8,
    premises: Option<(Premise, Premise, Premise)>,
) -> Result<Verdict, AllocError>
    requires { next.old ≡ min (node + 1) (2 ^ 32 - 1) }
    ensures checks { IfOk result (λ v. Gives (checks.three (signature cx.now.sig.now) (formulas cx.now.theorems.now) (formulas hyps.old) (proof p.now) (proof q.now) (proof r.now) rule (option_map triple premises)) (logic.proof_nodes (proof p.now) + logic.proof_nodes (proof q.now) + logic.proof_nodes (proof r.now) + 1) node next.new v) }
    ensures kept { IfOk result (λ _. hyps.new ≡ hyps.old) }
{
    match premises {
        None => Ok(Verdict::Refused { node, rule }),
        Some((first, second, third)) => match check_premise(p, cx, hyps, next, first)? {
            Verdict::Accepted => match check_premise(q, cx, hyps, next, second)? {
                Verdict::Accepted => check_premise(r, cx, hyps, next, third),
                refused => Ok(refused),
            },
            refused => Ok(refused),
        },
    }
}

/// Checks the proof of a premise in the premise's own context: its variables, and the hypotheses
/// with its own one put after them, which is taken away again. `next` is as in `check_node`.
#[cycle(check)]
fn check_premise(
    p: &Proof,
    cx: &Context<'_>,
    hyps: &mut Items<Formula>,
    next: &mut u32,
    given: Premise,
) -> Result<Verdict, AllocError>
    ensures checks { IfOk result (λ v. Gives (checks.at (signature cx.now.sig.now) (formulas cx.now.theorems.now) (formulas hyps.old) (proof p.now) (premise given)) (logic.proof_nodes (proof p.now)) next.old next.new v) }
    ensures kept { IfOk result (λ _. hyps.new ≡ hyps.old) }
{
    let Premise { vars, extra, goal } = given;
    match extra {
        None => check_node(p, cx, vars, hyps, next, goal.get()),
        Some(extra) => {
            hyps.push(extra.into_inner())?;
            let verdict = check_node(p, cx, vars, hyps, next, goal.get())?;
            let _ = hyps.pop();
            Ok(verdict)
        }
    }
}
