//! The proof that frames make: each fills its holes with the proofs that the frames after it made.

ghost use Rattle.std.specs.Prelude.{◌≡◌, ◌++◌, ◌∷◌, [], OnOk, IfOk, option_map, map, reverse};
ghost use Rattle.pg_logic.specs.Kernel as logic;
ghost use Rattle.pg_moves.specs.Frames as moves;
ghost use Rattle.pg_terms.specs.View.{term, formula};
ghost use Rattle.pg_kernel.specs.View.{proof};
ghost use Rattle.pg_frames.specs.View.{stage_of, frame_of, frames_of};
ghost use Rattle.pg_frames.specs.Held.{held};

use crate::frame::{Frame, Stage};
use pg_kernel::Proof;
use pg_terms::{Formula, Term};
use sqlite_items::{Boxed, Items};
use std::alloc::{AllocError, Global};

/// The proofs that wait for a hole, the next one last.
type Stack = Items<Boxed<Proof>>;

/// The proof that the frames of a run make, which are in the order of its moves. None where there
/// is no frame, or where a frame has more holes than the frames after it have proofs. It takes time
/// and memory linear in the size of the proof, and fails only for want of memory.
#[tactic(auto, using(crate::proofs::Stacks::finishes))]
pub fn finish(alloc: Global, frames: Items<Frame>) -> Result<Option<Boxed<Proof>>, AllocError>
    ensures { IfOk result (λ o. option_map proof o ≡ moves.top (moves.built (frames_of frames) [])) }
{
    let mut frames = frames;
    let mut stack = Items::new(alloc);
    while let Some(frame) = frames.pop() {
        fill(alloc, frame, &mut stack)?;
    }
    Ok(stack.pop())
}

/// Fills a frame with proofs from the stack, and puts what it makes there. Where proofs are wanting
/// the stack is empty then.
#[tactic(auto, using(crate::proofs::Stacks::holds))]
fn fill(alloc: Global, frame: Frame, stack: &mut Stack) -> Result<(), AllocError>
    ensures { OnOk result (held stack.new ≡ moves.filled (frame_of frame) (held stack.old)) }
{
    match frame {
        Frame::Whole(d) => stack.push(d),
        Frame::UnderPredi => under_predi(alloc, stack),
        Frame::UnderAlli => under_alli(alloc, stack),
        Frame::UnderImpi => under_impi(alloc, stack),
        Frame::UnderOrl => under_orl(alloc, stack),
        Frame::UnderOrr => under_orr(alloc, stack),
        Frame::UnderFale => under_fale(alloc, stack),
        Frame::UnderExi(t) => under_exi(alloc, stack, t),
        Frame::Pair => pair(alloc, stack),
        Frame::Split(a, b, d) => split(alloc, stack, a, b, d),
        Frame::OpenUp(a, d) => open_up(alloc, stack, a, d),
        Frame::Cut(a, d) => cut(alloc, stack, a, d),
        Frame::Change(a, d) => change(alloc, stack, a, d),
        Frame::Lemma(a, m) => lemma(alloc, stack, a, m),
        Frame::Rewrite(a, t, u, d) => rewrite(alloc, stack, a, t, u, d),
        Frame::Give(a, i) => give(alloc, stack, a, i),
        Frame::Applied(stages, d) => applied(alloc, stack, stages, d),
        Frame::Induct(a, t, k) => induct(alloc, stack, a, t, k),
        Frame::ByParts(b, y, k, d) => by_parts(alloc, stack, b, y, k, d),
    }
}

/// Puts a proof on the stack.
fn put(alloc: Global, stack: &mut Stack, p: Proof) -> Result<(), AllocError>
    ensures { OnOk result (stack.new ≡ stack.old ++ p ∷ []) }
{
    stack.push(Boxed::new(alloc, p)?)
}

#[tactic(auto, using(crate::proofs::Stacks::holds))]
fn under_predi(alloc: Global, stack: &mut Stack) -> Result<(), AllocError>
    ensures { OnOk result (held stack.new ≡ moves.filled moves.under_predi (held stack.old)) }
{
    let Some(p) = stack.pop() else {
        return Ok(());
    };
    put(alloc, stack, Proof::Predi(p))
}

#[tactic(auto, using(crate::proofs::Stacks::holds))]
fn under_alli(alloc: Global, stack: &mut Stack) -> Result<(), AllocError>
    ensures { OnOk result (held stack.new ≡ moves.filled moves.under_alli (held stack.old)) }
{
    let Some(p) = stack.pop() else {
        return Ok(());
    };
    put(alloc, stack, Proof::Alli(p))
}

#[tactic(auto, using(crate::proofs::Stacks::holds))]
fn under_impi(alloc: Global, stack: &mut Stack) -> Result<(), AllocError>
    ensures { OnOk result (held stack.new ≡ moves.filled moves.under_impi (held stack.old)) }
{
    let Some(p) = stack.pop() else {
        return Ok(());
    };
    put(alloc, stack, Proof::Impi(p))
}

#[tactic(auto, using(crate::proofs::Stacks::holds))]
fn under_orl(alloc: Global, stack: &mut Stack) -> Result<(), AllocError>
    ensures { OnOk result (held stack.new ≡ moves.filled moves.under_orl (held stack.old)) }
{
    let Some(p) = stack.pop() else {
        return Ok(());
    };
    put(alloc, stack, Proof::Orl(p))
}

#[tactic(auto, using(crate::proofs::Stacks::holds))]
fn under_orr(alloc: Global, stack: &mut Stack) -> Result<(), AllocError>
    ensures { OnOk result (held stack.new ≡ moves.filled moves.under_orr (held stack.old)) }
{
    let Some(p) = stack.pop() else {
        return Ok(());
    };
    put(alloc, stack, Proof::Orr(p))
}

#[tactic(auto, using(crate::proofs::Stacks::holds))]
fn under_fale(alloc: Global, stack: &mut Stack) -> Result<(), AllocError>
    ensures { OnOk result (held stack.new ≡ moves.filled moves.under_fale (held stack.old)) }
{
    let Some(p) = stack.pop() else {
        return Ok(());
    };
    put(alloc, stack, Proof::Fale(p))
}

#[tactic(auto, using(crate::proofs::Stacks::holds))]
fn under_exi(alloc: Global, stack: &mut Stack, t: Boxed<Term>) -> Result<(), AllocError>
    ensures { OnOk result (held stack.new ≡ moves.filled (moves.under_exi (term t)) (held stack.old)) }
{
    let Some(p) = stack.pop() else {
        return Ok(());
    };
    put(alloc, stack, Proof::Exi(t.into_inner(), p))
}

#[tactic(auto, using(crate::proofs::Stacks::holds))]
fn pair(alloc: Global, stack: &mut Stack) -> Result<(), AllocError>
    ensures { OnOk result (held stack.new ≡ moves.filled moves.pair (held stack.old)) }
{
    let Some(p) = stack.pop() else {
        return Ok(());
    };
    let Some(q) = stack.pop() else {
        return Ok(());
    };
    put(alloc, stack, Proof::Andi(p, q))
}

#[tactic(auto, using(crate::proofs::Stacks::holds))]
fn split(
    alloc: Global,
    stack: &mut Stack,
    a: Boxed<Formula>,
    b: Boxed<Formula>,
    d: Boxed<Proof>,
) -> Result<(), AllocError>
    ensures { OnOk result (held stack.new ≡ moves.filled (moves.split (formula a) (formula b) (proof d)) (held stack.old)) }
{
    let Some(p) = stack.pop() else {
        return Ok(());
    };
    let Some(q) = stack.pop() else {
        return Ok(());
    };
    let p = Proof::Ore(a.into_inner(), b.into_inner(), d, p, q);
    put(alloc, stack, p)
}

#[tactic(auto, using(crate::proofs::Stacks::holds))]
fn open_up(
    alloc: Global,
    stack: &mut Stack,
    a: Boxed<Formula>,
    d: Boxed<Proof>,
) -> Result<(), AllocError>
    ensures { OnOk result (held stack.new ≡ moves.filled (moves.open_up (formula a) (proof d)) (held stack.old)) }
{
    let Some(p) = stack.pop() else {
        return Ok(());
    };
    put(alloc, stack, Proof::Exe(a.into_inner(), d, p))
}

#[tactic(auto, using(crate::proofs::Stacks::holds))]
fn cut(
    alloc: Global,
    stack: &mut Stack,
    a: Boxed<Formula>,
    d: Boxed<Proof>,
) -> Result<(), AllocError>
    ensures { OnOk result (held stack.new ≡ moves.filled (moves.cut (formula a) (proof d)) (held stack.old)) }
{
    let Some(p) = stack.pop() else {
        return Ok(());
    };
    let p = Boxed::new(alloc, Proof::Impi(p))?;
    put(alloc, stack, Proof::Impe(a.into_inner(), p, d))
}

#[tactic(auto, using(crate::proofs::Stacks::holds))]
fn change(
    alloc: Global,
    stack: &mut Stack,
    a: Boxed<Formula>,
    d: Boxed<Proof>,
) -> Result<(), AllocError>
    ensures { OnOk result (held stack.new ≡ moves.filled (moves.change (formula a) (proof d)) (held stack.old)) }
{
    let Some(p) = stack.pop() else {
        return Ok(());
    };
    let d = Boxed::new(alloc, Proof::Impi(d))?;
    put(alloc, stack, Proof::Impe(a.into_inner(), d, p))
}

#[tactic(auto, using(crate::proofs::Stacks::holds))]
fn lemma(alloc: Global, stack: &mut Stack, a: Boxed<Formula>, m: u32) -> Result<(), AllocError>
    ensures { OnOk result (held stack.new ≡ moves.filled (moves.lemma (formula a) m) (held stack.old)) }
{
    let Some(p) = stack.pop() else {
        return Ok(());
    };
    let Some(q) = stack.pop() else {
        return Ok(());
    };
    let p = Boxed::new(alloc, Proof::Orl(p))?;
    let known = Boxed::new(alloc, Proof::Hyp(m))?;
    let known = Boxed::new(alloc, Proof::Fale(known))?;
    let p = Proof::Ore(a.into_inner(), Formula::Falsum, p, q, known);
    put(alloc, stack, p)
}

#[tactic(auto, using(crate::proofs::Stacks::holds))]
fn rewrite(
    alloc: Global,
    stack: &mut Stack,
    a: Boxed<Formula>,
    t: Boxed<Term>,
    u: Boxed<Term>,
    d: Boxed<Proof>,
) -> Result<(), AllocError>
    ensures { OnOk result (held stack.new ≡ moves.filled (moves.rewrite (formula a) (term t) (term u) (proof d)) (held stack.old)) }
{
    let Some(p) = stack.pop() else {
        return Ok(());
    };
    let p = Proof::Repl(a.into_inner(), t.into_inner(), u.into_inner(), d, p);
    put(alloc, stack, p)
}

#[tactic(auto, using(crate::proofs::Stacks::holds))]
fn give(alloc: Global, stack: &mut Stack, a: Boxed<Formula>, i: u32) -> Result<(), AllocError>
    ensures { OnOk result (held stack.new ≡ moves.filled (moves.give (formula a) i) (held stack.old)) }
{
    let Some(p) = stack.pop() else {
        return Ok(());
    };
    let known = Boxed::new(alloc, Proof::Hyp(i))?;
    put(alloc, stack, Proof::Impe(a.into_inner(), p, known))
}

#[tactic(auto, using(crate::proofs::Stacks::holds))]
fn applied(
    alloc: Global,
    stack: &mut Stack,
    stages: Items<Stage>,
    d: Boxed<Proof>,
) -> Result<(), AllocError>
    ensures { OnOk result (held stack.new ≡ moves.filled (moves.applied (map stage_of stages) (proof d)) (held stack.old)) }
{
    let mut stages = turned(alloc, stages)?;
    let mut d = d;
    while let Some(stage) = stages.pop() {
        match stage {
            Stage::ForAll(a, t) => {
                d = Boxed::new(alloc, Proof::Alle(a.into_inner(), t.into_inner(), d))?;
            }
            Stage::WhereSo(a) => {
                let Some(p) = stack.pop() else {
                    return Ok(());
                };
                d = Boxed::new(alloc, Proof::Impe(a.into_inner(), d, p))?;
            }
        }
    }
    stack.push(d)
}

/// The stages in the other order.
fn turned(alloc: Global, stages: Items<Stage>) -> Result<Items<Stage>, AllocError>
    ensures { IfOk result (λ r. r ≡ reverse stages) }
{
    let mut left = stages;
    let mut turned = Items::new(alloc);
    while let Some(stage) = left.pop() {
        turned.push(stage)?;
    }
    Ok(turned)
}

#[tactic(auto, using(crate::proofs::Stacks::holds))]
fn induct(
    alloc: Global,
    stack: &mut Stack,
    a: Boxed<Formula>,
    t: Boxed<Term>,
    k: u32,
) -> Result<(), AllocError>
    ensures { OnOk result (held stack.new ≡ moves.filled (moves.induct (formula a) (term t) k) (held stack.old)) }
{
    let Some(p) = stack.pop() else {
        return Ok(());
    };
    let Some(q) = stack.pop() else {
        return Ok(());
    };
    let p = impis(alloc, k, p)?;
    let q = impis(alloc, k, q)?;
    let p = Proof::Ind(a.into_inner(), t.into_inner(), p, q);
    put(alloc, stack, p)
}

#[tactic(auto, using(crate::proofs::Stacks::holds))]
fn by_parts(
    alloc: Global,
    stack: &mut Stack,
    b: Boxed<Formula>,
    y: Boxed<Formula>,
    k: u32,
    d: Boxed<Proof>,
) -> Result<(), AllocError>
    ensures { OnOk result (held stack.new ≡ moves.filled (moves.by_parts (formula b) (formula y) k (proof d)) (held stack.old)) }
{
    let Some(p) = stack.pop() else {
        return Ok(());
    };
    let Some(q) = stack.pop() else {
        return Ok(());
    };
    let base = base(alloc, b, k, d, p)?;
    let q = impis(alloc, k, q)?;
    let step = Boxed::new(alloc, Proof::Alli(q))?;
    put(alloc, stack, Proof::Impe(y.into_inner(), base, step))
}

/// What the base gives: the target, where the step is known.
fn base(
    alloc: Global,
    b: Boxed<Formula>,
    k: u32,
    d: Boxed<Proof>,
    p: Boxed<Proof>,
) -> Result<Boxed<Proof>, AllocError>
    ensures { IfOk result (λ r. proof r ≡ logic.impe (formula b) (logic.impi (logic.impi (proof d))) (moves.impis k (proof p))) }
{
    let d = impis(alloc, 2, d)?;
    let p = impis(alloc, k, p)?;
    Boxed::new(alloc, Proof::Impe(b.into_inner(), d, p))
}

/// A proof under so many nodes that take an antecedent in.
#[tactic(auto, using(crate::proofs::Stacks::more_impis))]
fn impis(alloc: Global, k: u32, p: Boxed<Proof>) -> Result<Boxed<Proof>, AllocError>
    ensures { IfOk result (λ r. proof r ≡ moves.impis k (proof p)) }
{
    let mut p = p;
    for _ in 0..k {
        p = Boxed::new(alloc, Proof::Impi(p))?;
    }
    Ok(p)
}
