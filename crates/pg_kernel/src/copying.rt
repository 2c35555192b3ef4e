//! Copies of proofs.

ghost use Rattle.std.specs.Prelude.{◌≡◌, IfOk};

use crate::goals::boxed;
use crate::proof::Proof;
use pg_terms::{Formula, Term};
use sqlite_items::Boxed;
use std::alloc::{AllocError, Global};

impl Proof {
    /// An equal proof, the names of binders included. It fails only for want of memory.
    pub fn copied(&self, alloc: Global) -> Result<Proof, AllocError>
        ensures { IfOk result (λ p. p ≡ self.now) }
    {
        copy(alloc, self)
    }
}

#[cycle(copy)]
fn copy(alloc: Global, p: &Proof) -> Result<Proof, AllocError>
    ensures { IfOk result (λ r. r ≡ p.now) }
{
    match p {
        Proof::Hyp(i) => Ok(Proof::Hyp(*i)),
        Proof::Thm(k) => Ok(Proof::Thm(*k)),
        Proof::Andi(p, q) => {
            let (p, q) = two(alloc, p.get(), q.get())?;
            Ok(Proof::Andi(p, q))
        }
        Proof::Andl(b, p) => {
            let p = one(alloc, p.get())?;
            Ok(Proof::Andl(b.copied(alloc)?, p))
        }
        Proof::Andr(a, p) => {
            let p = one(alloc, p.get())?;
            Ok(Proof::Andr(a.copied(alloc)?, p))
        }
        Proof::Orl(p) => Ok(Proof::Orl(one(alloc, p.get())?)),
        Proof::Orr(p) => Ok(Proof::Orr(one(alloc, p.get())?)),
        Proof::Ore(a, b, p, q, r) => {
            let (p, q, r) = three(alloc, p.get(), q.get(), r.get())?;
            let (a, b) = sides(alloc, a, b)?;
            Ok(Proof::Ore(a, b, p, q, r))
        }
        Proof::Impi(p) => Ok(Proof::Impi(one(alloc, p.get())?)),
        Proof::Impe(a, p, q) => {
            let (p, q) = two(alloc, p.get(), q.get())?;
            Ok(Proof::Impe(a.copied(alloc)?, p, q))
        }
        Proof::Fale(p) => Ok(Proof::Fale(one(alloc, p.get())?)),
        Proof::Lem => Ok(Proof::Lem),
        Proof::Alli(p) => Ok(Proof::Alli(one(alloc, p.get())?)),
        Proof::Alle(a, t, p) => {
            let p = one(alloc, p.get())?;
            let (a, t) = instance(alloc, a, t)?;
            Ok(Proof::Alle(a, t, p))
        }
        Proof::Exi(t, p) => {
            let p = one(alloc, p.get())?;
            Ok(Proof::Exi(t.copied(alloc)?, p))
        }
        Proof::Exe(a, p, q) => {
            let (p, q) = two(alloc, p.get(), q.get())?;
            Ok(Proof::Exe(a.copied(alloc)?, p, q))
        }
        Proof::Refl => Ok(Proof::Refl),
        Proof::Repl(a, s, t, p, q) => {
            let (p, q) = two(alloc, p.get(), q.get())?;
            let (a, s, t) = instances(alloc, a, s, t)?;
            Ok(Proof::Repl(a, s, t, p, q))
        }
        Proof::Ind(a, t, p, q) => {
            let (p, q) = two(alloc, p.get(), q.get())?;
            let (a, t) = instance(alloc, a, t)?;
            Ok(Proof::Ind(a, t, p, q))
        }
        Proof::Predi(p) => Ok(Proof::Predi(one(alloc, p.get())?)),
        Proof::Prede(a, p) => {
            let p = one(alloc, p.get())?;
            Ok(Proof::Prede(a.copied(alloc)?, p))
        }
    }
}

/// The proof of a premise.
#[cycle(copy)]
fn one(alloc: Global, p: &Proof) -> Result<Boxed<Proof>, AllocError>
    ensures { IfOk result (λ r. r ≡ p.now) }
{
    Boxed::new(alloc, copy(alloc, p)?)
}

/// The proofs of two premises.
#[cycle(copy)]
fn two(alloc: Global, p: &Proof, q: &Proof) -> Result<(Boxed<Proof>, Boxed<Proof>), AllocError>
    ensures { IfOk result (λ r. r ≡ (p.now, q.now)) }
{
    let p = one(alloc, p)?;
    Ok((p, one(alloc, q)?))
}

/// The proofs of three premises.
#[cycle(copy)]
fn three(
    alloc: Global,
    p: &Proof,
    q: &Proof,
    r: &Proof,
) -> Result<(Boxed<Proof>, Boxed<Proof>, Boxed<Proof>), AllocError>
    ensures { IfOk result (λ s. s ≡ (p.now, q.now, r.now)) }
{
    let (p, q) = two(alloc, p, q)?;
    Ok((p, q, one(alloc, r)?))
}

/// Two formulas.
fn sides(alloc: Global, a: &Formula, b: &Formula) -> Result<(Formula, Formula), AllocError>
    ensures { IfOk result (λ r. r ≡ (a.now, b.now)) }
{
    let a = boxed(alloc, a)?;
    let b = b.copied(alloc)?;
    Ok((a.into_inner(), b))
}

/// A body and a term.
fn instance(alloc: Global, a: &Formula, t: &Term) -> Result<(Formula, Term), AllocError>
    ensures { IfOk result (λ r. r ≡ (a.now, t.now)) }
{
    let a = boxed(alloc, a)?;
    let t = t.copied(alloc)?;
    Ok((a.into_inner(), t))
}

/// A body and two terms.
fn instances(
    alloc: Global,
    a: &Formula,
    s: &Term,
    t: &Term,
) -> Result<(Formula, Term, Term), AllocError>
    ensures { IfOk result (λ r. r ≡ (a.now, s.now, t.now)) }
{
    let a = boxed(alloc, a)?;
    let s = Boxed::new(alloc, s.copied(alloc)?)?;
    let t = t.copied(alloc)?;
    Ok((a.into_inner(), s.into_inner(), t))
}
