//! The theorem numbers that a proof names.

ghost use Rattle.std.specs.Prelude.{◌≡◌, ◌==◌, ℕ, ◌||◌, IfOk, OnOk};
ghost use Rattle.std.specs.Ordering.{nat_cmp};
ghost use Rattle.std.specs.BTreeSet.{contains};
ghost use Rattle.pg_kernel.specs.Names.{is_named, AreNames};
ghost use Rattle.pg_kernel.specs.View.{proof};

use crate::proof::Proof;
use sqlite_items::Items;
use std::alloc::{AllocError, Global};
use std::collections::BTreeSet;

/// The theorem numbers that a proof names, each once, ascending. It fails only for want of memory.
pub fn uses(alloc: Global, p: &Proof) -> Result<BTreeSet<u32>, AllocError>
    ensures { IfOk result (λ names. AreNames (proof p.now) names.keys) }
{
    let mut names = BTreeSet::new(alloc);
    gather(p, &mut names)?;
    let _ = names.len();
    Ok(names)
}

/// Puts the theorem numbers that a proof names into a set.
fn gather(p: &Proof, names: &mut BTreeSet<u32>) -> Result<(), AllocError>
    ensures { OnOk result ((i : ℕ) → contains nat_cmp names.new i ≡ (is_named i (proof p.now) || contains nat_cmp names.old i)) }
{
    match p {
        Proof::Hyp(_) | Proof::Lem | Proof::Refl => Ok(()),
        Proof::Thm(k) => put(names, *k),
        Proof::Orl(p)
        | Proof::Orr(p)
        | Proof::Impi(p)
        | Proof::Fale(p)
        | Proof::Alli(p)
        | Proof::Predi(p) => gather(p.get(), names),
        Proof::Andl(_, p) | Proof::Andr(_, p) | Proof::Prede(_, p) => gather(p.get(), names),
        Proof::Exi(_, p) => gather(p.get(), names),
        Proof::Alle(_, _, p) => gather(p.get(), names),
        Proof::Andi(p, q) => {
            gather(p.get(), names)?;
            gather(q.get(), names)
        }
        Proof::Impe(_, p, q) => {
            gather(p.get(), names)?;
            gather(q.get(), names)
        }
        Proof::Exe(_, p, q) => {
            gather(p.get(), names)?;
            gather(q.get(), names)
        }
        Proof::Ind(_, _, p, q) => {
            gather(p.get(), names)?;
            gather(q.get(), names)
        }
        Proof::Repl(_, _, _, p, q) => {
            gather(p.get(), names)?;
            gather(q.get(), names)
        }
        Proof::Ore(_, _, p, q, r) => {
            gather(p.get(), names)?;
            gather(q.get(), names)?;
            gather(r.get(), names)
        }
    }
}

/// Puts a number into a set.
fn put(names: &mut BTreeSet<u32>, k: u32) -> Result<(), AllocError>
    ensures { OnOk result ((i : ℕ) → contains nat_cmp names.new i ≡ (k == i || contains nat_cmp names.old i)) }
{
    match names.insert(k) {
        Ok(_) => Ok(()),
        Err(_) => Err(AllocError),
    }
}

/// The theorem numbers that a proof names, as a list.
pub fn names_of(alloc: Global, p: &Proof) -> Result<Items<u32>, AllocError>
    ensures { IfOk result (λ names. AreNames (proof p.now) names) }
{
    let set = uses(alloc, p)?;
    listed(alloc, &set)
}

/// The numbers of a set, ascending.
fn listed(alloc: Global, set: &BTreeSet<u32>) -> Result<Items<u32>, AllocError>
    ensures { IfOk result (λ numbers. numbers ≡ set.now.keys) }
{
    let mut numbers = Items::new(alloc);
    for k in set {
        numbers.push(*k)?;
    }
    Ok(numbers)
}
