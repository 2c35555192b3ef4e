//! Goals with accepted proofs.

ghost use Rattle.std.specs.Prelude.{◌≡◌, ℕ, [], IfOk, IfSome, IfNone, IsTrue};
ghost use Rattle.pg_logic.specs.Signature as arith;
ghost use Rattle.pg_logic.specs.Sound.{IsTheorem};
ghost use Rattle.pg_logic.specs.Truth.{IsTrueOf};
ghost use Rattle.pg_terms.specs.View.{formula, formulas};
ghost use Rattle.pg_arith.specs.View.{signature};
ghost use Rattle.pg_kernel.specs.Names.{is_named, AreNames};
ghost use Rattle.pg_kernel.specs.View as view;
ghost use Rattle.pg_kernel.specs.View.{proof};
ghost use Rattle.pg_kernel.specs.Admission.{Accepts, IsAdmitted};

use crate::checking::{Verdict, check};
use crate::named::names_of;
use crate::proof::Proof;
use crate::theorems::Theorems;
use pg_arith::Signature;
use pg_terms::Formula;
use sqlite_items::{Boxed, Items};
use std::alloc::{AllocError, Global};
use std::marker::Model;

/// A goal and a proof of it that the kernel accepted in the empty context: no variables and no
/// hypotheses. It is given by `admit` alone, and is not copied. A contract sees it as the goal and
/// the proof.
#[derive(Drop)]
pub struct Checked {
    goal: Boxed<Formula>,
    proof: Boxed<Proof>,
    names: Items<u32>,
}

impl Model for Checked {
    ghost use Rattle.pg_terms.specs.declared.formula.Formula.{Formula};
    ghost use Rattle.pg_kernel.specs.declared.proof.Proof.{Proof};
    ghost use Rattle.std.specs.Coded.{codes};
    ghost use Rattle.pg_terms.specs.contracts.formula.Formula as f;
    ghost use Rattle.pg_kernel.specs.contracts.proof.Proof as p;

    ghost Value = { Formula × Proof };

    ghost coded = { Prim.hlevel (codes, f.the_row.coded, p.the_row.coded) };

    ghost view = { λ c. (c.goal, c.proof) };

    ghost use Rattle.pg_kernel.specs.Admission.{IsChecked};

    ghost invariant = { λ c. IsChecked c.goal c.proof c.names };
}

impl Checked {
    /// The goal. Takes no memory.
    pub fn goal(&self) -> &Formula
        ensures { result.now ≡ self.now.0 }
    {
        self.goal.get()
    }

    /// The proof. Takes no memory.
    pub fn proof(&self) -> &Proof
        ensures value { result.now ≡ self.now.1 }
        // over some declared signature and fewer than 2^32 theorems the kernel accepts it for the
        // goal
        ensures accepted { IsAdmitted (formula self.now.0) (proof self.now.1) }
    {
        self.proof.get()
    }

    /// The numbers of the theorems that the proof names, each once, ascending. Takes no memory.
    pub fn names(&self) -> &[u32]
        ensures { AreNames (proof self.now.1) result.now }
    {
        self.names.as_slice()
    }
}

/// The goal with its proof, exactly where the kernel accepts this proof of it in the empty context,
/// over the signature and the theorems. The goal fits 0 variables. Else the two are dropped. It
/// fails only for want of memory.
pub fn admit(
    alloc: Global,
    sig: &Signature,
    theorems: &Theorems,
    goal: Formula,
    proof: Proof,
) -> Result<Option<Checked>, AllocError>
    requires { IsTrue (arith.fits (signature sig.now) 0 0 (formula goal)) }
    ensures accepted { IfOk result (λ o. IfSome o (λ c. (c ≡ (goal, proof)) × Accepts (signature sig.now) (formulas theorems.now) (view.proof proof) (formula goal))) }
    ensures refused { IfOk result (λ o. IfNone o (Accepts (signature sig.now) (formulas theorems.now) (view.proof proof) (formula goal) → ⊥)) }
    // the goal is true where each theorem that the proof names fits no variable and is true
    ensures sound { IfOk result (λ o. IfSome o (λ c. ((k : ℕ) → IsTrue (is_named k (view.proof c.1)) → IsTheorem (signature sig.now) (formulas theorems.now) k) → IsTrueOf (signature sig.now) [] (formula c.0))) }
{
    let (goal, proof) = boxed(alloc, goal, proof)?;
    match examined(alloc, sig, theorems, goal.get(), proof.get())? {
        Some(names) => Ok(Some(Checked { goal, proof, names })),
        None => Ok(None),
    }
}

/// A goal and a proof in boxes.
fn boxed(
    alloc: Global,
    goal: Formula,
    proof: Proof,
) -> Result<(Boxed<Formula>, Boxed<Proof>), AllocError>
    ensures { IfOk result (λ r. r ≡ (goal, proof)) }
{
    let proof = Boxed::new(alloc, proof)?;
    Ok((Boxed::new(alloc, goal)?, proof))
}

/// The names of a proof that the kernel accepts, and none of one that it refuses.
fn examined(
    alloc: Global,
    sig: &Signature,
    theorems: &Theorems,
    goal: &Formula,
    p: &Proof,
) -> Result<Option<Items<u32>>, AllocError>
    requires { IsTrue (arith.fits (signature sig.now) 0 0 (formula goal.now)) }
    ensures some { IfOk result (λ o. IfSome o (λ names. AreNames (proof p.now) names × Accepts (signature sig.now) (formulas theorems.now) (proof p.now) (formula goal.now))) }
    ensures admitted { IfOk result (λ o. IfSome o (λ _. IsAdmitted (formula goal.now) (proof p.now))) }
    ensures none { IfOk result (λ o. IfNone o (Accepts (signature sig.now) (formulas theorems.now) (proof p.now) (formula goal.now) → ⊥)) }
    ensures sound { IfOk result (λ o. IfSome o (λ names. ((k : ℕ) → IsTrue (is_named k (proof p.now)) → IsTheorem (signature sig.now) (formulas theorems.now) k) → IsTrueOf (signature sig.now) [] (formula goal.now))) }
{
    sig.declared_law();
    theorems.count_law();
    match check(alloc, sig, theorems, 0, &[], p, goal)? {
        Verdict::Accepted => Ok(Some(names_of(alloc, p)?)),
        Verdict::Refused { .. } => Ok(None),
    }
}
