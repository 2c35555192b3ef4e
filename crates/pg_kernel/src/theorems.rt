ghost use Rattle.std.specs.Prelude.{◌≡◌, ℕ, [], ◌∷◌, ◌++◌, ◌+◌, ◌-◌, ◌^◌, ◌<◌, length, map, slice_get, IfOk, OnOk, OnErr};
ghost use Rattle.std.specs.Option.{option_copied};
ghost use Rattle.pg_logic.specs.Axioms.{axioms};
ghost use Rattle.pg_logic.specs.Sound.{IsTheorem};
ghost use Rattle.pg_terms.specs.View.{formulas};
ghost use Rattle.pg_arith.specs.View.{declarations, signature};

use pg_arith::Signature;
use pg_terms::Formula;
use sqlite_items::{Items, at};
use std::alloc::{AllocError, Global};
use std::marker::Model;

/// The theorems that a proof may name, by number: the axioms of a signature, and what was put
/// after them. A contract sees it as the list of their formulas.
#[derive(Drop)]
pub struct Theorems {
    formulas: Items<Formula>,
}

impl Model for Theorems {
    ghost use Rattle.std.specs.Prelude.{List};
    ghost use Rattle.pg_terms.specs.declared.formula.Formula.{Formula};
    ghost use Rattle.std.specs.Coded.{codes};
    ghost use Rattle.pg_terms.specs.contracts.formula.Formula as f;

    ghost Value = { List Formula };

    ghost coded = { Prim.hlevel (codes, f.the_row.coded) };

    ghost use Rattle.std.specs.Prelude.{◌^◌, ◌<◌, length};

    ghost view = { λ t. t.formulas };

    ghost invariant = { λ t. length t.formulas < 2 ^ 32 };
}

impl Theorems {
    /// The axioms of a signature, in their order. It fails only for want of memory.
    pub fn new(alloc: Global, sig: &Signature) -> Result<Theorems, AllocError>
        ensures axioms { IfOk result (λ t. formulas t ≡ map (λ x. x.says) (axioms (declarations sig.now))) }
        // each of them fits no variable and is true
        ensures theorems { IfOk result (λ t. (k : ℕ) → IsTheorem (signature sig.now) (formulas t) k) }
    {
        sig.declared_law();
        let mut formulas = Items::new(alloc);
        for id in 0..sig.axiom_count() {
            formulas.push(sig.axiom(alloc, id)?)?;
        }
        Ok(Theorems { formulas })
    }

    /// Puts a theorem after the others and gives its number. There are fewer than 2^32 - 1 before.
    /// It fails only for want of memory, and leaves the theorems as they were then.
    pub fn push(&mut self, formula: Formula) -> Result<u32, AllocError>
        requires { length self.old < 2 ^ 32 - 1 }
        ensures added { OnOk result (self.new ≡ self.old ++ formula ∷ []) }
        ensures number { IfOk result (λ id. id ≡ length self.old) }
        ensures unchanged { OnErr result (self.new ≡ self.old) }
    {
        let id = self.formulas.len() as u32;
        self.formulas.push(formula)?;
        Ok(id)
    }

    /// The law of the count, which a caller's proof can take from here: there are fewer than 2^32
    /// theorems. It does nothing.
    pub(crate) fn count_law(&self)
        ensures { length self.now < 2 ^ 32 }
    {
        let _ = &self.formulas;
    }

    /// How many theorems there are. Takes no memory.
    pub fn count(&self) -> u32
        ensures { result ≡ length self.now }
    {
        self.formulas.len() as u32
    }

    /// The theorem of this number, where there is one. Takes no memory.
    pub fn get(&self, id: u32) -> Option<&Formula>
        ensures { option_copied result ≡ slice_get self.now id }
    {
        at(self.formulas.as_slice(), id as usize)
    }

    /// The theorems, in order.
    pub(crate) fn as_slice(&self) -> &[Formula]
        ensures { result.now ≡ self.now }
    {
        self.formulas.as_slice()
    }
}
