// Formulas that goals share.
ghost use Rattle.std.specs.Prelude.{◌≡◌, ◌-◌, ◌^◌, min, IfOk};
ghost use Rattle.pg_logic.specs.Tree.{nodes_of, height_of};
ghost use Rattle.pg_terms.specs.View.{formula};

use pg_terms::Formula;
use sqlite_items::Boxed;
use std::alloc::{AllocError, Global};
use std::marker::Model;
use std::rc::Rc;

/// A formula that goals share, and its measures, which are counted once, when it is made. A contract
/// sees it as the formula.
#[derive(Drop)]
pub struct Shared {
    formula: Rc<Formula>,
    nodes: u64,
    height: u32,
}

impl Model for Shared {
    ghost use Rattle.pg_terms.specs.declared.formula.Formula.{Formula};
    ghost use Rattle.std.specs.Coded.{codes};
    ghost use Rattle.pg_terms.specs.contracts.formula.Formula as f;

    ghost Value = { Formula };

    ghost coded = { Prim.hlevel (codes, f.the_row.coded) };

    ghost use Rattle.pg_goal.specs.Measured.{whole, IsMeasured};

    ghost view = { whole };

    ghost invariant = { IsMeasured };
}

impl Shared {
    /// The formula, measured, with no other owner yet. It takes time linear in the formula, and fails
    /// only for want of memory.
    pub fn new(alloc: Global, a: Boxed<Formula>) -> Result<Shared, AllocError>
        ensures { IfOk result (λ s. s ≡ a) }
    {
        let nodes = a.get().size();
        let height = a.get().height();
        let formula = Rc::new(alloc, a.into_inner())?;
        Ok(Shared {
            formula,
            nodes,
            height,
        })
    }

    /// The same formula, with one owner more: nothing of it is copied. It fails only where no more
    /// owners can be counted.
    pub fn shared(&self) -> Result<Shared, AllocError>
        ensures { IfOk result (λ s. s ≡ self.now) }
    {
        Ok(Shared {
            formula: self.formula.clone()?,
            nodes: self.nodes,
            height: self.height,
        })
    }

    /// The formula itself.
    pub fn get(&self) -> &Formula
        ensures { result.now ≡ self.now }
    {
        self.formula.as_ref()
    }

    /// How many nodes the formula has, or else the type's end: as its `size`, without counting.
    pub fn size(&self) -> u64
        ensures { result ≡ min (nodes_of (formula self.now)) (2 ^ 64 - 1) }
    {
        self.nodes
    }

    /// How high the formula is, or else the type's end: as its `height`, without counting.
    pub fn height(&self) -> u32
        ensures { result ≡ min (height_of (formula self.now)) (2 ^ 32 - 1) }
    {
        self.height
    }
}
