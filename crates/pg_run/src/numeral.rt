// Numerals, and equations of two of them.
ghost use Rattle.std.specs.Prelude.{◌≡◌, IsTrue, IfOk};
ghost use Rattle.pg_logic.specs.Tree as tree;
ghost use Rattle.pg_logic.specs.Numeral.{is_numeral, is_numeral_equation};
ghost use Rattle.pg_terms.specs.View as view;

use pg_terms::{Formula, Term};
use sqlite_items::Boxed;
use std::alloc::{AllocError, Global};

/// A term over `0` and `succ`.
#[derive(Drop)]
pub struct Numeral {
    pub term: Boxed<Term>,
    ghost numeral: { IsTrue (is_numeral (view.term term)) },
}

impl Numeral {
    /// The numeral `0`.
    pub fn zero(alloc: Global) -> Result<Numeral, AllocError>
        ensures { IfOk result (λ n. view.term n.term ≡ tree.nought) }
    {
        Ok(Numeral {
            term: Boxed::new(alloc, Term::Zero)?,
        })
    }

    /// The numeral after this one.
    pub fn successor(self, alloc: Global) -> Result<Numeral, AllocError>
        ensures { IfOk result (λ n. view.term n.term ≡ tree.succ (view.term self.term)) }
    {
        Ok(Numeral {
            term: Boxed::new(alloc, Term::Succ(self.term))?,
        })
    }
}

/// The target of a one-level game: an equation of two numerals.
#[derive(Drop)]
pub struct Target {
    pub formula: Boxed<Formula>,
    ghost numerals: { IsTrue (is_numeral_equation (view.formula formula)) },
}

impl Target {
    /// The equation of these two sides.
    pub fn new(alloc: Global, left: Numeral, right: Numeral) -> Result<Target, AllocError>
        ensures { IfOk result (λ target. view.formula target.formula ≡ tree.eq (view.term left.term) (view.term right.term)) }
    {
        let equation = Formula::Eq(left.term.into_inner(), right.term.into_inner());
        Ok(Target {
            formula: Boxed::new(alloc, equation)?,
        })
    }
}
