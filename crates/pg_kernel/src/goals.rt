//! Goals of premises, made from parts, in boxes: dropping one is then a single call.

ghost use Rattle.std.specs.Prelude.{◌≡◌, IfOk};
ghost use Rattle.pg_logic.specs.Tree as tree;
ghost use Rattle.pg_logic.specs.Kernel as logic;
ghost use Rattle.pg_terms.specs.View.{term, formula};

use pg_terms::{Formula, Name, Term};
use sqlite_items::Boxed;
use std::alloc::{AllocError, Global};

/// An equal formula in a box.
pub fn boxed(alloc: Global, a: &Formula) -> Result<Boxed<Formula>, AllocError>
    ensures { IfOk result (λ r. r ≡ a.now) }
{
    Boxed::new(alloc, a.copied(alloc)?)
}

/// A body opened by a term.
pub fn opened(alloc: Global, a: &Formula, t: &Term) -> Result<Boxed<Formula>, AllocError>
    ensures { IfOk result (λ r. formula r ≡ tree.opened_formula (term t.now) (formula a.now)) }
{
    Boxed::new(alloc, a.opened(alloc, t)?)
}

/// A body opened by the newest variable.
pub fn newest(alloc: Global, vars: u32, a: &Formula) -> Result<Boxed<Formula>, AllocError>
    ensures { IfOk result (λ r. formula r ≡ tree.opened_formula (tree.free vars) (formula a.now)) }
{
    opened(alloc, a, &Term::Free(vars))
}

/// A conjunction of equal formulas.
pub fn and(alloc: Global, a: &Formula, b: &Formula) -> Result<Boxed<Formula>, AllocError>
    ensures { IfOk result (λ r. formula r ≡ tree.and (formula a.now) (formula b.now)) }
{
    Boxed::new(alloc, Formula::And(boxed(alloc, a)?, boxed(alloc, b)?))
}

/// A disjunction of equal formulas.
pub fn or(alloc: Global, a: &Formula, b: &Formula) -> Result<Boxed<Formula>, AllocError>
    ensures { IfOk result (λ r. formula r ≡ tree.or (formula a.now) (formula b.now)) }
{
    Boxed::new(alloc, Formula::Or(boxed(alloc, a)?, boxed(alloc, b)?))
}

/// An implication of equal formulas.
pub fn imp(alloc: Global, a: &Formula, b: &Formula) -> Result<Boxed<Formula>, AllocError>
    ensures { IfOk result (λ r. formula r ≡ tree.imp (formula a.now) (formula b.now)) }
{
    Boxed::new(alloc, Formula::Imp(boxed(alloc, a)?, boxed(alloc, b)?))
}

/// The universal formula of an equal body.
pub fn all(alloc: Global, a: &Formula) -> Result<Boxed<Formula>, AllocError>
    ensures { IfOk result (λ r. formula r ≡ tree.all logic.any_name (formula a.now)) }
{
    Boxed::new(
        alloc,
        Formula::All(Name::new(alloc, "x")?, boxed(alloc, a)?),
    )
}

/// The existential formula of an equal body.
pub fn ex(alloc: Global, a: &Formula) -> Result<Boxed<Formula>, AllocError>
    ensures { IfOk result (λ r. formula r ≡ tree.ex logic.any_name (formula a.now)) }
{
    Boxed::new(alloc, Formula::Ex(Name::new(alloc, "x")?, boxed(alloc, a)?))
}

/// An equation of equal terms.
pub fn eq(alloc: Global, s: &Term, t: &Term) -> Result<Boxed<Formula>, AllocError>
    ensures { IfOk result (λ r. formula r ≡ tree.eq (term s.now) (term t.now)) }
{
    Boxed::new(alloc, Formula::Eq(s.copied(alloc)?, t.copied(alloc)?))
}

/// Whether a formula is `A ∨ (A → False)`.
pub fn is_middle(a: &Formula) -> bool
    ensures { result ≡ logic.is_middle (formula a.now) }
{
    match a {
        Formula::Or(a, b) => match b.get() {
            Formula::Imp(b, c) => matches!(c.get(), Formula::Falsum) && a.get().same(b.get()),
            _ => false,
        },
        _ => false,
    }
}

/// Whether a formula is `t = t`.
pub fn is_reflexive(a: &Formula) -> bool
    ensures { result ≡ logic.is_reflexive (formula a.now) }
{
    match a {
        Formula::Eq(s, t) => s.same(t),
        _ => false,
    }
}
