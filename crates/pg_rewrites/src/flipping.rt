// Equations the other way round.
ghost use Rattle.std.specs.Prelude.{◌≡◌, IfOk};
ghost use Rattle.pg_logic.specs.Tree as tree;
ghost use Rattle.pg_kernel.specs.View.{proof};
ghost use Rattle.pg_moves.specs.Frames as frames;
ghost use Rattle.pg_terms.specs.View.{term, formula};

use pg_kernel::Proof;
use pg_terms::{Formula, Term};
use sqlite_items::Boxed;
use std::alloc::{AllocError, Global};

/// `t = s`, from a proof of `s = t`.
pub fn flipped(
    alloc: Global,
    s: &Term,
    t: &Term,
    by: Boxed<Proof>,
) -> Result<Boxed<Proof>, AllocError>
    ensures { IfOk result (λ r. proof r ≡ frames.flipped (term s.now) (term t.now) (proof by)) }
{
    let body = equation(alloc, &Term::Bound(0), s)?;
    let same = Boxed::new(alloc, Proof::Refl)?;
    let s = Boxed::new(alloc, s.copied(alloc)?)?;
    let t = t.copied(alloc)?;
    Boxed::new(
        alloc,
        Proof::Repl(body.into_inner(), s.into_inner(), t, by, same),
    )
}

/// An equation of equal terms.
fn equation(alloc: Global, s: &Term, t: &Term) -> Result<Boxed<Formula>, AllocError>
    ensures { IfOk result (λ r. formula r ≡ tree.eq (term s.now) (term t.now)) }
{
    let s = Boxed::new(alloc, s.copied(alloc)?)?;
    let t = t.copied(alloc)?;
    Boxed::new(alloc, Formula::Eq(s.into_inner(), t))
}
