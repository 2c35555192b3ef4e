//! Trees closed over a free variable.
ghost use Rattle.std.specs.Prelude.{◌≡◌, ◌≢◌, [], IfOk};
ghost use Rattle.pg_logic.specs.Tree as tree;
ghost use Rattle.pg_terms.specs.View.{term, formula};

use pg_terms::{Formula, Name, Term};
use sqlite_items::Boxed;
use std::alloc::{AllocError, Global};
use std::test::Fail;

/// The universal formula of an equation.
fn all_equal(alloc: Global, name: &str, a: Term, b: Term) -> Result<Boxed<Formula>, AllocError>
    requires { name.now ≢ [] }
    ensures { IfOk result (λ r. formula r ≡ tree.all name.now (tree.eq (term a) (term b))) }
{
    let body = Boxed::new(alloc, Formula::Eq(a, b))?;
    Boxed::new(alloc, Formula::All(Name::new(alloc, name)?, body))
}

#[test]
fn closing_counts_the_binders(rt: HostRuntime) -> Result<(), Fail> {
    let alloc = rt.alloc();
    let a = all_equal(alloc, "x", Term::Free(3), Term::Bound(0))?;
    let want = all_equal(alloc, "x", Term::Bound(1), Term::Bound(0))?;
    assert!(rt; a.get().closed_over(alloc, 3)?.same(want.get()));
    assert!(rt; Term::Free(3).closed_over(alloc, 3)?.same(&Term::Bound(0)));
    Ok(())
}
