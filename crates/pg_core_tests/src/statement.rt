//! Closed formulas of statements.
ghost use Rattle.std.specs.Prelude.{◌≡◌, ◌++◌, ◌∷◌, [], ◌<◌, ◌^◌, IfOk};
ghost use Rattle.pg_logic.specs.Tree.{eq, free};
ghost use Rattle.pg_syntax.specs.Statements.{AreTight, total};

use pg_arith::Signature;
use pg_syntax::{Binder, Names, Statement, print_formula, statement_formula};
use pg_terms::{Formula, Name, Term};
use std::alloc::{AllocError, Global};
use std::test::Fail;

fn with_binder(mut binders: Vec<Binder>, binder: Binder) -> Result<Vec<Binder>, AllocError>
    ensures { IfOk result (λ all. all.items ≡ binders.items ++ binder ∷ []) }
{
    match binders.push(binder) {
        Ok(()) => Ok(binders),
        Err(_) => Err(AllocError),
    }
}

/// `(n : ℕ) (h : n = 0) (m : ℕ)`
fn binders(alloc: Global) -> Result<Vec<Binder>, AllocError>
    ensures tight { IfOk result (λ all. AreTight all.items (eq (free 1) (free 0))) }
    ensures small { IfOk result (λ all. total all.items (eq (free 1) (free 0)) < 2 ^ 32) }
{
    let first = Binder::Var(Name::new(alloc, "n")?);
    let second = Binder::Hyp(
        Name::new(alloc, "h")?,
        Formula::Eq(Term::Free(0), Term::Zero),
    );
    let third = Binder::Var(Name::new(alloc, "m")?);
    with_binder(
        with_binder(with_binder(Vec::new(alloc), first)?, second)?,
        third,
    )
}

/// The closed formula of `(n : ℕ) (h : n = 0) (m : ℕ) : m = n`.
fn closed(alloc: Global) -> Result<Formula, AllocError> {
    let statement = Statement {
        binders: binders(alloc)?,
        target: Formula::Eq(Term::Free(1), Term::Free(0)),
    };
    statement_formula(alloc, &statement)
}

/// What is printed of a formula without variables.
fn printed(alloc: Global, a: &Formula) -> Result<String, AllocError> {
    let names = Names {
        vars: Vec::new(alloc),
    };
    let sig = Signature::new(alloc)?;
    print_formula(alloc, a, &names, &sig)
}

#[test]
fn the_first_binder_is_the_outermost(rt: HostRuntime) -> Result<(), Fail> {
    let alloc = rt.alloc();
    let a = closed(alloc)?;
    let text = printed(alloc, &a)?;
    assert!(rt; text.as_str() == "∀ n, n = 0 → (∀ m, m = n)");
    Ok(())
}
