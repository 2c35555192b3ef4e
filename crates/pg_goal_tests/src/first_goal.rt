//! The first goal of a statement.
ghost use Rattle.std.specs.Prelude.{◌≡◌, ◌++◌, ◌∷◌, [], length, IfOk, OnOk};

use pg_goal::{Goal, initial};
use pg_syntax::{Binder, Statement};
use pg_terms::{Formula, Name, Term};
use sqlite_items::Boxed;
use std::alloc::{AllocError, Global};
use std::test::Fail;

/// The first goal of `(n : ℕ) (h : n = 0) : 0 = n`.
fn first(alloc: Global) -> Result<Goal, AllocError>
    ensures vars { IfOk result (λ g. length g.vars ≡ 1) }
    ensures hyps { IfOk result (λ g. length g.hyps ≡ 1) }
{
    let mut binders = Vec::new(alloc);
    push(&mut binders, Binder::Var(Name::new(alloc, "n")?))?;
    let zero = Formula::Eq(Term::Free(0), Term::Zero);
    push(&mut binders, Binder::Hyp(Name::new(alloc, "h")?, zero))?;
    let statement = Statement {
        binders,
        target: Formula::Eq(Term::Zero, Term::Free(0)),
    };
    initial(alloc, &statement)
}

fn push(binders: &mut Vec<Binder>, binder: Binder) -> Result<(), AllocError>
    ensures { OnOk result (binders.new.items ≡ binders.old.items ++ binder ∷ []) }
{
    binders.push(binder)?;
    Ok(())
}

#[test]
fn variables_and_hypotheses_are_named(rt: HostRuntime) -> Result<(), Fail> {
    let alloc = rt.alloc();
    let goal = first(alloc)?.copied(alloc)?;
    assert!(rt; goal.variable_named("n") == Some(0));
    assert!(rt; goal.variable_named("h") == None);
    assert!(rt; goal.hypothesis_named("h") == Some(0));
    assert!(rt; goal.live_names(alloc)?.len() == 2);
    Ok(())
}

#[test]
fn what_is_dead_is_seen_no_more(rt: HostRuntime) -> Result<(), Fail> {
    let alloc = rt.alloc();
    let goal = first(alloc)?.without_hyp(alloc, 0)?;
    assert!(rt; goal.live_names(alloc)?.len() == 1);
    let formula = Boxed::new(alloc, Formula::Falsum)?;
    let goal = goal.with_hyp(alloc, Name::new(alloc, "h")?, formula)?;
    assert!(rt; goal.live_names(alloc)?.len() == 2);
    assert!(rt; goal.hyps.len() == 2);
    Ok(())
}
