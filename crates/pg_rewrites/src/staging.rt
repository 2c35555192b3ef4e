// What is stripped of a formula, step by step, and the goals for it.
ghost use Rattle.std.specs.Prelude.{◌≡◌, ◌+◌, ◌≤◌, ◌<◌, ◌^◌, All, ◌++◌, ◌∷◌, [], ℕ, false, suc, IfOk, map};
ghost use Rattle.pg_frames.specs.View.{stage_of};
ghost use Rattle.pg_goal.specs.View.{goal_of};
ghost use Rattle.pg_logic.specs.Tree as tree;
ghost use Rattle.pg_logic.specs.Tree.{nodes_of};
ghost use Rattle.pg_moves.specs.Frames as frames;
ghost use Rattle.pg_moves.specs.Frames.{asked};
ghost use Rattle.pg_terms.specs.View.{term, terms, formula};
ghost use Rattle.pg_rewrites.specs.Applying.{asking, stages};
ghost use Rattle.pg_rewrites.specs.Searching.{strips};
ghost use Rattle.pg_rewrites.specs.Staging.{made};

use pg_frames::Stage;
use pg_goal::Goal;
use pg_reduction::boxed;
use pg_terms::{Formula, Term};
use sqlite_items::{Boxed, Items, at};
use std::alloc::{AllocError, Global};

/// What is taken off so far, what is left, and how many terms are used.
#[derive(Drop)]
struct Partial {
    stages: Items<Stage>,
    rest: Boxed<Formula>,
    used: usize,
}

/// So many binders and antecedents taken off a formula, where the binders take these terms. It makes
/// the antecedents, so these are to be small.
pub fn stages(
    alloc: Global,
    a: Boxed<Formula>,
    by: &[Boxed<Term>],
    steps: u32,
) -> Result<Items<Stage>, AllocError>
    requires { All (λ a. nodes_of a ≤ 4096) (asked (stages steps (terms by.now) (formula a))) }
    ensures { IfOk result (λ st. map stage_of st ≡ stages steps (terms by.now) (formula a)) }
{
    let mut partial = Partial {
        stages: Items::new(alloc),
        rest: a,
        used: 0,
    };
    let mut left = steps;
    while left > 0 {
        left -= 1;
        partial = further(alloc, partial, by)?;
    }
    Ok(partial.stages)
}

/// One binder or antecedent more, if one is there.
fn further(alloc: Global, partial: Partial, by: &[Boxed<Term>]) -> Result<Partial, AllocError>
    ensures { IfOk result (λ r. (k : ℕ) → made by.now k r ≡ made by.now (suc k) partial) }
{
    let Partial { stages, rest, used } = partial;
    match rest.into_inner() {
        Formula::All(x, body) => match at(by, used) {
            None => unchanged(alloc, stages, Formula::All(x, body), used),
            Some(t) => at_binder(alloc, stages, body, t, used),
        },
        Formula::Imp(left, right) => at_antecedent(stages, left, right, used),
        other => plain(alloc, stages, other, used, by),
    }
}

/// Nothing is taken off.
fn unchanged(
    alloc: Global,
    stages: Items<Stage>,
    rest: Formula,
    used: usize,
) -> Result<Partial, AllocError>
    ensures { IfOk result (λ r. r ≡ record { stages = stages; rest = rest; used = used }) }
{
    let rest = Boxed::new(alloc, rest)?;
    Ok(Partial { stages, rest, used })
}

/// Nothing is taken off where no binder and no antecedent is.
fn plain(
    alloc: Global,
    stages: Items<Stage>,
    rest: Formula,
    used: usize,
    by: &[Boxed<Term>],
) -> Result<Partial, AllocError>
    requires { strips (formula rest) ≡ false }
    ensures { IfOk result (λ r. (k : ℕ) → made by.now k r ≡ made by.now (suc k) (record { stages = stages; rest = rest; used = used })) }
{
    let _ = by;
    unchanged(alloc, stages, rest, used)
}

/// A binder is taken off, for which the term stands.
fn at_binder(
    alloc: Global,
    stages: Items<Stage>,
    body: Boxed<Formula>,
    by: &Boxed<Term>,
    used: usize,
) -> Result<Partial, AllocError>
    requires { used + 1 < 2 ^ 64 }
    ensures stages { IfOk result (λ r. map stage_of r.stages ≡ map stage_of stages ++ frames.for_all (formula body) (term by.now) ∷ []) }
    ensures rest { IfOk result (λ r. formula r.rest ≡ tree.opened_formula (term by.now) (formula body)) }
    ensures used { IfOk result (λ r. r.used ≡ used + 1) }
{
    let mut stages = stages;
    let rest = opened(alloc, &body, by)?;
    stages.push(for_all(alloc, body, by)?)?;
    Ok(Partial {
        stages,
        rest,
        used: used + 1,
    })
}

/// An antecedent is taken off.
fn at_antecedent(
    stages: Items<Stage>,
    left: Boxed<Formula>,
    right: Boxed<Formula>,
    used: usize,
) -> Result<Partial, AllocError>
    ensures stages { IfOk result (λ r. map stage_of r.stages ≡ map stage_of stages ++ frames.where_so (formula left) ∷ []) }
    ensures rest { IfOk result (λ r. r.rest ≡ right) }
    ensures used { IfOk result (λ r. r.used ≡ used) }
{
    let mut stages = stages;
    stages.push(Stage::WhereSo(left))?;
    Ok(Partial {
        stages,
        rest: right,
        used,
    })
}

/// A body opened by a term.
fn opened(
    alloc: Global,
    body: &Boxed<Formula>,
    by: &Boxed<Term>,
) -> Result<Boxed<Formula>, AllocError>
    ensures { IfOk result (λ r. formula r ≡ tree.opened_formula (term by.now) (formula body.now)) }
{
    Boxed::new(alloc, body.get().opened(alloc, by.get())?)
}

/// The stage of a binder, for which a term stands.
fn for_all(alloc: Global, body: Boxed<Formula>, by: &Boxed<Term>) -> Result<Stage, AllocError>
    ensures { IfOk result (λ st. stage_of st ≡ frames.for_all (formula body) (term by.now)) }
{
    let by = Boxed::new(alloc, by.get().copied(alloc)?)?;
    Ok(Stage::ForAll(body, by))
}

/// A goal for each antecedent, in order.
pub fn asking(alloc: Global, goal: &Goal, stages: &[Stage]) -> Result<Items<Goal>, AllocError>
    ensures { IfOk result (λ gs. map goal_of gs ≡ asking (goal_of goal.now) (map stage_of stages.now)) }
{
    let mut goals = Items::new(alloc);
    for stage in stages {
        if let Stage::WhereSo(a) = stage {
            goals.push(goal.aimed(alloc, boxed(alloc, a.get())?)?)?;
        }
    }
    Ok(goals)
}
