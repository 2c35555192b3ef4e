// Statements, and their closed formulas.
ghost use Rattle.std.specs.Prelude.{◌≡◌, ◌<◌, ◌^◌, ◌+◌, IfOk, IsTrue};
ghost use Rattle.pg_logic.specs.Tree as tree;
ghost use Rattle.pg_terms.specs.View.{formula};
ghost use Rattle.pg_syntax.specs.Statements.{closed, closed_from, AreTight, total, Closes, Means};

use pg_terms::{Formula, Name};
use sqlite_items::Boxed;
use std::alloc::{AllocError, Global};

/// A variable or a hypothesis of a statement, with its name.
#[derive(Drop)]
pub enum Binder {
    /// A variable. The first one is `Free(0)` of what comes after it, the next `Free(1)`, and so on.
    Var(Name),
    /// A hypothesis, over the variables before it.
    Hyp(Name, Formula),
}

/// A statement: binders, and what is claimed under them.
#[derive(Drop)]
pub struct Statement {
    pub binders: Vec<Binder>,
    pub target: Formula,
}

/// The closed formula of a statement: `∀` for a variable and `→` for a hypothesis, the first binder
/// outermost (docs/LOGIC.md, "Statements"). No formula of the statement has a loose bound variable,
/// and the binders and the nodes of all formulas are together fewer than 2^32. Over each signature
/// where each hypothesis fits the variables before it and the target all of them, the formula has no
/// free variable, and it is true where the target is true under all numbers for the variables under
/// which the hypotheses are true. It fails only for want of memory.
#[tactic(auto, using(crate::proofs::StatementTruth::statement_truth))]
pub fn statement_formula(alloc: Global, statement: &Statement) -> Result<Formula, AllocError>
    requires tight { AreTight statement.now.binders.items (formula statement.now.target) }
    requires small { total statement.now.binders.items (formula statement.now.target) < 2 ^ 32 }
    ensures is { IfOk result (λ a. formula a ≡ closed statement.now.binders.items (formula statement.now.target)) }
    ensures closes { IfOk result (λ a. Closes statement.now.binders.items (formula statement.now.target) (formula a)) }
    ensures means { IfOk result (λ a. Means statement.now.binders.items (formula statement.now.target) (formula a)) }
{
    let binders = statement.binders.as_slice();
    let made = closed_from(alloc, binders, 0, &statement.target)?;
    Ok(made.into_inner())
}

/// The formula of these binders and the target, where so many variables stand before.
#[tactic(auto, using(crate::proofs::Closing::closing))]
fn closed_from(
    alloc: Global,
    binders: &[Binder],
    before: u32,
    target: &Formula,
) -> Result<Boxed<Formula>, AllocError>
    requires tight { AreTight binders.now (formula target.now) }
    requires small { before + total binders.now (formula target.now) < 2 ^ 32 }
    ensures { IfOk result (λ a. formula a ≡ closed_from before binders.now (formula target.now)) }
{
    let [first, more @ ..] = binders else {
        return Boxed::new(alloc, target.copied(alloc)?);
    };
    match first {
        Binder::Var(name) => {
            let body = closed_from(alloc, more, before + 1, target)?;
            quantified(alloc, name, before, body.get())
        }
        Binder::Hyp(_, a) => {
            let body = closed_from(alloc, more, before, target)?;
            implication(alloc, a, body)
        }
    }
}

/// A formula under a universal quantifier, closed over a free variable.
fn quantified(
    alloc: Global,
    name: &Name,
    free: u32,
    body: &Formula,
) -> Result<Boxed<Formula>, AllocError>
    requires small { tree.nodes_of (formula body.now) < 2 ^ 32 }
    requires tight { IsTrue (tree.is_tight_formula 0 (formula body.now)) }
    ensures { IfOk result (λ a. formula a ≡ tree.all name.now (tree.closed_over_formula free (formula body.now))) }
{
    let body = Boxed::new(alloc, body.closed_over(alloc, free)?)?;
    Boxed::new(alloc, Formula::All(name.copied(alloc)?, body))
}

/// An implication.
fn implication(alloc: Global, a: &Formula, b: Boxed<Formula>) -> Result<Boxed<Formula>, AllocError>
    ensures { IfOk result (λ c. formula c ≡ tree.imp (formula a.now) (formula b)) }
{
    let a = Boxed::new(alloc, a.copied(alloc)?)?;
    Boxed::new(alloc, Formula::Imp(a, b))
}
