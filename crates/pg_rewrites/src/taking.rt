// What is given, taken at terms.
ghost use Rattle.std.specs.Prelude.{◌≡◌, IfOk};
ghost use Rattle.pg_kernel.specs.View.{proof};
ghost use Rattle.pg_logic.specs.Kernel as logic;
ghost use Rattle.pg_logic.specs.Tree as tree;
ghost use Rattle.pg_terms.specs.View.{term, terms, formula};
ghost use Rattle.pg_rewrites.specs.Taking.{taken_at};
ghost use Rattle.pg_rewrites.specs.View.{claim};

use pg_goal::Given;
use pg_kernel::Proof;
use pg_reduction::boxed;
use pg_terms::{Formula, Term};
use sqlite_items::Boxed;
use std::alloc::{AllocError, Global};

/// What is given, with these terms for its leading binders, the outermost first. A term for which
/// there is no binder is left out, with those behind it.
pub fn taken_at(alloc: Global, given: Given, by: &[Boxed<Term>]) -> Result<Given, AllocError>
    ensures { IfOk result (λ x. claim x ≡ taken_at (terms by.now) (formula given.formula) (proof given.proof)) }
{
    let mut given = given;
    for t in by {
        let Given { formula, proof } = given;
        match formula.into_inner() {
            Formula::All(_, body) => given = instance(alloc, body, t.get(), proof)?,
            other => {
                let formula = Boxed::new(alloc, other)?;
                return Ok(Given { formula, proof });
            }
        }
    }
    Ok(given)
}

/// A body at a term, with its proof from one of the universal formula.
fn instance(
    alloc: Global,
    body: Boxed<Formula>,
    by: &Term,
    known: Boxed<Proof>,
) -> Result<Given, AllocError>
    ensures formula { IfOk result (λ x. formula x.formula ≡ tree.opened_formula (term by.now) (formula body)) }
    ensures proof { IfOk result (λ x. proof x.proof ≡ logic.alle (formula body) (term by.now) (proof known)) }
{
    let formula = Boxed::new(alloc, body.get().opened(alloc, by)?)?;
    let by = Boxed::new(alloc, by.copied(alloc)?)?;
    let proof = Boxed::new(
        alloc,
        Proof::Alle(body.into_inner(), by.into_inner(), known),
    )?;
    Ok(Given { formula, proof })
}
