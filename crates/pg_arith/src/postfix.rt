//! Terms in postfix form, so that they are valued by a loop over a stack of numbers.

ghost use Rattle.std.specs.Prelude.{◌≡◌, ◌++◌, OnOk};
ghost use Rattle.pg_logic.specs.Signature.{count};
ghost use Rattle.pg_terms.specs.View.{term, args};
ghost use Rattle.pg_arith.specs.Postfix as logic;

use pg_terms::Term;
use sqlite_items::Items;
use std::alloc::AllocError;

/// A step in the valuing of a term.
#[derive(Clone, Copy)]
pub enum Step {
    /// The value of the free variable of this number.
    Variable(u32),
    /// Zero.
    Zero,
    /// The successor of the last value.
    AddOne,
    /// The function of this number at so many last values.
    Apply(u16, usize),
}

/// Puts the steps of a term at the end: those of its parts from left to right, each part before
/// what is made of it.
#[cycle(flatten)]
pub fn flatten(steps: &mut Items<Step>, t: &Term) -> Result<(), AllocError>
    ensures { OnOk result (steps.new ≡ steps.old ++ logic.postfix (term t.now)) }
{
    match t {
        Term::Free(i) => steps.push(Step::Variable(*i)),
        Term::Bound(_) | Term::Zero => steps.push(Step::Zero),
        Term::Succ(t) => {
            flatten(steps, t.get())?;
            steps.push(Step::AddOne)
        }
        Term::App(f, ts) => {
            flatten_all(steps, ts.as_slice())?;
            steps.push(Step::Apply(*f, count_of(ts.as_slice())))
        }
    }
}

/// Puts the steps of terms at the end, from left to right.
#[cycle(flatten)]
fn flatten_all(steps: &mut Items<Step>, ts: &[Term]) -> Result<(), AllocError>
    ensures { OnOk result (steps.new ≡ steps.old ++ logic.postfix_all (args ts.now)) }
{
    for t in ts {
        flatten(steps, t)?;
    }
    Ok(())
}

/// How many terms there are.
#[tactic(auto, using(crate::proofs::Lists::reads))]
fn count_of(ts: &[Term]) -> usize
    ensures { result ≡ count (args ts.now) }
{
    ts.len()
}
