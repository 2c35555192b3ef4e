// Formulas with a bound variable in every place of a term.
ghost use Rattle.std.specs.Prelude.{◌≡◌, ◌+◌, ◌<◌, ◌^◌, IfOk};
ghost use Rattle.pg_logic.specs.Tree as tree;
ghost use Rattle.pg_moves.specs.Replaced.{abstracted, abstracted_all, abstracted_formula};
ghost use Rattle.pg_terms.specs.View.{term, args, formula};
ghost use Rattle.pg_rewrites.specs.Depth.{binder_depth};

use pg_terms::{Formula, Term};
use sqlite_items::{Boxed, Items};
use std::alloc::{AllocError, Global};

/// The term in whose places a bound variable is put.
#[derive(Clone, Copy)]
struct Mark<'a> {
    old: &'a Term,
}

/// A formula with the loose bound variable 0 in every place of the old term.
pub fn abstracted_formula(
    alloc: Global,
    old: &Term,
    a: &Formula,
) -> Result<Boxed<Formula>, AllocError>
    requires { binder_depth (formula a.now) < 2 ^ 32 }
    ensures { IfOk result (λ r. formula r ≡ abstracted_formula (term old.now) 0 (formula a.now)) }
{
    let mark = Mark { old };
    marked_formula(alloc, &mark, 0, a)
}

/// A formula under `depth` binders, with the loose bound variable of this number in every place of the
/// marked term.
fn marked_formula(
    alloc: Global,
    mark: &Mark<'_>,
    depth: u32,
    a: &Formula,
) -> Result<Boxed<Formula>, AllocError>
    requires { depth + binder_depth (formula a.now) < 2 ^ 32 }
    ensures { IfOk result (λ r. formula r ≡ abstracted_formula (term mark.now.old.now) depth (formula a.now)) }
{
    match a {
        Formula::Falsum => Boxed::new(alloc, Formula::Falsum),
        Formula::Eq(s, t) => marked_equation(alloc, mark, depth, s, t),
        Formula::Pred(p, ts) => {
            let ts = marked_all(alloc, mark, depth, ts.as_slice())?;
            Boxed::new(alloc, Formula::Pred(*p, ts))
        }
        Formula::And(a, b) => {
            let a = marked_formula(alloc, mark, depth, a.get())?;
            let b = marked_formula(alloc, mark, depth, b.get())?;
            Boxed::new(alloc, Formula::And(a, b))
        }
        Formula::Or(a, b) => {
            let a = marked_formula(alloc, mark, depth, a.get())?;
            let b = marked_formula(alloc, mark, depth, b.get())?;
            Boxed::new(alloc, Formula::Or(a, b))
        }
        Formula::Imp(a, b) => {
            let a = marked_formula(alloc, mark, depth, a.get())?;
            let b = marked_formula(alloc, mark, depth, b.get())?;
            Boxed::new(alloc, Formula::Imp(a, b))
        }
        Formula::All(x, a) => {
            let a = marked_formula(alloc, mark, depth + 1, a.get())?;
            Boxed::new(alloc, Formula::All(x.copied(alloc)?, a))
        }
        Formula::Ex(x, a) => {
            let a = marked_formula(alloc, mark, depth + 1, a.get())?;
            Boxed::new(alloc, Formula::Ex(x.copied(alloc)?, a))
        }
    }
}

/// An equation, the same.
fn marked_equation(
    alloc: Global,
    mark: &Mark<'_>,
    depth: u32,
    s: &Term,
    t: &Term,
) -> Result<Boxed<Formula>, AllocError>
    ensures { IfOk result (λ r. formula r ≡ tree.eq (abstracted (term mark.now.old.now) depth (term s.now)) (abstracted (term mark.now.old.now) depth (term t.now))) }
{
    let s = Boxed::new(alloc, marked(alloc, mark, depth, s)?)?;
    let t = marked(alloc, mark, depth, t)?;
    Boxed::new(alloc, Formula::Eq(s.into_inner(), t))
}

/// A term, the same.
#[cycle(marked)]
#[tactic(auto, using(crate::proofs::Depths::abstracts))]
fn marked(alloc: Global, mark: &Mark<'_>, depth: u32, t: &Term) -> Result<Term, AllocError>
    ensures { IfOk result (λ r. term r ≡ abstracted (term mark.now.old.now) depth (term t.now)) }
{
    if t.same(mark.old) {
        return Ok(Term::Bound(depth));
    }
    match t {
        Term::Free(i) => Ok(Term::Free(*i)),
        Term::Bound(i) => Ok(Term::Bound(*i)),
        Term::Zero => Ok(Term::Zero),
        Term::Succ(t) => Ok(Term::Succ(Boxed::new(alloc, marked(alloc, mark, depth, t.get())?)?)),
        Term::App(f, ts) => Ok(Term::App(*f, marked_all(alloc, mark, depth, ts.as_slice())?)),
    }
}

/// Each term of a list, in order.
#[cycle(marked)]
fn marked_all(
    alloc: Global,
    mark: &Mark<'_>,
    depth: u32,
    ts: &[Term],
) -> Result<Items<Term>, AllocError>
    ensures { IfOk result (λ rs. args rs ≡ abstracted_all (term mark.now.old.now) depth (args ts.now)) }
{
    let mut made = Items::new(alloc);
    for t in ts {
        made.push(marked(alloc, mark, depth, t)?)?;
    }
    Ok(made)
}
