// Whether terms and formulas hold a variable.
ghost use Rattle.std.specs.Prelude.{◌≡◌};
ghost use Rattle.pg_moves.specs.Holding.{holds, hold, holds_var};
ghost use Rattle.pg_terms.specs.View.{term, args, formula};

use pg_terms::{Formula, Term};

/// Whether a formula holds the free variable of this number. Takes no memory.
pub fn holds_var(k: u32, a: &Formula) -> bool
    ensures { result ≡ holds_var k (formula a.now) }
{
    match a {
        Formula::Falsum => false,
        Formula::Eq(s, t) => holds(k, s) || holds(k, t),
        Formula::Pred(_, ts) => hold(k, ts.as_slice()),
        Formula::And(a, b) | Formula::Or(a, b) | Formula::Imp(a, b) => {
            holds_var(k, a.get()) || holds_var(k, b.get())
        }
        Formula::All(_, a) | Formula::Ex(_, a) => holds_var(k, a.get()),
    }
}

/// Whether a term holds it.
#[cycle(holds)]
fn holds(k: u32, t: &Term) -> bool
    ensures { result ≡ holds k (term t.now) }
{
    match t {
        Term::Free(i) => *i == k,
        Term::Bound(_) | Term::Zero => false,
        Term::Succ(t) => holds(k, t.get()),
        Term::App(_, ts) => hold(k, ts.as_slice()),
    }
}

/// Whether one of the terms holds it.
#[cycle(holds)]
fn hold(k: u32, ts: &[Term]) -> bool
    ensures { result ≡ hold k (args ts.now) }
{
    for t in ts {
        if holds(k, t) {
            return true;
        }
    }
    false
}
