//! Which trees fit a signature.

ghost use Rattle.std.specs.Prelude.{◌≡◌, ◌-◌, ◌^◌, min, ℕ, slice_get};
ghost use Rattle.pg_logic.specs.Signature as logic;
ghost use Rattle.pg_terms.specs.View.{term, args, formula};
ghost use Rattle.pg_arith.specs.View.{functions, predicates, plain_functions, plain_predicates, signature};

use crate::signature::{Function, Predicate, Signature};
use pg_terms::{Formula, Term};
use sqlite_items::at;

impl Signature {
    /// Whether a formula fits this signature and `vars` variables: each free number is below
    /// `vars`, no bound variable is loose, and each function and predicate is declared and has its
    /// arity. Takes no memory.
    pub fn fits(&self, vars: u32, a: &Formula) -> bool
        ensures { result ≡ logic.fits (signature self.now) vars 0 (formula a.now) }
    {
        formula_fits(self.functions(), self.predicates(), vars, 0, a)
    }

    /// Whether a body fits, which may have one loose bound variable: `Bound(0)` at its root. Takes
    /// no memory.
    pub fn fits_body(&self, vars: u32, body: &Formula) -> bool
        ensures { result ≡ logic.fits (signature self.now) vars 1 (formula body.now) }
    {
        formula_fits(self.functions(), self.predicates(), vars, 1, body)
    }

    /// Whether a term fits, with no bound variable. Takes no memory.
    pub fn fits_term(&self, vars: u32, t: &Term) -> bool
        ensures { result ≡ logic.fits_term (signature self.now).functions vars 0 (term t.now) }
    {
        term_fits(self.functions(), vars, 0, t)
    }
}

/// Whether a formula under `depth` binders fits `vars` variables.
fn formula_fits(
    functions: &[Function],
    predicates: &[Predicate],
    vars: u32,
    depth: u64,
    a: &Formula,
) -> bool
    ensures { (d : ℕ) → depth ≡ min d (2 ^ 64 - 1) → result ≡ logic.fits (signature (functions.now, predicates.now)) vars d (formula a.now) }
{
    match a {
        Formula::Falsum => true,
        Formula::Eq(s, t) => term_fits(functions, vars, depth, s)
            && term_fits(functions, vars, depth, t),
        Formula::Pred(p, ts) => holds_of(predicates, *p, ts.as_slice())
            && terms_fit(functions, vars, depth, ts.as_slice()),
        Formula::And(a, b) | Formula::Or(a, b) | Formula::Imp(a, b) => {
            formula_fits(functions, predicates, vars, depth, a.get())
                && formula_fits(functions, predicates, vars, depth, b.get())
        }
        Formula::All(_, a) | Formula::Ex(_, a) => formula_fits(
            functions,
            predicates,
            vars,
            depth.saturating_add(1),
            a.get(),
        ),
    }
}

/// Whether a term under `depth` binders fits `vars` variables. The count of binders stays at its
/// type's end, past which no bound variable is loose.
#[cycle(fits)]
fn term_fits(functions: &[Function], vars: u32, depth: u64, t: &Term) -> bool
    ensures { (d : ℕ) → depth ≡ min d (2 ^ 64 - 1) → result ≡ logic.fits_term (plain_functions functions.now) vars d (term t.now) }
{
    match t {
        Term::Free(i) => *i < vars,
        Term::Bound(i) => u64::from(*i) < depth,
        Term::Zero => true,
        Term::Succ(t) => term_fits(functions, vars, depth, t.get()),
        Term::App(f, ts) => takes(functions, *f, ts.as_slice())
            && terms_fit(functions, vars, depth, ts.as_slice()),
    }
}

/// Whether each of the terms fits.
#[cycle(fits)]
fn terms_fit(functions: &[Function], vars: u32, depth: u64, ts: &[Term]) -> bool
    ensures { (d : ℕ) → depth ≡ min d (2 ^ 64 - 1) → result ≡ logic.fits_terms (plain_functions functions.now) vars d (args ts.now) }
{
    for t in ts {
        if !term_fits(functions, vars, depth, t) {
            return false;
        }
    }
    true
}

/// Whether predicate `p` is declared and takes these arguments.
#[tactic(auto, using(crate::proofs::Lists::reads))]
pub fn holds_of(predicates: &[Predicate], p: u16, ts: &[Term]) -> bool
    ensures { result ≡ logic.holds_of (slice_get (plain_predicates predicates.now) p) (logic.count (args ts.now)) }
{
    let n = ts.len();
    match at(predicates, p as usize) {
        None => false,
        Some(predicate) => predicate.arity as usize == n,
    }
}

/// Whether function `f` is declared and takes these arguments.
#[tactic(auto, using(crate::proofs::Lists::reads))]
pub fn takes(functions: &[Function], f: u16, ts: &[Term]) -> bool
    ensures { result ≡ logic.takes (slice_get (plain_functions functions.now) f) (logic.count (args ts.now)) }
{
    let n = ts.len();
    match at(functions, f as usize) {
        None => false,
        Some(Function::Recursive(r)) => r.arity as usize == n,
        Some(Function::Constant(_)) => n == 0,
    }
}
