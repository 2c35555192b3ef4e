// The sizes of opened formulas, counted before they are built. A size past its type's end is given as that
// end, and so is a count of binders, past which no bound variable is loose.
ghost use Rattle.std.specs.Prelude.{◌≡◌, ◌-◌, ◌^◌, min, ℕ};
ghost use Rattle.pg_logic.specs.Tree.{Tm, nodes, nodes_of, opened_bound, opened_formula};
ghost use Rattle.pg_terms.specs.View.{term, args, formula};
ghost use Rattle.pg_goal.specs.Sizes.{opened_nodes, all_opened_nodes, formula_nodes};

use pg_terms::{Formula, Term};

/// The size in nodes of the formula opened by a term of so many nodes, or else the type's end; so is the
/// term's size given where it is past that. Takes no memory, and time linear in the formula.
pub fn opened_size(a: &Formula, by: u64) -> u64
    ensures { (s : Tm) → by ≡ min (nodes s) (2 ^ 64 - 1) → result ≡ min (nodes_of (opened_formula s (formula a.now))) (2 ^ 64 - 1) }
{
    formula_size(by, 0, a)
}

/// The size of a formula under `depth` binders.
fn formula_size(by: u64, depth: u64, a: &Formula) -> u64
    ensures { (s : Tm) (d : ℕ) → by ≡ min (nodes s) (2 ^ 64 - 1) → depth ≡ min d (2 ^ 64 - 1) → result ≡ min (formula_nodes s d (formula a.now)) (2 ^ 64 - 1) }
{
    match a {
        Formula::Falsum => 1,
        Formula::Eq(s, t) => term_size(by, depth, s)
            .saturating_add(term_size(by, depth, t))
            .saturating_add(1),
        Formula::Pred(_, ts) => all_size(by, depth, ts.as_slice()).saturating_add(1),
        Formula::And(a, b) | Formula::Or(a, b) | Formula::Imp(a, b) => {
            formula_size(by, depth, a.get())
                .saturating_add(formula_size(by, depth, b.get()))
                .saturating_add(1)
        }
        Formula::All(_, a) | Formula::Ex(_, a) => {
            formula_size(by, depth.saturating_add(1), a.get()).saturating_add(1)
        }
    }
}

/// The size of a term under `depth` binders.
#[cycle(size)]
fn term_size(by: u64, depth: u64, t: &Term) -> u64
    ensures { (s : Tm) (d : ℕ) → by ≡ min (nodes s) (2 ^ 64 - 1) → depth ≡ min d (2 ^ 64 - 1) → result ≡ min (opened_nodes s d (term t.now)) (2 ^ 64 - 1) }
{
    match t {
        Term::Free(_) | Term::Zero => 1,
        Term::Bound(i) => bound_size(by, depth, *i),
        Term::Succ(t) => term_size(by, depth, t.get()).saturating_add(1),
        Term::App(_, ts) => all_size(by, depth, ts.as_slice()).saturating_add(1),
    }
}

/// The size of what stands for a bound variable.
fn bound_size(by: u64, depth: u64, i: u32) -> u64
    ensures { (s : Tm) (d : ℕ) → by ≡ min (nodes s) (2 ^ 64 - 1) → depth ≡ min d (2 ^ 64 - 1) → result ≡ min (nodes (opened_bound s d i)) (2 ^ 64 - 1) }
{
    if u64::from(i) == depth { by } else { 1 }
}

/// The sum of the sizes of terms under `depth` binders.
#[cycle(size)]
fn all_size(by: u64, depth: u64, ts: &[Term]) -> u64
    ensures { (s : Tm) (d : ℕ) → by ≡ min (nodes s) (2 ^ 64 - 1) → depth ≡ min d (2 ^ 64 - 1) → result ≡ min (all_opened_nodes s d (args ts.now)) (2 ^ 64 - 1) }
{
    let mut sum: u64 = 0;
    for t in ts {
        sum = sum.saturating_add(term_size(by, depth, t));
    }
    sum
}
