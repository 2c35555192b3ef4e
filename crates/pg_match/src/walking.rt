// A pattern and a subject side by side.
ghost use Rattle.std.specs.Prelude.{◌≡◌, ◌-◌, ◌^◌, min, ℕ};
ghost use Rattle.pg_logic.specs.Tree.{is_tight, are_tight};
ghost use Rattle.pg_terms.specs.View.{term, args, formula};
ghost use Rattle.pg_match.specs.Walks.{lent, put_at, walk_bound, walk, walk_all, walk_formula, Walked};

use pg_terms::{Formula, Term};

/// Whether a term holds no bound variable. Takes no memory.
#[cycle(closed)]
fn is_closed(t: &Term) -> bool
    ensures { result ≡ is_tight 0 (term t.now) }
{
    match t {
        Term::Free(_) | Term::Zero => true,
        Term::Bound(_) => false,
        Term::Succ(t) => is_closed(t.get()),
        Term::App(_, ts) => are_closed(ts.as_slice()),
    }
}

/// Whether none of the terms holds one.
#[cycle(closed)]
fn are_closed(ts: &[Term]) -> bool
    ensures { result ≡ are_tight 0 (args ts.now) }
{
    for t in ts {
        if !is_closed(t) {
            return false;
        }
    }
    true
}

/// Whether a subject may stand for hole `i`. It is the hole's value from now on, where it has none yet.
fn put_at<'a>(values: &mut [Option<&'a Term>], i: u64, subject: &'a Term) -> bool
    ensures { Walked (put_at (lent values.old) i (term subject.now)) result (lent values.new) }
{
    let holes = values.len() as u64;
    if i >= holes {
        return false;
    }
    let at = (holes - 1 - i) as usize;
    match values[at] {
        Some(value) => value.same(subject),
        None => {
            if !is_closed(subject) {
                return false;
            }
            values[at] = Some(subject);
            true
        }
    }
}

/// Whether a subject may stand for the bound variable `j` of a pattern, under `depth` of the pattern's own
/// binders.
fn walk_bound<'a>(values: &mut [Option<&'a Term>], depth: u64, j: u32, subject: &'a Term) -> bool
    ensures { (d : ℕ) → depth ≡ min d (2 ^ 64 - 1) → Walked (walk_bound d (lent values.old) j (term subject.now)) result (lent values.new) }
{
    let j = u64::from(j);
    if j >= depth {
        return put_at(values, j - depth, subject);
    }
    match subject {
        Term::Bound(k) => u64::from(*k) == j,
        _ => false,
    }
}

/// Whether a term may be the pattern, with these values of the holes. New values are put to them. The pattern
/// stands under `depth` of its own binders.
#[cycle(walk)]
pub fn walk<'a>(
    values: &mut [Option<&'a Term>],
    depth: u64,
    pattern: &Term,
    subject: &'a Term,
) -> bool
    ensures { (d : ℕ) → depth ≡ min d (2 ^ 64 - 1) → Walked (walk d (lent values.old) (term pattern.now) (term subject.now)) result (lent values.new) }
{
    match (pattern, subject) {
        (Term::Bound(j), _) => walk_bound(values, depth, *j, subject),
        (Term::Free(i), Term::Free(k)) => *i == *k,
        (Term::Zero, Term::Zero) => true,
        (Term::Succ(p), Term::Succ(s)) => walk(values, depth, p.get(), s.get()),
        (Term::App(f, ps), Term::App(g, ss)) => {
            *f == *g && walk_all(values, depth, ps.as_slice(), ss.as_slice())
        }
        _ => false,
    }
}

/// The same of lists of terms, in order.
#[cycle(walk)]
fn walk_all<'a>(
    values: &mut [Option<&'a Term>],
    depth: u64,
    patterns: &[Term],
    subjects: &'a [Term],
) -> bool
    ensures { (d : ℕ) → depth ≡ min d (2 ^ 64 - 1) → Walked (walk_all d (lent values.old) (args patterns.now) (args subjects.now)) result (lent values.new) }
{
    if patterns.len() != subjects.len() {
        return false;
    }
    for (p, s) in patterns.iter().zip(subjects) {
        if !walk(values, depth, p, s) {
            return false;
        }
    }
    true
}

/// The same of formulas, up to the names of binders.
pub fn walk_formula<'a>(
    values: &mut [Option<&'a Term>],
    depth: u64,
    pattern: &Formula,
    subject: &'a Formula,
) -> bool
    ensures { (d : ℕ) → depth ≡ min d (2 ^ 64 - 1) → Walked (walk_formula d (lent values.old) (formula pattern.now) (formula subject.now)) result (lent values.new) }
{
    match (pattern, subject) {
        (Formula::Falsum, Formula::Falsum) => true,
        (Formula::Eq(p, q), Formula::Eq(s, t)) => {
            walk(values, depth, p, s) && walk(values, depth, q, t)
        }
        (Formula::Pred(p, ps), Formula::Pred(q, ss)) => {
            *p == *q && walk_all(values, depth, ps.as_slice(), ss.as_slice())
        }
        (Formula::And(p, q), Formula::And(a, b))
        | (Formula::Or(p, q), Formula::Or(a, b))
        | (Formula::Imp(p, q), Formula::Imp(a, b)) => {
            walk_formula(values, depth, p.get(), a.get())
                && walk_formula(values, depth, q.get(), b.get())
        }
        (Formula::All(_, p), Formula::All(_, a)) | (Formula::Ex(_, p), Formula::Ex(_, a)) => {
            walk_formula(values, depth.saturating_add(1), p.get(), a.get())
        }
        _ => false,
    }
}
