//! What stands in the way of a declaration: names that are taken, numbers that are not declared,
//! variables that are loose.

ghost use Rattle.std.specs.Prelude.{◌≡◌, ◌-◌, ◌^◌, min, ℕ, map, flat_map};
ghost use Rattle.std.specs.List.{list_any};
ghost use Rattle.std.specs.Str.{bytes_eq};
ghost use Rattle.pg_logic.specs.Declarations as logic;
ghost use Rattle.pg_terms.specs.View.{term, args, formula};
ghost use Rattle.pg_arith.specs.View.{function, functions, predicates, plain_functions, signature};

use crate::fitting::{holds_of, takes};
use crate::signature::{Function, Predicate};
use pg_terms::{Formula, Term};

/// Whether a function of the list or one of its equations has this name.
pub fn functions_bring(declared: &[Function], name: &str) -> bool
    ensures { result ≡ list_any (bytes_eq name.now) (flat_map logic.names_in (functions declared.now)) }
{
    for function in declared {
        if brings(function, name) {
            return true;
        }
    }
    false
}

/// Whether a function or one of its equations has this name.
pub fn brings(declared: &Function, name: &str) -> bool
    ensures { result ≡ list_any (bytes_eq name.now) (logic.names_in (function declared.now)) }
{
    match declared {
        Function::Recursive(r) => {
            name == r.name.as_str() || name == r.zero_name.as_str() || name == r.succ_name.as_str()
        }
        Function::Constant(c) => name == c.name.as_str() || name == c.equation_name.as_str(),
    }
}

/// Whether a predicate of the list has this name.
pub fn predicates_bring(declared: &[Predicate], name: &str) -> bool
    ensures { result ≡ list_any (bytes_eq name.now) (map (λ p. p.name) (predicates declared.now)) }
{
    for predicate in declared {
        if name == predicate.name.as_str() {
            return true;
        }
    }
    false
}

/// The first function of a term, in preorder, that is not declared or has another arity.
#[cycle(undeclared)]
#[tactic(auto, using(crate::proofs::Lists::firsts))]
pub fn undeclared(functions: &[Function], t: &Term) -> Option<u16>
    ensures { result ≡ logic.first (logic.undeclared (plain_functions functions.now) (term t.now)) }
{
    match t {
        Term::Free(_) | Term::Bound(_) | Term::Zero => None,
        Term::Succ(t) => undeclared(functions, t.get()),
        Term::App(f, ts) => {
            if takes(functions, *f, ts.as_slice()) {
                undeclared_all(functions, ts.as_slice())
            } else {
                Some(*f)
            }
        }
    }
}

/// The first function of terms, from left to right and each in preorder, that is not declared or has
/// another arity.
#[cycle(undeclared)]
fn undeclared_all(functions: &[Function], ts: &[Term]) -> Option<u16>
    ensures { result ≡ logic.first (logic.undeclared_all (plain_functions functions.now) (args ts.now)) }
{
    for t in ts {
        if let Some(f) = undeclared(functions, t) {
            return Some(f);
        }
    }
    None
}

/// The first function or predicate of a formula, in preorder, that is not declared or has another
/// arity.
#[tactic(auto, using(crate::proofs::Lists::firsts))]
pub fn undeclared_in(functions: &[Function], predicates: &[Predicate], a: &Formula) -> Option<u16>
    ensures { result ≡ logic.first (logic.undeclared_in (signature (functions.now, predicates.now)) (formula a.now)) }
{
    match a {
        Formula::Falsum => None,
        Formula::Eq(s, t) => undeclared(functions, s).or(undeclared(functions, t)),
        Formula::Pred(p, ts) => {
            if holds_of(predicates, *p, ts.as_slice()) {
                undeclared_all(functions, ts.as_slice())
            } else {
                Some(*p)
            }
        }
        Formula::And(a, b) | Formula::Or(a, b) | Formula::Imp(a, b) => {
            undeclared_in(functions, predicates, a.get()).or(undeclared_in(
                functions,
                predicates,
                b.get(),
            ))
        }
        Formula::All(_, a) | Formula::Ex(_, a) => undeclared_in(functions, predicates, a.get()),
    }
}

/// The first variable of a term under `depth` binders, in preorder, that is no binder's and none of
/// the first `vars` free ones. The count of binders stays at its type's end, past which no bound
/// variable is loose.
#[cycle(loose)]
#[tactic(auto, using(crate::proofs::Lists::firsts))]
pub fn loose(vars: u32, depth: u64, t: &Term) -> Option<u32>
    ensures { (d : ℕ) → depth ≡ min d (2 ^ 64 - 1) → result ≡ logic.first (logic.loose vars d (term t.now)) }
{
    match t {
        Term::Free(i) => { if *i < vars { None } else { Some(*i) } }
        Term::Bound(i) => {
            if u64::from(*i) < depth {
                None
            } else {
                Some(*i)
            }
        }
        Term::Zero => None,
        Term::Succ(t) => loose(vars, depth, t.get()),
        Term::App(_, ts) => loose_all(vars, depth, ts.as_slice()),
    }
}

/// The first such variable of terms, from left to right and each in preorder.
#[cycle(loose)]
fn loose_all(vars: u32, depth: u64, ts: &[Term]) -> Option<u32>
    ensures { (d : ℕ) → depth ≡ min d (2 ^ 64 - 1) → result ≡ logic.first (logic.loose_all vars d (args ts.now)) }
{
    for t in ts {
        if let Some(i) = loose(vars, depth, t) {
            return Some(i);
        }
    }
    None
}

/// The first variable of a formula under `depth` binders, in preorder, that is no binder's and none
/// of the first `vars` free ones.
#[tactic(auto, using(crate::proofs::Lists::firsts))]
pub fn loose_in(vars: u32, depth: u64, a: &Formula) -> Option<u32>
    ensures { (d : ℕ) → depth ≡ min d (2 ^ 64 - 1) → result ≡ logic.first (logic.loose_in vars d (formula a.now)) }
{
    match a {
        Formula::Falsum => None,
        Formula::Eq(s, t) => loose(vars, depth, s).or(loose(vars, depth, t)),
        Formula::Pred(_, ts) => loose_all(vars, depth, ts.as_slice()),
        Formula::And(a, b) | Formula::Or(a, b) | Formula::Imp(a, b) => {
            loose_in(vars, depth, a.get()).or(loose_in(vars, depth, b.get()))
        }
        Formula::All(_, a) | Formula::Ex(_, a) => {
            loose_in(vars, depth.saturating_add(1), a.get())
        }
    }
}
