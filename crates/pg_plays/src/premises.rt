// Whether a script can be run on a statement.
ghost use Rattle.std.specs.Prelude.{◌≡◌, ◌+◌, ◌-◌, ◌^◌, ◌<◌, true, All, length, min};
ghost use Rattle.std.specs.List.{HoldsAt};
ghost use Rattle.pg_terms.specs.View.{formula, formulas};
ghost use Rattle.pg_arith.specs.View.{signature};
ghost use Rattle.pg_syntax.specs.Statements as statements;
ghost use Rattle.pg_goal.specs.View.{lookup_of};
ghost use Rattle.pg_runs.specs.State.{IsUsable};
ghost use Rattle.pg_attempt.specs.Attempts.{CanAttempt};
ghost use Rattle.pg_plays.specs.Usable.{IsUsableTheorem};

use pg_arith::Signature;
use pg_goal::Lookup;
use pg_kernel::Theorems;
use pg_syntax::{Binder, Statement};
use pg_terms::Formula;

/// How many nodes a theorem, and a statement with its binders, has at most.
const MOST_NODES: u64 = 100_000_000;

/// How many binders a statement has at most, and how many theorems there are.
const MOST: usize = 1_000_000;

/// Whether a script can be run: the statement fits what is declared, the theorems are closed and fit it, and all are small
/// enough. Takes no memory.
pub fn can_attempt(lookup: &Lookup<'_>, statement: &Statement) -> bool
    ensures { result ≡ true → CanAttempt (lookup_of lookup.now) statement.now }
{
    let binders = statement.binders.as_slice();
    if !is_usable(lookup) {
        return false;
    }
    if binders.len() > MOST || total(binders, &statement.target) > MOST_NODES {
        return false;
    }
    are_fitting(lookup.sig, 0, binders, &statement.target)
}

/// Whether the theorems are few, and each can be used.
#[tactic(auto, using(crate::proofs::Usable::usable))]
fn is_usable(lookup: &Lookup<'_>) -> bool
    ensures { result ≡ true → IsUsable (lookup_of lookup.now) }
{
    lookup.sig.declared_law();
    lookup.names.len() <= MOST && are_theorems(lookup.sig, lookup.theorems)
}

/// Whether each theorem can be used.
#[tactic(auto, using(crate::proofs::Usable::of_each))]
fn are_theorems(sig: &Signature, theorems: &Theorems) -> bool
    ensures { result ≡ true → All (IsUsableTheorem (signature sig.now)) (formulas theorems.now) }
{
    for id in 0..theorems.count() {
        if !is_theorem(sig, theorems, id) {
            return false;
        }
    }
    true
}

/// Whether there is a theorem of this number that can be used.
#[tactic(auto, using(crate::proofs::Usable::held))]
fn is_theorem(sig: &Signature, theorems: &Theorems, id: u32) -> bool
    ensures { result ≡ true → HoldsAt (IsUsableTheorem (signature sig.now)) (formulas theorems.now) id }
{
    match theorems.get(id) {
        Some(a) => is_small(sig, a),
        None => false,
    }
}

/// Whether a formula is closed, fits what is declared, and is small enough.
fn is_small(sig: &Signature, a: &Formula) -> bool
    ensures { result ≡ true → IsUsableTheorem (signature sig.now) (formula a.now) }
{
    sig.fits(0, a) && a.size() <= MOST_NODES
}

/// How many binders and nodes there are. A number past the type's end is given as that end.
fn total(binders: &[Binder], target: &Formula) -> u64
    ensures { result ≡ min (statements.total binders.now (formula target.now)) (2 ^ 64 - 1) }
{
    let [first, more @ ..] = binders else {
        return target.size();
    };
    match first {
        Binder::Var(_) => total(more, target).saturating_add(1),
        Binder::Hyp(_, a) => a
            .size()
            .saturating_add(total(more, target))
            .saturating_add(1),
    }
}

/// Whether each hypothesis fits the variables before it, and the target all of them, where so many stand before.
fn are_fitting(sig: &Signature, before: u32, binders: &[Binder], target: &Formula) -> bool
    requires { before + length binders.now < 2 ^ 32 }
    ensures { result ≡ true → statements.AreFitting (signature sig.now) before binders.now (formula target.now) }
{
    let [first, more @ ..] = binders else {
        return sig.fits(before, target);
    };
    match first {
        Binder::Var(_) => are_fitting(sig, before + 1, more, target),
        Binder::Hyp(_, a) => sig.fits(before, a) && are_fitting(sig, before, more, target),
    }
}
