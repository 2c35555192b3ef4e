// The terms of an instance, and the cause that nothing fixes a binder.
ghost use Rattle.std.specs.Prelude.{◌≡◌, ◌≤◌, ◌<◌, ◌^◌, Some, length, slice_get, take};
ghost use Rattle.pg_match.specs.View.{found_values};
ghost use Rattle.pg_moves.specs.Stripped.{fixed};
ghost use Rattle.pg_reduction.specs.Doing.{Yields};
ghost use Rattle.pg_terms.specs.View.{formula, terms};
ghost use Rattle.pg_rewrites.specs.Taking.{binder_names};
ghost use Rattle.pg_rewrites.specs.View.{IsUnfixed};

use pg_match::{Found, MatchFault, determined};
use pg_reduction::{ActFault, Cause};
use pg_terms::{Formula, Name, Term};
use sqlite_items::{Boxed, Items};
use std::alloc::Global;

/// The terms that an instance fixes for the first binders of a formula, those behind antecedents too.
/// It stops by `Undetermined` with the name of the first binder that isn't fixed.
pub fn fixed(alloc: Global, a: &Formula, found: &Found) -> Result<Items<Boxed<Term>>, ActFault>
    requires few { length found.now.values < 2 ^ 32 }
    requires names { length found.now.values ≤ length (binder_names (formula a.now)) }
    ensures { Yields terms (fixed (take (length found.now.values) (binder_names (formula a.now))) (found_values found.now)) result }
{
    match determined(alloc, found) {
        Ok(terms) => Ok(terms),
        Err(MatchFault::Undetermined { binder }) => Err(unfixed(alloc, a, binder)),
        Err(_) => Err(ActFault::OutOfMemory),
    }
}

/// The cause that nothing fixes the binder of this number, the outermost being 0.
fn unfixed(alloc: Global, a: &Formula, number: u32) -> ActFault
    requires { number < length (binder_names (formula a.now)) }
    ensures { IsUnfixed (slice_get (binder_names (formula a.now)) number) result }
{
    match a {
        Formula::All(x, body) => {
            if number == 0 {
                named(alloc, x)
            } else {
                unfixed(alloc, body.get(), number - 1)
            }
        }
        Formula::Imp(_, b) => unfixed(alloc, b.get(), number),
        _ => unreachable!(),
    }
}

/// The cause that nothing fixes the binder of this name.
fn named(alloc: Global, x: &Name) -> ActFault
    ensures { IsUnfixed (Some x.now) result }
{
    match x.copied(alloc) {
        Ok(binder) => ActFault::Stop(Cause::Undetermined { binder }),
        Err(_) => ActFault::OutOfMemory,
    }
}
