// The values of holes.
ghost use Rattle.std.specs.Prelude.{◌≡◌, ◌<◌, ◌^◌, List, length, IfOk};
ghost use Rattle.pg_logic.specs.Declarations.{Name};
ghost use Rattle.pg_match.specs.View.{found_values};
ghost use Rattle.pg_match.specs.Answers.{Determines};

use crate::fault::MatchFault;
use pg_terms::Term;
use sqlite_items::{Boxed, Items};
use std::alloc::{AllocError, Global};

/// The values of a pattern's holes: one place a hole, that of the outermost binder first. A hole that
/// stands nowhere in the pattern has none.
#[derive(Drop)]
pub struct Found {
    pub values: Items<Option<Boxed<Term>>>,
}

/// The values, where each hole has one. Else it is `Undetermined` with the number of the first hole
/// without a value. There are fewer than 2^32 holes. Want of memory is `OutOfMemory`.
pub fn determined(alloc: Global, found: &Found) -> Result<Items<Boxed<Term>>, MatchFault>
    requires { length found.now.values < 2 ^ 32 }
    ensures { (names : List Name) → length names ≡ length found.now.values → Determines names (found_values found.now) result }
{
    let mut terms = Items::new(alloc);
    let mut binder: u32 = 0;
    for value in found.values.as_slice() {
        match value {
            None => return Err(MatchFault::Undetermined { binder }),
            Some(t) => terms.push(copied(alloc, t)?)?,
        }
        binder += 1;
    }
    Ok(terms)
}

/// An equal term, in a box of its own.
fn copied(alloc: Global, t: &Boxed<Term>) -> Result<Boxed<Term>, AllocError>
    ensures { IfOk result (λ r. r ≡ t.now) }
{
    Boxed::new(alloc, t.get().copied(alloc)?)
}
