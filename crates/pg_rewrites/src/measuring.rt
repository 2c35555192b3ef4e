// The limits that formulas pass, told before they are made.
ghost use Rattle.std.specs.Prelude.{◌≡◌, ◌≤◌, ◌++◌, List, flat_map, length};
ghost use Rattle.pg_logic.specs.Tree.{Tm};
ghost use Rattle.pg_moves.specs.Instances.{filled_formula};
ghost use Rattle.pg_moves.specs.Measures.{first_over, formula_measures};
ghost use Rattle.pg_terms.specs.View.{formula};
ghost use Rattle.pg_match.specs.Sizes.{AreSizes};
ghost use Rattle.pg_reduction.specs.Limits.{Tells};
ghost use Rattle.pg_rewrites.specs.Applying.{antecedents};

use pg_match::{Size, formula_instance_size};
use pg_reduction::{ActFault, Cause, Measure, large_nodes, over};
use pg_terms::Formula;
use std::alloc::AllocError;

/// Why a formula isn't made.
#[derive(Drop)]
pub enum Refusal {
    /// It would pass this limit.
    Large(Cause),
    /// The act stops, or there is no memory.
    Fault(ActFault),
}

impl From<AllocError> for Refusal {
    ghost use Rattle.std.specs.Prelude.{◌≡◌};
    ghost use Rattle.pg_reduction.specs.declared.cause.ActFault.TheVariants.{OutOfMemory};
    ghost use Rattle.pg_rewrites.specs.declared.measuring.Refusal.TheVariants.{Fault};

    ghost from_gives = { λ _ e. e ≡ Fault OutOfMemory };

    fn from(_e: AllocError) -> Refusal {
        Refusal::Fault(ActFault::OutOfMemory)
    }
}

/// The first limit that an antecedent passes, of so many binders and antecedents that are taken off a
/// formula. Terms of these sizes stand for the binders; so many of them are used before.
pub fn large_antecedent(a: &Formula, values: &[Size], used: usize, steps: u32) -> Option<Cause>
    requires { used ≤ length values.now }
    ensures { (before after : List Tm) → length before ≡ used → AreSizes (before ++ after) values.now → Tells (first_over (flat_map formula_measures (antecedents steps before after (formula a.now)))) result }
{
    if steps == 0 {
        return None;
    }
    match a {
        Formula::All(_, body) => {
            if used == values.len() {
                return None;
            }
            large_antecedent(body.get(), values, used + 1, steps - 1)
        }
        Formula::Imp(left, right) => {
            if let Some(limit) = large_instance(left.get(), &values[..used]) {
                return Some(limit);
            }
            large_antecedent(right.get(), values, used, steps - 1)
        }
        _ => None,
    }
}

/// The limit that a formula passes where terms of these sizes stand for its holes: of nodes, or else of
/// height.
pub fn large_instance(a: &Formula, values: &[Size]) -> Option<Cause>
    ensures { (ts : List Tm) → AreSizes ts values.now → Tells (first_over (formula_measures (filled_formula ts (formula a.now)))) result }
{
    let size = formula_instance_size(a, values);
    large_nodes(size.nodes).or(over(256, u64::from(size.height), Measure::Height))
}
