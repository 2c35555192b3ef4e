// The limits on formulas.
ghost use Rattle.std.specs.Prelude.{◌≡◌, ◌≤◌, ◌*◌, ℕ};
ghost use Rattle.pg_logic.specs.Tree.{nodes, nodes_of};
ghost use Rattle.pg_logic.specs.Axioms.{constant_axiom};
ghost use Rattle.pg_terms.specs.View.{term as term_in, formula as formula_in};
ghost use Rattle.pg_gametext.specs.Faults.{least, size_faults};
ghost use Rattle.pg_faults.specs.View.{found};
ghost use Rattle.pg_declares.specs.Judged.{sized};

use pg_faults::{Fault, Kind, LimitName};
use pg_terms::{Formula, Term};

/// A formula has at most so many nodes (docs/GAME-TEXT.md, "Limits").
const NODE_LIMIT: u32 = 4096;

/// The longest branch of a formula has at most so many nodes (docs/GAME-TEXT.md, "Limits").
const HEIGHT_LIMIT: u32 = 256;

/// The fault of a formula of so many nodes and this height, which is told at the byte `at`.
pub(crate) fn size_fault(at: u32, nodes: u32, height: u32) -> Option<Fault>
    ensures { found result ≡ least (sized at nodes height) }
{
    if nodes > NODE_LIMIT {
        return Some(Fault {
            at,
            kind: Kind::Limit(LimitName::Nodes, nodes),
        });
    }
    if height > HEIGHT_LIMIT {
        return Some(Fault {
            at,
            kind: Kind::Limit(LimitName::Height, height),
        });
    }
    None
}

/// The fault of the size of a formula.
#[tactic(auto, using(crate::proofs::Heights::formula_exact))]
pub(crate) fn formula_size_fault(at: u32, a: &Formula) -> Option<Fault>
    requires { nodes_of (formula_in a.now) ≤ 3 * 8192 }
    ensures { found result ≡ least (size_faults at (formula_in a.now)) }
{
    let nodes = a.size() as u32;
    size_fault(at, nodes, a.height())
}

/// The fault of the size of the axiom of a constant that is equal to this term.
#[tactic(auto, using(crate::proofs::Heights::term_exact))]
pub(crate) fn constant_size_fault(at: u32, t: &Term) -> Option<Fault>
    requires { nodes (term_in t.now) ≤ 8192 }
    ensures { (k : ℕ) → found result ≡ least (size_faults at (constant_axiom k (term_in t.now))) }
{
    let nodes = t.size() as u32 + 2;
    size_fault(at, nodes, t.height() + 1)
}
