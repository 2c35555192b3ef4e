// The size of a statement's closed formula, counted over its parts: the formula itself isn't made.
ghost use Rattle.std.specs.Prelude.{◌≡◌, ◌-◌, ◌^◌, [], ◌∷◌, Some, map, min, IfOk};
ghost use Rattle.pg_logic.specs.Tree.{nodes_of, height_of};
ghost use Rattle.pg_terms.specs.View.{formula};
ghost use Rattle.pg_gametext.specs.Faults.{least, size_faults};
ghost use Rattle.pg_gametext.specs.Reading.{binder, closed_from};
ghost use Rattle.pg_faults.specs.View.{found};
ghost use Rattle.pg_faults.specs.declared.fault.Kind.TheVariants as its;
ghost use Rattle.pg_states.specs.Sizes.{nodes_under, height_under, height_in};

use crate::formulas::StatementFault;
use pg_faults::{Fault, Kind, LimitName};
use pg_syntax::Binder;
use pg_terms::Formula;

/// The nodes that a statement's formula may have.
const NODE_LIMIT: u64 = 4096;

/// The height that it may have.
const HEIGHT_LIMIT: u32 = 256;

/// The fault of the closed formula's size, which stands at this byte: of its nodes, or else of its height. No
/// memory holds a formula of 2^32 nodes.
pub(crate) fn size_fault(
    at: u32,
    binders: &[Binder],
    target: &Formula,
) -> Result<Option<Fault>, StatementFault>
    ensures { IfOk result (λ f. found f ≡ least (size_faults at (closed_from 0 (map binder binders.now) (formula target.now)))) }
{
    let nodes = nodes_in(binders, target);
    if nodes > u32::MAX as u64 {
        return Err(StatementFault::OutOfMemory);
    }
    if nodes > NODE_LIMIT {
        return Ok(limit(at, LimitName::Nodes, nodes as u32));
    }
    let height = height_in(binders, target);
    if height == u32::MAX {
        return Err(StatementFault::OutOfMemory);
    }
    if height > HEIGHT_LIMIT {
        return Ok(limit(at, LimitName::Height, height));
    }
    Ok(None)
}

fn limit(at: u32, what: LimitName, count: u32) -> Option<Fault>
    ensures { result ≡ Some (record { at = at; kind = its.Limit what count }) }
{
    Some(Fault {
        at,
        kind: Kind::Limit(what, count),
    })
}

/// The nodes of the closed formula, up to the type's end.
fn nodes_in(binders: &[Binder], target: &Formula) -> u64
    ensures { result ≡ min (nodes_under (map binder binders.now) (nodes_of (formula target.now))) (2 ^ 64 - 1) }
{
    let mut sum: u64 = 0;
    for binder in binders {
        sum = sum.saturating_add(nodes_of(binder));
    }
    sum.saturating_add(target.size())
}

/// The nodes that a binder brings.
fn nodes_of(of: &Binder) -> u64
    ensures { result ≡ min (nodes_under (binder of.now ∷ []) 0) (2 ^ 64 - 1) }
{
    match of {
        Binder::Var(_) => 1,
        Binder::Hyp(_, a) => a.size().saturating_add(1),
    }
}

/// The height of the closed formula, up to the type's end.
fn height_in(binders: &[Binder], target: &Formula) -> u32
    ensures { result ≡ min (height_under (map binder binders.now) (height_of (formula target.now))) (2 ^ 32 - 1) }
{
    let mut depth: u32 = 0;
    let mut reached: u32 = 0;
    for binder in binders {
        depth = depth.saturating_add(1);
        reached = reached.max(depth.saturating_add(height_of(binder)));
    }
    reached.max(depth.saturating_add(target.height()))
}

/// The height of a binder's formula.
fn height_of(of: &Binder) -> u32
    ensures { result ≡ min (height_in (binder of.now)) (2 ^ 32 - 1) }
{
    match of {
        Binder::Var(_) => 0,
        Binder::Hyp(_, a) => a.height(),
    }
}
