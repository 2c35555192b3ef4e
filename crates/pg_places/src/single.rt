// Single faults: of a place, of a text that stands twice, of one too many.
ghost use Rattle.std.specs.Prelude.{◌≡◌};
ghost use Rattle.pg_faults.specs.View.{found, limit};
ghost use Rattle.pg_gametext.specs.Checks.{clash_fault, out_of_place};
ghost use Rattle.pg_gametext.specs.Faults as text;

use pg_base::Wanted;
use pg_faults::{Fault, Kind, LimitName};

/// The fault of a command that is out of its place.
pub(crate) fn out_of_place(misplaced: bool, at: u32, what: Wanted) -> Option<Fault>
    ensures { found result ≡ text.least (out_of_place misplaced at) }
{
    if misplaced {
        Some(Fault {
            at,
            kind: Kind::Expected(what),
        })
    } else {
        None
    }
}

/// The fault of what stands a second time, where it stood first.
pub(crate) fn clash(at: u32, first: Option<u32>) -> Option<Fault>
    ensures { found result ≡ text.least (clash_fault at first) }
{
    match first {
        Some(first) => Some(Fault {
            at,
            kind: Kind::Duplicate(first),
        }),
        None => None,
    }
}

/// The fault of one more, where as many stand already as may.
pub(crate) fn one_more(what: LimitName, most: u16, standing: usize, at: u32) -> Option<Fault>
    ensures { found result ≡ text.least (text.one_more (limit what) most standing at) }
{
    if standing == usize::from(most) {
        Some(Fault {
            at,
            kind: Kind::Limit(what, u32::from(most) + 1),
        })
    } else {
        None
    }
}
