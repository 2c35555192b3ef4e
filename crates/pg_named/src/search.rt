// Where a name stands first among others.
ghost use Rattle.std.specs.Prelude.{◌≡◌, ◌&&◌, ◌||◌, not, map, Some};
ghost use Rattle.std.specs.Str.{bytes_eq};
ghost use Rattle.pg_faults.specs.View.{found};
ghost use Rattle.pg_gametext.specs.Faults.{least};
ghost use Rattle.pg_gametext.specs.Checks.{clash_fault};
ghost use Rattle.pg_gametext.specs.Before.{least_with, first_place};
ghost use Rattle.pg_named.specs.View.{given};
ghost use Rattle.pg_named.specs.Found.{kept, counts, with_entry, sooner_place};

use crate::given::Given;
use pg_faults::{Fault, Kind};

/// The least of a place and of another that there may be.
pub(crate) fn least_with(at: u32, other: Option<u32>) -> u32
    ensures { Some result ≡ least_with at other }
{
    match other {
        Some(place) => at.min(place),
        None => at,
    }
}

/// Whether an entry has this name; of the declared alone, if those alone count.
fn counts(name: &str, declared: bool, entry: &Given<'_>) -> bool
    ensures { result ≡ counts name.now declared (given entry.now) }
{
    (!declared || entry.declared) && name == entry.name
}

/// The least place so far, with one entry more.
pub(crate) fn with_entry(
    name: &str,
    declared: bool,
    entry: &Given<'_>,
    first: Option<u32>,
) -> Option<u32>
    ensures { result ≡ with_entry name.now declared (given entry.now) first }
{
    if counts(name, declared, entry) {
        Some(least_with(entry.at, first))
    } else {
        first
    }
}

/// The least place at which a name was given; of the declared alone, if those alone count.
pub(crate) fn first_place(name: &str, declared: bool, entries: &[Given<'_>]) -> Option<u32>
    ensures { result ≡ first_place name.now (kept declared (map given entries.now)) }
{
    let mut first = None;
    for entry in entries {
        first = with_entry(name, declared, entry, first);
    }
    first
}

/// The lesser of two places that there may be.
pub(crate) fn sooner_place(first: Option<u32>, other: Option<u32>) -> Option<u32>
    ensures { result ≡ sooner_place first other }
{
    match first {
        Some(at) => Some(least_with(at, other)),
        None => other,
    }
}

/// The fault of a name at this place that stands at an earlier one, if it does.
pub(crate) fn clash(at: u32, first: Option<u32>) -> Option<Fault>
    ensures { found result ≡ least (clash_fault at first) }
{
    let first = first?;
    Some(Fault {
        at,
        kind: Kind::Duplicate(first),
    })
}
