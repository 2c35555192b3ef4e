// The hints of a script, counted down from how many more there may be.
ghost use Rattle.std.specs.Prelude.{◌≡◌, ◌==◌, map, ◌∷◌, []};
ghost use Rattle.std.specs.List.{list_any};
ghost use Rattle.pg_script.specs.View.{entry};
ghost use Rattle.pg_script.specs.Data.{entries_of};
ghost use Rattle.pg_gametext.specs.Checks.{hints_in, hints_in_all};
ghost use Rattle.pg_hints.specs.Counts.{left_of};

use pg_script::{Item, Script};

/// How many more hints there may be behind a script, where so many may be before it; or the byte at which the first
/// hint stands that is too many.
pub fn hints_left(room: u32, script: &Script<'_>) -> Result<u32, u32>
    ensures { result ≡ left_of room (hints_in_all (entries_of (map entry script.now.items))) }
{
    left_behind_all(room, script.items.as_slice())
}

/// The same behind these items.
#[cycle(left_behind)]
fn left_behind_all(room: u32, items: &[Item<'_>]) -> Result<u32, u32>
    ensures { result ≡ left_of room (hints_in_all (entries_of (map entry items.now))) }
{
    let mut left = room;
    for item in items {
        match left_behind(left, item) {
            Ok(less) => left = less,
            Err(at) => return Err(at),
        }
    }
    Ok(left)
}

/// The same behind an item.
#[cycle(left_behind)]
fn left_behind(room: u32, item: &Item<'_>) -> Result<u32, u32>
    ensures { result ≡ left_of room (hints_in (entry item.now)) }
{
    match item {
        Item::Move(_) => Ok(room),
        Item::Focus(items) => left_behind_all(room, items.as_slice()),
        Item::Branch(items) => left_behind_all(room, items.as_slice()),
        Item::Hint(hint) => one_less(room, hint.at),
    }
}

/// Takes one hint off, or tells its place where none is left.
pub(crate) fn one_less(room: u32, at: u32) -> Result<u32, u32>
    ensures { result ≡ left_of room (at ∷ []) }
{
    if room == 0 {
        return Err(at);
    }
    Ok(room - 1)
}

/// Whether one of these items, or an item within them, is a hint whose word stands at this byte.
#[cycle(is_hint_at)]
pub(crate) fn has_hint_at(at: u32, items: &[Item<'_>]) -> bool
    ensures { result ≡ list_any (λ a. a == at) (hints_in_all (entries_of (map entry items.now))) }
{
    for item in items {
        if is_hint_at(at, item) {
            return true;
        }
    }
    false
}

/// Whether an item is such a hint, or holds one.
#[cycle(is_hint_at)]
fn is_hint_at(at: u32, item: &Item<'_>) -> bool
    ensures { result ≡ list_any (λ a. a == at) (hints_in (entry item.now)) }
{
    match item {
        Item::Move(_) => false,
        Item::Focus(items) => has_hint_at(at, items.as_slice()),
        Item::Branch(items) => has_hint_at(at, items.as_slice()),
        Item::Hint(hint) => hint.at == at,
    }
}
