// Worlds and their names.
ghost use Rattle.std.specs.Prelude.{◌≡◌, ◌<◌, IfOk, OnErr, MatchOption, false, string_bytes};
ghost use Rattle.std.specs.List.{list_all};
ghost use Rattle.pg_gametext.specs.Before.{is_world_letter, is_world_name};
ghost use Rattle.pg_gametext.specs.Faults.{level_limit};
ghost use Rattle.pg_commands.specs.View.{which};
ghost use Rattle.pg_places.specs.Held.{IsPlaceOf, changed_at, has_world, its_levels, its_texts, no_texts, one_more_level, read_at, with_text, with_world};
ghost use Rattle.pg_places.specs.There.{counted_at, levels_at};
ghost use Rattle.pg_places.specs.View.{helds};

use crate::texts::Texts;
use pg_commands::Which;
use std::alloc::{AllocError, Global};

/// A world of a game.
#[derive(Drop)]
pub struct World {
    pub name: String,
    /// How many levels it has.
    pub levels: u16,
    /// Where its texts stand. Its conclusion is passed over.
    pub texts: Texts,
}

/// Whether a text may be the name of a world: 1 to 32 ASCII letters, digits and `_`, the first a letter.
pub(crate) fn is_world_name(name: &[u8]) -> bool
    ensures { result ≡ is_world_name name.now }
{
    match name.split_first() {
        Some((first, rest)) => {
            first.is_ascii_alphabetic() && are_world_letters(rest) && rest.len() < 32
        }
        None => false,
    }
}

/// Letters, digits and `_` alone.
fn are_world_letters(text: &[u8]) -> bool
    ensures { result ≡ list_all is_world_letter text.now }
{
    text.iter().all(|letter| is_world_letter(*letter))
}

/// A letter, a digit or `_`.
fn is_world_letter(letter: u8) -> bool
    ensures { result ≡ is_world_letter letter }
{
    letter.is_ascii_alphanumeric() || letter == b'_'
}

/// The place of the first world of this name; None exactly where there is none.
pub(crate) fn place_of(worlds: &[World], name: &str) -> Option<usize>
    ensures { MatchOption result (has_world name.now (helds worlds.now) ≡ false) (λ i. IsPlaceOf name.now i (helds worlds.now)) }
{
    for (place, world) in worlds.iter().enumerate() {
        if name == world.name.as_str() {
            return Some(place);
        }
    }
    None
}

/// Whether there is a world of this name.
pub(crate) fn has_world(worlds: &[World], name: &str) -> bool
    ensures { result ≡ has_world name.now (helds worlds.now) }
{
    place_of(worlds, name).is_some()
}

/// The place of the first world of this name, which is added where there is none. Without memory nothing is added.
pub(crate) fn place_for(worlds: &mut Vec<World>, name: String) -> Result<usize, AllocError>
    ensures place { IfOk result (λ i. IsPlaceOf (string_bytes name) i (helds worlds.new.items)) }
    ensures worlds { IfOk result (λ i. helds worlds.new.items ≡ with_world (string_bytes name) (helds worlds.old.items)) }
    ensures err { OnErr result (worlds.new.items ≡ worlds.old.items) }
{
    if let Some(place) = place_of(worlds.as_slice(), name.as_str()) {
        return Ok(place);
    }
    worlds.push(World {
        name,
        levels: 0,
        texts: Texts::none(),
    })?;
    Ok(worlds.len() - 1)
}

/// How many levels the world at this place has; 0 where there is none.
pub(crate) fn levels_at(worlds: &[World], place: usize) -> u16
    ensures { result ≡ read_at its_levels 0 place (helds worlds.now) }
{
    match worlds.get(place) {
        Some(world) => world.levels,
        None => 0,
    }
}

/// Where the texts of the world at this place stand.
pub(crate) fn texts_at(worlds: &[World], place: usize) -> Texts
    ensures { result ≡ read_at its_texts no_texts place (helds worlds.now) }
{
    match worlds.get(place) {
        Some(world) => world.texts,
        None => Texts::none(),
    }
}

/// Adds a level to the world at this place, where there is one.
pub(crate) fn add_level(worlds: &mut [World], current: Option<usize>)
    requires { levels_at current (helds worlds.old) < level_limit }
    ensures { helds worlds.new ≡ counted_at current one_more_level (helds worlds.old) }
{
    if let Some(place) = current {
        add_level_at(worlds, place);
    }
}

/// Adds a level to the world at this place.
fn add_level_at(worlds: &mut [World], place: usize)
    requires { read_at its_levels 0 place (helds worlds.old) < level_limit }
    ensures { helds worlds.new ≡ changed_at one_more_level place (helds worlds.old) }
{
    if place < worlds.len() {
        let world = &mut worlds[place];
        world.levels += 1;
    }
}

/// Notes where a text of the world at this place stands.
pub(crate) fn add_text_at(worlds: &mut [World], place: usize, kind: Which, at: u32)
    ensures { helds worlds.new ≡ changed_at (with_text (which kind) at) place (helds worlds.old) }
{
    if place < worlds.len() {
        let world = &mut worlds[place];
        world.texts = world.texts.with(kind, at);
    }
}
