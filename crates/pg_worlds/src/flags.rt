// Sets of numbers as flags: flag k tells whether k is in the set, and past the end there are none.
ghost use Rattle.std.specs.Prelude.{◌≡◌, ◌<◌, ◌≤◌, ℕ, ◌||◌, ◌&&◌, not, true, false, length, vec_len, OnOk, OnErr, ◌==◌, find};
ghost use Rattle.std.specs.List.{list_any, list_all};
ghost use Rattle.pg_worlds.specs.Flags.{flag};

use crate::tactic_name::TacticName;
use std::alloc::AllocError;

/// What has a number by which it is kept in a set.
pub(crate) trait Numbered: Copy {
    ghost number_of: { Self → ℕ };

    fn number(self) -> usize
        ensures { result ≡ number_of self };
}

impl Numbered for u16 {
    ghost number_of = { λ n. n };

    fn number(self) -> usize {
        self as usize
    }
}

impl Numbered for u32 {
    ghost number_of = { λ n. n };

    fn number(self) -> usize {
        self as usize
    }
}

impl Numbered for TacticName {
    ghost use Rattle.pg_worlds.specs.Moves.{place_of};

    ghost number_of = { place_of };

    fn number(self) -> usize {
        self.place()
    }
}

/// Whether the flag of this number stands.
pub(crate) fn has_flag(flags: &[bool], number: usize) -> bool
    ensures { result ≡ flag flags.now number }
{
    number < flags.len() && flags[number]
}

/// Whether the flag of each of these worlds stands.
pub(crate) fn has_all_flags(flags: &[bool], worlds: &[u16]) -> bool
    ensures { result ≡ list_all (flag flags.now) worlds.now }
{
    worlds.iter().all(|w| has_flag(flags, *w as usize))
}

/// Whether the flag of one of these worlds stands.
pub(crate) fn has_any_flag(flags: &[bool], worlds: &[u16]) -> bool
    ensures { result ≡ list_any (flag flags.now) worlds.now }
{
    worlds.iter().any(|w| has_flag(flags, *w as usize))
}

/// The first of these worlds whose flag doesn't stand.
pub(crate) fn first_without_flag(flags: &[bool], worlds: &[u16]) -> Option<u16>
    ensures { result ≡ find (λ w. not (flag flags.now w)) worlds.now }
{
    worlds
        .iter()
        .copied()
        .find(|w| !has_flag(flags, *w as usize))
}

/// Sets the flag of each of these.
pub(crate) fn add_all<T: Numbered>(flags: &mut [bool], names: &[T])
    requires { (k : ℕ) → list_any (λ x. T.number_of x == k) names.now ≡ true → k < length flags.old }
    ensures { (k : ℕ) → flag flags.new k ≡ (flag flags.old k || list_any (λ x. T.number_of x == k) names.now) }
{
    for name in names {
        flags[name.number()] = true;
    }
}

/// Takes the flag of each of these away.
pub(crate) fn remove_all<T: Numbered>(flags: &mut [bool], names: &[T])
    ensures { (k : ℕ) → flag flags.new k ≡ (flag flags.old k && not (list_any (λ x. T.number_of x == k) names.now)) }
{
    for name in names {
        let number = name.number();
        if number < flags.len() {
            flags[number] = false;
        }
    }
}

/// Puts into `kept`, whose flags are down, the flags that are named.
pub(crate) fn keep_named<T: Numbered>(flags: &[bool], names: &[T], kept: &mut [bool])
    requires room { length kept.old ≡ length flags.now }
    requires down { (k : ℕ) → flag kept.old k ≡ false }
    ensures { (k : ℕ) → flag kept.new k ≡ (flag flags.now k && list_any (λ x. T.number_of x == k) names.now) }
{
    for name in names {
        let number = name.number();
        if has_flag(flags, number) {
            kept[number] = true;
        }
    }
}

/// Makes room for the flags of these, which stay down.
pub(crate) fn make_room<T: Numbered>(flags: &mut Vec<bool>, names: &[T]) -> Result<(), AllocError>
    ensures same { (k : ℕ) → flag flags.new.items k ≡ flag flags.old.items k }
    ensures longer { vec_len flags.old ≤ vec_len flags.new }
    ensures room { OnOk result ((k : ℕ) → list_any (λ x. T.number_of x == k) names.now ≡ true → k < vec_len flags.new) }
{
    for name in names {
        lengthen(flags, name.number())?;
    }
    Ok(())
}

/// Sets the flag of each of these, for which there is room.
pub(crate) fn insert_all<T: Numbered>(flags: &mut Vec<bool>, names: &[T])
    requires { (k : ℕ) → list_any (λ x. T.number_of x == k) names.now ≡ true → k < vec_len flags.old }
    ensures { (k : ℕ) → flag flags.new.items k ≡ (flag flags.old.items k || list_any (λ x. T.number_of x == k) names.now) }
{
    add_all(flags.as_mut_slice(), names);
}

/// Makes room for the flag of each of these, and sets it. Without memory all flags stay.
pub(crate) fn insert_growing<T: Numbered>(
    flags: &mut Vec<bool>,
    names: &[T],
) -> Result<(), AllocError>
    ensures ok { OnOk result ((k : ℕ) → flag flags.new.items k ≡ (flag flags.old.items k || list_any (λ x. T.number_of x == k) names.now)) }
    ensures err { OnErr result ((k : ℕ) → flag flags.new.items k ≡ flag flags.old.items k) }
    ensures longer { vec_len flags.old ≤ vec_len flags.new }
{
    make_room(flags, names)?;
    add_all(flags.as_mut_slice(), names);
    Ok(())
}

/// Takes the flag of each of these away.
pub(crate) fn take_out<T: Numbered>(flags: &mut Vec<bool>, names: &[T])
    ensures { (k : ℕ) → flag flags.new.items k ≡ (flag flags.old.items k && not (list_any (λ x. T.number_of x == k) names.now)) }
{
    remove_all(flags.as_mut_slice(), names);
}

/// Makes room for the flag of this number, which stays as it is.
fn lengthen(flags: &mut Vec<bool>, number: usize) -> Result<(), AllocError>
    ensures same { (k : ℕ) → flag flags.new.items k ≡ flag flags.old.items k }
    ensures longer { vec_len flags.old ≤ vec_len flags.new }
    ensures room { OnOk result (number < vec_len flags.new) }
{
    while flags.len() <= number {
        flags.push(false)?;
    }
    Ok(())
}
