// Which moves and theorems a player has.
ghost use Rattle.std.specs.Prelude.{◌≡◌, ◌<◌, ◌&&◌, true, ℕ, List, Bool, length, slice_set, IfOk, OnOk, OnErr, option_map};
ghost use Rattle.pg_worlds.specs.Flags.{flag, has};
ghost use Rattle.pg_worlds.specs.Moves.{place_of};

use crate::course::{Course, LevelId, LevelItems};
use crate::flags::{
    add_all, has_flag, insert_all, insert_growing, keep_named, make_room, remove_all, take_out,
};
use crate::tactic_name::TacticName;
use std::alloc::{AllocError, Global};
use std::marker::Model;

/// How many moves there are.
const MOVES: usize = 16;

/// The moves and theorems that a player's won levels have unlocked.
#[derive(Debug, Drop)]
pub struct Unlocked {
    tactics: [bool; MOVES],
    theorems: Vec<bool>,
}

impl Model for Unlocked {
    ghost use Rattle.pg_worlds.specs.Inventory.{Held};

    ghost Value = { Held };

    ghost view = { λ u. record { tactics = u.tactics; theorems = u.theorems.items } };
}

/// The moves and theorems that a player has in a level.
#[derive(Debug, Drop)]
pub struct Available {
    tactics: [bool; MOVES],
    theorems: Vec<bool>,
}

impl Model for Available {
    ghost use Rattle.pg_worlds.specs.Inventory.{Held};

    ghost Value = { Held };

    ghost view = { λ a. record { tactics = a.tactics; theorems = a.theorems.items } };
}

impl Unlocked {
    ghost use Rattle.pg_worlds.specs.View.{level_of};
    ghost use Rattle.pg_worlds.specs.Course.{level_at};
    ghost use Rattle.pg_worlds.specs.Inventory.{available, inventory, joined, nothing, unlocked, unlocked_by, within};

    /// What a player has unlocked who has won no level.
    pub fn new(alloc: Global) -> Result<Unlocked, AllocError>
        ensures { IfOk result (λ u. inventory u ≡ nothing) }
    {
        Ok(Unlocked {
            tactics: [false; MOVES],
            theorems: Vec::new(alloc),
        })
    }

    /// Adds what a won level unlocks: its `NewTactic`, its `NewTheorem` and its own statement. Without memory nothing
    /// is added. The rules stand in docs/GAME-TEXT.md, "What a player has".
    pub fn add_won(
        &mut self,
        alloc: Global,
        course: &Course,
        level: LevelId,
    ) -> Result<(), AllocError>
        requires { level.0 < length course.now.levels }
        ensures ok { OnOk result (inventory self.new ≡ joined (inventory self.old) (unlocked_by (level_at course.now level.0))) }
        ensures won { OnOk result
            ((won : List Bool) → length won ≡ length course.now.levels → inventory self.old ≡ unlocked course.now won → inventory self.new ≡ unlocked course.now (slice_set won level.0 true)) }
        ensures err { OnErr result (inventory self.new ≡ inventory self.old) }
    {
        let item = course.items(level.0 as usize);
        let own = [item.own];
        make_room(&mut self.theorems, own.as_slice())?;
        insert_growing(&mut self.theorems, item.new_theorems.as_slice())?;
        insert_all(&mut self.theorems, own.as_slice());
        add_all(&mut self.tactics, item.new_tactics.as_slice());
        Ok(())
    }

    /// What the player has in this level: the unlocked together with the level's own New moves and theorems, without its
    /// Disabled ones; where an Only command stands, only what it names; never the level's own statement. `AllocError`
    /// comes where there is no memory.
    pub fn available(
        &self,
        alloc: Global,
        course: &Course,
        level: LevelId,
    ) -> Result<Available, AllocError>
        requires { level.0 < length course.now.levels }
        ensures within { IfOk result (λ a. inventory a ≡ within (level_at course.now level.0) (inventory self.now)) }
        ensures won { IfOk result (λ a. (won : List Bool) → inventory self.now ≡ unlocked course.now won → inventory a ≡ available course.now won level.0) }
    {
        self.within(alloc, course.items(level.0 as usize))
    }

    /// Whether the move is unlocked. Takes no memory.
    pub fn has_tactic(&self, name: TacticName) -> bool
        ensures { result ≡ (inventory self.now).tactic name }
    {
        has_flag(&self.tactics, name.place())
    }

    /// Whether the theorem of this number is unlocked. Takes no memory.
    pub fn has_theorem(&self, id: u32) -> bool
        ensures { result ≡ (inventory self.now).theorem id }
    {
        has_flag(&self.theorems, id as usize)
    }

    /// What the player has in a level that says this.
    fn within(&self, alloc: Global, item: &LevelItems) -> Result<Available, AllocError>
        ensures { IfOk result (λ a. inventory a ≡ within (level_of item.now) (inventory self.now)) }
    {
        let theorems = self.theorems.as_slice().to_vec(alloc)?;
        Ok(Available {
            tactics: moves_within(self.tactics, item),
            theorems: theorems_within(alloc, theorems, item)?,
        })
    }
}

impl Available {
    ghost use Rattle.pg_worlds.specs.Inventory.{inventory, sampled_only};

    /// Whether the player has the move in the level. Takes no memory.
    pub fn has_tactic(&self, name: TacticName) -> bool
        ensures { result ≡ (inventory self.now).tactic name }
    {
        has_flag(&self.tactics, name.place())
    }

    /// Whether the player has the theorem of this number in the level. Takes no memory.
    pub fn has_theorem(&self, id: u32) -> bool
        ensures { result ≡ (inventory self.now).theorem id }
    {
        has_flag(&self.theorems, id as usize)
    }

    /// Takes away the statements of levels that have no sample.
    fn keep_sampled(&mut self, course: &Course)
        ensures { inventory self.new ≡ sampled_only course.now (inventory self.old) }
    {
        for at in 0..course.count() {
            let item = course.items(at);
            if !item.sampled {
                take_out(&mut self.theorems, [item.own].as_slice());
            }
        }
    }
}

ghost use Rattle.pg_worlds.specs.View.{level_of};
ghost use Rattle.pg_worlds.specs.Inventory.{available, has_move, inventory, is_allowed, least_available, sampled_only, tactic_within, theorem_within, unlocked};
ghost use Rattle.pg_worlds.specs.Course.{IsLeastWon};
ghost use Rattle.pg_worlds.specs.declared.tactic_name.TacticName.{TacticName};

/// The least that any player has in this level who may play it: what is available where just those levels are won that
/// have to be, without the statements of levels that have no sample. `AllocError` comes where there is no memory.
pub fn least_available(
    alloc: Global,
    course: &Course,
    level: LevelId,
) -> Result<Available, AllocError>
    requires { level.0 < length course.now.levels }
    ensures least { IfOk result (λ a. inventory a ≡ least_available course.now level.0) }
    ensures won { IfOk result
        (λ a. (won : List Bool) × IsLeastWon course.now level.0 won × (inventory a ≡ sampled_only course.now (available course.now won level.0))) }
{
    let won = course.least_won(alloc, level)?;
    let mut least = unlocked_at(alloc, course, won.as_slice())?.available(alloc, course, level)?;
    least.keep_sampled(course);
    Ok(least)
}

/// What is unlocked where just these levels are won.
fn unlocked_at(alloc: Global, course: &Course, won: &[bool]) -> Result<Unlocked, AllocError>
    requires { length won.now ≡ length course.now.levels }
    ensures { IfOk result (λ u. inventory u ≡ unlocked course.now won.now) }
{
    let mut unlocked = Unlocked::new(alloc)?;
    for at in 0..course.count() {
        if won[at] {
            unlocked.add_won(alloc, course, LevelId(at as u16))?;
        }
    }
    Ok(unlocked)
}

/// The moves of a level, from the unlocked ones.
fn moves_within(unlocked: [bool; MOVES], item: &LevelItems) -> [bool; MOVES]
    ensures { (t : TacticName) → flag result (place_of t) ≡ tactic_within (level_of item.now) (λ s. flag unlocked (place_of s)) t }
{
    let mut moves = unlocked;
    add_all(&mut moves, item.new_tactics.as_slice());
    remove_all(&mut moves, item.disabled_tactics.as_slice());
    allowed_moves(moves, &item.only_tactics)
}

/// The moves that an Only command lets through.
fn allowed_moves(moves: [bool; MOVES], only: &Option<Vec<TacticName>>) -> [bool; MOVES]
    ensures { (t : TacticName) → flag result (place_of t) ≡ (flag moves (place_of t) && is_allowed has_move (option_map (λ v. v.items) only.now) t) }
{
    let Some(named) = only else {
        return moves;
    };
    let mut kept = [false; MOVES];
    keep_named(&moves, named.as_slice(), &mut kept);
    kept
}

/// The theorems of a level, from the unlocked ones.
fn theorems_within(
    alloc: Global,
    unlocked: Vec<bool>,
    item: &LevelItems,
) -> Result<Vec<bool>, AllocError>
    ensures { IfOk result (λ r. (k : ℕ) → flag r.items k ≡ theorem_within (level_of item.now) (flag unlocked.items) k) }
{
    let mut theorems = unlocked;
    insert_growing(&mut theorems, item.new_theorems.as_slice())?;
    take_out(&mut theorems, item.disabled_theorems.as_slice());
    let mut allowed = allowed_theorems(alloc, theorems, &item.only_theorems)?;
    take_out(&mut allowed, [item.own].as_slice());
    Ok(allowed)
}

/// The theorems that an Only command lets through.
fn allowed_theorems(
    alloc: Global,
    theorems: Vec<bool>,
    only: &Option<Vec<u32>>,
) -> Result<Vec<bool>, AllocError>
    ensures { IfOk result (λ r. (k : ℕ) → flag r.items k ≡ (flag theorems.items k && is_allowed has (option_map (λ v. v.items) only.now) k)) }
{
    let Some(named) = only else {
        return Ok(theorems);
    };
    let mut kept = vec![in alloc; false; theorems.len()]?;
    keep_named(theorems.as_slice(), named.as_slice(), kept.as_mut_slice());
    Ok(kept)
}
