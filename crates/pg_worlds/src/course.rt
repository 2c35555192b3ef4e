// The levels in their order, and which of them are open.
ghost use Rattle.std.specs.Prelude.{◌≡◌, ◌↔◌, ◌<◌, ◌⊎◌, ℕ, List, length, map, IfOk, IfErr, IsTrue, MatchOption, IfSome, IfNone, false};
ghost use Rattle.pg_worlds.specs.Flags.{flag};
ghost use Rattle.pg_worlds.specs.Fault.{IsOrderFault};
ghost use Rattle.pg_worlds.specs.declared.course.LevelItems.{LevelItems};

use crate::flags::{has_any_flag, has_flag};
use crate::graph::{Graph, MOST_WORLDS, WorldFault, no_worlds};
use crate::tactic_name::TacticName;
use std::alloc::{AllocError, Global};
use std::marker::Model;

/// How many levels a game has at most: as many as there are numbers of 16 bits.
const MOST_LEVELS: usize = 65_536;

/// A level's place in the order of levels, from 0: worlds in their order, levels by number.
#[derive(Clone, Copy, Debug, PartialEq, Eq)]
pub struct LevelId(pub u16);

/// What a level says of the moves and theorems that a player has.
#[derive(Debug, Drop)]
pub struct LevelItems {
    /// The number of its world.
    pub world: u16,
    /// The moves of its `NewTactic`.
    pub new_tactics: Vec<TacticName>,
    /// The theorems of its `NewTheorem`, by number.
    pub new_theorems: Vec<u32>,
    /// The number of its own statement.
    pub own: u32,
    /// It has a sample.
    pub sampled: bool,
    /// The moves of its `DisabledTactic`.
    pub disabled_tactics: Vec<TacticName>,
    /// The theorems of its `DisabledTheorem`, by number.
    pub disabled_theorems: Vec<u32>,
    /// The moves of its `OnlyTactic`, where that stands.
    pub only_tactics: Option<Vec<TacticName>>,
    /// The theorems of its `OnlyTheorem`, by number, where that stands.
    pub only_theorems: Option<Vec<u32>>,
}

/// The levels of a game in their order, over its worlds in their order.
#[derive(Debug, Drop)]
pub struct Course {
    graph: Graph,
    order: Vec<u16>,
    items: Vec<LevelItems>,
}

impl Model for Course {
    ghost use Rattle.pg_worlds.specs.Course.{Plan, IsPlan};
    ghost use Rattle.pg_worlds.specs.View.{plan_of};

    ghost Value = { Plan };

    ghost view = { λ c. plan_of c.graph c.order.items c.items.items };

    ghost invariant = { λ c. IsPlan (plan_of c.graph c.order.items c.items.items) };
}

impl Course {
    ghost use Rattle.pg_worlds.specs.Course.{level_at, least_won, world_of, Needs, IsBefore, IsFirstMissing, IsLeastWon, IsOpen, IsPlan, AreOpen, HasUnwon, IsWaiting};
    ghost use Rattle.pg_worlds.specs.View.{level_of, plan_of};

    /// The course of these worlds, in the order of the graph, and of these levels in the order of
    /// levels: each world has as many, one behind the other, as the graph says, and all together are
    /// at most 65,536. Takes no memory.
    pub fn new(graph: Graph, order: Vec<u16>, items: Vec<LevelItems>) -> Course
        requires { IsPlan (plan_of graph order.items items.items) }
        ensures { result ≡ plan_of graph order.items items.items }
    {
        Course {
            graph,
            order,
            items,
        }
    }

    /// The course of these worlds and levels, as `new` takes them, over the order of the graph; None exactly where
    /// the levels are not those of the worlds in the order of levels, or more than 65,536. Where the graph has no
    /// order, the fault is that of `Graph::order`.
    pub fn checked(
        alloc: Global,
        graph: Graph,
        items: Vec<LevelItems>,
    ) -> Result<Option<Course>, WorldFault>
        ensures some { IfOk result (λ o. IfSome o (λ c. (c.worlds ≡ graph) × (c.levels ≡ map level_of items.items))) }
        ensures none { IfOk result (λ o. IfNone o ((order : List ℕ) → IsPlan (plan_of graph order items.items) → ⊥)) }
        ensures err { IfErr result (IsOrderFault graph) }
    {
        let order = graph.order(alloc)?;
        if items.len() > MOST_LEVELS {
            return Ok(None);
        }
        let worlds = graph.world_of_each(alloc, order.as_slice())?;
        if !have_worlds(items.as_slice(), worlds.as_slice()) {
            return Ok(None);
        }
        Ok(Some(Course::new(graph, order, items)))
    }

    /// How many levels there are.
    pub fn count(&self) -> usize
        ensures count { result ≡ length self.now.levels }
        ensures plan { IsPlan self.now }
    {
        self.items.len()
    }

    /// Whether the level is open: all levels of all worlds that its world needs, directly or through others, and the
    /// earlier levels of its world are won. `won` has one flag for each level. Takes no memory. The rule stands in
    /// docs/GAME-TEXT.md, "Worlds, and what is open".
    pub fn is_open(&self, won: &[bool], level: LevelId) -> bool
        requires won { length won.now ≡ length self.now.levels }
        requires level { level.0 < length self.now.levels }
        ensures { IsTrue result ↔ IsOpen self.now won.now level.0 }
    {
        self.first_missing(won, level).is_none()
    }

    /// The first level, in the order of levels, that has to be won before this one is open and isn't, or None exactly
    /// where the level is open. `won` has one flag for each level. Takes no memory.
    pub fn first_missing(&self, won: &[bool], level: LevelId) -> Option<LevelId>
        requires won { length won.now ≡ length self.now.levels }
        requires level { level.0 < length self.now.levels }
        ensures first { MatchOption result (IsOpen self.now won.now level.0) (λ missing. IsFirstMissing self.now won.now level.0 missing.0) }
        ensures earlier { IfSome result (λ missing. missing.0 < level.0) }
    {
        let needed = self.needed(self.items(level.0 as usize).world);
        for at in 0..level.0 {
            if !won[at as usize] && self.is_before(&needed, level.0 as usize, at as usize) {
                return Some(LevelId(at));
            }
        }
        None
    }

    /// Whether the level at place `at` stands before the one at place `level`, whose world needs `needed`.
    fn is_before(&self, needed: &[bool], level: usize, at: usize) -> bool
        requires needed { (k : ℕ) → IsTrue (flag needed.now k) ↔ Needs self.now.worlds (world_of self.now level) k }
        requires level { level < length self.now.levels }
        requires at { at < length self.now.levels }
        ensures { IsTrue result ↔ IsBefore self.now level at }
    {
        let world = self.items(at).world;
        has_flag(needed, world as usize) || (world == self.items(level).world && at < level)
    }

    /// Which worlds this world needs, directly or through others.
    fn needed(&self, world: u16) -> [bool; MOST_WORLDS]
        ensures needed { (k : ℕ) → IsTrue (flag result k) ↔ Needs self.now.worlds world k }
        ensures plan { IsPlan self.now }
    {
        let mut needed = no_worlds();
        self.graph.add_needs(world, &mut needed);
        for at in (0..self.order.len()).rev() {
            let behind = self.order[at];
            if has_flag(&needed, behind as usize) {
                self.graph.add_needs(behind, &mut needed);
            }
        }
        needed
    }

    /// One flag for each level: just those levels are won that have to be, before this one is open. `AllocError` comes
    /// where there is no memory.
    pub fn least_won(&self, alloc: Global, level: LevelId) -> Result<Vec<bool>, AllocError>
        requires { level.0 < length self.now.levels }
        ensures least { IfOk result (λ won. IsLeastWon self.now level.0 won.items) }
        ensures flags { IfOk result (λ won. won.items ≡ least_won self.now level.0) }
        ensures earlier { IfOk result (λ won. (k : ℕ) → IsTrue (flag won.items k) → k < level.0) }
    {
        let needed = self.needed(self.items(level.0 as usize).world);
        let mut won = Vec::new(alloc);
        for at in 0..self.count() {
            won.push(self.is_before(&needed, level.0 as usize, at))?;
        }
        Ok(won)
    }

    /// For each level, whether it is open: the answers of `is_open`, found in two passes over the
    /// levels. `won` has one flag for each level. `AllocError` comes where there is no memory.
    pub fn open_levels(&self, alloc: Global, won: &[bool]) -> Result<Vec<bool>, AllocError>
        requires { length won.now ≡ length self.now.levels }
        ensures { IfOk result (λ flags. AreOpen self.now won.now flags.items) }
    {
        let mut closed = self.waiting_worlds(won);
        let mut flags = Vec::with_capacity(alloc, self.count())?;
        for at in 0..self.count() {
            flags.push(!closed[self.world(at) as usize])?;
            self.mark_unwon(won, at, &mut closed);
        }
        Ok(flags)
    }

    /// The worlds that need, directly or through others, a world with a level that isn't won.
    fn waiting_worlds(&self, won: &[bool]) -> [bool; MOST_WORLDS]
        requires { length won.now ≡ length self.now.levels }
        ensures { (w : ℕ) → IsTrue (flag result w) ↔ IsWaiting self.now won.now w }
    {
        let unwon = self.unwon_worlds(won);
        let mut waiting = no_worlds();
        for at in 0..self.order.len() {
            let world = self.order[at];
            let needs = self.graph.needs(world);
            if has_any_flag(&unwon, needs) || has_any_flag(&waiting, needs) {
                waiting[world as usize] = true;
            }
        }
        waiting
    }

    /// The worlds with a level that isn't won.
    fn unwon_worlds(&self, won: &[bool]) -> [bool; MOST_WORLDS]
        requires { length won.now ≡ length self.now.levels }
        ensures { (w : ℕ) → IsTrue (flag result w) ↔ HasUnwon self.now won.now (length self.now.levels) w }
    {
        let mut unwon = no_worlds();
        for at in 0..self.count() {
            self.mark_unwon(won, at, &mut unwon);
        }
        unwon
    }

    /// Sets the flag of the world of the level at this place, if the level isn't won.
    fn mark_unwon(&self, won: &[bool], at: usize, worlds: &mut [bool; MOST_WORLDS])
        requires won { length won.now ≡ length self.now.levels }
        requires at { at < length self.now.levels }
        ensures { (w : ℕ) → IsTrue (flag worlds.new w)
            ↔ (IsTrue (flag worlds.old w) ⊎ ((world_of self.now at ≡ w) × (flag won.now at ≡ false))) }
    {
        if !won[at] {
            worlds[self.world(at) as usize] = true;
        }
    }

    /// What the level at this place says.
    pub(crate) fn items(&self, at: usize) -> &LevelItems
        requires { at < length self.now.levels }
        ensures { level_of result.now ≡ level_at self.now at }
    {
        &self.items[at]
    }

    /// The world of the level at this place.
    fn world(&self, at: usize) -> u16
        requires { at < length self.now.levels }
        ensures world { result ≡ world_of self.now at }
        ensures below { result < 64 }
    {
        self.items[at].world
    }
}

/// Whether these levels are of these worlds, one by one.
fn have_worlds(items: &[LevelItems], worlds: &[u16]) -> bool
    ensures { IsTrue result ↔ (map (λ (i : LevelItems). i.world) items.now ≡ worlds.now) }
{
    if items.len() != worlds.len() {
        return false;
    }
    for (at, item) in items.iter().enumerate() {
        if item.world != worlds[at] {
            return false;
        }
    }
    true
}
