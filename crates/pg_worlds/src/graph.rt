// The order of worlds.
ghost use Rattle.std.specs.Prelude.{◌≡◌, ◌↔◌, ◌<◌, ℕ, ◌||◌, not, true, false, ◌++◌, length, map, replicate, nat_lt, OnOk, IfOk, IfErr, IfSome, IfNone, IsTrue, MatchOption, find, Some, drop, slice_index};
ghost use Rattle.std.specs.List.{list_all};
ghost use Rattle.pg_worlds.specs.declared.graph.WorldFault.TheVariants.{OutOfMemory};
ghost use Rattle.pg_worlds.specs.Flags.{flag, has};
ghost use Rattle.pg_worlds.specs.Worlds.{can_be_placed, needs_of, world_count, world_of_each, worlds_of, IsFirstBelow, IsFirstEachTime, IsGraph, IsLoopFrom, IsWorldOrder, WorldOrderLaw};
ghost use Rattle.pg_worlds.specs.Fault.{IsOrderFault};

use crate::flags::{add_all, first_without_flag, has_all_flags, has_flag};
use std::alloc::{AllocError, Global};
use std::marker::Model;
use thiserror::Error;

/// How many worlds a game has at most.
pub(crate) const MOST_WORLDS: usize = 64;

/// Why there is no order of the worlds.
#[derive(Debug, Drop, Error)]
pub enum WorldFault {
    /// The worlds of a loop, each of which needs the next, and the last one the first.
    #[error("the worlds {worlds:?} are a loop of needs")]
    Loop { worlds: Vec<u16> },
    /// No memory.
    #[error("out of memory")]
    OutOfMemory,
}

impl From<AllocError> for WorldFault {
    ghost from_gives = { λ _ e. e ≡ OutOfMemory };

    fn from(_: AllocError) -> WorldFault {
        WorldFault::OutOfMemory
    }
}

/// The worlds of a game in file order, with the number of levels and the needed worlds of each.
#[derive(Debug, Drop)]
pub struct Graph {
    levels: Vec<u16>,
    needs: Vec<Vec<u16>>,
}

impl Model for Graph {
    ghost use Rattle.std.specs.Prelude.{map};
    ghost use Rattle.pg_worlds.specs.Worlds.{Worlds, worlds_of, IsGraph};

    ghost Value = { Worlds };

    ghost view = { λ g. worlds_of g.levels.items (map (λ v. v.items) g.needs.items) };

    ghost invariant = { λ g. IsGraph (worlds_of g.levels.items (map (λ v. v.items) g.needs.items)) };
}

impl Graph {
    /// The worlds in file order: how many levels each has, and which worlds it needs, by number. Both
    /// lists have one length, at most 64, and each need is the number of a world. Takes no memory.
    pub fn new(levels: Vec<u16>, needs: Vec<Vec<u16>>) -> Graph
        requires { IsGraph (worlds_of levels.items (map (λ v. v.items) needs.items)) }
        ensures { result ≡ worlds_of levels.items (map (λ v. v.items) needs.items) }
    {
        Graph { levels, needs }
    }

    /// The worlds, as `new` takes them, and None exactly where these are none: the lists are not of one length, or
    /// longer than 64, or a need is not the number of a world. Takes no memory.
    pub fn checked(levels: Vec<u16>, needs: Vec<Vec<u16>>) -> Option<Graph>
        ensures some { IfSome result (λ g. g ≡ worlds_of levels.items (map (λ v. v.items) needs.items)) }
        ensures none { IfNone result (IsGraph (worlds_of levels.items (map (λ v. v.items) needs.items)) → ⊥) }
    {
        if is_graph(levels.as_slice(), needs.as_slice()) {
            Some(Graph::new(levels, needs))
        } else {
            None
        }
    }

    /// The order of worlds, by number: again and again the first world in file order that is not placed yet and all
    /// of whose needs are.
    ///
    /// `Loop` comes exactly where there is no order. From the first world that can't be placed, its first need that
    /// can't be is followed until a world comes twice; the loop is the worlds met from its first coming on, in that
    /// order. The rule stands in docs/GAME-TEXT.md, "Worlds, and what is open".
    pub fn order(&self, alloc: Global) -> Result<Vec<u16>, WorldFault>
        ensures ok { IfOk result (λ order. IsWorldOrder self.now order.items) }
        ensures err { IfErr result (IsOrderFault self.now) }
        ensures graph { IsGraph self.now }
    {
        let mut placed = no_worlds();
        let order = self.place_worlds(alloc, &mut placed)?;
        let Some(start) = self.first_left(&placed) else {
            return Ok(order);
        };
        let worlds = self.loop_from(alloc, &placed, start)?;
        Err(WorldFault::Loop { worlds })
    }

    /// Puts a world into the order, and its flag into `placed`, as long as one can be placed.
    fn place_worlds(
        &self,
        alloc: Global,
        placed: &mut [bool; MOST_WORLDS],
    ) -> Result<Vec<u16>, AllocError>
        requires { (k : ℕ) → flag placed.old k ≡ false }
        ensures first { IfOk result (λ order. IsFirstEachTime self.now order.items) }
        ensures placed { IfOk result (λ order. (k : ℕ) → flag placed.new k ≡ has order.items k) }
        ensures graph { IsGraph self.now }
        ensures stuck { OnOk result ((w : ℕ) → w < world_count self.now → can_be_placed self.now (flag placed.new) w ≡ false) }
    {
        let mut order = Vec::with_capacity(alloc, self.count())?;
        while let Some(world) = self.next_to_place(placed) {
            placed[world as usize] = true;
            order.push(world)?;
        }
        Ok(order)
    }

    /// The first world in file order that can be placed.
    fn next_to_place(&self, placed: &[bool]) -> Option<u16>
        ensures { MatchOption result
            ((w : ℕ) → w < world_count self.now → can_be_placed self.now (flag placed.now) w ≡ false)
            (IsFirstBelow (world_count self.now) (can_be_placed self.now (flag placed.now))) }
    {
        for world in 0..self.count() as u16 {
            if self.can_be_placed(placed, world) {
                return Some(world);
            }
        }
        None
    }

    /// Whether this world is not placed yet, and all its needs are.
    fn can_be_placed(&self, placed: &[bool], world: u16) -> bool
        requires { world < world_count self.now }
        ensures { result ≡ can_be_placed self.now (flag placed.now) world }
    {
        !has_flag(placed, world as usize) && has_all_flags(placed, self.needs(world))
    }

    /// The first world in file order that is not placed.
    fn first_left(&self, placed: &[bool]) -> Option<u16>
        ensures { MatchOption result
            ((w : ℕ) → w < world_count self.now → flag placed.now w ≡ true)
            (IsFirstBelow (world_count self.now) (λ w. not (flag placed.now w))) }
    {
        for left in 0..self.count() as u16 {
            if !has_flag(placed, left as usize) {
                return Some(left);
            }
        }
        None
    }

    /// Follows from this world the first need that is not placed, until a world comes twice, and gives the worlds met
    /// from its first coming on.
    fn loop_from(&self, alloc: Global, placed: &[bool], start: u16) -> Result<Vec<u16>, AllocError>
        requires start { start < world_count self.now }
        requires left { flag placed.now start ≡ false }
        requires stuck { (w : ℕ) → w < world_count self.now → can_be_placed self.now (flag placed.now) w ≡ false }
        ensures { IfOk result (λ worlds. IsLoopFrom self.now (flag placed.now) start worlds.items) }
    {
        let mut met = no_worlds();
        let mut walk = Vec::with_capacity(alloc, self.count())?;
        let mut world = start;
        while !met[world as usize] {
            met[world as usize] = true;
            walk.push(world)?;
            world = self.first_need_left(placed, world);
        }
        from_first(alloc, &walk, world)
    }

    /// The first need of this world that is not placed.
    fn first_need_left(&self, placed: &[bool], world: u16) -> u16
        requires world { world < world_count self.now }
        requires left { flag placed.now world ≡ false }
        requires stuck { can_be_placed self.now (flag placed.now) world ≡ false }
        ensures first { find (λ v. not (flag placed.now v)) (needs_of self.now world) ≡ Some result }
        ensures world { result < world_count self.now }
        ensures left { flag placed.now result ≡ false }
    {
        first_without_flag(placed, self.needs(world)).unwrap()
    }

    /// How many worlds there are.
    pub(crate) fn count(&self) -> usize
        ensures count { result ≡ world_count self.now }
        ensures graph { IsGraph self.now }
    {
        self.needs.len()
    }

    /// The worlds that this world needs, by number.
    pub(crate) fn needs(&self, world: u16) -> &[u16]
        ensures needs { result.now ≡ needs_of self.now world }
        ensures graph { IsGraph self.now }
    {
        if (world as usize) < self.needs.len() {
            self.needs[world as usize].as_slice()
        } else {
            &[]
        }
    }

    /// Sets the flags of the worlds that this world needs.
    pub(crate) fn add_needs(&self, world: u16, flags: &mut [bool])
        requires { length flags.old ≡ 64 }
        ensures { (k : ℕ) → flag flags.new k ≡ (flag flags.old k || has (needs_of self.now world) k) }
    {
        add_all(flags, self.needs(world));
    }

    /// The world of each level, where the worlds come in this order.
    pub(crate) fn world_of_each(&self, alloc: Global, order: &[u16]) -> Result<Vec<u16>, AllocError>
        ensures { IfOk result (λ r. r.items ≡ world_of_each self.now order.now) }
    {
        let mut worlds = Vec::new(alloc);
        for world in order {
            push_times(&mut worlds, *world, self.level_count(*world))?;
        }
        Ok(worlds)
    }

    /// How many levels this world has.
    fn level_count(&self, world: u16) -> u16
        ensures { result ≡ slice_index self.now.levels world }
    {
        if (world as usize) < self.levels.len() {
            self.levels[world as usize]
        } else {
            0
        }
    }
}

/// A law: an order has each world once, behind its needs, and there is no other order.
pub fn world_order_law()
    ensures { WorldOrderLaw }
{}

/// Whether these are the numbers of levels and the needs of a game's worlds.
fn is_graph(levels: &[u16], needs: &[Vec<u16>]) -> bool
    ensures { IsTrue result ↔ IsGraph (worlds_of levels.now (map (λ v. v.items) needs.now)) }
{
    levels.len() == needs.len() && needs.len() <= MOST_WORLDS && all_rows_below(needs, needs.len())
}

/// Whether all numbers of all rows are below the count.
fn all_rows_below(rows: &[Vec<u16>], count: usize) -> bool
    ensures { result ≡ list_all (λ row. list_all (λ v. nat_lt v count) row.items) rows.now }
{
    rows.iter().all(|row| all_below(row.as_slice(), count))
}

/// Whether all numbers are below the count.
fn all_below(numbers: &[u16], count: usize) -> bool
    ensures { result ≡ list_all (λ v. nat_lt v count) numbers.now }
{
    numbers.iter().all(|v| (*v as usize) < count)
}

/// Flags of worlds, all of them down.
pub(crate) fn no_worlds() -> [bool; MOST_WORLDS]
    ensures down { (k : ℕ) → flag result k ≡ false }
    ensures length { length result ≡ 64 }
{
    [false; MOST_WORLDS]
}

/// The list from the first coming of this world on.
fn from_first(alloc: Global, walk: &[u16], world: u16) -> Result<Vec<u16>, AllocError>
    requires { has walk.now world ≡ true }
    ensures { IfOk result (λ v. (p : ℕ) × (p < length walk.now) × (slice_index walk.now p ≡ world) × (v.items ≡ drop p walk.now)) }
{
    for (i, met) in walk.iter().enumerate() {
        if *met == world {
            return walk[i..].to_vec(alloc);
        }
    }
    unreachable!()
}

/// Puts a world behind the others so many times.
fn push_times(worlds: &mut Vec<u16>, world: u16, times: u16) -> Result<(), AllocError>
    ensures { OnOk result (worlds.new.items ≡ worlds.old.items ++ replicate times world) }
{
    for _ in 0..times {
        worlds.push(world)?;
    }
    Ok(())
}
