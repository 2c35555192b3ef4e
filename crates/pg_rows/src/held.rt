// The moves and theorems that a player has.
ghost use Rattle.std.specs.Prelude.{◌<◌, length};

use crate::courses::{flags_line, level_of};
use crate::fault::RowFault;
use crate::reply::Reply;
use crate::row::first_word;
use crate::session::Session;
use pg_worlds::{Available, Course, LevelId, TacticName, Unlocked, least_available};
use std::alloc::{AllocError, Global};

/// The theorems that are printed have smaller numbers.
const THEOREM_LIMIT: u32 = 1_000;

/// What a player has, in all levels or in one.
#[derive(Clone, Copy)]
enum Held<'a> {
    Unlocked(&'a Unlocked),
    Available(&'a Available),
}

impl Held<'_> {
    fn has_move(&self, name: TacticName) -> bool {
        match self {
            Held::Unlocked(unlocked) => unlocked.has_tactic(name),
            Held::Available(available) => available.has_tactic(name),
        }
    }

    fn has_theorem(&self, number: u32) -> bool {
        match self {
            Held::Unlocked(unlocked) => unlocked.has_theorem(number),
            Held::Available(available) => available.has_theorem(number),
        }
    }
}

/// `NAME WON ..`: what the won levels unlock.
pub fn unlocked_row(
    alloc: Global,
    session: &mut Session,
    text: &str,
    reply: &mut Reply,
) -> Result<(), RowFault> {
    let (name, won) = first_word(text);
    let unlocked = unlocked(alloc, session.course(name)?, won)?;
    Ok(held_lines(alloc, &Held::Unlocked(&unlocked), reply)?)
}

/// `NAME LEVEL WON ..`: what a player has in the level who has won these.
pub fn inventory_row(
    alloc: Global,
    session: &mut Session,
    text: &str,
    reply: &mut Reply,
) -> Result<(), RowFault> {
    let (name, rest) = first_word(text);
    let (level, won) = first_word(rest);
    let course = session.course(name)?;
    let level = level_of(course, level)?;
    let unlocked = unlocked(alloc, course, won)?;
    let available = available(alloc, course, &unlocked, level, session.times)?;
    Ok(held_lines(alloc, &Held::Available(&available), reply)?)
}

/// What is unlocked where these levels are won, one after the other.
fn unlocked(alloc: Global, course: &Course, won: &str) -> Result<Unlocked, RowFault> {
    let mut unlocked = Unlocked::new(alloc)?;
    for word in won.split_whitespace() {
        let level = level_of(course, word)?;
        unlocked.add_won(alloc, course, level)?;
    }
    Ok(unlocked)
}

/// What a player has in a level, found so many times.
fn available(
    alloc: Global,
    course: &Course,
    unlocked: &Unlocked,
    level: LevelId,
    times: u64,
) -> Result<Available, AllocError>
    requires { level.0 < length course.now.levels }
{
    let mut available = unlocked.available(alloc, course, level)?;
    for _ in 1..times {
        available = unlocked.available(alloc, course, level)?;
    }
    Ok(available)
}

/// `NAME LEVEL`: the levels that have to be won before this one is open, and the least that a player has in it.
pub fn least_row(
    alloc: Global,
    session: &mut Session,
    text: &str,
    reply: &mut Reply,
) -> Result<(), RowFault> {
    let (name, level) = first_word(text);
    let course = session.course(name)?;
    let level = level_of(course, level)?;
    let won = course.least_won(alloc, level)?;
    flags_line(alloc, "won", won.as_slice(), reply)?;
    let least = least(alloc, course, level, session.times)?;
    Ok(held_lines(alloc, &Held::Available(&least), reply)?)
}

/// The least that a player has in a level, found so many times.
fn least(
    alloc: Global,
    course: &Course,
    level: LevelId,
    times: u64,
) -> Result<Available, AllocError>
    requires { level.0 < length course.now.levels }
{
    let mut least = least_available(alloc, course, level)?;
    for _ in 1..times {
        least = least_available(alloc, course, level)?;
    }
    Ok(least)
}

/// A line of the moves, and one of the theorems.
fn held_lines(alloc: Global, held: &Held<'_>, reply: &mut Reply) -> Result<(), AllocError> {
    moves_line(alloc, held, reply)?;
    theorems_line(alloc, held, reply)
}

fn moves_line(alloc: Global, held: &Held<'_>, reply: &mut Reply) -> Result<(), AllocError> {
    let mut line = String::from_str(alloc, "moves")?;
    for name in TacticName::ALL {
        if held.has_move(name) {
            let word = name.word();
            write!(line, " {word}")?;
        }
    }
    reply.line(line.as_str())
}

fn theorems_line(alloc: Global, held: &Held<'_>, reply: &mut Reply) -> Result<(), AllocError> {
    let mut line = String::from_str(alloc, "theorems")?;
    for number in 0..THEOREM_LIMIT {
        if held.has_theorem(number) {
            write!(line, " {number}")?;
        }
    }
    reply.line(line.as_str())
}
