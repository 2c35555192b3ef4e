// Courses: which levels are open.
ghost use Rattle.std.specs.Prelude.{◌≡◌, ◌<◌, length, IfOk};

use crate::fault::RowFault;
use crate::reply::Reply;
use crate::row::first_word;
use crate::session::Session;
use crate::worlds::fault_line;
use pg_worlds::{Course, LevelId};
use std::alloc::{AllocError, Global};
use std::mem;

/// A course under its name.
#[derive(Drop)]
pub struct NamedCourse {
    pub name: String,
    pub course: Course,
}

/// Makes the worlds and levels of the rows before into a course of this name: how many levels it has, or why it is none.
pub fn course_row(
    alloc: Global,
    session: &mut Session,
    name: &str,
    reply: &mut Reply,
) -> Result<(), RowFault> {
    if name.is_empty() {
        return Err(RowFault::Unread("`course` wants a name"));
    }
    let Some(graph) = session.draft.graph(alloc)? else {
        return Ok(reply.line("no graph")?);
    };
    let items = mem::replace(&mut session.draft.items, Vec::new(alloc));
    match Course::checked(alloc, graph, items) {
        Ok(Some(course)) => {
            reply_count(alloc, course.count(), reply)?;
            Ok(session.put_course(name, course)?)
        }
        Ok(None) => Ok(reply.line("no course")?),
        Err(fault) => fault_line(alloc, &session.draft, fault, reply),
    }
}

fn reply_count(alloc: Global, count: usize, reply: &mut Reply) -> Result<(), AllocError> {
    let line = format!(in alloc; "{count} levels")?;
    reply.line(line.as_str())
}

/// `NAME WON ..`: the levels that are open where just these are won.
pub fn open_row(
    alloc: Global,
    session: &mut Session,
    text: &str,
    reply: &mut Reply,
) -> Result<(), RowFault> {
    let (name, won) = first_word(text);
    let course = session.course(name)?;
    let won = won_flags(alloc, course, won)?;
    let open = open_levels(alloc, course, won.as_slice(), session.times)?;
    flags_line(alloc, "open", open.as_slice(), reply)?;
    Ok(())
}

/// Which levels are open, found so many times.
fn open_levels(
    alloc: Global,
    course: &Course,
    won: &[bool],
    times: u64,
) -> Result<Vec<bool>, AllocError>
    requires { length won.now ≡ length course.now.levels }
{
    let mut open = course.open_levels(alloc, won)?;
    for _ in 1..times {
        open = course.open_levels(alloc, won)?;
    }
    Ok(open)
}

/// `NAME LEVEL WON ..`: whether the level is open where just these are won, and its first missing level.
pub fn missing_row(
    alloc: Global,
    session: &mut Session,
    text: &str,
    reply: &mut Reply,
) -> Result<(), RowFault> {
    let (name, rest) = first_word(text);
    let (level, won) = first_word(rest);
    let course = session.course(name)?;
    let level = level_of(course, level)?;
    let won = won_flags(alloc, course, won)?;
    let line = missing_text(alloc, course, won.as_slice(), level, session.times)?;
    Ok(reply.line(line.as_str())?)
}

/// Whether a level is open, found so many times, and its first missing level.
fn missing_text(
    alloc: Global,
    course: &Course,
    won: &[bool],
    level: LevelId,
    times: u64,
) -> Result<String, AllocError>
    requires won { length won.now ≡ length course.now.levels }
    requires level { level.0 < length course.now.levels }
{
    let mut open = course.is_open(won, level);
    for _ in 1..times {
        open = course.is_open(won, level);
    }
    let word = if open { "open" } else { "closed" };
    match course.first_missing(won, level) {
        Some(LevelId(missing)) => format!(in alloc; "{word}, level {missing} is missing"),
        None => String::from_str(alloc, word),
    }
}

/// The level of this number.
pub fn level_of(course: &Course, word: &str) -> Result<LevelId, RowFault>
    ensures { IfOk result (λ level. level.0 < length course.now.levels) }
{
    match word.parse::<u16>() {
        Ok(level) if (level as usize) < course.count() => Ok(LevelId(level)),
        Ok(_) => Err(RowFault::Unread("the course has no such level")),
        Err(_) => Err(RowFault::Unread("a level is a number")),
    }
}

/// One flag for each level: just the levels of these numbers are won, or all.
fn won_flags(alloc: Global, course: &Course, text: &str) -> Result<Vec<bool>, RowFault>
    ensures { IfOk result (λ won. length won.items ≡ length course.now.levels) }
{
    let won = flags(alloc, course, text)?;
    if won.len() != course.count() {
        return Err(RowFault::Unread("a level has no flag"));
    }
    Ok(won)
}

fn flags(alloc: Global, course: &Course, text: &str) -> Result<Vec<bool>, RowFault> {
    let mut won = vec![in alloc; text == "all"; course.count()]?;
    if text == "all" {
        return Ok(won);
    }
    for word in text.split_whitespace() {
        let LevelId(level) = level_of(course, word)?;
        mark(&mut won, level);
    }
    Ok(won)
}

fn mark(flags: &mut Vec<bool>, level: u16) {
    if let Some(flag) = flags.get_mut(level as usize) {
        *flag = true;
    }
}

/// A word, and the numbers of the levels whose flags are up.
pub fn flags_line(
    alloc: Global,
    head: &str,
    flags: &[bool],
    reply: &mut Reply,
) -> Result<(), AllocError> {
    let mut line = String::from_str(alloc, head)?;
    for (level, flag) in flags.iter().enumerate() {
        if *flag {
            write!(line, " {level}")?;
        }
    }
    reply.line(line.as_str())
}
