// The outside of a run: one file, one connection or none, and a sink, in memory.
use pg_base::{MemoryDoor, MemoryFiles, MemoryLink, MemorySink};
use pg_run::run;
use std::alloc::{AllocError, Global};
use std::vec;

/// An object of the outside.
#[derive(Clone, Copy, Debug, PartialEq, Eq)]
pub enum Object {
    Files,
    Door,
    Link,
    Out,
}

/// The outside of a run, and its words.
#[derive(Clone, Copy)]
pub struct Outside<'a> {
    /// The words after the program's name.
    pub words: &'a [&'a str],
    /// The text of the file GAME.
    pub game: &'a [u8],
    /// The script that the connection gives, two bytes at a time. None: there is no connection.
    pub script: Option<&'a [u8]>,
    /// The object of which a call fails, and that call's number.
    pub failing: Option<(Object, u64)>,
}

/// Whether `play GAME` with this game and script has this status and prints these lines.
pub fn plays(
    alloc: Global,
    game: &[u8],
    script: &[u8],
    want: (u8, &str),
) -> Result<bool, AllocError> {
    let outside = Outside {
        words: &["play", "GAME"],
        game,
        script: Some(script),
        failing: None,
    };
    ends(alloc, outside, want)
}

/// Whether a run has this status and prints these lines.
pub fn ends(
    alloc: Global,
    outside: Outside<'_>,
    (status, lines): (u8, &str),
) -> Result<bool, AllocError> {
    let mut files = files_of(alloc, outside)?;
    let mut door = door_of(alloc, outside)?;
    let mut out = MemorySink::new(alloc, failing_calls(alloc, outside, Object::Out)?);
    let found = run(alloc, outside.words, &mut files, &mut door, &mut out);
    Ok(found == status && out.written() == lines.as_bytes())
}

/// The file GAME.
fn files_of(alloc: Global, outside: Outside<'_>) -> Result<MemoryFiles, AllocError> {
    let text = outside.game.to_vec(alloc)?;
    let file = (String::from_str(alloc, "GAME")?, text);
    let files = vec![in alloc; file]?;
    let failing = failing_calls(alloc, outside, Object::Files)?;
    Ok(MemoryFiles::new(alloc, files, failing))
}

/// A door with the connection, where there is one.
fn door_of(alloc: Global, outside: Outside<'_>) -> Result<MemoryDoor, AllocError> {
    let mut links = Vec::new(alloc);
    if let Some(script) = outside.script {
        let input = script.to_vec(alloc)?;
        let failing = failing_calls(alloc, outside, Object::Link)?;
        links.push(MemoryLink::new(alloc, input, 2, failing))?;
    }
    let failing = failing_calls(alloc, outside, Object::Door)?;
    MemoryDoor::new(alloc, links, failing)
}

/// The numbers of the calls of this object that fail.
fn failing_calls(
    alloc: Global,
    outside: Outside<'_>,
    object: Object,
) -> Result<Vec<u64>, AllocError> {
    let mut numbers = Vec::new(alloc);
    if let Some((failing, number)) = outside.failing {
        if failing == object {
            numbers.push(number)?;
        }
    }
    Ok(numbers)
}
