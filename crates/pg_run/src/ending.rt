// How a run ends: the lines that it prints and its status.
ghost use Rattle.std.specs.Prelude.{◌≡◌, IfOk, string_bytes};
ghost use Rattle.pg_run.specs.Ending.{file_text, text_of, status_of};

use std::alloc::{AllocError, Global};

/// How a run ends ("Statuses" in docs/COMMAND-LINE.md).
#[derive(Drop)]
pub enum Ending<'a> {
    /// The words are no command.
    Words,
    /// The file of this name could not be read.
    File(&'a str),
    /// The file's text is no one-level game.
    OtherGame,
    /// The door or its connection failed.
    Door,
    /// Memory ran out.
    Memory,
    /// The level was played, and these lines tell what the script came to.
    Played(String),
}

/// The lines that an ending prints, each with its line feed.
pub fn text_of(alloc: Global, ending: &Ending<'_>) -> Result<String, AllocError>
    ensures { IfOk result (λ text. string_bytes text ≡ text_of ending.now) }
{
    match ending {
        Ending::Words => String::from_str(alloc, "words\n"),
        Ending::File(name) => file_text(alloc, name),
        Ending::OtherGame => String::from_str(alloc, "game later\n"),
        Ending::Door => String::from_str(alloc, "door\n"),
        Ending::Memory => String::from_str(alloc, "memory\n"),
        Ending::Played(lines) => String::from_str(alloc, lines.as_str()),
    }
}

/// The line of a file that could not be read.
fn file_text(alloc: Global, name: &str) -> Result<String, AllocError>
    ensures { IfOk result (λ text. string_bytes text ≡ file_text name.now) }
{
    let mut text = String::from_str(alloc, "file ")?;
    text.push_str(name)?;
    text.push_str("\n")?;
    Ok(text)
}

/// The status of an ending.
pub fn status_of(ending: &Ending<'_>) -> u8
    ensures { result ≡ status_of ending.now }
{
    match ending {
        Ending::Words => 1,
        Ending::OtherGame => 2,
        Ending::File(_) => 3,
        Ending::Memory => 4,
        Ending::Door => 8,
        Ending::Played(_) => 0,
    }
}
