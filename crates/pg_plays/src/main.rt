//! Reads rows from standard input and prints each, with what scripts come to on the statements of the rows.
//!
//! A row is a line: its word, and what that wants. docs/ROWS.md says what each row wants and prints ("Plays"). An empty line,
//! or one that begins with `#`, is printed as it is. Behind each row stand its lines, four blanks in.
#![tactic(auto)]

mod declaring;
mod fault;
mod playing;
mod premises;
mod rehearsing;
mod reply;
mod session;
mod stating;
mod text;

use fault::RowFault;
use playing::{Played, play};
use reply::Reply;
use session::Session;
use std::alloc::Global;
use std::io;
use std::io::{BufRead, BufReader, BufWriter, Write};
use text::text_in;

fn main(rt: HostRuntime) -> io::Result<()> {
    let alloc = rt.alloc();
    let mut session = Session::new(alloc)?;
    let mut out = BufWriter::new(alloc, io::writer(&rt))?;
    for line in BufReader::new(alloc, rt.reader())?.lines(alloc) {
        let line = line?;
        let mut reply = Reply::new(alloc);
        answer(alloc, &mut session, line.as_str(), &mut reply)?;
        writeln!(out, "{line}")?;
        write!(out, "{}", reply.lines())?;
    }
    out.flush()
}

/// Puts the lines of a row into its reply. A row that can't be read has the one line that says so.
fn answer(alloc: Global, session: &mut Session, line: &str, reply: &mut Reply) -> io::Result<()> {
    if line.is_empty() || line.starts_with('#') {
        return Ok(());
    }
    if let Err(fault) = done(alloc, session, line, reply) {
        reply.fault(fault)?;
    }
    Ok(())
}

/// Does what a row says.
fn done(
    alloc: Global,
    session: &mut Session,
    line: &str,
    reply: &mut Reply,
) -> Result<(), RowFault> {
    let (word, rest) = first_word(line);
    let text = text_in(alloc, rest)?;
    match word {
        "game" => renew(alloc, session),
        "function" | "constant" | "predicate" => {
            declaring::row(alloc, &mut session.sig, word, text.as_str(), reply)
        }
        "without" => {
            session.locked = text;
            Ok(())
        }
        "statement" => {
            session.statement = stating::statement(alloc, text.as_str(), &session.sig)?;
            Ok(())
        }
        "script" => play(alloc, session, Played::Script(text.as_bytes()), reply),
        "sample" => play(alloc, session, Played::Sample(text.as_str()), reply),
        "bytes" => {
            let bytes = bytes_of(alloc, text.as_str())?;
            play(alloc, session, Played::Script(bytes.as_slice()), reply)
        }
        _ => Err(RowFault::Unread("no row has this word")),
    }
}

/// What stands before the first blank, and what stands behind it: nothing where there is no blank.
fn first_word(text: &str) -> (&str, &str) {
    match text.split_once(' ') {
        Some((word, rest)) => (word, rest),
        None => (text, ""),
    }
}

/// Nothing is declared or locked any more.
fn renew(alloc: Global, session: &mut Session) -> Result<(), RowFault> {
    *session = Session::new(alloc)?;
    Ok(())
}

/// The bytes of these numbers.
fn bytes_of(alloc: Global, text: &str) -> Result<Vec<u8>, RowFault> {
    let mut bytes = Vec::new(alloc);
    for word in text.split_whitespace() {
        match word.parse::<u8>() {
            Ok(byte) => bytes.push(byte)?,
            Err(_) => return Err(RowFault::Unread("a byte is a number below 256")),
        }
    }
    Ok(bytes)
}
