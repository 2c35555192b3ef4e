//! Reads rows from standard input and prints each, with what the product makes of it.
//!
//! A row is a line: the word of a layer, and what the layer wants. docs/ROWS.md says what each layer wants and prints.
//! An empty line, or one that begins with `#`, is printed as it is. Behind each row stand its lines, four blanks in.
#![tactic(auto)]

mod changes;
mod courses;
mod cursor;
mod declared;
mod draft;
mod fault;
mod forms;
mod formulas;
mod games;
mod held;
mod proofs;
mod reply;
mod row;
mod scripts;
mod session;
mod spelling;
mod steps;
mod text;
mod tokens;
mod tree;
mod words;
mod worlds;

use fault::RowFault;
use reply::Reply;
use row::Row;
use session::Session;
use std::alloc::Global;
use std::io;
use std::io::{BufRead, BufReader, BufWriter, Write};

fn main(rt: HostRuntime) -> io::Result<()> {
    let alloc = rt.alloc();
    let mut session = Session::new(alloc);
    let mut out = BufWriter::new(alloc, io::writer(&rt))?;
    for line in BufReader::new(alloc, rt.reader())?.lines(alloc) {
        let line = line?;
        let mut reply = Reply::new(alloc);
        answer(alloc, &mut session, line.as_str(), &mut reply)?;
        writeln!(out, "{line}")?;
        write!(out, "{}", reply.lines())?;
    }
    out.flush()
}

/// Puts the lines of a row into its reply. A row that can't be read has the one line that says so.
fn answer(alloc: Global, session: &mut Session, line: &str, reply: &mut Reply) -> io::Result<()> {
    if line.is_empty() || line.starts_with('#') {
        return Ok(());
    }
    if let Err(fault) = done(alloc, session, Row::new(line), reply) {
        reply.fault(fault)?;
    }
    Ok(())
}

/// Does what a row says.
fn done(
    alloc: Global,
    session: &mut Session,
    row: Row<'_>,
    reply: &mut Reply,
) -> Result<(), RowFault> {
    match row.layer {
        "times" => session.set_times(row.rest),
        "tokens" | "means" | "reserved" => tokens::row(alloc, session, row, reply),
        "tree" | "same" | "opened" | "substituted" => changes::row(alloc, session, row, reply),
        "game"
        | "copied"
        | "function"
        | "constant"
        | "predicate"
        | "axioms"
        | "declared"
        | "named"
        | "fits"
        | "value" => games::row(alloc, session, row, reply),
        "vars" | "term" | "formula" | "print" | "fresh" => {
            formulas::row(alloc, session, row, reply)
        }
        "script" | "sample" | "items" => scripts::row(alloc, session, row, reply),
        "worlds"
        | "levels"
        | "level"
        | "course"
        | "open"
        | "missing"
        | "unlocked"
        | "inventory"
        | "least"
        | "word" => worlds::row(alloc, session, row, reply),
        "theorem" | "check" | "admit" | "uses" => proofs::row(alloc, session, row, reply),
        _ => Err(RowFault::Unread("no layer has this word")),
    }
}
