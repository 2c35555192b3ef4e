// Worlds and their order, and the words of moves.
use crate::draft::Draft;
use crate::fault::RowFault;
use crate::reply::Reply;
use crate::row::Row;
use crate::session::Session;
use crate::text::text_in;
use crate::{courses, held};
use pg_worlds::{Graph, TacticName, WorldFault};
use std::alloc::{AllocError, Global};

/// Answers a row of this layer.
pub fn row(
    alloc: Global,
    session: &mut Session,
    row: Row<'_>,
    reply: &mut Reply,
) -> Result<(), RowFault> {
    let text = text_in(alloc, row.rest)?;
    let rest = text.as_str();
    match row.layer {
        "worlds" => worlds_row(alloc, session, rest, reply),
        "levels" => Ok(session.draft.add_levels(alloc, rest)?),
        "level" => session.draft.add_level(alloc, rest),
        "course" => courses::course_row(alloc, session, rest, reply),
        "open" => courses::open_row(alloc, session, rest, reply),
        "missing" => courses::missing_row(alloc, session, rest, reply),
        "unlocked" => held::unlocked_row(alloc, session, rest, reply),
        "inventory" => held::inventory_row(alloc, session, rest, reply),
        "least" => held::least_row(alloc, session, rest, reply),
        _ => Ok(word_line(alloc, rest, reply)?),
    }
}

/// Begins with worlds that have no levels yet: their order, or their loop.
fn worlds_row(
    alloc: Global,
    session: &mut Session,
    rest: &str,
    reply: &mut Reply,
) -> Result<(), RowFault> {
    session.draft = Draft::of_worlds(alloc, rest)?;
    match session.draft.graph(alloc)? {
        Some(graph) => order_line(
            alloc,
            &session.draft,
            order(alloc, session.times, &graph),
            reply,
        ),
        None => Ok(reply.line("no graph")?),
    }
}

/// The order of worlds, found so many times.
fn order(alloc: Global, times: u64, graph: &Graph) -> Result<Vec<u16>, WorldFault> {
    let mut order = graph.order(alloc);
    for _ in 1..times {
        order = graph.order(alloc);
    }
    order
}

fn order_line(
    alloc: Global,
    draft: &Draft,
    order: Result<Vec<u16>, WorldFault>,
    reply: &mut Reply,
) -> Result<(), RowFault> {
    match order {
        Ok(worlds) => names_line(alloc, "order", draft, worlds.as_slice(), reply),
        Err(fault) => fault_line(alloc, draft, fault, reply),
    }
}

/// The line of worlds that have no order.
pub fn fault_line(
    alloc: Global,
    draft: &Draft,
    fault: WorldFault,
    reply: &mut Reply,
) -> Result<(), RowFault> {
    match fault {
        WorldFault::Loop { worlds } => names_line(alloc, "loop", draft, worlds.as_slice(), reply),
        WorldFault::OutOfMemory => Err(RowFault::OutOfMemory),
    }
}

/// A word, and the names of worlds behind it.
fn names_line(
    alloc: Global,
    head: &str,
    draft: &Draft,
    worlds: &[u16],
    reply: &mut Reply,
) -> Result<(), RowFault> {
    let mut line = String::from_str(alloc, head)?;
    for world in worlds {
        let name = draft.name(*world);
        write!(line, " {name}")?;
    }
    Ok(reply.line(line.as_str())?)
}

/// The move of a word: its number among all, from 0, and its word.
fn word_line(alloc: Global, text: &str, reply: &mut Reply) -> Result<(), AllocError> {
    match TacticName::named(text) {
        Some(name) => {
            let line = format!(in alloc; "move {}, {}", number_of(name), name.word())?;
            reply.line(line.as_str())
        }
        None => reply.line("no move"),
    }
}

/// The place of a move among all.
fn number_of(name: TacticName) -> usize {
    let mut number = 0;
    for (at, other) in TacticName::ALL.iter().enumerate() {
        if *other == name {
            number = at;
        }
    }
    number
}
