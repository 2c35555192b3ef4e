// Rows that run scripts.
use crate::fault::RowFault;
use crate::premises::can_attempt;
use crate::rehearsing::rehearsed;
use crate::reply::Reply;
use crate::session::Session;
use pg_arith::Signature;
use pg_attempt::told;
use pg_goal::Lookup;
use pg_kernel::Theorems;
use pg_terms::Name;
use pg_worlds::{Available, Course, Graph, LevelId, LevelItems, TacticName, Unlocked};
use std::alloc::{AllocError, Global};

/// What is run on the statement.
#[derive(Clone, Copy)]
pub enum Played<'p> {
    /// A player's bytes.
    Script(&'p [u8]),
    /// The text of a level's sample, in which hints and branches may stand.
    Sample(&'p str),
}

/// Runs a script or a sample on the statement, and puts the lines that tell of it into the reply.
pub fn play(
    alloc: Global,
    session: &Session,
    played: Played<'_>,
    reply: &mut Reply,
) -> Result<(), RowFault> {
    let sig = &session.sig;
    let theorems = Theorems::new(alloc, sig)?;
    let names = axiom_names(alloc, sig)?;
    let available = available(alloc, sig, session.locked.as_str())?;
    let lookup = Lookup {
        sig,
        theorems: &theorems,
        names: names.as_slice(),
        available: &available,
    };
    let statement = session.statement.get();
    if !can_attempt(&lookup, statement) {
        return Err(RowFault::Unread("the statement does not fit, or is too large"));
    }
    let lines = match played {
        Played::Script(bytes) => told(alloc, statement, bytes, &lookup)?,
        Played::Sample(text) => rehearsed(alloc, statement, text, &lookup)?,
    };
    for line in lines.lines() {
        reply.line(line)?;
    }
    Ok(())
}

/// The names of the axioms, in their order.
fn axiom_names(alloc: Global, sig: &Signature) -> Result<Vec<Option<Name>>, AllocError> {
    let mut names = Vec::new(alloc);
    for id in 0..sig.axiom_count() {
        names.push(Some(sig.axiom_name(id).copied(alloc)?))?;
    }
    Ok(names)
}

/// All moves and theorems but those that are locked.
fn available(alloc: Global, sig: &Signature, locked: &str) -> Result<Available, RowFault> {
    let mut items = Vec::new(alloc);
    items.push(LevelItems {
        world: 0,
        new_tactics: tactics_without(alloc, locked)?,
        new_theorems: theorems_without(alloc, sig, locked)?,
        own: sig.axiom_count(),
        sampled: true,
        disabled_tactics: Vec::new(alloc),
        disabled_theorems: Vec::new(alloc),
        only_tactics: None,
        only_theorems: None,
    })?;
    match Course::checked(alloc, one_world(alloc)?, items) {
        Ok(Some(course)) => in_first_level(alloc, &course),
        Ok(None) => Err(RowFault::Unread("there is no course")),
        Err(_fault) => Err(RowFault::OutOfMemory),
    }
}

/// What a player has in the first level who has won none.
fn in_first_level(alloc: Global, course: &Course) -> Result<Available, RowFault> {
    if course.count() == 0 {
        return Err(RowFault::Unread("there is no level"));
    }
    Ok(Unlocked::new(alloc)?.available(alloc, course, LevelId(0))?)
}

/// The graph of one world with one level.
fn one_world(alloc: Global) -> Result<Graph, RowFault> {
    let mut levels = Vec::new(alloc);
    levels.push(1)?;
    let mut needs = Vec::new(alloc);
    needs.push(Vec::new(alloc))?;
    match Graph::checked(levels, needs) {
        Some(graph) => Ok(graph),
        None => Err(RowFault::Unread("there is no graph")),
    }
}

/// The moves but those that are locked.
fn tactics_without(alloc: Global, locked: &str) -> Result<Vec<TacticName>, AllocError> {
    let mut tactics = Vec::new(alloc);
    for tactic in TacticName::ALL {
        if !has_word(locked, tactic.word()) {
            tactics.push(tactic)?;
        }
    }
    Ok(tactics)
}

/// The numbers of the axioms but those that are locked.
fn theorems_without(alloc: Global, sig: &Signature, locked: &str) -> Result<Vec<u32>, AllocError> {
    let mut theorems = Vec::new(alloc);
    for id in 0..sig.axiom_count() {
        if !has_word(locked, sig.axiom_name(id).as_str()) {
            theorems.push(id)?;
        }
    }
    Ok(theorems)
}

/// Whether a text has this word.
fn has_word(text: &str, word: &str) -> bool {
    for other in text.split_whitespace() {
        if other == word {
            return true;
        }
    }
    false
}
