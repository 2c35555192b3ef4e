// Rows that ask what a game declares.
use crate::fault::RowFault;
use crate::reply::Reply;
use crate::row::Row;
use crate::session::{Game, Session};
use crate::spelling::write_formula;
use crate::tree;
use crate::words::Words;
use pg_arith::Signature;
use pg_syntax::{Names, print_formula};
use pg_terms::Formula;
use sqlite_items::Boxed;
use std::alloc::Global;

/// Answers a row of this layer.
pub fn row(
    alloc: Global,
    session: &mut Session,
    row: Row<'_>,
    reply: &mut Reply,
) -> Result<(), RowFault> {
    let mut words = Words::new(row.rest);
    let times = session.times;
    let game = session.game(words.next()?)?;
    match row.layer {
        "axioms" => axioms(alloc, &game.signature, reply),
        "declared" => {
            functions(alloc, &game.signature, reply)?;
            predicates(alloc, &game.signature, reply)
        }
        "named" => named(alloc, &game.signature, words.next()?, reply),
        "fits" => fits(alloc, game, words, reply),
        _ => value(alloc, game, times, words, reply),
    }
}

/// A line for each axiom.
fn axioms(alloc: Global, sig: &Signature, reply: &mut Reply) -> Result<(), RowFault> {
    for id in 0..sig.axiom_count() {
        let mut line = format!(in alloc; "{id} {} ", sig.axiom_name(id).as_str())?;
        let a = Boxed::new(alloc, sig.axiom(alloc, id)?)?;
        push_axiom(alloc, &mut line, sig, a.get())?;
        reply.line(line.as_str())?;
    }
    Ok(())
}

/// An axiom's tree, and what is printed of it.
fn push_axiom(
    alloc: Global,
    line: &mut String,
    sig: &Signature,
    a: &Formula,
) -> Result<(), RowFault> {
    write_formula(line, a)?;
    let names = Names {
        vars: Vec::new(alloc),
    };
    let text = print_formula(alloc, a, &names, sig)?;
    Ok(write!(line, " {text}")?)
}

/// A line for each function and constant.
fn functions(alloc: Global, sig: &Signature, reply: &mut Reply) -> Result<(), RowFault> {
    for id in 0..sig.function_count() {
        let name = sig.function_name(id).as_str();
        let arity = sig.function_arity(id);
        let line = format!(in alloc; "function {id} {name} of {arity}")?;
        reply.line(line.as_str())?;
    }
    Ok(())
}

/// A line for each predicate, with its body.
fn predicates(alloc: Global, sig: &Signature, reply: &mut Reply) -> Result<(), RowFault> {
    for id in 0..sig.predicate_count() {
        let name = sig.predicate_name(id).as_str();
        let arity = sig.predicate_arity(id);
        let mut line = format!(in alloc; "predicate {id} {name} of {arity} ")?;
        write_formula(&mut line, sig.predicate_body(id))?;
        reply.line(line.as_str())?;
    }
    Ok(())
}

/// The numbers of a name.
fn named(alloc: Global, sig: &Signature, name: &str, reply: &mut Reply) -> Result<(), RowFault> {
    let function = number(alloc, "function", sig.function_named(name))?;
    let predicate = number(alloc, "predicate", sig.predicate_named(name))?;
    let line = format!(in alloc; "{function}, {predicate}")?;
    Ok(reply.line(line.as_str())?)
}

fn number(alloc: Global, kind: &str, number: Option<u16>) -> Result<String, RowFault> {
    match number {
        Some(number) => Ok(format!(in alloc; "{kind} {number}")?),
        None => Ok(format!(in alloc; "no {kind}")?),
    }
}

/// Whether a formula fits, and whether it does as a body.
fn fits(
    alloc: Global,
    game: &Game,
    mut words: Words<'_>,
    reply: &mut Reply,
) -> Result<(), RowFault> {
    let vars = words.short_number()?;
    let a = tree::formula(alloc, words.next()?)?;
    let line = if game.signature.fits(vars, a.get()) {
        "it fits"
    } else if game.signature.fits_body(vars, a.get()) {
        "it fits as a body alone"
    } else {
        "it does not fit"
    };
    Ok(reply.line(line)?)
}

/// The value of a term.
fn value(
    alloc: Global,
    game: &Game,
    times: u64,
    mut words: Words<'_>,
    reply: &mut Reply,
) -> Result<(), RowFault> {
    let limit = words.number()?;
    let budget = words.number()?;
    if limit == u64::MAX {
        return Err(RowFault::Unread("the limit is too high"));
    }
    let t = tree::term(alloc, words.next()?)?;
    let mut value = game
        .signature
        .value_of_closed(alloc, t.get(), limit, budget);
    for _ in 1..times {
        value = game
            .signature
            .value_of_closed(alloc, t.get(), limit, budget);
    }
    let line = match value {
        Ok(value) => format!(in alloc; "{value}")?,
        Err(fault) => format!(in alloc; "{fault}")?,
    };
    Ok(reply.line(line.as_str())?)
}
