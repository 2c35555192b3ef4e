// Rows that declare a game.
use crate::fault::RowFault;
use crate::reply::Reply;
use crate::row::Row;
use crate::session::{Game, Session};
use crate::words::{Words, name};
use crate::{declared, tree};
use pg_arith::{DeclareFault, Signature};
use pg_terms::Name;
use std::alloc::Global;

/// How many parameters a function of a row may have: more than any declaration takes.
const MOST_PARAMETERS: usize = 1_000;

/// Answers a row of this layer.
pub fn row(
    alloc: Global,
    session: &mut Session,
    row: Row<'_>,
    reply: &mut Reply,
) -> Result<(), RowFault> {
    let mut words = Words::new(row.rest);
    let game = words.next()?;
    match row.layer {
        "game" => Ok(session.begin_game(game)?),
        "copied" => session.copy_game(game, words.next()?),
        "function" | "constant" | "predicate" => {
            declare(alloc, session.game_mut(game)?, row.layer, words, reply)
        }
        _ => declared::row(alloc, session, row, reply),
    }
}

/// Declares in a game, and tells the number or the refusal.
fn declare(
    alloc: Global,
    game: &mut Game,
    layer: &str,
    mut words: Words<'_>,
    reply: &mut Reply,
) -> Result<(), RowFault> {
    let sig = &mut game.signature;
    let number = match layer {
        "function" => function(alloc, sig, recursion_of(&mut words)?)?,
        "constant" => constant(alloc, sig, words.next()?, words.next()?, words.next()?)?,
        _ => predicate(
            alloc,
            sig,
            words.next()?,
            words.short_number()?,
            words.next()?,
        )?,
    };
    game.renew_theorems(alloc)?;
    tell(alloc, number, reply)
}

fn tell(
    alloc: Global,
    number: Result<u16, DeclareFault>,
    reply: &mut Reply,
) -> Result<(), RowFault> {
    let line = match number {
        Ok(number) => format!(in alloc; "number {number}")?,
        Err(fault) => format!(in alloc; "refused: {fault}")?,
    };
    Ok(reply.line(line.as_str())?)
}

/// The words of a function by recursion.
#[derive(Clone, Copy)]
struct RecursionWords<'a> {
    name: &'a str,
    params: &'a str,
    zero_name: &'a str,
    succ_name: &'a str,
    base: &'a str,
    step: &'a str,
}

fn recursion_of<'a>(words: &mut Words<'a>) -> Result<RecursionWords<'a>, RowFault> {
    Ok(RecursionWords {
        name: words.next()?,
        params: words.next()?,
        zero_name: words.next()?,
        succ_name: words.next()?,
        base: words.next()?,
        step: words.next()?,
    })
}

/// Names with commas between.
fn names(alloc: Global, word: &str) -> Result<Vec<Name>, RowFault> {
    let mut names = Vec::new(alloc);
    let mut rest = word;
    for _ in 0..word.len() {
        let Some((first, more)) = rest.split_once(',') else {
            break;
        };
        push_name(alloc, &mut names, first)?;
        rest = more;
    }
    push_name(alloc, &mut names, rest)?;
    Ok(names)
}

fn push_name(alloc: Global, names: &mut Vec<Name>, word: &str) -> Result<(), RowFault> {
    match names.push(name(alloc, word)?) {
        Ok(()) => Ok(()),
        Err(_) => Err(RowFault::OutOfMemory),
    }
}

fn function(
    alloc: Global,
    sig: &mut Signature,
    words: RecursionWords<'_>,
) -> Result<Result<u16, DeclareFault>, RowFault> {
    let params = names(alloc, words.params)?;
    let count = params.len();
    if count == 0 || count > MOST_PARAMETERS || sig.function_count() >= 1_000 {
        return Err(RowFault::Unread("too many parameters, or functions"));
    }
    let arity = count as u16;
    let base = tree::term(alloc, words.base)?;
    let step = tree::term(alloc, words.step)?;
    let own = name(alloc, words.name)?;
    let zero_name = name(alloc, words.zero_name)?;
    let succ_name = name(alloc, words.succ_name)?;
    Ok(sig.declare_function(
        alloc,
        own,
        arity,
        params,
        base.into_inner(),
        step.into_inner(),
        zero_name,
        succ_name,
    ))
}

fn constant(
    alloc: Global,
    sig: &mut Signature,
    own: &str,
    equation: &str,
    body: &str,
) -> Result<Result<u16, DeclareFault>, RowFault> {
    if sig.function_count() >= 1_000 {
        return Err(RowFault::Unread("too many functions"));
    }
    let body = tree::term(alloc, body)?;
    let own = name(alloc, own)?;
    let equation = name(alloc, equation)?;
    Ok(sig.declare_constant(alloc, own, body.into_inner(), equation))
}

fn predicate(
    alloc: Global,
    sig: &mut Signature,
    own: &str,
    arity: u32,
    body: &str,
) -> Result<Result<u16, DeclareFault>, RowFault> {
    if arity > 65_535 || sig.predicate_count() >= 1_000 {
        return Err(RowFault::Unread("too many arguments, or predicates"));
    }
    let body = tree::formula(alloc, body)?;
    let own = name(alloc, own)?;
    Ok(sig.declare_predicate(alloc, own, arity as u16, body.into_inner()))
}
