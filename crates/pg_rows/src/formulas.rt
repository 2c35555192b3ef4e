// Rows of texts that are read as terms and formulas, and of trees that are printed.
use crate::fault::RowFault;
use crate::reply::Reply;
use crate::row::{Row, first_word};
use crate::session::{Game, Session};
use crate::spelling::{show_formula, show_size, show_term};
use crate::text::text_in;
use crate::tree;
use crate::words::name;
use pg_base::tokens_of;
use pg_syntax::{
    Names, SyntaxFault, fresh_name, print_formula, print_term, read_formula, read_term,
};
use pg_terms::{Formula, Name, Term};
use sqlite_items::{Boxed, Items};
use std::alloc::Global;

/// How many bytes a text has at most.
const MOST_BYTES: usize = 1_000_000;

/// How many variables a game has at most.
const MOST_VARIABLES: usize = 1_000;

/// How high a formula is at most whose tree is told.
const MOST_HEIGHT: u32 = 200;

/// Answers a row of this layer.
pub fn row(
    alloc: Global,
    session: &mut Session,
    row: Row<'_>,
    reply: &mut Reply,
) -> Result<(), RowFault> {
    let (game, rest) = first_word(row.rest);
    let times = session.times;
    match row.layer {
        "vars" => set_variables(alloc, session.game_mut(game)?, rest),
        "term" => term(alloc, session.game(game)?, times, rest, reply),
        "formula" => formula(alloc, session.game(game)?, times, rest, reply),
        "print" => print(alloc, session.game(game)?, times, rest, reply),
        _ => fresh(alloc, session.game(game)?, times, rest, reply),
    }
}

/// Names the free variables of a game.
fn set_variables(alloc: Global, game: &mut Game, words: &str) -> Result<(), RowFault> {
    let mut vars = Vec::new(alloc);
    for word in words.split_whitespace() {
        if vars.push(variable(alloc, word)?).is_err() {
            return Err(RowFault::OutOfMemory);
        }
    }
    game.variables = Names { vars };
    Ok(())
}

/// The variable of a word: a dead one of `-`.
fn variable(alloc: Global, word: &str) -> Result<Option<Name>, RowFault> {
    if word == "-" {
        return Ok(None);
    }
    Ok(Some(name(alloc, word)?))
}

/// A text read as a formula: its tree, and what is printed of it, or the fault.
fn formula(
    alloc: Global,
    game: &Game,
    times: u64,
    text: &str,
    reply: &mut Reply,
) -> Result<(), RowFault> {
    let source = text_in(alloc, text)?;
    match formula_read(alloc, game, times, source.as_str())? {
        Ok(a) => {
            let a = Boxed::new(alloc, a)?;
            tell_formula(alloc, game, a.get(), reply)
        }
        Err(fault) => tell(alloc, fault, reply),
    }
}

/// A formula's tree, and what is printed of it. Of a high one its size and height are enough.
fn tell_formula(
    alloc: Global,
    game: &Game,
    a: &Formula,
    reply: &mut Reply,
) -> Result<(), RowFault> {
    let height = a.height();
    if height > MOST_HEIGHT {
        return show_size(alloc, a.size(), height, reply);
    }
    show_formula(alloc, a, reply)?;
    print_formula_of(alloc, game, 1, a, reply)
}

fn tell(alloc: Global, fault: SyntaxFault, reply: &mut Reply) -> Result<(), RowFault> {
    let line = format!(in alloc; "{fault}")?;
    Ok(reply.line(line.as_str())?)
}

/// Reads a text as a formula so many times.
fn formula_read(
    alloc: Global,
    game: &Game,
    times: u64,
    source: &str,
) -> Result<Result<Formula, SyntaxFault>, RowFault> {
    if source.len() > MOST_BYTES || game.variables.vars.len() > MOST_VARIABLES {
        return Err(RowFault::Unread("too many bytes, or variables"));
    }
    let Ok(tokens) = tokens_of(alloc, source) else {
        return Err(RowFault::Unread("the text has no tokens"));
    };
    let (names, sig) = (&game.variables, &game.signature);
    let end = source.len() as u32;
    let mut a = read_formula(alloc, tokens.as_slice(), end, names, sig);
    for _ in 1..times {
        a = read_formula(alloc, tokens.as_slice(), end, names, sig);
    }
    Ok(a)
}

/// A text read as a term: its tree, and what is printed of it, or the fault.
fn term(
    alloc: Global,
    game: &Game,
    times: u64,
    text: &str,
    reply: &mut Reply,
) -> Result<(), RowFault> {
    let source = text_in(alloc, text)?;
    match term_read(alloc, game, times, source.as_str())? {
        Ok(t) => {
            let t = Boxed::new(alloc, t)?;
            show_term(alloc, t.get(), reply)?;
            print_term_of(alloc, game, 1, t.get(), reply)
        }
        Err(fault) => tell(alloc, fault, reply),
    }
}

/// Reads a text as a term so many times.
fn term_read(
    alloc: Global,
    game: &Game,
    times: u64,
    source: &str,
) -> Result<Result<Term, SyntaxFault>, RowFault> {
    if source.len() > MOST_BYTES || game.variables.vars.len() > MOST_VARIABLES {
        return Err(RowFault::Unread("too many bytes, or variables"));
    }
    let Ok(tokens) = tokens_of(alloc, source) else {
        return Err(RowFault::Unread("the text has no tokens"));
    };
    let (names, sig) = (&game.variables, &game.signature);
    let end = source.len() as u32;
    let mut t = read_term(alloc, tokens.as_slice(), end, names, sig);
    for _ in 1..times {
        t = read_term(alloc, tokens.as_slice(), end, names, sig);
    }
    Ok(t)
}

/// What is printed of a tree.
fn print(
    alloc: Global,
    game: &Game,
    times: u64,
    word: &str,
    reply: &mut Reply,
) -> Result<(), RowFault> {
    if tree::is_term(word) {
        let t = tree::term(alloc, word)?;
        return print_term_of(alloc, game, times, t.get(), reply);
    }
    let a = tree::formula(alloc, word)?;
    print_formula_of(alloc, game, times, a.get(), reply)
}

/// Prints a formula so many times.
fn print_formula_of(
    alloc: Global,
    game: &Game,
    times: u64,
    a: &Formula,
    reply: &mut Reply,
) -> Result<(), RowFault> {
    let (names, sig) = (&game.variables, &game.signature);
    let mut text = print_formula(alloc, a, names, sig)?;
    for _ in 1..times {
        text = print_formula(alloc, a, names, sig)?;
    }
    Ok(reply.line(text.as_str())?)
}

/// Prints a term so many times.
fn print_term_of(
    alloc: Global,
    game: &Game,
    times: u64,
    t: &Term,
    reply: &mut Reply,
) -> Result<(), RowFault> {
    let (names, sig) = (&game.variables, &game.signature);
    let mut text = print_term(alloc, t, names, sig)?;
    for _ in 1..times {
        text = print_term(alloc, t, names, sig)?;
    }
    Ok(reply.line(text.as_str())?)
}

/// A name made fresh, where the names behind it are taken.
fn fresh(
    alloc: Global,
    game: &Game,
    times: u64,
    words: &str,
    reply: &mut Reply,
) -> Result<(), RowFault> {
    let (own, rest) = first_word(words);
    let own = name(alloc, own)?;
    let mut taken = Items::new(alloc);
    for word in rest.split_whitespace() {
        taken.push(name(alloc, word)?)?;
    }
    let mut made = fresh_name(alloc, &own, taken.as_slice(), &game.signature)?;
    for _ in 1..times {
        made = fresh_name(alloc, &own, taken.as_slice(), &game.signature)?;
    }
    Ok(reply.line(made.as_str())?)
}
