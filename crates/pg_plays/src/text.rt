// Texts as they stand in rows.
use crate::fault::RowFault;
use pg_arith::Signature;
use pg_base::{decoded, tokens_of};
use pg_syntax::{Names, read_formula, read_term};
use pg_terms::{Formula, Name, Term};
use sqlite_items::Boxed;
use std::alloc::{AllocError, Global};

/// How many bytes a term or a formula of a row has at most.
const MOST_BYTES: usize = 1_000_000;

/// How many variables stand before a term or a formula at most.
const MOST_VARIABLES: usize = 1_000;

/// The text that a row has: each `{N|piece}` stands for `piece` N times, where N is a number of at most five digits, and then
/// escapes are read as in a text of a game. It fails only for want of memory.
pub fn text_in(alloc: Global, row: &str) -> Result<String, AllocError> {
    let long = repeated(alloc, row)?;
    decoded(alloc, long.as_str())
}

/// The formula that a text spells under these names.
pub fn formula(
    alloc: Global,
    text: &str,
    names: &Names,
    sig: &Signature,
) -> Result<Boxed<Formula>, RowFault> {
    if text.len() > MOST_BYTES || names.vars.len() > MOST_VARIABLES {
        return Err(RowFault::Unread("too many bytes, or variables"));
    }
    let Ok(tokens) = tokens_of(alloc, text) else {
        return Err(RowFault::Unread("the text has no tokens"));
    };
    let a = read_formula(alloc, tokens.as_slice(), text.len() as u32, names, sig)?;
    Ok(Boxed::new(alloc, a)?)
}

/// The term that a text spells under these names.
pub fn term(
    alloc: Global,
    text: &str,
    names: &Names,
    sig: &Signature,
) -> Result<Boxed<Term>, RowFault> {
    if text.len() > MOST_BYTES || names.vars.len() > MOST_VARIABLES {
        return Err(RowFault::Unread("too many bytes, or variables"));
    }
    let Ok(tokens) = tokens_of(alloc, text) else {
        return Err(RowFault::Unread("the text has no tokens"));
    };
    let t = read_term(alloc, tokens.as_slice(), text.len() as u32, names, sig)?;
    Ok(Boxed::new(alloc, t)?)
}

/// The name that a word is.
pub fn name(alloc: Global, word: &str) -> Result<Name, RowFault> {
    if word.is_empty() {
        return Err(RowFault::Unread("a name is empty"));
    }
    Ok(Name::new(alloc, word)?)
}

/// The text with its repetitions written out.
fn repeated(alloc: Global, row: &str) -> Result<String, AllocError> {
    let mut out = String::new(alloc);
    let mut rest = row;
    for _ in 0..row.len() {
        let Some((before, behind)) = rest.split_once('{') else {
            break;
        };
        out.push_str(before)?;
        rest = match repetition(behind) {
            Some((times, piece, after)) => {
                push_times(&mut out, piece, times)?;
                after
            }
            None => {
                out.push_str("{")?;
                behind
            }
        };
    }
    out.push_str(rest)?;
    Ok(out)
}

/// `N|piece}` at the front of a text: the number, the piece, and what stands behind them.
fn repetition(text: &str) -> Option<(u16, &str, &str)> {
    let (number, behind) = text.split_once('|')?;
    let (piece, after) = behind.split_once('}')?;
    match number.parse::<u16>() {
        Ok(times) => Some((times, piece, after)),
        Err(_) => None,
    }
}

fn push_times(out: &mut String, piece: &str, times: u16) -> Result<(), AllocError> {
    for _ in 0..times {
        out.push_str(piece)?;
    }
    Ok(())
}
