// Rows of trees alone: how large they are, whether they are the same, and what is put for their variables.
use crate::fault::RowFault;
use crate::reply::Reply;
use crate::row::Row;
use crate::session::Session;
use crate::spelling::{show_formula, show_size, show_term};
use crate::tree;
use crate::words::Words;
use sqlite_items::{Boxed, Items};
use std::alloc::Global;

/// Answers a row of this layer.
pub fn row(
    alloc: Global,
    _session: &mut Session,
    row: Row<'_>,
    reply: &mut Reply,
) -> Result<(), RowFault> {
    let mut words = Words::new(row.rest);
    let first = words.next()?;
    match row.layer {
        "tree" => measured(alloc, first, reply),
        "same" => same(alloc, first, words.next()?, reply),
        "opened" => opened(alloc, first, words.next()?, reply),
        _ => substituted(alloc, first, words, reply),
    }
}

/// A tree's size and height.
fn measured(alloc: Global, word: &str, reply: &mut Reply) -> Result<(), RowFault> {
    if tree::is_term(word) {
        let t = tree::term(alloc, word)?;
        return show_size(alloc, t.get().size(), t.get().height(), reply);
    }
    let a = tree::formula(alloc, word)?;
    show_size(alloc, a.get().size(), a.get().height(), reply)
}

/// Whether two formulas are the same.
fn same(alloc: Global, first: &str, second: &str, reply: &mut Reply) -> Result<(), RowFault> {
    let a = tree::formula(alloc, first)?;
    let b = tree::formula(alloc, second)?;
    let line = if a.get().same(b.get()) {
        "the same"
    } else {
        "not the same"
    };
    Ok(reply.line(line)?)
}

/// A tree opened by a term.
fn opened(alloc: Global, word: &str, by: &str, reply: &mut Reply) -> Result<(), RowFault> {
    let by = tree::term(alloc, by)?;
    if tree::is_term(word) {
        let t = tree::term(alloc, word)?;
        let t = Boxed::new(alloc, t.get().opened(alloc, by.get())?)?;
        return show_term(alloc, t.get(), reply);
    }
    let a = tree::formula(alloc, word)?;
    let a = Boxed::new(alloc, a.get().opened(alloc, by.get())?)?;
    show_formula(alloc, a.get(), reply)
}

/// A tree with terms for its first free variables.
fn substituted(
    alloc: Global,
    word: &str,
    words: Words<'_>,
    reply: &mut Reply,
) -> Result<(), RowFault> {
    let mut by = Items::new(alloc);
    for word in words.rest().split_whitespace() {
        by.push(tree::term(alloc, word)?.into_inner())?;
    }
    if tree::is_term(word) {
        let t = tree::term(alloc, word)?;
        let t = Boxed::new(alloc, t.get().substituted(alloc, by.as_slice())?)?;
        return show_term(alloc, t.get(), reply);
    }
    let a = tree::formula(alloc, word)?;
    let a = Boxed::new(alloc, a.get().substituted(alloc, by.as_slice())?)?;
    show_formula(alloc, a.get(), reply)
}
