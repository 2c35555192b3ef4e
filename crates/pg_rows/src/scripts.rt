// Scripts: their items, or their fault.
use crate::fault::RowFault;
use crate::forms::move_line;
use crate::reply::Reply;
use crate::row::Row;
use crate::session::Session;
use crate::text::text_in;
use crate::tokens::{TEXT_LIMIT, told};
use pg_base::{TokensFault, tokens_of};
use pg_script::{HintItem, Item, Script, ScriptFault, read_items, read_script};
use std::alloc::{AllocError, Global};

/// How many items of a block are printed.
const SHOWN: usize = 8;

/// Answers a row of this layer.
pub fn row(
    alloc: Global,
    session: &mut Session,
    row: Row<'_>,
    reply: &mut Reply,
) -> Result<(), RowFault> {
    let text = text_in(alloc, row.rest)?;
    let times = session.times;
    match row.layer {
        "script" => script_lines(alloc, times, text.as_str(), false, reply),
        "sample" => script_lines(alloc, times, text.as_str(), true, reply),
        _ => items_lines(alloc, times, text.as_str(), reply),
    }
}

/// What is read of a text that is a script, read so many times.
fn script_lines(
    alloc: Global,
    times: u64,
    text: &str,
    sample: bool,
    reply: &mut Reply,
) -> Result<(), RowFault> {
    let mut script = read_script(alloc, text, sample);
    for _ in 1..times {
        script = read_script(alloc, text, sample);
    }
    answer(alloc, script, reply)
}

/// What is read of the tokens of a text, as those of a player's script, read so many times.
fn items_lines(alloc: Global, times: u64, text: &str, reply: &mut Reply) -> Result<(), RowFault> {
    if text.len() > TEXT_LIMIT {
        return Err(RowFault::Unread("the text is too long"));
    }
    match tokens_of(alloc, text) {
        Ok(tokens) => {
            let end = text.len() as u32;
            let mut script = read_items(alloc, tokens.as_slice(), end, false);
            for _ in 1..times {
                script = read_items(alloc, tokens.as_slice(), end, false);
            }
            answer(alloc, script, reply)
        }
        Err(TokensFault::Lex(fault)) => Ok(told(alloc, fault, reply)?),
        Err(TokensFault::OutOfMemory) => Err(RowFault::OutOfMemory),
    }
}

/// The lines of what was read.
fn answer(
    alloc: Global,
    script: Result<Script<'_>, ScriptFault>,
    reply: &mut Reply,
) -> Result<(), RowFault> {
    match script {
        Ok(script) => Ok(script_items(alloc, &script, reply)?),
        Err(ScriptFault::OutOfMemory) => Err(RowFault::OutOfMemory),
        Err(fault) => Ok(told(alloc, fault, reply)?),
    }
}

fn script_items(alloc: Global, script: &Script<'_>, reply: &mut Reply) -> Result<(), AllocError> {
    if script.items.is_empty() {
        return reply.line("no item");
    }
    block_lines(alloc, script.items.as_slice(), "", reply)
}

/// A line for each item of a block, so many blanks in, and the lines of its own block behind it.
#[cycle(item_lines)]
fn block_lines(
    alloc: Global,
    items: &[Item<'_>],
    indent: &str,
    reply: &mut Reply,
) -> Result<(), AllocError> {
    let mut shown: usize = 0;
    for item in items {
        if shown == SHOWN {
            let line = format!(in alloc; "{indent}.. {} items in all", items.len())?;
            return reply.line(line.as_str());
        }
        item_lines(alloc, item, indent, reply)?;
        shown = shown.saturating_add(1);
    }
    Ok(())
}

#[cycle(item_lines)]
fn item_lines(
    alloc: Global,
    item: &Item<'_>,
    indent: &str,
    reply: &mut Reply,
) -> Result<(), AllocError> {
    match item {
        Item::Move(step) => {
            let line = move_line(alloc, indent, step)?;
            reply.line(line.as_str())
        }
        Item::Hint(hint) => hint_line(alloc, indent, hint, reply),
        Item::Focus(items) => {
            let inner = headed(alloc, indent, "·", reply)?;
            block_lines(alloc, items.as_slice(), inner.as_str(), reply)
        }
        Item::Branch(items) => {
            let inner = headed(alloc, indent, "Branch", reply)?;
            block_lines(alloc, items.as_slice(), inner.as_str(), reply)
        }
    }
}

/// Puts the line of an item that has a block, and gives the blanks before that block's lines.
fn headed(
    alloc: Global,
    indent: &str,
    head: &str,
    reply: &mut Reply,
) -> Result<String, AllocError> {
    let line = format!(in alloc; "{indent}{head}")?;
    reply.line(line.as_str())?;
    format!(in alloc; "{indent}  ")
}

fn hint_line(
    alloc: Global,
    indent: &str,
    hint: &HintItem<'_>,
    reply: &mut Reply,
) -> Result<(), AllocError> {
    let (at, text) = (hint.at, hint.text);
    let hidden = if hint.hidden { " hidden" } else { "" };
    let strict = if hint.strict { " strict" } else { "" };
    let line = format!(in alloc; "{indent}{at}: Hint {text:?}{hidden}{strict}")?;
    reply.line(line.as_str())
}
