// Blocks and their items.
ghost use Rattle.std.specs.Prelude.{◌≡◌, ◌≤◌, length};
ghost use Rattle.pg_base.specs.Tokens.{word};
ghost use Rattle.pg_script.specs.Blocks.{ends_line, is_semicolon, line_length, named_kind, kind_of, steps_of, move_at, stands_deeper, line_at, inner_at, entry_at, after_semicolon, next_at, entries_at, too_deep, block_at};
ghost use Rattle.pg_script.specs.View.{words, shape, step, entry, Reads};
ghost use Rattle.pg_script.specs.BlockView.{read_entry, read_entries, rest_of};

use crate::fault::ScriptFault;
use crate::form::form_at;
use crate::head::head_of;
use crate::hint::hint_at;
use crate::item::{Form, Item, MoveItem};
use crate::mark::{Left, Mark, mark_of, place, split_first};
use pg_base::{Token, Wanted};
use sqlite_items::Items;
use std::alloc::Global;

/// What is the same for all blocks of a script: where it ends, and whether it is a sample.
#[derive(Clone, Copy, Debug)]
pub struct Whole {
    pub end: u32,
    pub sample: bool,
}

/// The kind of an item, by its first token.
#[derive(Clone, Copy, Debug, PartialEq, Eq)]
pub enum Kind {
    Move,
    Focus,
    Branch,
    Hint,
    NoItem,
}

// An item, the steps that may still stand, and the tokens that are left.
type ReadItem<'t, 'a> = (Item<'a>, usize, &'t [Token<'a>]);

// The items of a block, the steps that may still stand, and the tokens that are left.
type ReadItems<'t, 'a> = (Items<Item<'a>>, usize, &'t [Token<'a>]);

/// Whether a token is first of its line, at this column or at a smaller one.
fn ends_line(column: u32, token: &Token<'_>) -> bool
    ensures { result ≡ ends_line column (word token.now) }
{
    token.first && token.column <= column
}

fn is_semicolon(token: &Token<'_>) -> bool
    ensures { result ≡ is_semicolon (word token.now) }
{
    matches!(mark_of(token), Mark::Semicolon)
}

/// How many tokens go on with an item of a block at this column.
fn line_length(column: u32, tokens: &[Token<'_>]) -> usize
    ensures length { result ≡ line_length column (words tokens.now) }
    ensures within { result ≤ length tokens.now }
{
    let mut count: usize = 0;
    for token in tokens {
        if is_semicolon(token) || ends_line(column, token) {
            return count;
        }
        count += 1;
    }
    count
}

fn named_kind(sample: bool, text: &str) -> Kind
    ensures { result ≡ named_kind sample text.now }
{
    if !sample {
        return Kind::Move;
    }
    match text {
        "Branch" => Kind::Branch,
        "Hint" => Kind::Hint,
        _ => Kind::Move,
    }
}

fn kind_of(sample: bool, token: &Token<'_>) -> Kind
    ensures { result ≡ kind_of sample (word token.now) }
{
    match mark_of(token) {
        Mark::Bullet => Kind::Focus,
        Mark::Free => named_kind(sample, token.text),
        _ => Kind::NoItem,
    }
}

fn steps_of(form: &Form<'_>) -> usize
    ensures { result ≡ steps_of (shape form.now) }
{
    match form {
        Form::Intro(names) => names.len(),
        Form::Rw { rules, .. } => rules.len(),
        Form::Use(terms) => terms.len(),
        _ => 1,
    }
}

/// A move from its word and the tokens behind it.
fn move_at<'a>(
    alloc: Global,
    room: usize,
    end: u32,
    token: Token<'a>,
    tokens: &[Token<'a>],
) -> Result<MoveItem<'a>, ScriptFault>
    ensures { Reads step (move_at room end (word token.entry) (words tokens.now)) result }
{
    if room == 0 {
        return Err(ScriptFault::TooMany { at: token.at });
    }
    let form = form_at(alloc, head_of(token.text), room, end, tokens)?;
    Ok(MoveItem {
        at: token.at,
        head: token.text,
        form,
    })
}

/// Whether the block that begins with `first` stands deep enough behind a bullet or a branch.
fn stands_deeper(column: u32, token: &Token<'_>, first: &Token<'_>) -> bool
    ensures { result ≡ stands_deeper column (word token.now) (word first.now) }
{
    token.column < first.column && !ends_line(column, first)
}

/// The tokens of the next item behind `;`.
fn after_semicolon<'t, 'a>(
    column: u32,
    end: u32,
    tokens: &'t [Token<'a>],
) -> Result<Option<&'t [Token<'a>]>, ScriptFault>
    ensures { Reads rest_of (after_semicolon column end (words tokens.now)) result }
{
    let Some((token, _)) = split_first(tokens) else {
        return Err(ScriptFault::Expected {
            at: end,
            what: Wanted::Item,
        });
    };
    if token.first && token.column < column {
        return Err(ScriptFault::Expected {
            at: token.at,
            what: Wanted::Item,
        });
    }
    Ok(Some(tokens))
}

/// The tokens of the next item behind an item, or None where the block ends.
fn next_at<'t, 'a>(
    column: u32,
    end: u32,
    tokens: &'t [Token<'a>],
) -> Result<Option<&'t [Token<'a>]>, ScriptFault>
    ensures { Reads rest_of (next_at column end (words tokens.now)) result }
{
    let Some((token, rest)) = split_first(tokens) else {
        return Ok(None);
    };
    if token.first && token.column < column {
        return Ok(None);
    }
    if token.first && token.column == column {
        return Ok(Some(tokens));
    }
    if is_semicolon(&token) {
        return after_semicolon(column, end, rest);
    }
    Err(ScriptFault::Expected {
        at: token.at,
        what: Wanted::EndOfItem,
    })
}

/// What is wrong where a block is nested too deep.
fn too_deep(whole: Whole, room: usize, tokens: &[Token<'_>]) -> ScriptFault
    ensures { result ≡ too_deep whole.sample whole.end room (words tokens.now) }
{
    let Some((token, _)) = split_first(tokens) else {
        return ScriptFault::Expected {
            at: whole.end,
            what: Wanted::Block,
        };
    };
    let at = token.at;
    match kind_of(whole.sample, &token) {
        Kind::NoItem => ScriptFault::Expected {
            at,
            what: Wanted::Item,
        },
        Kind::Move if room == 0 => ScriptFault::TooMany { at },
        _ => ScriptFault::Deep { at },
    }
}

/// A move or a hint, whose tokens behind the word end with the line.
fn line_at<'t, 'a>(
    alloc: Global,
    whole: Whole,
    is_hint: bool,
    column: u32,
    room: usize,
    token: Token<'a>,
    tokens: &'t [Token<'a>],
) -> Result<ReadItem<'t, 'a>, ScriptFault>
    ensures { Reads read_entry (line_at is_hint column whole.end room (word token.entry) (words tokens.now)) result }
{
    let (line, rest) = tokens.split_at(line_length(column, tokens));
    let end = place(rest, whole.end);
    if is_hint {
        let hint = hint_at(token.at, end, line)?;
        return Ok((Item::Hint(hint), room, rest));
    }
    let step = move_at(alloc, room, end, token, line)?;
    let left = room.saturating_sub(steps_of(&step.form));
    Ok((Item::Move(step), left, rest))
}

/// The block behind a bullet or a branch.
#[cycle(block)]
fn inner_at<'t, 'a>(
    alloc: Global,
    whole: Whole,
    budget: u32,
    column: u32,
    room: usize,
    token: Token<'a>,
    tokens: &'t [Token<'a>],
) -> Result<ReadItems<'t, 'a>, ScriptFault>
    ensures { Reads read_entries (inner_at (block_at budget whole.sample whole.end) column whole.end room (word token.entry) (words tokens.now)) result }
{
    let Some((first, _)) = split_first(tokens) else {
        return Err(ScriptFault::Expected {
            at: whole.end,
            what: Wanted::Block,
        });
    };
    if !stands_deeper(column, &token, &first) {
        return Err(ScriptFault::Expected {
            at: first.at,
            what: Wanted::Block,
        });
    }
    block_at(alloc, whole, budget, room, tokens)
}

/// The item at the front.
#[cycle(block)]
fn item_at<'t, 'a>(
    alloc: Global,
    whole: Whole,
    budget: u32,
    column: u32,
    room: usize,
    tokens: &'t [Token<'a>],
) -> Result<ReadItem<'t, 'a>, ScriptFault>
    ensures { Reads read_entry (entry_at (block_at budget whole.sample whole.end) whole.sample column whole.end room (words tokens.now)) result }
{
    let Some((token, rest)) = split_first(tokens) else {
        return Err(ScriptFault::Expected {
            at: whole.end,
            what: Wanted::Item,
        });
    };
    match kind_of(whole.sample, &token) {
        Kind::Move => line_at(alloc, whole, false, column, room, token, rest),
        Kind::Hint => line_at(alloc, whole, true, column, room, token, rest),
        Kind::Focus => {
            let (items, left, rest) = inner_at(alloc, whole, budget, column, room, token, rest)?;
            Ok((Item::Focus(items), left, rest))
        }
        Kind::Branch => {
            let (items, left, rest) = inner_at(alloc, whole, budget, column, room, token, rest)?;
            Ok((Item::Branch(items), left, rest))
        }
        Kind::NoItem => Err(ScriptFault::Expected {
            at: token.at,
            what: Wanted::Item,
        }),
    }
}

/// The items of a block at this column.
#[cycle(block)]
fn items_at<'t, 'a>(
    alloc: Global,
    whole: Whole,
    budget: u32,
    column: u32,
    room: usize,
    tokens: &'t [Token<'a>],
) -> Result<ReadItems<'t, 'a>, ScriptFault>
    ensures { Reads read_entries (entries_at (block_at budget whole.sample whole.end) whole.sample column whole.end (length tokens.now) room (words tokens.now)) result }
{
    let mut items = Items::new(alloc);
    let mut left = Left { tokens };
    let mut room_left = room;
    // Each turn reads an item, which has a token at least.
    for _turn in 0..tokens.len() {
        let (item, after, rest) = item_at(alloc, whole, budget, column, room_left, left.tokens)?;
        items.push(item)?;
        room_left = after;
        match next_at(column, whole.end, rest)? {
            None => return Ok((items, room_left, rest)),
            Some(next) => left = Left { tokens: next },
        }
    }
    Err(ScriptFault::Expected {
        at: place(left.tokens, whole.end),
        what: Wanted::Item,
    })
}

/// The block at the front, of which at most `budget` may be nested, itself included, and in which at
/// most `room` steps may stand.
#[cycle(block)]
#[tactic(auto, unfolding(crate::specs::Blocks::block_at))]
pub fn block_at<'t, 'a>(
    alloc: Global,
    whole: Whole,
    budget: u32,
    room: usize,
    tokens: &'t [Token<'a>],
) -> Result<ReadItems<'t, 'a>, ScriptFault>
    ensures { Reads read_entries (block_at budget whole.sample whole.end room (words tokens.now)) result }
{
    if budget == 0 {
        return Err(too_deep(whole, room, tokens));
    }
    let Some((first, _)) = split_first(tokens) else {
        return Err(ScriptFault::Expected {
            at: whole.end,
            what: Wanted::Block,
        });
    };
    items_at(alloc, whole, budget - 1, first.column, room, tokens)
}
