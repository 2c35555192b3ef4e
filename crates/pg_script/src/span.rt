// Parts of a move: tokens whose parentheses match.
ghost use Rattle.std.specs.Prelude.{◌≡◌, ◌≤◌, ◌<◌, ◌+◌, length, drop, IfOk, IsFalse};
ghost use Rattle.pg_script.specs.Lines.{stops, may_end, past_part, closes_first, length_until, part_of, part_at};
ghost use Rattle.pg_script.specs.View.{words, part, Reads, with_rest};

use crate::fault::ScriptFault;
use crate::item::Piece;
use crate::mark::{Mark, mark_of, place, split_first};
use pg_base::{Token, Wanted};
use sqlite_items::Items;
use std::alloc::{AllocError, Global};

/// How many parentheses may be open at once.
pub const NESTING_LIMIT: u32 = 100;

/// Where a part ends.
#[derive(Clone, Copy, Debug, PartialEq, Eq)]
pub enum Until {
    /// Before the parenthesis that closes what is around it.
    Close,
    /// Before a comma, or at the end.
    Comma,
    /// Before `:=`, or at the end.
    Assign,
    /// At the end.
    End,
}

fn stops(until: Until, mark: Mark) -> bool
    ensures { result ≡ stops until mark }
{
    matches!(
        (until, mark),
        (Until::Close, Mark::Close) | (Until::Comma, Mark::Comma) | (Until::Assign, Mark::Assign)
    )
}

fn may_end(until: Until) -> bool
    ensures { result ≡ may_end until }
{
    !matches!(until, Until::Close)
}

/// What ends a part that has a token.
fn past_part(until: Until) -> Wanted
    ensures { result ≡ past_part until }
{
    match until {
        Until::Close => Wanted::CloseParen,
        Until::Comma => Wanted::CommaOrEnd,
        Until::Assign => Wanted::AssignOrEnd,
        Until::End => Wanted::EndOfItem,
    }
}

/// Whether a closing parenthesis is the first token.
fn closes_first(tokens: &[Token<'_>]) -> bool
    ensures { result ≡ closes_first (words tokens.now) }
{
    match split_first(tokens) {
        Some((token, _)) => matches!(mark_of(&token), Mark::Close),
        None => false,
    }
}

/// How many tokens go before the one that stops, within `base` open parentheses.
#[tactic(auto, using(crate::proofs::Lists::more_more, crate::proofs::Lists::more_none))]
pub fn length_until(
    until: Until,
    end: u32,
    base: u32,
    tokens: &[Token<'_>],
) -> Result<usize, ScriptFault>
    requires { base ≤ 100 }
    ensures length { result ≡ length_until until end base base (words tokens.now) }
    ensures within { IfOk result (λ n. n ≤ length tokens.now) }
    ensures before { IfOk result (λ n. IsFalse (may_end until) → n < length tokens.now) }
{
    let mut depth = base;
    for (count, token) in tokens.iter().enumerate() {
        let mark = mark_of(token);
        let at = token.at;
        if depth == base && stops(until, mark) {
            return Ok(count);
        }
        match mark {
            Mark::Open if depth >= NESTING_LIMIT => return Err(ScriptFault::Deep { at }),
            Mark::Open => depth += 1,
            Mark::Close if depth == base => {
                return Err(ScriptFault::Expected {
                    at,
                    what: past_part(until),
                });
            }
            Mark::Close => depth -= 1,
            _ => {}
        }
    }
    if depth == base && may_end(until) {
        Ok(tokens.len())
    } else {
        Err(ScriptFault::Expected {
            at: end,
            what: Wanted::CloseParen,
        })
    }
}

/// The first so many tokens as a piece, and those after it.
pub fn piece_of<'t, 'a>(
    alloc: Global,
    end: u32,
    count: usize,
    tokens: &'t [Token<'a>],
) -> Result<(Piece<'a>, &'t [Token<'a>]), AllocError>
    requires { count ≤ length tokens.now }
    ensures piece { IfOk result (λ p. part p.0 ≡ part_of end count (words tokens.now)) }
    ensures rest { IfOk result (λ p. words p.1.now ≡ drop count (words tokens.now)) }
    ensures shorter { IfOk result (λ p. length p.1.now + count ≡ length tokens.now) }
{
    let (front, rest) = tokens.split_at(count);
    let tokens = Items::from_slice(alloc, front)?;
    let end = place(rest, end);
    Ok((Piece { tokens, end }, rest))
}

/// A piece of at least one token up to the one that stops, and the tokens that are left.
pub fn piece_until<'t, 'a>(
    alloc: Global,
    what: Wanted,
    until: Until,
    end: u32,
    tokens: &'t [Token<'a>],
) -> Result<(Piece<'a>, &'t [Token<'a>]), ScriptFault>
    ensures { Reads (with_rest part) (part_at what until end (words tokens.now)) result }
{
    if closes_first(tokens) {
        return Err(ScriptFault::Expected {
            at: place(tokens, end),
            what,
        });
    }
    let count = length_until(until, end, 0, tokens)?;
    if count == 0 {
        return Err(ScriptFault::Expected {
            at: place(tokens, end),
            what,
        });
    }
    Ok(piece_of(alloc, end, count, tokens)?)
}
