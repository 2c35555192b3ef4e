// Expressions.
ghost use Rattle.std.specs.Prelude.{◌≡◌, ◌≤◌, ◌<◌, length, map, IfOk, IfSome};
ghost use Rattle.pg_script.specs.Lines.{arg_length, args_from, after_close, expr_at};
ghost use Rattle.pg_script.specs.View.{words, part, expression, Reads, with_rest, rest_words};
ghost use Rattle.pg_script.specs.Joined.{TakesArgument};

use crate::fault::ScriptFault;
use crate::item::{Expr, Piece};
use crate::mark::{Left, Mark, mark_of, split_first};
use crate::span::{NESTING_LIMIT, Until, length_until, piece_of};
use pg_base::{Token, Wanted};
use sqlite_items::Items;
use std::alloc::Global;

/// How many tokens the argument at the front has, 0 where there is none.
fn arg_length(end: u32, depth: u32, tokens: &[Token<'_>]) -> Result<usize, ScriptFault>
    requires { depth ≤ 100 }
    ensures length { result ≡ arg_length end depth (words tokens.now) }
    ensures within { IfOk result (λ n. n ≤ length tokens.now) }
{
    let Some((token, rest)) = split_first(tokens) else {
        return Ok(0);
    };
    match mark_of(&token) {
        Mark::Free | Mark::Number => Ok(1),
        Mark::Open if depth >= NESTING_LIMIT => Err(ScriptFault::Deep { at: token.at }),
        Mark::Open => match length_until(Until::Close, end, depth + 1, rest) {
            Ok(count) => Ok(count + 2),
            Err(fault) => Err(fault),
        },
        _ => Ok(0),
    }
}

/// Puts the argument at the front, if there is one, behind the others, and gives the tokens that are left.
#[tactic(auto, using(crate::proofs::Arguments::args_turn, crate::proofs::Arguments::args_end, crate::proofs::Arguments::args_fault))]
fn argument<'t, 'a>(
    alloc: Global,
    end: u32,
    depth: u32,
    args: &mut Items<Piece<'a>>,
    tokens: &'t [Token<'a>],
) -> Result<Option<&'t [Token<'a>]>, ScriptFault>
    requires { depth ≤ 100 }
    ensures read { TakesArgument end depth (words tokens.now) (map part args.old) (map part args.new) result }
    ensures shorter { IfOk result (λ o. IfSome o (λ rest. length rest.now < length tokens.now)) }
{
    let count = arg_length(end, depth, tokens)?;
    if count == 0 {
        return Ok(None);
    }
    let (piece, rest) = piece_of(alloc, end, count, tokens)?;
    args.push(piece)?;
    Ok(Some(rest))
}

/// Arguments, as many as stand, and the tokens that are left.
fn arguments<'t, 'a>(
    alloc: Global,
    end: u32,
    depth: u32,
    tokens: &'t [Token<'a>],
) -> Result<(Items<Piece<'a>>, &'t [Token<'a>]), ScriptFault>
    requires { depth ≤ 100 }
    ensures { Reads (with_rest (map part)) (args_from end depth 0 (words tokens.now)) result }
{
    let mut args = Items::new(alloc);
    let mut left = Left { tokens };
    while let Some(after) = argument(alloc, end, depth, &mut args, left.tokens)? {
        left = Left { tokens: after };
    }
    Ok((args, left.tokens))
}

/// The tokens behind a closing parenthesis.
pub fn after_close<'t, 'a>(
    end: u32,
    tokens: &'t [Token<'a>],
) -> Result<&'t [Token<'a>], ScriptFault>
    ensures { Reads rest_words (after_close end (words tokens.now)) result }
{
    let Some((token, rest)) = split_first(tokens) else {
        return Err(ScriptFault::Expected {
            at: end,
            what: Wanted::CloseParen,
        });
    };
    match mark_of(&token) {
        Mark::Close => Ok(rest),
        _ => Err(ScriptFault::Expected {
            at: token.at,
            what: Wanted::CloseParen,
        }),
    }
}

/// The expression at the front, within so many parentheses, and the tokens that are left.
pub fn expr_at<'t, 'a>(
    alloc: Global,
    end: u32,
    depth: u32,
    tokens: &'t [Token<'a>],
) -> Result<(Expr<'a>, &'t [Token<'a>]), ScriptFault>
    requires { depth ≤ 100 }
    ensures { Reads (with_rest expression) (expr_at end depth (words tokens.now)) result }
{
    let Some((token, rest)) = split_first(tokens) else {
        return Err(ScriptFault::Expected {
            at: end,
            what: Wanted::Expression,
        });
    };
    match mark_of(&token) {
        Mark::Free => {
            let (args, rest) = arguments(alloc, end, depth, rest)?;
            Ok((Expr { name: token, args }, rest))
        }
        Mark::Open if depth >= NESTING_LIMIT => Err(ScriptFault::Deep { at: token.at }),
        Mark::Open => {
            let (expr, rest) = expr_at(alloc, end, depth + 1, rest)?;
            let rest = after_close(end, rest)?;
            Ok((expr, rest))
        }
        _ => Err(ScriptFault::Expected {
            at: token.at,
            what: Wanted::Expression,
        }),
    }
}
