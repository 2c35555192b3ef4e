// One-level games, read from their symbols.
ghost use Rattle.std.specs.Prelude.{◌≡◌, ◌∷◌, [], IfOk, IfSome, MatchOption, None, Some, map, option_map};
ghost use Rattle.pg_terms.specs.View.{term};
ghost use Rattle.pg_base.specs.Tokens.{word};
ghost use Rattle.pg_run.specs.Symbols.{symbol_of};
ghost use Rattle.pg_run.specs.Game.{IsGame, IsGameText, Finds, stated};
ghost use Rattle.pg_run.specs.Level.{CanStand};
ghost use Rattle.pg_run.specs.Reading.{after_close, argument, closed, inside_at, numeral_at, seen, after_heads, after_equal, moves_of, sample_at, with_moves, tail_at, tail_of, right_at, left_at, stated_of, game_at};

use crate::numeral::{Numeral, Target};
use crate::symbol::{Symbol, symbol_of};
use pg_base::{Token, TokensFault, tokens_of};
use pg_worlds::TacticName;
use std::alloc::{AllocError, Global};

/// How many bytes a game text may have.
pub const GAME_LIMIT: usize = 1_048_576;

// How many parentheses of a numeral may be open at once.
const NESTING_LIMIT: u8 = 100;

/// The sample script of a level: one that closes it, or none.
#[derive(Clone, Copy, Debug, PartialEq, Eq)]
pub enum Sample {
    Rfl,
    Sorry,
}

/// A one-level game ("One-level games" in docs/GAME-TEXT.md).
#[derive(Drop)]
pub struct Game {
    pub target: Target,
    pub sample: Sample,
    /// The moves of its `NewTactic`.
    pub tactics: Vec<TacticName>,
}

/// What stands behind the statement of a game.
#[derive(Drop)]
struct Tail {
    sample: Sample,
    tactics: Vec<TacticName>,
}

/// What a text spells as a one-level game, and None where it spells none: where it has more bytes than the limit, is no
/// UTF-8, has a token fault, or is spelled otherwise ("One-level games" in docs/GAME-TEXT.md). Whether its sample wins
/// is not asked here.
pub fn game_in(alloc: Global, bytes: &[u8]) -> Result<Option<Game>, AllocError>
    ensures finds { IfOk result (λ found. Finds found (IsGameText bytes.now)) }
    ensures stands { IfOk result (λ found. IfSome found (λ game. CanStand (stated game))) }
{
    if bytes.len() > GAME_LIMIT {
        return Ok(None);
    }
    let Ok(text) = str::from_utf8(bytes) else {
        return Ok(None);
    };
    match tokens_of(alloc, text) {
        Ok(tokens) => {
            let symbols = symbols_of(alloc, &tokens)?;
            game_at(alloc, &symbols)
        }
        Err(TokensFault::Lex(_)) => Ok(None),
        Err(TokensFault::OutOfMemory) => Err(AllocError),
    }
}

/// Each token as its symbol.
fn symbols_of(alloc: Global, tokens: &[Token<'_>]) -> Result<Vec<Symbol>, AllocError>
    ensures { IfOk result (λ symbols. symbols.items ≡ map symbol_of (map word tokens.now)) }
{
    let mut symbols = Vec::new(alloc);
    for token in tokens {
        symbols.push(symbol_of(token))?;
    }
    Ok(symbols)
}

/// The game that these symbols spell, if they spell one.
fn game_at(alloc: Global, symbols: &[Symbol]) -> Result<Option<Game>, AllocError>
    ensures { IfOk result (λ game. stated_of game ≡ game_at symbols.now) }
{
    match after_heads(symbols) {
        Some(rest) => left_at(alloc, rest),
        None => Ok(None),
    }
}

/// The symbols behind `World TEXT`, `Level 1`, `Statement :`.
fn after_heads(symbols: &[Symbol]) -> Option<&[Symbol]>
    ensures { MatchOption result (after_heads symbols.now ≡ None) (λ rest. after_heads symbols.now ≡ Some rest.now) }
{
    match symbols {
        [
            Symbol::World,
            Symbol::WorldName,
            Symbol::Level,
            Symbol::One,
            Symbol::Statement,
            Symbol::Colon,
            rest @ ..,
        ] => Some(rest),
        _ => None,
    }
}

/// The game from its left side on.
fn left_at(alloc: Global, symbols: &[Symbol]) -> Result<Option<Game>, AllocError>
    ensures { IfOk result (λ game. stated_of game ≡ left_at (numeral_at 100 symbols.now)) }
{
    let Some((left, rest)) = numeral_at(alloc, symbols, NESTING_LIMIT)? else {
        return Ok(None);
    };
    match after_equal(rest) {
        Some(rest) => right_at(alloc, left, rest),
        None => Ok(None),
    }
}

/// The symbols behind `=`.
fn after_equal(symbols: &[Symbol]) -> Option<&[Symbol]>
    ensures { MatchOption result (after_equal symbols.now ≡ None) (λ rest. after_equal symbols.now ≡ Some rest.now) }
{
    match split_first(symbols)? {
        (Symbol::Equal, rest) => Some(rest),
        _ => None,
    }
}

/// The game with this left side, from its right side on.
fn right_at(alloc: Global, left: Numeral, symbols: &[Symbol]) -> Result<Option<Game>, AllocError>
    ensures { IfOk result (λ game. stated_of game ≡ right_at (term left.term) (numeral_at 100 symbols.now)) }
{
    let Some((right, rest)) = numeral_at(alloc, symbols, NESTING_LIMIT)? else {
        return Ok(None);
    };
    let Some(Tail { sample, tactics }) = tail_at(alloc, rest)? else {
        return Ok(None);
    };
    Ok(Some(Game {
        target: Target::new(alloc, left, right)?,
        sample,
        tactics,
    }))
}

/// The sample and the moves in what stands behind a statement.
fn tail_at(alloc: Global, symbols: &[Symbol]) -> Result<Option<Tail>, AllocError>
    ensures { IfOk result (λ found. tail_of found ≡ tail_at symbols.now) }
{
    let [
        Symbol::Assign,
        Symbol::By,
        sample,
        Symbol::NewTactic,
        moves @ ..,
    ] = symbols
    else {
        return Ok(None);
    };
    match sample_at(*sample) {
        Some(sample) => with_moves(alloc, sample, moves),
        None => Ok(None),
    }
}

/// The sample that a symbol is.
fn sample_at(symbol: Symbol) -> Option<Sample>
    ensures { result ≡ sample_at symbol }
{
    match symbol {
        Symbol::Tactic(TacticName::Rfl) => Some(Sample::Rfl),
        Symbol::Sorry => Some(Sample::Sorry),
        _ => None,
    }
}

/// A sample with the moves of these symbols, where they are one move or more.
fn with_moves(alloc: Global, sample: Sample, symbols: &[Symbol]) -> Result<Option<Tail>, AllocError>
    ensures { IfOk result (λ found. tail_of found ≡ with_moves sample (moves_of symbols.now)) }
{
    if symbols.is_empty() {
        return Ok(None);
    }
    match moves_of(alloc, symbols)? {
        Some(tactics) => Ok(Some(Tail { sample, tactics })),
        None => Ok(None),
    }
}

/// The moves of these symbols, where all of them are moves.
#[tactic(auto, using(crate::proofs::Games::further))]
fn moves_of(alloc: Global, symbols: &[Symbol]) -> Result<Option<Vec<TacticName>>, AllocError>
    ensures { IfOk result (λ found. option_map (λ v. v.items) found ≡ moves_of symbols.now) }
{
    let mut tactics = Vec::new(alloc);
    for symbol in symbols {
        match *symbol {
            Symbol::Tactic(tactic) => tactics.push(tactic)?,
            _ => return Ok(None),
        }
    }
    Ok(Some(tactics))
}

/// The numeral at the front, and the symbols after it.
#[cycle(numeral)]
fn numeral_at(
    alloc: Global,
    symbols: &[Symbol],
    budget: u8,
) -> Result<Option<(Numeral, &[Symbol])>, AllocError>
    ensures { IfOk result (λ found. seen found ≡ numeral_at budget symbols.now) }
{
    match split_first(symbols) {
        Some((Symbol::Zero, rest)) => Ok(Some((Numeral::zero(alloc)?, rest))),
        Some((Symbol::Succ, rest)) => argument_at(alloc, rest, budget),
        Some((Symbol::Open, rest)) => inside_at(alloc, rest, budget),
        _ => Ok(None),
    }
}

/// What `succ` makes of its argument.
#[cycle(numeral)]
fn argument_at(
    alloc: Global,
    symbols: &[Symbol],
    budget: u8,
) -> Result<Option<(Numeral, &[Symbol])>, AllocError>
    ensures { IfOk result (λ found. seen found ≡ argument (inside_at budget) symbols.now) }
{
    match split_first(symbols) {
        Some((Symbol::Zero, rest)) => Ok(Some((Numeral::zero(alloc)?.successor(alloc)?, rest))),
        Some((Symbol::Open, rest)) => match inside_at(alloc, rest, budget)? {
            Some((numeral, rest)) => Ok(Some((numeral.successor(alloc)?, rest))),
            None => Ok(None),
        },
        _ => Ok(None),
    }
}

/// A numeral in parentheses, behind the opening one.
#[cycle(numeral)]
#[tactic(auto, unfolding(crate::specs::Reading::inside_at))]
fn inside_at(
    alloc: Global,
    symbols: &[Symbol],
    budget: u8,
) -> Result<Option<(Numeral, &[Symbol])>, AllocError>
    ensures { IfOk result (λ found. seen found ≡ inside_at budget symbols.now) }
{
    if budget == 0 {
        return Ok(None);
    }
    let found = numeral_at(alloc, symbols, budget - 1)?;
    Ok(close(found))
}

/// What was found, if a parenthesis is closed behind it.
fn close(found: Option<(Numeral, &[Symbol])>) -> Option<(Numeral, &[Symbol])>
    ensures { seen result ≡ closed (seen found.entry) }
{
    match found {
        None => None,
        Some((numeral, symbols)) => match after_close(symbols) {
            Some(rest) => Some((numeral, rest)),
            None => None,
        },
    }
}

/// The symbols behind a closing parenthesis.
fn after_close(symbols: &[Symbol]) -> Option<&[Symbol]>
    ensures { MatchOption result (after_close symbols.now ≡ None) (λ rest. after_close symbols.now ≡ Some rest.now) }
{
    match split_first(symbols)? {
        (Symbol::Close, rest) => Some(rest),
        _ => None,
    }
}

/// The first symbol, and those after it.
fn split_first(symbols: &[Symbol]) -> Option<(Symbol, &[Symbol])>
    ensures { MatchOption result (symbols.now ≡ []) (λ p. symbols.now ≡ p.0 ∷ p.1.now) }
{
    let (first, rest) = symbols.split_first()?;
    Some((*first, rest))
}
