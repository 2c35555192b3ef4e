// Tokens and runs of tokens at the front of others. Each function looks at a token once.
ghost use Rattle.std.specs.Prelude.{◌≡◌, ◌≤◌, ◌<◌, IfOk, ◌∷◌, [], length, MatchOption};
ghost use Rattle.pg_base.specs.Tokens.{word};
ghost use Rattle.pg_script.specs.Marks.{place};
ghost use Rattle.pg_script.specs.View.{words};
ghost use Rattle.pg_gametext.specs.Forms.{ended, token_taken, one_token, names_length, names_taken, names_told, length_before, part_taken, length_of_hypothesis, hypothesis_taken, block_taken, ends_block};
ghost use Rattle.pg_forms.specs.Kinds.{fits};
ghost use Rattle.pg_forms.specs.View.{told, token, names};
ghost use Rattle.pg_forms.specs.Taken.{first_taken, stuck_at, names_view, part_of, part_behind, block_behind};

use crate::kind::Kind;
use crate::parts::{Span, Told};
use pg_base::Token;

/// The first token, and those after it.
pub(crate) fn split_first<'t, 'a>(tokens: &'t [Token<'a>]) -> Option<(Token<'a>, &'t [Token<'a>])>
    ensures { MatchOption result (tokens.now ≡ []) (λ p. tokens.now ≡ p.0 ∷ p.1.now) }
{
    let (first, rest) = tokens.split_first()?;
    Some((*first, rest))
}

/// None of these tokens.
pub(crate) fn none_of<'t, 'a>(tokens: &'t [Token<'a>]) -> &'t [Token<'a>]
    ensures { result.now ≡ [] }
{
    let (none, _) = tokens.split_at(0);
    none
}

/// The byte at which the first of these tokens begins, or the end.
pub(crate) fn place(tokens: &[Token<'_>], end: u32) -> u32
    ensures { result ≡ place end (words tokens.now) }
{
    match split_first(tokens) {
        Some((first, _)) => first.at,
        None => end,
    }
}

/// The byte at which the first of these tokens begins, with which nothing goes on.
pub(crate) fn ended(tokens: &[Token<'_>]) -> Option<u32>
    ensures { result ≡ ended (words tokens.now) }
{
    let (first, _) = split_first(tokens)?;
    Some(first.at)
}

/// An error at the first of these tokens.
pub(crate) fn end_at(tokens: &[Token<'_>]) -> Result<(), u32>
    ensures { stuck_at result ≡ ended (words tokens.now) }
{
    match ended(tokens) {
        Some(at) => Err(at),
        None => Ok(()),
    }
}

/// A token of a kind and those after it, or the place where another token or the end stands.
pub(crate) fn token_taken<'t, 'a>(
    kind: Kind,
    end: u32,
    tokens: &'t [Token<'a>],
) -> Result<(Token<'a>, &'t [Token<'a>]), u32>
    ensures taken { token_taken (fits kind) end (words tokens.now) ≡ first_taken result }
    ensures shorter { IfOk result (λ p. length p.1.now < length tokens.now) }
{
    let Some((token, rest)) = split_first(tokens) else {
        return Err(end);
    };
    if kind.fits(&token) {
        Ok((token, rest))
    } else {
        Err(token.at)
    }
}

/// One token of a kind and nothing behind it, as `one_token` of `pg_gametext`. The next command begins at the byte `end`.
pub fn one_token<'a>(kind: Kind, end: u32, tokens: &[Token<'a>]) -> Told<Option<Token<'a>>>
    ensures { one_token (fits kind) end (words tokens.now) ≡ told token result }
{
    match token_taken(kind, end, tokens) {
        Ok((token, rest)) => Told {
            value: Some(token),
            stuck: ended(rest),
        },
        Err(at) => Told {
            value: None,
            stuck: Some(at),
        },
    }
}

/// How many names stand at the front.
pub(crate) fn names_length(tokens: &[Token<'_>]) -> usize
    ensures length { result ≡ names_length (words tokens.now) }
    ensures within { result ≤ length tokens.now }
{
    let mut count: usize = 0;
    for token in tokens {
        if !Kind::Plain.fits(token) {
            return count;
        }
        count += 1;
    }
    count
}

/// How many tokens stand before the first of a kind.
fn length_before(kind: Kind, tokens: &[Token<'_>]) -> usize
    ensures length { result ≡ length_before (fits kind) (words tokens.now) }
    ensures within { result ≤ length tokens.now }
{
    let mut count: usize = 0;
    for token in tokens {
        if kind.fits(token) {
            return count;
        }
        count += 1;
    }
    count
}

fn ends_block(column: u32, token: &Token<'_>) -> bool
    ensures { result ≡ ends_block column (word token.now) }
{
    token.first && token.column < column
}

/// How many tokens stand before the first that ends a block at this column.
fn block_length(column: u32, tokens: &[Token<'_>]) -> usize
    ensures length { result ≡ length_before (ends_block column) (words tokens.now) }
    ensures within { result ≤ length tokens.now }
{
    let mut count: usize = 0;
    for token in tokens {
        if ends_block(column, token) {
            return count;
        }
        count += 1;
    }
    count
}

/// How many tokens stand before `:=` or the first `)` that closes what was opened before them.
fn hypothesis_length(tokens: &[Token<'_>]) -> usize
    ensures length { result ≡ length_of_hypothesis 0 (words tokens.now) }
    ensures within { result ≤ length tokens.now }
{
    let mut depth: usize = 0;
    for (count, token) in tokens.iter().enumerate() {
        if Kind::Assign.fits(token) || depth == 0 && Kind::Close.fits(token) {
            return count;
        }
        if Kind::Open.fits(token) {
            depth += 1;
        } else if Kind::Close.fits(token) {
            depth -= 1;
        }
    }
    tokens.len()
}

/// The names at the front and the tokens after them, or the place where a name is missing.
pub(crate) fn names_taken<'t, 'a>(
    end: u32,
    tokens: &'t [Token<'a>],
) -> Result<(&'t [Token<'a>], &'t [Token<'a>]), u32>
    ensures { names_taken end (words tokens.now) ≡ names_view (words tokens.now) result }
{
    let count = names_length(tokens);
    if count == 0 {
        return Err(place(tokens, end));
    }
    Ok(tokens.split_at(count))
}

/// Names and nothing behind them, at least one, as `names_told` of `pg_gametext`. The next command begins at the byte `end`.
pub fn names_told<'t, 'a>(end: u32, tokens: &'t [Token<'a>]) -> Told<&'t [Token<'a>]>
    ensures { names_told end (words tokens.now) ≡ told names result }
{
    let (names, rest) = tokens.split_at(names_length(tokens));
    let stuck = if names.is_empty() {
        Some(place(tokens, end))
    } else {
        ended(rest)
    };
    Told {
        value: names,
        stuck,
    }
}

/// The first so many tokens, and those after them.
fn span_taken<'t, 'a>(
    count: usize,
    end: u32,
    tokens: &'t [Token<'a>],
) -> (Span<'t, 'a>, &'t [Token<'a>])
    requires { count ≤ length tokens.now }
    ensures { part_behind result ≡ part_of count end (words tokens.now) }
{
    let (front, rest) = tokens.split_at(count);
    let span = Span {
        tokens: front,
        end: place(rest, end),
    };
    (span, rest)
}

/// The tokens before the first of a kind, or all, and those after them.
pub(crate) fn part_taken<'t, 'a>(
    stops: Kind,
    end: u32,
    tokens: &'t [Token<'a>],
) -> (Span<'t, 'a>, &'t [Token<'a>])
    ensures { part_taken (fits stops) end (words tokens.now) ≡ part_behind result }
{
    span_taken(length_before(stops, tokens), end, tokens)
}

/// The tokens of a hypothesis, and those after them.
pub(crate) fn hypothesis_taken<'t, 'a>(
    end: u32,
    tokens: &'t [Token<'a>],
) -> (Span<'t, 'a>, &'t [Token<'a>])
    ensures { hypothesis_taken end (words tokens.now) ≡ part_behind result }
{
    span_taken(hypothesis_length(tokens), end, tokens)
}

/// The tokens of a block and those after them, or the end where there is none.
pub(crate) fn block_taken<'t, 'a>(
    end: u32,
    tokens: &'t [Token<'a>],
) -> Result<(Span<'t, 'a>, &'t [Token<'a>]), u32>
    ensures { block_taken end (words tokens.now) ≡ block_behind result }
{
    let Some((first, behind)) = split_first(tokens) else {
        return Err(end);
    };
    Ok(span_taken(block_length(first.column, behind) + 1, end, tokens))
}

/// The tokens that are left to read.
#[derive(Clone, Copy)]
pub(crate) struct Left<'t, 'a> {
    pub(crate) tokens: &'t [Token<'a>],
}
