// The worlds of a dependency.
ghost use Rattle.std.specs.Prelude.{◌≡◌, ◌<◌, length, false, IfOk};
ghost use Rattle.pg_base.specs.Tokens.{word};
ghost use Rattle.pg_script.specs.View.{words};
ghost use Rattle.pg_gametext.specs.Forms.{links_after, links_told};
ghost use Rattle.pg_forms.specs.View.{told, links};
ghost use Rattle.pg_forms.specs.Links.{are_ended, second_world};
ghost use Rattle.pg_forms.specs.Taken.{first_taken};

use crate::kind::Kind;
use crate::parts::{Link, Told};
use crate::take::{Left, token_taken};
use pg_base::Token;
use std::alloc::{AllocError, Global};

/// The links that these tokens tell, as `links_told` of `pg_gametext`: `a → b → c`, two worlds at least, where each needs
/// the one before it. The next command begins at the byte `end`. The one error is want of memory.
pub fn links_told<'a>(
    alloc: Global,
    end: u32,
    tokens: &[Token<'a>],
) -> Result<Told<Vec<Link<'a>>>, AllocError>
    ensures { IfOk result (λ t. links_told end (words tokens.now) ≡ told links t) }
{
    match token_taken(Kind::Plain, end, tokens) {
        Ok((first, rest)) => links_after(alloc, end, first, rest),
        Err(at) => Ok(Told {
            value: Vec::new(alloc),
            stuck: Some(at),
        }),
    }
}

/// The links behind the first world.
fn links_after<'a>(
    alloc: Global,
    end: u32,
    first: Token<'a>,
    tokens: &[Token<'a>],
) -> Result<Told<Vec<Link<'a>>>, AllocError>
    ensures { IfOk result (λ t. links_after false end (word first.entry) (words tokens.now) ≡ told links t) }
{
    let mut value = Vec::new(alloc);
    let mut some = false;
    let mut before = first;
    let mut left = Left { tokens };
    while !is_last(some, left.tokens) {
        match next_world(end, left.tokens) {
            Ok((after, rest)) => {
                value.push(Link { before, after })?;
                some = true;
                before = after;
                left = Left { tokens: rest };
            }
            Err(at) => {
                return Ok(Told {
                    value,
                    stuck: Some(at),
                });
            }
        }
    }
    Ok(Told { value, stuck: None })
}

/// Whether the links end here; `some` says that one stands already.
fn is_last(some: bool, tokens: &[Token<'_>]) -> bool
    ensures { result ≡ are_ended some (words tokens.now) }
{
    some && tokens.is_empty()
}

/// The next world and the tokens behind it, or the place where it is missing.
fn next_world<'t, 'a>(
    end: u32,
    tokens: &'t [Token<'a>],
) -> Result<(Token<'a>, &'t [Token<'a>]), u32>
    ensures taken { second_world end (words tokens.now) ≡ first_taken result }
    ensures shorter { IfOk result (λ p. length p.1.now < length tokens.now) }
{
    let (_, rest) = token_taken(Kind::Arrow, end, tokens)?;
    token_taken(Kind::Plain, end, rest)
}
