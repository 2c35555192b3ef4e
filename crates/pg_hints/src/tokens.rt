// What is asked of a block's tokens.
ghost use Rattle.std.specs.Prelude.{◌≡◌, ◌<◌, ◌≤◌, ◌^◌, ◌==◌, ◌&&◌};
ghost use Rattle.pg_base.specs.Tokens.{word};
ghost use Rattle.pg_base.specs.Spans.{AreInOrder, AreTokens, token_end};
ghost use Rattle.pg_script.specs.Scripts.{last_end};
ghost use Rattle.pg_script.specs.View.{words};
ghost use Rattle.pg_gametext.specs.Checks.{is_sorry, opens_at, span};
ghost use Rattle.pg_gametext.specs.Commands.{is_word};
ghost use Rattle.pg_gametext.specs.Forms.{is_open};
ghost use Rattle.pg_forms.specs.View.{part};

use pg_base::{Token, TokenKind};
use pg_forms::{Kind, Span};

/// Whether a block is the word `sorry` alone.
pub(crate) fn is_sorry(block: Span<'_, '_>) -> bool
    ensures { result ≡ is_sorry (part block.entry) }
{
    match block.tokens {
        [only] => is_word("sorry", only),
        _ => false,
    }
}

/// Whether a token is the name of this text.
pub(crate) fn is_word(text: &str, token: &Token<'_>) -> bool
    ensures { result ≡ is_word text.now (word token.now) }
{
    matches!(token.kind, TokenKind::Name) && token.text == text
}

/// Whether a `(` stands at this byte.
pub(crate) fn opens_at(at: u32, tokens: &[Token<'_>]) -> bool
    ensures { result ≡ opens_at at (words tokens.now) }
{
    for token in tokens {
        if opens_here(at, token) {
            return true;
        }
    }
    false
}

fn opens_here(at: u32, token: &Token<'_>) -> bool
    ensures { result ≡ ((word token.now).at == at) && is_open (word token.now) }
{
    token.at == at && Kind::Open.fits(token)
}

/// How many bytes there are from the first of these tokens to the end of the last.
pub(crate) fn span(tokens: &[Token<'_>], end: u32) -> u32
    requires { AreTokens end (words tokens.now) }
    ensures { result ≡ span (words tokens.now) }
{
    let Some((first, _)) = tokens.split_first() else {
        return 0;
    };
    last_end(first.at, end, tokens).saturating_sub(first.at)
}

/// The byte behind a token.
pub(crate) fn token_end(token: &Token<'_>) -> u32
    requires { token_end (word token.now) < 2 ^ 32 }
    ensures { result ≡ token_end (word token.now) }
{
    let text = token.at + token.text.len() as u32;
    match token.kind {
        TokenKind::Text => text + 2,
        _ => text,
    }
}

/// The byte behind the last token, or `from` where there is none.
#[tactic(auto, using(crate::proofs::Ends::order_bound))]
fn last_end(from: u32, end: u32, tokens: &[Token<'_>]) -> u32
    requires { AreInOrder from end (words tokens.now) }
    ensures { result ≡ last_end from (words tokens.now) }
{
    let mut reached = from;
    for token in tokens {
        reached = token_end(token);
    }
    reached
}
