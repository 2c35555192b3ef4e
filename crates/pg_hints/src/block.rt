// The hints of a block, be it a script or not.
ghost use Rattle.std.specs.Prelude.{◌≡◌, ◌+◌, ◌<◌, ◌≤◌, ◌^◌, ◌++◌, ◌∷◌, [], Some, IfOk};
ghost use Rattle.pg_base.specs.Tokens.{word};
ghost use Rattle.pg_base.specs.Spans.{AreTokens, token_end};
ghost use Rattle.pg_script.specs.View.{words};
ghost use Rattle.pg_script.specs.declared.fault.ScriptFault.TheVariants.{OutOfMemory};
ghost use Rattle.pg_gametext.specs.Faults.{hint_limit};
ghost use Rattle.pg_gametext.specs.Checks.{block_hints, hint_words, is_hint_word, some_text};
ghost use Rattle.pg_forms.specs.View.{part};
ghost use Rattle.pg_hints.specs.Counts.{left_of, AreCounted};
ghost use Rattle.pg_hints.specs.Words.{word_hint, is_far, reads_hint};

use crate::hints::{has_hint_at, hints_left, one_less};
use crate::samples::SampleFault;
use crate::tokens::{is_word, token_end};
use pg_base::{Token, TokenKind};
use pg_faults::{Fault, Kind, LimitName};
use pg_forms::Span;
use pg_script::{ScriptFault, read_items};
use std::alloc::{AllocError, Global};

/// How many hints a game may have.
const HINT_LIMIT: u32 = 1024;

/// How many bytes a script may have.
const BYTES_LIMIT: u32 = 16_384;

/// How many hints there are, where so many stand before this block: those of its script, or of one that does not read the
/// words `Hint` behind which a text would make a script that ends in this hint. The fault is that of the first that is too many.
///
/// Of a block that does not read, each word `Hint` of its first 16,384 bytes is tried, over all tokens before it, until one is
/// too many.
pub fn block_hints(alloc: Global, before: u32, block: Span<'_, '_>) -> Result<u32, SampleFault>
    requires tokens { AreTokens block.end (words block.tokens.now) }
    requires fits { block.end + 2 < 2 ^ 32 }
    requires room { before ≤ hint_limit }
    ensures { AreCounted before (part block.entry) result }
{
    match left_in_block(alloc, HINT_LIMIT - before, block) {
        Ok(Ok(left)) => Ok(HINT_LIMIT - left),
        Ok(Err(at)) => Err(SampleFault::Fault(Fault {
            at,
            kind: Kind::Limit(LimitName::Hints, HINT_LIMIT + 1),
        })),
        Err(AllocError) => Err(SampleFault::OutOfMemory),
    }
}

/// How many more hints there may be behind a block, where so many may be before it; or the place of the first that is too many.
fn left_in_block(
    alloc: Global,
    room: u32,
    block: Span<'_, '_>,
) -> Result<Result<u32, u32>, AllocError>
    requires tokens { AreTokens block.end (words block.tokens.now) }
    requires fits { block.end + 2 < 2 ^ 32 }
    ensures { IfOk result (λ r. r ≡ left_of room (block_hints (Some (part block.entry)))) }
{
    match read_items(alloc, block.tokens, block.end, true) {
        Ok(script) => Ok(hints_left(room, &script)),
        Err(fault) => {
            memory_given(fault)?;
            words_left(alloc, room, block)
        }
    }
}

/// The same of the words of hints in a block that does not read.
fn words_left(alloc: Global, room: u32, block: Span<'_, '_>) -> Result<Result<u32, u32>, AllocError>
    requires tokens { AreTokens block.end (words block.tokens.now) }
    requires fits { block.end + 2 < 2 ^ 32 }
    ensures { IfOk result (λ r. r ≡ left_of room (hint_words [] (part block.entry).tokens)) }
{
    let mut left = room;
    for (count, token) in block.tokens.iter().enumerate() {
        let (front, _) = block.tokens.split_at(count);
        match left_at_word(alloc, left, front, token)? {
            Ok(less) => left = less,
            Err(at) => return Ok(Err(at)),
        }
    }
    Ok(Ok(left))
}

/// The same at one token, behind these.
fn left_at_word(
    alloc: Global,
    room: u32,
    front: &[Token<'_>],
    token: &Token<'_>,
) -> Result<Result<u32, u32>, AllocError>
    requires tokens { AreTokens (token_end (word token.now)) (words front.now ++ word token.now ∷ []) }
    requires fits { token_end (word token.now) + 2 < 2 ^ 32 }
    ensures { IfOk result (λ r. r ≡ left_of room (word_hint (words front.now) (word token.now))) }
{
    if is_hint_word(alloc, front, token)? {
        return Ok(one_less(room, token.at));
    }
    Ok(Ok(room))
}

/// Whether a token is the word of a hint, behind these tokens of a block.
fn is_hint_word(alloc: Global, front: &[Token<'_>], token: &Token<'_>) -> Result<bool, AllocError>
    requires tokens { AreTokens (token_end (word token.now)) (words front.now ++ word token.now ∷ []) }
    requires fits { token_end (word token.now) + 2 < 2 ^ 32 }
    ensures { IfOk result (λ b. b ≡ is_hint_word (words front.now) (word token.now)) }
{
    if !is_word("Hint", token) {
        return Ok(false);
    }
    if is_far(front, token) {
        return Ok(false);
    }
    reads_hint(alloc, front, token)
}

/// Whether a text behind this token would end too far from the first token for a script.
fn is_far(front: &[Token<'_>], token: &Token<'_>) -> bool
    requires { token_end (word token.now) + 2 < 2 ^ 32 }
    ensures { result ≡ is_far (words front.now) (word token.now) }
{
    let from = match front {
        [first, ..] => first.at,
        [] => token.at,
    };
    (token_end(token) + 2).saturating_sub(from) > BYTES_LIMIT
}

/// Whether these tokens, this one and a text are a script in which this one is the word of a hint.
fn reads_hint(alloc: Global, front: &[Token<'_>], token: &Token<'_>) -> Result<bool, AllocError>
    requires tokens { AreTokens (token_end (word token.now)) (words front.now ++ word token.now ∷ []) }
    requires fits { token_end (word token.now) + 2 < 2 ^ 32 }
    ensures { IfOk result (λ b. b ≡ reads_hint (words front.now) (word token.now)) }
{
    let text = some_text(token);
    let mut tried = Vec::new(alloc);
    tried.extend_from_slice(front)?;
    tried.push(*token)?;
    tried.push(text)?;
    match read_items(alloc, &tried, text.at + 2, true) {
        Ok(script) => Ok(has_hint_at(token.at, script.items.as_slice())),
        Err(fault) => {
            memory_given(fault)?;
            Ok(false)
        }
    }
}

/// Whether a script is none for another reason than want of memory.
fn memory_given(fault: ScriptFault) -> Result<(), AllocError>
    ensures { IfOk result (λ u. fault ≡ OutOfMemory → ⊥) }
{
    match fault {
        ScriptFault::OutOfMemory => Err(AllocError),
        _ => Ok(()),
    }
}

/// An empty text right behind a token.
fn some_text<'a>(token: &Token<'a>) -> Token<'a>
    requires { token_end (word token.now) < 2 ^ 32 }
    ensures { word result ≡ some_text (word token.now) }
{
    Token {
        kind: TokenKind::Text,
        text: "",
        at: token_end(token),
        column: token.column,
        first: false,
    }
}
