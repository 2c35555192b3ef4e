// Scripts.
ghost use Rattle.std.specs.Prelude.{◌≡◌, ◌<◌, ◌≤◌, ◌^◌, length, IfOk, None};
ghost use Rattle.pg_base.specs.Tokens.{word, lexed};
ghost use Rattle.pg_base.specs.Spans.{AreTokens, AreTokensOf, AreInOrder, token_end};
ghost use Rattle.pg_script.specs.Scripts.{last_end, long_fault, entries_of_tokens, items_of, lex_place, stands_before, broken_script, script_of, script};
ghost use Rattle.pg_script.specs.Grammar.{ReadsScript, ReadsAll};
ghost use Rattle.pg_script.specs.Faults.{TokensFault, TextFault};
ghost use Rattle.pg_script.specs.View.{words, Reads, Passes};

use crate::block::{Whole, block_at};
use crate::fault::ScriptFault;
use crate::form::expect_end;
use crate::item::Script;
use crate::mark::split_first;
use pg_base::{LexFault, Lexer, Token, TokenKind};
use sqlite_items::Items;
use std::alloc::{AllocError, Global};

/// How many bytes a script may have.
const BYTES_LIMIT: usize = 16_384;

// How many steps a script may have.
const STEPS_LIMIT: usize = 200;

// How many blocks may be nested, the script's own included.
const BLOCKS_LIMIT: u32 = 16;

/// The script that these tokens are, however many bytes they have.
#[tactic(auto, unfolding(crate::specs::Scripts::entries_of_tokens))]
fn script_at<'a>(
    alloc: Global,
    tokens: &[Token<'a>],
    whole: Whole,
) -> Result<Script<'a>, ScriptFault>
    ensures { Reads script (entries_of_tokens (words tokens.now) whole.end whole.sample) result }
{
    if tokens.is_empty() {
        return Ok(Script {
            items: Items::new(alloc),
        });
    }
    let (items, _, rest) = block_at(alloc, whole, BLOCKS_LIMIT, STEPS_LIMIT, tokens)?;
    expect_end(rest)?;
    Ok(Script { items })
}

/// The byte behind a token.
fn token_end(token: &Token<'_>) -> u32
    requires { token_end (word token.now) < 2 ^ 32 }
    ensures { result ≡ token_end (word token.now) }
{
    let text = token.at + token.text.len() as u32;
    match token.kind {
        TokenKind::Text => text + 2,
        _ => text,
    }
}

/// The byte behind the last token, or `from` where there is none.
#[tactic(auto, using(crate::proofs::Ends::order_bound))]
fn last_end(from: u32, end: u32, tokens: &[Token<'_>]) -> u32
    requires { AreInOrder from end (words tokens.now) }
    ensures { result ≡ last_end from (words tokens.now) }
{
    let mut reached = from;
    for token in tokens {
        reached = token_end(token);
    }
    reached
}

/// Whether the tokens reach over at most 16,384 bytes.
fn are_short(tokens: &[Token<'_>], end: u32) -> Result<(), ScriptFault>
    requires { AreTokens end (words tokens.now) }
    ensures { Passes (long_fault (words tokens.now)) result }
{
    let Some((first, _)) = split_first(tokens) else {
        return Ok(());
    };
    let reached = last_end(first.at, end, tokens);
    if reached.saturating_sub(first.at) as usize > BYTES_LIMIT {
        return Err(ScriptFault::TooLong {
            at: first.at + BYTES_LIMIT as u32,
        });
    }
    Ok(())
}

/// The script that these tokens are, if they aren't too long.
fn items_in<'a>(
    alloc: Global,
    tokens: &[Token<'a>],
    end: u32,
    sample: bool,
) -> Result<Script<'a>, ScriptFault>
    requires { AreTokens end (words tokens.now) }
    ensures { Reads script (items_of (words tokens.now) end sample) result }
{
    are_short(tokens, end)?;
    script_at(alloc, tokens, Whole { end, sample })
}

/// The script that these tokens of a text are, the whole slice. `end` is the byte at which the text's
/// next token behind them begins, or the text's length in bytes. Only a sample may hold hints and
/// branches; elsewhere their words are unknown moves.
///
/// The faults are those of [`ScriptFault`] but for `Lex`. `TooLong` counts from the first token to
/// the end of the last, and comes before the others; of these the one of least place comes. At one
/// place `Expected` comes before `TooMany`, and that before `Deep`. `OutOfMemory` comes where the
/// script finds no memory. Places are in bytes. The rules stand in docs/PLAYING.md.
pub fn read_items<'a>(
    alloc: Global,
    tokens: &[Token<'a>],
    end: u32,
    sample: bool,
) -> Result<Script<'a>, ScriptFault>
    requires tokens { AreTokens end (words tokens.now) }
    ensures exact { Reads script (items_of (words tokens.now) end sample) result }
    // what is read is laid out by columns
    ensures laid_out { ReadsScript sample end (words tokens.now) result }
    // what is laid out by columns, and not too long, is read
    ensures read { long_fault (words tokens.now) ≡ None → ReadsAll sample end (words tokens.now) result }
    // too long are exactly the tokens that are; any other fault stands at the first place where no
    // script goes on
    ensures place { TokensFault sample end (words tokens.now) result }
{
    items_in(alloc, tokens, end, sample)
}

/// The tokens of a text up to its fault, if it has one.
fn tokens_before(
    alloc: Global,
    source: &str,
) -> Result<(Vec<Token<'_>>, Option<LexFault>), AllocError>
    requires { length source.now < 2 ^ 32 }
    ensures tokens { IfOk result (λ p. words p.0.items ≡ (lexed source.now).words) }
    ensures fault { IfOk result (λ p. p.1 ≡ (lexed source.now).fault) }
    ensures spans { AreTokensOf source.now (lexed source.now).words }
{
    let mut lexer = Lexer::new(source);
    let mut tokens = Vec::new(alloc);
    loop {
        match lexer.next() {
            Ok(Some(token)) => tokens.push(token)?,
            Ok(None) => return Ok((tokens, None)),
            Err(fault) => return Ok((tokens, Some(fault))),
        }
    }
}

/// The byte at which a fault of a token stands.
fn lex_place(fault: LexFault) -> u32
    ensures { result ≡ lex_place fault }
{
    match fault {
        LexFault::BadByte { at }
        | LexFault::OpenString { at }
        | LexFault::OpenComment { at }
        | LexFault::LongName { at } => at,
    }
}

/// Whether a fault of a script stands before this byte.
fn stands_before(fault: ScriptFault, place: u32) -> bool
    ensures { result ≡ stands_before fault place }
{
    match fault {
        ScriptFault::Expected { at, .. } | ScriptFault::TooMany { at } | ScriptFault::Deep { at } =>
            at < place,
        _ => false,
    }
}

/// What a text gives whose tokens end with a fault.
fn broken<'a>(
    alloc: Global,
    tokens: &[Token<'a>],
    fault: LexFault,
    sample: bool,
) -> Result<Script<'a>, ScriptFault>
    ensures { Reads script (broken_script fault (entries_of_tokens (words tokens.now) (lex_place fault) sample)) result }
{
    let end = lex_place(fault);
    match script_at(alloc, tokens, Whole { end, sample }) {
        Err(ScriptFault::OutOfMemory) => Err(ScriptFault::OutOfMemory),
        Err(earlier) if stands_before(earlier, end) => Err(earlier),
        _ => Err(ScriptFault::Lex(fault)),
    }
}

/// The script that a text is. Only a sample may hold hints and branches; elsewhere their words are
/// unknown moves.
///
/// The faults are those of [`ScriptFault`]. `TooLong` comes before the others; of these the one of
/// least place comes, where a token that has a fault may be any token. At one place `Lex` comes
/// before `Expected`, that before `TooMany`, and that before `Deep`. `OutOfMemory` comes where the
/// script finds no memory. Places are in bytes. The rules stand in docs/PLAYING.md.
pub fn read_script<'a>(
    alloc: Global,
    source: &'a str,
    sample: bool,
) -> Result<Script<'a>, ScriptFault>
    ensures exact { Reads script (script_of source.now sample) result }
    // what is read is laid out by columns
    ensures laid_out { ReadsScript sample (length source.now) (lexed source.now).words result }
    // what is laid out by columns, and not too long, is read
    ensures read { length source.now ≤ 16384 → (lexed source.now).fault ≡ None → ReadsAll sample (length source.now) (lexed source.now).words result }
    // too long are exactly the texts that are; any other fault is a token's, or stands at the first
    // place where no script goes on
    ensures place { TextFault sample source.now result }
{
    script_in(alloc, source, sample)
}

/// The script that a text is.
fn script_in<'a>(alloc: Global, source: &'a str, sample: bool) -> Result<Script<'a>, ScriptFault>
    ensures exact { Reads script (script_of source.now sample) result }
    ensures spans { length source.now ≤ 16384 → AreTokensOf source.now (lexed source.now).words }
{
    if source.len() > BYTES_LIMIT {
        return Err(ScriptFault::TooLong {
            at: BYTES_LIMIT as u32,
        });
    }
    let (tokens, fault) = tokens_before(alloc, source)?;
    match fault {
        None => {
            let end = source.len() as u32;
            script_at(alloc, tokens.as_slice(), Whole { end, sample })
        }
        Some(fault) => broken(alloc, tokens.as_slice(), fault, sample),
    }
}
