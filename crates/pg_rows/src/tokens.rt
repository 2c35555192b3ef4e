// Tokens, what texts mean, and reserved words.
ghost use Rattle.std.specs.Prelude.{◌<◌, ◌^◌, length};

use crate::fault::RowFault;
use crate::reply::Reply;
use crate::row::Row;
use crate::session::Session;
use crate::text::text_in;
use pg_base::{Lexer, Sign, Token, TokenKind, TokensFault, decoded, is_reserved, tokens_of};
use std::alloc::{AllocError, Global};
use std::fmt::Display;

/// How many bytes a row's text has at most.
pub const TEXT_LIMIT: usize = 1_000_000;

/// Answers a row of this layer.
pub fn row(
    alloc: Global,
    session: &mut Session,
    row: Row<'_>,
    reply: &mut Reply,
) -> Result<(), RowFault> {
    let text = text_in(alloc, row.rest)?;
    match row.layer {
        "tokens" => token_lines(alloc, session.times, text.as_str(), reply),
        "means" => Ok(meaning_line(alloc, session.times, text.as_str(), reply)?),
        _ => reserved_lines(alloc, text.as_str(), reply),
    }
}

/// The line of a value: what it is displayed as. It fails only for want of memory.
pub fn told(
    alloc: Global,
    value: impl Display + Drop,
    reply: &mut Reply,
) -> Result<(), AllocError> {
    let line = format!(in alloc; "{value}")?;
    reply.line(line.as_str())
}

/// A line for each token of a text, and one for its end or its fault.
fn token_lines(alloc: Global, times: u64, text: &str, reply: &mut Reply) -> Result<(), RowFault> {
    if text.len() > TEXT_LIMIT {
        return Err(RowFault::Unread("the text is too long"));
    }
    match listed(alloc, times, text) {
        Ok(tokens) => Ok(list_lines(alloc, tokens.as_slice(), reply)?),
        Err(TokensFault::Lex(fault)) => {
            lines_before(alloc, text, reply)?;
            Ok(told(alloc, fault, reply)?)
        }
        Err(TokensFault::OutOfMemory) => Err(RowFault::OutOfMemory),
    }
}

/// All tokens of a text, found so many times.
fn listed(alloc: Global, times: u64, text: &str) -> Result<Vec<Token<'_>>, TokensFault>
    requires { length text.now < 2 ^ 32 }
{
    let mut found = tokens_of(alloc, text);
    for _ in 1..times {
        found = tokens_of(alloc, text);
    }
    found
}

fn list_lines(alloc: Global, tokens: &[Token<'_>], reply: &mut Reply) -> Result<(), AllocError> {
    for token in tokens {
        token_line(alloc, token, reply)?;
    }
    reply.line("the end")
}

/// The lines of the tokens before a text's fault.
fn lines_before(alloc: Global, text: &str, reply: &mut Reply) -> Result<(), AllocError>
    requires { length text.now < 2 ^ 32 }
{
    let mut lexer = Lexer::new(text);
    for _ in 0..text.len() {
        let Ok(Some(token)) = lexer.next() else {
            break;
        };
        token_line(alloc, &token, reply)?;
    }
    Ok(())
}

fn token_line(alloc: Global, token: &Token<'_>, reply: &mut Reply) -> Result<(), AllocError> {
    let (at, column, text) = (token.at, token.column, token.text);
    let first = if token.first { ", first" } else { "" };
    let kind = kind_words(token.kind);
    let line = format!(in alloc; "byte {at}, column {column}{first}: {kind} {text:?}")?;
    reply.line(line.as_str())
}

fn kind_words(kind: TokenKind) -> &'static str {
    match kind {
        TokenKind::Name => "name",
        TokenKind::Number => "number",
        TokenKind::Text => "text",
        TokenKind::Sign(sign) => sign_words(sign),
    }
}

/// A sign by the first of its spellings.
fn sign_words(sign: Sign) -> &'static str {
    match sign {
        Sign::OpenParen => "sign (",
        Sign::CloseParen => "sign )",
        Sign::OpenBracket => "sign [",
        Sign::CloseBracket => "sign ]",
        Sign::Comma => "sign ,",
        Sign::Semicolon => "sign ;",
        Sign::Colon => "sign :",
        Sign::Assign => "sign :=",
        Sign::Bar => "sign |",
        Sign::Plus => "sign +",
        Sign::Star => "sign *",
        Sign::Caret => "sign ^",
        Sign::Equal => "sign =",
        Sign::NotEqual => "sign ≠",
        Sign::LessEqual => "sign ≤",
        Sign::Less => "sign <",
        Sign::And => "sign ∧",
        Sign::Or => "sign ∨",
        Sign::Arrow => "sign →",
        Sign::LeftArrow => "sign ←",
        Sign::Not => "sign ¬",
        Sign::ForAll => "sign ∀",
        Sign::Exists => "sign ∃",
        Sign::Nat => "sign ℕ",
        Sign::Bullet => "sign ·",
    }
}

/// The line of what a text token means.
fn meaning_line(
    alloc: Global,
    times: u64,
    text: &str,
    reply: &mut Reply,
) -> Result<(), AllocError> {
    let mut meant = decoded(alloc, text)?;
    for _ in 1..times {
        meant = decoded(alloc, text)?;
    }
    let line = format!(in alloc; "{meant:?}")?;
    reply.line(line.as_str())
}

/// A line for the words that are reserved, and one for those that are not.
fn reserved_lines(alloc: Global, text: &str, reply: &mut Reply) -> Result<(), RowFault> {
    if text.is_empty() {
        return Err(RowFault::Unread("`reserved` wants words"));
    }
    words_line(alloc, "reserved:", text, true, reply)?;
    Ok(words_line(alloc, "not reserved:", text, false, reply)?)
}

/// A head, and the words that are reserved, or those that are not.
fn words_line(
    alloc: Global,
    head: &str,
    text: &str,
    reserved: bool,
    reply: &mut Reply,
) -> Result<(), AllocError> {
    let mut line = String::from_str(alloc, head)?;
    for word in text.split_whitespace() {
        if is_reserved(word) == reserved {
            write!(line, " {word}")?;
        }
    }
    reply.line(line.as_str())
}
