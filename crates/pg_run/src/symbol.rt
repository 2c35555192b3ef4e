// Each token as the symbol that it is in a one-level game.
ghost use Rattle.std.specs.Prelude.{◌≡◌};
ghost use Rattle.pg_base.specs.Tokens.{word};
ghost use Rattle.pg_run.specs.Symbols.{symbol_of, begins_with_letter, are_word_bytes, is_world_name, command_symbol, name_symbol, tactic_symbol, number_symbol, sign_symbol};

use pg_base::{Sign, Token, TokenKind};
use pg_worlds::TacticName;

/// A token of a one-level game, by the part that it can play there ("One-level games" in docs/GAME-TEXT.md).
#[derive(Clone, Copy, Debug, PartialEq, Eq)]
pub enum Symbol {
    World,
    WorldName,
    Level,
    One,
    Statement,
    Colon,
    Zero,
    Succ,
    Open,
    Close,
    Equal,
    Assign,
    By,
    Sorry,
    NewTactic,
    /// The word of a move.
    Tactic(TacticName),
    /// Any other token. No one-level game has it.
    Other,
}

/// The symbol of a token. A command's word is one only where it begins its line at column 0.
pub fn symbol_of(token: &Token<'_>) -> Symbol
    ensures { result ≡ symbol_of (word token.now) }
{
    if token.first {
        return match token.kind {
            TokenKind::Name if token.column == 0 => command_symbol(token.text),
            _ => Symbol::Other,
        };
    }
    match token.kind {
        TokenKind::Name => name_symbol(token.text),
        TokenKind::Number => number_symbol(token.text),
        TokenKind::Text => {
            if is_world_name(token.text) {
                Symbol::WorldName
            } else {
                Symbol::Other
            }
        }
        TokenKind::Sign(sign) => sign_symbol(sign),
    }
}

/// The symbol of a name at the front of its line.
fn command_symbol(text: &str) -> Symbol
    ensures { result ≡ command_symbol text.now }
{
    match text {
        "World" => Symbol::World,
        "Level" => Symbol::Level,
        "Statement" => Symbol::Statement,
        "NewTactic" => Symbol::NewTactic,
        _ => Symbol::Other,
    }
}

/// The symbol of a name behind another token of its line.
fn name_symbol(text: &str) -> Symbol
    ensures { result ≡ name_symbol text.now }
{
    match text {
        "succ" => Symbol::Succ,
        "by" => Symbol::By,
        "sorry" => Symbol::Sorry,
        _ => tactic_symbol(text),
    }
}

/// The symbol of a move's word.
fn tactic_symbol(text: &str) -> Symbol
    ensures { result ≡ tactic_symbol text.now }
{
    match TacticName::named(text) {
        Some(tactic) => Symbol::Tactic(tactic),
        None => Symbol::Other,
    }
}

/// The symbol of a number: `0` or `1`.
fn number_symbol(text: &str) -> Symbol
    ensures { result ≡ number_symbol text.now }
{
    match text {
        "0" => Symbol::Zero,
        "1" => Symbol::One,
        _ => Symbol::Other,
    }
}

/// 1 to 32 ASCII letters, digits and `_`, the first a letter.
fn is_world_name(text: &str) -> bool
    ensures { result ≡ is_world_name text.now }
{
    let bytes = text.as_bytes();
    begins_with_letter(bytes) && bytes.len() <= 32 && are_word_bytes(bytes)
}

/// Whether an ASCII letter stands at the front.
fn begins_with_letter(bytes: &[u8]) -> bool
    ensures { result ≡ begins_with_letter bytes.now }
{
    match bytes {
        [] => false,
        [first, ..] => first.is_ascii_alphabetic(),
    }
}

/// Whether all are ASCII letters, digits and `_`.
fn are_word_bytes(bytes: &[u8]) -> bool
    ensures { result ≡ are_word_bytes bytes.now }
{
    bytes
        .iter()
        .all(|b| b.is_ascii_alphanumeric() || *b == b'_')
}

/// The symbol of a sign.
fn sign_symbol(sign: Sign) -> Symbol
    ensures { result ≡ sign_symbol sign }
{
    match sign {
        Sign::OpenParen => Symbol::Open,
        Sign::CloseParen => Symbol::Close,
        Sign::Colon => Symbol::Colon,
        Sign::Equal => Symbol::Equal,
        Sign::Assign => Symbol::Assign,
        _ => Symbol::Other,
    }
}
