// Each token as the part that it can play in a script.
ghost use Rattle.std.specs.Prelude.{◌≡◌, ◌∷◌, [], MatchOption};
ghost use Rattle.pg_base.specs.Tokens.{word};
ghost use Rattle.pg_script.specs.Marks.{mark, name_mark, sign_mark, is_name, place};
ghost use Rattle.pg_script.specs.View.{words};

use pg_base::{Sign, Token, TokenKind, is_reserved};

/// What a token is to a script's grammar.
#[derive(Clone, Copy, Debug, PartialEq, Eq)]
pub enum Mark {
    Open,
    Close,
    OpenBracket,
    CloseBracket,
    Comma,
    Semicolon,
    Colon,
    Assign,
    LeftArrow,
    Bullet,
    /// A name that isn't reserved.
    Free,
    /// The word `with`.
    With,
    /// The word `at`.
    At,
    /// Any other reserved word.
    Reserved,
    Number,
    Text,
    /// Any other sign.
    Other,
}

fn name_mark(text: &str) -> Mark
    ensures { result ≡ name_mark text.now }
{
    if text == "with" {
        Mark::With
    } else if text == "at" {
        Mark::At
    } else if is_reserved(text) {
        Mark::Reserved
    } else {
        Mark::Free
    }
}

fn sign_mark(sign: Sign) -> Mark
    ensures { result ≡ sign_mark sign }
{
    match sign {
        Sign::OpenParen => Mark::Open,
        Sign::CloseParen => Mark::Close,
        Sign::OpenBracket => Mark::OpenBracket,
        Sign::CloseBracket => Mark::CloseBracket,
        Sign::Comma => Mark::Comma,
        Sign::Semicolon => Mark::Semicolon,
        Sign::Colon => Mark::Colon,
        Sign::Assign => Mark::Assign,
        Sign::LeftArrow => Mark::LeftArrow,
        Sign::Bullet => Mark::Bullet,
        _ => Mark::Other,
    }
}

pub fn mark_of(token: &Token<'_>) -> Mark
    ensures { result ≡ mark (word token.now) }
{
    match token.kind {
        TokenKind::Name => name_mark(token.text),
        TokenKind::Number => Mark::Number,
        TokenKind::Text => Mark::Text,
        TokenKind::Sign(sign) => sign_mark(sign),
    }
}

/// Whether a token is a name, reserved or not.
pub fn is_name(token: &Token<'_>) -> bool
    ensures { result ≡ is_name (word token.now) }
{
    matches!(token.kind, TokenKind::Name)
}

/// The first token, and those after it.
pub fn split_first<'t, 'a>(tokens: &'t [Token<'a>]) -> Option<(Token<'a>, &'t [Token<'a>])>
    ensures { MatchOption result (tokens.now ≡ []) (λ p. tokens.now ≡ p.0 ∷ p.1.now) }
{
    let (first, rest) = tokens.split_first()?;
    Some((*first, rest))
}

/// The byte at which the first of these tokens begins, or the end.
pub fn place(tokens: &[Token<'_>], end: u32) -> u32
    ensures { result ≡ place end (words tokens.now) }
{
    match split_first(tokens) {
        Some((first, _)) => first.at,
        None => end,
    }
}

/// The tokens that are left to read.
#[derive(Clone, Copy, Debug)]
pub struct Left<'t, 'a> {
    pub tokens: &'t [Token<'a>],
}
