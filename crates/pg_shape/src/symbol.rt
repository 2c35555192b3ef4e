// What a token is to the grammar of shapes.
ghost use Rattle.std.specs.Prelude.{◌≡◌};
ghost use Rattle.pg_base.specs.Tokens.{word};
ghost use Rattle.pg_shape.specs.Symbols.{sym, symbol, sign_symbol, name_symbol};

use crate::shape::{Op, Quantifier, Word};
use pg_base::{Sign, Token, TokenKind, is_reserved};

/// What a token is to the grammar. A number is the byte at which the token stands.
#[derive(Clone, Copy, Debug)]
pub enum Sym<'a> {
    /// A name that isn't reserved.
    Name(Word<'a>),
    Number(Word<'a>),
    /// `False`
    False(u32),
    /// `succ`
    Succ(u32),
    /// A sign between two operands.
    Infix(u32, Op),
    /// `¬`
    Not(u32),
    Quantifier(u32, Quantifier),
    Open(u32),
    Close,
    Comma,
    Colon,
    /// `ℕ`
    Nat,
    /// Any other token.
    Other,
}

/// What this token is.
pub fn symbol<'a>(token: &Token<'a>) -> Sym<'a>
    ensures { sym result ≡ symbol (word token.now) }
{
    match token.kind {
        TokenKind::Name => name_symbol(token.at, token.text),
        TokenKind::Number => Sym::Number(Word {
            at: token.at,
            text: token.text,
        }),
        TokenKind::Text => Sym::Other,
        TokenKind::Sign(sign) => sign_symbol(token.at, sign),
    }
}

/// What the name at this byte is. But for `succ` and `False` a reserved word stands in no shape.
fn name_symbol(at: u32, text: &str) -> Sym<'_>
    ensures { sym result ≡ name_symbol at text.now }
{
    if text == "succ" {
        Sym::Succ(at)
    } else if text == "False" {
        Sym::False(at)
    } else if is_reserved(text) {
        Sym::Other
    } else {
        Sym::Name(Word { at, text })
    }
}

/// What the sign at this byte is.
fn sign_symbol<'a>(at: u32, sign: Sign) -> Sym<'a>
    ensures { sym result ≡ sign_symbol at sign }
{
    match sign {
        Sign::OpenParen => Sym::Open(at),
        Sign::CloseParen => Sym::Close,
        Sign::Comma => Sym::Comma,
        Sign::Colon => Sym::Colon,
        Sign::Plus => Sym::Infix(at, Op::Plus),
        Sign::Star => Sym::Infix(at, Op::Times),
        Sign::Caret => Sym::Infix(at, Op::Power),
        Sign::Equal => Sym::Infix(at, Op::Equal),
        Sign::NotEqual => Sym::Infix(at, Op::NotEqual),
        Sign::LessEqual => Sym::Infix(at, Op::LessEqual),
        Sign::Less => Sym::Infix(at, Op::Less),
        Sign::And => Sym::Infix(at, Op::And),
        Sign::Or => Sym::Infix(at, Op::Or),
        Sign::Arrow => Sym::Infix(at, Op::Implies),
        Sign::Not => Sym::Not(at),
        Sign::ForAll => Sym::Quantifier(at, Quantifier::ForAll),
        Sign::Exists => Sym::Quantifier(at, Quantifier::Exists),
        Sign::Nat => Sym::Nat,
        _ => Sym::Other,
    }
}
