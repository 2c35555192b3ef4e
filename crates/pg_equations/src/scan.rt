// Where tokens begin no equation.
ghost use Rattle.std.specs.Prelude.{◌≡◌, ◌<◌, ◌^◌, ◌-◌, ℕ, ◌∷◌, List, false};
ghost use Rattle.pg_base.specs.Tokens.{Word, word};
ghost use Rattle.pg_script.specs.View.{words};
ghost use Rattle.pg_gametext.specs.Reading.{no_equation, outside, outside_sign};
ghost use Rattle.pg_equations.specs.Steps.{outside_in, after, IsNear};

use pg_base::{Sign, Token, TokenKind};
use pg_forms::Span;

/// What a token is to an equation, where it stands outside parentheses.
#[derive(Clone, Copy)]
pub(crate) enum Outside {
    Opens,
    Closes,
    Equals,
    /// Another sign between formulas or terms that makes no term.
    Joins,
    Negates,
    Quantifies,
    Within,
}

/// What comes of one more token.
#[derive(Clone, Copy)]
pub(crate) enum Step {
    /// It goes on, with `=` seen or not, within so many parentheses.
    On(bool, usize),
    /// An equation goes on with any tokens.
    Ends,
    /// No equation goes on with this token.
    Breaks,
}

/// The byte of the first token with which no `l = r` begins so, by the signs outside parentheses, or the end where there is
/// no `=`: before `=` a sign that makes no term, behind it one more such sign that stands in no quantifier
/// (docs/GAME-TEXT.md, "Declarations"). Takes no memory.
pub fn no_equation(span: &Span<'_, '_>) -> Option<u32>
    ensures { result ≡ no_equation false 0 span.now.end (words span.now.tokens.now) }
{
    let mut seen = false;
    let mut depth: usize = 0;
    for token in span.tokens {
        match stepped(seen, depth, role(token)) {
            Step::On(equals, open) => {
                seen = equals;
                depth = open;
            }
            Step::Ends => return None,
            Step::Breaks => return Some(token.at),
        }
    }
    if seen { None } else { Some(span.end) }
}

/// What comes of a token, with `=` seen or not before it, within so many parentheses.
#[tactic(auto, using(crate::proofs::Scanning::opens, crate::proofs::Scanning::closes, crate::proofs::Scanning::within, crate::proofs::Scanning::equals_deep, crate::proofs::Scanning::equals_again, crate::proofs::Scanning::equals_first, crate::proofs::Scanning::joins_deep, crate::proofs::Scanning::joins_here, crate::proofs::Scanning::negates_deep, crate::proofs::Scanning::negates_behind, crate::proofs::Scanning::negates_before, crate::proofs::Scanning::quantifies_deep, crate::proofs::Scanning::quantifies_behind, crate::proofs::Scanning::quantifies_before))]
fn stepped(seen: bool, depth: usize, what: Outside) -> Step
    requires { depth < 2 ^ 64 - 1 }
    ensures follows { (end : ℕ) (w : Word) (ws : List Word) → outside w ≡ outside_in what → no_equation seen depth end (w ∷ ws) ≡ after result end w ws }
    ensures near { IsNear depth result }
{
    match what {
        Outside::Opens => Step::On(seen, depth + 1),
        Outside::Closes => Step::On(seen, depth.saturating_sub(1)),
        Outside::Within => Step::On(seen, depth),
        Outside::Equals => {
            if depth > 0 {
                Step::On(seen, depth)
            } else if seen {
                Step::Breaks
            } else {
                Step::On(true, depth)
            }
        }
        Outside::Joins => {
            if depth > 0 {
                Step::On(seen, depth)
            } else {
                Step::Breaks
            }
        }
        Outside::Negates => {
            if depth > 0 {
                Step::On(seen, depth)
            } else if seen {
                Step::On(seen, depth)
            } else {
                Step::Breaks
            }
        }
        Outside::Quantifies => {
            if depth > 0 {
                Step::On(seen, depth)
            } else if seen {
                Step::Ends
            } else {
                Step::Breaks
            }
        }
    }
}

/// What a token is to an equation.
fn role(token: &Token<'_>) -> Outside
    ensures { outside (word token.now) ≡ outside_in result }
{
    match token.kind {
        TokenKind::Sign(sign) => outside_sign(sign),
        TokenKind::Name => Outside::Within,
        TokenKind::Number => Outside::Within,
        TokenKind::Text => Outside::Within,
    }
}

/// What a sign is to an equation.
fn outside_sign(sign: Sign) -> Outside
    ensures { outside_sign sign ≡ outside_in result }
{
    match sign {
        Sign::OpenParen => Outside::Opens,
        Sign::CloseParen => Outside::Closes,
        Sign::Equal => Outside::Equals,
        Sign::NotEqual => Outside::Joins,
        Sign::LessEqual => Outside::Joins,
        Sign::Less => Outside::Joins,
        Sign::Arrow => Outside::Joins,
        Sign::And => Outside::Joins,
        Sign::Or => Outside::Joins,
        Sign::Not => Outside::Negates,
        Sign::ForAll => Outside::Quantifies,
        Sign::Exists => Outside::Quantifies,
        _ => Outside::Within,
    }
}
