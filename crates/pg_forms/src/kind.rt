// The kinds of tokens that the forms of commands ask for.
ghost use Rattle.std.specs.Prelude.{◌≡◌, codes};
ghost use Rattle.pg_base.specs.Tokens.{word};
ghost use Rattle.pg_gametext.specs.Commands.{is_plain, is_word};
ghost use Rattle.pg_gametext.specs.Forms.{sign_mark, is_function_sign, is_predicate_sign, can_name_constant};
ghost use Rattle.pg_forms.specs.Kinds.{fits, names_number, names_function, names_predicate, is_operation, is_order};

use pg_base::{Sign, Token, TokenKind, is_reserved};

/// What a token is to the forms of commands.
#[derive(Clone, Copy, Debug, PartialEq, Eq)]
pub enum Kind {
    /// A name that isn't reserved.
    Plain,
    Number,
    Text,
    /// `(`
    Open,
    /// `)`
    Close,
    /// `:`
    Colon,
    /// `:=`
    Assign,
    /// `|`
    Bar,
    /// `→` or `->`
    Arrow,
    /// `ℕ` or `Nat`
    Nat,
    /// The word `as`.
    As,
    /// The word `by`.
    By,
    /// The sign of a function: `+`, `*` or `^`.
    FunctionSign,
    /// The sign of a predicate: `≤`, `<=` or `<`.
    PredicateSign,
    /// What can name a function.
    FunctionName,
    /// What can name a constant: a name, or a number that is not written `0`.
    ConstantName,
    /// What can name a predicate.
    PredicateName,
}

impl Kind {
    /// Whether a token is of this kind.
    pub fn fits(self, token: &Token<'_>) -> bool
        ensures { result ≡ fits self (word token.now) }
    {
        match self {
            Kind::Plain => is_plain(token),
            Kind::Number => matches!(token.kind, TokenKind::Number),
            Kind::Text => matches!(token.kind, TokenKind::Text),
            Kind::Open => matches!(token.kind, TokenKind::Sign(Sign::OpenParen)),
            Kind::Close => matches!(token.kind, TokenKind::Sign(Sign::CloseParen)),
            Kind::Colon => matches!(token.kind, TokenKind::Sign(Sign::Colon)),
            Kind::Assign => matches!(token.kind, TokenKind::Sign(Sign::Assign)),
            Kind::Bar => matches!(token.kind, TokenKind::Sign(Sign::Bar)),
            Kind::Arrow => matches!(token.kind, TokenKind::Sign(Sign::Arrow)),
            Kind::Nat => matches!(token.kind, TokenKind::Sign(Sign::Nat)),
            Kind::As => is_as(token),
            Kind::By => is_by(token),
            Kind::FunctionSign => is_function_sign(token),
            Kind::PredicateSign => is_predicate_sign(token),
            Kind::FunctionName => names_function(token),
            Kind::ConstantName => names_constant(token),
            Kind::PredicateName => names_predicate(token),
        }
    }
}

fn is_plain(token: &Token<'_>) -> bool
    ensures { result ≡ is_plain (word token.now) }
{
    matches!(token.kind, TokenKind::Name) && !is_reserved(token.text)
}

fn is_as(token: &Token<'_>) -> bool
    ensures { result ≡ is_word (codes "as") (word token.now) }
{
    matches!(token.kind, TokenKind::Name) && token.text == "as"
}

fn is_by(token: &Token<'_>) -> bool
    ensures { result ≡ is_word (codes "by") (word token.now) }
{
    matches!(token.kind, TokenKind::Name) && token.text == "by"
}

fn is_operation(sign: Sign) -> bool
    ensures { result ≡ is_operation (sign_mark sign) }
{
    match sign {
        Sign::Plus => true,
        Sign::Star => true,
        Sign::Caret => true,
        _ => false,
    }
}

fn is_order(sign: Sign) -> bool
    ensures { result ≡ is_order (sign_mark sign) }
{
    match sign {
        Sign::LessEqual => true,
        Sign::Less => true,
        _ => false,
    }
}

fn is_function_sign(token: &Token<'_>) -> bool
    ensures { result ≡ is_function_sign (word token.now) }
{
    match token.kind {
        TokenKind::Sign(sign) => is_operation(sign),
        TokenKind::Name => false,
        TokenKind::Number => false,
        TokenKind::Text => false,
    }
}

fn is_predicate_sign(token: &Token<'_>) -> bool
    ensures { result ≡ is_predicate_sign (word token.now) }
{
    match token.kind {
        TokenKind::Sign(sign) => is_order(sign),
        TokenKind::Name => false,
        TokenKind::Number => false,
        TokenKind::Text => false,
    }
}

fn names_function(token: &Token<'_>) -> bool
    ensures { result ≡ names_function (word token.now) }
{
    is_plain(token) || is_function_sign(token)
}

fn names_predicate(token: &Token<'_>) -> bool
    ensures { result ≡ names_predicate (word token.now) }
{
    is_plain(token) || is_predicate_sign(token)
}

fn names_constant(token: &Token<'_>) -> bool
    ensures { result ≡ can_name_constant (word token.now) }
{
    is_plain(token) || is_number_of_name(token)
}

/// Whether a token is a number that is not written `0`.
fn is_number_of_name(token: &Token<'_>) -> bool
    ensures { result ≡ names_number (word token.now) }
{
    matches!(token.kind, TokenKind::Number) && token.text != "0"
}
