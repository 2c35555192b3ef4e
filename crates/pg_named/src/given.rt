// The names that a command gives.
ghost use Rattle.std.specs.Prelude.{◌≡◌, ◌++◌, true, false, option_map};
ghost use Rattle.pg_base.specs.Tokens.{word};
ghost use Rattle.pg_gametext.specs.Forms.{declared_text};
ghost use Rattle.pg_gametext.specs.Before as before;
ghost use Rattle.pg_forms.specs.View.{function, constant, predicate, equation};
ghost use Rattle.pg_named.specs.View.{given, listed, maybe_given};

use pg_base::{Sign, Token, TokenKind};
use pg_forms::{ConstantText, Equation, FunctionText, PredicateText};

/// A name that a command gives, and the byte at which it stands.
#[derive(Clone, Copy)]
pub struct Given<'a> {
    pub name: &'a str,
    pub at: u32,
    /// Whether it is a function's, a constant's or a predicate's.
    pub declared: bool,
}

/// The names that a command gives, in their order: at most three.
#[derive(Clone, Copy)]
pub struct GivenNames<'a> {
    pub first: Option<Given<'a>>,
    pub second: Option<Given<'a>>,
    pub third: Option<Given<'a>>,
}

/// The names of a function and of its equations.
pub fn function_names<'a>(text: &FunctionText<'_, 'a>) -> GivenNames<'a>
    ensures { listed result ≡ before.function_names (function text.now) }
{
    GivenNames {
        first: given_by(true, text.name),
        second: given_by(false, equation_name(text.at_zero)),
        third: given_by(false, equation_name(text.at_succ)),
    }
}

/// The names of a constant and of its equation.
pub fn constant_names<'a>(text: &ConstantText<'_, 'a>) -> GivenNames<'a>
    ensures { listed result ≡ before.given_by true (constant text.now).name ++ before.given_by false (constant text.now).equation_name }
{
    GivenNames {
        first: given_by(true, text.name),
        second: given_by(false, text.equation_name),
        third: None,
    }
}

/// The name of a predicate.
pub fn predicate_names<'a>(text: &PredicateText<'_, 'a>) -> GivenNames<'a>
    ensures { listed result ≡ before.given_by true (predicate text.now).name }
{
    GivenNames {
        first: given_by(true, text.name),
        second: None,
        third: None,
    }
}

/// The name of a statement, if it has one.
pub fn statement_names<'a>(name: Option<Token<'a>>) -> GivenNames<'a>
    ensures { listed result ≡ before.given_by false (option_map word name.entry) }
{
    GivenNames {
        first: given_by(false, name),
        second: None,
        third: None,
    }
}

fn equation_name<'a>(said: Option<Equation<'_, 'a>>) -> Option<Token<'a>>
    ensures { option_map word result ≡ before.equation_name (option_map equation said.entry) }
{
    match said {
        Some(equation) => Some(equation.name),
        None => None,
    }
}

fn given_by<'a>(declared: bool, name: Option<Token<'a>>) -> Option<Given<'a>>
    ensures { maybe_given result ≡ before.given_by declared (option_map word name.entry) }
{
    match name {
        Some(token) => Some(Given {
            name: declared_text(&token),
            at: token.at,
            declared,
        }),
        None => None,
    }
}

/// The name of what is declared by this token: of a sign its first spelling.
fn declared_text<'a>(token: &Token<'a>) -> &'a str
    ensures { result.now ≡ declared_text (word token.now) }
{
    match token.kind {
        TokenKind::Sign(Sign::LessEqual) => "≤",
        _ => token.text,
    }
}
