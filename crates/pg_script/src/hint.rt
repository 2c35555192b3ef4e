// Hints.
ghost use Rattle.std.specs.Prelude.{◌≡◌};
ghost use Rattle.pg_base.specs.Tokens.{word};
ghost use Rattle.pg_script.specs.Lines.{option_named, value_named, given, with_option, option_of, value_of, option_at, value_at, after_assign, flag_at, maybe_flag, flags_at, is_given, text_at, hint_at};
ghost use Rattle.pg_script.specs.View.{words, remark, Reads, with_rest, rest_words, same};

use crate::expression::after_close;
use crate::fault::ScriptFault;
use crate::form::expect_end;
use crate::item::HintItem;
use crate::mark::{Mark, mark_of, split_first};
use pg_base::{Token, Wanted};

/// An option of a hint.
#[derive(Clone, Copy, Debug, PartialEq, Eq)]
pub enum HintOption {
    Hidden,
    Strict,
}

/// The options of a hint that were given.
#[derive(Clone, Copy, Debug, PartialEq, Eq)]
pub struct Flags {
    pub hidden: Option<bool>,
    pub strict: Option<bool>,
}

fn option_named(text: &str) -> Option<HintOption>
    ensures { result ≡ option_named text.now }
{
    match text {
        "hidden" => Some(HintOption::Hidden),
        "strict" => Some(HintOption::Strict),
        _ => None,
    }
}

fn value_named(text: &str) -> Option<bool>
    ensures { result ≡ value_named text.now }
{
    match text {
        "true" => Some(true),
        "false" => Some(false),
        _ => None,
    }
}

impl Flags {
    fn given(&self, option: HintOption) -> Option<bool>
        ensures { result ≡ given option self.now }
    {
        match option {
            HintOption::Hidden => self.hidden,
            HintOption::Strict => self.strict,
        }
    }

    fn with_option(self, option: HintOption, value: bool) -> Flags
        ensures { result ≡ with_option option value self }
    {
        match option {
            HintOption::Hidden => Flags {
                hidden: Some(value),
                strict: self.strict,
            },
            HintOption::Strict => Flags {
                hidden: self.hidden,
                strict: Some(value),
            },
        }
    }
}

/// The option that this token names, if it wasn't given before.
fn option_of(flags: &Flags, token: &Token<'_>) -> Option<HintOption>
    ensures { result ≡ option_of flags.now (word token.now) }
{
    let option = match mark_of(token) {
        Mark::Free => option_named(token.text)?,
        _ => return None,
    };
    match flags.given(option) {
        None => Some(option),
        Some(_) => None,
    }
}

fn value_of(token: &Token<'_>) -> Option<bool>
    ensures { result ≡ value_of (word token.now) }
{
    match mark_of(token) {
        Mark::Free => value_named(token.text),
        _ => None,
    }
}

fn option_at<'t, 'a>(
    flags: &Flags,
    end: u32,
    tokens: &'t [Token<'a>],
) -> Result<(HintOption, &'t [Token<'a>]), ScriptFault>
    ensures { Reads (with_rest same) (option_at flags.now end (words tokens.now)) result }
{
    let Some((token, rest)) = split_first(tokens) else {
        return Err(ScriptFault::Expected {
            at: end,
            what: Wanted::HintOption,
        });
    };
    match option_of(flags, &token) {
        Some(option) => Ok((option, rest)),
        None => Err(ScriptFault::Expected {
            at: token.at,
            what: Wanted::HintOption,
        }),
    }
}

fn value_at<'t, 'a>(
    end: u32,
    tokens: &'t [Token<'a>],
) -> Result<(bool, &'t [Token<'a>]), ScriptFault>
    ensures { Reads (with_rest same) (value_at end (words tokens.now)) result }
{
    let Some((token, rest)) = split_first(tokens) else {
        return Err(ScriptFault::Expected {
            at: end,
            what: Wanted::TruthValue,
        });
    };
    match value_of(&token) {
        Some(value) => Ok((value, rest)),
        None => Err(ScriptFault::Expected {
            at: token.at,
            what: Wanted::TruthValue,
        }),
    }
}

fn after_assign<'t, 'a>(end: u32, tokens: &'t [Token<'a>]) -> Result<&'t [Token<'a>], ScriptFault>
    ensures { Reads rest_words (after_assign end (words tokens.now)) result }
{
    let Some((token, rest)) = split_first(tokens) else {
        return Err(ScriptFault::Expected {
            at: end,
            what: Wanted::Assign,
        });
    };
    match mark_of(&token) {
        Mark::Assign => Ok(rest),
        _ => Err(ScriptFault::Expected {
            at: token.at,
            what: Wanted::Assign,
        }),
    }
}

/// The options with the one behind an opening parenthesis, and the tokens that are left.
fn flag_at<'t, 'a>(
    flags: Flags,
    end: u32,
    tokens: &'t [Token<'a>],
) -> Result<(Flags, &'t [Token<'a>]), ScriptFault>
    ensures { Reads (with_rest same) (flag_at flags end (words tokens.now)) result }
{
    let (option, rest) = option_at(&flags, end, tokens)?;
    let rest = after_assign(end, rest)?;
    let (value, rest) = value_at(end, rest)?;
    let rest = after_close(end, rest)?;
    Ok((flags.with_option(option, value), rest))
}

/// The options with the one at the front, if there is one, and the tokens that are left.
fn maybe_flag<'t, 'a>(
    flags: Flags,
    end: u32,
    tokens: &'t [Token<'a>],
) -> Result<(Flags, &'t [Token<'a>]), ScriptFault>
    ensures { Reads (with_rest same) (maybe_flag flags end (words tokens.now)) result }
{
    let Some((token, inside)) = split_first(tokens) else {
        return Ok((flags, tokens));
    };
    match mark_of(&token) {
        Mark::Open => flag_at(flags, end, inside),
        _ => Ok((flags, tokens)),
    }
}

/// The options at the front, each at most once, and the tokens that are left.
fn flags_at<'t, 'a>(
    end: u32,
    tokens: &'t [Token<'a>],
) -> Result<(Flags, &'t [Token<'a>]), ScriptFault>
    ensures { Reads (with_rest same) (flags_at end (words tokens.now)) result }
{
    let none = Flags {
        hidden: None,
        strict: None,
    };
    let (one, rest) = maybe_flag(none, end, tokens)?;
    maybe_flag(one, end, rest)
}

fn is_given(value: Option<bool>) -> bool
    ensures { result ≡ is_given value }
{
    match value {
        Some(value) => value,
        None => false,
    }
}

fn text_at<'a>(
    at: u32,
    flags: Flags,
    end: u32,
    tokens: &[Token<'a>],
) -> Result<HintItem<'a>, ScriptFault>
    ensures { Reads remark (text_at at flags end (words tokens.now)) result }
{
    let Some((token, rest)) = split_first(tokens) else {
        return Err(ScriptFault::Expected {
            at: end,
            what: Wanted::Text,
        });
    };
    match mark_of(&token) {
        Mark::Text => {
            expect_end(rest)?;
            Ok(HintItem {
                at,
                text: token.text,
                hidden: is_given(flags.hidden),
                strict: is_given(flags.strict),
            })
        }
        _ => Err(ScriptFault::Expected {
            at: token.at,
            what: Wanted::Text,
        }),
    }
}

/// The hint whose word stands at this place, from the tokens behind the word.
pub fn hint_at<'a>(at: u32, end: u32, tokens: &[Token<'a>]) -> Result<HintItem<'a>, ScriptFault>
    ensures { Reads remark (hint_at at end (words tokens.now)) result }
{
    let (flags, rest) = flags_at(end, tokens)?;
    text_at(at, flags, end, rest)
}
