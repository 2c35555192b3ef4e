// What stands behind the words of moves.
ghost use Rattle.std.specs.Prelude.{◌≡◌, map, option_map};
ghost use Rattle.pg_base.specs.Tokens.{word};
ghost use Rattle.pg_script.specs.declared.fault.ScriptFault.TheVariants.{Expected};
ghost use Rattle.pg_script.specs.Lines.{end_fault, name_at, names_fault, steps_fault, deep_fault, place_at, rule_at, no_rule, rule_end, rules_at, bracketed_rules, no_term, terms_at, exact_at, intro_at, names_after, split_at, have_formula, have_of, cases_of, apply_at, rewrite_at, shape_at};
ghost use Rattle.pg_script.specs.View.{words, part, expression, rule, shape, Reads, Passes, with_rest, same};

use crate::expression::expr_at;
use crate::fault::ScriptFault;
use crate::head::Head;
use crate::item::{Expr, Form, Piece, RwRule};
use crate::mark::{Left, Mark, is_name, mark_of, place, split_first};
use crate::span::{NESTING_LIMIT, Until, piece_until};
use pg_base::{Token, Wanted};
use sqlite_items::Items;
use std::alloc::Global;

/// This is expected, and something else stands here.
fn expected(at: u32, what: Wanted) -> ScriptFault
    ensures { result ≡ Expected at what }
{
    ScriptFault::Expected { at, what }
}

/// Passes where nothing is left. Else the end of the item was wanted at the first token.
pub fn expect_end(tokens: &[Token<'_>]) -> Result<(), ScriptFault>
    ensures { Passes (end_fault (words tokens.now)) result }
{
    match split_first(tokens) {
        None => Ok(()),
        Some((token, _)) => Err(expected(token.at, Wanted::EndOfItem)),
    }
}

/// The name at the front, and the tokens that are left.
fn name_at<'t, 'a>(
    end: u32,
    tokens: &'t [Token<'a>],
) -> Result<(Token<'a>, &'t [Token<'a>]), ScriptFault>
    ensures { Reads (with_rest word) (name_at end (words tokens.now)) result }
{
    match split_first(tokens) {
        Some((token, rest)) if is_name(&token) => Ok((token, rest)),
        _ => Err(ScriptFault::Expected {
            at: place(tokens, end),
            what: Wanted::Name,
        }),
    }
}

/// Passes where all tokens are names. Else a name was wanted at the first that is none.
fn expect_names(tokens: &[Token<'_>]) -> Result<(), ScriptFault>
    ensures { Passes (names_fault (words tokens.now)) result }
{
    for token in tokens {
        if !is_name(token) {
            return Err(ScriptFault::Expected {
                at: token.at,
                what: Wanted::Name,
            });
        }
    }
    Ok(())
}

/// Passes where all tokens are names, each of which is a step, and no more than there is room for.
fn expect_steps(room: usize, tokens: &[Token<'_>]) -> Result<(), ScriptFault>
    ensures { Passes (steps_fault room (words tokens.now)) result }
{
    let mut left = room;
    for token in tokens {
        let at = token.at;
        if !is_name(token) {
            return Err(ScriptFault::Expected {
                at,
                what: Wanted::Name,
            });
        }
        if left == 0 {
            return Err(ScriptFault::TooMany { at });
        }
        left -= 1;
    }
    Ok(())
}

/// Passes where no parenthesis opens within too many others.
fn expect_shallow(tokens: &[Token<'_>]) -> Result<(), ScriptFault>
    ensures { Passes (deep_fault 0 (words tokens.now)) result }
{
    let mut depth: u32 = 0;
    for token in tokens {
        match mark_of(token) {
            Mark::Open if depth >= NESTING_LIMIT => {
                return Err(ScriptFault::Deep { at: token.at });
            }
            Mark::Open => depth += 1,
            Mark::Close => depth = depth.saturating_sub(1),
            _ => {}
        }
    }
    Ok(())
}

/// `at h`, or nothing.
fn place_at<'a>(end: u32, tokens: &[Token<'a>]) -> Result<Option<Token<'a>>, ScriptFault>
    ensures { Reads (option_map word) (place_at end (words tokens.now)) result }
{
    let Some((token, rest)) = split_first(tokens) else {
        return Ok(None);
    };
    match mark_of(&token) {
        Mark::At => {
            let (name, rest) = name_at(end, rest)?;
            expect_end(rest)?;
            Ok(Some(name))
        }
        _ => Err(expected(token.at, Wanted::AtOrEnd)),
    }
}

/// The rule at the front, and the tokens that are left.
fn rule_at<'t, 'a>(
    alloc: Global,
    end: u32,
    tokens: &'t [Token<'a>],
) -> Result<(RwRule<'a>, &'t [Token<'a>]), ScriptFault>
    ensures { Reads (with_rest rule) (rule_at end (words tokens.now)) result }
{
    let Some((token, rest)) = split_first(tokens) else {
        return Err(expected(end, Wanted::Rule));
    };
    match mark_of(&token) {
        Mark::LeftArrow => {
            let (expr, rest) = expr_at(alloc, end, 0, rest)?;
            Ok((RwRule { back: true, expr }, rest))
        }
        Mark::Free | Mark::Open => {
            let (expr, rest) = expr_at(alloc, end, 0, tokens)?;
            Ok((RwRule { back: false, expr }, rest))
        }
        _ => Err(expected(token.at, Wanted::Rule)),
    }
}

/// What is wrong where a rule is one step too many.
fn no_rule(end: u32, tokens: &[Token<'_>]) -> ScriptFault
    ensures { result ≡ no_rule end (words tokens.now) }
{
    let Some((token, _)) = split_first(tokens) else {
        return expected(end, Wanted::Rule);
    };
    match mark_of(&token) {
        Mark::Free | Mark::Open | Mark::LeftArrow => ScriptFault::TooMany { at: token.at },
        _ => expected(token.at, Wanted::Rule),
    }
}

/// Whether a rule is followed by another one, and the tokens that are left.
fn rule_end<'t, 'a>(
    end: u32,
    tokens: &'t [Token<'a>],
) -> Result<(bool, &'t [Token<'a>]), ScriptFault>
    ensures { Reads (with_rest same) (rule_end end (words tokens.now)) result }
{
    let Some((token, rest)) = split_first(tokens) else {
        return Err(expected(end, Wanted::CommaOrBracket));
    };
    match mark_of(&token) {
        Mark::Comma => Ok((true, rest)),
        Mark::CloseBracket => Ok((false, rest)),
        _ => Err(expected(token.at, Wanted::CommaOrBracket)),
    }
}

/// Rules up to the closing bracket, of which so many may stand, and the tokens that are left.
#[tactic(auto, using(crate::proofs::Turns::rules_broken))]
fn rules_at<'t, 'a>(
    alloc: Global,
    room: usize,
    end: u32,
    tokens: &'t [Token<'a>],
) -> Result<(Items<RwRule<'a>>, &'t [Token<'a>]), ScriptFault>
    ensures { Reads (with_rest (map rule)) (rules_at room end (words tokens.now)) result }
{
    let mut rules = Items::new(alloc);
    let mut left = Left { tokens };
    for _turn in 0..room {
        let (rule, behind) = rule_at(alloc, end, left.tokens)?;
        rules.push(rule)?;
        let (goes_on, after) = rule_end(end, behind)?;
        if !goes_on {
            return Ok((rules, after));
        }
        left = Left { tokens: after };
    }
    Err(no_rule(end, left.tokens))
}

fn bracketed_rules<'t, 'a>(
    alloc: Global,
    room: usize,
    end: u32,
    tokens: &'t [Token<'a>],
) -> Result<(Items<RwRule<'a>>, &'t [Token<'a>]), ScriptFault>
    ensures { Reads (with_rest (map rule)) (bracketed_rules room end (words tokens.now)) result }
{
    let Some((token, rest)) = split_first(tokens) else {
        return Err(expected(end, Wanted::OpenBracket));
    };
    match mark_of(&token) {
        Mark::OpenBracket => rules_at(alloc, room, end, rest),
        _ => Err(expected(token.at, Wanted::OpenBracket)),
    }
}

/// What is wrong where a term of `use` is one step too many.
fn no_term(end: u32, tokens: &[Token<'_>]) -> ScriptFault
    ensures { result ≡ no_term end (words tokens.now) }
{
    let Some((token, _)) = split_first(tokens) else {
        return expected(end, Wanted::Term);
    };
    match mark_of(&token) {
        Mark::Comma | Mark::Close => expected(token.at, Wanted::Term),
        _ => ScriptFault::TooMany { at: token.at },
    }
}

/// Terms up to the end, of which so many may stand.
fn terms_at<'a>(
    alloc: Global,
    room: usize,
    end: u32,
    tokens: &[Token<'a>],
) -> Result<Items<Piece<'a>>, ScriptFault>
    ensures { Reads (map part) (terms_at room end (words tokens.now)) result }
{
    let mut terms = Items::new(alloc);
    let mut left = Left { tokens };
    for _turn in 0..room {
        let (term, behind) = piece_until(alloc, Wanted::Term, Until::Comma, end, left.tokens)?;
        terms.push(term)?;
        let Some((_, after)) = split_first(behind) else {
            return Ok(terms);
        };
        left = Left { tokens: after };
    }
    Err(no_term(end, left.tokens))
}

/// The expression that these tokens are, with nothing behind it. The next token begins at the byte
/// `end`. Where they are none it is their first fault, as in a script. Want of memory is `OutOfMemory`.
pub fn read_expression<'a>(
    alloc: Global,
    tokens: &[Token<'a>],
    end: u32,
) -> Result<Expr<'a>, ScriptFault>
    ensures { Reads expression (exact_at end (words tokens.now)) result }
{
    let (expr, rest) = expr_at(alloc, end, 0, tokens)?;
    expect_end(rest)?;
    Ok(expr)
}

fn apply_at<'a>(alloc: Global, end: u32, tokens: &[Token<'a>]) -> Result<Form<'a>, ScriptFault>
    ensures { Reads shape (apply_at end (words tokens.now)) result }
{
    let (expr, rest) = expr_at(alloc, end, 0, tokens)?;
    let place = place_at(end, rest)?;
    Ok(Form::Apply { expr, place })
}

fn rewrite_at<'a>(
    alloc: Global,
    room: usize,
    end: u32,
    tokens: &[Token<'a>],
) -> Result<Form<'a>, ScriptFault>
    ensures { Reads shape (rewrite_at room end (words tokens.now)) result }
{
    let (rules, rest) = bracketed_rules(alloc, room, end, tokens)?;
    let place = place_at(end, rest)?;
    Ok(Form::Rw { rules, place })
}

fn intro_at<'a>(
    alloc: Global,
    room: usize,
    end: u32,
    tokens: &[Token<'a>],
) -> Result<Form<'a>, ScriptFault>
    ensures { Reads shape (intro_at room end (words tokens.now)) result }
{
    if tokens.is_empty() {
        return Err(ScriptFault::Expected {
            at: end,
            what: Wanted::Name,
        });
    }
    expect_steps(room, tokens)?;
    Ok(Form::Intro(Items::from_slice(alloc, tokens)?))
}

/// `with` and names, or nothing.
fn names_after<'a>(alloc: Global, tokens: &[Token<'a>]) -> Result<Items<Token<'a>>, ScriptFault>
    ensures { Reads words (names_after (words tokens.now)) result }
{
    let Some((token, rest)) = split_first(tokens) else {
        return Ok(Items::new(alloc));
    };
    match mark_of(&token) {
        Mark::With => {
            expect_names(rest)?;
            Ok(Items::from_slice(alloc, rest)?)
        }
        _ => Err(expected(token.at, Wanted::WithOrEnd)),
    }
}

fn split_at<'a>(alloc: Global, end: u32, tokens: &[Token<'a>]) -> Result<Form<'a>, ScriptFault>
    ensures { Reads shape (split_at end (words tokens.now)) result }
{
    let (name, rest) = name_at(end, tokens)?;
    let names = names_after(alloc, rest)?;
    Ok(Form::Split { name, names })
}

/// What stands behind `have h :`.
fn have_formula<'a>(
    alloc: Global,
    end: u32,
    name: Token<'a>,
    tokens: &[Token<'a>],
) -> Result<Form<'a>, ScriptFault>
    ensures { Reads shape (have_formula end (word name.entry) (words tokens.now)) result }
{
    let (formula, rest) = piece_until(alloc, Wanted::Formula, Until::Assign, end, tokens)?;
    let expr = match split_first(rest) {
        None => None,
        Some((_, behind)) => Some(read_expression(alloc, behind, end)?),
    };
    Ok(Form::Have {
        name,
        formula: Some(formula),
        expr,
    })
}

fn have_of<'a>(
    alloc: Global,
    end: u32,
    name: Token<'a>,
    tokens: &[Token<'a>],
) -> Result<Form<'a>, ScriptFault>
    ensures { Reads shape (have_of end (word name.entry) (words tokens.now)) result }
{
    let Some((token, rest)) = split_first(tokens) else {
        return Err(expected(end, Wanted::ColonOrAssign));
    };
    match mark_of(&token) {
        Mark::Colon => have_formula(alloc, end, name, rest),
        Mark::Assign => Ok(Form::Have {
            name,
            formula: None,
            expr: Some(read_expression(alloc, rest, end)?),
        }),
        _ => Err(expected(token.at, Wanted::ColonOrAssign)),
    }
}

fn cases_of<'a>(
    alloc: Global,
    end: u32,
    name: Token<'a>,
    tokens: &[Token<'a>],
) -> Result<Form<'a>, ScriptFault>
    ensures { Reads shape (cases_of end (word name.entry) (words tokens.now)) result }
{
    let Some((token, rest)) = split_first(tokens) else {
        return Err(expected(end, Wanted::Colon));
    };
    match mark_of(&token) {
        Mark::Colon => {
            let (formula, _) = piece_until(alloc, Wanted::Formula, Until::End, end, rest)?;
            Ok(Form::ByCases { name, formula })
        }
        _ => Err(expected(token.at, Wanted::Colon)),
    }
}

/// The form behind a move's word, from the tokens behind the word. So many steps may still stand, at
/// least one.
pub fn form_at<'a>(
    alloc: Global,
    head: Head,
    room: usize,
    end: u32,
    tokens: &[Token<'a>],
) -> Result<Form<'a>, ScriptFault>
    ensures { Reads shape (shape_at head room end (words tokens.now)) result }
{
    match head {
        Head::Plain => {
            expect_end(tokens)?;
            Ok(Form::Plain)
        }
        Head::Exact => Ok(Form::Exact(read_expression(alloc, tokens, end)?)),
        Head::Intro => intro_at(alloc, room, end, tokens),
        Head::Apply => apply_at(alloc, end, tokens),
        Head::Rw => rewrite_at(alloc, room, end, tokens),
        Head::Split => split_at(alloc, end, tokens),
        Head::Use => Ok(Form::Use(terms_at(alloc, room, end, tokens)?)),
        Head::Symm => Ok(Form::Symm(place_at(end, tokens)?)),
        Head::Have => {
            let (name, rest) = name_at(end, tokens)?;
            have_of(alloc, end, name, rest)
        }
        Head::Revert => {
            let (name, rest) = name_at(end, tokens)?;
            expect_end(rest)?;
            Ok(Form::Revert(name))
        }
        Head::ByCases => {
            let (name, rest) = name_at(end, tokens)?;
            cases_of(alloc, end, name, rest)
        }
        Head::Unknown => {
            expect_shallow(tokens)?;
            Ok(Form::Unknown)
        }
    }
}
