// Terms and formulas as they stand in rows.
use crate::cursor::Cursor;
use crate::fault::RowFault;
use crate::words::name;
use pg_terms::{Formula, Term};
use sqlite_items::{Boxed, Items};
use std::alloc::Global;

/// How deep a tree is nested at most.
const DEEPEST: u16 = 600;

/// How many arguments an application has at most.
const MOST_ARGUMENTS: u8 = 16;

type Made<T> = Result<Boxed<T>, RowFault>;

/// Whether a word begins as a term does.
pub fn is_term(word: &str) -> bool {
    matches!(word.chars().next(), Some('v' | 'b' | '0' | 's' | 'f'))
}

/// The term that a word spells.
pub fn term(alloc: Global, word: &str) -> Made<Term> {
    let mut text = Cursor::new(word);
    let t = term_at(alloc, &mut text, DEEPEST)?;
    text.ends()?;
    Ok(t)
}

/// The formula that a word spells.
pub fn formula(alloc: Global, word: &str) -> Made<Formula> {
    let mut text = Cursor::new(word);
    let a = formula_at(alloc, &mut text, DEEPEST)?;
    text.ends()?;
    Ok(a)
}

/// The term at the front of a text.
#[cycle(term)]
fn term_at(alloc: Global, text: &mut Cursor<'_>, fuel: u16) -> Made<Term> {
    if fuel == 0 {
        return Err(RowFault::Unread("a tree is nested too deep"));
    }
    match text.next() {
        '0' => boxed_term(alloc, Term::Zero),
        'v' => boxed_term(alloc, Term::Free(text.number()?)),
        'b' => boxed_term(alloc, Term::Bound(text.number()?)),
        's' => successor(alloc, text, fuel - 1),
        'f' => application(alloc, text, fuel - 1),
        _ => Err(RowFault::Unread("a term is wanted")),
    }
}

/// The rest of a successor.
#[cycle(term)]
fn successor(alloc: Global, text: &mut Cursor<'_>, fuel: u16) -> Made<Term> {
    text.opens()?;
    let t = term_at(alloc, text, fuel)?;
    text.closes()?;
    boxed_term(alloc, Term::Succ(t))
}

/// The rest of an application.
#[cycle(term)]
fn application(alloc: Global, text: &mut Cursor<'_>, fuel: u16) -> Made<Term> {
    let f = text.short_number()?;
    let ts = arguments(alloc, text, fuel)?;
    boxed_term(alloc, Term::App(f, ts))
}

/// Arguments in parentheses.
#[cycle(term)]
fn arguments(alloc: Global, text: &mut Cursor<'_>, fuel: u16) -> Result<Items<Term>, RowFault> {
    let mut ts = Items::new(alloc);
    text.opens()?;
    if text.passes(')') {
        return Ok(ts);
    }
    for _ in 0..MOST_ARGUMENTS {
        ts.push(term_at(alloc, text, fuel)?.into_inner())?;
        if text.passes(')') {
            return Ok(ts);
        }
        text.goes_on()?;
    }
    Err(RowFault::Unread("an application has too many arguments"))
}

fn boxed_term(alloc: Global, t: Term) -> Made<Term> {
    Ok(Boxed::new(alloc, t)?)
}

/// The formula at the front of a text.
#[cycle(formula)]
fn formula_at(alloc: Global, text: &mut Cursor<'_>, fuel: u16) -> Made<Formula> {
    if fuel == 0 {
        return Err(RowFault::Unread("a tree is nested too deep"));
    }
    match text.next() {
        'F' => boxed_formula(alloc, Formula::Falsum),
        '=' => equation(alloc, text),
        'p' => predicate(alloc, text),
        '&' => {
            let (a, b) = two(alloc, text, fuel - 1)?;
            boxed_formula(alloc, Formula::And(a, b))
        }
        '|' => {
            let (a, b) = two(alloc, text, fuel - 1)?;
            boxed_formula(alloc, Formula::Or(a, b))
        }
        '>' => {
            let (a, b) = two(alloc, text, fuel - 1)?;
            boxed_formula(alloc, Formula::Imp(a, b))
        }
        '!' => universal(alloc, text, fuel - 1),
        '?' => existential(alloc, text, fuel - 1),
        _ => Err(RowFault::Unread("a formula is wanted")),
    }
}

/// The sides of a connective.
#[cycle(formula)]
fn two(
    alloc: Global,
    text: &mut Cursor<'_>,
    fuel: u16,
) -> Result<(Boxed<Formula>, Boxed<Formula>), RowFault> {
    text.opens()?;
    let a = formula_at(alloc, text, fuel)?;
    text.goes_on()?;
    let b = formula_at(alloc, text, fuel)?;
    text.closes()?;
    Ok((a, b))
}

/// The rest of a universal formula.
#[cycle(formula)]
fn universal(alloc: Global, text: &mut Cursor<'_>, fuel: u16) -> Made<Formula> {
    let x = text.binder();
    let a = body(alloc, text, fuel)?;
    boxed_formula(alloc, Formula::All(name(alloc, x)?, a))
}

/// The rest of an existential formula.
#[cycle(formula)]
fn existential(alloc: Global, text: &mut Cursor<'_>, fuel: u16) -> Made<Formula> {
    let x = text.binder();
    let a = body(alloc, text, fuel)?;
    boxed_formula(alloc, Formula::Ex(name(alloc, x)?, a))
}

/// What a quantifier speaks of.
#[cycle(formula)]
fn body(alloc: Global, text: &mut Cursor<'_>, fuel: u16) -> Made<Formula> {
    text.opens()?;
    let a = formula_at(alloc, text, fuel)?;
    text.closes()?;
    Ok(a)
}

/// The rest of an equation.
fn equation(alloc: Global, text: &mut Cursor<'_>) -> Made<Formula> {
    text.opens()?;
    let s = term_at(alloc, text, DEEPEST)?;
    text.goes_on()?;
    let t = term_at(alloc, text, DEEPEST)?;
    text.closes()?;
    boxed_formula(alloc, Formula::Eq(s.into_inner(), t.into_inner()))
}

/// The rest of a predicate at its arguments.
fn predicate(alloc: Global, text: &mut Cursor<'_>) -> Made<Formula> {
    let p = text.short_number()?;
    let ts = arguments(alloc, text, DEEPEST)?;
    boxed_formula(alloc, Formula::Pred(p, ts))
}

fn boxed_formula(alloc: Global, a: Formula) -> Made<Formula> {
    Ok(Boxed::new(alloc, a)?)
}
