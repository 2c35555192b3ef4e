// Terms and formulas written as they stand in rows, with the names of their binders.
use crate::fault::RowFault;
use crate::reply::Reply;
use pg_terms::{Formula, Term};
use std::alloc::{AllocError, Global};

/// Puts a term's tree into a reply.
pub fn show_term(alloc: Global, t: &Term, reply: &mut Reply) -> Result<(), RowFault> {
    let mut text = String::new(alloc);
    write_term(&mut text, t)?;
    Ok(reply.line(text.as_str())?)
}

/// Puts a formula's tree into a reply.
pub fn show_formula(alloc: Global, a: &Formula, reply: &mut Reply) -> Result<(), RowFault> {
    let mut text = String::new(alloc);
    write_formula(&mut text, a)?;
    Ok(reply.line(text.as_str())?)
}

/// Puts a tree's size and height into a reply.
pub fn show_size(alloc: Global, size: u64, height: u32, reply: &mut Reply) -> Result<(), RowFault> {
    let line = format!(in alloc; "size {size}, height {height}")?;
    Ok(reply.line(line.as_str())?)
}

/// Writes a term behind a text.
#[cycle(write)]
fn write_term(out: &mut String, t: &Term) -> Result<(), AllocError> {
    match t {
        Term::Free(i) => write!(out, "v{i}"),
        Term::Bound(i) => write!(out, "b{i}"),
        Term::Zero => out.push('0'),
        Term::Succ(t) => {
            out.push_str("s(")?;
            write_term(out, t.get())?;
            out.push(')')
        }
        Term::App(f, ts) => {
            write!(out, "f{f}(")?;
            write_terms(out, ts.as_slice())?;
            out.push(')')
        }
    }
}

/// Writes terms behind a text, with commas between.
#[cycle(write)]
fn write_terms(out: &mut String, ts: &[Term]) -> Result<(), AllocError> {
    let mut is_first = true;
    for t in ts {
        if !is_first {
            out.push(',')?;
        }
        write_term(out, t)?;
        is_first = false;
    }
    Ok(())
}

/// Writes a formula behind a text.
#[cycle(write_formula)]
pub fn write_formula(out: &mut String, a: &Formula) -> Result<(), AllocError> {
    match a {
        Formula::Falsum => out.push('F'),
        Formula::Eq(s, t) => write_equation(out, s, t),
        Formula::Pred(p, ts) => {
            write!(out, "p{p}(")?;
            write_terms(out, ts.as_slice())?;
            out.push(')')
        }
        Formula::And(a, b) => write_two(out, "&(", a.get(), b.get()),
        Formula::Or(a, b) => write_two(out, "|(", a.get(), b.get()),
        Formula::Imp(a, b) => write_two(out, ">(", a.get(), b.get()),
        Formula::All(x, a) => write_body(out, '!', x.as_str(), a.get()),
        Formula::Ex(x, a) => write_body(out, '?', x.as_str(), a.get()),
    }
}

/// Writes the sides of a connective.
#[cycle(write_formula)]
fn write_two(out: &mut String, front: &str, a: &Formula, b: &Formula) -> Result<(), AllocError> {
    out.push_str(front)?;
    write_formula(out, a)?;
    out.push(',')?;
    write_formula(out, b)?;
    out.push(')')
}

/// Writes a quantifier.
#[cycle(write_formula)]
fn write_body(out: &mut String, sign: char, x: &str, a: &Formula) -> Result<(), AllocError> {
    write!(out, "{sign}{x}(")?;
    write_formula(out, a)?;
    out.push(')')
}

fn write_equation(out: &mut String, s: &Term, t: &Term) -> Result<(), AllocError> {
    out.push_str("=(")?;
    write_term(out, s)?;
    out.push(',')?;
    write_term(out, t)?;
    out.push(')')
}
