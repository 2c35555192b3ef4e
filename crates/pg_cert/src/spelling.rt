// Terms and formulas in a line of a certificate.
ghost use Rattle.std.specs.Prelude.{◌≡◌, [], ◌++◌, OnOk, string_bytes, codes, decimal};
ghost use Rattle.pg_terms.specs.View.{args, formula, term};
ghost use Rattle.pg_cert.specs.Spelling.{around, formula_text, pair, term_text, terms_text};

use pg_terms::{Formula, Term};
use std::alloc::AllocError;

/// Writes a formula behind what is written.
#[cycle(write_formula)]
pub(crate) fn write_formula(out: &mut String, a: &Formula) -> Result<(), AllocError>
    ensures { OnOk result (string_bytes out.new ≡ string_bytes out.old ++ formula_text (formula a.now)) }
{
    match a {
        Formula::Falsum => out.push_str("F"),
        Formula::Eq(s, t) => write_equation(out, s, t),
        Formula::Pred(p, ts) => write_predicate(out, *p, ts.as_slice()),
        Formula::And(a, b) => write_both(out, "&", a.get(), b.get()),
        Formula::Or(a, b) => write_both(out, "|", a.get(), b.get()),
        Formula::Imp(a, b) => write_both(out, ">", a.get(), b.get()),
        Formula::All(_, a) => write_bound(out, "!", a.get()),
        Formula::Ex(_, a) => write_bound(out, "?", a.get()),
    }
}

/// Writes a sign with two formulas in its parentheses.
#[cycle(write_formula)]
fn write_both(out: &mut String, sign: &str, a: &Formula, b: &Formula) -> Result<(), AllocError>
    ensures { OnOk result (string_bytes out.new ≡ string_bytes out.old ++ around sign.now (pair (formula_text (formula a.now)) (formula_text (formula b.now)))) }
{
    out.push_str(sign)?;
    out.push_str("(")?;
    write_formula(out, a)?;
    out.push_str(",")?;
    write_formula(out, b)?;
    out.push_str(")")
}

/// Writes the sign of a quantifier with its body.
#[cycle(write_formula)]
fn write_bound(out: &mut String, sign: &str, a: &Formula) -> Result<(), AllocError>
    ensures { OnOk result (string_bytes out.new ≡ string_bytes out.old ++ around sign.now (formula_text (formula a.now))) }
{
    out.push_str(sign)?;
    out.push_str("(")?;
    write_formula(out, a)?;
    out.push_str(")")
}

/// Writes a predicate at its arguments.
fn write_predicate(out: &mut String, p: u16, ts: &[Term]) -> Result<(), AllocError>
    ensures { OnOk result (string_bytes out.new ≡ string_bytes out.old ++ around (codes "p" ++ decimal p) (terms_text [] (args ts.now))) }
{
    write!(out, "p{p}(")?;
    write_terms(out, ts)?;
    out.push_str(")")
}

/// Writes an equation.
fn write_equation(out: &mut String, s: &Term, t: &Term) -> Result<(), AllocError>
    ensures { OnOk result (string_bytes out.new ≡ string_bytes out.old ++ around (codes "=") (pair (term_text (term s.now)) (term_text (term t.now)))) }
{
    out.push_str("=(")?;
    write_term(out, s)?;
    out.push_str(",")?;
    write_term(out, t)?;
    out.push_str(")")
}

/// Writes a term behind what is written.
#[cycle(write_term)]
pub(crate) fn write_term(out: &mut String, t: &Term) -> Result<(), AllocError>
    ensures { OnOk result (string_bytes out.new ≡ string_bytes out.old ++ term_text (term t.now)) }
{
    match t {
        Term::Free(i) => write!(out, "v{i}"),
        Term::Bound(i) => write!(out, "b{i}"),
        Term::Zero => out.push_str("0"),
        Term::Succ(t) => {
            out.push_str("s(")?;
            write_term(out, t.get())?;
            out.push_str(")")
        }
        Term::App(f, ts) => {
            write!(out, "f{f}(")?;
            write_terms(out, ts.as_slice())?;
            out.push_str(")")
        }
    }
}

/// Writes terms with commas between them.
#[cycle(write_term)]
fn write_terms(out: &mut String, ts: &[Term]) -> Result<(), AllocError>
    ensures { OnOk result (string_bytes out.new ≡ string_bytes out.old ++ terms_text [] (args ts.now)) }
{
    let mut comma = "";
    for t in ts {
        out.push_str(comma)?;
        write_term(out, t)?;
        comma = ",";
    }
    Ok(())
}
