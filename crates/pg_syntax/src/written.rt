// Terms as texts.
ghost use Rattle.std.specs.Prelude.{◌≡◌, ◌<◌, ◌++◌, OnOk, option_map, string_bytes, codes};
ghost use Rattle.pg_terms.specs.View.{term, args};
ghost use Rattle.pg_grammar.specs.Printing.{sign_of, shape_of, joined};
ghost use Rattle.pg_shape.specs.View.{op};
ghost use Rattle.pg_spelling.specs.Named.{variable, name_at, function_names, predicate_names, sign_named, at_arguments, named, named_all};
ghost use Rattle.pg_spelling.specs.Written.{op_text, written, printed};
ghost use Rattle.pg_syntax.specs.Places.{scope, weight, operand_text};
ghost use Rattle.pg_syntax.specs.Texts.{arguments_text};

use crate::names::Names;
use pg_arith::Signature;
use pg_shape::{APPLICATION, ATOM, Op};
use pg_terms::{Name, Term};
use std::alloc::AllocError;

/// The names of the free variables, and what is declared.
#[derive(Clone, Copy)]
pub struct Context<'a> {
    pub names: &'a Names,
    pub sig: &'a Signature,
}

/// The same, with the printed names of the binders around, the innermost last.
#[derive(Clone, Copy)]
pub struct Place<'a> {
    pub context: Context<'a>,
    pub binders: &'a [Name],
}

impl<'a> Place<'a> {
    /// The name of a free variable; one that has none is printed as nothing.
    fn variable(&self, i: u32) -> &'a str
        ensures { result.now ≡ variable (scope self.now) i }
    {
        match sqlite_items::at(self.context.names.vars.as_slice(), i as usize) {
            Some(var) => match var {
                Some(name) => name.as_str(),
                None => "",
            },
            None => "",
        }
    }

    /// The printed name of the binder so many outwards, the nearest 0.
    fn bound(&self, i: u32) -> &'a str
        ensures { result.now ≡ name_at (scope self.now).binders i }
    {
        let i = i as usize;
        if i < self.binders.len() {
            self.binders[self.binders.len() - 1 - i].as_str()
        } else {
            ""
        }
    }

    /// The name of a function or a constant.
    fn function(&self, f: u16) -> &'a str
        ensures { result.now ≡ name_at (function_names (scope self.now).declared) f }
    {
        if f < self.context.sig.function_count() {
            self.context.sig.function_name(f).as_str()
        } else {
            ""
        }
    }

    /// The name of a predicate.
    pub fn predicate(&self, p: u16) -> &'a str
        ensures { result.now ≡ name_at (predicate_names (scope self.now).declared) p }
    {
        if p < self.context.sig.predicate_count() {
            self.context.sig.predicate_name(p).as_str()
        } else {
            ""
        }
    }
}

/// Writes a term behind what is written.
#[cycle(write)]
pub fn write_term(out: &mut String, place: &Place<'_>, t: &Term) -> Result<(), AllocError>
    ensures { OnOk result (string_bytes out.new ≡ string_bytes out.old ++ printed (scope place.now) (term t.now)) }
{
    match t {
        Term::Free(i) => out.push_str(place.variable(*i)),
        Term::Bound(i) => out.push_str(place.bound(*i)),
        Term::Zero => out.push_str("0"),
        Term::Succ(t) => {
            out.push_str("succ ")?;
            write_operand(out, place, ATOM, t.get())
        }
        Term::App(f, ts) => write_call(out, place, place.function(*f), ts.as_slice()),
    }
}

/// Writes a name at arguments: a sign stands between two.
#[cycle(write)]
#[tactic(auto, using(crate::proofs::Weights::table))]
pub fn write_call(
    out: &mut String,
    place: &Place<'_>,
    name: &str,
    ts: &[Term],
) -> Result<(), AllocError>
    ensures { OnOk result (string_bytes out.new ≡ string_bytes out.old ++ written (shape_of (at_arguments name.now (named_all (scope place.now) (args ts.now))))) }
{
    if ts.len() != 2 {
        return write_before(out, place, name, ts);
    }
    match sign_named(name) {
        None => write_before(out, place, name, ts),
        Some(sign) => {
            let [s, t] = ts else {
                unreachable!();
            };
            write_operand(out, place, sign.left_min(), s)?;
            write_sign(out, sign)?;
            write_operand(out, place, sign.right_min(), t)
        }
    }
}

/// Writes a name before arguments.
#[cycle(write)]
fn write_before(
    out: &mut String,
    place: &Place<'_>,
    name: &str,
    ts: &[Term],
) -> Result<(), AllocError>
    ensures { OnOk result (string_bytes out.new ≡ string_bytes out.old ++ (name.now ++ arguments_text (scope place.now) (args ts.now))) }
{
    out.push_str(name)?;
    write_arguments(out, place, ts)
}

/// Writes arguments, each behind a blank.
#[cycle(write)]
fn write_arguments(out: &mut String, place: &Place<'_>, ts: &[Term]) -> Result<(), AllocError>
    ensures { OnOk result (string_bytes out.new ≡ string_bytes out.old ++ arguments_text (scope place.now) (args ts.now)) }
{
    for t in ts {
        out.push_str(" ")?;
        write_operand(out, place, ATOM, t)?;
    }
    Ok(())
}

/// Writes a term as an operand, in parentheses where it is weaker than is wanted.
#[cycle(write)]
fn write_operand(out: &mut String, place: &Place<'_>, least: u8, t: &Term) -> Result<(), AllocError>
    requires { 0 < least }
    ensures { OnOk result (string_bytes out.new ≡ string_bytes out.old ++ operand_text least (shape_of (named (scope place.now) (term t.now)))) }
{
    if term_weight(place, t) < least {
        out.push_str("(")?;
        write_term(out, place, t)?;
        out.push_str(")")
    } else {
        write_term(out, place, t)
    }
}

/// Writes a sign between two terms.
#[tactic(auto, using(crate::proofs::Weights::table))]
pub fn write_joined(
    out: &mut String,
    place: &Place<'_>,
    sign: Op,
    s: &Term,
    t: &Term,
) -> Result<(), AllocError>
    ensures { OnOk result (string_bytes out.new ≡ string_bytes out.old ++ written (joined (op sign) (shape_of (named (scope place.now) (term s.now))) (shape_of (named (scope place.now) (term t.now))))) }
{
    write_operand(out, place, sign.left_min(), s)?;
    write_sign(out, sign)?;
    write_operand(out, place, sign.right_min(), t)
}

/// Writes a sign with a blank on each side.
pub fn write_sign(out: &mut String, sign: Op) -> Result<(), AllocError>
    ensures { OnOk result (string_bytes out.new ≡ string_bytes out.old ++ (codes " " ++ (op_text (op sign) ++ codes " "))) }
{
    out.push_str(" ")?;
    out.push_str(op_text(sign))?;
    out.push_str(" ")
}

/// How strong a term is as an operand.
fn term_weight(place: &Place<'_>, t: &Term) -> u8
    ensures { result ≡ weight (shape_of (named (scope place.now) (term t.now))) }
{
    match t {
        Term::Free(_) | Term::Bound(_) | Term::Zero => ATOM,
        Term::Succ(_) => APPLICATION,
        Term::App(f, ts) => call_weight(place, place.function(*f), ts.as_slice()),
    }
}

/// How strong a name at arguments is as an operand.
pub fn call_weight(place: &Place<'_>, name: &str, ts: &[Term]) -> u8
    ensures { result ≡ weight (shape_of (at_arguments name.now (named_all (scope place.now) (args ts.now)))) }
{
    if ts.is_empty() {
        return ATOM;
    }
    if ts.len() != 2 {
        return APPLICATION;
    }
    match sign_named(name) {
        Some(sign) => sign.level(),
        None => APPLICATION,
    }
}

/// The sign that a function or a predicate has for its name.
pub fn sign_named(name: &str) -> Option<Op>
    ensures { option_map op result ≡ option_map sign_of (sign_named name.now) }
{
    if name == "+" {
        Some(Op::Plus)
    } else if name == "*" {
        Some(Op::Times)
    } else if name == "^" {
        Some(Op::Power)
    } else if name == "≤" {
        Some(Op::LessEqual)
    } else if name == "<" {
        Some(Op::Less)
    } else {
        None
    }
}

/// The spelling of a sign.
pub fn op_text(sign: Op) -> &'static str
    ensures { result.now ≡ op_text (op sign) }
{
    match sign {
        Op::Implies => "→",
        Op::Or => "∨",
        Op::And => "∧",
        Op::Equal => "=",
        Op::NotEqual => "≠",
        Op::LessEqual => "≤",
        Op::Less => "<",
        Op::Plus => "+",
        Op::Times => "*",
        Op::Power => "^",
    }
}
