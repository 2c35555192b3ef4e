// Terms and formulas as texts.
ghost use Rattle.std.specs.Prelude.{◌≡◌, ◌<◌, ◌++◌, IfOk, OnOk, string_bytes};
ghost use Rattle.pg_arith.specs.View.{declarations};
ghost use Rattle.pg_terms.specs.View.{term, formula};
ghost use Rattle.pg_terms.specs.View as view;
ghost use Rattle.pg_grammar.specs.Printing.{shape_of, joined};
ghost use Rattle.pg_shape.specs.View.{op, quantifier};
ghost use Rattle.pg_logic.specs.Tree.{imp};
ghost use Rattle.pg_meaning.specs.Scope.{outermost};
ghost use Rattle.pg_spelling.specs.Named.{named_formula};
ghost use Rattle.pg_spelling.specs.Back.{CanReadFormula, CanReadTerm, ReadsBack, TermReadsBack};
ghost use Rattle.pg_spelling.specs.Written.{quantifier_text, written, printed, printed_formula};
ghost use Rattle.pg_syntax.specs.Places.{scope_under, weight, operand_text, is_falsum, Sides};
ghost use Rattle.pg_syntax.specs.Texts.{bound_text};
ghost use Rattle.pg_syntax.specs.ReadBack.{FormulaComesBack, TermComesBack};

use crate::fresh::Taken;
use crate::names::Names;
use crate::written::{
    Context, Place, call_weight, write_call, write_joined, write_sign, write_term,
};
use pg_arith::Signature;
use pg_shape::{ATOM, NEGATION, Op, Quantifier};
use pg_terms::{Formula, Name, Term};
use sqlite_items::Items;
use std::alloc::{AllocError, Global};

/// The text of a formula: its one printed spelling, with the names of variables by `names`, each
/// binder's name made fresh, and the least parentheses (docs/LOGIC.md, "Printing"). A number that
/// has no name is printed as nothing. It fails only for want of memory.
///
/// The shape of the text means the same formula again, its binders named as printed, where
///
/// - the formula fits and has live variables only;
/// - the live names differ from one another and from the declared names;
/// - each function, constant and predicate of the formula is named as a declaration may name it: by
///   a name, by a sign with two arguments (`+`, `*`, `^` for a function, `≤`, `<` for a predicate),
///   or by a number other than 0 for a constant;
/// - the names that a binder may not have and the nodes of the formula are fewer than 2^64.
///
/// The text itself reads back as that formula where besides each name is the text of a token, a
/// binder's printed name has at most 48 bytes, the text has at most 8,192 tokens, and none is nested
/// more than 100 deep: `tokens_of` gives its tokens and no fault, and `read_formula` reads them as
/// the formula.
pub fn print_formula(
    alloc: Global,
    formula: &Formula,
    names: &Names,
    sig: &Signature,
) -> Result<String, AllocError>
    ensures text { IfOk result (λ text. string_bytes text ≡ printed_formula (outermost names.now.vars.items (declarations sig.now)) (view.formula formula.now)) }
    ensures reads { IfOk result (λ text. CanReadFormula names.now.vars.items (declarations sig.now) (view.formula formula.now) → ReadsBack (outermost names.now.vars.items (declarations sig.now)) (view.formula formula.now)) }
    ensures again { IfOk result (λ text. FormulaComesBack names.now.vars.items (declarations sig.now) (view.formula formula.now) (string_bytes text)) }
{
    sig.declared_law();
    let cx = Context { names, sig };
    let p = Printer { alloc, cx: &cx };
    let mut out = String::new(alloc);
    let mut binders = Items::new(alloc);
    write_formula(&p, &mut out, &mut binders, formula)?;
    Ok(out)
}

/// The text of a term, as `print_formula` has it. Its shape means the same term again where the same
/// holds of the term; no number of nodes is asked. The text reads back as that term where besides each name is the
/// text of a token, and the text has at most 8,192 tokens, none of which is nested more than 100
/// deep.
pub fn print_term(
    alloc: Global,
    term: &Term,
    names: &Names,
    sig: &Signature,
) -> Result<String, AllocError>
    ensures text { IfOk result (λ text. string_bytes text ≡ printed (outermost names.now.vars.items (declarations sig.now)) (view.term term.now)) }
    ensures reads { IfOk result (λ text. CanReadTerm names.now.vars.items (declarations sig.now) (view.term term.now) → TermReadsBack (outermost names.now.vars.items (declarations sig.now)) (view.term term.now)) }
    ensures again { IfOk result (λ text. TermComesBack names.now.vars.items (declarations sig.now) (view.term term.now) (string_bytes text)) }
{
    sig.declared_law();
    let mut out = String::new(alloc);
    let place = Place {
        context: Context { names, sig },
        binders: &[],
    };
    write_term(&mut out, &place, term)?;
    Ok(out)
}

/// Where a formula is written: behind what is written, under the names of the binders around.
#[derive(Clone, Copy)]
struct Printer<'a> {
    alloc: Global,
    cx: &'a Context<'a>,
}

/// Writes a formula behind what is written.
#[cycle(write)]
fn write_formula(
    p: &Printer<'_>,
    out: &mut String,
    binders: &mut Items<Name>,
    a: &Formula,
) -> Result<(), AllocError>
    ensures text { OnOk result (string_bytes out.new ≡ string_bytes out.old ++ printed_formula (scope_under p.now.cx.now binders.old) (formula a.now)) }
    ensures kept { OnOk result (binders.new ≡ binders.old) }
{
    match a {
        Formula::Falsum => out.push_str("False"),
        Formula::Eq(s, t) => write_joined(out, &place(p.cx, binders), Op::Equal, s, t),
        Formula::Pred(n, ts) => {
            let at = place(p.cx, binders);
            write_call(out, &at, at.predicate(*n), ts.as_slice())
        }
        Formula::And(a, b) => write_both(p, out, binders, Op::And, a.get(), b.get()),
        Formula::Or(a, b) => write_both(p, out, binders, Op::Or, a.get(), b.get()),
        Formula::Imp(a, b) => write_implication(p, out, binders, a.get(), b.get()),
        Formula::All(x, a) => write_bound(p, out, binders, Quantifier::ForAll, x, a.get()),
        Formula::Ex(x, a) => write_bound(p, out, binders, Quantifier::Exists, x, a.get()),
    }
}

/// Writes a sign between two formulas.
#[cycle(write)]
#[tactic(auto, using(crate::proofs::Weights::table))]
fn write_both(
    p: &Printer<'_>,
    out: &mut String,
    binders: &mut Items<Name>,
    sign: Op,
    a: &Formula,
    b: &Formula,
) -> Result<(), AllocError>
    ensures text { OnOk result (string_bytes out.new ≡ string_bytes out.old ++ written (joined (op sign) (shape_of (named_formula (scope_under p.now.cx.now binders.old) (formula a.now))) (shape_of (named_formula (scope_under p.now.cx.now binders.old) (formula b.now))))) }
    ensures kept { OnOk result (binders.new ≡ binders.old) }
{
    write_operand(p, out, binders, sign.left_min(), a)?;
    write_sign(out, sign)?;
    write_operand(p, out, binders, sign.right_min(), b)
}

/// Writes a formula as an operand, in parentheses where it is weaker than is wanted.
#[cycle(write)]
fn write_operand(
    p: &Printer<'_>,
    out: &mut String,
    binders: &mut Items<Name>,
    least: u8,
    a: &Formula,
) -> Result<(), AllocError>
    requires { 0 < least }
    ensures text { OnOk result (string_bytes out.new ≡ string_bytes out.old ++ operand_text least (shape_of (named_formula (scope_under p.now.cx.now binders.old) (formula a.now)))) }
    ensures kept { OnOk result (binders.new ≡ binders.old) }
{
    if formula_weight(p.cx, binders, a) < least {
        out.push_str("(")?;
        write_formula(p, out, binders, a)?;
        out.push_str(")")
    } else {
        write_formula(p, out, binders, a)
    }
}

/// Writes an implication: one of `False` is an inequality or a negation.
#[cycle(write)]
fn write_implication(
    p: &Printer<'_>,
    out: &mut String,
    binders: &mut Items<Name>,
    a: &Formula,
    b: &Formula,
) -> Result<(), AllocError>
    ensures text { OnOk result (string_bytes out.new ≡ string_bytes out.old ++ printed_formula (scope_under p.now.cx.now binders.old) (imp (formula a.now) (formula b.now))) }
    ensures kept { OnOk result (binders.new ≡ binders.old) }
{
    if !is_falsum(b) {
        return write_both(p, out, binders, Op::Implies, a, b);
    }
    match sides(a) {
        Some((s, t)) => write_joined(out, &place(p.cx, binders), Op::NotEqual, s, t),
        None => {
            out.push_str("¬ ")?;
            write_operand(p, out, binders, NEGATION, a)
        }
    }
}

/// Writes a quantifier, its name made fresh, and its body.
#[cycle(write)]
fn write_bound(
    p: &Printer<'_>,
    out: &mut String,
    binders: &mut Items<Name>,
    q: Quantifier,
    x: &Name,
    a: &Formula,
) -> Result<(), AllocError>
    ensures text { OnOk result (string_bytes out.new ≡ string_bytes out.old ++ bound_text (scope_under p.now.cx.now binders.old) (quantifier q) x.now (formula a.now)) }
    ensures kept { OnOk result (binders.new ≡ binders.old) }
{
    let taken = Taken {
        binders: binders.as_slice(),
        vars: p.cx.names.vars.as_slice(),
        sig: p.cx.sig,
    };
    let name = taken.fresh(p.alloc, x)?;
    out.push_str(quantifier_text(q))?;
    out.push_str(" ")?;
    out.push_str(name.as_str())?;
    out.push_str(", ")?;
    binders.push(name)?;
    write_formula(p, out, binders, a)?;
    let _ = binders.pop();
    Ok(())
}

/// How strong a formula is as an operand.
fn formula_weight(cx: &Context<'_>, binders: &Items<Name>, a: &Formula) -> u8
    ensures { result ≡ weight (shape_of (named_formula (scope_under cx.now binders.now) (formula a.now))) }
{
    match a {
        Formula::Falsum => ATOM,
        Formula::Eq(_, _) => Op::Equal.level(),
        Formula::Pred(p, ts) => {
            let at = place(cx, binders);
            call_weight(&at, at.predicate(*p), ts.as_slice())
        }
        Formula::And(_, _) => Op::And.level(),
        Formula::Or(_, _) => Op::Or.level(),
        Formula::Imp(a, b) => implication_weight(a.get(), b.get()),
        Formula::All(_, _) | Formula::Ex(_, _) => 0,
    }
}

/// How strong an implication is as an operand.
fn implication_weight(a: &Formula, b: &Formula) -> u8
    ensures { (s : _) → result ≡ weight (shape_of (named_formula s (imp (formula a.now) (formula b.now)))) }
{
    if !is_falsum(b) {
        return Op::Implies.level();
    }
    match sides(a) {
        Some(_) => Op::NotEqual.level(),
        None => NEGATION,
    }
}

/// Whether a formula is `False`.
fn is_falsum(a: &Formula) -> bool
    ensures { result ≡ is_falsum (formula a.now) }
{
    matches!(a, Formula::Falsum)
}

/// The sides of an equation.
fn sides(a: &Formula) -> Option<(&Term, &Term)>
    ensures { Sides (formula a.now) result }
{
    match a {
        Formula::Eq(s, t) => Some((s, t)),
        _ => None,
    }
}

/// A quantifier's sign.
fn quantifier_text(q: Quantifier) -> &'static str
    ensures { result.now ≡ quantifier_text (quantifier q) }
{
    match q {
        Quantifier::ForAll => "∀",
        Quantifier::Exists => "∃",
    }
}

/// What a term is printed with under these binders.
fn place<'a>(cx: &Context<'a>, binders: &'a Items<Name>) -> Place<'a>
    ensures context { result.context ≡ cx.now }
    ensures binders { result.binders.now ≡ binders.now }
{
    Place {
        context: *cx,
        binders: binders.as_slice(),
    }
}
