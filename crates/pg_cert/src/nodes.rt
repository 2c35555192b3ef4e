// A rule's word with its fields.
ghost use Rattle.std.specs.Prelude.{◌≡◌, ◌++◌, OnOk, string_bytes};
ghost use Rattle.pg_kernel.specs.View.{proof};
ghost use Rattle.pg_terms.specs.View as view;
ghost use Rattle.pg_cert.specs.Certificates.{formula, term};
ghost use Rattle.pg_cert.specs.Open.{rule_text};

use crate::spelling::{write_formula, write_term};
use pg_kernel::Proof;
use pg_terms::{Formula, Term};
use std::alloc::AllocError;

/// Writes the word of a node's rule, and the rule's fields.
pub(crate) fn write_rule(out: &mut String, p: &Proof) -> Result<(), AllocError>
    ensures { OnOk result (string_bytes out.new ≡ string_bytes out.old ++ rule_text (proof p.now)) }
{
    match p {
        Proof::Hyp(i) => write!(out, "hyp {i}"),
        Proof::Thm(k) => write!(out, "thm {k}"),
        Proof::Andi(_, _) => out.push_str("andi"),
        Proof::Andl(b, _) => write_on(out, "andl", b),
        Proof::Andr(a, _) => write_on(out, "andr", a),
        Proof::Orl(_) => out.push_str("orl"),
        Proof::Orr(_) => out.push_str("orr"),
        Proof::Ore(a, b, _, _, _) => {
            write_on(out, "ore", a)?;
            write_on(out, "", b)
        }
        Proof::Impi(_) => out.push_str("impi"),
        Proof::Impe(a, _, _) => write_on(out, "impe", a),
        Proof::Fale(_) => out.push_str("fale"),
        Proof::Lem => out.push_str("lem"),
        Proof::Alli(_) => out.push_str("alli"),
        Proof::Alle(a, t, _) => write_at(out, "alle", a, t),
        Proof::Exi(t, _) => write_term_of(out, "exi", t),
        Proof::Exe(a, _, _) => write_on(out, "exe", a),
        Proof::Refl => out.push_str("refl"),
        Proof::Repl(a, s, t, _, _) => {
            write_at(out, "repl", a, s)?;
            write_term_of(out, "", t)
        }
        Proof::Ind(a, t, _, _) => write_at(out, "ind", a, t),
        Proof::Predi(_) => out.push_str("predi"),
        Proof::Prede(a, _) => write_on(out, "prede", a),
    }
}

/// Writes a word, and a formula behind a blank.
fn write_on(out: &mut String, word: &str, a: &Formula) -> Result<(), AllocError>
    ensures { OnOk result (string_bytes out.new ≡ string_bytes out.old ++ (word.now ++ formula (view.formula a.now))) }
{
    out.push_str(word)?;
    out.push_str(" ")?;
    write_formula(out, a)
}

/// Writes a word, and a term behind a blank.
fn write_term_of(out: &mut String, word: &str, t: &Term) -> Result<(), AllocError>
    ensures { OnOk result (string_bytes out.new ≡ string_bytes out.old ++ (word.now ++ term (view.term t.now))) }
{
    out.push_str(word)?;
    out.push_str(" ")?;
    write_term(out, t)
}

/// Writes a word, a formula and a term, each of these behind a blank.
fn write_at(out: &mut String, word: &str, a: &Formula, t: &Term) -> Result<(), AllocError>
    ensures { OnOk result (string_bytes out.new ≡ string_bytes out.old ++ (word.now ++ formula (view.formula a.now) ++ term (view.term t.now))) }
{
    write_on(out, word, a)?;
    write_term_of(out, "", t)
}
