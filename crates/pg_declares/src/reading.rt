// Terms and formulas of a game text.
ghost use Rattle.std.specs.Prelude.{◌≡◌, ◌^◌, ◌<◌, ◌≤◌, ◌*◌, true, List, Some, length, map, IfOk};
ghost use Rattle.pg_logic.specs.Tree.{nodes, nodes_of};
ghost use Rattle.pg_logic.specs.Signature.{fits, fits_term};
ghost use Rattle.pg_terms.specs.View.{term as term_in, formula as formula_in};
ghost use Rattle.pg_arith.specs.View.{signature, declarations};
ghost use Rattle.pg_script.specs.View.{words};
ghost use Rattle.pg_script.specs.Marks.{place};
ghost use Rattle.pg_logic.specs.Declarations.{Name as Text};
ghost use Rattle.pg_gametext.specs.Reading.{texts, term_of_part, formula_of_part};
ghost use Rattle.pg_forms.specs.View.{part};
ghost use Rattle.pg_declares.specs.Judged.{AreSpelled, AreNamed, Reads};

use crate::unread::{Unread, why_unread};
use pg_arith::Signature;
use pg_base::Token;
use pg_forms::Span;
use pg_syntax::{Names, read_formula, read_term};
use pg_terms::{Formula, Name, Term};
use std::alloc::{AllocError, Global};

/// The term that these tokens spell under these names and this signature.
#[tactic(auto, using(crate::proofs::Small::term_small))]
pub(crate) fn term_read(
    alloc: Global,
    sig: &Signature,
    names: &Names,
    span: &Span<'_, '_>,
) -> Result<Term, Unread>
    requires vars { length names.now.vars.items < 2 ^ 32 }
    requires texts { AreSpelled span.now }
    ensures reads { (vars : List Text) → names.now.vars.items ≡ map Some vars → Reads term_in (term_of_part vars (declarations sig.now) (part span.now)) result }
    ensures fits { IfOk result (λ t. fits_term (signature sig.now).functions (length names.now.vars.items) 0 (term_in t) ≡ true) }
    ensures small { IfOk result (λ t. nodes (term_in t) ≤ 8192) }
{
    match read_term(alloc, span.tokens, span.end, names, sig) {
        Ok(t) => Ok(t),
        Err(fault) => Err(why_unread(fault)),
    }
}

/// The formula that these tokens spell under these names and this signature.
#[tactic(auto, using(crate::proofs::Small::formula_small))]
pub(crate) fn formula_read(
    alloc: Global,
    sig: &Signature,
    names: &Names,
    span: &Span<'_, '_>,
) -> Result<Formula, Unread>
    requires vars { length names.now.vars.items < 2 ^ 32 }
    requires texts { AreSpelled span.now }
    ensures reads { (vars : List Text) → names.now.vars.items ≡ map Some vars → Reads formula_in (formula_of_part vars (declarations sig.now) (part span.now)) result }
    ensures fits { IfOk result (λ a. fits (signature sig.now) (length names.now.vars.items) 0 (formula_in a) ≡ true) }
    ensures small { IfOk result (λ a. nodes_of (formula_in a) ≤ 3 * 8192) }
{
    match read_formula(alloc, span.tokens, span.end, names, sig) {
        Ok(a) => Ok(a),
        Err(fault) => Err(why_unread(fault)),
    }
}

/// The names of the variables that these tokens are. It fails only for want of memory.
#[tactic(auto, using(crate::proofs::Named::named_token))]
pub(crate) fn names_of(alloc: Global, tokens: &[Token<'_>]) -> Result<Names, AllocError>
    requires { AreNamed (words tokens.now) }
    ensures { IfOk result (λ n. n.vars.items ≡ map Some (texts (words tokens.now))) }
{
    let mut vars = Vec::new(alloc);
    for token in tokens {
        vars.push(Some(Name::new(alloc, token.text)?))?;
    }
    Ok(Names { vars })
}

/// The byte at which these tokens begin, or their end where there are none.
pub(crate) fn beginning(span: &Span<'_, '_>) -> u32
    ensures { result ≡ place span.now.end (words span.now.tokens.now) }
{
    match span.tokens.first() {
        Some(token) => token.at,
        None => span.end,
    }
}
