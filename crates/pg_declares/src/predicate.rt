// Predicates.
ghost use Rattle.std.specs.Prelude.{◌≡◌, ◌≢◌, ◌<◌, ◌^◌, ◌≤◌, [], ◌∷◌, Some, true, length, IfOk, IfErr, OnErr};
ghost use Rattle.pg_base.specs.Tokens.{word};
ghost use Rattle.pg_logic.specs.Signature.{fits};
ghost use Rattle.pg_logic.specs.Declarations.{next_predicate, with_predicate, clash, names_of};
ghost use Rattle.pg_gametext.specs.Forms.{declared_text};
ghost use Rattle.pg_terms.specs.View.{formula as formula_in};
ghost use Rattle.pg_arith.specs.View.{signature, declarations};
ghost use Rattle.pg_script.specs.View.{words};
ghost use Rattle.pg_gametext.specs.Reading.{predicate_body};
ghost use Rattle.pg_gametext.specs.Checks.{predicate_body_faults};
ghost use Rattle.pg_forms.specs.View.{part};
ghost use Rattle.pg_declares.specs.Judged.{AreSpelled, AreNamed, Judges, IsTaken};

use crate::naming::{declared_name, why_undeclared};
use crate::reading::{beginning, formula_read, names_of};
use crate::sizes::formula_size_fault;
use crate::unread::{Undeclared, Unread};
use pg_arith::Signature;
use pg_base::Token;
use pg_forms::Span;
use pg_terms::Formula;
use std::alloc::Global;

/// What a predicate says of these parameters, where the command stands behind these declarations, or else the first
/// fault of that formula: of its tokens at their places, of its size at its first token
/// (docs/GAME-TEXT.md, "Declarations" and "Limits").
pub fn read_predicate(
    alloc: Global,
    sig: &Signature,
    params: &[Token<'_>],
    body: &Span<'_, '_>,
) -> Result<Formula, Unread>
    requires named { AreNamed (words params.now) }
    requires few { length params.now < 2 ^ 32 }
    requires texts { AreSpelled body.now }
    ensures judges { Judges formula_in (predicate_body_faults (declarations sig.now) (words params.now) (Some (part body.now))) (predicate_body (declarations sig.now) (words params.now) (Some (part body.now))) result }
    ensures fits { IfOk result (λ a. fits (signature sig.now) (length params.now) 0 (formula_in a) ≡ true) }
{
    let names = names_of(alloc, params)?;
    let formula = match formula_read(alloc, sig, &names, body) {
        Ok(formula) => formula,
        Err(why) => return Err(why),
    };
    match formula_size_fault(beginning(body), &formula) {
        Some(fault) => Err(Unread::Faulty(fault)),
        None => Ok(formula),
    }
}

/// Declares the predicate of this name and of so many parameters, which says of them what `read_predicate` gave behind
/// the same declarations. It is refused where the name is taken, and for want of memory; then the signature is as before.
pub fn declare_predicate(
    alloc: Global,
    sig: &mut Signature,
    name: &Token<'_>,
    arity: u16,
    body: Formula,
) -> Result<(), Undeclared>
    requires named { name.now.text.now ≢ [] }
    requires few { arity ≤ 4 }
    requires fits { fits (signature sig.old) arity 0 (formula_in body) ≡ true }
    requires room { length (declarations sig.old).predicates < 65535 }
    ensures ok { IfOk result (λ _. declarations sig.new ≡ with_predicate (declarations sig.old)
        (next_predicate (declarations sig.old) (declared_text (word name.now)) arity (formula_in body))) }
    ensures refused { IfErr result (IsTaken (clash (names_of (declarations sig.old)) (declared_text (word name.now) ∷ []))) }
    ensures kept { OnErr result (sig.new ≡ sig.old) }
{
    let own = declared_name(alloc, name)?;
    match sig.declare_predicate(alloc, own, arity, body) {
        Ok(_) => Ok(()),
        Err(fault) => Err(why_undeclared(fault)),
    }
}
