// Constants.
ghost use Rattle.std.specs.Prelude.{◌≡◌, ◌≢◌, ◌<◌, [], ◌∷◌, Some, true, length, IfOk, IfErr, OnErr};
ghost use Rattle.pg_base.specs.Tokens.{word};
ghost use Rattle.pg_logic.specs.Signature.{fits_term};
ghost use Rattle.pg_logic.specs.Declarations.{by_term, with_function, clash, names_of};
ghost use Rattle.pg_terms.specs.View.{term as term_in};
ghost use Rattle.pg_arith.specs.View.{signature, declarations};
ghost use Rattle.pg_gametext.specs.Forms.{declared_text};
ghost use Rattle.pg_gametext.specs.Reading.{constant_body};
ghost use Rattle.pg_gametext.specs.Checks.{constant_body_faults};
ghost use Rattle.pg_forms.specs.View.{part};
ghost use Rattle.pg_declares.specs.Judged.{AreSpelled, Judges, IsTaken};

use crate::naming::{declared_name, why_undeclared};
use crate::reading::term_read;
use crate::sizes::constant_size_fault;
use crate::unread::{Undeclared, Unread};
use pg_arith::Signature;
use pg_base::Token;
use pg_forms::Span;
use pg_syntax::Names;
use pg_terms::{Name, Term};
use std::alloc::{AllocError, Global};

/// The term that a constant is equal to, where the command stands at the byte `at` behind these declarations, or else
/// the first fault of the term: of its tokens at their places, of the size of the constant's axiom at `at`
/// (docs/GAME-TEXT.md, "Declarations" and "Limits").
pub fn read_constant(
    alloc: Global,
    sig: &Signature,
    at: u32,
    body: &Span<'_, '_>,
) -> Result<Term, Unread>
    requires texts { AreSpelled body.now }
    ensures judges { Judges term_in (constant_body_faults (declarations sig.now) at (Some (part body.now))) (constant_body (declarations sig.now) (Some (part body.now))) result }
    ensures fits { IfOk result (λ t. fits_term (signature sig.now).functions 0 0 (term_in t) ≡ true) }
{
    let none = Names {
        vars: Vec::new(alloc),
    };
    let term = match term_read(alloc, sig, &none, body) {
        Ok(term) => term,
        Err(why) => return Err(why),
    };
    match constant_size_fault(at, &term) {
        Some(fault) => Err(Unread::Faulty(fault)),
        None => Ok(term),
    }
}

/// Declares the constant of this name, which is equal to a term that `read_constant` gave behind the same declarations,
/// with the name of its equation. It is refused where a name is taken, and for want of memory; then the signature is as
/// before.
pub fn declare_constant(
    alloc: Global,
    sig: &mut Signature,
    name: &Token<'_>,
    body: Term,
    equation_name: &Token<'_>,
) -> Result<(), Undeclared>
    requires named { name.now.text.now ≢ [] }
    requires equation_named { equation_name.now.text.now ≢ [] }
    requires fits { fits_term (signature sig.old).functions 0 0 (term_in body) ≡ true }
    requires room { length (declarations sig.old).functions < 65535 }
    ensures ok { IfOk result (λ _. declarations sig.new ≡ with_function (declarations sig.old)
        (by_term (declared_text (word name.now)) (term_in body) (declared_text (word equation_name.now)))) }
    ensures refused { IfErr result (IsTaken (clash (names_of (declarations sig.old))
        (declared_text (word name.now) ∷ declared_text (word equation_name.now) ∷ []))) }
    ensures kept { OnErr result (sig.new ≡ sig.old) }
{
    let (own, equation) = names_in(alloc, name, equation_name)?;
    match sig.declare_constant(alloc, own, body, equation) {
        Ok(_) => Ok(()),
        Err(fault) => Err(why_undeclared(fault)),
    }
}

/// The names of a constant and of its equation.
fn names_in(
    alloc: Global,
    name: &Token<'_>,
    equation_name: &Token<'_>,
) -> Result<(Name, Name), AllocError>
    requires named { name.now.text.now ≢ [] }
    requires equation_named { equation_name.now.text.now ≢ [] }
    ensures { IfOk result (λ p. (p.0 ≡ declared_text (word name.now)) × (p.1 ≡ declared_text (word equation_name.now))) }
{
    let own = declared_name(alloc, name)?;
    Ok((own, declared_name(alloc, equation_name)?))
}
