// Terms and formulas of tokens.
ghost use Rattle.std.specs.Prelude.{◌≡◌, ◌^◌, ◌<◌, true, [], All, length, map, IfOk};
ghost use Rattle.pg_base.specs.Tokens.{Word as Lexeme, word};
ghost use Rattle.pg_base.specs.Spans.{IsTokenText};
ghost use Rattle.pg_logic.specs.Signature.{fits, fits_term};
ghost use Rattle.pg_meaning.specs.Live.{is_live, is_live_formula};
ghost use Rattle.pg_terms.specs.View.{term as term_in, formula as formula_in};
ghost use Rattle.pg_shape.specs.View.{shape as shape_in};
ghost use Rattle.pg_shape.specs.Answers.{Gives as GivesShape, shape_answer};
ghost use Rattle.pg_arith.specs.View.{signature};
ghost use Rattle.pg_syntax.specs.View.{names as names_in, scope_of};
ghost use Rattle.pg_syntax.specs.Steps.{nodes, IsReadable};
ghost use Rattle.pg_syntax.specs.Answers.{Gives, IsMisshapen, term_answer, formula_answer, IsRightTerm, IsRightFormula};

use crate::fault::SyntaxFault;
use crate::formula::formula;
use crate::names::Names;
use crate::scope::Scope;
use crate::term::term;
use pg_arith::Signature;
use pg_base::Token;
use pg_shape::{Shape, ShapeFault, shape_of};
use pg_terms::{Formula, Term};
use sqlite_items::Items;
use std::alloc::Global;

/// The term that these tokens, whose end is the byte `end`, spell under these names and this signature.
/// Where they spell none it is the first fault: that of their shape as `shape_of` gives it, else that
/// of its meaning, a shape before its parts and parts from the left. Want of memory is `OutOfMemory`.
#[tactic(auto, using(crate::proofs::Answering::right_term, crate::proofs::Answering::fit_term))]
pub fn read_term(
    alloc: Global,
    tokens: &[Token<'_>],
    end: u32,
    names: &Names,
    sig: &Signature,
) -> Result<Term, SyntaxFault>
    requires vars { length names.now.vars.items < 2 ^ 32 }
    requires texts { All (λ (w : Lexeme). IsTokenText w.kind w.text) (map word tokens.now) }
    ensures reads { Gives term_in (term_answer (scope_of names.now sig.now []) end (map word tokens.now)) result }
    ensures right { IsRightTerm (scope_of names.now sig.now []) end (map word tokens.now) result }
    ensures fits { IfOk result (λ t. fits_term (signature sig.now).functions (length (names_in names.now)) 0 (term_in t) ≡ true) }
    ensures live { IfOk result (λ t. is_live (names_in names.now) (term_in t) ≡ true) }
{
    term_in_tokens(alloc, tokens, end, names, sig)
}

/// The term of the tokens, outside all binders.
fn term_in_tokens(
    alloc: Global,
    tokens: &[Token<'_>],
    end: u32,
    names: &Names,
    sig: &Signature,
) -> Result<Term, SyntaxFault>
    requires vars { length names.now.vars.items < 2 ^ 32 }
    requires texts { All (λ (w : Lexeme). IsTokenText w.kind w.text) (map word tokens.now) }
    ensures { Gives term_in (term_answer (scope_of names.now sig.now []) end (map word tokens.now)) result }
{
    let binders = Items::new(alloc);
    let scope = Scope {
        names,
        sig,
        binders: binders.as_slice(),
    };
    match shape_in_tokens(alloc, tokens, end) {
        Err(fault) => Err(misshapen(fault)),
        Ok(shape) => term(alloc, &scope, &shape, &shape),
    }
}

/// The formula that these tokens, whose end is the byte `end`, spell under these names and this
/// signature. Where they spell none it is the first fault: that of their shape as `shape_of` gives it,
/// else that of its meaning, a shape before its parts and parts from the left. Want of memory is
/// `OutOfMemory`.
#[tactic(auto, using(crate::proofs::Answering::right_formula, crate::proofs::Answering::fit_formula))]
pub fn read_formula(
    alloc: Global,
    tokens: &[Token<'_>],
    end: u32,
    names: &Names,
    sig: &Signature,
) -> Result<Formula, SyntaxFault>
    requires vars { length names.now.vars.items < 2 ^ 32 }
    requires texts { All (λ (w : Lexeme). IsTokenText w.kind w.text) (map word tokens.now) }
    ensures reads { Gives formula_in (formula_answer (scope_of names.now sig.now []) end (map word tokens.now)) result }
    ensures right { IsRightFormula (scope_of names.now sig.now []) end (map word tokens.now) result }
    ensures fits { IfOk result (λ a. fits (signature sig.now) (length (names_in names.now)) 0 (formula_in a) ≡ true) }
    ensures live { IfOk result (λ a. is_live_formula (names_in names.now) (formula_in a) ≡ true) }
{
    formula_in_tokens(alloc, tokens, end, names, sig)
}

/// The formula of the tokens, outside all binders.
fn formula_in_tokens(
    alloc: Global,
    tokens: &[Token<'_>],
    end: u32,
    names: &Names,
    sig: &Signature,
) -> Result<Formula, SyntaxFault>
    requires vars { length names.now.vars.items < 2 ^ 32 }
    requires texts { All (λ (w : Lexeme). IsTokenText w.kind w.text) (map word tokens.now) }
    ensures { Gives formula_in (formula_answer (scope_of names.now sig.now []) end (map word tokens.now)) result }
{
    let mut binders = Items::new(alloc);
    match shape_in_tokens(alloc, tokens, end) {
        Err(fault) => Err(misshapen(fault)),
        Ok(shape) => match formula(alloc, names, sig, &mut binders, &shape, &shape) {
            Err(fault) => Err(fault),
            Ok(a) => Ok(a.into_inner()),
        },
    }
}

/// The shape of tokens, with what is known of it.
#[tactic(auto, using(crate::proofs::Readable::readable, crate::proofs::Readable::small))]
fn shape_in_tokens<'a>(
    alloc: Global,
    tokens: &[Token<'a>],
    end: u32,
) -> Result<Shape<'a>, ShapeFault>
    requires { All (λ (w : Lexeme). IsTokenText w.kind w.text) (map word tokens.now) }
    ensures reads { GivesShape (shape_answer end (map word tokens.now)) result }
    ensures readable { IfOk result (λ s. IsReadable (shape_in s)) }
    ensures small { IfOk result (λ s. nodes (shape_in s) < 2 ^ 16) }
{
    shape_of(alloc, tokens, end)
}

/// The fault of a shape.
fn misshapen(fault: ShapeFault) -> SyntaxFault
    ensures { IsMisshapen fault result }
{
    match fault {
        ShapeFault::Expected { at, what } => SyntaxFault::Expected { at, what },
        ShapeFault::Deep { at } => SyntaxFault::Deep { at },
        ShapeFault::Long { at } => SyntaxFault::Long { at },
        ShapeFault::OutOfMemory => SyntaxFault::OutOfMemory,
    }
}
