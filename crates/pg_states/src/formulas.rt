// The formulas of a statement.
ghost use Rattle.std.specs.Prelude.{◌≡◌, ◌<◌, ◌^◌, length, All, [], Err};
ghost use Rattle.pg_states.specs.declared.formulas.StatementFault.TheVariants as its;
ghost use Rattle.pg_base.specs.Tokens.{Word};
ghost use Rattle.pg_base.specs.Spans.{IsTokenText};
ghost use Rattle.pg_script.specs.View.{words};
ghost use Rattle.pg_syntax.specs.View.{scope_of};
ghost use Rattle.pg_syntax.specs.Answers.{formula_answer};
ghost use Rattle.pg_states.specs.Statements.{Formulates};

use pg_arith::Signature;
use pg_base::Wanted;
use pg_faults::{Fault, Kind, LimitName};
use pg_forms::Span;
use pg_syntax::{Names, SyntaxFault, read_formula};
use pg_terms::Formula;
use std::alloc::{AllocError, Global};

/// Why a text is no statement.
#[derive(Clone, Copy, Debug, PartialEq, Eq)]
pub enum StatementFault {
    /// The first fault of its formulas.
    Fault(Fault),
    /// There is no memory for it.
    OutOfMemory,
}

impl From<AllocError> for StatementFault {
    ghost use Rattle.std.specs.Prelude.{◌≡◌};
    ghost use Rattle.pg_states.specs.declared.formulas.StatementFault.TheVariants as its;

    ghost from_gives = { λ _ e. e ≡ its.OutOfMemory };

    fn from(_: AllocError) -> Self {
        StatementFault::OutOfMemory
    }
}

/// The formula of these tokens, under these names.
#[tactic(auto, using(crate::proofs::Answering::expected))]
pub(crate) fn formula_at(
    alloc: Global,
    sig: &Signature,
    names: &Names,
    span: Span<'_, '_>,
) -> Result<Formula, StatementFault>
    requires room { length names.now.vars.items < 2 ^ 32 }
    requires texts { All (λ (w : Word). IsTokenText w.kind w.text) (words span.tokens.now) }
    ensures { Formulates (formula_answer (scope_of names.now sig.now []) span.entry.end (words span.entry.tokens.now)) result }
{
    match read_formula(alloc, span.tokens, span.end, names, sig) {
        Ok(a) => Ok(a),
        Err(SyntaxFault::Expected { at, what }) => fault_at(at, Kind::Expected(what)),
        Err(SyntaxFault::Unknown { at }) => fault_at(at, Kind::Unknown),
        Err(SyntaxFault::Arity { at, .. }) => fault_at(at, Kind::Expected(Wanted::SignOrEnd)),
        Err(SyntaxFault::Deep { at }) => fault_at(at, Kind::Limit(LimitName::Nesting, 101)),
        Err(SyntaxFault::Long { at }) => fault_at(at, Kind::Limit(LimitName::Tokens, 8193)),
        Err(SyntaxFault::OutOfMemory) => Err(StatementFault::OutOfMemory),
    }
}

fn fault_at(at: u32, kind: Kind) -> Result<Formula, StatementFault>
    ensures { result ≡ Err (its.Fault (record { at = at; kind = kind })) }
{
    Err(StatementFault::Fault(Fault { at, kind }))
}
