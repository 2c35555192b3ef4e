// Statements.
ghost use Rattle.std.specs.Prelude.{◌≡◌, All, map, Some, None};
ghost use Rattle.pg_logic.specs.Tree.{Fm};
ghost use Rattle.pg_arith.specs.View.{declarations};
ghost use Rattle.pg_forms.specs.View.{statement as statement_text, part};
ghost use Rattle.pg_script.specs.View.{words};
ghost use Rattle.pg_syntax.specs.Answers.{Answer, Read};
ghost use Rattle.pg_terms.specs.View.{formula};
ghost use Rattle.pg_gametext.specs.Reading.{HalfRead, binder, formula_of_part};
ghost use Rattle.pg_faults.specs.View.{found, fault as fault_view, sooner};
ghost use Rattle.pg_states.specs.Drafts.{IsDraftOf};
ghost use Rattle.pg_states.specs.Statements.{AreTexts, IsReadable, IsReadableSpan, IsRead, IsReadWith, Tells, IsSized};

use crate::draft::{Draft, binders_read};
use crate::formulas::{StatementFault, formula_at};
use crate::sizes::size_fault;
use pg_arith::Signature;
use pg_faults::{Fault, earlier};
use pg_forms::{Span, StatementText};
use pg_syntax::{Binder, Statement};
use pg_terms::Formula;
use std::alloc::Global;

/// The statement that this text says under these declarations, whose command stands at the byte `at`; None where its
/// target is not there.
///
/// The fault is the first of its formulas, each under the variables before it, and of the size of its closed formula,
/// which stands at the command: over 4,096 nodes, or else over a height of 256. Its names are not looked at.
pub fn read_statement(
    alloc: Global,
    sig: &Signature,
    at: u32,
    text: &StatementText<'_, '_>,
) -> Result<Option<Statement>, StatementFault>
    requires binders { All IsReadable text.now.binders.items }
    requires target { IsReadableSpan text.now.target }
    ensures { IsRead (declarations sig.now) at (statement_text text.now) result }
{
    let Ok(draft) = binders_read(alloc, sig, text.binders.as_slice()) else {
        return Err(StatementFault::OutOfMemory);
    };
    match text.target {
        None => without_target(at, draft),
        Some(span) => with_target(alloc, sig, at, draft, span),
    }
}

/// The binders alone.
fn without_target(at: u32, draft: Draft) -> Result<Option<Statement>, StatementFault>
    ensures { (h : HalfRead) → IsDraftOf h draft → IsReadWith at h None result }
{
    match draft.first {
        Some(fault) => Err(StatementFault::Fault(fault)),
        None => Ok(None),
    }
}

/// The binders, and the target behind them.
fn with_target(
    alloc: Global,
    sig: &Signature,
    at: u32,
    draft: Draft,
    span: Span<'_, '_>,
) -> Result<Option<Statement>, StatementFault>
    requires { AreTexts (words span.tokens.now) }
    ensures { (h : HalfRead) → IsDraftOf h draft → IsReadWith at h (Some (formula_of_part h.vars (declarations sig.now) (part span.entry))) result }
{
    if draft.names.vars.len() > u32::MAX as usize {
        return Err(StatementFault::OutOfMemory);
    }
    match formula_at(alloc, sig, &draft.names, span) {
        Ok(target) => whole(at, draft, target),
        Err(StatementFault::Fault(fault)) => broken(draft.first, fault),
        Err(StatementFault::OutOfMemory) => Err(StatementFault::OutOfMemory),
    }
}

/// The first of the binders' fault and the target's.
fn broken(first: Option<Fault>, fault: Fault) -> Result<Option<Statement>, StatementFault>
    ensures { Tells (sooner (found first) (Some (fault_view fault))) result }
{
    match first {
        Some(before) => Err(StatementFault::Fault(earlier(before, Some(fault)))),
        None => Err(StatementFault::Fault(fault)),
    }
}

/// The binders, and the target that is read.
fn whole(at: u32, draft: Draft, target: Formula) -> Result<Option<Statement>, StatementFault>
    ensures { (h : HalfRead) → (a : Answer Fm) → IsDraftOf h draft → a ≡ Read (formula target) → IsReadWith at h (Some a) result }
{
    match draft.first {
        Some(fault) => Err(StatementFault::Fault(fault)),
        None => sized(at, draft.binders, target),
    }
}

/// The statement, if it isn't too large.
fn sized(
    at: u32,
    binders: Vec<Binder>,
    target: Formula,
) -> Result<Option<Statement>, StatementFault>
    ensures { IsSized at (record { binders = map binder binders.items; target = formula target }) result }
{
    match size_fault(at, binders.as_slice(), &target) {
        Ok(Some(fault)) => Err(StatementFault::Fault(fault)),
        Ok(None) => Ok(Some(Statement { binders, target })),
        Err(_) => Err(StatementFault::OutOfMemory),
    }
}
