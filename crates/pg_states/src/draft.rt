// A statement as far as it is read.
ghost use Rattle.std.specs.Prelude.{◌≡◌, ◌<◌, ◌++◌, ◌∷◌, [], All, List, OnOk, IfOk, length, map, Some, None};
ghost use Rattle.pg_base.specs.Tokens.{Word, word};
ghost use Rattle.pg_script.specs.View.{words};
ghost use Rattle.pg_arith.specs.View.{declarations};
ghost use Rattle.pg_forms.specs.View.{binder as binder_text, part};
ghost use Rattle.pg_gametext.specs.Forms as forms;
ghost use Rattle.pg_gametext.specs.Reading.{HalfRead, binders_read, with_formula, formula_of_part, texts, binder, var};
ghost use Rattle.pg_states.specs.Statements.{AreTexts, IsNamed, IsReadable};
ghost use Rattle.pg_states.specs.Drafts.{variables_of, AreLive, with_rest, IsDraftOf};

use crate::formulas::{StatementFault, formula_at};
use pg_arith::Signature;
use pg_base::Token;
use pg_faults::{Fault, sooner};
use pg_forms::{BinderText, Span};
use pg_syntax::{Binder, Names};
use pg_terms::Name;
use std::alloc::{AllocError, Global};

/// The binders that are read, the names of all variables so far, and the first fault so far.
#[derive(Drop)]
pub(crate) struct Draft {
    pub names: Names,
    pub binders: Vec<Binder>,
    pub first: Option<Fault>,
}

impl Draft {
    /// Nothing is read.
    pub(crate) fn new(alloc: Global) -> Draft
        ensures names { result.names.vars.items ≡ [] }
        ensures binders { result.binders.items ≡ [] }
        ensures first { result.first ≡ None }
    {
        Draft {
            names: Names {
                vars: Vec::new(alloc),
            },
            binders: Vec::new(alloc),
            first: None,
        }
    }

    /// One more variable.
    pub(crate) fn add_variable(
        &mut self,
        alloc: Global,
        token: &Token<'_>,
    ) -> Result<(), AllocError>
        requires { IsNamed token.now }
        ensures names { OnOk result (self.new.names.vars.items ≡ self.old.names.vars.items ++ Some (word token.now).text ∷ []) }
        ensures binders { OnOk result (map binder self.new.binders.items ≡ map binder self.old.binders.items ++ var (word token.now).text ∷ []) }
        ensures first { OnOk result (self.new.first ≡ self.old.first) }
    {
        let name = Name::new(alloc, token.text)?;
        let bound = Name::new(alloc, token.text)?;
        self.names.vars.push(Some(name))?;
        self.binders.push(Binder::Var(bound))?;
        Ok(())
    }

    /// More variables.
    pub(crate) fn add_variables(
        &mut self,
        alloc: Global,
        tokens: &[Token<'_>],
    ) -> Result<(), AllocError>
        requires { All IsNamed tokens.now }
        ensures names { OnOk result (self.new.names.vars.items ≡ self.old.names.vars.items ++ map Some (texts (words tokens.now))) }
        ensures binders { OnOk result (map binder self.new.binders.items ≡ map binder self.old.binders.items ++ map (λ (w : Word). var w.text) (words tokens.now)) }
        ensures first { OnOk result (self.new.first ≡ self.old.first) }
    {
        for token in tokens {
            self.add_variable(alloc, token)?;
        }
        Ok(())
    }

    /// One more hypothesis, under the variables so far.
    pub(crate) fn add_hypothesis(
        &mut self,
        alloc: Global,
        sig: &Signature,
        token: &Token<'_>,
        span: Span<'_, '_>,
    ) -> Result<(), StatementFault>
        requires name { IsNamed token.now }
        requires texts { AreTexts (words span.tokens.now) }
        ensures names { OnOk result (self.new.names.vars.items ≡ self.old.names.vars.items) }
        ensures known { OnOk result (AreLive self.old → (rest : HalfRead) → with_rest self.new rest ≡ with_rest self.old (with_formula (word token.now).text (variables_of self.old) (formula_of_part (variables_of self.old) (declarations sig.now) (part span.entry)) rest)) }
    {
        if self.names.vars.len() > u32::MAX as usize {
            return Err(StatementFault::OutOfMemory);
        }
        let name = Name::new(alloc, token.text)?;
        match formula_at(alloc, sig, &self.names, span) {
            Ok(a) => match self.binders.push(Binder::Hyp(name, a)) {
                Ok(()) => Ok(()),
                Err(_) => Err(StatementFault::OutOfMemory),
            },
            Err(StatementFault::Fault(fault)) => {
                self.first = sooner(self.first, Some(fault));
                Ok(())
            }
            Err(StatementFault::OutOfMemory) => Err(StatementFault::OutOfMemory),
        }
    }

    /// One more binder.
    pub(crate) fn add(
        &mut self,
        alloc: Global,
        sig: &Signature,
        binder: &BinderText<'_, '_>,
    ) -> Result<(), StatementFault>
        requires { IsReadable binder.now }
        ensures live { OnOk result (AreLive self.old → AreLive self.new) }
        ensures known { OnOk result (AreLive self.old → (more : List forms.BinderText) → with_rest self.new (binders_read (declarations sig.now) (variables_of self.new) more) ≡ with_rest self.old (binders_read (declarations sig.now) (variables_of self.old) (binder_text binder.now ∷ more))) }
    {
        match binder {
            BinderText::Variables(tokens) => Ok(self.add_variables(alloc, tokens)?),
            BinderText::Hypothesis(name, span) => self.add_hypothesis(alloc, sig, name, *span),
        }
    }
}

/// These binders.
pub(crate) fn binders_read(
    alloc: Global,
    sig: &Signature,
    binders: &[BinderText<'_, '_>],
) -> Result<Draft, StatementFault>
    requires { All IsReadable binders.now }
    ensures { IfOk result (λ s. IsDraftOf (binders_read (declarations sig.now) [] (map binder_text binders.now)) s) }
{
    let mut draft = Draft::new(alloc);
    for binder in binders {
        draft.add(alloc, sig, binder)?;
    }
    Ok(draft)
}
