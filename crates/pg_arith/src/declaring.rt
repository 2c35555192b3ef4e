//! Declarations of functions, constants and predicates.

ghost use Rattle.std.specs.Prelude.{◌≡◌, ◌<◌, [], ◌∷◌, None, length, vec_len, option_map, OnErr, IfOk, IfErr};
ghost use Rattle.std.specs.List.{list_any};
ghost use Rattle.std.specs.Str.{bytes_eq};
ghost use Rattle.pg_logic.specs.Declarations as logic;
ghost use Rattle.pg_terms.specs.View.{term, formula};
ghost use Rattle.pg_arith.specs.declared.declaring.DeclareFault.TheVariants.{OutOfMemory};
ghost use Rattle.pg_arith.specs.View.{function, predicate, functions, predicates, declarations};
ghost use Rattle.pg_arith.specs.Faults.{fault, IsFaultOf};

use crate::checks::{
    functions_bring, loose, loose_in, predicates_bring, undeclared, undeclared_in,
};
use crate::signature::{Constant, Function, Predicate, Recursion, Signature};
use pg_terms::{Formula, Name, Term};
use sqlite_items::{Boxed, Items};
use std::alloc::{AllocError, Global};
use thiserror::Error;

/// A function or a predicate has at most so many arguments.
const ARITY_LIMIT: u16 = 4;

/// Why a declaration is refused: the first of these causes that holds.
#[derive(Clone, Copy, Debug, PartialEq, Eq, Error)]
pub enum DeclareFault {
    /// A function, a predicate or an axiom has one of the new names, or two of these are equal.
    #[error("a name is taken")]
    NameTaken,
    /// A function or predicate of this number is not declared before, or has another arity.
    #[error("number {id} is not declared before, or has another arity")]
    UsesLater { id: u16 },
    /// There are more arguments than `ARITY_LIMIT`: `n`.
    #[error("an arity of {n} is over the limit of 4")]
    ArityOver { n: u16 },
    /// A free variable besides those named, or a bound one without a binder, has this number.
    #[error("variable {id} is loose")]
    LooseVariable { id: u32 },
    /// Memory ran out.
    #[error("out of memory")]
    OutOfMemory,
}

impl From<AllocError> for DeclareFault {
    ghost from_gives = { λ _ e. e ≡ OutOfMemory };

    fn from(_e: AllocError) -> DeclareFault {
        DeclareFault::OutOfMemory
    }
}

impl Signature {
    /// Declares a function by recursion on the last of its `arity` arguments, and gives its number.
    /// `params` are the names of its parameters. `base` is its value at zero, over `Free(0)` to
    /// `Free(arity - 2)`; `step` is its value at a successor, and has besides `Free(arity - 1)` for
    /// the predecessor and `Free(arity)` for the value there. `zero_name` and `succ_name` are the
    /// names of its two equations.
    ///
    /// It is refused by the first fault that holds, and for want of memory; then the signature is
    /// as before. A number in a fault is the first in preorder, the base before the step.
    pub fn declare_function(
        &mut self,
        alloc: Global,
        name: Name,
        arity: u16,
        params: Vec<Name>,
        base: Term,
        step: Term,
        zero_name: Name,
        succ_name: Name,
    ) -> Result<u16, DeclareFault>
        requires some { 0 < arity }
        requires named { vec_len params ≡ arity }
        requires room { length (declarations self.old).functions < 65535 }
        ensures ok { IfOk result (logic.AddsFunction (declarations self.old) (declarations self.new)
            (logic.by_recursion name arity params.items (term base) (term step) zero_name succ_name)) }
        ensures refused { IfErr result (IsFaultOf (logic.function_refusal (declarations self.old)
            (logic.by_recursion name arity params.items (term base) (term step) zero_name succ_name))) }
        ensures kept { OnErr result (self.new ≡ self.old) }
    {
        let (base, step) = boxed_pair(alloc, base, step)?;
        let recursion = Recursion {
            name,
            arity,
            params: Items::from_vec(params),
            base,
            step,
            zero_name,
            succ_name,
        };
        match self.recursion_refusal(&recursion) {
            Some(fault) => Err(fault),
            None => Ok(self.add_function(Function::Recursive(recursion))?),
        }
    }

    /// Declares a constant that is equal to the closed term `body`, and gives its number among the
    /// functions. `axiom_name` is the name of its equation.
    ///
    /// It is refused by the first fault that holds, and for want of memory; then the signature is
    /// as before.
    pub fn declare_constant(
        &mut self,
        alloc: Global,
        name: Name,
        body: Term,
        axiom_name: Name,
    ) -> Result<u16, DeclareFault>
        requires room { length (declarations self.old).functions < 65535 }
        ensures ok { IfOk result (logic.AddsFunction (declarations self.old) (declarations self.new)
            (logic.by_term name (term body) axiom_name)) }
        ensures refused { IfErr result (IsFaultOf (logic.function_refusal (declarations self.old)
            (logic.by_term name (term body) axiom_name))) }
        ensures kept { OnErr result (self.new ≡ self.old) }
    {
        let body = Boxed::new(alloc, body)?;
        let constant = Constant {
            name,
            body,
            equation_name: axiom_name,
        };
        match self.constant_refusal(&constant) {
            Some(fault) => Err(fault),
            None => Ok(self.add_function(Function::Constant(constant))?),
        }
    }

    /// Declares a predicate of `arity` arguments, and gives its number. `body` is what it says of
    /// them, over `Free(0)` to `Free(arity - 1)`.
    ///
    /// It is refused by the first fault that holds, and for want of memory; then the signature is
    /// as before.
    pub fn declare_predicate(
        &mut self,
        alloc: Global,
        name: Name,
        arity: u16,
        body: Formula,
    ) -> Result<u16, DeclareFault>
        requires room { length (declarations self.old).predicates < 65535 }
        ensures ok { IfOk result (logic.AddsPredicate (declarations self.old) (declarations self.new)
            (logic.next_predicate (declarations self.old) name arity (formula body))) }
        ensures refused { IfErr result (IsFaultOf (logic.predicate_refusal (declarations self.old)
            (logic.next_predicate (declarations self.old) name arity (formula body)))) }
        ensures kept { OnErr result (self.new ≡ self.old) }
    {
        let body = Boxed::new(alloc, body)?;
        let declared = Predicate {
            name,
            arity,
            functions_before: self.function_count(),
            body,
        };
        match self.predicate_refusal(&declared) {
            Some(fault) => Err(fault),
            None => Ok(self.add_predicate(declared)?),
        }
    }

    /// Why a function by recursion is refused.
    #[tactic(auto, using(crate::proofs::Lists::firsts))]
    fn recursion_refusal(&self, r: &Recursion) -> Option<DeclareFault>
        requires { 0 < r.now.arity }
        ensures { result ≡ option_map fault (logic.function_refusal (declarations self.now) (function (Function.Recursive r.now))) }
    {
        let taken = self.three_clash(r.name.as_str(), r.zero_name.as_str(), r.succ_name.as_str());
        let later = undeclared(self.functions(), r.base.get()).or(undeclared(
            self.functions(),
            r.step.get(),
        ));
        let astray = loose(u32::from(r.arity) - 1, 0, r.base.get()).or(loose(
            u32::from(r.arity) + 1,
            0,
            r.step.get(),
        ));
        refusal_by(taken, later, r.arity, astray)
    }

    /// Why a constant is refused.
    fn constant_refusal(&self, c: &Constant) -> Option<DeclareFault>
        ensures { result ≡ option_map fault (logic.function_refusal (declarations self.now) (function (Function.Constant c.now))) }
    {
        let taken = self.two_clash(c.name.as_str(), c.equation_name.as_str());
        let later = undeclared(self.functions(), c.body.get());
        refusal_by(taken, later, 0, loose(0, 0, c.body.get()))
    }

    /// Why a predicate is refused.
    fn predicate_refusal(&self, p: &Predicate) -> Option<DeclareFault>
        ensures { result ≡ option_map fault (logic.predicate_refusal (declarations self.now) (predicate p.now)) }
    {
        let taken = self.has_name(p.name.as_str());
        let later = undeclared_in(self.functions(), self.predicates(), p.body.get());
        refusal_by(
            taken,
            later,
            p.arity,
            loose_in(u32::from(p.arity), 0, p.body.get()),
        )
    }

    /// Whether one of three new names is taken, or two of them are equal.
    fn three_clash(&self, a: &str, b: &str, c: &str) -> bool
        ensures { result ≡ logic.clash (logic.names_of (declarations self.now)) (a.now ∷ b.now ∷ c.now ∷ []) }
    {
        a == b || a == c || self.has_name(a) || self.two_clash(b, c)
    }

    /// Whether one of two new names is taken, or they are equal.
    fn two_clash(&self, a: &str, b: &str) -> bool
        ensures { result ≡ logic.clash (logic.names_of (declarations self.now)) (a.now ∷ b.now ∷ []) }
    {
        a == b || self.has_name(a) || self.has_name(b)
    }

    /// Whether a function, a predicate or an axiom has this name.
    #[tactic(auto, using(crate::proofs::Lists::names))]
    fn has_name(&self, name: &str) -> bool
        ensures { result ≡ list_any (bytes_eq name.now) (logic.names_of (declarations self.now)) }
    {
        functions_bring(self.functions(), name)
            || predicates_bring(self.predicates(), name)
            || name == "succ_inj"
            || name == "zero_ne_succ"
    }

    /// Puts one more function at the end, which nothing refuses.
    fn add_function(&mut self, f: Function) -> Result<u16, AllocError>
        requires parameters { logic.HasParameters (function f) }
        requires room { length (declarations self.old).functions < 65535 }
        requires no_refusal { logic.function_refusal (declarations self.old) (function f) ≡ None }
        ensures ok { IfOk result (logic.AddsFunction (declarations self.old) (declarations self.new) (function f)) }
        ensures kept { OnErr result (self.new ≡ self.old) }
    {
        let id = self.function_count();
        self.functions.push(f)?;
        Ok(id)
    }

    /// Puts one more predicate at the end, which nothing refuses.
    fn add_predicate(&mut self, p: Predicate) -> Result<u16, AllocError>
        requires next { (predicate p).functions_before ≡ length (declarations self.old).functions }
        requires room { length (declarations self.old).predicates < 65535 }
        requires no_refusal { logic.predicate_refusal (declarations self.old) (predicate p) ≡ None }
        ensures ok { IfOk result (logic.AddsPredicate (declarations self.old) (declarations self.new) (predicate p)) }
        ensures kept { OnErr result (self.new ≡ self.old) }
    {
        let id = self.predicate_count();
        self.predicates.push(p)?;
        Ok(id)
    }
}

/// The first cause that holds: a name is taken, a number is used before it is declared, the arity
/// is over the limit, a variable is loose.
fn refusal_by(
    taken: bool,
    later: Option<u16>,
    arity: u16,
    astray: Option<u32>,
) -> Option<DeclareFault>
    ensures { result ≡ option_map fault (logic.refusal_by taken later arity astray) }
{
    if taken {
        return Some(DeclareFault::NameTaken);
    }
    if let Some(id) = later {
        return Some(DeclareFault::UsesLater { id });
    }
    if arity > ARITY_LIMIT {
        return Some(DeclareFault::ArityOver { n: arity });
    }
    match astray {
        None => None,
        Some(id) => Some(DeclareFault::LooseVariable { id }),
    }
}

/// Two terms, each in a box.
fn boxed_pair(alloc: Global, s: Term, t: Term) -> Result<(Boxed<Term>, Boxed<Term>), AllocError>
    ensures { IfOk result (λ p. (p.0 ≡ s) × (p.1 ≡ t)) }
{
    let s = Boxed::new(alloc, s)?;
    Ok((s, Boxed::new(alloc, t)?))
}
