//! The axioms of a signature, in their order: two of the numbers, then the equations of the
//! functions in order of declaration.

ghost use Rattle.std.specs.Prelude.{◌≡◌, ◌≢◌, ℕ, ◌+◌, ◌-◌, ◌^◌, ◌<◌, ◌≤◌, [], ◌++◌, ◌∷◌, length, take, true, slice_get, option_map, Some, IfOk};
ghost use Rattle.pg_logic.specs.Axioms as logic;
ghost use Rattle.pg_logic.specs.Declarations.{HasParameters};
ghost use Rattle.pg_logic.specs.Signature.{fits};
ghost use Rattle.pg_logic.specs.Tree as tree;
ghost use Rattle.pg_logic.specs.Truth.{IsTrueOf};
ghost use Rattle.pg_terms.specs.View.{term, terms, formula};
ghost use Rattle.pg_arith.specs.View.{function, functions, declarations, signature};

use crate::signature::{Constant, Function, Recursion, Signature};
use pg_terms::{Formula, Name, Term};
use sqlite_items::{Boxed, Items};
use std::alloc::{AllocError, Global};

impl Signature {
    /// How many axioms there are: two of the numbers, two of each function and one of each
    /// constant. Takes no memory.
    pub fn axiom_count(&self) -> u32
        ensures { result ≡ length (logic.axioms (declarations self.now)) }
    {
        let _ = &self.functions;
        total_count(self.functions()) + 2
    }

    /// The name of the axiom of this number, which is below their count. Takes no memory.
    pub fn axiom_name(&self, id: u32) -> &Name
        requires { id < length (logic.axioms (declarations self.now)) }
        ensures { option_map (λ x. x.name) (slice_get (logic.axioms (declarations self.now)) id) ≡ Some result.now }
    {
        match id {
            0 => &self.succ_inj,
            1 => &self.zero_ne_succ,
            _ => {
                let place = place_of(self.functions.as_slice(), id - 2);
                equation_name(place.declared, place.part)
            }
        }
    }

    /// The axiom of this number, which is below their count. It has no free variable and is true.
    /// It fails only for want of memory.
    pub fn axiom(&self, alloc: Global, id: u32) -> Result<Formula, AllocError>
        requires { id < length (logic.axioms (declarations self.now)) }
        ensures closed { IfOk result (λ a. fits (signature self.now) 0 0 (formula a) ≡ true) }
        ensures truth { IfOk result (λ a. IsTrueOf (signature self.now) [] (formula a)) }
        ensures exact { IfOk result (λ a. option_map (λ x. x.says) (slice_get (logic.axioms (declarations self.now)) id) ≡ Some (formula a)) }
    {
        self.declared_law();
        Ok(self.axiom_of(alloc, id)?.into_inner())
    }

    /// The axiom of this number.
    fn axiom_of(&self, alloc: Global, id: u32) -> Result<Boxed<Formula>, AllocError>
        requires { id < length (logic.axioms (declarations self.now)) }
        ensures { IfOk result (λ a. option_map (λ x. x.says) (slice_get (logic.axioms (declarations self.now)) id) ≡ Some (formula a)) }
    {
        match id {
            0 => succ_inj(alloc),
            1 => zero_ne_succ(alloc),
            _ => self.equation(alloc, id - 2),
        }
    }

    /// The equation of this number, of all equations of functions in order.
    fn equation(&self, alloc: Global, at: u32) -> Result<Boxed<Formula>, AllocError>
        requires { at < length (logic.equations_from 0 (functions self.now.0)) }
        ensures { IfOk result (λ a. option_map (λ x. x.says) (slice_get (logic.equations_from 0 (functions self.now.0)) at) ≡ Some (formula a)) }
    {
        let place = place_of(self.functions.as_slice(), at);
        equation_of(alloc, place.number, place.declared, place.part)
    }
}

/// How many equations the functions have.
fn total_count(declared: &[Function]) -> u32
    requires { length declared.now < 2 ^ 16 }
    ensures value { result ≡ length (logic.equations_from 0 (functions declared.now)) }
    ensures bound { result < 2 ^ 17 }
{
    let mut total: u32 = 0;
    for f in declared {
        total += equation_count(f);
    }
    total
}

/// How many equations a function has.
fn equation_count(f: &Function) -> u32
    ensures { (k : ℕ) → result ≡ length (logic.equations k (function f.now)) }
{
    match f {
        Function::Recursive(_) => 2,
        Function::Constant(_) => 1,
    }
}

/// Where an equation stands: at place `part` among those of function `number`.
#[derive(Clone, Copy)]
struct Place<'a> {
    number: u16,
    declared: &'a Function,
    part: u32,
}

/// Where the equation of this number stands, of all equations in order.
fn place_of(declared: &[Function], at: u32) -> Place<'_>
    requires room { length declared.now < 2 ^ 16 }
    requires within { at < length (logic.equations_from 0 (functions declared.now)) }
    ensures function { slice_get (functions declared.now) result.number ≡ Some (function result.declared.now) }
    ensures part { result.part < length (logic.equations result.number (function result.declared.now)) }
    ensures equation { slice_get (logic.equations result.number (function result.declared.now)) result.part
        ≡ slice_get (logic.equations_from 0 (functions declared.now)) at }
{
    let mut number: u16 = 0;
    let mut left = at;
    for f in declared {
        let count = equation_count(f);
        if left < count {
            return Place {
                number,
                declared: f,
                part: left,
            };
        }
        left -= count;
        number += 1;
    }
    unreachable!()
}

/// The name of an equation of a function, by its place among these.
fn equation_name(f: &Function, part: u32) -> &Name
    requires { (k : ℕ) → part < length (logic.equations k (function f.now)) }
    ensures { (k : ℕ) → option_map (λ x. x.name) (slice_get (logic.equations k (function f.now)) part) ≡ Some result.now }
{
    match f {
        Function::Recursive(r) => {
            if part == 0 {
                &r.zero_name
            } else {
                &r.succ_name
            }
        }
        Function::Constant(c) => &c.equation_name,
    }
}

/// Equal successors are of equal numbers.
fn succ_inj(alloc: Global) -> Result<Boxed<Formula>, AllocError>
    ensures { IfOk result (λ a. formula a ≡ logic.succ_inj) }
{
    let body = succ_inj_body(alloc)?;
    let inner = for_all_named(alloc, "b", body)?;
    for_all_named(alloc, "a", inner)
}

/// `succ a = succ b → a = b`, where b is the innermost bound variable.
fn succ_inj_body(alloc: Global) -> Result<Boxed<Formula>, AllocError>
    ensures { IfOk result (λ a. formula a ≡ tree.imp (tree.eq (tree.succ (tree.bound 1)) (tree.succ (tree.bound 0))) (tree.eq (tree.bound 1) (tree.bound 0))) }
{
    let given = equation(alloc, succ_of(alloc, 1)?, succ_of(alloc, 0)?)?;
    let then = Boxed::new(alloc, Formula::Eq(Term::Bound(1), Term::Bound(0)))?;
    Boxed::new(alloc, Formula::Imp(given, then))
}

/// Zero is no successor.
fn zero_ne_succ(alloc: Global) -> Result<Boxed<Formula>, AllocError>
    ensures { IfOk result (λ a. formula a ≡ logic.zero_ne_succ) }
{
    let body = zero_ne_succ_body(alloc)?;
    for_all_named(alloc, "a", body)
}

/// `0 = succ a → ⊥`, where a is the innermost bound variable.
fn zero_ne_succ_body(alloc: Global) -> Result<Boxed<Formula>, AllocError>
    ensures { IfOk result (λ a. formula a ≡ tree.imp (tree.eq tree.nought (tree.succ (tree.bound 0))) tree.falsum) }
{
    let zero = Boxed::new(alloc, Term::Zero)?;
    let given = equation(alloc, zero, succ_of(alloc, 0)?)?;
    let falsum = Boxed::new(alloc, Formula::Falsum)?;
    Boxed::new(alloc, Formula::Imp(given, falsum))
}

/// An equation of function `k`, by its place among these.
fn equation_of(alloc: Global, k: u16, f: &Function, part: u32) -> Result<Boxed<Formula>, AllocError>
    requires part { part < length (logic.equations k (function f.now)) }
    requires parameters { HasParameters (function f.now) }
    ensures { IfOk result (λ a. option_map (λ x. x.says) (slice_get (logic.equations k (function f.now)) part) ≡ Some (formula a)) }
{
    match f {
        Function::Recursive(r) => {
            if part == 0 {
                zero_axiom(alloc, k, r)
            } else {
                succ_axiom(alloc, k, r)
            }
        }
        Function::Constant(c) => constant_axiom(alloc, k, c),
    }
}

/// The equation at zero of function `k`.
fn zero_axiom(alloc: Global, k: u16, r: &Recursion) -> Result<Boxed<Formula>, AllocError>
    requires some { 0 < r.now.arity }
    requires named { length r.now.params ≡ r.now.arity }
    ensures { IfOk result (λ a. formula a ≡ logic.zero_axiom k r.now.arity r.now.params (term r.now.base)) }
{
    let left = at_zero(alloc, k, r.arity)?;
    let right = base_over_binders(alloc, r)?;
    let before = r.arity - 1;
    let names = &r.params.as_slice()[..before as usize];
    quantified(alloc, names, equation(alloc, left, right)?)
}

/// The equation at a successor of function `k`.
fn succ_axiom(alloc: Global, k: u16, r: &Recursion) -> Result<Boxed<Formula>, AllocError>
    requires { 0 < r.now.arity }
    ensures { IfOk result (λ a. formula a ≡ logic.succ_axiom k r.now.arity r.now.params (term r.now.step)) }
{
    let left = at_succ(alloc, k, r.arity)?;
    let right = step_over_binders(alloc, k, r)?;
    quantified(alloc, r.params.as_slice(), equation(alloc, left, right)?)
}

/// The equation of constant `k`.
fn constant_axiom(alloc: Global, k: u16, c: &Constant) -> Result<Boxed<Formula>, AllocError>
    ensures { IfOk result (λ a. formula a ≡ logic.constant_axiom k (term c.now.body)) }
{
    let left = Boxed::new(alloc, Term::App(k, Items::new(alloc)))?;
    let right = Boxed::new(alloc, c.body.get().copied(alloc)?)?;
    equation(alloc, left, right)
}

/// Function `k` at the variables of `n - 1` binders and zero.
fn at_zero(alloc: Global, k: u16, n: u16) -> Result<Boxed<Term>, AllocError>
    requires { 0 < n }
    ensures { IfOk result (λ t. term t ≡ tree.app k (tree.args_of (logic.binders (n - 1) ++ tree.nought ∷ []))) }
{
    let mut arguments = binders(alloc, n - 1)?;
    arguments.push(Term::Zero)?;
    Boxed::new(alloc, Term::App(k, arguments))
}

/// Function `k` at the variables of `n` binders, with the successor of the innermost.
fn at_succ(alloc: Global, k: u16, n: u16) -> Result<Boxed<Term>, AllocError>
    requires { 0 < n }
    ensures { IfOk result (λ t. term t ≡ tree.app k (tree.args_of (take (n - 1) (logic.binders n) ++ tree.succ (tree.bound 0) ∷ []))) }
{
    let mut arguments = binders_but_last(alloc, n)?;
    arguments.push(Term::succ(alloc, Term::Bound(0))?)?;
    Boxed::new(alloc, Term::App(k, arguments))
}

/// The base of a recursion, over the variables of binders.
fn base_over_binders(alloc: Global, r: &Recursion) -> Result<Boxed<Term>, AllocError>
    requires { 0 < r.now.arity }
    ensures { IfOk result (λ t. term t ≡ tree.substituted (logic.binders (r.now.arity - 1)) (term r.now.base)) }
{
    let by = binders(alloc, r.arity - 1)?;
    Boxed::new(alloc, r.base.get().substituted(alloc, by.as_slice())?)
}

/// The step of a recursion, over the variables of binders and function `k` at them.
#[tactic(auto, using(crate::proofs::Lists::ends))]
fn step_over_binders(alloc: Global, k: u16, r: &Recursion) -> Result<Boxed<Term>, AllocError>
    ensures { IfOk result (λ t. term t ≡ tree.substituted
        (logic.binders r.now.arity ++ tree.app k (tree.args_of (logic.binders r.now.arity)) ∷ []) (term r.now.step)) }
{
    let mut by = binders(alloc, r.arity)?;
    by.push(Term::App(k, binders(alloc, r.arity)?))?;
    Boxed::new(alloc, r.step.get().substituted(alloc, by.as_slice())?)
}

/// The variables of `n` binders, the outermost first.
#[tactic(auto, using(crate::proofs::Lists::ends))]
fn binders(alloc: Global, n: u16) -> Result<Items<Term>, AllocError>
    ensures { IfOk result (λ ts. terms ts ≡ logic.binders n) }
{
    outer_binders(alloc, n, 0)
}

/// The variables of `n` binders, the outermost first, without the innermost.
fn binders_but_last(alloc: Global, n: u16) -> Result<Items<Term>, AllocError>
    requires { 0 < n }
    ensures { IfOk result (λ ts. terms ts ≡ take (n - 1) (logic.binders n)) }
{
    outer_binders(alloc, n, 1)
}

/// The variables of `n` binders, the outermost first, without the innermost `least`.
fn outer_binders(alloc: Global, n: u16, least: u16) -> Result<Items<Term>, AllocError>
    requires { least ≤ n }
    ensures { IfOk result (λ ts. terms ts ++ logic.binders least ≡ logic.binders n) }
{
    let mut variables = Items::new(alloc);
    let mut left = n;
    while left > least {
        left -= 1;
        variables.push(Term::Bound(u32::from(left)))?;
    }
    Ok(variables)
}

/// The successor of a bound variable.
fn succ_of(alloc: Global, i: u32) -> Result<Boxed<Term>, AllocError>
    ensures { IfOk result (λ t. term t ≡ tree.succ (tree.bound i)) }
{
    Boxed::new(alloc, Term::succ(alloc, Term::Bound(i))?)
}

/// The equation of two terms.
fn equation(
    alloc: Global,
    left: Boxed<Term>,
    right: Boxed<Term>,
) -> Result<Boxed<Formula>, AllocError>
    ensures { IfOk result (λ a. formula a ≡ tree.eq (term left) (term right)) }
{
    Boxed::new(alloc, Formula::Eq(left.into_inner(), right.into_inner()))
}

/// A formula under universal quantifiers with these names, the outermost first.
fn quantified(
    alloc: Global,
    names: &[Name],
    body: Boxed<Formula>,
) -> Result<Boxed<Formula>, AllocError>
    ensures { IfOk result (λ a. formula a ≡ logic.quantified names.now (formula body)) }
{
    match names {
        [] => Ok(body),
        [name, more @ ..] => {
            let name = name.copied(alloc)?;
            let a = quantified(alloc, more, body)?;
            for_all(alloc, name, a)
        }
    }
}

/// The universal formula of this body, with a binder of this name.
fn for_all_named(
    alloc: Global,
    name: &str,
    body: Boxed<Formula>,
) -> Result<Boxed<Formula>, AllocError>
    requires { name.now ≢ [] }
    ensures { IfOk result (λ a. formula a ≡ tree.all name.now (formula body)) }
{
    for_all(alloc, Name::new(alloc, name)?, body)
}

/// The universal formula of this body.
fn for_all(alloc: Global, name: Name, body: Boxed<Formula>) -> Result<Boxed<Formula>, AllocError>
    ensures { IfOk result (λ a. formula a ≡ tree.all name (formula body)) }
{
    Boxed::new(alloc, Formula::All(name, body))
}
