//! What is declared under a number, and under which number a name is declared.

ghost use Rattle.std.specs.Prelude.{◌≡◌, ◌^◌, ◌<◌, length, slice_get, option_map, Some, position, IfOk};
ghost use Rattle.std.specs.Str.{bytes_eq};
ghost use Rattle.pg_logic.specs.Declarations.{name_of, arity_of};
ghost use Rattle.pg_terms.specs.View.{formula};
ghost use Rattle.pg_arith.specs.View.{function, functions, predicates, declarations};

use crate::signature::{Constant, Function, Predicate, Recursion, Signature};
use pg_terms::{Formula, Name, Term};
use sqlite_items::{Boxed, Items};
use std::alloc::{AllocError, Global};

#[tactic(auto, using(crate::proofs::Lists::reads))]
impl Signature {
    /// The name of the function of this number, which is below their count. Takes no memory.
    pub fn function_name(&self, id: u16) -> &Name
        requires { id < length (declarations self.now).functions }
        ensures { option_map name_of (slice_get (declarations self.now).functions id) ≡ Some result.now }
    {
        name_of(&self.functions()[id as usize])
    }

    /// How many arguments the function of this number takes, 0 for a constant. The number is below
    /// their count. Takes no memory.
    pub fn function_arity(&self, id: u16) -> u16
        requires { id < length (declarations self.now).functions }
        ensures { option_map arity_of (slice_get (declarations self.now).functions id) ≡ Some result }
    {
        arity_of(&self.functions()[id as usize])
    }

    /// The name of the predicate of this number, which is below their count. Takes no memory.
    pub fn predicate_name(&self, id: u16) -> &Name
        requires { id < length (declarations self.now).predicates }
        ensures { option_map (λ p. p.name) (slice_get (declarations self.now).predicates id) ≡ Some result.now }
    {
        &self.predicates()[id as usize].name
    }

    /// How many arguments the predicate of this number takes. The number is below their count.
    /// Takes no memory.
    pub fn predicate_arity(&self, id: u16) -> u16
        requires { id < length (declarations self.now).predicates }
        ensures { option_map (λ p. p.arity) (slice_get (declarations self.now).predicates id) ≡ Some result }
    {
        self.predicates()[id as usize].arity
    }

    /// What the predicate of this number says of its arguments, as free variables. The number is
    /// below their count. Takes no memory.
    pub fn predicate_body(&self, id: u16) -> &Formula
        requires { id < length (declarations self.now).predicates }
        ensures { option_map (λ p. p.body) (slice_get (declarations self.now).predicates id) ≡ Some (formula result.now) }
    {
        self.predicates()[id as usize].body.get()
    }

    /// The number of the function or constant of this name, where there is one. Takes no memory.
    pub fn function_named(&self, name: &str) -> Option<u16>
        ensures { result ≡ position (λ f. bytes_eq name.now (name_of f)) (declarations self.now).functions }
    {
        function_place(self.functions.as_slice(), name)
    }

    /// The number of the predicate of this name, where there is one. Takes no memory.
    pub fn predicate_named(&self, name: &str) -> Option<u16>
        ensures { result ≡ position (λ p. bytes_eq name.now p.name) (declarations self.now).predicates }
    {
        predicate_place(self.predicates.as_slice(), name)
    }
}

/// The name of a function.
fn name_of(declared: &Function) -> &Name
    ensures { result.now ≡ name_of (function declared.now) }
{
    match declared {
        Function::Recursive(r) => &r.name,
        Function::Constant(c) => &c.name,
    }
}

/// How many arguments a function takes.
fn arity_of(declared: &Function) -> u16
    ensures { result ≡ arity_of (function declared.now) }
{
    match declared {
        Function::Recursive(r) => r.arity,
        Function::Constant(_) => 0,
    }
}

/// The number of the first function of this name.
fn function_place(declared: &[Function], name: &str) -> Option<u16>
    requires { length declared.now < 2 ^ 16 }
    ensures { result ≡ position (λ f. bytes_eq name.now (name_of f)) (functions declared.now) }
{
    let mut number: u16 = 0;
    for f in declared {
        if name == name_of(f).as_str() {
            return Some(number);
        }
        number += 1;
    }
    None
}

/// The number of the first predicate of this name.
fn predicate_place(declared: &[Predicate], name: &str) -> Option<u16>
    requires { length declared.now < 2 ^ 16 }
    ensures { result ≡ position (λ p. bytes_eq name.now p.name) (predicates declared.now) }
{
    let mut number: u16 = 0;
    for p in declared {
        if name == p.name.as_str() {
            return Some(number);
        }
        number += 1;
    }
    None
}

impl Signature {
    /// An equal signature. It fails only for want of memory.
    pub fn copied(&self, alloc: Global) -> Result<Signature, AllocError>
        ensures { IfOk result (λ copy. copy ≡ self.now) }
    {
        Ok(Signature {
            functions: copied_functions(alloc, self.functions.as_slice())?,
            predicates: copied_predicates(alloc, self.predicates.as_slice())?,
            succ_inj: self.succ_inj.copied(alloc)?,
            zero_ne_succ: self.zero_ne_succ.copied(alloc)?,
        })
    }
}

/// Equal functions, in order.
fn copied_functions(alloc: Global, declared: &[Function]) -> Result<Items<Function>, AllocError>
    ensures { IfOk result (λ copies. copies ≡ declared.now) }
{
    let mut copies = Items::new(alloc);
    for f in declared {
        copies.push(match f {
            Function::Recursive(r) => Function::Recursive(copied_recursion(alloc, r)?),
            Function::Constant(c) => Function::Constant(copied_constant(alloc, c)?),
        })?;
    }
    Ok(copies)
}

/// An equal recursion.
fn copied_recursion(alloc: Global, r: &Recursion) -> Result<Recursion, AllocError>
    ensures { IfOk result (λ copy. copy ≡ r.now) }
{
    let base = copied_box(alloc, r.base.get())?;
    let step = copied_box(alloc, r.step.get())?;
    let params = copied_names(alloc, r.params.as_slice())?;
    Ok(Recursion {
        name: r.name.copied(alloc)?,
        arity: r.arity,
        params,
        base,
        step,
        zero_name: r.zero_name.copied(alloc)?,
        succ_name: r.succ_name.copied(alloc)?,
    })
}

/// An equal constant.
fn copied_constant(alloc: Global, c: &Constant) -> Result<Constant, AllocError>
    ensures { IfOk result (λ copy. copy ≡ c.now) }
{
    let body = copied_box(alloc, c.body.get())?;
    Ok(Constant {
        name: c.name.copied(alloc)?,
        body,
        equation_name: c.equation_name.copied(alloc)?,
    })
}

/// An equal term, in a box of its own.
fn copied_box(alloc: Global, t: &Term) -> Result<Boxed<Term>, AllocError>
    ensures { IfOk result (λ copy. copy ≡ t.now) }
{
    Boxed::new(alloc, t.copied(alloc)?)
}

/// Equal names, in order.
fn copied_names(alloc: Global, names: &[Name]) -> Result<Items<Name>, AllocError>
    ensures { IfOk result (λ copies. copies ≡ names.now) }
{
    let mut copies = Items::new(alloc);
    for name in names {
        copies.push(name.copied(alloc)?)?;
    }
    Ok(copies)
}

/// Equal predicates, in order.
fn copied_predicates(alloc: Global, declared: &[Predicate]) -> Result<Items<Predicate>, AllocError>
    ensures { IfOk result (λ copies. copies ≡ declared.now) }
{
    let mut copies = Items::new(alloc);
    for p in declared {
        let body = Boxed::new(alloc, p.body.get().copied(alloc)?)?;
        copies.push(Predicate {
            name: p.name.copied(alloc)?,
            arity: p.arity,
            functions_before: p.functions_before,
            body,
        })?;
    }
    Ok(copies)
}
