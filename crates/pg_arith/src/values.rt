//! The value of a term, step by step, within a limit and a budget of uses of defining equations.

ghost use Rattle.std.specs.Prelude.{◌≡◌, ◌+◌, ◌-◌, ◌^◌, ◌<◌, ◌≤◌, ℕ, [], ◌∷◌, ◌++◌, take, slice_index, Err, IfOk, OnOk, MatchOption, MatchResult};
ghost use Rattle.std.specs.List.{All};
ghost use Rattle.pg_logic.specs.Declarations.{function_of};
ghost use Rattle.pg_logic.specs.Valuing as runs;
ghost use Rattle.pg_logic.specs.Value.{value, functions_of};
ghost use Rattle.pg_logic.specs.Tree.{Tm};
ghost use Rattle.pg_terms.specs.View.{term};
ghost use Rattle.pg_arith.specs.declared.values.ValueFault.TheVariants.{OverBudget, OutOfMemory};
ghost use Rattle.pg_arith.specs.View.{function, plain_functions, signature};
ghost use Rattle.pg_arith.specs.Postfix.{postfix, run_step};
ghost use Rattle.pg_arith.specs.Outcomes.{Answers, Leaves, IsUndeclared, IsDeclaredAt};

use crate::postfix::{Step, flatten};
use crate::signature::{Function, Recursion, Signature};
use pg_terms::Term;
use sqlite_items::{Items, at};
use std::alloc::{AllocError, Global};
use thiserror::Error;

/// Why a term is given no value: what came first.
#[derive(Clone, Copy, Debug, PartialEq, Eq, Error)]
pub enum ValueFault {
    /// A value over the limit: `reached`.
    #[error("the value {reached} is over the limit")]
    OverLimit { reached: u64 },
    /// A use of a defining equation for which no budget was left.
    #[error("the budget is spent")]
    OverBudget,
    /// Memory ran out.
    #[error("out of memory")]
    OutOfMemory,
}

impl From<AllocError> for ValueFault {
    ghost from_gives = { λ _ e. e ≡ OutOfMemory };

    fn from(_e: AllocError) -> ValueFault {
        ValueFault::OutOfMemory
    }
}

impl Signature {
    /// The value of a term without variables, where it is reached within `limit`, which is below
    /// 2^64 - 1, by at most `budget` uses of defining equations. Arguments are valued from left to
    /// right; a function by recursion at n is valued at 0, 1 and so on up to n; each use of a
    /// defining equation counts one, before its right side is valued.
    ///
    /// It fails by what comes first: a value over the limit, a use over the budget, or want of
    /// memory. See "Values" in docs/LOGIC.md.
    pub fn value_of_closed(
        &self,
        alloc: Global,
        t: &Term,
        limit: u64,
        budget: u64,
    ) -> Result<u64, ValueFault>
        requires { limit < 2 ^ 64 - 1 }
        ensures truth { IfOk result (λ v. v ≡ value (functions_of (signature self.now).functions) [] [] (term t.now)) }
        ensures exact { Answers (runs.run (runs.runs_of limit (signature self.now).functions) limit [] (term t.now) budget) result }
    {
        let mut left = budget;
        value_of(alloc, self.functions(), limit, &[], t, &mut left)
    }
}

/// The value of a term whose free variables have the values `free`.
#[cycle(value_of)]
fn value_of(
    alloc: Global,
    functions: &[Function],
    limit: u64,
    free: &[u64],
    t: &Term,
    left: &mut u64,
) -> Result<u64, ValueFault>
    requires room { limit < 2 ^ 64 - 1 }
    requires within { All (λ v. v ≤ limit) free.now }
    ensures exact { Leaves (runs.run (runs.runs_of limit (plain_functions functions.now)) limit free.now (term t.now) left.old) result left.new }
    ensures small { IfOk result (λ v. v ≤ limit) }
{
    let mut steps = Items::new(alloc);
    flatten(&mut steps, t)?;
    value_by(alloc, functions, limit, free, steps.as_slice(), left)
}

/// The value of a term by its steps.
#[cycle(value_of)]
fn value_by(
    alloc: Global,
    functions: &[Function],
    limit: u64,
    free: &[u64],
    steps: &[Step],
    left: &mut u64,
) -> Result<u64, ValueFault>
    requires room { limit < 2 ^ 64 - 1 }
    requires within { All (λ v. v ≤ limit) free.now }
    ensures exact { (t : Tm) → steps.now ≡ postfix t → Leaves (runs.run (runs.runs_of limit (plain_functions functions.now)) limit free.now t left.old) result left.new }
    ensures small { IfOk result (λ v. v ≤ limit) }
{
    let mut values = Vec::new(alloc);
    for step in steps {
        take_step(alloc, functions, limit, free, *step, &mut values, left)?;
    }
    Ok(number_at(values.as_slice(), 0))
}

/// Takes one step, with the values so far.
#[cycle(value_of)]
fn take_step(
    alloc: Global,
    functions: &[Function],
    limit: u64,
    free: &[u64],
    step: Step,
    values: &mut Vec<u64>,
    left: &mut u64,
) -> Result<(), ValueFault>
    requires room { limit < 2 ^ 64 - 1 }
    requires within { All (λ v. v ≤ limit) free.now }
    requires small { All (λ v. v ≤ limit) values.old.items }
    ensures exact { MatchResult result
        (λ _. run_step (runs.runs_of limit (plain_functions functions.now)) limit free.now step values.old.items left.old ≡ runs.Got values.new.items left.new)
        (λ e. Answers (run_step (runs.runs_of limit (plain_functions functions.now)) limit free.now step values.old.items left.old) (Err e)) }
    ensures small { OnOk result (All (λ v. v ≤ limit) values.new.items) }
{
    match step {
        Step::Variable(i) => put(values, number_at(free, i as usize)),
        Step::Zero => put(values, 0),
        Step::AddOne => {
            let at = values.len().saturating_sub(1);
            let v = one_more(limit, number_at(values.as_slice(), at))?;
            put_from(values, at, v)
        }
        Step::Apply(f, n) => {
            let at = values.len().saturating_sub(n);
            let v = value_at(alloc, functions, limit, f, &values.as_slice()[at..], left)?;
            put_from(values, at, v)
        }
    }
}

/// The value of function `k` at its arguments.
#[cycle(value_of)]
fn value_at(
    alloc: Global,
    functions: &[Function],
    limit: u64,
    k: u16,
    arguments: &[u64],
    left: &mut u64,
) -> Result<u64, ValueFault>
    requires room { limit < 2 ^ 64 - 1 }
    requires within { All (λ v. v ≤ limit) arguments.now }
    ensures exact { Leaves (runs.runs_of limit (plain_functions functions.now) k arguments.now left.old) result left.new }
    ensures small { IfOk result (λ v. v ≤ limit) }
{
    match declaration_of(functions, k) {
        None => Ok(0),
        Some(Declared { before, function }) => match function {
            Function::Constant(c) => right_side(alloc, before, limit, &[], c.body.get(), left),
            Function::Recursive(r) => recursion(alloc, before, limit, r, arguments, left),
        },
    }
}

/// The value of a function by recursion at its arguments: at 0, 1 and so on up to the last of them.
#[cycle(value_of)]
fn recursion(
    alloc: Global,
    functions: &[Function],
    limit: u64,
    r: &Recursion,
    arguments: &[u64],
    left: &mut u64,
) -> Result<u64, ValueFault>
    requires room { limit < 2 ^ 64 - 1 }
    requires within { All (λ v. v ≤ limit) arguments.now }
    ensures exact { Leaves (runs.run_applied (runs.runs_of limit (plain_functions functions.now)) limit (function_of (function (Function.Recursive r.now))) arguments.now left.old) result left.new }
    ensures small { IfOk result (λ v. v ≤ limit) }
{
    let last = (r.arity as usize).saturating_sub(1);
    let front = front_of(arguments, last);
    let end = number_at(arguments, last);
    let mut v = right_side(alloc, functions, limit, front, r.base.get(), left)?;
    for m in 0..end {
        v = next_value(alloc, functions, limit, r.step.get(), front, m, v, left)?;
    }
    Ok(v)
}

/// The value of a recursion at `m + 1`, from its value `v` at `m`.
#[cycle(value_of)]
fn next_value(
    alloc: Global,
    functions: &[Function],
    limit: u64,
    step: &Term,
    front: &[u64],
    m: u64,
    v: u64,
    left: &mut u64,
) -> Result<u64, ValueFault>
    requires room { limit < 2 ^ 64 - 1 }
    requires within { All (λ v. v ≤ limit) front.now }
    requires predecessor { m ≤ limit }
    requires value { v ≤ limit }
    ensures exact { Leaves (runs.use_one left.old (runs.run (runs.runs_of limit (plain_functions functions.now)) limit (front.now ++ m ∷ v ∷ []) (term step.now))) result left.new }
    ensures small { IfOk result (λ v. v ≤ limit) }
{
    let free = step_variables(alloc, front, m, v)?;
    right_side(alloc, functions, limit, free.as_slice(), step, left)
}

/// One use of a defining equation: counts it, then values its right side.
#[cycle(value_of)]
fn right_side(
    alloc: Global,
    functions: &[Function],
    limit: u64,
    free: &[u64],
    t: &Term,
    left: &mut u64,
) -> Result<u64, ValueFault>
    requires room { limit < 2 ^ 64 - 1 }
    requires within { All (λ v. v ≤ limit) free.now }
    ensures exact { Leaves (runs.use_one left.old (runs.run (runs.runs_of limit (plain_functions functions.now)) limit free.now (term t.now))) result left.new }
    ensures small { IfOk result (λ v. v ≤ limit) }
{
    spend(left)?;
    value_of(alloc, functions, limit, free, t, left)
}

/// Counts one use of a defining equation.
fn spend(left: &mut u64) -> Result<(), ValueFault>
    ensures { MatchResult result (λ _. left.old ≡ left.new + 1) (λ e. (e ≡ OverBudget) × (left.old ≡ 0)) }
{
    if *left == 0 {
        return Err(ValueFault::OverBudget);
    }
    *left -= 1;
    Ok(())
}

/// The values of a step's variables: the arguments but the last, the predecessor, the value there.
fn step_variables(alloc: Global, front: &[u64], m: u64, v: u64) -> Result<Items<u64>, AllocError>
    ensures { IfOk result (λ vs. vs ≡ front.now ++ m ∷ v ∷ []) }
{
    let mut values = Items::from_slice(alloc, front)?;
    values.push(m)?;
    values.push(v)?;
    Ok(values)
}

/// The first `n` numbers, or all of them.
fn front_of(numbers: &[u64], n: usize) -> &[u64]
    ensures { result.now ≡ take n numbers.now }
{
    if n < numbers.len() {
        &numbers[..n]
    } else {
        numbers
    }
}

/// The number at a place, 0 past the end.
fn number_at(numbers: &[u64], at: usize) -> u64
    ensures value { result ≡ slice_index numbers.now at }
    ensures small { (limit : ℕ) → All (λ v. v ≤ limit) numbers.now → result ≤ limit }
{
    if at < numbers.len() { numbers[at] } else { 0 }
}

/// A function, and the functions declared before it.
#[derive(Clone, Copy)]
struct Declared<'a> {
    before: &'a [Function],
    function: &'a Function,
}

/// The function of this number.
fn declaration_of(functions: &[Function], k: u16) -> Option<Declared<'_>>
    ensures { MatchOption result
        (IsUndeclared (plain_functions functions.now) k)
        (λ d. IsDeclaredAt (plain_functions functions.now) k (plain_functions d.before.now) (function_of (function d.function.now))) }
{
    match at(functions, k as usize) {
        None => None,
        Some(function) => Some(Declared {
            before: &functions[..k as usize],
            function,
        }),
    }
}

/// Puts one more value at the end.
fn put(values: &mut Vec<u64>, v: u64) -> Result<(), ValueFault>
    ensures { MatchResult result (λ _. values.new.items ≡ values.old.items ++ v ∷ []) (λ e. e ≡ OutOfMemory) }
{
    match values.push(v) {
        Ok(()) => Ok(()),
        Err(_) => Err(ValueFault::OutOfMemory),
    }
}

/// Puts a value in the place of those from place `at` on.
fn put_from(values: &mut Vec<u64>, at: usize, v: u64) -> Result<(), ValueFault>
    ensures { MatchResult result (λ _. values.new.items ≡ take at values.old.items ++ v ∷ []) (λ e. e ≡ OutOfMemory) }
{
    values.truncate(at);
    put(values, v)
}

/// One more than a value, where that is within the limit.
fn one_more(limit: u64, v: u64) -> Result<u64, ValueFault>
    requires room { limit < 2 ^ 64 - 1 }
    requires small { v ≤ limit }
    ensures exact { (left : ℕ) → Leaves (runs.within limit (v + 1) left) result left }
    ensures small { IfOk result (λ v. v ≤ limit) }
{
    let next = v + 1;
    if next <= limit {
        Ok(next)
    } else {
        Err(ValueFault::OverLimit { reached: next })
    }
}
