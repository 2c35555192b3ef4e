ghost use Rattle.std.specs.Prelude.{◌≡◌, [], length, IfOk, codes};
ghost use Rattle.pg_logic.specs.Declarations.{AreDeclared};
ghost use Rattle.pg_arith.specs.View.{declarations, functions, predicates};

use pg_terms::{Formula, Name, Term};
use sqlite_items::{Boxed, Items};
use std::alloc::{AllocError, Global};
use std::marker::Model;

/// A function by primitive recursion on the last of its parameters.
#[derive(Drop)]
pub struct Recursion {
    /// The name of the function.
    pub name: Name,
    /// How many arguments it takes.
    pub arity: u16,
    /// The names of its parameters.
    pub params: Items<Name>,
    /// Its value at zero, over the other arguments.
    pub base: Boxed<Term>,
    /// Its value at a successor, over the other arguments, the predecessor and the value there.
    pub step: Boxed<Term>,
    /// The name of its equation at zero.
    pub zero_name: Name,
    /// The name of its equation at a successor.
    pub succ_name: Name,
}

/// A name for a closed term.
#[derive(Drop)]
pub struct Constant {
    /// The name of the constant.
    pub name: Name,
    /// The term that it is equal to.
    pub body: Boxed<Term>,
    /// The name of its equation.
    pub equation_name: Name,
}

/// A function or a constant.
#[derive(Drop)]
pub enum Function {
    /// A function of one or more arguments.
    Recursive(Recursion),
    /// A function of no arguments.
    Constant(Constant),
}

/// A predicate: its body is over its arguments as free variables.
#[derive(Drop)]
pub struct Predicate {
    /// The name of the predicate.
    pub name: Name,
    /// How many arguments it takes.
    pub arity: u16,
    /// How many functions and constants are declared before it: its body is over these.
    pub functions_before: u16,
    /// What it says of its arguments.
    pub body: Boxed<Formula>,
}

/// What is declared: functions and constants in one order, predicates in another. A contract sees
/// both lists; `declarations` of them is what they say, and `signature` the same without names.
#[derive(Drop)]
pub struct Signature {
    pub(crate) functions: Items<Function>,
    pub(crate) predicates: Items<Predicate>,
    pub(crate) succ_inj: Name,
    pub(crate) zero_ne_succ: Name,
}

impl Model for Signature {
    ghost use Rattle.std.specs.Prelude.{List};
    ghost use Rattle.pg_arith.specs.declared.signature.Function.{Function};
    ghost use Rattle.pg_arith.specs.declared.signature.Predicate.{Predicate};
    ghost use Rattle.std.specs.Coded.{codes};
    ghost use Rattle.pg_terms.specs.contracts.term.Term as t;
    ghost use Rattle.pg_terms.specs.contracts.formula.Formula as f;

    ghost Value = { List Function × List Predicate };

    ghost coded = { Prim.hlevel (codes, t.the_row.coded, f.the_row.coded) };

    ghost use Rattle.pg_arith.specs.View.{IsSignature};

    ghost view = { λ s. (s.functions, s.predicates) };

    ghost invariant = { λ s. IsSignature (s.functions, s.predicates) s.succ_inj s.zero_ne_succ };
}

impl Signature {
    /// The signature in which nothing is declared. It fails only for want of memory.
    pub fn new(alloc: Global) -> Result<Signature, AllocError>
        ensures { IfOk result (λ s. s ≡ ([], [])) }
    {
        Ok(Signature {
            functions: Items::new(alloc),
            predicates: Items::new(alloc),
            succ_inj: Name::new(alloc, "succ_inj")?,
            zero_ne_succ: Name::new(alloc, "zero_ne_succ")?,
        })
    }

    /// The law of what is declared, which a caller's proof can take from here: each declaration is
    /// over those before it, all names differ, no arity is over 4, each parameter has a name, and
    /// the numbers fit 16 bits. It does nothing.
    pub fn declared_law(&self)
        ensures { AreDeclared (declarations self.now) }
    {
        let _ = &self.functions;
    }

    /// The functions and constants, in order of declaration.
    pub(crate) fn functions(&self) -> &[Function]
        ensures { result.now ≡ self.now.0 }
    {
        self.functions.as_slice()
    }

    /// The predicates, in order of declaration.
    pub(crate) fn predicates(&self) -> &[Predicate]
        ensures { result.now ≡ self.now.1 }
    {
        self.predicates.as_slice()
    }

    /// How many functions and constants there are. Takes no memory.
    pub fn function_count(&self) -> u16
        ensures { result ≡ length (declarations self.now).functions }
    {
        self.functions.len() as u16
    }

    /// How many predicates there are. Takes no memory.
    pub fn predicate_count(&self) -> u16
        ensures { result ≡ length (declarations self.now).predicates }
    {
        self.predicates.len() as u16
    }
}
