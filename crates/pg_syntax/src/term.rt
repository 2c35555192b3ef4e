// The term that a shape means.
ghost use Rattle.std.specs.Prelude.{◌≡◌, ◌^◌, ◌<◌, true, IfOk};
ghost use Rattle.pg_logic.specs.Tree.{app};
ghost use Rattle.pg_grammar.specs.Shapes.{can_apply};
ghost use Rattle.pg_meaning.specs.Faults as meaning;
ghost use Rattle.pg_meaning.specs.Meaning as trees;
ghost use Rattle.pg_terms.specs.View.{term as term_in, args};
ghost use Rattle.pg_shape.specs.View.{shape as shape_in};
ghost use Rattle.pg_syntax.specs.View.{scope as scope_in, HasRoom};
ghost use Rattle.pg_syntax.specs.Steps.{Yields, fault_from, arguments, nodes, IsReadable};

use crate::application::{called_function, infix_function, named_term, number_term};
use crate::fault::SyntaxFault;
use crate::place::beginning;
use crate::scope::Scope;
use pg_base::Wanted;
use pg_shape::Shape;
use pg_terms::Term;
use sqlite_items::{Boxed, Items};
use std::alloc::{AllocError, Global};

/// The term that this shape means, or its first fault. With its parentheses it is `whole`. The
/// recursion is as deep as the shape's left operands and arguments are.
#[cycle(term)]
#[tactic(auto, using(crate::proofs::Calls::calls))]
pub fn term(
    alloc: Global,
    scope: &Scope<'_>,
    whole: &Shape<'_>,
    shape: &Shape<'_>,
) -> Result<Term, SyntaxFault>
    requires room { HasRoom scope.now }
    requires readable { IsReadable (shape_in shape.now) }
    requires small { nodes (shape_in shape.now) < 2 ^ 16 }
    ensures { Yields term_in (fault_from (scope_in scope.now) meaning.TermSort (meaning.beginning (shape_in whole.now)) (shape_in shape.now)) (trees.term_of (scope_in scope.now) (shape_in shape.now)) result }
{
    match shape {
        Shape::Named(x) => named_term(alloc, scope, whole, x),
        Shape::Numeral(n) => number_term(alloc, scope, n),
        Shape::Paren(_, s) => term(alloc, scope, whole, s.get()),
        Shape::Next(_, s) => {
            let t = term(alloc, scope, s.get(), s.get())?;
            Ok(Term::Succ(Boxed::new(alloc, t)?))
        }
        Shape::App(f, s) => {
            let id = called_function(scope, whole, f.get(), 1)?;
            let ts = arguments(alloc, scope, f.get())?;
            let t = term(alloc, scope, s.get(), s.get())?;
            Ok(Term::App(id, with_last(ts, t)?))
        }
        Shape::Binary(at, op, l, r) => {
            let id = infix_function(scope, whole, *at, *op)?;
            let left = term(alloc, scope, l.get(), l.get())?;
            let right = term(alloc, scope, r.get(), r.get())?;
            Ok(infix(alloc, id, left, right)?)
        }
        Shape::Falsum(_) | Shape::Neg(..) | Shape::Quant(..) => Err(SyntaxFault::Expected {
            at: beginning(whole),
            what: Wanted::Term,
        }),
    }
}

/// The arguments of an application, in order, or the first fault in them.
#[cycle(term)]
#[tactic(auto, using(crate::proofs::Calls::calls))]
pub fn arguments(
    alloc: Global,
    scope: &Scope<'_>,
    applied: &Shape<'_>,
) -> Result<Items<Term>, SyntaxFault>
    requires room { HasRoom scope.now }
    requires readable { IsReadable (shape_in applied.now) }
    requires applies { can_apply (shape_in applied.now) ≡ true }
    requires small { nodes (shape_in applied.now) < 2 ^ 16 }
    ensures { Yields args (meaning.parts_fault (scope_in scope.now) (shape_in applied.now)) (arguments (scope_in scope.now) (shape_in applied.now)) result }
{
    match applied {
        Shape::Next(_, s) => {
            let t = term(alloc, scope, s.get(), s.get())?;
            Ok(with_last(Items::new(alloc), t)?)
        }
        Shape::App(f, s) => {
            let ts = arguments(alloc, scope, f.get())?;
            let t = term(alloc, scope, s.get(), s.get())?;
            Ok(with_last(ts, t)?)
        }
        Shape::Named(_) => Ok(Items::new(alloc)),
        _ => unreachable!(),
    }
}

/// One argument more, the last.
#[tactic(auto, using(crate::proofs::Calls::calls))]
fn with_last(ts: Items<Term>, t: Term) -> Result<Items<Term>, AllocError>
    ensures { IfOk result (λ more. args more ≡ trees.with_last (args ts) (term_in t)) }
{
    let mut more = ts;
    more.push(t)?;
    Ok(more)
}

/// A function of two arguments at these.
fn infix(alloc: Global, f: u16, left: Term, right: Term) -> Result<Term, AllocError>
    ensures { IfOk result (λ t. term_in t ≡ app f (trees.two (term_in left) (term_in right))) }
{
    Ok(Term::App(f, pair(alloc, left, right)?))
}

/// Two arguments.
pub fn pair(alloc: Global, left: Term, right: Term) -> Result<Items<Term>, AllocError>
    ensures { IfOk result (λ ts. args ts ≡ trees.two (term_in left) (term_in right)) }
{
    let mut both = Items::new(alloc);
    both.push(left)?;
    both.push(right)?;
    Ok(both)
}
