// A name, a number or a sign at its arguments.
ghost use Rattle.std.specs.Prelude.{◌≡◌, ◌+◌, ◌^◌, ◌<◌, ℕ, Some, true, length, option_map, OnOk};
ghost use Rattle.std.specs.Option.{option_or};
ghost use Rattle.pg_logic.specs.Tree.{app, pred, none};
ghost use Rattle.pg_grammar.specs.Shapes.{can_apply};
ghost use Rattle.pg_meaning.specs.Scope as names;
ghost use Rattle.pg_meaning.specs.Faults as meaning;
ghost use Rattle.pg_meaning.specs.Meaning as trees;
ghost use Rattle.pg_terms.specs.View.{term};
ghost use Rattle.pg_arith.specs.View.{declarations};
ghost use Rattle.pg_shape.specs.View.{shape as shape_in, op as sign};
ghost use Rattle.pg_syntax.specs.View.{scope as scope_in, HasRoom};
ghost use Rattle.pg_syntax.specs.Steps.{Yields, head_term, head_formula, nodes, IsReadable};

use crate::fault::SyntaxFault;
use crate::place::beginning;
use crate::scope::{Scope, Thing, sign_text};
use pg_arith::Signature;
use pg_base::Wanted;
use pg_shape::{Op, Shape, Word};
use pg_terms::Term;
use sqlite_items::Items;
use std::alloc::Global;

/// The function that is applied here, at `count` arguments more. Its shape, with all arguments and
/// parentheses, is `whole`.
pub fn called_function(
    scope: &Scope<'_>,
    whole: &Shape<'_>,
    applied: &Shape<'_>,
    count: u16,
) -> Result<u16, SyntaxFault>
    requires room { HasRoom scope.now }
    requires readable { IsReadable (shape_in applied.now) }
    requires applies { can_apply (shape_in applied.now) ≡ true }
    requires more { 0 < count }
    requires small { count + nodes (shape_in applied.now) < 2 ^ 16 }
    ensures { Yields (λ (f : ℕ). app f none) (option_or (meaning.misfit meaning.TermSort (meaning.sort (scope_in scope.now) (shape_in applied.now)) (meaning.beginning (shape_in whole.now))) (meaning.head_fault (scope_in scope.now) count (shape_in applied.now))) (head_term (scope_in scope.now) (shape_in applied.now)) result }
{
    match applied {
        Shape::Named(x) => match scope.looked_up(x.text) {
            None => Err(SyntaxFault::Unknown { at: x.at }),
            Some(Thing::Function(f)) => counted(x.at, count, function_needs(scope.sig, f), f),
            Some(Thing::Predicate(_)) => Err(SyntaxFault::Expected {
                at: beginning(whole),
                what: Wanted::Term,
            }),
            Some(_) => Err(SyntaxFault::Arity {
                at: x.at,
                has: count,
                needs: 0,
            }),
        },
        Shape::Next(at, _) => Err(SyntaxFault::Arity {
            at: *at,
            has: count + 1,
            needs: 1,
        }),
        Shape::App(f, _) => called_function(scope, whole, f.get(), count + 1),
        _ => unreachable!(),
    }
}

/// The predicate that is applied here, at `count` arguments more. Its shape, with all arguments and
/// parentheses, is `whole`.
pub fn called_predicate(
    scope: &Scope<'_>,
    whole: &Shape<'_>,
    applied: &Shape<'_>,
    count: u16,
) -> Result<u16, SyntaxFault>
    requires room { HasRoom scope.now }
    requires readable { IsReadable (shape_in applied.now) }
    requires applies { can_apply (shape_in applied.now) ≡ true }
    requires small { count + nodes (shape_in applied.now) < 2 ^ 16 }
    ensures { Yields (λ (p : ℕ). pred p none) (option_or (meaning.misfit meaning.FormulaSort (meaning.sort (scope_in scope.now) (shape_in applied.now)) (meaning.beginning (shape_in whole.now))) (meaning.head_fault (scope_in scope.now) count (shape_in applied.now))) (head_formula (scope_in scope.now) (shape_in applied.now)) result }
{
    match applied {
        Shape::Named(x) => match scope.looked_up(x.text) {
            None => Err(SyntaxFault::Unknown { at: x.at }),
            Some(Thing::Predicate(p)) => counted(x.at, count, predicate_needs(scope.sig, p), p),
            Some(_) => Err(SyntaxFault::Expected {
                at: beginning(whole),
                what: Wanted::Formula,
            }),
        },
        Shape::App(f, _) => called_predicate(scope, whole, f.get(), count + 1),
        _ => Err(SyntaxFault::Expected {
            at: beginning(whole),
            what: Wanted::Formula,
        }),
    }
}

/// The function that the sign of an infix shape, at this byte, stands for. With its parentheses the
/// shape is `whole`.
pub fn infix_function(
    scope: &Scope<'_>,
    whole: &Shape<'_>,
    at: u32,
    op: Op,
) -> Result<u16, SyntaxFault>
    ensures is { Yields (λ (f : ℕ). Some f) (option_or (meaning.misfit meaning.TermSort (Some (meaning.sign_sort (sign op))) (meaning.beginning (shape_in whole.now))) (meaning.use_fault at 2 (names.sign_needs (scope_in scope.now) (sign op)))) (names.function_named (declarations scope.now.sig.now) (names.sign_text (sign op))) result }
    ensures operands { OnOk result (meaning.operand_sort (sign op) ≡ meaning.TermSort) }
{
    match op {
        Op::Plus => function_sign(scope, at, Op::Plus),
        Op::Times => function_sign(scope, at, Op::Times),
        Op::Power => function_sign(scope, at, Op::Power),
        _ => Err(SyntaxFault::Expected {
            at: beginning(whole),
            what: Wanted::Term,
        }),
    }
}

/// The function that a sign at this byte stands for.
fn function_sign(scope: &Scope<'_>, at: u32, op: Op) -> Result<u16, SyntaxFault>
    ensures { Yields (λ (f : ℕ). Some f) (meaning.use_fault at 2 (names.function_sign_needs (scope_in scope.now) (sign op))) (names.function_named (declarations scope.now.sig.now) (names.sign_text (sign op))) result }
{
    match scope.sig.function_named(sign_text(op)) {
        None => Err(SyntaxFault::Unknown { at }),
        Some(f) => counted(at, 2, function_needs(scope.sig, f), f),
    }
}

/// The predicate that a sign at this byte stands for.
pub fn predicate_sign(scope: &Scope<'_>, at: u32, op: Op) -> Result<u16, SyntaxFault>
    ensures { Yields (λ (p : ℕ). Some p) (meaning.use_fault at 2 (names.predicate_sign_needs (scope_in scope.now) (sign op))) (names.predicate_named (declarations scope.now.sig.now) (names.sign_text (sign op))) result }
{
    match scope.sig.predicate_named(sign_text(op)) {
        None => Err(SyntaxFault::Unknown { at }),
        Some(p) => counted(at, 2, predicate_needs(scope.sig, p), p),
    }
}

/// The term that a name without arguments means. With its parentheses it is `whole`.
pub fn named_term(
    alloc: Global,
    scope: &Scope<'_>,
    whole: &Shape<'_>,
    name: &Word<'_>,
) -> Result<Term, SyntaxFault>
    requires { HasRoom scope.now }
    ensures { Yields term (option_or (meaning.misfit meaning.TermSort (option_map meaning.thing_sort (names.looked_up (scope_in scope.now) name.now.text.now)) (meaning.beginning (shape_in whole.now))) (meaning.use_fault name.now.at 0 (names.name_needs (scope_in scope.now) name.now.text.now))) (trees.thing_term (names.looked_up (scope_in scope.now) name.now.text.now)) result }
{
    match scope.looked_up(name.text) {
        None => Err(SyntaxFault::Unknown { at: name.at }),
        Some(Thing::Binder(i)) => Ok(Term::Bound(i)),
        Some(Thing::Variable(i)) => Ok(Term::Free(i)),
        Some(Thing::Function(f)) => constant(alloc, scope, name.at, f),
        Some(Thing::Predicate(_)) => Err(SyntaxFault::Expected {
            at: beginning(whole),
            what: Wanted::Term,
        }),
    }
}

/// The term that a number means.
pub fn number_term(alloc: Global, scope: &Scope<'_>, number: &Word<'_>) -> Result<Term, SyntaxFault>
    ensures { Yields term (meaning.use_fault number.now.at 0 (names.number_needs (scope_in scope.now) number.now.text.now)) (trees.number_term (scope_in scope.now) number.now.text.now) result }
{
    if number.text == "0" {
        return Ok(Term::Zero);
    }
    match scope.sig.function_named(number.text) {
        None => Err(SyntaxFault::Unknown { at: number.at }),
        Some(f) => constant(alloc, scope, number.at, f),
    }
}

/// A function without arguments, which stands at this byte.
fn constant(alloc: Global, scope: &Scope<'_>, at: u32, f: u16) -> Result<Term, SyntaxFault>
    requires { f < length (declarations scope.now.sig.now).functions }
    ensures { Yields term (meaning.use_fault at 0 (Some (names.function_needs (declarations scope.now.sig.now) f))) (app f none) result }
{
    let f = counted(at, 0, function_needs(scope.sig, f), f)?;
    Ok(Term::App(f, Items::new(alloc)))
}

/// The number of what stands at this byte, if it has as many arguments as it needs.
fn counted(at: u32, has: u16, needs: u16, id: u16) -> Result<u16, SyntaxFault>
    ensures { Yields (λ (n : ℕ). n) (meaning.use_fault at has (Some needs)) id result }
{
    if has == needs {
        Ok(id)
    } else {
        Err(SyntaxFault::Arity { at, has, needs })
    }
}

/// How many arguments a function needs.
fn function_needs(sig: &Signature, f: u16) -> u16
    requires { f < length (declarations sig.now).functions }
    ensures { result ≡ names.function_needs (declarations sig.now) f }
{
    sig.function_arity(f)
}

/// How many arguments a predicate needs.
fn predicate_needs(sig: &Signature, p: u16) -> u16
    requires { p < length (declarations sig.now).predicates }
    ensures { result ≡ names.predicate_needs (declarations sig.now) p }
{
    sig.predicate_arity(p)
}
