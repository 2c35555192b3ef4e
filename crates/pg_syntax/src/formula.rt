// The formula that a shape means.
ghost use Rattle.std.specs.Prelude.{◌≡◌, ◌+◌, ◌^◌, ◌<◌, ◌≤◌, true, length, drop, take, IfOk, OnOk, if◌then◌else◌};
ghost use Rattle.std.specs.Option.{option_or};
ghost use Rattle.pg_logic.specs.Tree.{eq};
ghost use Rattle.pg_grammar.specs.Shapes as grammar;
ghost use Rattle.pg_meaning.specs.Scope as names_in;
ghost use Rattle.pg_meaning.specs.Faults as meaning;
ghost use Rattle.pg_meaning.specs.Meaning as trees;
ghost use Rattle.pg_terms.specs.View.{formula as formula_in};
ghost use Rattle.pg_shape.specs.View.{shape as shape_in, op as sign, quantifier};
ghost use Rattle.pg_syntax.specs.View.{scope as scope_in, scope_of, HasRoom};
ghost use Rattle.pg_syntax.specs.Steps.{Yields, fault_from, joined, bound_names, nodes, IsReadable};

use crate::application::{called_predicate, predicate_sign};
use crate::binders::push_names;
use crate::fault::SyntaxFault;
use crate::names::Names;
use crate::place::beginning;
use crate::scope::Scope;
use crate::term::{arguments, pair, term};
use pg_arith::Signature;
use pg_base::Wanted;
use pg_shape::{Op, Quantifier, Shape};
use pg_terms::{Formula, Name};
use sqlite_items::{Boxed, Items};
use std::alloc::{AllocError, Global};

/// The formula that this shape means under these binders, the outermost first, or its first fault.
/// With its parentheses it is `whole`.
pub fn formula(
    alloc: Global,
    names: &Names,
    sig: &Signature,
    binders: &mut Items<Name>,
    whole: &Shape<'_>,
    shape: &Shape<'_>,
) -> Result<Boxed<Formula>, SyntaxFault>
    requires vars { length names.now.vars.items < 2 ^ 32 }
    requires readable { IsReadable (shape_in shape.now) }
    requires small { length binders.old + nodes (shape_in shape.now) < 2 ^ 16 }
    ensures is { Yields formula_in (fault_from (scope_of names.now sig.now binders.old) meaning.FormulaSort (meaning.beginning (shape_in whole.now)) (shape_in shape.now)) (trees.formula_of (scope_of names.now sig.now binders.old) (shape_in shape.now)) result }
    ensures left { OnOk result (binders.new ≡ binders.old) }
{
    match shape {
        Shape::Named(_) | Shape::App(..) | Shape::Next(..) => {
            let scope = Scope {
                names,
                sig,
                binders: binders.as_slice(),
            };
            predicate(alloc, &scope, whole, shape)
        }
        Shape::Falsum(_) => Ok(Boxed::new(alloc, Formula::Falsum)?),
        Shape::Paren(_, s) => formula(alloc, names, sig, binders, whole, s.get()),
        Shape::Neg(_, s) => {
            let a = formula(alloc, names, sig, binders, s.get(), s.get())?;
            Ok(denied(alloc, a)?)
        }
        Shape::Quant(_, q, bound_here, s) => {
            let outer = binders.len();
            push_names(alloc, binders, bound_here)?;
            let a = formula(alloc, names, sig, binders, s.get(), s.get())?;
            Ok(bound(alloc, binders, outer, *q, a)?)
        }
        Shape::Binary(at, op, l, r) => {
            if is_connective(*op) {
                let a = formula(alloc, names, sig, binders, l.get(), l.get())?;
                let b = formula(alloc, names, sig, binders, r.get(), r.get())?;
                return Ok(connected(alloc, *op, a, b)?);
            }
            let scope = Scope {
                names,
                sig,
                binders: binders.as_slice(),
            };
            relation(alloc, &scope, whole, *at, *op, l.get(), r.get())
        }
        Shape::Numeral(_) => Err(SyntaxFault::Expected {
            at: beginning(whole),
            what: Wanted::Formula,
        }),
    }
}

/// The formula that a predicate's name with its arguments means. With its parentheses it is `whole`.
fn predicate(
    alloc: Global,
    scope: &Scope<'_>,
    whole: &Shape<'_>,
    shape: &Shape<'_>,
) -> Result<Boxed<Formula>, SyntaxFault>
    requires room { HasRoom scope.now }
    requires readable { IsReadable (shape_in shape.now) }
    requires applies { grammar.can_apply (shape_in shape.now) ≡ true }
    requires small { nodes (shape_in shape.now) < 2 ^ 16 }
    ensures { Yields formula_in (fault_from (scope_in scope.now) meaning.FormulaSort (meaning.beginning (shape_in whole.now)) (shape_in shape.now)) (trees.formula_of (scope_in scope.now) (shape_in shape.now)) result }
{
    let id = called_predicate(scope, whole, shape, 0)?;
    let ts = arguments(alloc, scope, shape)?;
    Ok(Boxed::new(alloc, Formula::Pred(id, ts))?)
}

/// The denial of a formula: `A → False`.
fn denied(alloc: Global, a: Boxed<Formula>) -> Result<Boxed<Formula>, AllocError>
    ensures { IfOk result (λ r. formula_in r ≡ trees.denied (formula_in a)) }
{
    let falsum = Boxed::new(alloc, Formula::Falsum)?;
    Boxed::new(alloc, Formula::Imp(a, falsum))
}

/// The formula under the binders behind the first `outer`, which are taken off.
fn bound(
    alloc: Global,
    binders: &mut Items<Name>,
    outer: usize,
    q: Quantifier,
    body: Boxed<Formula>,
) -> Result<Boxed<Formula>, AllocError>
    requires { outer ≤ length binders.old }
    ensures is { IfOk result (λ r. formula_in r ≡ bound_names (quantifier q) (drop outer binders.old) (formula_in body)) }
    ensures left { OnOk result (binders.new ≡ take outer binders.old) }
{
    let mut a = body;
    'names: while binders.len() > outer {
        match binders.pop() {
            Some(name) => a = quantified(alloc, q, name, a)?,
            None => return Ok(a),
        }
    }
    Ok(a)
}

/// A quantified formula.
fn quantified(
    alloc: Global,
    q: Quantifier,
    name: Name,
    a: Boxed<Formula>,
) -> Result<Boxed<Formula>, AllocError>
    ensures { IfOk result (λ r. formula_in r ≡ trees.quantified (quantifier q) name (formula_in a)) }
{
    match q {
        Quantifier::ForAll => Boxed::new(alloc, Formula::All(name, a)),
        Quantifier::Exists => Boxed::new(alloc, Formula::Ex(name, a)),
    }
}

/// Whether the sign stands between formulas.
fn is_connective(op: Op) -> bool
    ensures { meaning.operand_sort (sign op) ≡ (if result then meaning.FormulaSort else meaning.TermSort) }
{
    matches!(op, Op::Implies | Op::Or | Op::And)
}

/// Two formulas with a sign between them.
fn connected(
    alloc: Global,
    op: Op,
    a: Boxed<Formula>,
    b: Boxed<Formula>,
) -> Result<Boxed<Formula>, AllocError>
    ensures { IfOk result (λ r. formula_in r ≡ joined (sign op) (formula_in a) (formula_in b)) }
{
    match op {
        Op::Implies => Boxed::new(alloc, Formula::Imp(a, b)),
        Op::Or => Boxed::new(alloc, Formula::Or(a, b)),
        Op::And => Boxed::new(alloc, Formula::And(a, b)),
        _ => Boxed::new(alloc, Formula::Falsum),
    }
}

/// What a sign between two terms means, or the fault of a term's sign. The shape with its parentheses
/// is `whole`.
fn relation(
    alloc: Global,
    scope: &Scope<'_>,
    whole: &Shape<'_>,
    at: u32,
    op: Op,
    left: &Shape<'_>,
    right: &Shape<'_>,
) -> Result<Boxed<Formula>, SyntaxFault>
    requires room { HasRoom scope.now }
    requires terms { meaning.operand_sort (sign op) ≡ meaning.TermSort }
    requires left { IsReadable (shape_in left.now) }
    requires right { IsReadable (shape_in right.now) }
    requires small { nodes (shape_in left.now) + nodes (shape_in right.now) < 2 ^ 16 }
    ensures { Yields formula_in (fault_from (scope_in scope.now) meaning.FormulaSort (meaning.beginning (shape_in whole.now)) (grammar.Binary at (sign op) (shape_in left.now) (shape_in right.now))) (trees.formula_of (scope_in scope.now) (grammar.Binary at (sign op) (shape_in left.now) (shape_in right.now))) result }
{
    match op {
        Op::Equal => equation(alloc, scope, left, right),
        Op::NotEqual => {
            let a = equation(alloc, scope, left, right)?;
            Ok(denied(alloc, a)?)
        }
        Op::LessEqual => comparison(alloc, scope, at, Op::LessEqual, left, right),
        Op::Less => comparison(alloc, scope, at, Op::Less, left, right),
        Op::Plus | Op::Times | Op::Power => Err(SyntaxFault::Expected {
            at: beginning(whole),
            what: Wanted::Formula,
        }),
        Op::Implies | Op::Or | Op::And => unreachable!(),
    }
}

/// The equation of two terms.
fn equation(
    alloc: Global,
    scope: &Scope<'_>,
    left: &Shape<'_>,
    right: &Shape<'_>,
) -> Result<Boxed<Formula>, SyntaxFault>
    requires room { HasRoom scope.now }
    requires left { IsReadable (shape_in left.now) }
    requires right { IsReadable (shape_in right.now) }
    requires small { nodes (shape_in left.now) + nodes (shape_in right.now) < 2 ^ 16 }
    ensures { Yields formula_in (option_or (meaning.first_fault (scope_in scope.now) meaning.TermSort (shape_in left.now)) (meaning.first_fault (scope_in scope.now) meaning.TermSort (shape_in right.now))) (eq (trees.term_of (scope_in scope.now) (shape_in left.now)) (trees.term_of (scope_in scope.now) (shape_in right.now))) result }
{
    let s = term(alloc, scope, left, left)?;
    let t = term(alloc, scope, right, right)?;
    Ok(Boxed::new(alloc, Formula::Eq(s, t))?)
}

/// The predicate of a sign at two terms.
fn comparison(
    alloc: Global,
    scope: &Scope<'_>,
    at: u32,
    op: Op,
    left: &Shape<'_>,
    right: &Shape<'_>,
) -> Result<Boxed<Formula>, SyntaxFault>
    requires room { HasRoom scope.now }
    requires left { IsReadable (shape_in left.now) }
    requires right { IsReadable (shape_in right.now) }
    requires small { nodes (shape_in left.now) + nodes (shape_in right.now) < 2 ^ 16 }
    ensures { Yields formula_in (option_or (meaning.use_fault at 2 (names_in.predicate_sign_needs (scope_in scope.now) (sign op))) (option_or (meaning.first_fault (scope_in scope.now) meaning.TermSort (shape_in left.now)) (meaning.first_fault (scope_in scope.now) meaning.TermSort (shape_in right.now)))) (trees.sign_formula (scope_in scope.now) (sign op) (trees.term_of (scope_in scope.now) (shape_in left.now)) (trees.term_of (scope_in scope.now) (shape_in right.now))) result }
{
    let id = predicate_sign(scope, at, op)?;
    let s = term(alloc, scope, left, left)?;
    let t = term(alloc, scope, right, right)?;
    Ok(Boxed::new(alloc, Formula::Pred(id, pair(alloc, s, t)?))?)
}
