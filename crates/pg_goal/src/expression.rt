// What expressions give in goals.
ghost use Rattle.std.specs.Prelude.{◌≡◌, ◌≤◌, ◌<◌, ◌^◌, [], All, length, slice_get, true, IfOk};
ghost use Rattle.pg_base.specs.Tokens.{Word as Lexeme, word};
ghost use Rattle.pg_base.specs.Spans.{IsTokenText};
ghost use Rattle.pg_logic.specs.Tree.{nodes, nodes_of, all, imp};
ghost use Rattle.pg_logic.specs.Signature.{fits_term};
ghost use Rattle.pg_logic.specs.Kernel.{hyp, thm, alle, impe};
ghost use Rattle.pg_terms.specs.View as trees;
ghost use Rattle.pg_arith.specs.View.{signature};
ghost use Rattle.pg_kernel.specs.View as kernel;
ghost use Rattle.pg_script.specs.View.{part, expression};
ghost use Rattle.pg_moves.specs.Lookup.{theorem_named};
ghost use Rattle.pg_moves.specs.Causes.{and_then};
ghost use Rattle.pg_moves.specs.Expressions as moves;
ghost use Rattle.pg_moves.specs.Laws.{IsSound};
ghost use Rattle.pg_moves.specs.Proofs.{Fits, sequent};
ghost use Rattle.pg_goal.specs.View.{goal_of, lookup_of};
ghost use Rattle.pg_goal.specs.Conditions.{IsCounted, AreTexts, IsProved};
ghost use Rattle.pg_goal.specs.Answers.{Gives, IsRead};
ghost use Rattle.pg_goal.specs.Places.{look, spot, IsReady, IsHeld};

use crate::goal::Goal;
use crate::lookup::Lookup;
use crate::opened::opened_size;
use pg_base::Token;
use pg_kernel::Proof;
use pg_script::{Expr, Piece, ScriptFault, read_expression};
use pg_syntax::{Names, SyntaxFault, read_term};
use pg_terms::{Formula, Term};
use sqlite_items::Boxed;
use std::alloc::{AllocError, Global};
use thiserror::Error;

/// How many nodes a formula may have that an expression gives.
const NODES_LIMIT: u64 = 4096;

/// What an expression gives: a formula, and a proof that the kernel accepts for it.
#[derive(Drop)]
pub struct Given {
    pub formula: Boxed<Formula>,
    pub proof: Boxed<Proof>,
}

/// Why an expression gives nothing. Each `at` is the byte at which a name or an argument begins.
#[derive(Clone, Copy, Debug, Error)]
pub enum ExprFault {
    /// No live hypothesis and no theorem has the name.
    #[error("the name at byte {at} is that of no hypothesis and no theorem")]
    NoSuchName { at: u32 },
    /// The theorem of this number has the name, and it isn't available.
    #[error("the theorem at byte {at} is not available")]
    Locked { at: u32, theorem: u32 },
    /// The argument is no term where `∀` wants one. Or it is no expression where `→` wants one, or one
    /// that gives another formula than the left side.
    #[error("the argument at byte {at} is not what is wanted")]
    WrongArgument { at: u32 },
    /// An argument is left, and what is given so far is neither `∀` nor `→`.
    #[error("the argument at byte {at} is one too many")]
    TooManyArguments { at: u32 },
    /// A formula that is given on the way has so many nodes, over 4,096.
    #[error("a formula has {size} nodes, over 4096")]
    TooLarge { size: u64 },
    /// There is no memory for what is given.
    #[error("out of memory")]
    OutOfMemory,
}

impl From<AllocError> for ExprFault {
    ghost use Rattle.std.specs.Prelude.{◌≡◌};
    ghost use Rattle.pg_goal.specs.declared.expression.ExprFault.TheVariants as fault;

    ghost from_gives = { λ _ e. e ≡ fault.OutOfMemory };

    fn from(_: AllocError) -> Self {
        ExprFault::OutOfMemory
    }
}

/// What an expression gives in a goal: the formula of its name, a live hypothesis or else a theorem,
/// taken at the arguments one by one, where `∀` takes a term, and `→` an expression that gives its left
/// side up to the names of binders. Where it gives nothing it is the first fault: that of the name, then
/// those of each argument. Each formula on the way has at most 4,096 nodes, and none is built that has
/// more. Want of memory is `OutOfMemory`.
///
/// The theorems fit no variable, and the goal's formulas its variables, over what is declared; the tokens
/// of arguments have the texts of their kinds; numbers of 32 bits count what there is.
pub fn gives(
    alloc: Global,
    goal: &Goal,
    expr: &Expr<'_>,
    lookup: &Lookup<'_>,
) -> Result<Given, ExprFault>
    requires sound { IsSound (lookup_of lookup.now) }
    requires counted { IsCounted (lookup_of lookup.now) (goal_of goal.now) }
    requires fits { Fits (signature lookup.now.sig.now) (sequent (goal_of goal.now)) }
    requires texts { AreTexts (expression expr.now).args }
    ensures gives { Gives (moves.gives (lookup_of lookup.now) (goal_of goal.now) (expression expr.now)) result }
    ensures proved { IfOk result (λ x. IsProved (lookup_of lookup.now) (goal_of goal.now) (trees.formula x.formula) (kernel.proof x.proof)) }
{
    let names = goal.var_names(alloc)?;
    let place = Place {
        goal,
        names: &names,
        lookup,
    };
    place.given(alloc, expr)
}

/// Where an expression stands: a goal, the names of its variables, and what is looked up.
#[derive(Clone, Copy)]
pub(crate) struct Place<'p> {
    goal: &'p Goal,
    names: &'p Names,
    lookup: &'p Lookup<'p>,
}

impl Place<'_> {
    /// What the expression gives.
    #[cycle(given)]
    fn given(&self, alloc: Global, expr: &Expr<'_>) -> Result<Given, ExprFault>
        requires ready { IsReady self.now }
        requires texts { AreTexts (expression expr.now).args }
        ensures gives { Gives (moves.gives (look self.now) (spot self.now) (expression expr.now)) result }
        ensures held { IfOk result (IsHeld self.now) }
    {
        let mut given = self.named(alloc, &expr.name)?;
        for arg in expr.args.as_slice() {
            given = self.applied(alloc, given, arg)?;
        }
        Ok(given)
    }

    /// What is given so far, at one argument more.
    #[cycle(given)]
    fn applied(&self, alloc: Global, given: Given, arg: &Piece<'_>) -> Result<Given, ExprFault>
        requires ready { IsReady self.now }
        requires texts { All (λ (w : Lexeme). IsTokenText w.kind w.text) (part arg.now).tokens }
        requires held { IsHeld self.now given }
        ensures gives { Gives (moves.at_argument (look self.now) (spot self.now) (moves.gives (look self.now) (spot self.now)) (trees.formula given.formula) (part arg.now)) result }
        ensures held { IfOk result (IsHeld self.now) }
    {
        let Given { formula, proof } = given;
        match formula.into_inner() {
            Formula::All(_, body) => self.at_term(alloc, body, proof, arg),
            Formula::Imp(left, right) => self.at_proof(alloc, left, right, proof, arg),
            _ => Err(ExprFault::TooManyArguments { at: begins(arg) }),
        }
    }

    /// A universal formula with this body and this proof, at a term.
    fn at_term(
        &self,
        alloc: Global,
        body: Boxed<Formula>,
        by: Boxed<Proof>,
        arg: &Piece<'_>,
    ) -> Result<Given, ExprFault>
        requires ready { IsReady self.now }
        requires texts { All (λ (w : Lexeme). IsTokenText w.kind w.text) (part arg.now).tokens }
        requires proved { IsProved (look self.now) (spot self.now) (all [] (trees.formula body)) (kernel.proof by) }
        requires few { nodes_of (trees.formula body) ≤ 4096 }
        ensures gives { Gives (moves.at_argument (look self.now) (spot self.now) (moves.gives (look self.now) (spot self.now)) (all [] (trees.formula body)) (part arg.now)) result }
        ensures held { IfOk result (IsHeld self.now) }
    {
        let by_term = self.term(alloc, arg)?;
        let size = opened_size(body.get(), by_term.get().size());
        if size > NODES_LIMIT {
            return Err(ExprFault::TooLarge { size });
        }
        let formula = Boxed::new(alloc, body.get().opened(alloc, by_term.get())?)?;
        let proof = instance(alloc, body, by_term, by)?;
        Ok(Given { formula, proof })
    }

    /// An implication with this proof, at an expression that gives its left side.
    #[cycle(given)]
    fn at_proof(
        &self,
        alloc: Global,
        left: Boxed<Formula>,
        right: Boxed<Formula>,
        by: Boxed<Proof>,
        arg: &Piece<'_>,
    ) -> Result<Given, ExprFault>
        requires ready { IsReady self.now }
        requires texts { All (λ (w : Lexeme). IsTokenText w.kind w.text) (part arg.now).tokens }
        requires proved { IsProved (look self.now) (spot self.now) (imp (trees.formula left) (trees.formula right)) (kernel.proof by) }
        requires few { nodes_of (trees.formula right) ≤ 4096 }
        ensures gives { Gives (moves.at_argument (look self.now) (spot self.now) (moves.gives (look self.now) (spot self.now)) (imp (trees.formula left) (trees.formula right)) (part arg.now)) result }
        ensures held { IfOk result (IsHeld self.now) }
    {
        let expr = argument(alloc, arg)?;
        let inner = self.given(alloc, &expr)?;
        if !inner.formula.get().same(left.get()) {
            return Err(ExprFault::WrongArgument { at: begins(arg) });
        }
        let proof = detached(alloc, left, by, inner.proof)?;
        Ok(Given {
            formula: right,
            proof,
        })
    }

    /// The term that an argument is, over the live variables of the goal.
    fn term(&self, alloc: Global, arg: &Piece<'_>) -> Result<Boxed<Term>, ExprFault>
        requires ready { IsReady self.now }
        requires texts { All (λ (w : Lexeme). IsTokenText w.kind w.text) (part arg.now).tokens }
        ensures read { IsRead trees.term (moves.read_term (look self.now) (spot self.now) (part arg.now)) (moves.begins (part arg.now)) result }
        ensures fits { IfOk result (λ t. fits_term (signature self.now.lookup.now.sig.now).functions (length (spot self.now).vars) 0 (trees.term t) ≡ true) }
        ensures few { IfOk result (λ t. nodes (trees.term t) ≤ 8192) }
    {
        let tokens = arg.tokens.as_slice();
        match read_term(alloc, tokens, arg.end, self.names, self.lookup.sig) {
            Ok(t) => Ok(Boxed::new(alloc, t)?),
            Err(SyntaxFault::OutOfMemory) => Err(ExprFault::OutOfMemory),
            Err(_) => Err(ExprFault::WrongArgument { at: begins(arg) }),
        }
    }

    /// The formula of a name, with its proof.
    fn named(&self, alloc: Global, name: &Token<'_>) -> Result<Given, ExprFault>
        requires { IsReady self.now }
        ensures gives { Gives (and_then (moves.named_given (look self.now) (spot self.now) (word name.now)) moves.small) result }
        ensures held { IfOk result (IsHeld self.now) }
    {
        match self.goal.hypothesis_named(name.text) {
            Some(number) => self.hypothesis(alloc, name.at, number),
            None => self.theorem(alloc, name),
        }
    }

    /// The formula of the hypothesis of this number.
    fn hypothesis(&self, alloc: Global, at: u32, number: u32) -> Result<Given, ExprFault>
        requires { IsReady self.now }
        ensures gives { Gives (and_then (moves.hypothesis_given at (slice_get (spot self.now).hyps number)) moves.small) result }
        ensures held { IfOk result (IsHeld self.now) }
    {
        match self.goal.hyps.get(number as usize) {
            None => Err(ExprFault::NoSuchName { at }),
            Some(hyp) => {
                let proof = by_hypothesis(alloc, number)?;
                known(alloc, hyp.formula.get(), proof)
            }
        }
    }

    /// The formula of the theorem of a name.
    fn theorem(&self, alloc: Global, name: &Token<'_>) -> Result<Given, ExprFault>
        requires { IsReady self.now }
        ensures gives { Gives (and_then (moves.theorem_name_given (look self.now) name.now.at (theorem_named (look self.now) name.now.text.now)) moves.small) result }
        ensures held { IfOk result (IsHeld self.now) }
    {
        match self.lookup.theorem_named(name.text) {
            None => Err(ExprFault::NoSuchName { at: name.at }),
            Some(number) => self.theorem_at(alloc, name.at, number),
        }
    }

    /// The theorem of this number, where it is available.
    fn theorem_at(&self, alloc: Global, at: u32, theorem: u32) -> Result<Given, ExprFault>
        requires { IsReady self.now }
        ensures gives { Gives (and_then (moves.theorem_given (look self.now) at theorem) moves.small) result }
        ensures held { IfOk result (IsHeld self.now) }
    {
        if !self.lookup.available.has_theorem(theorem) {
            return Err(ExprFault::Locked { at, theorem });
        }
        match self.lookup.theorems.get(theorem) {
            None => Err(ExprFault::NoSuchName { at }),
            Some(a) => {
                let proof = by_theorem(alloc, theorem)?;
                known(alloc, a, proof)
            }
        }
    }
}

/// A copy of a formula with its proof, if it isn't too large.
fn known(alloc: Global, a: &Formula, proof: Boxed<Proof>) -> Result<Given, ExprFault>
    requires { nodes_of (trees.formula a.now) < 2 ^ 32 }
    ensures gives { Gives (moves.small (trees.formula a.now)) result }
    ensures is { IfOk result (λ x. x ≡ record { formula = a.now; proof = proof }) }
    ensures few { IfOk result (λ x. nodes_of (trees.formula a.now) ≤ 4096) }
{
    let size = a.size();
    if size > NODES_LIMIT {
        return Err(ExprFault::TooLarge { size });
    }
    let formula = Boxed::new(alloc, a.copied(alloc)?)?;
    Ok(Given { formula, proof })
}

/// The proof by the hypothesis of this number.
fn by_hypothesis(alloc: Global, number: u32) -> Result<Boxed<Proof>, AllocError>
    ensures { IfOk result (λ p. kernel.proof p ≡ hyp number) }
{
    Boxed::new(alloc, Proof::Hyp(number))
}

/// The proof by the theorem of this number.
fn by_theorem(alloc: Global, number: u32) -> Result<Boxed<Proof>, AllocError>
    ensures { IfOk result (λ p. kernel.proof p ≡ thm number) }
{
    Boxed::new(alloc, Proof::Thm(number))
}

/// The proof of a body at a term, from one of the universal formula.
fn instance(
    alloc: Global,
    body: Boxed<Formula>,
    at: Boxed<Term>,
    by: Boxed<Proof>,
) -> Result<Boxed<Proof>, AllocError>
    ensures { IfOk result (λ p. kernel.proof p ≡ alle (trees.formula body) (trees.term at) (kernel.proof by)) }
{
    Boxed::new(alloc, Proof::Alle(body.into_inner(), at.into_inner(), by))
}

/// The proof of the right side of an implication, from one of it and one of its left side.
fn detached(
    alloc: Global,
    left: Boxed<Formula>,
    by: Boxed<Proof>,
    of_left: Boxed<Proof>,
) -> Result<Boxed<Proof>, AllocError>
    ensures { IfOk result (λ p. kernel.proof p ≡ impe (trees.formula left) (kernel.proof by) (kernel.proof of_left)) }
{
    Boxed::new(alloc, Proof::Impe(left.into_inner(), by, of_left))
}

/// The expression that an argument is.
fn argument<'a>(alloc: Global, arg: &Piece<'a>) -> Result<Expr<'a>, ExprFault>
    ensures { IsRead expression (moves.read_expression (part arg.now)) (moves.begins (part arg.now)) result }
{
    match read_expression(alloc, arg.tokens.as_slice(), arg.end) {
        Ok(expr) => Ok(expr),
        Err(ScriptFault::OutOfMemory) => Err(ExprFault::OutOfMemory),
        Err(_) => Err(ExprFault::WrongArgument { at: begins(arg) }),
    }
}

/// The byte at which an argument begins.
fn begins(arg: &Piece<'_>) -> u32
    ensures { result ≡ moves.begins (part arg.now) }
{
    match arg.tokens.as_slice().first() {
        Some(first) => first.at,
        None => arg.end,
    }
}
