// Goals.
ghost use Rattle.std.specs.Prelude.{◌≡◌, ◌<◌, ◌^◌, ◌++◌, length, map, true, false, IfOk, OnOk};
ghost use Rattle.pg_terms.specs.View.{formula as formula_in};
ghost use Rattle.pg_spelling.specs.Named.{live};
ghost use Rattle.pg_moves.specs.Goals.{var_name, hyp_name, var_names, live_names, variable_named, hypothesis_named, aimed, with_var, with_hyp, without_var, without_hyp};
ghost use Rattle.pg_moves.specs.First.{first_vars, first_hyps, first_goal};
ghost use Rattle.pg_goal.specs.View.{var_of, hyp_of, goal_of};

use crate::shared::Shared;
use pg_syntax::{Binder, Names, Statement};
use pg_terms::{Formula, Name};
use sqlite_items::{Boxed, Items};
use std::alloc::{AllocError, Global};

/// A variable of a goal. Its number is its place in the list.
#[derive(Drop)]
pub struct Var {
    pub name: Name,
    /// Whether it may be named still.
    pub live: bool,
}

/// A hypothesis of a goal. Its number is its place in the list.
#[derive(Drop)]
pub struct Hyp {
    pub name: Name,
    pub formula: Shared,
    /// Whether it may be named still.
    pub live: bool,
}

/// Under the variables and hypotheses the target is to be shown. What is dead keeps its number, and
/// is seen no more.
#[derive(Drop)]
pub struct Goal {
    pub vars: Items<Var>,
    pub hyps: Items<Hyp>,
    pub target: Shared,
}

/// The first goal of a statement: its variables and its hypotheses, each in their order and all live,
/// and its target. It fails only for want of memory.
pub fn initial(alloc: Global, statement: &Statement) -> Result<Goal, AllocError>
    ensures { IfOk result (λ g. goal_of g ≡ first_goal statement.now.binders.items (formula_in statement.now.target)) }
{
    let binders = statement.binders.as_slice();
    let vars = first_vars(alloc, binders)?;
    let hyps = first_hyps(alloc, binders)?;
    let target = measured(alloc, &statement.target)?;
    Ok(Goal { vars, hyps, target })
}

/// The variables of binders, all live.
fn first_vars(alloc: Global, binders: &[Binder]) -> Result<Items<Var>, AllocError>
    ensures { IfOk result (λ vs. map var_of vs ≡ first_vars binders.now) }
{
    let mut vars = Items::new(alloc);
    for binder in binders {
        if let Binder::Var(name) = binder {
            vars.push(live_var(alloc, name)?)?;
        }
    }
    Ok(vars)
}

/// A live variable of this name.
fn live_var(alloc: Global, name: &Name) -> Result<Var, AllocError>
    ensures { IfOk result (λ v. v ≡ record { name = name.now; live = true }) }
{
    let name = name.copied(alloc)?;
    Ok(Var { name, live: true })
}

/// The hypotheses of binders, all live.
fn first_hyps(alloc: Global, binders: &[Binder]) -> Result<Items<Hyp>, AllocError>
    ensures { IfOk result (λ hs. map hyp_of hs ≡ first_hyps binders.now) }
{
    let mut hyps = Items::new(alloc);
    for binder in binders {
        if let Binder::Hyp(name, a) = binder {
            let formula = measured(alloc, a)?;
            let name = name.copied(alloc)?;
            hyps.push(Hyp {
                name,
                formula,
                live: true,
            })?;
        }
    }
    Ok(hyps)
}

/// An equal formula, measured.
fn measured(alloc: Global, a: &Formula) -> Result<Shared, AllocError>
    ensures { IfOk result (λ r. r ≡ a.now) }
{
    let copy = Boxed::new(alloc, a.copied(alloc)?)?;
    Shared::new(alloc, copy)
}

impl Goal {
    /// An equal goal, whose formulas are shared with this one. It fails only for want of memory.
    pub fn copied(&self, alloc: Global) -> Result<Goal, AllocError>
        ensures { IfOk result (λ g. g ≡ self.now) }
    {
        let target = self.target.shared()?;
        let vars = copied_vars(alloc, self.vars.as_slice())?;
        let hyps = copied_hyps(alloc, self.hyps.as_slice())?;
        Ok(Goal { vars, hyps, target })
    }

    /// The goal with another target, whose hypotheses are shared with this one. It fails only for want
    /// of memory.
    pub fn aimed(&self, alloc: Global, target: Boxed<Formula>) -> Result<Goal, AllocError>
        ensures { IfOk result (λ g. goal_of g ≡ aimed (formula_in target) (goal_of self.now)) }
    {
        let target = Shared::new(alloc, target)?;
        let vars = copied_vars(alloc, self.vars.as_slice())?;
        let hyps = copied_hyps(alloc, self.hyps.as_slice())?;
        Ok(Goal { vars, hyps, target })
    }

    /// The goal with a new variable, which stands last. It fails only for want of memory.
    pub fn with_var(mut self, name: Name) -> Result<Goal, AllocError>
        ensures { IfOk result (λ g. goal_of g ≡ with_var name (goal_of self)) }
    {
        self.vars.push(Var { name, live: true })?;
        Ok(self)
    }

    /// The goal with a new hypothesis, which stands last. It fails only for want of memory.
    pub fn with_hyp(
        mut self,
        alloc: Global,
        name: Name,
        formula: Boxed<Formula>,
    ) -> Result<Goal, AllocError>
        ensures { IfOk result (λ g. goal_of g ≡ with_hyp name (formula_in formula) (goal_of self)) }
    {
        let formula = Shared::new(alloc, formula)?;
        self.hyps.push(Hyp {
            name,
            formula,
            live: true,
        })?;
        Ok(self)
    }

    /// The goal in which the variable of this number is dead, if there is one. It fails only for want of
    /// memory.
    #[tactic(auto, using(crate::proofs::Dead::dead_var, crate::proofs::Dead::no_var))]
    pub fn without_var(mut self, alloc: Global, number: u32) -> Result<Goal, AllocError>
        ensures { IfOk result (λ g. goal_of g ≡ without_var number (goal_of self)) }
    {
        let dead = match self.vars.get(number as usize) {
            None => return Ok(self),
            Some(var) => dead_var(alloc, var)?,
        };
        self.vars.set(number as usize, dead);
        Ok(self)
    }

    /// The goal in which the hypothesis of this number is dead, if there is one. It fails only for want
    /// of memory.
    #[tactic(auto, using(crate::proofs::Dead::dead_hyp, crate::proofs::Dead::no_hyp))]
    pub fn without_hyp(mut self, alloc: Global, number: u32) -> Result<Goal, AllocError>
        ensures { IfOk result (λ g. goal_of g ≡ without_hyp number (goal_of self)) }
    {
        let dead = match self.hyps.get(number as usize) {
            None => return Ok(self),
            Some(hyp) => dead_hyp(alloc, hyp)?,
        };
        self.hyps.set(number as usize, dead);
        Ok(self)
    }

    /// The names in use: of the live variables, then of the live hypotheses. It fails only for want of
    /// memory.
    pub fn live_names(&self, alloc: Global) -> Result<Items<Name>, AllocError>
        ensures { IfOk result (λ names. names ≡ live_names (goal_of self.now)) }
    {
        let mut names = Items::new(alloc);
        add_var_names(alloc, &mut names, self.vars.as_slice())?;
        add_hyp_names(alloc, &mut names, self.hyps.as_slice())?;
        Ok(names)
    }

    /// The names of the variables by number, as terms and formulas are read under them: `None` for a dead
    /// one. It fails only for want of memory.
    pub fn var_names(&self, alloc: Global) -> Result<Names, AllocError>
        ensures { IfOk result (λ names. names.vars.items ≡ var_names (goal_of self.now)) }
    {
        let mut vars = Vec::new(alloc);
        for var in self.vars.as_slice() {
            vars.push(var_name(alloc, var)?)?;
        }
        Ok(Names { vars })
    }

    /// The number of the live variable of this name, if there is one. Takes no memory.
    pub fn variable_named(&self, name: &str) -> Option<u32>
        requires { length self.now.vars < 2 ^ 32 }
        ensures { result ≡ variable_named (goal_of self.now) name.now }
    {
        let mut number: u32 = 0;
        for var in self.vars.as_slice() {
            if var.live && name == var.name.as_str() {
                return Some(number);
            }
            number += 1;
        }
        None
    }

    /// The number of the live hypothesis of this name, if there is one. Takes no memory.
    pub fn hypothesis_named(&self, name: &str) -> Option<u32>
        requires { length self.now.hyps < 2 ^ 32 }
        ensures { result ≡ hypothesis_named (goal_of self.now) name.now }
    {
        let mut number: u32 = 0;
        for hyp in self.hyps.as_slice() {
            if hyp.live && name == hyp.name.as_str() {
                return Some(number);
            }
            number += 1;
        }
        None
    }
}

/// The name of a live variable.
fn var_name(alloc: Global, var: &Var) -> Result<Option<Name>, AllocError>
    ensures { IfOk result (λ name. name ≡ var_name (var_of var.now)) }
{
    if !var.live {
        return Ok(None);
    }
    Ok(Some(var.name.copied(alloc)?))
}

/// A dead variable of the same name.
fn dead_var(alloc: Global, var: &Var) -> Result<Var, AllocError>
    ensures { IfOk result (λ v. v ≡ record { name = var.now.name; live = false }) }
{
    let name = var.name.copied(alloc)?;
    Ok(Var { name, live: false })
}

/// A dead hypothesis of the same name, whose formula is shared with it.
fn dead_hyp(alloc: Global, hyp: &Hyp) -> Result<Hyp, AllocError>
    ensures { IfOk result (λ h. h ≡ record { name = hyp.now.name; formula = hyp.now.formula; live = false }) }
{
    let formula = hyp.formula.shared()?;
    let name = hyp.name.copied(alloc)?;
    Ok(Hyp {
        name,
        formula,
        live: false,
    })
}

/// Puts the names of the live variables behind the others.
fn add_var_names(alloc: Global, names: &mut Items<Name>, vars: &[Var]) -> Result<(), AllocError>
    ensures { OnOk result (names.new ≡ names.old ++ live (map var_name (map var_of vars.now))) }
{
    for var in vars {
        if var.live {
            names.push(var.name.copied(alloc)?)?;
        }
    }
    Ok(())
}

/// Puts the names of the live hypotheses behind the others.
fn add_hyp_names(alloc: Global, names: &mut Items<Name>, hyps: &[Hyp]) -> Result<(), AllocError>
    ensures { OnOk result (names.new ≡ names.old ++ live (map hyp_name (map hyp_of hyps.now))) }
{
    for hyp in hyps {
        if hyp.live {
            names.push(hyp.name.copied(alloc)?)?;
        }
    }
    Ok(())
}

/// Equal variables.
fn copied_vars(alloc: Global, vars: &[Var]) -> Result<Items<Var>, AllocError>
    ensures { IfOk result (λ copies. copies ≡ vars.now) }
{
    let mut copies = Items::new(alloc);
    for var in vars {
        let name = var.name.copied(alloc)?;
        copies.push(Var {
            name,
            live: var.live,
        })?;
    }
    Ok(copies)
}

/// Equal hypotheses, whose formulas are shared with them.
fn copied_hyps(alloc: Global, hyps: &[Hyp]) -> Result<Items<Hyp>, AllocError>
    ensures { IfOk result (λ copies. copies ≡ hyps.now) }
{
    let mut copies = Items::new(alloc);
    for hyp in hyps {
        let formula = hyp.formula.shared()?;
        let name = hyp.name.copied(alloc)?;
        copies.push(Hyp {
            name,
            formula,
            live: hyp.live,
        })?;
    }
    Ok(copies)
}
