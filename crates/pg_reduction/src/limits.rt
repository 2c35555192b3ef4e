// How large goals may be.
ghost use Rattle.std.specs.Prelude.{◌≡◌, ◌+◌, ◌-◌, ◌^◌, ◌<◌, ◌++◌, List, length, map, min, sum, flat_map, option_map};
ghost use Rattle.pg_logic.specs.Tree.{nodes_of};
ghost use Rattle.pg_spelling.specs.Named.{live};
ghost use Rattle.pg_terms.specs.View.{formula};
ghost use Rattle.pg_moves.specs.Causes as causes;
ghost use Rattle.pg_moves.specs.Goals as moves;
ghost use Rattle.pg_moves.specs.Goals.{hyp_name, var_name};
ghost use Rattle.pg_moves.specs.Measures.{over, first_over, formula_measures, goal_measures, goal_nodes, all_nodes, block_measures, first_large};
ghost use Rattle.pg_goal.specs.View.{goal_of, hyp_of, var_of};
ghost use Rattle.pg_reduction.specs.Limits.{AreOthers, Tells, hyp_formula};
ghost use Rattle.pg_reduction.specs.View.{cause_of, measure_of};

use crate::cause::{Cause, Measure};
use pg_goal::{Goal, Hyp, Shared, Var};

/// The goals of a block besides the new ones: how many, and the nodes of all their formulas, or else
/// the type's end.
#[derive(Clone, Copy, Debug, PartialEq, Eq)]
pub struct Others {
    pub count: u64,
    pub nodes: u64,
}

/// The first limit that is passed where these new goals stand before the others of a block, with
/// what was reached. Each new goal is measured in order: its live variables, its live hypotheses,
/// the nodes and then the height of each hypothesis, dead ones too, and of the target. Then the
/// block is: its goals, and the nodes of all their formulas. A number over its type's end is told as
/// that end. Takes no memory, and time linear in the variables and hypotheses of the new goals: no
/// formula is walked through.
pub fn first_large(new: &[Goal], others: &Others) -> Option<Cause>
    ensures { (rest : List moves.Goal) → AreOthers rest others.now → Tells (first_large (map goal_of new.now) (map goal_of new.now ++ rest)) result }
{
    large_goals(new).or(large_block(new, others))
}

/// The nodes of all formulas of a goal, or else the type's end. Takes no memory, and time linear in the
/// number of its hypotheses: no formula is walked through.
pub fn goal_nodes(goal: &Goal) -> u64
    ensures { result ≡ min (goal_nodes (goal_of goal.now)) (2 ^ 64 - 1) }
{
    hyp_nodes(goal.hyps.as_slice()).saturating_add(goal.target.size())
}

/// The nodes of all formulas of some hypotheses.
fn hyp_nodes(hyps: &[Hyp]) -> u64
    ensures { result ≡ min (sum (map nodes_of (map hyp_formula hyps.now))) (2 ^ 64 - 1) }
{
    let mut nodes: u64 = 0;
    for hyp in hyps {
        nodes = nodes.saturating_add(hyp.formula.size());
    }
    nodes
}

/// The first limit that one of the goals passes by itself.
fn large_goals(goals: &[Goal]) -> Option<Cause>
    ensures { Tells (first_over (flat_map goal_measures (map goal_of goals.now))) result }
{
    for goal in goals {
        if let Some(cause) = first_large_goal(goal) {
            return Some(cause);
        }
    }
    None
}

/// The first limit that a goal passes by itself: as `first_large` measures each new goal. Takes no
/// memory.
pub fn first_large_goal(goal: &Goal) -> Option<Cause>
    ensures { Tells (first_over (goal_measures (goal_of goal.now))) result }
{
    over(64, live_vars(goal.vars.as_slice()), Measure::Variables)
        .or(over(64, live_hyps(goal.hyps.as_slice()), Measure::Hypotheses))
        .or(large_hyps(goal.hyps.as_slice()))
        .or(large_formula(&goal.target))
}

/// The first limit that a hypothesis passes, dead ones too.
fn large_hyps(hyps: &[Hyp]) -> Option<Cause>
    ensures { Tells (first_over (flat_map formula_measures (map hyp_formula hyps.now))) result }
{
    for hyp in hyps {
        if let Some(cause) = large_formula(&hyp.formula) {
            return Some(cause);
        }
    }
    None
}

/// The limit that a formula passes: of nodes, or else of height.
fn large_formula(a: &Shared) -> Option<Cause>
    ensures { Tells (first_over (formula_measures (formula a.now))) result }
{
    large_nodes(a.size()).or(over(256, u64::from(a.height()), Measure::Height))
}

/// The limit that a formula of so many nodes passes, where the type's end stands for all numbers past it.
pub fn large_nodes(nodes: u64) -> Option<Cause>
    ensures { option_map cause_of result ≡ over 4096 nodes (causes.TooLarge causes.Nodes nodes) }
{
    over(4096, nodes, Measure::Nodes)
}

/// The cause, where the limit is passed.
pub fn over(limit: u64, reached: u64, measure: Measure) -> Option<Cause>
    ensures { option_map cause_of result ≡ over limit reached (causes.TooLarge (measure_of measure) reached) }
{
    if reached > limit {
        Some(Cause::TooLarge { measure, reached })
    } else {
        None
    }
}

/// How many variables are live.
fn live_vars(vars: &[Var]) -> u64
    ensures { result ≡ length (live (map var_name (map var_of vars.now))) }
{
    let mut count: u64 = 0;
    for var in vars {
        if var.live {
            count += 1;
        }
    }
    count
}

/// How many hypotheses are live.
fn live_hyps(hyps: &[Hyp]) -> u64
    ensures { result ≡ length (live (map hyp_name (map hyp_of hyps.now))) }
{
    let mut count: u64 = 0;
    for hyp in hyps {
        if hyp.live {
            count += 1;
        }
    }
    count
}

/// The limit that a block passes: of goals, or else of nodes in all.
fn large_block(new: &[Goal], others: &Others) -> Option<Cause>
    ensures { (rest : List moves.Goal) → AreOthers rest others.now → Tells (first_over (block_measures (map goal_of new.now ++ rest))) result }
{
    let count = others.count.saturating_add(new.len() as u64);
    too_many(count).or(over(
        65536,
        all_nodes(new).saturating_add(others.nodes),
        Measure::State,
    ))
}

/// The cause that a block has so many goals, where they are too many.
fn too_many(count: u64) -> Option<Cause>
    ensures { Tells (over 64 count (causes.TooMany count)) result }
{
    if count > 64 {
        let count = u32::try_from(count).unwrap_or(u32::MAX);
        Some(Cause::TooMany { count })
    } else {
        None
    }
}

/// The nodes of all formulas of some goals, or else the type's end.
fn all_nodes(goals: &[Goal]) -> u64
    ensures { result ≡ min (all_nodes (map goal_of goals.now)) (2 ^ 64 - 1) }
{
    let mut nodes: u64 = 0;
    for goal in goals {
        nodes = nodes.saturating_add(goal_nodes(goal));
    }
    nodes
}
