// The moves whose parts stand in a list: `intro`, `rw` and `use`.
ghost use Rattle.std.specs.Prelude.{◌≡◌, ◌<◌, All, Some, length, map, option_map, slice_get};
ghost use Rattle.pg_script.specs.Data.{Rule};
ghost use Rattle.pg_script.specs.View.{part as part_in, rule as rule_in, words};
ghost use Rattle.pg_moves.specs.Acts.{Act, Intro, Witness, rewrite_act};
ghost use Rattle.pg_goal.specs.Conditions.{IsCounted, AreTexts};
ghost use Rattle.pg_goal.specs.View.{goal_of, lookup_of};
ghost use Rattle.pg_reduction.specs.Doing.{IsReady, Does, DoesWithin};
ghost use Rattle.pg_runs.specs.Written.{AreNamed, HaveTexts};
ghost use Rattle.pg_table.specs.Lent.{lent_word};

use pg_acts::{intro, witness};
use pg_base::Token;
use pg_goal::{Goal, Lookup};
use pg_reduction::{ActFault, Reduction};
use pg_rewrites::{rewrite, rewrite_at};
use pg_script::{Piece, RwRule};
use sqlite_items::at;
use std::alloc::Global;

/// `intro x y ..`: each name is a part.
pub fn introduced(
    alloc: Global,
    goal: &Goal,
    names: &[Token<'_>],
    part: u32,
    lookup: &Lookup<'_>,
) -> Result<Reduction, ActFault>
    requires ready { IsReady (lookup_of lookup.now) (goal_of goal.now) }
    requires names { AreNamed (words names.now) }
    requires part { part < length names.now }
    ensures { (a : Act) → slice_get (map Intro (words names.now)) part ≡ Some a → Does (lookup_of lookup.now) (goal_of goal.now) a result }
{
    match at(names, part as usize) {
        Some(name) => intro(alloc, goal, name, lookup),
        None => unreachable!(),
    }
}

/// `use t, ..`: each term is a part.
pub fn witnessed(
    alloc: Global,
    goal: &Goal,
    terms: &[Piece<'_>],
    part: u32,
    lookup: &Lookup<'_>,
) -> Result<Reduction, ActFault>
    requires ready { IsReady (lookup_of lookup.now) (goal_of goal.now) }
    requires texts { AreTexts (map part_in terms.now) }
    requires part { part < length terms.now }
    ensures { (a : Act) → slice_get (map Witness (map part_in terms.now)) part ≡ Some a → DoesWithin (lookup_of lookup.now) (goal_of goal.now) a result }
{
    match at(terms, part as usize) {
        Some(term) => witness(alloc, goal, term, lookup),
        None => unreachable!(),
    }
}

/// `rw [r, ..]`, `rw [r, ..] at h`: each rule is a part.
pub fn rewritten(
    alloc: Global,
    goal: &Goal,
    rules: &[RwRule<'_>],
    place: Option<&Token<'_>>,
    part: u32,
    lookup: &Lookup<'_>,
) -> Result<Reduction, ActFault>
    requires ready { IsReady (lookup_of lookup.now) (goal_of goal.now) }
    requires counted { IsCounted (lookup_of lookup.now) (goal_of goal.now) }
    requires texts { All (λ (r : Rule). HaveTexts r.expr) (map rule_in rules.now) }
    requires part { part < length rules.now }
    ensures { (a : Act) → slice_get (map (rewrite_act (option_map lent_word place.entry)) (map rule_in rules.now)) part ≡ Some a → DoesWithin (lookup_of lookup.now) (goal_of goal.now) a result }
{
    match at(rules, part as usize) {
        Some(rule) => rewritten_by(alloc, goal, rule, place, lookup),
        None => unreachable!(),
    }
}

/// `rw [r]`, `rw [r] at h`.
fn rewritten_by(
    alloc: Global,
    goal: &Goal,
    rule: &RwRule<'_>,
    place: Option<&Token<'_>>,
    lookup: &Lookup<'_>,
) -> Result<Reduction, ActFault>
    requires ready { IsReady (lookup_of lookup.now) (goal_of goal.now) }
    requires counted { IsCounted (lookup_of lookup.now) (goal_of goal.now) }
    requires texts { HaveTexts (rule_in rule.now).expr }
    ensures { DoesWithin (lookup_of lookup.now) (goal_of goal.now) (rewrite_act (option_map lent_word place.entry) (rule_in rule.now)) result }
{
    match place {
        None => rewrite(alloc, goal, rule, lookup),
        Some(name) => rewrite_at(alloc, goal, rule, name, lookup),
    }
}
