// The level of a one-level game.
ghost use Rattle.std.specs.Prelude.{◌≡◌, ℕ, ◌<◌, ◌-◌, [], ◌∷◌, IfOk, MatchOption, Some, length, map, string_bytes, codes};
ghost use Rattle.pg_logic.specs.Axioms.{axioms};
ghost use Rattle.pg_arith.specs.View.{declarations};
ghost use Rattle.pg_worlds.specs.Inventory.{inventory, least_available};
ghost use Rattle.pg_worlds.specs.View.{level_of};
ghost use Rattle.pg_goal.specs.View.{lookup_of};
ghost use Rattle.pg_moves.specs.Runs.{Closed};
ghost use Rattle.pg_attempt.specs.Attempts.{CanAttempt};
ghost use Rattle.pg_attempt.specs.Lines.{lines_of};
ghost use Rattle.pg_run.specs.Game.{Stated, stated};
ghost use Rattle.pg_run.specs.Level.{CanStand, Decides, IsGame, IsLevel, IsTrue, SampleWins, course, has_sample, items, lookup_in, nothing, played};

use crate::game::{Game, Sample, game_in};
use pg_arith::Signature;
use pg_attempt::attempt;
use pg_goal::Lookup;
use pg_kernel::Theorems;
use pg_runs::Outcome;
use pg_syntax::Statement;
use pg_terms::Name;
use pg_worlds::{Available, Course, Graph, LevelId, LevelItems, TacticName, least_available};
use std::alloc::{AllocError, Global};

/// The level of a one-level game, with what it is played with.
#[derive(Drop)]
pub struct Level {
    statement: Statement,
    sample: Sample,
    sig: Signature,
    theorems: Theorems,
    names: Vec<Option<Name>>,
    available: Available,
}

/// The level of the game that a text is, and None where it is none: where it spells none, or its sample does not win
/// ("One-level games" in docs/GAME-TEXT.md).
pub fn level_in(alloc: Global, text: &[u8]) -> Result<Option<Level>, AllocError>
    ensures { IfOk result (λ found. MatchOption found ((g : Stated) → IsGame text.now g → ⊥) (λ level. (g : Stated) × IsGame text.now g × IsLevel g level × CanStand g)) }
{
    let Some(game) = game_in(alloc, text)? else {
        return Ok(None);
    };
    let level = Level::new(alloc, game)?;
    if level.is_won_by_sample(alloc)? {
        Ok(Some(level))
    } else {
        Ok(None)
    }
}

impl Level {
    /// The level of a game. It fails only for want of memory.
    fn new(alloc: Global, game: Game) -> Result<Level, AllocError>
        ensures { IfOk result (IsLevel (stated game)) }
    {
        let Game {
            target,
            sample,
            tactics,
        } = game;
        let sig = Signature::new(alloc)?;
        let theorems = Theorems::new(alloc, &sig)?;
        let names = axiom_names(alloc, &sig)?;
        Ok(Level {
            statement: Statement {
                binders: Vec::new(alloc),
                target: target.formula.into_inner(),
            },
            sample,
            sig,
            theorems,
            names,
            available: available(alloc, sample, tactics)?,
        })
    }

    /// The lines that a player's bytes get in the level.
    pub fn told(&self, alloc: Global, bytes: &[u8]) -> Result<String, AllocError>
        requires { CanAttempt (lookup_in self.now) self.now.statement }
        ensures lines { (g : Stated) → IsLevel g self.now → IfOk result (λ text. string_bytes text ≡ lines_of nothing (played g bytes.now)) }
        ensures won { (g : Stated) → IsLevel g self.now → IfOk result (λ text. played g bytes.now ≡ Closed → IsTrue g) }
    {
        pg_attempt::told(alloc, &self.statement, bytes, &self.lookup())
    }

    /// Whether the sample wins the level; so it is where there is none.
    fn is_won_by_sample(&self, alloc: Global) -> Result<bool, AllocError>
        requires { CanAttempt (lookup_in self.now) self.now.statement }
        ensures { (g : Stated) → IsLevel g self.now → IfOk result (λ won. Decides won (SampleWins g)) }
    {
        match self.sample {
            Sample::Sorry => Ok(true),
            Sample::Rfl => self.is_won_by(alloc, b"rfl"),
        }
    }

    /// Whether a player's bytes win the level.
    fn is_won_by(&self, alloc: Global, bytes: &[u8]) -> Result<bool, AllocError>
        requires { CanAttempt (lookup_in self.now) self.now.statement }
        ensures { (g : Stated) → IsLevel g self.now → IfOk result (λ won. Decides won (played g bytes.now ≡ Closed)) }
    {
        match attempt(alloc, &self.statement, bytes, &self.lookup())? {
            Outcome::Closed(_) => Ok(true),
            _ => Ok(false),
        }
    }

    /// What moves look up there.
    fn lookup(&self) -> Lookup<'_>
        ensures { lookup_of result ≡ lookup_in self.now }
    {
        Lookup {
            sig: &self.sig,
            theorems: &self.theorems,
            names: self.names.as_slice(),
            available: &self.available,
        }
    }
}

/// The names of the axioms, in their order.
fn axiom_names(alloc: Global, sig: &Signature) -> Result<Vec<Option<Name>>, AllocError>
    ensures { IfOk result (λ names. names.items ≡ map (λ x. Some x.name) (axioms (declarations sig.now))) }
{
    let mut names = Vec::new(alloc);
    for id in 0..sig.axiom_count() {
        names.push(Some(sig.axiom_name(id).copied(alloc)?))?;
    }
    Ok(names)
}

/// What each player has in the one level of a game with these moves.
fn available(
    alloc: Global,
    sample: Sample,
    tactics: Vec<TacticName>,
) -> Result<Available, AllocError>
    ensures { IfOk result (λ a. inventory a ≡ least_available (course sample tactics.items) 0) }
{
    let mut levels = Vec::new(alloc);
    levels.push(1)?;
    let mut needs = Vec::new(alloc);
    needs.push(Vec::new(alloc))?;
    let mut order = Vec::new(alloc);
    order.push(0)?;
    let mut items = Vec::new(alloc);
    items.push(level_items(alloc, sample, tactics))?;
    let course = Course::new(Graph::new(levels, needs), order, items);
    least_available(alloc, &course, LevelId(0))
}

/// What the level says of moves and theorems.
fn level_items(alloc: Global, sample: Sample, tactics: Vec<TacticName>) -> LevelItems
    ensures { level_of result ≡ items sample tactics.items }
{
    LevelItems {
        world: 0,
        new_tactics: tactics,
        new_theorems: Vec::new(alloc),
        own: 2,
        sampled: has_sample(sample),
        disabled_tactics: Vec::new(alloc),
        disabled_theorems: Vec::new(alloc),
        only_tactics: None,
        only_theorems: None,
    }
}

/// Whether there is a sample.
fn has_sample(sample: Sample) -> bool
    ensures { result ≡ has_sample sample }
{
    match sample {
        Sample::Rfl => true,
        Sample::Sorry => false,
    }
}
