// A game as it was read.
use pg_arith::Signature;
use pg_script::Script;
use pg_syntax::Statement;
use pg_terms::Name;
use pg_worlds::TacticName;

/// A game that a text means (docs/GAME-TEXT.md, "Whole games"). `'a` is how long the text is there: samples borrow from it.
#[derive(Drop)]
pub struct Game<'a> {
    /// The text of the first `Title` before all worlds, or else of `Game`, or else empty; so are the other texts where
    /// their command is not there.
    pub title: String,
    pub introduction: String,
    pub conclusion: String,
    /// The declared functions, constants and predicates.
    pub sig: Signature,
    /// The worlds in the order of the text.
    pub worlds: Vec<WorldText>,
    /// What the `Dependency` commands say, each once, in the order of the text.
    pub needs: Vec<Need>,
    /// The levels in the order of the text.
    pub levels: Vec<Level<'a>>,
}

/// What a text says of a world.
#[derive(Drop)]
pub struct WorldText {
    pub name: Name,
    pub title: String,
    pub introduction: String,
    /// How many levels it has.
    pub levels: u16,
}

/// One world has to be won before another: their places in the order of the text.
#[derive(Clone, Copy, Debug, PartialEq, Eq)]
pub struct Need {
    pub before: u16,
    pub after: u16,
}

/// A level.
#[derive(Drop)]
pub struct Level<'a> {
    /// The place of its world in the order of the text.
    pub world: u16,
    /// Its number in its world, from 1.
    pub number: u16,
    pub title: String,
    pub introduction: String,
    pub conclusion: String,
    /// The name of its theorem, where it has one.
    pub name: Option<Name>,
    /// What has to be proved.
    pub statement: Statement,
    /// The script of its block; None where that is `sorry`.
    pub sample: Option<Script<'a>>,
    pub new_tactics: Vec<TacticName>,
    pub new_theorems: Vec<Named>,
    pub disabled_tactics: Vec<TacticName>,
    pub disabled_theorems: Vec<Named>,
    /// The moves of its `OnlyTactic`, where that stands.
    pub only_tactics: Option<Vec<TacticName>>,
    /// The theorems of its `OnlyTheorem`, where that stands.
    pub only_theorems: Option<Vec<Named>>,
}

/// The name of a theorem, and the byte of the text at which it stands.
#[derive(Drop)]
pub struct Named {
    pub name: Name,
    pub at: u32,
}
