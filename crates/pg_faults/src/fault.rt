// What can be wrong at a place of a game text.
use pg_base::Wanted;

/// What is limited. At one place the first of these counts (docs/GAME-TEXT.md, "Limits").
#[derive(Clone, Copy, Debug, PartialEq, Eq)]
pub enum LimitName {
    Worlds,
    /// The levels of a world.
    Levels,
    /// Functions and constants.
    Functions,
    Predicates,
    /// The parameters of a function or a predicate.
    Arity,
    /// The tokens of a formula or a term.
    Tokens,
    /// Parentheses within one another, in formulas, terms and scripts.
    Nesting,
    /// The nodes of a formula.
    Nodes,
    /// The height of a formula.
    Height,
    /// The variables of a statement.
    Variables,
    /// The hypotheses of a statement.
    Hypotheses,
    /// The bytes of a script.
    ScriptBytes,
    /// The steps of a script.
    Steps,
    /// Blocks within one another.
    Blocks,
    /// The hints of a game.
    Hints,
}

/// What is wrong. The codes are those of docs/GAME-TEXT.md, "Faults".
#[derive(Clone, Copy, Debug, PartialEq, Eq)]
pub enum Kind {
    /// G3: no token begins here, or one isn't ended.
    BadToken,
    /// G4: no such command goes on here so, or the command is out of its place; this could stand here.
    Expected(Wanted),
    /// G5: what stands here is the name of nothing.
    Unknown,
    /// G6: the name or the text was given before, first at this byte.
    Duplicate(u32),
    /// G7: the number of a level is another than this one.
    LevelGap(u32),
    /// G12: a limit is passed; so many there are, or so many were reached.
    Limit(LimitName, u32),
    /// G13: an equation is no recursion on the last parameter.
    NotRecursive,
}

/// A fault, and the byte of the text at which it stands.
#[derive(Clone, Copy, Debug, PartialEq, Eq)]
pub struct Fault {
    pub at: u32,
    pub kind: Kind,
}
