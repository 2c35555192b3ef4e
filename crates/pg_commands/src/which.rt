// What a command is about, where several commands have one form.

/// The commands with a text of the game, a world or a level.
#[derive(Clone, Copy, Debug, PartialEq, Eq)]
pub enum Which {
    Title,
    Introduction,
    Conclusion,
}

/// The commands that list moves, and those that list theorems.
#[derive(Clone, Copy, Debug, PartialEq, Eq)]
pub enum Listed {
    /// `NewTactic`, `NewTheorem`
    New,
    /// `DisabledTactic`, `DisabledTheorem`
    Disabled,
    /// `OnlyTactic`, `OnlyTheorem`
    Only,
}
