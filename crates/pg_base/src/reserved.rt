// The words that name nothing.
ghost use Rattle.std.specs.Prelude.{◌≡◌};
ghost use Rattle.pg_base.specs.Reserved.{is_reserved, is_kept_word, is_level_word, is_game_word, is_passed_word};

/// Whether a name is reserved: a word of formulas and scripts, or the word of a game's command. Such
/// a name names no variable, function, hypothesis or move.
pub fn is_reserved(text: &str) -> bool
    ensures { result ≡ is_reserved text.now }
{
    is_kept_word(text) || is_game_word(text) || is_level_word(text) || is_passed_word(text)
}

/// A word of formulas and scripts.
fn is_kept_word(text: &str) -> bool
    ensures { result ≡ is_kept_word text.now }
{
    matches!(
        text,
        "succ" | "by" | "with" | "at" | "as" | "in" | "sorry" | "True" | "False" | "_"
    )
}

/// A game's command.
fn is_game_word(text: &str) -> bool
    ensures { result ≡ is_game_word text.now }
{
    matches!(
        text,
        "Game" | "World" | "Level" | "Dependency" | "Function" | "Constant" | "Predicate"
    )
}

/// A level's command.
fn is_level_word(text: &str) -> bool
    ensures { result ≡ is_level_word text.now }
{
    matches!(
        text,
        "Title"
            | "Introduction"
            | "Conclusion"
            | "Statement"
            | "NewTactic"
            | "DisabledTactic"
            | "OnlyTactic"
            | "NewTheorem"
            | "DisabledTheorem"
            | "OnlyTheorem"
    )
}

/// A command that is passed over.
fn is_passed_word(text: &str) -> bool
    ensures { result ≡ is_passed_word text.now }
{
    matches!(
        text,
        "TacticDoc"
            | "TheoremDoc"
            | "DefinitionDoc"
            | "NewDefinition"
            | "TheoremTab"
            | "CaptionShort"
            | "CaptionLong"
            | "Info"
            | "Languages"
            | "Prerequisites"
            | "CoverImage"
            | "MakeGame"
    )
}
