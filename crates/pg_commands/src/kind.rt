// The words that begin commands, and lines that are passed over.
ghost use Rattle.std.specs.Prelude.{◌≡◌};
ghost use Rattle.pg_base.specs.Reserved.{is_game_word, is_level_word, is_passed_word};
ghost use Rattle.pg_base.specs.Tokens.{word};
ghost use Rattle.pg_script.specs.Marks.{is_name};
ghost use Rattle.pg_gametext.specs.Commands.{begins_passed_line, ends_command, is_command, is_passed};

use pg_base::{Token, TokenKind};

/// Whether a line that begins with this token is passed over: one of four words at column 0 (docs/GAME-TEXT.md, "Lines that are passed over").
pub fn begins_passed_line(token: &Token<'_>) -> bool
    ensures { result ≡ begins_passed_line (word token.now) }
{
    is_name(token)
        && token.column == 0
        && matches!(token.text, "import" | "namespace" | "open" | "end")
}

/// Whether a token is the word of a command, also of one that is passed over.
pub fn is_command(token: &Token<'_>) -> bool
    ensures { result ≡ is_command (word token.now) }
{
    is_name(token)
        && (is_game_word(token.text) || is_level_word(token.text) || is_passed_word(token.text))
}

/// Whether a token is the word of a command that is passed over.
pub fn is_passed(token: &Token<'_>) -> bool
    ensures { result ≡ is_passed (word token.now) }
{
    is_name(token) && is_passed_word(token.text)
}

/// Whether a token ends the command before it; one that is passed over is ended at column 0 alone.
pub(crate) fn ends_command(passed: bool, token: &Token<'_>) -> bool
    ensures { result ≡ ends_command passed (word token.now) }
{
    is_command(token) && (!passed || token.column == 0)
}

/// A command of a game.
fn is_game_word(text: &str) -> bool
    ensures { result ≡ is_game_word text.now }
{
    matches!(
        text,
        "Game" | "World" | "Level" | "Dependency" | "Function" | "Constant" | "Predicate"
    )
}

/// A command of a level.
fn is_level_word(text: &str) -> bool
    ensures { result ≡ is_level_word text.now }
{
    matches!(
        text,
        "Title"
            | "Introduction"
            | "Conclusion"
            | "Statement"
            | "NewTactic"
            | "DisabledTactic"
            | "OnlyTactic"
            | "NewTheorem"
            | "DisabledTheorem"
            | "OnlyTheorem"
    )
}

/// A command that is passed over.
fn is_passed_word(text: &str) -> bool
    ensures { result ≡ is_passed_word text.now }
{
    matches!(
        text,
        "TacticDoc"
            | "TheoremDoc"
            | "DefinitionDoc"
            | "NewDefinition"
            | "TheoremTab"
            | "CaptionShort"
            | "CaptionLong"
            | "Info"
            | "Languages"
            | "Prerequisites"
            | "CoverImage"
            | "MakeGame"
    )
}

/// A name, reserved or not.
fn is_name(token: &Token<'_>) -> bool
    ensures { result ≡ is_name (word token.now) }
{
    matches!(token.kind, TokenKind::Name)
}
