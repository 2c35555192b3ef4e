// Which command a piece is.
ghost use Rattle.std.specs.Prelude.{◌≡◌, IfOk};
ghost use Rattle.pg_gametext.specs.Placed.{command_of, word_command, level_command};
ghost use Rattle.pg_commands.specs.View.{command, piece};

use crate::kind::{is_command, is_passed};
use crate::piece::Piece;
use crate::which::{Listed, Which};
use pg_base::Token;
use pg_forms::{
    ConstantText, FunctionText, Kind, Link, PredicateText, StatementText, Told, constant_told,
    function_told, links_told, names_told, one_token, predicate_told, statement_told,
};
use std::alloc::{AllocError, Global};

/// A command of a game text, with what was told of its tokens (docs/GAME-TEXT.md, "Whole games").
#[derive(Drop)]
pub enum Command<'t, 'a> {
    /// `Game TEXT`
    Game(Told<Option<Token<'a>>>),
    /// `Title`, `Introduction` or `Conclusion`, and a text.
    Text(Which, Told<Option<Token<'a>>>),
    /// `World TEXT`
    World(Told<Option<Token<'a>>>),
    /// `Level NUMBER`
    Level(Told<Option<Token<'a>>>),
    /// `Statement [TEXT] [NAME] BINDER .. : FORMULA := by BLOCK`
    Statement(Told<StatementText<'t, 'a>>),
    /// `NewTactic`, `DisabledTactic` or `OnlyTactic`, and names of moves.
    Tactics(Listed, Told<&'t [Token<'a>]>),
    /// `NewTheorem`, `DisabledTheorem` or `OnlyTheorem`, and names of theorems.
    Theorems(Listed, Told<&'t [Token<'a>]>),
    /// `Dependency W → W ..`
    Dependency(Told<Vec<Link<'a>>>),
    /// `Function f (x ..) | N : L = R | N : L = R`
    Function(Told<FunctionText<'t, 'a>>),
    /// `Constant c := TERM as N`
    Constant(Told<ConstantText<'t, 'a>>),
    /// `Predicate p (x ..) := FORMULA`
    Predicate(Told<PredicateText<'t, 'a>>),
    /// A command that is passed over.
    Passed,
    /// Tokens that begin with no command's word.
    NoCommand,
}

/// The command that a piece is, with what is told of its tokens: the parts up to the first token with which no such
/// command goes on. It fails only for want of memory, and takes time linear in the piece.
pub fn command_of<'t, 'a>(alloc: Global, cut: Piece<'t, 'a>) -> Result<Command<'t, 'a>, AllocError>
    ensures command { IfOk result (λ c. command c ≡ command_of (piece cut.entry)) }
{
    if !is_command(&cut.word) {
        return Ok(Command::NoCommand);
    }
    if is_passed(&cut.word) {
        return Ok(Command::Passed);
    }
    word_command(alloc, cut)
}

/// A command of a game or a level.
fn word_command<'t, 'a>(alloc: Global, cut: Piece<'t, 'a>) -> Result<Command<'t, 'a>, AllocError>
    ensures { IfOk result (λ c. command c ≡ word_command (piece cut.entry)) }
{
    let Piece { word, body, end } = cut;
    match word.text {
        "Game" => Ok(Command::Game(one_token(Kind::Text, end, body))),
        "World" => Ok(Command::World(one_token(Kind::Text, end, body))),
        "Level" => Ok(Command::Level(one_token(Kind::Number, end, body))),
        "Dependency" => Ok(Command::Dependency(links_told(alloc, end, body)?)),
        "Function" => Ok(Command::Function(function_told(end, body))),
        "Constant" => Ok(Command::Constant(constant_told(end, body))),
        "Predicate" => Ok(Command::Predicate(predicate_told(end, body))),
        _ => level_command(alloc, cut),
    }
}

/// A command of a level.
fn level_command<'t, 'a>(alloc: Global, cut: Piece<'t, 'a>) -> Result<Command<'t, 'a>, AllocError>
    ensures { IfOk result (λ c. command c ≡ level_command (piece cut.entry)) }
{
    let Piece { word, body, end } = cut;
    match word.text {
        "Title" => Ok(Command::Text(Which::Title, one_token(Kind::Text, end, body))),
        "Introduction" => Ok(Command::Text(Which::Introduction, one_token(Kind::Text, end, body))),
        "Conclusion" => Ok(Command::Text(Which::Conclusion, one_token(Kind::Text, end, body))),
        "Statement" => Ok(Command::Statement(statement_told(alloc, end, body)?)),
        "NewTactic" => Ok(Command::Tactics(Listed::New, names_told(end, body))),
        "DisabledTactic" => Ok(Command::Tactics(Listed::Disabled, names_told(end, body))),
        "OnlyTactic" => Ok(Command::Tactics(Listed::Only, names_told(end, body))),
        "NewTheorem" => Ok(Command::Theorems(Listed::New, names_told(end, body))),
        "DisabledTheorem" => Ok(Command::Theorems(Listed::Disabled, names_told(end, body))),
        _ => Ok(Command::Theorems(Listed::Only, names_told(end, body))),
    }
}
