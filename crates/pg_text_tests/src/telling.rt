//! The commands of a game, and what stands before a place of it.
ghost use Rattle.std.specs.Prelude.{◌<◌, ◌^◌, length};

use pg_base::{Token, tokens_of};
use pg_commands::{Command, command_of, first_piece, standing};
use pg_faults::Fault;
use pg_places::Places;
use std::alloc::{AllocError, Global};
use std::test::Fail;

/// Eight commands behind a line that is passed over.
const GAME: &str =
    "import Game.Metadata\nGame \"NNG\"\nTitle \"Numbers\"\nWorld \"A\"\nDependency A → B\nLevel 1\nStatement zero (n : ℕ) : n = n := by rfl\nNewTactic rfl\nMakeGame\n";

/// The tokens that stand of a text without faults.
fn tokens(alloc: Global, text: &str) -> Result<Vec<Token<'_>>, AllocError>
    requires { length text.now < 2 ^ 32 }
{
    match tokens_of(alloc, text) {
        Ok(tokens) => standing(alloc, tokens.as_slice()),
        Err(_) => Err(AllocError),
    }
}

/// The tokens that are left to tell.
#[derive(Clone, Copy)]
struct Left<'t, 'a> {
    tokens: &'t [Token<'a>],
}

/// How many commands these tokens are, 0 where they don't begin with one.
fn command_count(alloc: Global, tokens: &[Token<'_>]) -> Result<u32, AllocError> {
    let mut left = Left { tokens };
    let mut count: u32 = 0;
    for _turn in 0..tokens.len() {
        match first_piece(0, left.tokens) {
            Some((piece, behind)) => {
                if matches!(command_of(alloc, piece)?, Command::NoCommand) {
                    return Ok(0);
                }
                count = count.saturating_add(1);
                left = Left { tokens: behind };
            }
            None => return Ok(count),
        }
    }
    Ok(count)
}

/// The fault of a world of this name behind no command, and of the text behind it.
fn faults_of_world(
    alloc: Global,
    name: &Token<'_>,
) -> Result<(Option<Fault>, Option<Fault>), AllocError> {
    let mut places = Places::new(alloc);
    let of_world = places.world_fault(alloc, 0, Some(name))?;
    places.add_world(alloc, 0, name)?;
    Ok((of_world, places.end_fault(9)))
}

#[test]
fn the_commands_of_a_game_are_told(rt: HostRuntime) -> Result<(), Fail> {
    let alloc = rt.alloc();
    let tokens = tokens(alloc, GAME)?;
    assert!(rt; command_count(alloc, tokens.as_slice())? == 8);
    Ok(())
}

#[test]
fn a_world_without_a_level_is_a_fault_of_the_end(rt: HostRuntime) -> Result<(), Fail> {
    let alloc = rt.alloc();
    let tokens = tokens(alloc, "\"A\"")?;
    assert!(rt; tokens.len() == 1);
    for name in &tokens {
        let (of_world, of_end) = faults_of_world(alloc, name)?;
        assert!(rt; of_world.is_none());
        assert!(rt; of_end.is_some());
    }
    Ok(())
}
