use crate::outside::{Object, Outside, ends, plays};
use std::alloc::{AllocError, Global};
use std::test::Fail;
use std::vec;

const ONE_IS_ONE: &str =
    "World \"W\"\nLevel 1\nStatement : succ 0 = succ 0 := by rfl\nNewTactic rfl\n";

const ONE_IS_ZERO: &str =
    "World \"W\"\nLevel 1\nStatement : succ 0 = 0 := by sorry\nNewTactic rfl\n";

const WITH_MOVES: &str =
    "World \"W\"\nLevel 1\nStatement : succ 0 = 0 := by sorry\nNewTactic rfl symm have exact by_cases exfalso intro rw revert cases\n";

const TWO_IS_TWO: &str =
    "World \"A_1\"\nLevel 1\nStatement : succ (succ 0) = (succ (succ (0))) := by sorry\nNewTactic rfl";

/// A text with so many of these bytes behind it: whoever cuts it has the text again.
fn padded(alloc: Global, text: &str, count: usize, byte: u8) -> Result<Vec<u8>, AllocError> {
    let mut bytes = text.as_bytes().to_vec(alloc)?;
    let padding = vec![in alloc; byte; count]?;
    bytes.extend_from_slice(&padding)?;
    Ok(bytes)
}

#[test]
fn a_script_is_won_open_or_stopped(rt: HostRuntime) -> Result<(), Fail> {
    let alloc = rt.alloc();
    for (game, script, lines) in [
        (ONE_IS_ONE, b"rfl".as_slice(), "won\n"),
        (ONE_IS_ZERO, b"rfl", "stopped 0 0 S6\n"),
        (ONE_IS_ZERO, b"foo", "stopped 0 0 S2\n"),
        (ONE_IS_ZERO, b"symm", "stopped 0 0 S3\n"),
        (ONE_IS_ONE, b"", "open 1\n⊢ succ 0 = succ 0\n"),
        (
            TWO_IS_TWO,
            b" -- a comment\n",
            "open 1\n⊢ succ (succ 0) = succ (succ 0)\n",
        ),
        (
            TWO_IS_TWO,
            b"-- a comment\n  rfl /- and another -/\n",
            "won\n",
        ),
        (ONE_IS_ONE, b"rfl rfl", "stopped 0 0 S1\n"),
        (ONE_IS_ONE, b"rfl $", "stopped 0 0 S1\n"),
        (ONE_IS_ONE, b"\"rfl\"", "stopped 0 0 S1\n"),
        (ONE_IS_ONE, b"rfl \xff", "stopped 0 0 S1\n"),
    ] {
        assert!(rt;
            plays(alloc, game.as_bytes(), script, (0, lines))?,
            "{script:?}"
        );
    }
    Ok(())
}

#[test]
fn scripts_use_the_moves_of_the_level(rt: HostRuntime) -> Result<(), Fail> {
    let alloc = rt.alloc();
    for (script, lines) in [
        ("symm", "open 1\n⊢ 0 = succ 0\n"),
        ("symm\nrfl", "stopped 1 0 S6\n"),
        ("left", "stopped 0 0 S3\n"),
        ("intro x", "stopped 0 0 S7\n"),
        ("exact h", "stopped 0 0 S4\n"),
        ("exact succ_inj", "stopped 0 0 S5\n"),
        ("have h : 0 = x", "stopped 0 0 S13\n"),
        ("have succ : 0 = 0", "stopped 0 0 S10\n"),
        (
            "have h : 0 = 0",
            "open 2\n⊢ 0 = 0\nh : 0 = 0\n⊢ succ 0 = 0\n",
        ),
        ("have h : 0 = 0\n· rfl\n· exact h", "stopped 4 0 S14\n"),
        ("have h : 0 = 0\n· symm", "stopped 1 0 S15\n"),
        (
            "have h : 0 = 0\nrfl\nrw [h]",
            "open 1\nh : 0 = 0\n⊢ succ 0 = 0\n",
        ),
        ("have h : succ 0 = 0\nexact h", "stopped 1 0 S4\n"),
        (
            "by_cases h : succ 0 = 0\n· exact h\nrevert h",
            "open 1\n⊢ succ 0 ≠ 0 → succ 0 = 0\n",
        ),
        ("exfalso", "open 1\n⊢ False\n"),
        ("exfalso\nexfalso\n· rfl", "stopped 3 0 S7\n"),
        ("have h : succ 0 = 0\n· exfalso\n  rfl", "stopped 3 0 S7\n"),
    ] {
        assert!(rt;
            plays(alloc, WITH_MOVES.as_bytes(), script.as_bytes(), (0, lines))?,
            "{script}"
        );
    }
    Ok(())
}

#[test]
fn a_script_has_at_most_16384_bytes(rt: HostRuntime) -> Result<(), Fail> {
    let alloc = rt.alloc();
    for (blanks, lines) in [(16_381, "won\n"), (16_382, "stopped 0 0 S1\n")] {
        let script = padded(alloc, "rfl", blanks, b' ')?;
        assert!(rt;
            plays(alloc, ONE_IS_ONE.as_bytes(), &script, (0, lines))?,
            "{blanks}"
        );
    }
    Ok(())
}

#[test]
fn a_game_has_at_most_1048576_bytes(rt: HostRuntime) -> Result<(), Fail> {
    let alloc = rt.alloc();
    let room = 1_048_576 - ONE_IS_ONE.len();
    for (count, byte, want) in [
        (room, b'\n', (0, "won\n")),
        (room + 1, b'\n', (2, "game later\n")),
        (1, b'\xff', (2, "game later\n")),
    ] {
        let game = padded(alloc, ONE_IS_ONE, count, byte)?;
        assert!(rt; plays(alloc, &game, b"rfl", want)?, "{count}");
    }
    Ok(())
}

/// A game that states `(((0))) = 0` with so many parentheses.
fn nested(alloc: Global, depth: usize) -> Result<String, AllocError> {
    let mut game = String::from_str(alloc, "World \"W\"\nLevel 1\nStatement : ")?;
    for _ in 0..depth {
        game.push_str("(")?;
    }
    game.push_str("0")?;
    for _ in 0..depth {
        game.push_str(")")?;
    }
    game.push_str(" = 0 := by rfl\nNewTactic rfl")?;
    Ok(game)
}

#[test]
fn a_game_has_at_most_100_open_parentheses(rt: HostRuntime) -> Result<(), Fail> {
    let alloc = rt.alloc();
    for (depth, want) in [(100, (0, "won\n")), (101, (2, "game later\n"))] {
        let game = nested(alloc, depth)?;
        assert!(rt; plays(alloc, game.as_bytes(), b"rfl", want)?, "{depth}");
    }
    Ok(())
}

#[test]
fn other_games_are_refused(rt: HostRuntime) -> Result<(), Fail> {
    let alloc = rt.alloc();
    for game in [
        "",
        "World \"W\"\nLevel 1\nStatement : succ 0 = 0 := by rfl\nNewTactic rfl",
        "World \"W\"\nLevel 2\nStatement : 0 = 0 := by rfl\nNewTactic rfl",
        "World \"1W\"\nLevel 1\nStatement : 0 = 0 := by rfl\nNewTactic rfl",
        "World \"W\" Level 1\nStatement : 0 = 0 := by rfl\nNewTactic rfl",
        "World \"W\"\n Level 1\nStatement : 0 = 0 := by rfl\nNewTactic rfl",
        "World \"W\"\nLevel 1\nStatement : 0 =\n0 := by rfl\nNewTactic rfl",
        "World \"W\"\nLevel 1\nStatement : succ succ 0 = 0 := by sorry\nNewTactic rfl",
        "World \"W\"\nLevel 1\nStatement : (0 = 0 := by sorry\nNewTactic rfl",
        "World \"W\"\nLevel 1\nStatement : 0 = 0 := by rfl\nNewTactic",
        "World \"W\"\nLevel 1\nStatement : 0 = 0 := by rfl\nNewTactic symm",
        "World \"W\"\nLevel 1\nStatement : 0 = 0 := by rfl\nNewTactic rfl foo",
        "World \"W\"\nLevel 1\nStatement : 0 = 0 := by symm\nNewTactic rfl symm",
        "World \"W\"\nLevel 1\nStatement : 0 = 0 := by rfl\nNewTactic rfl $",
        "World \"W\"\nLevel 1\nNewTactic rfl\nStatement : 0 = 0 := by rfl",
    ] {
        assert!(rt;
            plays(alloc, game.as_bytes(), b"rfl", (2, "game later\n"))?,
            "{game}"
        );
    }
    Ok(())
}

/// The outside of a run on these words, with a game that the script wins.
fn winning<'a>(words: &'a [&'a str]) -> Outside<'a> {
    Outside {
        words,
        game: ONE_IS_ONE.as_bytes(),
        script: Some(b"rfl"),
        failing: None,
    }
}

#[test]
fn words_are_play_and_a_name(rt: HostRuntime) -> Result<(), Fail> {
    let alloc = rt.alloc();
    let cases: [(&[&str], (u8, &str)); 9] = [
        (&[], (1, "words\n")),
        (&["play"], (1, "words\n")),
        (&["play", ""], (1, "words\n")),
        (&["play", "-GAME"], (1, "words\n")),
        (&["play", "GAME", "GAME"], (1, "words\n")),
        (&["", "GAME"], (1, "words\n")),
        (&["check", "GAME"], (1, "words\n")),
        (&["GAME", "play"], (1, "words\n")),
        (&["play", "other"], (3, "file other\n")),
    ];
    for (words, want) in cases {
        assert!(rt; ends(alloc, winning(words), want)?, "{words:?}");
    }
    Ok(())
}

#[test]
fn each_object_fails_in_turn(rt: HostRuntime) -> Result<(), Fail> {
    let alloc = rt.alloc();
    let won = (0, "won\n");
    let door = (8, "door\n");
    for (object, number, want) in [
        (Object::Files, 0, (3, "file GAME\n")),
        (Object::Files, 1, won),
        (Object::Door, 0, door),
        (Object::Door, 1, door),
        (Object::Door, 2, won),
        (Object::Link, 0, door),
        (Object::Link, 1, door),
        (Object::Link, 2, door),
        (Object::Link, 3, won),
        (Object::Out, 0, (5, "")),
        (Object::Out, 1, won),
    ] {
        let outside = Outside {
            failing: Some((object, number)),
            ..winning(&["play", "GAME"])
        };
        assert!(rt; ends(alloc, outside, want)?, "{object:?} {number}");
    }
    Ok(())
}

#[test]
fn a_door_without_a_connection_gives_an_empty_script(rt: HostRuntime) -> Result<(), Fail> {
    let outside = Outside {
        script: None,
        ..winning(&["play", "GAME"])
    };
    let want = (0, "open 1\n⊢ succ 0 = succ 0\n");
    assert!(rt; ends(rt.alloc(), outside, want)?);
    Ok(())
}
