// One run of the program.
ghost use Rattle.std.specs.Prelude.{◌≡◌, IfOk, IsSome};
ghost use Rattle.pg_attempt.specs.Attempts.{CanAttempt};
ghost use Rattle.pg_base.specs.Outside.{Rose};
ghost use Rattle.pg_run.specs.Asked.{told_door, DoorFailed, UsesDoorAt, Asks};
ghost use Rattle.pg_run.specs.Game.{Stated};
ghost use Rattle.pg_run.specs.Level.{IsLevel, lookup_in};
ghost use Rattle.pg_run.specs.Run.{PlaysAt, EndsText, EndsRun, Runs, Wins, PrintsWon, PrintsWonUnless, TellsScript};

use crate::ending::{Ending, status_of, text_of};
use crate::game::GAME_LIMIT;
use crate::level::{Level, level_in};
use crate::printing::print;
use crate::script::script_at;
use crate::words::game_name;
use pg_base::{Door, Files, OutFault, Sink};
use std::alloc::Global;

/// One run of the program. The words are `play` and the name of a game's file; the script is that of the door's first
/// connection. It prints how the run ends and gives its status ("Statuses" in docs/COMMAND-LINE.md).
pub fn run<F: Files, D: Door, O: Sink>(
    alloc: Global,
    words: &[&str],
    files: &mut F,
    door: &mut D,
    out: &mut O,
) -> u8
    ensures files { F.files files.new ≡ F.files files.old }
    ensures runs { let tells = told_door D.coming D.finished D.places D.given D.ended D.faults in
        Runs words.now
        (F.files files.old) (F.asked files.old) (F.asked files.new)
        (Rose (F.faults files.old) (F.faults files.new))
        (tells door.old) (tells door.new)
        result (O.written out.old) (O.written out.new)
        (Rose (O.write_faults out.old) (O.write_faults out.new)) }

    // `won` is printed exactly where the words, the game and the script are so, a counted fault and
    // want of memory aside.
    ensures won_only { PrintsWon result (O.written out.old) (O.written out.new)
        → Wins words.now (F.files files.old) (D.coming door.old) }
    ensures won_where { let tells = told_door D.coming D.finished D.places D.given D.ended D.faults in
        Wins words.now (F.files files.old) (D.coming door.old)
        → IsSome (F.files files.old) → TellsScript (D.coming door.old)
        → PrintsWonUnless (Rose (F.faults files.old) (F.faults files.new))
        (DoorFailed (tells door.old) (tells door.new))
        result (O.written out.old) (O.written out.new)
        (Rose (O.write_faults out.old) (O.write_faults out.new)) }
{
    let ending = play(alloc, words, files, door);
    match text_of(alloc, &ending) {
        Ok(lines) => print(out, lines.as_bytes(), status_of(&ending)),
        Err(_) => print(out, b"memory\n", 4),
    }
}

/// The words decide, then the file, and then its text.
fn play<'a, F: Files, D: Door>(
    alloc: Global,
    words: &[&'a str],
    files: &mut F,
    door: &mut D,
) -> Ending<'a>
    ensures files { F.files files.new ≡ F.files files.old }
    ensures asks { let tells = told_door D.coming D.finished D.places D.given D.ended D.faults in
        Asks words.now (F.asked files.old) (F.asked files.new) (tells door.old) (tells door.new) result }
    ensures ends { let tells = told_door D.coming D.finished D.places D.given D.ended D.faults in
        EndsRun words.now (F.files files.old) (D.coming door.old)
        (Rose (F.faults files.old) (F.faults files.new))
        (DoorFailed (tells door.old) (tells door.new)) result }
{
    let Some(name) = game_name(words) else {
        return Ending::Words;
    };
    let text = match files.read(alloc, name, GAME_LIMIT) {
        Ok(text) => text,
        Err(OutFault::Failed) => return Ending::File(name),
        Err(OutFault::OutOfMemory) => return Ending::Memory,
    };
    play_text(alloc, &text, door)
}

/// The game's text decides, and then the script.
fn play_text<D: Door>(alloc: Global, text: &[u8], door: &mut D) -> Ending<'static>
    ensures uses { let tells = told_door D.coming D.finished D.places D.given D.ended D.faults in
        UsesDoorAt (tells door.old) (tells door.new) result }
    ensures ends { let tells = told_door D.coming D.finished D.places D.given D.ended D.faults in
        EndsText text.now (D.coming door.old) (DoorFailed (tells door.old) (tells door.new)) result }
{
    match level_in(alloc, text) {
        Ok(Some(level)) => play_level(alloc, &level, door),
        Ok(None) => Ending::OtherGame,
        Err(_) => Ending::Memory,
    }
}

/// The script of the door's connection decides.
fn play_level<D: Door>(alloc: Global, level: &Level, door: &mut D) -> Ending<'static>
    requires { CanAttempt (lookup_in level.now) level.now.statement }
    ensures uses { let tells = told_door D.coming D.finished D.places D.given D.ended D.faults in
        UsesDoorAt (tells door.old) (tells door.new) result }
    ensures plays { let tells = told_door D.coming D.finished D.places D.given D.ended D.faults in
        (g : Stated) → IsLevel g level.now → PlaysAt g (D.coming door.old)
        (DoorFailed (tells door.old) (tells door.new)) result }
{
    match script_at(alloc, door) {
        Ok(bytes) => match level.told(alloc, &bytes) {
            Ok(lines) => Ending::Played(lines),
            Err(_) => Ending::Memory,
        },
        Err(OutFault::Failed) => Ending::Door,
        Err(OutFault::OutOfMemory) => Ending::Memory,
    }
}
