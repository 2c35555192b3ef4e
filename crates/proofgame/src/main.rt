//! Plays the level of a proof game: `proofgame play GAME`.
#![tactic(auto)]

use pg_base::{Pipe, RealFiles, StandardDoor, Writing};
use pg_run::{print, run};
use std::alloc::AllocError;
use std::env;
use std::process::ExitCode;

fn main(rt: HostRuntime) -> ExitCode {
    match started(&rt) {
        Ok(status) => ExitCode::from(status),
        Err(_) => ExitCode::from(print(&mut Writing::new(rt.stdout()), b"memory\n", 4)),
    }
}

/// A run over the real outside: the files of the system, standard input and standard output.
fn started(rt: &HostRuntime) -> Result<u8, AllocError> {
    let alloc = rt.alloc();
    let texts = words_of(rt)?;
    let mut words = Vec::new(alloc);
    for text in &texts {
        words.push(text.as_str())?;
    }
    let mut files = RealFiles::new(alloc, rt);
    let mut door = StandardDoor::new(alloc, Pipe::new(rt.stdin(), rt.stdout()));
    let mut out = Writing::new(rt.stdout());
    Ok(run(alloc, &words, &mut files, &mut door, &mut out))
}

/// The words after the program's name. Words that are no UTF-8 are no command.
fn words_of(rt: &HostRuntime) -> Result<Vec<String>, AllocError> {
    let mut words = Vec::new(rt.alloc());
    let Ok(args) = env::args(rt) else {
        return Ok(words);
    };
    for arg in args.skip(1) {
        words.push(arg)?;
    }
    Ok(words)
}
