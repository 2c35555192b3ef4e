//! What a game text means: titles, worlds, levels with their statements, samples and moves, and the declared symbols.
#![tactic(auto)]

mod game;

pub use game::{Game, Level, Named, Need, WorldText};
