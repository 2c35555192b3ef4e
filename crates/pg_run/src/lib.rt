//! One run of the program: the words, the game's file and the script decide how it ends, and what it prints.
#![tactic(auto)]

mod ending;
mod game;
mod level;
mod numeral;
mod play;
mod printing;
mod script;
mod symbol;
mod words;

pub use play::run;
pub use printing::print;
