//! The table of acts: what each part of each move does. Steps and runs of scripts by it.
#![tactic(auto)]

mod lists;
mod table;

pub use table::{Moves, run};
