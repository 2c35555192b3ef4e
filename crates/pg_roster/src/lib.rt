//! Reads the roster of a class: who plays, and with which pass.
#![tactic(auto)]

mod fault;
mod records;
mod roster;

pub use fault::RosterFault;
pub use roster::{Player, Roster, read_roster};
