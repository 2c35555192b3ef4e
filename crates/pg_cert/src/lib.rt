//! Certificates as texts: the proof of a level, a line for each of its nodes.
#![tactic(auto)]

mod cert;
mod nodes;
mod spelling;
mod tasks;

pub use cert::{Cert, write_cert};
