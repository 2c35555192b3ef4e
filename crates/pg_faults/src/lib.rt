//! The faults of a game text, each at its place, and the first of several.
#![tactic(auto)]

mod fault;
mod order;

pub use fault::{Fault, Kind, LimitName};
pub use order::{earlier, sooner};
