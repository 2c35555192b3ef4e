//! The door of this machine: its standard streams, or a port on 127.0.0.1.
#![tactic(auto)]

mod door;
mod ends;

pub use door::HostDoor;
pub use ends::{Input, Output};
