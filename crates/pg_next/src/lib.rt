//! The next message of a connection's bytes.
#![tactic(auto)]

pub mod message;
pub mod next;
pub mod size;

pub use message::{Message, Refusal, What};
pub use next::{Next, next_message};
