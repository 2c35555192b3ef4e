//! Reading and writing a link: a whole reply, and the bytes of one message.
#![tactic(auto)]

pub mod reading;
pub mod writing;

pub use reading::{Filled, fill};
pub use writing::write_all;
