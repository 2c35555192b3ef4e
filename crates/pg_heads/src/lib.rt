//! The head of a message: where it ends, and what it says.
#![tactic(auto)]

pub mod read;
pub mod scan;

pub use read::{Found, Head, read_head};
pub use scan::{Scan, blank_front, head_scan};
