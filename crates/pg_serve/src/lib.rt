//! Serving a link: the messages that it reads, answered in order, and their replies written.
#![tactic(auto)]

pub mod replying;
pub mod serving;

pub use serving::{LinkEnd, serve_link};
