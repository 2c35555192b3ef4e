//! The requests and replies of a connection, and the service that answers them.
#![tactic(auto)]

pub mod reply;
pub mod service;

pub use reply::{BodyKind, Reply, reply_bytes};
pub use service::{Request, Service};
