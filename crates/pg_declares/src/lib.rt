//! The faults of what a game text declares, and what it declares.
#![tactic(auto)]

mod constant;
mod naming;
mod predicate;
mod reading;
mod sizes;
mod unread;

pub use constant::{declare_constant, read_constant};
pub use predicate::{declare_predicate, read_predicate};
pub use unread::{Undeclared, Unread};
