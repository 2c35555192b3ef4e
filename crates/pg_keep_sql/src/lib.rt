//! A keeper of a class's rows over an SQL database, in a file or in memory.
#![tactic(auto)]

mod keeper;
mod statements;
mod store;

pub use keeper::SqlKeeper;
