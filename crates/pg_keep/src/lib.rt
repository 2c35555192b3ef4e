//! What keeps the submissions of a class: rows, of which a player's are given in order, and to which one is put last.
#![tactic(auto)]

mod keeper;
mod memory;
mod row;

pub use keeper::Keeper;
pub use memory::MemoryKeeper;
pub use row::Row;
