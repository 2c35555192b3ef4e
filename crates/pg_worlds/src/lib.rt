//! The order of worlds, which levels are open, and which moves and theorems a player has in a level.
#![tactic(auto)]

mod course;
mod flags;
mod graph;
mod inventory;
mod tactic_name;

pub use course::{Course, LevelId, LevelItems};
pub use graph::{Graph, WorldFault, world_order_law};
pub use inventory::{Available, Unlocked, least_available};
pub use tactic_name::TacticName;
