//! Steps and runs of scripts, over any table of acts.
#![tactic(auto)]

mod act;
mod laws;
mod moving;
mod running;
mod state;

pub use act::Acts;
pub use laws::{items_law, script_law};
pub use running::{Outcome, Stop, run};
pub use state::State;
