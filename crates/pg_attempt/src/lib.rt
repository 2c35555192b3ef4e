//! What a player's bytes come to on a statement, and the lines that tell it.
#![tactic(auto)]

mod printing;
mod telling;
mod trying;

pub use printing::lines;
pub use telling::told;
pub use trying::attempt;
