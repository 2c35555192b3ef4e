//! Where in a game text a command stands: worlds, levels, titles and statements before it, and what is wrong with it there.
#![tactic(auto)]

mod moves;
mod number;
mod places;
mod single;
mod texts;
mod world;

pub use places::{Places, others_law};
pub use texts::Texts;
pub use world::World;
