//! The acts of moves: what each makes of a goal, with the frames of its proof, or why it stops.
#![tactic(auto)]

mod assuming;
mod casing;
mod closing;
mod giving;
mod unfolding;

pub use assuming::{assert, by_cases, symm, symm_at};
pub use casing::cases_hypothesis;
pub use closing::{constructor, exfalso, intro, left, rfl, right, witness};
pub use giving::{exact, have};
