//! Frames, of which moves make a proof, and the proof that they make.
#![tactic(auto)]

mod built;
mod frame;

pub use built::finish;
pub use frame::{Frame, Stage};
