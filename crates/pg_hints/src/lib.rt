//! The sample of a statement: its script, its hints, and the first fault of either.
#![tactic(auto)]

mod block;
mod hints;
mod samples;
mod tokens;

pub use block::block_hints;
pub use hints::hints_left;
pub use samples::{SampleFault, sample};
