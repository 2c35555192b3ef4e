//! The tactics that carry hypotheses along with a variable: `revert`, `induction` and `cases`.
#![tactic(auto)]

mod carrying;
mod casing;
mod holding;
mod inducting;
mod naming;
mod reverting;

pub use casing::cases;
pub use inducting::induction;
pub use reverting::revert;
