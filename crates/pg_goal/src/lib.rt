//! Goals, what is looked up for them, and what expressions give in them.
#![tactic(auto)]

mod expression;
mod goal;
mod lookup;
mod opened;
mod shared;

pub use expression::{ExprFault, Given, gives};
pub use goal::{Goal, Hyp, Var, initial};
pub use lookup::{Lookup, NameFault};
pub use opened::opened_size;
pub use shared::Shared;
