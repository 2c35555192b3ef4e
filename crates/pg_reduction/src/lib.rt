//! What acts of moves share: the reduction of a goal, the causes that stop one, the limits, and what a
//! part of a move is read as.
#![tactic(auto)]

mod cause;
mod found;
mod given;
mod limits;
mod naming;
mod reading;
mod reduction;
mod stopping;

pub use cause::{ActFault, Cause, Measure};
pub use found::{Found, boxed, changed_to, hypothesis_of};
pub use given::given_there;
pub use limits::{Others, first_large, first_large_goal, goal_nodes, large_nodes, over};
pub use naming::{given_name, new_name};
pub use reading::{formula_there, term_there};
pub use reduction::{Reduction, hyp_count, one, shut, two, var_count};
pub use stopping::{hypothesis_limit, target_limit};
