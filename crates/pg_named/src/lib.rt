//! The names of a game text: which are given and bound before a place, and the first fault of those that a command gives
//! or binds.
#![tactic(auto)]

mod binders;
mod bound;
mod given;
mod laws;
mod names;
mod search;

pub use bound::parameters_fault;
pub use given::{
    Given, GivenNames, constant_names, function_names, predicate_names, statement_names,
};
pub use laws::rising_law;
pub use names::Names;
