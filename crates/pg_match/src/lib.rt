//! Instances of patterns, and terms replaced by others.
#![tactic(auto)]

mod fault;
mod found;
mod matching;
mod replacing;
mod searching;
mod sizing;
mod walking;

pub use fault::MatchFault;
pub use found::{Found, determined};
pub use matching::{match_formula, match_term};
pub use replacing::{changed, replaced, replaced_size};
pub use searching::first_instance;
pub use sizing::{Size, formula_instance_size, sizes, term_instance_size};
