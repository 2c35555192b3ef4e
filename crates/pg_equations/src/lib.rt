//! The equations of a game text: where tokens begin none.
#![tactic(auto)]

mod scan;

pub use scan::no_equation;
