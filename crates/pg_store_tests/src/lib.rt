//! Tests of the keeper over SQL: that a second keeper reads what a first one kept, and what is a counted fault.
#![tactic(auto)]

#[cfg(test)]
mod faults;
#[cfg(test)]
mod kept;
#[cfg(test)]
mod rows;
