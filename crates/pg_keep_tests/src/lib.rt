//! Tests of the keeper in memory and of rosters: that they don't always answer want of memory, which no contract can refuse.
#![tactic(auto)]

#[cfg(test)]
mod keeping;
#[cfg(test)]
mod rosters;
