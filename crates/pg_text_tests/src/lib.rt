//! Tests of the layers that tell the commands of a game text: that they don't always answer want of memory, which no
//! contract can refuse.
#![tactic(auto)]

#[cfg(test)]
mod telling;
