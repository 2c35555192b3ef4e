//! Tests that certificates are written where there is memory.
#![tactic(auto)]

#[cfg(test)]
mod writing;
