//! Tests of serving a link, over links in memory.
#![tactic(auto)]

#[cfg(test)]
mod serving;
#[cfg(test)]
mod standing;
