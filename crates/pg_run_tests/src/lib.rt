//! Tests of `pg_run` over the objects in memory.
#![tactic(auto)]

#[cfg(test)]
mod outside;
#[cfg(test)]
mod runs;
