//! Tests of the objects of `pg_base`: those in memory, and those over the system's files and streams.
#![tactic(auto)]

#[cfg(test)]
mod door;
#[cfg(test)]
mod files;
#[cfg(test)]
mod memory;
#[cfg(test)]
mod standard;
